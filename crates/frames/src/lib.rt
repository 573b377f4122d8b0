// Demand 3: any order and any division of the edge pieces of a frame gives one result, of the calls that filter it. The function does
// nothing: its contract puts the theorems where a reader and `rt ci` see them.
#![tactic(auto)]

ghost use Rattle.frames.specs.Promises.{Promises};

pub fn promised()
    ensures { Promises }
{}
