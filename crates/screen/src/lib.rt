// What 7.14.2 has on the screen, in units of a plane, is what is recorded. The function does nothing: its contract puts the theorems where
// a reader sees them.
#![tactic(auto)]

ghost use Rattle.screen.specs.Promises.{Promises};

pub fn promised()
    ensures { Promises }
{}
