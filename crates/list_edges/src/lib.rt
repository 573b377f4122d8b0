// The list of the edges of a frame. Definitions in specs/, and the theorems of specs/Promises.antt.
#![tactic(auto)]

ghost use Rattle.list_edges.specs.Promises.{Promises};

pub fn promised()
    ensures { Promises }
{}
