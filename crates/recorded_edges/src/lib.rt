// The edges that one accepted block, and one correction, leave are 7.14.2's and 7.14.3's. The function does nothing: its contract puts the
// theorems where a reader sees them.
#![tactic(auto)]

ghost use Rattle.recorded_edges.specs.Promises.{Promises};

pub fn promised()
    ensures { Promises }
{}
