// Masks recorded from legal blocks hold the standard's edges and keep the gap rule, so demand 3 holds. The function does nothing: its
// contract puts the theorems where a reader sees them.
#![tactic(auto)]

ghost use Rattle.kept.specs.Promises.{Promises};

pub fn promised()
    ensures { Promises }
{}
