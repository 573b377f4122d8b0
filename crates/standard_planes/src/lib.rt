// With what `limits` and `levels` leave, each line is 7.14.6's and each level 7.14.5's. The function does nothing: its contract puts the
// theorems where a reader sees them.
#![tactic(auto)]

ghost use Rattle.standard_planes.specs.Promises.{Promises};

// The theorems of specs/Promises.antt are proved.
pub fn promised()
    ensures { Promises }
{}
