// What `params` reads and writes: the numbers, the two round trips, and that `limits` and `levels` take what was read.
#![tactic(auto)]

ghost use Rattle.round_trips.specs.Promises.{Promises};

// The theorems of specs/Promises.antt are proved.
pub fn promised()
    ensures { Promises }
{}
