// What a legal block records is 7.14.2 and 7.14.3 of the standard. The function does nothing: its contract puts the theorems where a reader
// sees them.
#![tactic(auto)]

ghost use Rattle.agree.specs.Promises.{Promises};

pub fn promised()
    ensures { Promises }
{}
