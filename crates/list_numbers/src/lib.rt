// What `list` prints, exactly when. The function does nothing: its contract puts the theorems where a reader and `rt ci` see them.
#![tactic(auto)]

ghost use Rattle.list_numbers.specs.Promises.{Promises};

pub fn promised()
    ensures { Promises }
{}
