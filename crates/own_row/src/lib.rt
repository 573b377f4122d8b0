// A call looks only at its own superblock row, so level bytes and masks may still change elsewhere. The function does nothing: its contract
// puts the theorems where a reader sees them.
#![tactic(auto)]

ghost use Rattle.own_row.specs.Promises.{Promises};

pub fn promised()
    ensures { Promises }
{}
