// Several tiles, recorded each with contexts of its own and corrected at their starts, leave the standard's edges. The function does
// nothing: its contract puts the theorems where a reader sees them.
#![tactic(auto)]

ghost use Rattle.tiles.specs.Promises.{Promises};

pub fn promised()
    ensures { Promises }
{}
