// The calls that record the blocks of a tile, one after another, draw them in each plane. The function does nothing: its contract puts the theorems where a reader sees them.
#![tactic(auto)]

ghost use Rattle.blocks.specs.Promises.{Promises};

pub fn promised()
    ensures { Promises }
{}
