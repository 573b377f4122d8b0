// The refusal of a block: of the faults, in their order, the first that it has.
ghost use Rattle.std.specs.Prelude.{◌≡◌};
ghost use Rattle.refusals.specs.Numbers.{answered};
ghost use Rattle.block.specs.Block.{lent};
ghost use Rattle.block.specs.Tests.{number};

use super::faults::{block_bad, code_bad, contexts_bad, length_bad, shape_bad};
use crate::Block;
use refusals::Refusal;
use units::sizes::{block_high, block_wide};

#[tactic(auto, unfolding(crate::specs::Tests::number))]
pub fn check(
    b: Block,
    level_stride: usize,
    levels: &[u8],
    masks: &[u16],
    above: &[u8],
    left: &[u8],
    above_uv: &[u8],
    left_uv: &[u8],
) -> Result<(), Refusal>
    ensures { answered result ≡ number b level_stride (lent levels.now masks.now above.now left.now above_uv.now left_uv.now) }
{
    if shape_bad(b) {
        return Err(Refusal::Shape);
    }
    if code_bad(b) {
        return Err(Refusal::Block);
    }
    let w = block_wide(b.size);
    let h = block_high(b.size);
    if block_bad(b, w, h) {
        return Err(Refusal::Block);
    }
    if contexts_bad(b, w, h, above, left, above_uv, left_uv) {
        return Err(Refusal::Context);
    }
    if length_bad(b, level_stride, levels.len(), masks.len()) {
        return Err(Refusal::Length);
    }
    Ok(())
}
