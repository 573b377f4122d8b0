// The faults of the numbers 4 to 7.
ghost use Rattle.std.specs.Prelude.{◌≡◌, true, ◌<◌, ◌≤◌};
ghost use Rattle.block.specs.Block.{w4, h4, block_width, block_height, Sides};
ghost use Rattle.block.specs.Tests.{shape_bad, code_bad, place_bad, luma_tx_bad, chroma_tx_bad, tx_bad, max_tx_bad, ref_bad, block_bad, context_bad, luma_contexts_bad};
ghost use Rattle.block.specs.Tests.{chroma_contexts_bad, contexts_bad, length_bad};

use crate::{Block, chroma_across, chroma_down, luma_across, luma_down, seen};
use units::frame::frame_ok;
use units::layout::{has_chroma, layout_ok, ss_hor, ss_ver};
use units::memory::{levels_ok, masks_ok};
use units::sizes::{max_tx_rect, tx_high, tx_wide};
use units::{ChromaUnit, LumaUnit, chroma_units, luma_units};

pub fn shape_bad(b: Block) -> bool
    ensures { result ≡ shape_bad b }
{
    (!layout_ok(b.layout) | !frame_ok(b.width, b.height)) | (b.chroma & !has_chroma(b.layout))
}

pub fn code_bad(b: Block) -> bool
    ensures { result ≡ code_bad b }
{
    ((21 < b.size) | (18 < b.tx)) | (b.chroma & (18 < b.uvtx))
}

// Here and below w and h are the block's sides.
fn place_bad(b: Block, w: LumaUnit, h: LumaUnit) -> bool
    requires { Sides b × (w.0 ≡ block_width b) × (h.0 ≡ block_height b) }
    ensures { result ≡ place_bad b }
{
    let odd = (b.x.0 % w.0 != 0) | (b.y.0 % h.0 != 0);
    odd | ((luma_units(b.width).0 < b.x.0) | (luma_units(b.height).0 < b.y.0))
}

fn luma_tx_bad(b: Block, w: LumaUnit, h: LumaUnit) -> bool
    requires { (b.tx < 19) × (w.0 ≡ block_width b) × (h.0 ≡ block_height b) }
    ensures { result ≡ luma_tx_bad b }
{
    (w.0 < tx_wide::<LumaUnit>(b.tx).0) | (h.0 < tx_high::<LumaUnit>(b.tx).0)
}

fn chroma_tx_bad(b: Block, w: LumaUnit, h: LumaUnit) -> bool
    requires { (b.size < 22) × (b.chroma ≡ true → b.uvtx < 19) × (w.0 ≡ block_width b) × (h.0 ≡ block_height b) }
    ensures { result ≡ chroma_tx_bad b }
{
    if !b.chroma {
        return false;
    }
    let cw = chroma_units(w, ss_hor(b.layout)).0;
    let ch = chroma_units(h, ss_ver(b.layout)).0;
    (cw < tx_wide::<ChromaUnit>(b.uvtx).0) | (ch < tx_high::<ChromaUnit>(b.uvtx).0)
}

fn tx_bad(b: Block, w: LumaUnit, h: LumaUnit) -> bool
    requires { ((b.size < 22) × (b.tx < 19) × (b.chroma ≡ true → b.uvtx < 19)) × (w.0 ≡ block_width b) × (h.0 ≡ block_height b) }
    ensures { result ≡ tx_bad b }
{
    luma_tx_bad(b, w, h) | chroma_tx_bad(b, w, h)
}

fn max_tx_bad(b: Block) -> bool
    requires { b.size < 22 }
    ensures { result ≡ max_tx_bad b }
{
    b.inter & ((b.tx != max_tx_rect(b.size)) & (b.tx != 0))
}

fn reference_bad(b: Block) -> bool
    ensures { result ≡ ref_bad b }
{
    b.inter & (7 < b.reference)
}

pub fn block_bad(b: Block, w: LumaUnit, h: LumaUnit) -> bool
    requires { ((b.width.0 ≤ 16384) × (b.height.0 ≤ 16384)) × ((b.size < 22) × (b.tx < 19) × (b.chroma ≡ true → b.uvtx < 19)) × (w.0 ≡ block_width b) × (h.0 ≡ block_height b) }
    ensures { result ≡ block_bad b }
{
    place_bad(b, w, h) | (tx_bad(b, w, h) | (max_tx_bad(b) | reference_bad(b)))
}

pub fn context_bad(ctx: &[u8], n: usize, most: u8) -> bool
    ensures { result ≡ context_bad n most ctx.now }
{
    ctx.len() < n || ctx[..n].iter().any(|c| most < *c)
}

fn luma_contexts_bad(b: Block, across: LumaUnit, down: LumaUnit, above: &[u8], left: &[u8]) -> bool
    requires { Sides b × (b.x.0 ≤ w4 b) × (b.y.0 ≤ h4 b) × (across.0 ≡ block_width b) × (down.0 ≡ block_height b) }
    ensures { result ≡ luma_contexts_bad b above.now left.now }
{
    let w = luma_across(b, across).0;
    let h = luma_down(b, down).0;
    if !seen(w, h) {
        return false;
    }
    context_bad(above, w, 2) | context_bad(left, h, 2)
}

fn chroma_contexts_bad(
    b: Block,
    across: LumaUnit,
    down: LumaUnit,
    above: &[u8],
    left: &[u8],
) -> bool
    requires { Sides b × (b.x.0 ≤ w4 b) × (b.y.0 ≤ h4 b) × (across.0 ≡ block_width b) × (down.0 ≡ block_height b) }
    ensures { result ≡ chroma_contexts_bad b above.now left.now }
{
    if !b.chroma {
        return false;
    }
    let w = chroma_across(b, across).0;
    let h = chroma_down(b, down).0;
    if !seen(w, h) {
        return false;
    }
    context_bad(above, w, 1) | context_bad(left, h, 1)
}

pub fn contexts_bad(
    b: Block,
    w: LumaUnit,
    h: LumaUnit,
    above: &[u8],
    left: &[u8],
    above_uv: &[u8],
    left_uv: &[u8],
) -> bool
    requires { Sides b × (b.x.0 ≤ w4 b) × (b.y.0 ≤ h4 b) × (w.0 ≡ block_width b) × (h.0 ≡ block_height b) }
    ensures { result ≡ contexts_bad b above.now left.now above_uv.now left_uv.now }
{
    luma_contexts_bad(b, w, h, above, left) | chroma_contexts_bad(b, w, h, above_uv, left_uv)
}

pub fn length_bad(b: Block, level_stride: usize, levels: usize, masks: usize) -> bool
    requires { Sides b × (0 < b.height.0) }
    ensures { result ≡ length_bad b level_stride levels masks }
{
    let w4 = luma_units(b.width);
    let h4 = luma_units(b.height);
    !levels_ok(levels, level_stride, w4, h4) | !masks_ok(masks, w4, h4)
}
