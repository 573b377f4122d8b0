// Public: one intra or inter block into level bytes, masks and contexts.
#![tactic(auto)]

mod level_bytes;
mod masks;

ghost use Rattle.std.specs.Prelude.{◌≡◌, true, false, [], ◌*◌, ◌<◌, ◌≤◌, length};
ghost use Rattle.refusals.specs.Numbers.{answered};
ghost use Rattle.units.specs.Frame.{frame_records};
ghost use Rattle.block.specs.Block.{w4, h4, bw4, bh4, cbw4, cbh4, sees_luma, sees_chroma, lent};
ghost use Rattle.record.specs.Record.{intra_of, inter_of, luma_levels, chroma_levels, luma_masks, chroma_masks, luma_above, luma_left, chroma_above, chroma_left};
ghost use Rattle.record.specs.Record.{RecordAnswer, Sound};
ghost use Rattle.record.specs.Promises.{Promises};

use block::{Block, chroma_high, chroma_wide, luma_high, luma_wide, refusal, seen};
use level_bytes::{chroma_levels, luma_levels};
use masks::{chroma_masks, luma_masks};
use refusals::Refusal;
use units::{LumaUnit, Sample};

fn luma(
    levels: &mut [u8],
    level_stride: usize,
    masks: &mut [u16],
    values: &[u8; 64],
    b: Block,
    tx_masks: &[u16; 2],
    above: &mut [u8],
    left: &mut [u8],
)
    requires { Sound b × (w4 b ≤ level_stride) × (4 * level_stride * h4 b ≤ length levels.old) × (640 * frame_records (w4 b) (h4 b) ≤ length masks.old)
        × (sees_luma b ≡ true → (bw4 b ≤ length above.old) × (bh4 b ≤ length left.old)) }
    ensures levels { levels.new ≡ luma_levels b level_stride values.now levels.old }
    ensures masks { masks.new ≡ luma_masks b tx_masks.now above.old left.old masks.old }
    ensures above { above.new ≡ luma_above b tx_masks.now above.old }
    ensures left { left.new ≡ luma_left b tx_masks.now left.old }
{
    let w = luma_wide(b);
    let h = luma_high(b);
    if !seen(w.0, h.0) {
        return;
    }
    luma_levels(levels, level_stride, values, b, w, h);
    luma_masks(
        masks,
        b,
        w,
        h,
        tx_masks,
        &mut above[..w.0],
        &mut left[..h.0],
    );
}

fn chroma_pair(
    levels: &mut [u8],
    level_stride: usize,
    masks: &mut [u16],
    values: &[u8; 64],
    b: Block,
    above: &mut [u8],
    left: &mut [u8],
)
    requires { Sound b × (w4 b ≤ level_stride) × (4 * level_stride * h4 b ≤ length levels.old) × (640 * frame_records (w4 b) (h4 b) ≤ length masks.old)
        × (sees_chroma b ≡ true → (cbw4 b ≤ length above.old) × (cbh4 b ≤ length left.old)) }
    ensures levels { levels.new ≡ chroma_levels b level_stride values.now levels.old }
    ensures masks { masks.new ≡ chroma_masks b above.old left.old masks.old }
    ensures above { above.new ≡ chroma_above b above.old }
    ensures left { left.new ≡ chroma_left b left.old }
{
    if !b.chroma {
        return;
    }
    let w = chroma_wide(b);
    let h = chroma_high(b);
    if !seen(w.0, h.0) {
        return;
    }
    chroma_levels(levels, level_stride, values, b, w, h);
    chroma_masks(masks, b, w, h, &mut above[..w.0], &mut left[..h.0]);
}

// A refused block stores nothing.
fn record_block(
    levels: &mut [u8],
    level_stride: usize,
    masks: &mut [u16],
    values: &[u8; 64],
    b: Block,
    tx_masks: &[u16; 2],
    above: &mut [u8],
    left: &mut [u8],
    above_uv: &mut [u8],
    left_uv: &mut [u8],
) -> Result<(), Refusal>
    requires { (b.inter ≡ false → b.reference < 8) × (b.mode < 2) }
    ensures { RecordAnswer b level_stride values.now tx_masks.now (answered result)
        (lent levels.old masks.old above.old left.old above_uv.old left_uv.old)
        (lent levels.new masks.new above.new left.new above_uv.new left_uv.new) }
{
    refusal::check(
        b,
        level_stride,
        levels,
        masks,
        above,
        left,
        above_uv,
        left_uv,
    )?;
    luma(
        levels,
        level_stride,
        masks,
        values,
        b,
        tx_masks,
        above,
        left,
    );
    chroma_pair(levels, level_stride, masks, values, b, above_uv, left_uv);
    Ok(())
}

pub fn record_intra(
    levels: &mut [u8],
    level_stride: usize,
    masks: &mut [u16],
    values: &[u8; 64],
    width: u32,
    height: u32,
    layout: u32,
    x: u32,
    y: u32,
    size: u32,
    tx: u32,
    above: &mut [u8],
    left: &mut [u8],
    chroma: u32,
    uvtx: u32,
    above_uv: &mut [u8],
    left_uv: &mut [u8],
) -> Result<(), Refusal>
    ensures { RecordAnswer (intra_of width height layout x y size tx chroma uvtx) level_stride values.now [] (answered result)
        (lent levels.old masks.old above.old left.old above_uv.old left_uv.old)
        (lent levels.new masks.new above.new left.new above_uv.new left_uv.new) }
{
    let b = Block {
        width: Sample(width as usize),
        height: Sample(height as usize),
        layout: layout as usize,
        x: LumaUnit(x as usize),
        y: LumaUnit(y as usize),
        size: size as usize,
        tx: tx as usize,
        chroma: chroma != 0,
        uvtx: uvtx as usize,
        inter: false,
        skip: false,
        reference: 0,
        mode: 0,
    };
    record_block(
        levels,
        level_stride,
        masks,
        values,
        b,
        &[0, 0],
        above,
        left,
        above_uv,
        left_uv,
    )
}

pub fn record_inter(
    levels: &mut [u8],
    level_stride: usize,
    masks: &mut [u16],
    values: &[u8; 64],
    width: u32,
    height: u32,
    layout: u32,
    x: u32,
    y: u32,
    size: u32,
    tx: u32,
    tx_masks: &[u16; 2],
    skip: u32,
    reference: u32,
    mode: u32,
    above: &mut [u8],
    left: &mut [u8],
    chroma: u32,
    uvtx: u32,
    above_uv: &mut [u8],
    left_uv: &mut [u8],
) -> Result<(), Refusal>
    ensures { RecordAnswer (inter_of width height layout x y size tx chroma uvtx skip reference mode) level_stride values.now tx_masks.now (answered result)
        (lent levels.old masks.old above.old left.old above_uv.old left_uv.old)
        (lent levels.new masks.new above.new left.new above_uv.new left_uv.new) }
{
    let b = Block {
        width: Sample(width as usize),
        height: Sample(height as usize),
        layout: layout as usize,
        x: LumaUnit(x as usize),
        y: LumaUnit(y as usize),
        size: size as usize,
        tx: tx as usize,
        chroma: chroma != 0,
        uvtx: uvtx as usize,
        inter: true,
        skip: skip != 0,
        reference: reference as usize,
        mode: usize::from(mode != 0),
    };
    record_block(
        levels,
        level_stride,
        masks,
        values,
        b,
        tx_masks,
        above,
        left,
        above_uv,
        left_uv,
    )
}

// The theorems of specs/Promises.antt are proved.
pub fn promised()
    ensures { Promises }
{}
