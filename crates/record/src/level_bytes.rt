// The level bytes of a block's visible units.
ghost use Rattle.std.specs.Prelude.{◌≡◌, true, ℕ, ◌+◌, ◌*◌, ◌<◌, ◌≤◌, length};
ghost use Rattle.block.specs.Block.{w4, h4, bw4, bh4, cbw4, cbh4, sees_luma, sees_chroma};
ghost use Rattle.record.specs.Record.{value_of, fill_row, fill_levels, luma_levels, chroma_levels, Sound};

use block::Block;
use units::layout::{ss_hor, ss_ver};
use units::memory::{chroma_level_at, luma_level_at};
use units::{ChromaUnit, LumaUnit, chroma_unit};

fn value(values: &[u8; 64], area: usize, b: Block) -> u8
    requires { (area < 4) × (b.reference < 8) × (b.mode < 2) }
    ensures { result ≡ value_of b values.now area }
{
    values[(area * 8 + b.reference) * 2 + b.mode]
}

fn fill_row(row: &mut [u8], w: usize, u: u8, v: u8)
    requires { 4 * w ≤ length row.old + 2 }
    ensures { row.new ≡ fill_row 0 w u v row.old }
{
    for i in 0..w {
        row[4 * i] = u;
        row[4 * i + 1] = v;
    }
}

fn fill_levels(levels: &mut [u8], at: usize, level_stride: usize, w: usize, h: usize, u: u8, v: u8)
    requires w_nonzero { 0 < w }
    requires lines { (j : ℕ) → j < h → at + 4 * (j * level_stride + w) ≤ length levels.old + 2 }
    ensures { levels.new ≡ fill_levels at level_stride w h u v levels.old }
{
    for j in 0..h {
        let from = at + 4 * (j * level_stride);
        let to = from + 4 * (w - 1) + 2;
        fill_row(&mut levels[from..to], w, u, v);
    }
}

// w by h units are visible.
pub fn luma_levels(
    levels: &mut [u8],
    level_stride: usize,
    values: &[u8; 64],
    b: Block,
    w: LumaUnit,
    h: LumaUnit,
)
    requires { Sound b × (sees_luma b ≡ true) × (w4 b ≤ level_stride) × (4 * level_stride * h4 b ≤ length levels.old) × (w.0 ≡ bw4 b) × (h.0 ≡ bh4 b) }
    ensures { levels.new ≡ luma_levels b level_stride values.now levels.old }
{
    let at = luma_level_at(level_stride, b.x, b.y, 0);
    let u = value(values, 0, b);
    let v = value(values, 1, b);
    fill_levels(levels, at, level_stride, w.0, h.0, u, v);
}

pub fn chroma_levels(
    levels: &mut [u8],
    level_stride: usize,
    values: &[u8; 64],
    b: Block,
    w: ChromaUnit,
    h: ChromaUnit,
)
    requires { Sound b × (sees_chroma b ≡ true) × (w4 b ≤ level_stride) × (4 * level_stride * h4 b ≤ length levels.old) × (w.0 ≡ cbw4 b) × (h.0 ≡ cbh4 b) }
    ensures { levels.new ≡ chroma_levels b level_stride values.now levels.old }
{
    let cx = chroma_unit(b.x, ss_hor(b.layout));
    let cy = chroma_unit(b.y, ss_ver(b.layout));
    let at = chroma_level_at(level_stride, cx, cy, 2);
    let u = value(values, 2, b);
    let v = value(values, 3, b);
    fill_levels(levels, at, level_stride, w.0, h.0, u, v);
}
