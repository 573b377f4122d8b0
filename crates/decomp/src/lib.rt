// The transforms of an inter block, split by recursion. Four tables of 32 by 32 cells tell them: class across, step across, class down,
// step down (the Rust's txa[edge][txsz|step][y][x]).
#![tactic(auto)]

ghost use Rattle.std.specs.Prelude.{◌≡◌, ℕ, ◌+◌, ◌*◌, ◌<◌, ◌≤◌, length};
ghost use Rattle.loops.specs.Run.{up_to};
ghost use Rattle.standard.specs.Sizes.{Tx_Wide, Tx_High};
ghost use Rattle.decomp.specs.Cells.{Covers};
ghost use Rattle.decomp.specs.Promises.{Promises};
ghost use Rattle.decomp.specs.Folds.{run, fill, put, whole, splits_by, masks_from, decomp, counted, block, Place};

use units::LumaUnit;
use units::sizes::{luma_class, tx_high, tx_split, tx_wide};

fn fill_run(txa: &mut [u8; 4096], at: usize, n: usize, v: u8)
    requires { at + n ≤ 4096 }
    ensures { txa.new ≡ run at n v txa.old }
{
    txa[at..at + n].fill(v);
}

#[tactic(auto, using(crate::proofs::Fills::fill_none, crate::proofs::Fills::fill_step))]
fn fill_cells(txa: &mut [u8; 4096], at: usize, w: usize, h: usize, v: u8)
    requires { (0 < h) × (at + 32 * h + w ≤ 4128) }
    ensures { txa.new ≡ fill at w h v txa.old }
{
    for y in 0..h {
        fill_run(txa, at + 32 * y, w, v);
    }
}

// A run of both tables of classes: side by side, since runs are short.
#[tactic(auto, using(crate::proofs::Fills::run_none, crate::proofs::Fills::pair_step))]
fn fill_pair(txa: &mut [u8; 4096], at: usize, n: usize, u: u8, v: u8)
    requires { (n ≤ 32) × (at + n ≤ 2048) }
    ensures { txa.new ≡ run (2048 + at) n v (run at n u txa.old) }
{
    for i in 0..n {
        txa[at + i] = u;
        txa[2048 + at + i] = v;
    }
}

fn fill_classes(txa: &mut [u8; 4096], at: usize, w: usize, h: usize, u: u8, v: u8)
    requires { (0 < h) × (w ≤ 32) × (at + 32 * h + w ≤ 1056) }
    ensures { txa.new ≡ fill (2048 + at) w h v (fill at w h u txa.old) }
{
    for y in 0..h {
        fill_pair(txa, at + 32 * y, w, u, v);
    }
}

fn put_cells(txa: &mut [u8; 4096], y0: usize, x0: usize, w: usize, h: usize)
    requires { (0 < w) × (w ≤ 16) × (x0 + w ≤ 32) × (0 < h) × (h ≤ 16) × (y0 + h ≤ 32) }
    ensures { txa.new ≡ put y0 x0 w h txa.old }
{
    let at = y0 * 32 + x0;
    let across = luma_class(LumaUnit(w));
    let down = luma_class(LumaUnit(h));
    fill_classes(txa, at, w, h, across, down);
    fill_cells(txa, 1024 + at, 1, h, w as u8);
    fill_cells(txa, 3072 + at, w, 1, h as u8);
}

// A transform that is not split, at row y and column x of those of its size.
fn put_tx(txa: &mut [u8; 4096], tx: usize, y: usize, x: usize)
    requires { (tx < 19) × (y * Tx_High tx + Tx_High tx ≤ 32) × (x * Tx_Wide tx + Tx_Wide tx ≤ 32) }
    ensures { txa.new ≡ whole tx y x txa.old }
{
    let w = tx_wide::<LumaUnit>(tx).0;
    let h = tx_high::<LumaUnit>(tx).0;
    put_cells(txa, y * h, x * w, w, h);
}

// Never 4x4, nor at depth 2.
fn is_split(from: usize, depth: usize, y: usize, x: usize, tx_masks: &[u16; 2]) -> bool
    requires { Place from depth y x }
    ensures { result ≡ splits_by (masks_from depth tx_masks.now) from y x }
{
    if from == 0 {
        return false;
    }
    if 1 < depth {
        return false;
    }
    bits::has(tx_masks[depth], (y * 4 + x) as u16)
}

// The transform at row y_off and column x_off of those of its size; two minus depth falls at each call.
pub fn decomp_tx(
    txa: &mut [u8; 4096],
    from: usize,
    depth: usize,
    y_off: usize,
    x_off: usize,
    tx_masks: &[u16; 2],
)
    requires { Place from depth y_off x_off }
    ensures { txa.new ≡ decomp (masks_from depth tx_masks.now) from y_off x_off txa.old }
{
    if !is_split(from, depth, y_off, x_off, tx_masks) {
        put_tx(txa, from, y_off, x_off);
        return;
    }
    let sub = tx_split(from);
    let w = tx_wide::<LumaUnit>(from).0;
    let h = tx_high::<LumaUnit>(from).0;
    let d = depth + 1;
    let y0 = y_off * 2 + 0;
    let y1 = y_off * 2 + 1;
    let x0 = x_off * 2 + 0;
    let x1 = x_off * 2 + 1;
    decomp_tx(txa, sub, d, y0, x0, tx_masks);
    if h == w {
        decomp_tx(txa, sub, d, y0, x1, tx_masks);
        decomp_tx(txa, sub, d, y1, x0, tx_masks);
        decomp_tx(txa, sub, d, y1, x1, tx_masks);
        return;
    }
    if h < w {
        decomp_tx(txa, sub, d, y0, x1, tx_masks);
        return;
    }
    decomp_tx(txa, sub, d, y1, x0, tx_masks);
}

fn decomp_row(txa: &mut [u8; 4096], max_tx: usize, y_off: usize, n: usize, tx_masks: &[u16; 2])
    requires { (x : ℕ) → x < n → Place max_tx 0 y_off x }
    ensures { txa.new ≡ up_to (decomp (masks_from 0 tx_masks.now) max_tx y_off) n txa.old }
{
    for x_off in 0..n {
        decomp_tx(txa, max_tx, 0, y_off, x_off, tx_masks);
    }
}

// How many transforms of a side n units have.
fn tx_count(n: usize, side: usize) -> usize
    requires { (0 < n) × (n ≤ 32) × (0 < side) }
    ensures { result ≡ counted n side }
{
    (n - 1) / side + 1
}

// The maximal transforms of a block of which w4 by h4 units are seen.
pub fn decomp_block(
    txa: &mut [u8; 4096],
    max_tx: usize,
    w4: LumaUnit,
    h4: LumaUnit,
    tx_masks: &[u16; 2],
)
    requires { Covers max_tx w4.0 h4.0 }
    ensures { txa.new ≡ block tx_masks.now max_tx w4.0 h4.0 txa.old }
{
    let columns = tx_count(w4.0, tx_wide::<LumaUnit>(max_tx).0);
    let rows = tx_count(h4.0, tx_high::<LumaUnit>(max_tx).0);
    for y_off in 0..rows {
        decomp_row(txa, max_tx, y_off, columns, tx_masks);
    }
}

// The tables tell the transforms. The function does nothing: its contract puts the theorems where a reader sees them.
pub fn promised()
    ensures { Promises }
{}
