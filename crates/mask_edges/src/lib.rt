// Recording of a block's edges into one record of masks, and of its last column and row into the contexts.
#![tactic(auto)]

mod cells;
mod edge;
mod grid;

ghost use Rattle.std.specs.Prelude.{◌≡◌, true, ℕ, ◌<◌, ◌≤◌, length, get_or};
ghost use Rattle.standard.specs.Sizes.{Tx_Wide, Tx_High};
ghost use Rattle.units.specs.Sizes.{luma_class, chroma_class};
ghost use Rattle.decomp.specs.Cells.{Covers};
ghost use Rattle.mask_edges.specs.Recording.{Room};
ghost use Rattle.mask_edges.specs.Folds.{one_masks, luma_masks, chroma_masks, above_of, left_of, stores, whole_by};
ghost use Rattle.mask_edges.specs.Promises.{Promises};

use cells::mask_cells;
use decomp::decomp_block;
use edge::{columns, rows};
use grid::mask_grid;
use units::sizes::{chroma_class, luma_class, tx_high, tx_wide};
use units::{ChromaUnit, LumaUnit};

// A block of one transform, of w by h units.
fn one_transform(
    masks: &mut [u16],
    by4: LumaUnit,
    bx4: LumaUnit,
    w4: LumaUnit,
    h4: LumaUnit,
    skip: bool,
    w: LumaUnit,
    h: LumaUnit,
    a: &mut [u8],
    l: &mut [u8],
)
    requires { Room by4.0 bx4.0 w4.0 h4.0 0 0 (length masks.old) (length a.old) (length l.old) × (0 < w.0) × (0 < h.0) }
    ensures masks { (t : ℕ) → w.0 ≡ Tx_Wide t → h.0 ≡ Tx_High t
        → masks.new ≡ one_masks by4.0 bx4.0 w4.0 h4.0 skip t a.old l.old masks.old }
    ensures above { a.new ≡ stores w4.0 (λ _. luma_class h.0) a.old }
    ensures left { l.new ≡ stores h4.0 (λ _. luma_class w.0) l.old }
{
    let across = columns(true, 16, by4.0, bx4.0, w4.0, h4.0);
    let down = rows(true, 16, by4.0, bx4.0, w4.0, h4.0);
    mask_grid(masks, across, w.0, luma_class(w), skip, l);
    mask_grid(masks, down, h.0, luma_class(h), skip, a);
}

pub fn mask_edges_chroma(
    masks: &mut [u16],
    cby4: ChromaUnit,
    cbx4: ChromaUnit,
    cw4: ChromaUnit,
    ch4: ChromaUnit,
    skip_inter: bool,
    tx: usize,
    a: &mut [u8],
    l: &mut [u8],
    ss_hor: usize,
    ss_ver: usize,
)
    requires { Room cby4.0 cbx4.0 cw4.0 ch4.0 ss_hor ss_ver (length masks.old) (length a.old) (length l.old) × (tx < 19)
        × (ss_hor ≤ 1) × (ss_ver ≤ 1) }
    ensures masks { masks.new ≡ chroma_masks cby4.0 cbx4.0 cw4.0 ch4.0 skip_inter tx ss_hor ss_ver
        a.old l.old masks.old }
    ensures above { a.new ≡ stores cw4.0 (λ _. chroma_class (Tx_High tx)) a.old }
    ensures left { l.new ≡ stores ch4.0 (λ _. chroma_class (Tx_Wide tx)) l.old }
{
    let w = tx_wide::<ChromaUnit>(tx);
    let h = tx_high::<ChromaUnit>(tx);
    let across = columns(false, 16 >> ss_ver, cby4.0, cbx4.0, cw4.0, ch4.0);
    let down = rows(false, 16 >> ss_hor, cby4.0, cbx4.0, cw4.0, ch4.0);
    mask_grid(masks, across, w.0, chroma_class(w), skip_inter, l);
    mask_grid(masks, down, h.0, chroma_class(h), skip_inter, a);
}

// Nothing of the block is split: it is intra, or no transform can be, or its one maximal transform, of w by h units, is not.
fn is_whole(
    inter: bool,
    tx: usize,
    w4: LumaUnit,
    h4: LumaUnit,
    w: LumaUnit,
    h: LumaUnit,
    tx_masks: &[u16; 2],
) -> bool
    ensures { result ≡ whole_by inter tx w4.0 h4.0 w.0 h.0 (get_or tx_masks.now 0 0) }
{
    if !inter {
        return true;
    }
    let none = (tx == 0) | (tx_masks[0] == 0);
    none | (((w4.0 <= w.0) & (h4.0 <= h.0)) & !bits::has(tx_masks[0], 0))
}

// The transform of an inter block is its maximal one, and tx_masks tell where it is split.
pub fn mask_edges_luma(
    masks: &mut [u16],
    by4: LumaUnit,
    bx4: LumaUnit,
    w4: LumaUnit,
    h4: LumaUnit,
    inter: bool,
    skip: bool,
    tx: usize,
    tx_masks: &[u16; 2],
    a: &mut [u8],
    l: &mut [u8],
)
    requires { Room by4.0 bx4.0 w4.0 h4.0 0 0 (length masks.old) (length a.old) (length l.old) × (tx < 19)
        × (inter ≡ true → Covers tx w4.0 h4.0) }
    ensures masks { masks.new ≡ luma_masks by4.0 bx4.0 w4.0 h4.0 inter skip tx tx_masks.now
        a.old l.old masks.old }
    ensures above { a.new ≡ stores w4.0 (above_of inter tx_masks.now tx w4.0 h4.0) a.old }
    ensures left { l.new ≡ stores h4.0 (left_of inter tx_masks.now tx w4.0 h4.0) l.old }
{
    let w = tx_wide::<LumaUnit>(tx);
    let h = tx_high::<LumaUnit>(tx);
    if is_whole(inter, tx, w4, h4, w, h, tx_masks) {
        one_transform(masks, by4, bx4, w4, h4, inter & skip, w, h, a, l);
        return;
    }
    let mut txa = [0u8; 4096];
    decomp_block(&mut txa, tx, w4, h4, tx_masks);
    let across = columns(true, 16, by4.0, bx4.0, w4.0, h4.0);
    let down = rows(true, 16, by4.0, bx4.0, w4.0, h4.0);
    mask_cells(masks, &txa, across, skip, l);
    mask_cells(masks, &txa, down, skip, a);
}

// What the recorders leave is the recording. The function does nothing: its contract puts the theorems where a reader sees them.
pub fn promised()
    ensures { Promises }
{}
