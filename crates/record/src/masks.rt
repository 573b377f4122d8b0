// The masks of a block's record, and its contexts.
ghost use Rattle.std.specs.Prelude.{◌≡◌, true, ◌*◌, ◌≤◌, length};
ghost use Rattle.units.specs.Frame.{frame_records};
ghost use Rattle.block.specs.Block.{w4, h4, bw4, bh4, cbw4, cbh4, sees_luma, sees_chroma, Sides};
ghost use Rattle.record.specs.Record.{record_at, luma_masks, chroma_masks, luma_above, luma_left, chroma_above, chroma_left, Fitting};

use block::Block;
use mask_edges::{mask_edges_chroma, mask_edges_luma};
use units::frame::record_of;
use units::layout::{ss_hor, ss_ver};
use units::{ChromaUnit, LumaUnit, chroma_unit, luma_units};

fn record_at(b: Block) -> usize
    requires { Sides b × (b.x.0 ≤ w4 b) × (b.y.0 ≤ h4 b) }
    ensures { result ≡ record_at b }
{
    640 * record_of(luma_units(b.width), b.x, b.y)
}

// w by h units are visible.
pub fn luma_masks(
    masks: &mut [u16],
    b: Block,
    w: LumaUnit,
    h: LumaUnit,
    tx_masks: &[u16; 2],
    above: &mut [u8],
    left: &mut [u8],
)
    requires { Fitting b × (sees_luma b ≡ true) × (640 * frame_records (w4 b) (h4 b) ≤ length masks.old) × (bw4 b ≤ length above.old) × (bh4 b ≤ length left.old)
        × (w.0 ≡ bw4 b) × (h.0 ≡ bh4 b) }
    ensures masks { masks.new ≡ luma_masks b tx_masks.now above.old left.old masks.old }
    ensures above { above.new ≡ luma_above b tx_masks.now above.old }
    ensures left { left.new ≡ luma_left b tx_masks.now left.old }
{
    let at = record_at(b);
    let end = at + 640;
    let by4 = LumaUnit(b.y.0 % 32);
    let bx4 = LumaUnit(b.x.0 % 32);
    mask_edges_luma(
        &mut masks[at..end],
        by4,
        bx4,
        w,
        h,
        b.inter,
        b.skip,
        b.tx,
        tx_masks,
        above,
        left,
    );
}

pub fn chroma_masks(
    masks: &mut [u16],
    b: Block,
    w: ChromaUnit,
    h: ChromaUnit,
    above: &mut [u8],
    left: &mut [u8],
)
    requires { Fitting b × (sees_chroma b ≡ true) × (640 * frame_records (w4 b) (h4 b) ≤ length masks.old) × (cbw4 b ≤ length above.old)
        × (cbh4 b ≤ length left.old) × (w.0 ≡ cbw4 b) × (h.0 ≡ cbh4 b) }
    ensures masks { masks.new ≡ chroma_masks b above.old left.old masks.old }
    ensures above { above.new ≡ chroma_above b above.old }
    ensures left { left.new ≡ chroma_left b left.old }
{
    let at = record_at(b);
    let end = at + 640;
    let ss_hor = ss_hor(b.layout);
    let ss_ver = ss_ver(b.layout);
    let cby4 = chroma_unit(LumaUnit(b.y.0 % 32), ss_ver);
    let cbx4 = chroma_unit(LumaUnit(b.x.0 % 32), ss_hor);
    mask_edges_chroma(
        &mut masks[at..end],
        cby4,
        cbx4,
        w,
        h,
        b.skip,
        b.uvtx,
        above,
        left,
        ss_hor,
        ss_ver,
    );
}
