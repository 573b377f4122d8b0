// A block to record: its visible size in luma and chroma units, and the number that refuses it.
#![tactic(auto)]

pub mod faults;
pub mod refusal;

ghost use Rattle.std.specs.Prelude.{◌≡◌, ◌&&◌, ◌≤◌, ltb};
ghost use Rattle.block.specs.Block.{w4, h4, block_width, block_height, bw4, bh4, chroma_side, cbw4, cbh4, Sides};

use units::layout::{ss_hor, ss_ver};
use units::sizes::{block_high, block_wide};
use units::{ChromaUnit, LumaUnit, Sample, chroma_unit, chroma_units, luma_units};

// The frame, the block's place, codes and chroma pair; of an intra block skip, reference and mode are 0.
#[derive(Clone, Copy)]
pub struct Block {
    pub width: Sample,
    pub height: Sample,
    pub layout: usize,
    pub x: LumaUnit,
    pub y: LumaUnit,
    pub size: usize,
    pub tx: usize,
    pub chroma: bool,
    pub uvtx: usize,
    pub inter: bool,
    pub skip: bool,
    pub reference: usize,
    pub mode: usize,
}

// Here and below n is the block's side.
#[tactic(auto, unfolding(crate::specs::Block::bw4))]
pub fn luma_across(b: Block, n: LumaUnit) -> LumaUnit
    requires { Sides b × (b.x.0 ≤ w4 b) × (n.0 ≡ block_width b) }
    ensures { result.0 ≡ bw4 b }
{
    let rest = luma_units(b.width).0 - b.x.0;
    LumaUnit(rest.min(n.0))
}

pub fn luma_wide(b: Block) -> LumaUnit
    requires { Sides b × (b.x.0 ≤ w4 b) }
    ensures { result.0 ≡ bw4 b }
{
    luma_across(b, block_wide(b.size))
}

#[tactic(auto, unfolding(crate::specs::Block::bh4))]
pub fn luma_down(b: Block, n: LumaUnit) -> LumaUnit
    requires { Sides b × (b.y.0 ≤ h4 b) × (n.0 ≡ block_height b) }
    ensures { result.0 ≡ bh4 b }
{
    let below = luma_units(b.height).0 - b.y.0;
    LumaUnit(below.min(n.0))
}

pub fn luma_high(b: Block) -> LumaUnit
    requires { Sides b × (b.y.0 ≤ h4 b) }
    ensures { result.0 ≡ bh4 b }
{
    luma_down(b, block_high(b.size))
}

// Of w4 or h4 units from the place u on, what a block's side of n units has in the chroma plane.
fn chroma_side(all: LumaUnit, u: LumaUnit, n: LumaUnit, ss: usize) -> ChromaUnit
    requires { (u.0 ≤ all.0) × (all.0 ≤ 4096) × (n.0 ≤ 32) × (ss ≤ 1) }
    ensures { result.0 ≡ chroma_side all.0 u.0 n.0 ss }
{
    let rest = chroma_units(all, ss).0 - chroma_unit(u, ss).0;
    ChromaUnit(rest.min(chroma_units(n, ss).0))
}

#[tactic(auto, unfolding(crate::specs::Block::cbw4))]
pub fn chroma_across(b: Block, n: LumaUnit) -> ChromaUnit
    requires { Sides b × (b.x.0 ≤ w4 b) × (n.0 ≡ block_width b) }
    ensures { result.0 ≡ cbw4 b }
{
    chroma_side(luma_units(b.width), b.x, n, ss_hor(b.layout))
}

pub fn chroma_wide(b: Block) -> ChromaUnit
    requires { Sides b × (b.x.0 ≤ w4 b) }
    ensures { result.0 ≡ cbw4 b }
{
    chroma_across(b, block_wide(b.size))
}

#[tactic(auto, unfolding(crate::specs::Block::cbh4))]
pub fn chroma_down(b: Block, n: LumaUnit) -> ChromaUnit
    requires { Sides b × (b.y.0 ≤ h4 b) × (n.0 ≡ block_height b) }
    ensures { result.0 ≡ cbh4 b }
{
    chroma_side(luma_units(b.height), b.y, n, ss_ver(b.layout))
}

pub fn chroma_high(b: Block) -> ChromaUnit
    requires { Sides b × (b.y.0 ≤ h4 b) }
    ensures { result.0 ≡ cbh4 b }
{
    chroma_down(b, block_high(b.size))
}

// Of w by h visible units there are some.
pub fn seen(w: usize, h: usize) -> bool
    ensures { result ≡ (ltb 0 w && ltb 0 h) }
{
    (0 < w) & (0 < h)
}
