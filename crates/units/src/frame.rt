// The frame's sides, its 128x128 records and its superblocks.
ghost use Rattle.std.specs.Prelude.{◌≡◌, ◌<◌, ◌≤◌};
ghost use Rattle.units.specs.Frame.{frame_ok, stored, records, record_of, superblock_ok, superblock_units, superblocks};

use crate::{LumaUnit, Sample};

pub fn frame_ok(width: Sample, height: Sample) -> bool
    ensures { result ≡ frame_ok width.0 height.0 }
{
    ((1 <= width.0) & (width.0 <= 16384)) & ((1 <= height.0) & (height.0 <= 16384))
}

// A stored side of a plane, from the frame's.
pub fn stored_side(side: Sample, ss: usize) -> Sample
    requires { (side.0 ≤ 16384) × (ss ≤ 1) }
    ensures { result.0 ≡ stored side.0 ss }
{
    Sample(((side.0 + 127) / 128 * 128) >> ss)
}

pub fn records_along(n: LumaUnit) -> usize
    requires { n.0 ≤ 4096 }
    ensures { result ≡ records n.0 }
{
    (n.0 + 31) / 32
}

pub fn record_of(w4: LumaUnit, x: LumaUnit, y: LumaUnit) -> usize
    requires { (w4.0 ≤ 4096) × (x.0 ≤ 4096) × (y.0 ≤ 4096) }
    ensures { result ≡ record_of w4.0 x.0 y.0 }
{
    y.0 / 32 * records_along(w4) + x.0 / 32
}

pub fn superblock_ok(size: usize) -> bool
    ensures { result ≡ superblock_ok size }
{
    matches!(size, 64 | 128)
}

pub fn superblock_units(size: usize) -> LumaUnit
    ensures { result.0 ≡ superblock_units size }
{
    LumaUnit(size / 4)
}

pub fn superblocks_along(n: LumaUnit, sb4: LumaUnit) -> usize
    requires { (n.0 ≤ 4096) × (0 < sb4.0) × (sb4.0 ≤ 32) }
    ensures { result ≡ superblocks n.0 sb4.0 }
{
    (n.0 + (sb4.0 - 1)) / sb4.0
}
