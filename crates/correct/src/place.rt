// The line of units that a tile's start corrects in a plane.
ghost use Rattle.std.specs.Prelude.{◌≡◌};
ghost use Rattle.correct.specs.Start.{begin, across, first, end, line_of, inside, corrects, Shaped, Inside};

use crate::{Start, TileEdge};
use units::frame::{superblock_units, superblocks_along};
use units::layout::{has_chroma, plane_ss_hor, plane_ss_ver};
use units::{LumaUnit, chroma_unit, chroma_units, luma_units};

fn begin(t: Start) -> usize
    ensures { result ≡ begin t }
{
    if t.rowwise { t.row } else { t.start }
}

fn across(t: Start, luma: bool) -> usize
    requires { Inside t }
    ensures { result ≡ across t luma }
{
    let u = LumaUnit(begin(t) * superblock_units(t.superblock).0);
    if t.rowwise {
        return chroma_unit(u, plane_ss_ver(luma, t.layout)).0;
    }
    chroma_unit(u, plane_ss_hor(luma, t.layout)).0
}

fn first(t: Start, luma: bool) -> usize
    requires { Inside t }
    ensures { result ≡ first t luma }
{
    if t.rowwise {
        return 0;
    }
    let y = LumaUnit(t.row * superblock_units(t.superblock).0);
    chroma_unit(y, plane_ss_ver(luma, t.layout)).0
}

fn end(t: Start, luma: bool) -> usize
    requires { Inside t }
    ensures { result ≡ end t luma }
{
    if t.rowwise {
        return chroma_units(luma_units(t.width), plane_ss_hor(luma, t.layout)).0;
    }
    let y = (t.row + 1) * superblock_units(t.superblock).0;
    chroma_units(
        LumaUnit(luma_units(t.height).0.min(y)),
        plane_ss_ver(luma, t.layout),
    )
    .0
}

pub fn line(t: Start, luma: bool) -> TileEdge
    requires { Inside t }
    ensures { result ≡ line_of t luma }
{
    let from = first(t, luma);
    let n = end(t, luma) - from;
    TileEdge {
        luma,
        rowwise: t.rowwise,
        ss_hor: plane_ss_hor(luma, t.layout),
        ss_ver: plane_ss_ver(luma, t.layout),
        w4: luma_units(t.width),
        h4: luma_units(t.height),
        across: across(t, luma),
        first: from,
        n,
    }
}

pub fn inside(t: Start) -> bool
    requires { Shaped t }
    ensures { result ≡ inside t }
{
    let sb4 = superblock_units(t.superblock);
    (t.row < superblocks_along(luma_units(t.height), sb4))
        & (t.start < superblocks_along(luma_units(t.width), sb4))
}

pub fn corrects(t: Start, luma: bool) -> bool
    requires { Shaped t }
    ensures { result ≡ corrects t luma }
{
    (luma | has_chroma(t.layout)) & (inside(t) & (0 < begin(t)))
}
