// The faults that the numbers of the calls that filter refuse.
ghost use Rattle.std.specs.Prelude.{◌≡◌, ◌<◌, true, false, not, List, ℕ, length, IfSome, is_some};
ghost use Rattle.units.specs.Frame.{stored};
ghost use Rattle.units.specs.Memory.{plane_ok};
ghost use Rattle.scans.specs.Scan.{luma_levels_high, chroma_levels_high};
ghost use Rattle.gap.specs.Numbers.{Found};
ghost use Rattle.checks.specs.Call.{lent, call_pass, w4, h4, sb4, ss-hor, ss-ver, grid_of, stride_of, chroma_on, Shaped, Roomy};
ghost use Rattle.checks.specs.Tests.{level_bad, depth_bad, shape_bad, length_bad, inside, levels_bad, plane_bad, planes_bad, gap_bad, mask_bad};

use crate::Call;
use gap::Both;
use gap::grid::Grid;
use plane::Pixel;
use units::frame::{frame_ok, stored_side, superblock_ok, superblock_units, superblocks_along};
use units::layout::{has_chroma, layout_ok, plane_ss_hor, plane_ss_ver};
use units::luma_units;
use units::memory::{levels_ok, masks_ok, plane_ok};

pub fn chroma_on(c: Call) -> bool
    ensures { result ≡ chroma_on c }
{
    has_chroma(c.layout) & !((c.level_u == 0) & (c.level_v == 0))
}

pub fn level_bad(c: Call) -> bool
    ensures { result ≡ level_bad c }
{
    let above = (63 < c.level_u) | (63 < c.level_v);
    above | (!has_chroma(c.layout) & ((c.level_u != 0) | (c.level_v != 0)))
}

pub fn depth_bad(c: Call) -> bool
    ensures { result ≡ depth_bad c }
{
    !(((c.depth == 8) | (c.depth == 10)) | (c.depth == 12))
}

pub fn shape_bad(c: Call) -> bool
    ensures { result ≡ shape_bad c }
{
    (!layout_ok(c.layout) | !frame_ok(c.width, c.height)) | !superblock_ok(c.superblock)
}

pub fn stride_of(c: Call, plane: usize) -> usize
    ensures { result ≡ stride_of c plane }
{
    if plane == 0 {
        c.luma_stride
    } else {
        c.chroma_stride
    }
}

pub fn length_bad(c: Call, levels: usize, masks: usize) -> bool
    requires { Shaped c }
    ensures { result ≡ length_bad c levels masks }
{
    let w4 = luma_units(c.width);
    let h4 = luma_units(c.height);
    !levels_ok(levels, c.level_stride, w4, h4) | !masks_ok(masks, w4, h4)
}

pub fn inside(c: Call) -> bool
    requires { Shaped c }
    ensures { result ≡ inside c }
{
    c.row < superblocks_along(luma_units(c.height), superblock_units(c.superblock))
}

fn luma_high(c: Call, levels: &[u8]) -> bool
    requires { Shaped c × (inside c ≡ true) × ((m : ℕ) × Roomy c (length levels.now) m) }
    ensures { result ≡ luma_levels_high levels.now c.level_stride (w4 c) (h4 c) (sb4 c) (call_pass c) c.row }
{
    let w4 = luma_units(c.width);
    let h4 = luma_units(c.height);
    let sb4 = superblock_units(c.superblock);
    scans::luma_levels_high(levels, c.level_stride, w4, h4, sb4, c.rowwise, c.row)
}

fn chroma_high(c: Call, levels: &[u8]) -> bool
    requires { Shaped c × (inside c ≡ true) × ((m : ℕ) × Roomy c (length levels.now) m) }
    ensures { result ≡ chroma_levels_high levels.now c.level_stride (w4 c) (h4 c) (ss-hor c 1) (ss-ver c 1) (sb4 c) (call_pass c) c.row }
{
    let w4 = luma_units(c.width);
    let h4 = luma_units(c.height);
    let sb4 = superblock_units(c.superblock);
    let ss_hor = units::layout::ss_hor(c.layout);
    let ss_ver = units::layout::ss_ver(c.layout);
    scans::chroma_levels_high(
        levels,
        c.level_stride,
        w4,
        h4,
        ss_hor,
        ss_ver,
        sb4,
        c.rowwise,
        c.row,
    )
}

pub fn levels_bad(c: Call, levels: &[u8]) -> bool
    requires { Shaped c × ((m : ℕ) × Roomy c (length levels.now) m) }
    ensures { result ≡ levels_bad c levels.now }
{
    if !inside(c) {
        return false;
    }
    let luma = luma_high(c, levels);
    if !chroma_on(c) {
        return luma;
    }
    luma | chroma_high(c, levels)
}

fn plane_short(c: Call, plane: usize, len: usize) -> bool
    requires { Shaped c }
    ensures { result ≡ not (plane_ok len (stride_of c plane) (stored c.width.0 (ss-hor c plane)) (stored c.height.0 (ss-ver c plane))) }
{
    let width = stored_side(c.width, plane_ss_hor(plane == 0, c.layout));
    let height = stored_side(c.height, plane_ss_ver(plane == 0, c.layout));
    !plane_ok(len, stride_of(c, plane), width, height)
}

fn plane_bad<P: Pixel>(c: Call, plane: usize, s: &[P]) -> bool
    requires { Shaped c × (c.depth < 16) }
    ensures { result ≡ plane_bad c plane (P.samples s.now) }
{
    if plane_short(c, plane, s.len()) {
        return true;
    }
    if !inside(c) {
        return false;
    }
    if P::fit(s, c.depth) {
        return false;
    }
    let stride = stride_of(c, plane);
    let sb4 = superblock_units(c.superblock);
    scans::samples_high(
        s,
        stride,
        c.width,
        c.height,
        plane_ss_hor(plane == 0, c.layout),
        plane_ss_ver(plane == 0, c.layout),
        sb4,
        c.depth,
        c.rowwise,
        c.row,
    )
}

pub fn planes_bad<P: Pixel>(c: Call, luma: &[P], u: &[P], v: &[P]) -> bool
    requires { Shaped c × (c.depth < 16) }
    ensures { (ls ms : List ℕ) → result ≡ planes_bad c (lent (P.samples luma.now) (P.samples u.now) (P.samples v.now) ls ms) }
{
    let bad = plane_bad(c, 0, luma);
    if !chroma_on(c) {
        return bad;
    }
    bad | (plane_bad(c, 1, u) | plane_bad(c, 2, v))
}

fn plane_found(c: Call, plane: usize, masks: &[u16]) -> Both
    requires { Shaped c × (inside c ≡ true) × ((l : ℕ) × Roomy c l (length masks.now)) }
    ensures { Found (grid_of c plane) masks.now (call_pass c) (sb4 c) c.row result }
{
    let grid = Grid {
        luma: plane == 0,
        ss_hor: plane_ss_hor(plane == 0, c.layout),
        ss_ver: plane_ss_ver(plane == 0, c.layout),
        w4: luma_units(c.width),
        h4: luma_units(c.height),
    };
    let sb4 = superblock_units(c.superblock);
    if c.rowwise {
        return gap::rows(masks, grid, sb4, c.row);
    }
    gap::columns(masks, grid, sb4, c.row)
}

pub fn found(c: Call, masks: &[u16]) -> Both
    requires { Shaped c × (inside c ≡ true) × ((l : ℕ) × Roomy c l (length masks.now)) }
    ensures { (result.gap ≡ gap_bad c masks.now) × (result.out ≡ mask_bad c masks.now) }
{
    let luma = plane_found(c, 0, masks);
    if !chroma_on(c) {
        return luma;
    }
    luma | plane_found(c, 1, masks)
}

// A call that 3 and 4 do not refuse.
#[derive(Clone, Copy)]
pub struct ShapedCall {
    pub call: Call,
    ghost deep: { depth_bad call ≡ false },
    ghost shaped: { shape_bad call ≡ false },
}

impl ShapedCall {
    pub fn length_bad(self, levels: usize, masks: usize) -> bool
        ensures { result ≡ length_bad self.call levels masks }
    {
        length_bad(self.call, levels, masks)
    }

    pub fn inside(self) -> bool
        ensures { result ≡ inside self.call }
    {
        inside(self.call)
    }

    pub fn planes_bad<P: Pixel>(self, luma: &[P], u: &[P], v: &[P]) -> bool
        ensures { (ls ms : List ℕ) → result ≡ planes_bad self.call (lent (P.samples luma.now) (P.samples u.now) (P.samples v.now) ls ms) }
    {
        planes_bad(self.call, luma, u, v)
    }
}

// One that 7 does not refuse, with the level bytes and the masks lent to it.
#[derive(Clone, Copy)]
pub struct RoomyCall<'a> {
    pub shaped: ShapedCall,
    pub levels: &'a [u8],
    pub masks: &'a [u16],
    ghost roomy: { length_bad shaped.call (length levels.now) (length masks.now) ≡ false },
}

impl<'a> RoomyCall<'a> {
    pub fn inside(self) -> Option<InsideCall<'a>>
        ensures row { is_some result ≡ inside self.entry.shaped.call }
        ensures roomy { IfSome result (λ i. i.roomy ≡ self.entry) }
    {
        if self.shaped.inside() {
            Some(InsideCall { roomy: self })
        } else {
            None
        }
    }

    pub fn levels_bad(self) -> bool
        ensures { result ≡ levels_bad self.entry.shaped.call self.entry.levels.now }
    {
        levels_bad(self.shaped.call, self.levels)
    }
}

// One whose row lies in the frame.
#[derive(Clone, Copy)]
pub struct InsideCall<'a> {
    pub roomy: RoomyCall<'a>,
    ghost in_frame: { inside roomy.shaped.call ≡ true },
}

impl InsideCall<'_> {
    pub fn found(self) -> Both
        ensures { let c = self.entry.roomy.shaped.call in
            (result.gap ≡ gap_bad c self.entry.roomy.masks.now) × (result.out ≡ mask_bad c self.entry.roomy.masks.now) }
    {
        found(self.roomy.shaped.call, self.roomy.masks)
    }
}
