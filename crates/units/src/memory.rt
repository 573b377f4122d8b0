// Lent memory: whether it is long enough, and where things lie in it.
ghost use Rattle.std.specs.Prelude.{◌≡◌, ◌&&◌, ◌*◌, ◌^◌, ◌<◌, ◌≤◌, leb};
ghost use Rattle.units.specs.Memory.{level_at, levels_ok, plane_ok, masks_ok};

use super::frame::records_along;
use crate::{ChromaUnit, LumaUnit, Sample};

// Lines of `stride` cells, at least `width` of them; by a quotient, since the product may be too large.
fn lines_ok(len: usize, stride: usize, width: usize, lines: usize) -> bool
    requires { 0 < lines }
    ensures { result ≡ (leb width stride && leb (stride * lines) len) }
{
    (width <= stride) & (stride <= len / lines)
}

pub fn levels_ok(len: usize, level_stride: usize, w4: LumaUnit, h4: LumaUnit) -> bool
    requires { (0 < h4.0) × (h4.0 ≤ 4096) }
    ensures { result ≡ levels_ok len level_stride w4.0 h4.0 }
{
    lines_ok(len, level_stride, w4.0, 4 * h4.0)
}

pub fn plane_ok(len: usize, stride: usize, width: Sample, height: Sample) -> bool
    requires { 0 < height.0 }
    ensures { result ≡ plane_ok len stride width.0 height.0 }
{
    lines_ok(len, stride, width.0, height.0)
}

pub fn masks_ok(len: usize, w4: LumaUnit, h4: LumaUnit) -> bool
    requires { (w4.0 ≤ 4096) × (h4.0 ≤ 4096) }
    ensures { result ≡ masks_ok len w4.0 h4.0 }
{
    640 * (records_along(w4) * records_along(h4)) <= len
}

#[tactic(auto, unfolding(crate::specs::Memory::level_at))]
fn level_at(level_stride: usize, x: usize, y: usize, area: usize) -> usize
    requires { level_at level_stride x y area < 2 ^ 64 }
    ensures { result ≡ level_at level_stride x y area }
{
    4 * (y * level_stride + x) + area
}

// area is the pass.
pub fn luma_level_at(level_stride: usize, x: LumaUnit, y: LumaUnit, area: usize) -> usize
    requires { (area < 2) × (level_at level_stride x.0 y.0 area < 2 ^ 64) }
    ensures { result ≡ level_at level_stride x.0 y.0 area }
{
    level_at(level_stride, x.0, y.0, area)
}

// area is 2 for U and 3 for V.
pub fn chroma_level_at(level_stride: usize, x: ChromaUnit, y: ChromaUnit, area: usize) -> usize
    requires { (2 ≤ area) × (area < 4) × (level_at level_stride x.0 y.0 area < 2 ^ 64) }
    ensures { result ≡ level_at level_stride x.0 y.0 area }
{
    level_at(level_stride, x.0, y.0, area)
}
