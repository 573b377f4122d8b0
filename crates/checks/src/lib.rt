// The refusals of the calls that filter.
#![tactic(auto)]

pub mod faults;

ghost use Rattle.std.specs.Prelude.{◌≡◌, length, IfOk};
ghost use Rattle.refusals.specs.Numbers.{answered};
ghost use Rattle.checks.specs.Call.{lent};
ghost use Rattle.checks.specs.Promises.{Numbers};
ghost use Rattle.checks.specs.Tests.{given, marked, number};

use faults::{RoomyCall, ShapedCall, depth_bad, level_bad, shape_bad};
use plane::Pixel;
use refusals::Refusal;
use units::Sample;

// One pass of superblock row `row`: by rows or by columns. level_u and level_v are chroma's base levels; luma_stride and chroma_stride are in samples,
// level_stride is that of the level bytes, in units.
#[derive(Clone, Copy)]
pub struct Call {
    pub width: Sample,
    pub height: Sample,
    pub layout: usize,
    pub superblock: usize,
    pub depth: u32,
    pub level_u: usize,
    pub level_v: usize,
    pub row: usize,
    pub rowwise: bool,
    pub luma_stride: usize,
    pub chroma_stride: usize,
    pub level_stride: usize,
}

// Numbers 2 to 8.
fn given<'a>(c: Call, levels: &'a [u8], masks: &'a [u16]) -> Result<RoomyCall<'a>, Refusal>
    ensures number { answered result ≡ given c levels.now (length masks.now) }
    ensures lent { IfOk result (λ r. (r.shaped.call ≡ c) × (r.masks.now ≡ masks.now)) }
{
    if level_bad(c) {
        return Err(Refusal::Level);
    }
    if depth_bad(c) {
        return Err(Refusal::Depth);
    }
    if shape_bad(c) {
        return Err(Refusal::Shape);
    }
    let shaped = ShapedCall { call: c };
    if shaped.length_bad(levels.len(), masks.len()) {
        return Err(Refusal::Length);
    }
    let roomy = RoomyCall {
        shaped,
        levels,
        masks,
    };
    if roomy.levels_bad() {
        return Err(Refusal::LevelByte);
    }
    Ok(roomy)
}

// Numbers 10 to 12.
fn marked(roomy: RoomyCall) -> Result<(), Refusal>
    ensures { answered result ≡ marked roomy.entry.shaped.call roomy.entry.masks.now }
{
    let Some(inside) = roomy.inside() else {
        return Err(Refusal::Outside);
    };
    let f = inside.found();
    if f.gap {
        return Err(Refusal::Gap);
    }
    if f.out {
        return Err(Refusal::MaskBit);
    }
    Ok(())
}

pub fn check<P: Pixel>(
    c: Call,
    luma: &[P],
    u: &[P],
    v: &[P],
    levels: &[u8],
    masks: &[u16],
) -> Result<(), Refusal>
    ensures { answered result ≡ number c (lent (P.samples luma.now) (P.samples u.now) (P.samples v.now) levels.now masks.now) }
{
    let roomy = given(c, levels, masks)?;
    if roomy.shaped.planes_bad(luma, u, v) {
        return Err(Refusal::Plane);
    }
    marked(roomy)
}

// What the numbers mean.
pub fn promised()
    ensures { Numbers }
{}
