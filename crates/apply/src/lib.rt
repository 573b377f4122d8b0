// Public: columns and rows of one superblock row, luma and chroma, at 8 and 16 bits. They are `rav1d_loopfilter_sbrow_cols`, but for the
// tile correction, and `rav1d_loopfilter_sbrow_rows`.
#![tactic(auto)]

ghost use Rattle.std.specs.Prelude.{◌≡◌, true, false, ◌^◌, ◌≤◌};
ghost use Rattle.refusals.specs.Numbers.{answered};
ghost use Rattle.filter.specs.Types.{tables_of, InDepth};
ghost use Rattle.checks.specs.Call.{chroma_on, Shaped};
ghost use Rattle.apply.specs.Promises.{Promises};
ghost use Rattle.apply.specs.Apply.{component_of, call_of, FilterLent, ReadyAt, swept, swept_if};

use checks::faults::{chroma_on, stride_of};
use checks::{Call, check};
use filter::Component;
use filter::tables::Tables;
use plane::Pixel;
use refusals::Refusal;
use units::frame::superblock_units;
use units::layout::{plane_ss_hor, plane_ss_ver};
use units::{Sample, luma_units};

fn call(
    rowwise: bool,
    depth: u32,
    luma_stride: usize,
    chroma_stride: usize,
    level_stride: usize,
    width: u32,
    height: u32,
    layout: u32,
    superblock: u32,
    level_u: u32,
    level_v: u32,
    row: u32,
) -> Call
    ensures { result ≡ call_of rowwise depth luma_stride chroma_stride level_stride width height layout superblock level_u level_v row }
{
    Call {
        width: Sample(width as usize),
        height: Sample(height as usize),
        layout: layout as usize,
        superblock: superblock as usize,
        depth,
        level_u: level_u as usize,
        level_v: level_v as usize,
        row: row as usize,
        rowwise,
        luma_stride,
        chroma_stride,
        level_stride,
    }
}

fn component(c: Call, plane: usize) -> Component
    requires { Shaped c }
    ensures { result ≡ component_of c plane }
{
    Component {
        plane,
        ss_hor: plane_ss_hor(plane == 0, c.layout),
        ss_ver: plane_ss_ver(plane == 0, c.layout),
        w4: luma_units(c.width),
        h4: luma_units(c.height),
        sb4: superblock_units(c.superblock),
        stride: stride_of(c, plane),
        level_stride: c.level_stride,
    }
}

fn sweep<P: Pixel>(s: &mut [P], c: Call, t: Tables, plane: usize)
    requires { InDepth t.depth P.top × ReadyAt c (tables_of t) plane (P.samples s.old) }
    ensures { P.samples s.new ≡ swept c (tables_of t.entry) plane (P.samples s.old) }
{
    let p = component(c, plane);
    filter::sweep(s, p, t, c.rowwise, c.row);
}

fn chroma<P: Pixel>(u: &mut [P], v: &mut [P], c: Call, t: Tables)
    requires { InDepth t.depth P.top × (chroma_on c ≡ true → ReadyAt c (tables_of t) 1 (P.samples u.old) × ReadyAt c (tables_of t) 2 (P.samples v.old)) }
    ensures u { P.samples u.new ≡ swept_if c (tables_of t.entry) 1 (P.samples u.old) }
    ensures v { P.samples v.new ≡ swept_if c (tables_of t.entry) 2 (P.samples v.old) }
{
    if !chroma_on(c) {
        return;
    }
    sweep(u, c, t, 1);
    sweep(v, c, t, 2);
}

// Asks that the depths that a call may have are ones that the samples' type can store.
fn pass<P: Pixel>(
    luma: &mut [P],
    u: &mut [P],
    v: &mut [P],
    c: Call,
    levels: &[u8],
    masks: &[u16],
    e: &[u8; 64],
    i: &[u8; 64],
) -> Result<(), Refusal>
    requires { c.depth ≤ 12 → 2 ^ c.depth ≤ P.top }
    ensures { FilterLent c (P.samples luma.old) (P.samples u.old) (P.samples v.old) levels.now masks.now e.now i.now (answered result)
        (P.samples luma.new) (P.samples u.new) (P.samples v.new) }
{
    check(c, luma, u, v, levels, masks)?;
    let t = Tables {
        depth: c.depth,
        levels,
        masks,
        e,
        i,
    };
    sweep(luma, c, t, 0);
    chroma(u, v, c, t);
    Ok(())
}

pub fn columns_8(
    luma: &mut [u8],
    luma_stride: usize,
    u: &mut [u8],
    v: &mut [u8],
    chroma_stride: usize,
    levels: &[u8],
    level_stride: usize,
    masks: &[u16],
    e: &[u8; 64],
    i: &[u8; 64],
    width: u32,
    height: u32,
    layout: u32,
    superblock: u32,
    level_u: u32,
    level_v: u32,
    row: u32,
) -> Result<(), Refusal>
    ensures { FilterLent (call_of false 8 luma_stride chroma_stride level_stride width height layout superblock level_u level_v row)
        luma.old u.old v.old levels.now masks.now e.now i.now (answered result)
        luma.new u.new v.new }
{
    let c = call(
        false,
        8,
        luma_stride,
        chroma_stride,
        level_stride,
        width,
        height,
        layout,
        superblock,
        level_u,
        level_v,
        row,
    );
    pass(luma, u, v, c, levels, masks, e, i)
}

pub fn rows_8(
    luma: &mut [u8],
    luma_stride: usize,
    u: &mut [u8],
    v: &mut [u8],
    chroma_stride: usize,
    levels: &[u8],
    level_stride: usize,
    masks: &[u16],
    e: &[u8; 64],
    i: &[u8; 64],
    width: u32,
    height: u32,
    layout: u32,
    superblock: u32,
    level_u: u32,
    level_v: u32,
    row: u32,
) -> Result<(), Refusal>
    ensures { FilterLent (call_of true 8 luma_stride chroma_stride level_stride width height layout superblock level_u level_v row)
        luma.old u.old v.old levels.now masks.now e.now i.now (answered result)
        luma.new u.new v.new }
{
    let c = call(
        true,
        8,
        luma_stride,
        chroma_stride,
        level_stride,
        width,
        height,
        layout,
        superblock,
        level_u,
        level_v,
        row,
    );
    pass(luma, u, v, c, levels, masks, e, i)
}

pub fn columns_16(
    luma: &mut [u16],
    luma_stride: usize,
    u: &mut [u16],
    v: &mut [u16],
    chroma_stride: usize,
    levels: &[u8],
    level_stride: usize,
    masks: &[u16],
    e: &[u8; 64],
    i: &[u8; 64],
    depth: u32,
    width: u32,
    height: u32,
    layout: u32,
    superblock: u32,
    level_u: u32,
    level_v: u32,
    row: u32,
) -> Result<(), Refusal>
    ensures { FilterLent (call_of false depth luma_stride chroma_stride level_stride width height layout superblock level_u level_v row)
        luma.old u.old v.old levels.now masks.now e.now i.now (answered result)
        luma.new u.new v.new }
{
    let c = call(
        false,
        depth,
        luma_stride,
        chroma_stride,
        level_stride,
        width,
        height,
        layout,
        superblock,
        level_u,
        level_v,
        row,
    );
    pass(luma, u, v, c, levels, masks, e, i)
}

pub fn rows_16(
    luma: &mut [u16],
    luma_stride: usize,
    u: &mut [u16],
    v: &mut [u16],
    chroma_stride: usize,
    levels: &[u8],
    level_stride: usize,
    masks: &[u16],
    e: &[u8; 64],
    i: &[u8; 64],
    depth: u32,
    width: u32,
    height: u32,
    layout: u32,
    superblock: u32,
    level_u: u32,
    level_v: u32,
    row: u32,
) -> Result<(), Refusal>
    ensures { FilterLent (call_of true depth luma_stride chroma_stride level_stride width height layout superblock level_u level_v row)
        luma.old u.old v.old levels.now masks.now e.now i.now (answered result)
        luma.new u.new v.new }
{
    let c = call(
        true,
        depth,
        luma_stride,
        chroma_stride,
        level_stride,
        width,
        height,
        layout,
        superblock,
        level_u,
        level_v,
        row,
    );
    pass(luma, u, v, c, levels, masks, e, i)
}

// The theorems of specs/Promises.antt are proved.
pub fn promised()
    ensures { Promises }
{}
