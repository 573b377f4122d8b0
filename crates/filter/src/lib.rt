// One pass over a superblock row of one plane: `filter_plane_cols_y/uv` and `filter_plane_rows_y/uv` of the Rust, which are one code with
// other steps.
#![tactic(auto)]

pub mod lines;
pub mod tables;

ghost use Rattle.std.specs.Prelude.{◌≡◌, ◌<◌, length};
ghost use Rattle.plane.specs.Line.{pass_of};
ghost use Rattle.units.specs.Frame.{records};
ghost use Rattle.filter.specs.Filter.{plane_of, line_of, sweep_of};
ghost use Rattle.filter.specs.Ready.{Stored, Fit};
ghost use Rattle.filter.specs.Types.{tables_of, InDepth, UnderTop};
ghost use Rattle.filter.specs.Lines.{record_sweep, Inner};
ghost use Rattle.filter.specs.Promises.{Promises};

use plane::Pixel;
use tables::Tables;
use units::LumaUnit;

// One plane of a frame: 0 luma, 1 U, 2 V, with its own subsampling, 0 for luma; its stride in samples, and level_stride, that of the level bytes, in units.
#[derive(Clone, Copy)]
pub struct Component {
    pub plane: usize,
    pub ss_hor: usize,
    pub ss_ver: usize,
    pub w4: LumaUnit,
    pub h4: LumaUnit,
    pub sb4: LumaUnit,
    pub stride: usize,
    pub level_stride: usize,
}

fn line<P: Pixel>(
    dst: &mut [P],
    c: Component,
    t: Tables,
    rowwise: bool,
    k: usize,
    rec: usize,
    a: usize,
)
    requires { Stored c (tables_of t) (length (P.samples dst.old)) × Fit c (tables_of t) (pass_of rowwise) k
        × Inner c (pass_of rowwise) k rec a × InDepth t.depth P.top × UnderTop P.top t.depth c (pass_of rowwise) k (P.samples dst.old) }
    ensures { (P.samples dst.new ≡ line_of (plane_of c (tables_of t.entry)) (pass_of rowwise) k rec a (P.samples dst.old))
        × UnderTop P.top t.entry.depth c (pass_of rowwise) k (P.samples dst.new) }
{
    let l = lines::line_of(t.masks, c, rowwise, k, rec, a);
    walk::walk(dst, l, t.levels, t.e, t.i, t.depth);
}

fn record<P: Pixel>(dst: &mut [P], c: Component, t: Tables, rowwise: bool, k: usize, rec: usize)
    requires { Stored c (tables_of t) (length (P.samples dst.old)) × Fit c (tables_of t) (pass_of rowwise) k
        × (rec < records c.w4.0) × InDepth t.depth P.top × UnderTop P.top t.depth c (pass_of rowwise) k (P.samples dst.old) }
    ensures { (P.samples dst.new ≡ record_sweep (plane_of c (tables_of t.entry)) (pass_of rowwise) k rec (P.samples dst.old))
        × UnderTop P.top t.entry.depth c (pass_of rowwise) k (P.samples dst.new) }
{
    let n = lines::units_across(c, rowwise, k, rec);
    let first = lines::first_unit(rowwise, k, rec);
    for a in first..n {
        line(dst, c, t, rowwise, k, rec, a);
    }
}

pub fn sweep<P: Pixel>(dst: &mut [P], c: Component, t: Tables, rowwise: bool, k: usize)
    requires { Stored c (tables_of t) (length (P.samples dst.old)) × Fit c (tables_of t) (pass_of rowwise) k
        × InDepth t.depth P.top × UnderTop P.top t.depth c (pass_of rowwise) k (P.samples dst.old) }
    ensures { P.samples dst.new ≡ sweep_of (plane_of c (tables_of t.entry)) (pass_of rowwise) k (P.samples dst.old) }
{
    let records = units::frame::records_along(c.w4);
    for rec in 0..records {
        record(dst, c, t, rowwise, k, rec);
    }
}

// The theorems of specs/Promises.antt are proved.
pub fn promised()
    ensures { Promises }
{}
