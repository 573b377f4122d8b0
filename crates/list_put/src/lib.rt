// The list of a frame's edges, written as text.
#![tactic(auto)]

mod unit;

ghost use Rattle.std.specs.Prelude.{cond, ◌≡◌, ◌≤◌, ◌<◌, length};
ghost use Rattle.plane.specs.Line.{columns, rows, pass_of};
ghost use Rattle.units.specs.Layout.{has_chroma};
ghost use Rattle.edges.specs.Edges.{units_of};
ghost use Rattle.list_text.specs.Text.{Put};
ghost use Rattle.list_edges.specs.Listed.{edges_in, edges_of, list_text};
ghost use Rattle.list_put.specs.Promises.{Promises};
ghost use Rattle.list_put.specs.Written.{held_of, held_in, grid_at, line_in, plane_in, Fits, Room, Wrote};

use list_text::Text;
use unit::put_unit;
use units::layout::{has_chroma, plane_ss_hor, plane_ss_ver};
use units::{LumaUnit, chroma_units};

#[derive(Clone, Copy)]
pub struct Frame {
    pub layout: usize,
    pub w4: LumaUnit,
    pub h4: LumaUnit,
}

// A pass of a plane of a frame.
#[derive(Clone, Copy)]
pub struct Part {
    pub frame: Frame,
    pub plane: usize,
    pub rowwise: bool,
}

fn width(p: Part) -> usize
    requires { p.frame.w4.0 ≤ 64 }
    ensures { result ≡ units_of (grid_at p) columns }
{
    chroma_units(p.frame.w4, plane_ss_hor(p.plane == 0, p.frame.layout)).0
}

fn height(p: Part) -> usize
    requires { p.frame.h4.0 ≤ 64 }
    ensures { result ≡ units_of (grid_at p) rows }
{
    chroma_units(p.frame.h4, plane_ss_ver(p.plane == 0, p.frame.layout)).0
}

fn planes(layout: usize) -> usize
    ensures { result ≡ cond (has_chroma layout) 3 1 }
{
    if has_chroma(layout) { 3 } else { 1 }
}

fn put_line(text: &mut Text, edges: usize, p: Part, y: usize, levels: &[u8], masks: &[u16]) -> usize
    requires { (p.plane < 3) × (y < units_of (grid_at p) rows) × Fits p.frame.w4.0 p.frame.h4.0 (length levels.now) (length masks.now) × Room text.old edges 64 }
    ensures { Wrote text.old edges (line_in (held_in p levels.now masks.now) p.plane (pass_of p.rowwise) y) text.new result }
{
    let n = width(p);
    let mut listed = edges;
    for x in 0..n {
        listed = put_unit(text, listed, p, x, y, levels, masks);
    }
    listed
}

fn put_pass(text: &mut Text, edges: usize, p: Part, levels: &[u8], masks: &[u16]) -> usize
    requires { (p.plane < 3) × Fits p.frame.w4.0 p.frame.h4.0 (length levels.now) (length masks.now) × Room text.old edges 4096 }
    ensures { Wrote text.old edges (edges_in (held_in p levels.now masks.now) p.plane (pass_of p.rowwise)) text.new result }
{
    let n = height(p);
    let mut listed = edges;
    for y in 0..n {
        listed = put_line(text, listed, p, y, levels, masks);
    }
    listed
}

fn put_plane(
    text: &mut Text,
    edges: usize,
    frame: Frame,
    plane: usize,
    levels: &[u8],
    masks: &[u16],
) -> usize
    requires { (plane < 3) × Fits frame.w4.0 frame.h4.0 (length levels.now) (length masks.now) × Room text.old edges 8192 }
    ensures { Wrote text.old edges (plane_in (held_of frame.layout frame.w4.0 frame.h4.0 levels.now masks.now) plane) text.new result }
{
    let columns = Part {
        frame,
        plane,
        rowwise: false,
    };
    let by_rows = Part {
        rowwise: true,
        ..columns
    };
    let listed = put_pass(text, edges, columns, levels, masks);
    put_pass(text, listed, by_rows, levels, masks)
}

fn put_planes(text: &mut Text, edges: usize, frame: Frame, levels: &[u8], masks: &[u16]) -> usize
    requires { Fits frame.w4.0 frame.h4.0 (length levels.now) (length masks.now) × Room text.old edges 24576 }
    ensures { Wrote text.old edges (edges_of (held_of frame.layout frame.w4.0 frame.h4.0 levels.now masks.now)) text.new result }
{
    let n = planes(frame.layout);
    let mut listed = edges;
    for plane in 0..n {
        listed = put_plane(text, listed, frame, plane, levels, masks);
    }
    listed
}

pub fn put_list(text: &mut Text, frame: Frame, levels: &[u8], masks: &[u16])
    requires { Fits frame.w4.0 frame.h4.0 (length levels.now) (length masks.now) }
    ensures { Put text.old.bytes 0 (list_text (held_of frame.layout frame.w4.0 frame.h4.0 levels.now masks.now)) text.new.bytes text.new.len }
{
    text.len = 0;
    text.put_header();
    let edges = put_planes(text, 0, frame, levels, masks);
    text.put_total(edges as u64);
}

// The theorem of specs/Promises.antt is proved.
pub fn promised()
    ensures { Promises }
{}
