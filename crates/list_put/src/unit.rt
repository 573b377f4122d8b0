// One unit: its edge, if it has one, and the line of text for it.
ghost use Rattle.std.specs.Prelude.{◌≡◌, ◌*◌, ◌<◌, ◌≤◌, length, unwrap_or, IfSome};
ghost use Rattle.plane.specs.Plane.{unit};
ghost use Rattle.units.specs.Frame.{frame_records};
ghost use Rattle.units.specs.Memory.{level_at};
ghost use Rattle.edges.specs.Edges.{edge_bit, edge};
ghost use Rattle.plane.specs.Line.{pass_of};
ghost use Rattle.edges.specs.Class.{class_no, no_class};
ghost use Rattle.list_edges.specs.Listed.{area, edges_at};
ghost use Rattle.list_put.specs.Written.{grid_at, held_in, Fits, Inside, Room, Wrote};

use crate::Part;
use edges::bit::edge_bit;
use edges::{chroma_class, luma_class};
use list_text::{Edge, Text};
use units::layout::{plane_ss_hor, plane_ss_ver};
use units::memory::{chroma_level_at, luma_level_at};
use units::{ChromaUnit, LumaUnit};

fn across(p: Part, x: usize, y: usize) -> usize
    ensures { result ≡ (unit (pass_of p.rowwise) x y).0 }
{
    if p.rowwise { y } else { x }
}

fn along(p: Part, x: usize, y: usize) -> usize
    ensures { result ≡ (unit (pass_of p.rowwise) x y).1 }
{
    if p.rowwise { x } else { y }
}

fn bit_at(p: Part, x: usize, y: usize) -> usize
    requires { Inside p x y }
    ensures { result ≡ edge_bit (grid_at p) (pass_of p.rowwise) (unit (pass_of p.rowwise) x y) 0 }
{
    let luma = p.plane == 0;
    edge_bit(
        luma,
        plane_ss_hor(luma, p.frame.layout),
        plane_ss_ver(luma, p.frame.layout),
        p.frame.w4,
        p.rowwise,
        across(p, x, y),
        along(p, x, y),
    )
}

fn class_at(masks: &[u16], p: Part, x: usize, y: usize) -> Option<u8>
    requires { Inside p x y × (640 * frame_records p.frame.w4.0 p.frame.h4.0 ≤ length masks.now) }
    ensures class { unwrap_or result no_class ≡ class_no (edge (grid_at p) masks.now (pass_of p.rowwise) (unit (pass_of p.rowwise) x y)) }
    ensures low { IfSome result (λ c. c < no_class) }
{
    let e = bit_at(p, x, y);
    if p.plane == 0 {
        return luma_class(masks, e);
    }
    chroma_class(masks, e)
}

fn level_place(p: Part, x: usize, y: usize) -> usize
    requires { Inside p x y }
    ensures { result ≡ level_at p.frame.w4.0 x y (area p.plane (pass_of p.rowwise)) }
{
    if p.plane == 0 {
        return luma_level_at(p.frame.w4.0, LumaUnit(x), LumaUnit(y), p.rowwise as usize);
    }
    chroma_level_at(p.frame.w4.0, ChromaUnit(x), ChromaUnit(y), p.plane + 1)
}

pub fn put_unit(
    text: &mut Text,
    edges: usize,
    p: Part,
    x: usize,
    y: usize,
    levels: &[u8],
    masks: &[u16],
) -> usize
    requires { Inside p x y × Fits p.frame.w4.0 p.frame.h4.0 (length levels.now) (length masks.now) × Room text.old edges 1 }
    ensures { Wrote text.old edges (edges_at (held_in p levels.now masks.now) p.plane (pass_of p.rowwise) x y) text.new result }
{
    if across(p, x, y) == 0 {
        return edges;
    }
    let Some(class) = class_at(masks, p, x, y) else {
        return edges;
    };
    let place = level_place(p, x, y);
    let level = levels[place];
    let edge = Edge {
        plane: p.plane as u64,
        pass: u64::from(p.rowwise),
        x: x as u64,
        y: y as u64,
        class: u64::from(class),
        level: u64::from(level),
    };
    text.put_edge(edge);
    edges + 1
}
