// The walk over the mask bits of one line of units: `loop_filter_sb128_rust` of the Rust. Both passes are this code with other steps:
// by columns line_step is the stride and sample_step 1, along is the levels' stride in bytes and back 4; by rows line_step is 1 and sample_step the stride, along 4 and
// back the levels' stride.
#![tactic(auto)]

ghost use Rattle.std.specs.Prelude.{◌≡◌, ℕ, ◌+◌, ◌-◌, ◌*◌, ◌^◌, ◌<◌, ◌≤◌, length};
ghost use Rattle.line.specs.Width.{Width, reads};
ghost use Rattle.piece.specs.Samples.{PieceUnder};
ghost use Rattle.walk.specs.Walk.{thresholds, highest, len_in, visit, walked};
ghost use Rattle.walk.specs.Ready.{Walkable, InRange};
ghost use Rattle.walk.specs.Promises.{Promises};

use plane::Pixel;
use standard::Bounds;

// At place n, q0 of the first of the four lines is at index q + n * (4 * line_step), the lines line_step apart and a line's samples sample_step; the unit's
// level byte is at at + n * along, and that of the unit before the edge back earlier. The masks are those of classes 0, 1, 2; classes is 3 in luma, 2 in chroma.
#[derive(Clone, Copy)]
pub struct UnitLine {
    pub q: usize,
    pub line_step: usize,
    pub sample_step: usize,
    pub m0: u32,
    pub m1: u32,
    pub m2: u32,
    pub classes: u32,
    pub at: usize,
    pub along: usize,
    pub back: usize,
}

// Of the bit xy at place n.
fn class_of(m1: u32, m2: u32, xy: u32) -> u32
    ensures { (n : ℕ) → xy ≡ 2 ^ n → result ≡ highest m1 m2 n }
{
    if m2 & xy != 0 {
        return 2;
    }
    if m1 & xy != 0 {
        return 1;
    }
    0
}

fn width_of(classes: u32, class: u32) -> u32
    ensures { result ≡ len_in classes class }
{
    if class == 0 {
        return 4;
    }
    if classes < 3 {
        return 6;
    }
    if class == 1 { 8 } else { 16 }
}

fn scaled(x: u8, depth: u32) -> u32
    requires { (8 ≤ depth) × (depth ≤ 12) }
    ensures { result ≡ x * 2 ^ (depth - 8) }
{
    (x as u32) << (depth - 8)
}

fn thresholds_of(depth: u32, e: &[u8; 64], i: &[u8; 64], l: u8) -> Bounds
    requires { (8 ≤ depth) × (depth ≤ 12) × (l < 64) }
    ensures { result ≡ thresholds depth e.now i.now l }
{
    let k = l as usize;
    Bounds {
        e: scaled(e[k], depth),
        i: scaled(i[k], depth),
        h: scaled(l >> 4, depth),
        f: scaled(1, depth),
        half: scaled(128, depth),
    }
}

fn visit<P: Pixel>(
    dst: &mut [P],
    q: usize,
    line_step: usize,
    sample_step: usize,
    wd: u32,
    l: u8,
    e: &[u8; 64],
    i: &[u8; 64],
    depth: u32,
)
    requires { Width wd × (l < 64) × (reads wd * sample_step ≤ q) × (q + 3 * line_step + (reads wd - 1) * sample_step < length dst.old) × (8 ≤ depth)
        × (depth ≤ 12) × (2 ^ depth ≤ P.top) × (2 ^ depth < P.top → PieceUnder (2 ^ depth) (reads wd) line_step sample_step q (P.samples dst.old)) }
    ensures { P.samples dst.new ≡ visit depth e.now i.now line_step sample_step wd l q (P.samples dst.old) }
{
    if l == 0 {
        return;
    }
    piece::piece(
        dst,
        q,
        line_step,
        sample_step,
        wd,
        thresholds_of(P::known(depth, 8), e, i, l),
    );
}

pub fn walk<P: Pixel>(
    dst: &mut [P],
    l: UnitLine,
    levels: &[u8],
    e: &[u8; 64],
    i: &[u8; 64],
    depth: u32,
)
    requires { (8 ≤ depth) × (depth ≤ 12) × (2 ^ depth ≤ P.top) × Walkable levels.now l (length dst.old)
        × (2 ^ depth < P.top → InRange (2 ^ depth) l (P.samples dst.old)) }
    ensures { P.samples dst.new ≡ walked depth e.now i.now levels.now l (P.samples dst.old) }
{
    let vm = l.m0 | l.m1 | l.m2;
    let mut xy = 1u32;
    let mut n = 0;
    while vm & !xy.wrapping_sub(1) != 0 {
        if vm & xy != 0 {
            let wd = width_of(l.classes, class_of(l.m1, l.m2, xy));
            visit(
                dst,
                l.q + n * 4 * l.line_step,
                l.line_step,
                l.sample_step,
                wd,
                view::filter_level(levels, l.at + n * l.along, l.back),
                e,
                i,
                depth,
            );
        }
        xy <<= 1; // 0 after bit 31, and the walk stops
        n += 1;
    }
}

// The theorems of specs/Promises.antt are proved.
pub fn promised()
    ensures { Promises }
{}
