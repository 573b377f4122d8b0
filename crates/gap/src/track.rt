// The walk along the units of a line, for 32 lines at once.
ghost use Rattle.std.specs.Prelude.{◌≡◌, ◌+◌, ◌*◌, ◌<◌, ◌≤◌, length};
ghost use Rattle.units.specs.Masks.{unit_words};
ghost use Rattle.gap.specs.Track.{word_at, class_word, clash_w, start_t, step_t, unit_t, unit_at_t, run_t, part_t, close_t};

use units::masks::{two_halves, unit_words};

// Marks, class 1 or more and class 2 of the last three units, and what was found: the lines that break the rule, the edges, and the bits
// past the frame.
#[derive(Clone, Copy)]
pub struct Track {
    pub first: u32,
    pub m1: u32,
    pub m2: u32,
    pub m3: u32,
    pub a1: u32,
    pub b1: u32,
    pub b2: u32,
    pub b3: u32,
    pub bad: u32,
    pub all: u32,
    pub past: u32,
}

pub fn start() -> Track
    ensures { result ≡ start_t }
{
    Track {
        first: 4294967295,
        m1: 0,
        m2: 0,
        m3: 0,
        a1: 0,
        b1: 0,
        b2: 0,
        b3: 0,
        bad: 0,
        all: 0,
        past: 0,
    }
}

// The lines on which the unit with marks m, class 1 or more a, class 2 b breaks the rule with one of the three units before.
fn clash(m: u32, a: u32, b: u32, m1: u32, m2: u32, m3: u32, a1: u32, b2: u32, b3: u32) -> u32
    ensures { result ≡ clash_w m a b m1 m2 m3 a1 b2 b3 }
{
    m & (a1 | b2 | b3) | m1 & a | (m2 | m3) & b
}

fn step(s: Track, x: u32, y: u32, b: u32, z: u32) -> Track
    ensures { result ≡ step_t s x y b z }
{
    let a = y | b;
    let e = x | a;
    let m = s.first | e;
    let r = clash(m, a, b, s.m1, s.m2, s.m3, s.a1, s.b2, s.b3);
    Track {
        first: 0,
        m1: m,
        m2: s.m1,
        m3: s.m2,
        a1: a,
        b1: b,
        b2: s.b1,
        b3: s.b2,
        bad: s.bad | r,
        all: s.all | e,
        past: s.past | z,
    }
}

// A unit past the frame has no edge.
fn unit(inside: bool, s: Track, x: u32, y: u32, b: u32) -> Track
    ensures { result ≡ unit_t inside s x y b }
{
    if inside {
        return step(s, x, y, b, 0);
    }
    step(s, 0, 0, 0, x | (y | b))
}

// A half that is not asked for is not read: another worker may be recording it.
fn word(masks: &[u16], halves: usize, at: usize) -> u32
    requires { at + 1 < length masks.now }
    ensures { result ≡ word_at masks.now halves at }
{
    if halves == 2 {
        return two_halves(masks[at], masks[at + 1], 16);
    }
    two_halves(masks[at], 0, 16)
}

fn class_word(masks: &[u16], luma: bool, halves: usize, at: usize, i: usize, c: usize) -> u32
    requires { (at + unit_words luma * i + unit_words luma ≤ length masks.now) × (c < 3) }
    ensures { result ≡ class_word masks.now luma halves at i c }
{
    let first = at + unit_words(luma) * i + 2 * c;
    if luma {
        return word(masks, halves, first);
    }
    if c < 2 {
        return word(masks, halves, first);
    }
    0
}

fn unit_at(
    masks: &[u16],
    luma: bool,
    halves: usize,
    inside: bool,
    at: usize,
    i: usize,
    s: Track,
) -> Track
    requires { at + unit_words luma * i + unit_words luma ≤ length masks.now }
    ensures { result ≡ unit_at_t masks.now luma halves inside at i s }
{
    let x = class_word(masks, luma, halves, at, i, 0);
    let y = class_word(masks, luma, halves, at, i, 1);
    let b = class_word(masks, luma, halves, at, i, 2);
    unit(inside, s, x, y, b)
}

fn chunk(
    masks: &[u16],
    luma: bool,
    halves: usize,
    inside: bool,
    at: usize,
    from: usize,
    m: usize,
    s: Track,
) -> Track
    requires { at + unit_words luma * (from + m) ≤ length masks.now }
    ensures { result ≡ run_t masks.now luma halves inside at from m s }
{
    let mut t = s;
    for i in 0..m {
        t = unit_at(masks, luma, halves, inside, at, from + i, t);
    }
    t
}

pub fn part(
    masks: &[u16],
    luma: bool,
    halves: usize,
    at: usize,
    from: usize,
    n: usize,
    end: usize,
    s: Track,
) -> Track
    requires { (at + unit_words luma * (from + end) ≤ length masks.now) × (n ≤ end) }
    ensures { result ≡ part_t masks.now luma halves at from n end s }
{
    let t = chunk(masks, luma, halves, true, at, from, n, s);
    chunk(masks, luma, halves, false, at, from + n, end - n, t)
}

pub fn close(s: Track) -> u32
    ensures { result ≡ close_t s }
{
    s.bad | clash(4294967295, 0, 0, s.m1, s.m2, s.m3, s.a1, s.b2, s.b3)
}
