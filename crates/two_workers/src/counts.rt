// Edges counted in the masks.
ghost use Rattle.std.specs.Prelude.{◌<◌};

use std::io;

// Where the words of a unit's row edges start.
pub fn luma_rows(unit: usize) -> usize
    requires { unit < 32 }
    ensures { result < 384 }
{
    (32 + unit) * 6
}

pub fn chroma_rows(unit: usize) -> usize
    requires { unit < 32 }
    ensures { result < 640 }
{
    384 + (32 + unit) * 4
}

// 0 outside.
fn word(masks: &[u16; 640], at: usize) -> u16 {
    masks.get(at).copied().unwrap_or(0)
}

fn ones(w: u16) -> usize {
    w.count_ones() as usize
}

// Of one class at `units` units, whose words are `step` apart.
fn edges(masks: &[u16; 640], at: usize, step: usize, units: usize) -> usize
    requires { 0 < step }
{
    let mut n: usize = 0;
    for unit in masks[at.min(640)..].chunks(step).take(units) {
        n = unit.iter().take(2).fold(n, |n, &w| n.wrapping_add(ones(w)));
    }
    n
}

pub fn say_luma(rt: &impl Print, masks: &[u16; 640], at: usize, units: usize) -> io::Result<()>
    requires { at < 640 }
{
    let zero = edges(masks, at, 6, units);
    let one = edges(masks, at + 2, 6, units);
    let two = edges(masks, at + 4, 6, units);
    println!(rt; "{zero} {one} {two}")
}

pub fn say_chroma(rt: &impl Print, masks: &[u16; 640], at: usize, units: usize) -> io::Result<()>
    requires { at < 640 }
{
    let zero = edges(masks, at, 4, units);
    let one = edges(masks, at + 2, 4, units);
    println!(rt; "{zero} {one}")
}

fn any(masks: &[u16; 640], at: usize) -> u16
    requires { at < 640 }
{
    word(masks, at) | word(masks, at + 2) | word(masks, at + 4)
}

// Row edges of luma unit 16, in one half, of class 1 or 2 beside unit 15, or of class 2 beside unit 14 or 13.
fn near_luma(masks: &[u16; 640], half: usize) -> usize
    requires { half < 2 }
{
    let one = word(masks, luma_rows(16) + 2 + half);
    let two = word(masks, luma_rows(16) + 4 + half);
    let farther = any(masks, luma_rows(14) + half) | any(masks, luma_rows(13) + half);
    ones((one | two) & any(masks, luma_rows(15) + half) | two & farther)
}

// Of chroma unit 8, of class 1 beside unit 7.
fn near_chroma(masks: &[u16; 640], half: usize) -> usize
    requires { half < 2 }
{
    let above = word(masks, chroma_rows(7) + half) | word(masks, chroma_rows(7) + 2 + half);
    ones(word(masks, chroma_rows(8) + 2 + half) & above)
}

// Row edges on the superblock boundary that break the gap rule with the edge above.
pub fn near(masks: &[u16; 640]) -> usize {
    let luma = near_luma(masks, 0).wrapping_add(near_luma(masks, 1));
    let chroma = near_chroma(masks, 0).wrapping_add(near_chroma(masks, 1));
    luma.wrapping_add(chroma)
}

fn boundary_word(masks: &[u16; 640], at: usize) -> u16 {
    if at < luma_rows(16) {
        return 0;
    }
    if at < luma_rows(17) {
        return word(masks, at);
    }
    if at < chroma_rows(8) {
        return 0;
    }
    if at < chroma_rows(9) {
        word(masks, at)
    } else {
        0
    }
}

// The row edges of luma unit 16 and of chroma unit 8, and no other.
pub fn boundary(masks: &[u16; 640]) -> [u16; 640] {
    std::array::from_fn(|k| boundary_word(masks, k))
}
