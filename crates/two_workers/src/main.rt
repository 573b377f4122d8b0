// A program: the calls of a frame in several orders, and what goes wrong where they may not be changed. Demand 3 is run with the public
// calls on frames of 128 by 128 samples, 4:2:0, 8 bits, superblocks of 64: a frame that meets its hypotheses, in every order that it
// allows; a frame that breaks the hypothesis that no call checks; and a boundary that two workers filter.
#![tactic(auto)]

mod calls;
mod counts;
mod planes;
mod witness;

use calls::{call, four};
use counts::{chroma_rows, luma_rows};
use planes::{say_checksums, say_column, say_differing, say_first, say_lines};
use refusals::answered;
use std::io;

fn say_edges(rt: &impl Print, masks: &[u16; 640]) -> io::Result<()> {
    print!(rt; "luma column edges of class 0, 1, 2: ")?;
    counts::say_luma(rt, masks, 6, 31)?;
    print!(rt; "luma row edges: ")?;
    counts::say_luma(rt, masks, luma_rows(1), 31)?;
    print!(rt; "luma row edges at unit 15: ")?;
    counts::say_luma(rt, masks, luma_rows(15), 1)?;
    print!(rt; "luma row edges at unit 16, the boundary: ")?;
    counts::say_luma(rt, masks, luma_rows(16), 1)?;
    print!(rt; "luma row edges at unit 17: ")?;
    counts::say_luma(rt, masks, luma_rows(17), 1)?;
    print!(rt; "chroma column edges of class 0, 1: ")?;
    counts::say_chroma(rt, masks, 388, 15)?;
    print!(rt; "chroma row edges: ")?;
    counts::say_chroma(rt, masks, chroma_rows(1), 15)?;
    print!(rt; "chroma row edges at unit 8, the boundary: ")?;
    counts::say_chroma(rt, masks, chroma_rows(8), 1)
}

fn say_rule(rt: &impl Print, masks: &[u16; 640]) -> io::Result<()> {
    let near = counts::near(masks);
    println!(rt; "row edges on the boundary that break the gap rule with the edge above: {near}")
}

fn changed(rt: &impl Print, luma: &[u8; 16384], u: &[u8; 4096], v: &[u8; 4096]) -> io::Result<()> {
    let luma0 = witness::luma();
    let u0 = witness::chroma(false);
    let v0 = witness::chroma(true);
    print!(rt; "changed in luma, U, V: ")?;
    say_differing(rt, luma, u, v, &luma0, &u0, &v0)?;
    print!(rt; "; checksums ")?;
    say_checksums(rt, luma, u, v)?;
    println!(rt)
}

fn ordered(
    rt: &impl Print,
    a: u32,
    b: u32,
    c: u32,
    d: u32,
    luma: &[u8; 16384],
    u: &[u8; 4096],
    v: &[u8; 4096],
    levels: &[u8; 4096],
    masks: &[u16; 640],
) -> io::Result<()> {
    let mut luma2 = witness::luma();
    let mut u2 = witness::chroma(false);
    let mut v2 = witness::chroma(true);
    four(rt, a, b, c, d, &mut luma2, &mut u2, &mut v2, levels, masks)?;
    print!(rt; "luma, U, V samples that differ from the first order's: ")?;
    say_differing(rt, &luma2, &u2, &v2, luma, u, v)?;
    println!(rt)
}

fn orders(rt: &impl Print, levels: &[u8; 4096], masks: &[u16; 640]) -> io::Result<()> {
    let mut luma = witness::luma();
    let mut u = witness::chroma(false);
    let mut v = witness::chroma(true);
    four(rt, 0, 1, 2, 3, &mut luma, &mut u, &mut v, levels, masks)?;
    changed(rt, &luma, &u, &v)?;
    ordered(rt, 0, 2, 1, 3, &luma, &u, &v, levels, masks)?;
    ordered(rt, 0, 1, 3, 2, &luma, &u, &v, levels, masks)?;
    ordered(rt, 1, 0, 2, 3, &luma, &u, &v, levels, masks)?;
    ordered(rt, 1, 0, 3, 2, &luma, &u, &v, levels, masks)?;
    println!(rt; "orders that demand 3 does not allow:")?;
    ordered(rt, 2, 0, 1, 3, &luma, &u, &v, levels, masks)?;
    ordered(rt, 1, 3, 0, 2, &luma, &u, &v, levels, masks)
}

fn stair(line: usize) -> u8 {
    if line < 64 { 100 } else { 124 }
}

fn stairs() -> [u8; 16384] {
    std::array::from_fn(|k| stair(k / 128))
}

fn unruly_masks() -> [u16; 640] {
    let mut masks = [0u16; 640];
    masks[luma_rows(15)] = 1;
    masks[luma_rows(16) + 4] = 1;
    masks
}

fn stepped(
    rt: &impl Print,
    c: u32,
    d: u32,
    luma: &mut [u8; 16384],
    masks: &[u16; 640],
) -> io::Result<()> {
    let levels = [32u8; 4096];
    let mut u = [100u8; 4096];
    let mut v = [100u8; 4096];
    four(rt, 0, 1, c, d, luma, &mut u, &mut v, &levels, masks)?;
    print!(rt; "lines 57 to 70 are")?;
    say_column(rt, luma)?;
    println!(rt)
}

fn unruly(rt: &impl Print) -> io::Result<()> {
    let masks = unruly_masks();
    println!(rt;
        "luma row edges at column 0, of class 0 at unit 15 and of class 2 at unit 16; lines to 63 are 100, from 64 on 124"
    )?;
    say_rule(rt, &masks)?;
    let mut luma = stairs();
    stepped(rt, 2, 3, &mut luma, &masks)?;
    let mut luma2 = stairs();
    stepped(rt, 3, 2, &mut luma2, &masks)?;
    print!(rt; "the lines that differ:")?;
    say_lines(rt, &luma, &luma2)?;
    print!(rt; "; first at ")?;
    say_first(rt, &luma, &luma2)?;
    println!(rt)
}

fn say_wrong(
    rt: &impl Print,
    luma: &[u8; 16384],
    u: &[u8; 4096],
    v: &[u8; 4096],
    luma2: &[u8; 16384],
    u2: &[u8; 4096],
    v2: &[u8; 4096],
) -> io::Result<()> {
    print!(rt; "wrong in luma, U, V: ")?;
    say_differing(rt, luma, u, v, luma2, u2, v2)?;
    print!(rt; "; luma lines")?;
    say_lines(rt, luma, luma2)?;
    print!(rt; "; first at ")?;
    say_first(rt, luma, luma2)?;
    println!(rt)
}

fn twice(
    rt: &impl Print,
    again: &[u16; 640],
    luma: &[u8; 16384],
    u: &[u8; 4096],
    v: &[u8; 4096],
    levels: &[u8; 4096],
    masks: &[u16; 640],
) -> io::Result<()> {
    let mut luma2 = witness::luma();
    let mut u2 = witness::chroma(false);
    let mut v2 = witness::chroma(true);
    four(rt, 0, 1, 2, 3, &mut luma2, &mut u2, &mut v2, levels, masks)?;
    call(rt, 3, &mut luma2, &mut u2, &mut v2, levels, again)?;
    say_wrong(rt, &luma2, &u2, &v2, luma, u, v)
}

fn two_workers(rt: &impl Print, levels: &[u8; 4096], masks: &[u16; 640]) -> io::Result<()> {
    let mut luma = witness::luma();
    let mut u = witness::chroma(false);
    let mut v = witness::chroma(true);
    four(rt, 0, 1, 2, 3, &mut luma, &mut u, &mut v, levels, masks)?;
    println!(rt; "these planes are right")?;
    let boundary = counts::boundary(masks);
    twice(rt, &boundary, &luma, &u, &v, levels, masks)?;
    println!(rt; "4. The first frame, with rows 1 called twice")?;
    twice(rt, masks, &luma, &u, &v, levels, masks)
}

fn main(rt: HostRuntime) -> io::Result<()> {
    let mut levels = [0u8; 4096];
    let mut masks = [0u16; 640];
    let number = answered(witness::record_all(&mut levels, &mut masks));
    println!(rt; "1. A frame that meets the hypotheses")?;
    println!(rt;
        "64 blocks of 16x16 recorded, level values 32 28 24 20, sharpness 0: number {number}"
    )?;
    say_edges(&rt, &masks)?;
    say_rule(&rt, &masks)?;
    orders(&rt, &levels, &masks)?;
    println!(rt; "2. A frame that breaks the hypothesis that no call checks")?;
    unruly(&rt)?;
    println!(rt;
        "3. The first frame, its row edges on the boundary filtered by both workers: the last call has these edges alone"
    )?;
    two_workers(&rt, &levels, &masks)
}
