// A program: reads lines of samples, writes them as `piece` filters them. The records are those of oracle/FORMATS.md. Each line stands four
// times in a plane, along its rows or, where the level is odd, down its columns; sample k of the answer comes from line k % 4.
#![tactic(auto)]

ghost use Rattle.std.specs.Prelude.{◌≡◌, ◌+◌, ◌-◌, ◌*◌, ◌<◌, ◌≤◌};
ghost use Rattle.line.specs.Width.{Width};
ghost use Rattle.replay_line.specs.Capped.{Capped};

use plane::Pixel;
use standard::Bounds;
use std::io::{self, Read, Write};

// Sample n / 4 of line n % 4.
fn place(n: usize, down: bool) -> usize
    requires { n < 56 }
    ensures { result < 64 }
{
    if down {
        return n;
    }
    n % 4 * 16 + n / 4
}

// A sample in the depth's range, of 8 bits its low byte.
fn sample(x: u16, scale: u32) -> u16
    requires { (0 < scale) × (scale ≤ 16) }
    ensures { result < 256 * scale }
{
    if scale == 1 {
        return x % 256;
    }
    x.min((256 * scale - 1) as u16)
}

fn load<P: Pixel>(s: &mut [P; 64], case: &[u8; 32], down: bool, scale: u32)
    requires { (0 < scale) × (scale ≤ 16) × (256 * scale ≤ P.top) × Capped (256 * scale - 1) (P.samples s.old) }
    ensures { Capped (256 * scale - 1) (P.samples s.new) }
{
    for n in 0..56 {
        P::put(
            s,
            place(n, down),
            sample(wire::u16_at(case, 4 + 2 * (n / 4)), scale),
        );
    }
}

fn width(wd: u32) -> u32
    ensures { Width result }
{
    match wd {
        4 => 4,
        6 => 6,
        8 => 8,
        _ => 16,
    }
}

fn scaled(x: u8, scale: u32) -> u32
    requires { scale ≤ 16 }
{
    u32::from(x) * scale
}

fn bounds(level: usize, sharpness: u32, scale: u32) -> Bounds
    requires { (level < 64) × (0 < scale) × (scale ≤ 16) }
    ensures { (result.f ≡ scale) × (result.half ≡ 128 * scale) }
{
    let (e, i) = match limits::limits(sharpness) {
        Ok(table) => (table.e[level], table.i[level]),
        Err(_) => (0, 0),
    };
    Bounds {
        e: scaled(e, scale),
        i: scaled(i, scale),
        h: (level / 16) as u32 * scale,
        f: scale,
        half: 128 * scale,
    }
}

fn put<P: Pixel>(s: &[P; 64], down: bool, out: &mut [u8; 32]) {
    for k in 0..14 {
        wire::put_u16(out, 2 * k, P::at(s, place(4 * k + k % 4, down)));
    }
}

fn filter<P: Pixel>(s: &mut [P; 64], case: &[u8; 32], level: usize, scale: u32, out: &mut [u8; 32])
    requires { (level < 64) × (0 < scale) × (scale ≤ 16) × (256 * scale ≤ P.top) × Capped (256 * scale - 1) (P.samples s.old) }
{
    let down = level % 2 == 1;
    load(s, case, down, scale);
    let t = bounds(level, wire::u8_at(case, 3), scale);
    let (line_step, sample_step) = if down { (1, 4) } else { (16, 1) };
    piece::piece(
        s,
        7 * sample_step,
        line_step,
        sample_step,
        width(wire::u8_at(case, 0)),
        t,
    );
    put(s, down, out);
}

fn answer(case: &[u8; 32], out: &mut [u8; 32]) {
    let level = wire::u8_at(case, 2) as usize;
    if level == 0 {
        out[..28].copy_from_slice(&case[4..]);
        return;
    }
    if 63 < level {
        return;
    }
    match wire::u8_at(case, 1) {
        8 => filter(&mut [0u8; 64], case, level, 1, out),
        10 => filter(&mut [0u16; 64], case, level, 4, out),
        _ => filter(&mut [0u16; 64], case, level, 16, out),
    }
}

fn replayed<R: Read, W: Write>(input: &mut R, output: &mut W) -> io::Result<bool> {
    let mut case = [0u8; 32];
    if !wire::read(input, &mut case)? {
        return Ok(false);
    }
    let mut out = [0u8; 32];
    answer(&case, &mut out);
    output.write_all(&out)?;
    Ok(true)
}

fn main(rt: HostRuntime) -> io::Result<()> {
    wire::replay(&mut rt.reader(), &mut io::writer(&rt), replayed)
}
