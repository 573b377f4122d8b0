// One step on a frame: a call of `correct` or `apply` with all its arguments, or a single store.
ghost use Rattle.std.specs.Prelude.{◌+◌, ◌≤◌};

use crate::memory;
use crate::stored::Stored;
use refusals::{Refusal, answered};
use std::io::{self, Read, Write};

// A step's 96 bytes, and the contexts that it lends.
fn read_step<R: Read>(input: &mut R) -> io::Result<[u8; 96]> {
    let mut step = [0u8; 96];
    wire::read(input, &mut step)?;
    Ok(step)
}

pub fn stride_at(step: &[u8; 96], at: usize) -> usize
    requires { at + 8 ≤ 96 }
{
    let low = wire::u32_at(step, at) as usize;
    let height = wire::u32_at(step, at + 4) as usize;
    height * 4294967296 + low
}

fn corrected(
    step: &[u8; 96],
    context: &[u8],
    context_uv: &[u8],
    masks: &mut [u16],
) -> Result<(), Refusal> {
    let width = wire::u32_at(step, 4);
    let height = wire::u32_at(step, 8);
    let layout = wire::u32_at(step, 12);
    let superblock = wire::u32_at(step, 16);
    let row = wire::u32_at(step, 20);
    if wire::u32_at(step, 0) == 0 {
        let start = wire::u32_at(step, 24);
        return correct::correct_column(
            masks, width, height, layout, superblock, row, start, context, context_uv,
        );
    }
    correct::correct_row(
        masks, width, height, layout, superblock, row, context, context_uv,
    )
}

// Reads the contexts that a step lends, and makes its correction.
fn correction<R: Read>(input: &mut R, step: &[u8; 96], masks: &mut [u16]) -> io::Result<u32> {
    let mut context = [0u8; 256];
    let n = wire::u16_at(step, 60) as u32;
    memory::read_bytes(input, n, &mut context)?;
    let mut context_uv = [0u8; 256];
    let n_uv = wire::u16_at(step, 62) as u32;
    memory::read_bytes(input, n_uv, &mut context_uv)?;
    let m = wire::lent(wire::u32_at(step, 44) as usize, masks);
    let a = wire::lent(n as usize, &context);
    let b = wire::lent(n_uv as usize, &context_uv);
    let result = corrected(step, &context[..a], &context_uv[..b], &mut masks[..m]);
    Ok(answered(result))
}

// A pass, with as much of each lent as the step says.
fn filtered<P: Stored>(
    step: &[u8; 96],
    e: &[u8; 64],
    i: &[u8; 64],
    levels: &[u8],
    masks: &[u16],
    luma: &mut [P],
    u: &mut [P],
    v: &mut [P],
) -> u32 {
    let l = wire::lent(wire::u32_at(step, 40) as usize, levels);
    let m = wire::lent(wire::u32_at(step, 44) as usize, masks);
    let a = wire::lent(wire::u32_at(step, 48) as usize, luma);
    let b = wire::lent(wire::u32_at(step, 52) as usize, u);
    let c = wire::lent(wire::u32_at(step, 56) as usize, v);
    answered(P::pass(
        step,
        e,
        i,
        &levels[..l],
        &masks[..m],
        &mut luma[..a],
        &mut u[..b],
        &mut v[..c],
    ))
}

fn step<R: Read, P: Stored>(
    input: &mut R,
    e: &[u8; 64],
    i: &[u8; 64],
    levels: &mut [u8],
    masks: &mut [u16],
    luma: &mut [P],
    u: &mut [P],
    v: &mut [P],
) -> io::Result<u32> {
    let step = read_step(input)?;
    let at = wire::u32_at(&step, 20);
    let value = wire::u32_at(&step, 24);
    match wire::u32_at(&step, 0) {
        0 | 1 => return correction(input, &step, masks),
        2 | 3 => return Ok(filtered(&step, e, i, levels, masks, luma, u, v)),
        4 => u8::put(levels, at, value),
        5 => u16::put(masks, at, value),
        6 => P::put(luma, at, value),
        7 => P::put(u, at, value),
        _ => P::put(v, at, value),
    }
    Ok(0)
}

// So many steps; each writes its number.
pub fn run<R: Read, W: Write, P: Stored>(
    input: &mut R,
    output: &mut W,
    count: u32,
    e: &[u8; 64],
    i: &[u8; 64],
    levels: &mut [u8],
    masks: &mut [u16],
    luma: &mut [P],
    u: &mut [P],
    v: &mut [P],
) -> io::Result<()> {
    for _ in 0..count {
        let number = step(input, e, i, levels, masks, luma, u, v)?;
        output.write_all(&[(number % 256) as u8])?;
    }
    Ok(())
}
