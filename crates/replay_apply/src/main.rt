// A program: reads frames with steps on them, writes each step's number and what the steps leave of masks and planes. The records are those
// of oracle/FORMATS.md.
#![tactic(auto)]

mod memory;
mod steps;
mod stored;

use std::io::{self, Read, Write};
use stored::Stored;

fn frame<R: Read, W: Write, P: Stored>(
    input: &mut R,
    output: &mut W,
    head: &[u8; 160],
    luma: &mut [P],
    u: &mut [P],
    v: &mut [P],
) -> io::Result<()> {
    let mut e = [0u8; 64];
    wire::u8s_at(head, 32, &mut e);
    let mut i = [0u8; 64];
    wire::u8s_at(head, 96, &mut i);
    let mut levels = [0u8; 20480];
    memory::read_bytes(input, wire::u32_at(head, 8), &mut levels)?;
    let mut masks = [0u16; 2560];
    memory::read_words(input, wire::u32_at(head, 12), &mut masks)?;
    P::read(input, wire::u32_at(head, 16), luma)?;
    P::read(input, wire::u32_at(head, 20), u)?;
    P::read(input, wire::u32_at(head, 24), v)?;
    let count = wire::u32_at(head, 28);
    steps::run(
        input,
        output,
        count,
        &e,
        &i,
        &mut levels,
        &mut masks,
        luma,
        u,
        v,
    )?;
    memory::write_words(output, wire::u32_at(head, 12), &masks)?;
    P::write(output, wire::u32_at(head, 16), luma)?;
    P::write(output, wire::u32_at(head, 20), u)?;
    P::write(output, wire::u32_at(head, 24), v)
}

fn bytes<R: Read, W: Write>(input: &mut R, output: &mut W, head: &[u8; 160]) -> io::Result<()> {
    let mut luma = [0u8; 65536];
    let mut u = [0u8; 65536];
    let mut v = [0u8; 65536];
    frame(input, output, head, &mut luma, &mut u, &mut v)
}

fn words<R: Read, W: Write>(input: &mut R, output: &mut W, head: &[u8; 160]) -> io::Result<()> {
    let mut luma = [0u16; 65536];
    let mut u = [0u16; 32768];
    let mut v = [0u16; 32768];
    frame(input, output, head, &mut luma, &mut u, &mut v)
}

fn replayed<R: Read, W: Write>(input: &mut R, output: &mut W) -> io::Result<bool> {
    let mut head = [0u8; 160];
    if !wire::read(input, &mut head)? {
        return Ok(false);
    }
    if wire::u32_at(&head, 4) == 0 {
        bytes(input, output, &head)?;
    } else {
        words(input, output, &head)?;
    }
    Ok(true)
}

fn main(rt: HostRuntime) -> io::Result<()> {
    wire::replay(&mut rt.reader(), &mut io::writer(&rt), replayed)
}
