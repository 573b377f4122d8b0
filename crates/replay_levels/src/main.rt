// A program: reads headers, writes what `levels` answers. The records are those of oracle/FORMATS.md.
#![tactic(auto)]

use refusals::{Refusal, answered};
use std::io::{self, Read, Write};

fn answer(case: &[u8; 576], values: &mut [u8; 512]) -> Result<(), Refusal> {
    let mut base = [0u8; 4];
    wire::u8s_at(case, 4, &mut base);
    let mut ref_delta = [0i8; 8];
    wire::i8s_at(case, 9, &mut ref_delta);
    let mut mode_delta = [0i8; 2];
    wire::i8s_at(case, 17, &mut mode_delta);
    let mut lf_delta = [0i8; 4];
    wire::i8s_at(case, 20, &mut lf_delta);
    let mut seg_delta = [0i8; 32];
    wire::i8s_at(case, 25, &mut seg_delta);
    levels::levels(
        values,
        wire::u32_at(case, 0),
        &base,
        wire::u8_at(case, 8),
        &ref_delta,
        &mode_delta,
        wire::u8_at(case, 19),
        &lf_delta,
        wire::u8_at(case, 24),
        &seg_delta,
    )
}

fn write_answer<W: Write>(output: &mut W, number: u32, values: &[u8; 512]) -> io::Result<()> {
    output.write_all(&[(number % 256) as u8])?;
    output.write_all(values)?;
    output.write_all(&[0u8; 7])
}

fn replayed<R: Read, W: Write>(input: &mut R, output: &mut W) -> io::Result<bool> {
    let mut case = [0u8; 576];
    if !wire::read(input, &mut case)? {
        return Ok(false);
    }
    let mut values = [0u8; 512];
    wire::u8s_at(&case, 57, &mut values);
    let number = answered(answer(&case, &mut values));
    write_answer(output, number, &values)?;
    Ok(true)
}

fn main(rt: HostRuntime) -> io::Result<()> {
    wire::replay(&mut rt.reader(), &mut io::writer(&rt), replayed)
}
