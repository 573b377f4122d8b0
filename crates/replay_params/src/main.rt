// A program: reads bytes, a place and parameters, writes what `params` answers and the bytes afterwards. The records are those of
// oracle/FORMATS.md.
#![tactic(auto)]

ghost use Rattle.std.specs.Prelude.{◌+◌, ◌≤◌};

use params::FrameHeader;
use refusals::Refusal;
use standard::Params;
use std::io::{self, Read, Write};

fn place(head: &[u8; 64]) -> usize {
    let low = wire::u32_at(head, 16) as usize;
    let high = wire::u32_at(head, 20) as usize;
    high * 4294967296 + low
}

fn bytes_at<const N: usize>(head: &[u8; 64], at: usize) -> [u8; N]
    requires { at + N ≤ 64 }
{
    let mut bytes = [0u8; N];
    wire::u8s_at(head, at, &mut bytes);
    bytes
}

fn deltas_at<const N: usize>(head: &[u8; 64], at: usize) -> [i8; N]
    requires { at + N ≤ 64 }
{
    let mut deltas = [0i8; N];
    wire::i8s_at(head, at, &mut deltas);
    deltas
}

fn given(head: &[u8; 64]) -> Params {
    Params {
        level: bytes_at(head, 34),
        sharpness: head[38],
        delta_enabled: head[39],
        delta_update: head[40],
        update_ref: bytes_at(head, 41),
        update_mode: bytes_at(head, 49),
        ref_delta: deltas_at(head, 51),
        mode_delta: deltas_at(head, 59),
    }
}

fn write_head<W: Write>(output: &mut W, number: u32, count: u32) -> io::Result<()> {
    output.write_all(&[(number % 256) as u8, (count % 256) as u8])
}

fn write_refusal<W: Write>(output: &mut W, refusal: Refusal) -> io::Result<()> {
    write_head(output, u32::from(refusal), 0)?;
    output.write_all(&[0u8; 30])
}

fn write_bits<W: Write>(output: &mut W, p: Params) -> io::Result<()> {
    output.write_all(&p.level)?;
    output.write_all(&[p.sharpness, p.delta_enabled, p.delta_update])?;
    output.write_all(&p.update_ref)?;
    output.write_all(&p.update_mode)
}

// The deltas, and padding.
fn write_deltas<W: Write>(output: &mut W, refs: [i8; 8], modes: [i8; 2]) -> io::Result<()> {
    output.write_all(&refs.map(|d| d.cast_unsigned()))?;
    output.write_all(&modes.map(|d| d.cast_unsigned()))?;
    output.write_all(&[0u8; 3])
}

fn header(head: &[u8; 64]) -> FrameHeader {
    FrameHeader {
        planes: wire::u32_at(head, 4),
        lossless: wire::u32_at(head, 8),
        intrabc: wire::u32_at(head, 12),
        refs: deltas_at(head, 24),
        modes: deltas_at(head, 32),
    }
}

// Lends as many bytes as the record says.
fn read<W: Write>(output: &mut W, head: &[u8; 64], bytes: &[u8]) -> io::Result<()> {
    let n = wire::lent(wire::u8_at(head, 1) as usize, bytes);
    match params::read(&bytes[..n], place(head), header(head)) {
        Ok(taken) => {
            write_head(output, 0, taken.count)?;
            write_bits(output, taken.params)?;
            write_deltas(output, taken.params.ref_delta, taken.params.mode_delta)
        }
        Err(refusal) => write_refusal(output, refusal),
    }
}

fn write<W: Write>(output: &mut W, head: &[u8; 64], bytes: &mut [u8]) -> io::Result<()> {
    let n = wire::lent(wire::u8_at(head, 1) as usize, bytes);
    match params::write(&mut bytes[..n], place(head), header(head), given(head)) {
        Ok(count) => {
            write_head(output, 0, count)?;
            output.write_all(&[0u8; 30])
        }
        Err(refusal) => write_refusal(output, refusal),
    }
}

fn answer<W: Write>(output: &mut W, head: &[u8; 64], bytes: &mut [u8]) -> io::Result<()> {
    if head[0] == 0 {
        read(output, head, bytes)
    } else {
        write(output, head, bytes)
    }
}

fn replayed<R: Read, W: Write>(input: &mut R, output: &mut W) -> io::Result<bool> {
    let mut head = [0u8; 64];
    if !wire::read(input, &mut head)? {
        return Ok(false);
    }
    let mut bytes = [0u8; 64];
    wire::read(input, &mut bytes)?;
    answer(output, &head, &mut bytes)?;
    output.write_all(&bytes)?;
    Ok(true)
}

fn main(rt: HostRuntime) -> io::Result<()> {
    wire::replay(&mut rt.reader(), &mut io::writer(&rt), replayed)
}
