// What the replay programs read and write: records of bytes, lent in part, and their numbers, low byte first.
#![tactic(auto)]

ghost use Rattle.std.specs.Prelude.{◌+◌, ◌*◌, ◌<◌, ◌≤◌, length, IfOk, IsTrue};
ghost use Rattle.std.specs.Io.KnownBytes.{Consumes};
ghost use Rattle.wire.specs.Counts.{IsPrefixLen};

use std::io::{self, ErrorKind, Read, Write};

// Whether the input had the bytes to fill `buf`. If not, those that it had stand at its front.
pub fn read<R: Read>(input: &mut R, buf: &mut [u8]) -> io::Result<bool>
    ensures { IfOk result (λ full. IsTrue full → Consumes (R.remaining input.old) (R.remaining input.new) buf.new) }
{
    match input.read_exact(buf) {
        Ok(()) => Ok(true),
        Err(e) if e.kind() == ErrorKind::UnexpectedEof => Ok(false),
        Err(e) => Err(e),
    }
}

// How many to lend where n are asked for.
pub fn lent<T>(n: usize, of: &[T]) -> usize
    ensures { IsPrefixLen result of.now }
{
    n.min(of.len())
}

// Answers one record after another, until there is no further one.
pub fn replay<R: Read, W: Write, F: Fn(&mut R, &mut W) -> io::Result<bool>>(
    input: &mut R,
    output: &mut W,
    replayed: F,
) -> io::Result<()>
    requires { F.IsAlwaysCallable replayed }
{
    for _ in 0..u64::MAX {
        if !replayed(input, output)? {
            break;
        }
    }
    Ok(())
}

pub fn u8_at(b: &[u8], at: usize) -> u32
    requires { at < length b.now }
    ensures { result < 256 }
{
    u32::from(b[at])
}

pub fn u16_at(b: &[u8], at: usize) -> u16
    requires { at + 2 ≤ length b.now }
{
    u16::from_le_bytes([b[at], b[at + 1]])
}

pub fn u32_at(b: &[u8], at: usize) -> u32
    requires { at + 4 ≤ length b.now }
{
    u32::from_le_bytes([b[at], b[at + 1], b[at + 2], b[at + 3]])
}

pub fn i8s_at(b: &[u8], at: usize, out: &mut [i8])
    requires { at + length out.old ≤ length b.now }
{
    for (x, &byte) in out.iter_mut().zip(&b[at..]) {
        *x = byte.cast_signed();
    }
}

pub fn u8s_at(b: &[u8], at: usize, out: &mut [u8])
    requires { at + length out.old ≤ length b.now }
{
    let end = at + out.len();
    out.copy_from_slice(&b[at..end]);
}

pub fn u16s_at(b: &[u8], at: usize, out: &mut [u16])
    requires { at + 2 * length out.old ≤ length b.now }
{
    for (k, x) in out.iter_mut().enumerate() {
        *x = u16_at(b, at + 2 * k);
    }
}

pub fn put_u16(out: &mut [u8], at: usize, v: u16)
    requires { at + 2 ≤ length out.old }
{
    out[at..at + 2].copy_from_slice(&v.to_le_bytes());
}

pub fn put_u16s(out: &mut [u8], at: usize, words: &[u16])
    requires { at + 2 * length words.now ≤ length out.old }
{
    for (k, &word) in words.iter().enumerate() {
        put_u16(out, at + 2 * k, word);
    }
}
