// A program: reads scripts, lists each in parts and once more whole, and says where the two differ. Each stands after the length of its
// parts and its own length, in four bytes each. Of parts of 4,096 bytes and more it writes the listing too. `scripts/cases.py` makes the
// scripts.
#![tactic(auto)]

use list_reading::listed;
use list_text::Text;
use std::io::{self, Read, Write};

const WRITTEN: usize = 4096;

// What a refused line left unread.
fn read_rest<R: Read>(
    input: &mut R,
    script: &mut [u8],
    read: usize,
    total: usize,
) -> io::Result<()> {
    if read < total && total <= script.len() {
        wire::read(input, &mut script[read..total])?;
    }
    Ok(())
}

fn compare<W: Write>(output: &mut W, script: &[u8], text: &[u8]) -> io::Result<()> {
    let mut out = [0u8; 393255];
    let n = list_call::list(script, &mut out);
    let m = wire::lent(n, &out);
    if text != &out[..m] {
        output.write_all(b"the listing of the whole script differs\n")?;
    }
    Ok(())
}

// A script that fills its memory is not there whole.
fn compare_whole<W: Write>(
    output: &mut W,
    script: &[u8],
    total: usize,
    text: &[u8],
) -> io::Result<()> {
    if total < script.len() {
        let m = wire::lent(total, script);
        compare(output, &script[..m], text)?;
    }
    Ok(())
}

fn list_in_parts<R: Read, W: Write>(
    input: &mut R,
    output: &mut W,
    total: usize,
    most: usize,
) -> io::Result<()> {
    let mut script = [0u8; 131072];
    let mut text = Text {
        bytes: [0u8; 393255],
        len: 0,
    };
    let r = listed(input, total, most, &mut script, &mut text);
    read_rest(input, &mut script, r.read, total)?;
    if WRITTEN <= most {
        output.write_all(&text.bytes[..text.len])?;
    }
    compare_whole(output, &script, total, &text.bytes[..text.len])
}

fn replayed<R: Read, W: Write>(input: &mut R, output: &mut W) -> io::Result<bool> {
    let mut head = [0u8; 8];
    if !wire::read(input, &mut head)? {
        return Ok(false);
    }
    let most = wire::u32_at(&head, 0) as usize;
    list_in_parts(input, output, wire::u32_at(&head, 4) as usize, most)?;
    Ok(true)
}

fn main(rt: HostRuntime) -> io::Result<()> {
    wire::replay(&mut rt.reader(), &mut io::writer(&rt), replayed)
}
