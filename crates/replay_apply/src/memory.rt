// Lent memory, read and written.
ghost use Rattle.std.specs.Prelude.{◌≤◌, length};

use std::io::{self, Read, Write};

const PAGE: usize = 4096;

pub fn read_bytes<R: Read>(input: &mut R, n: u32, to: &mut [u8]) -> io::Result<()> {
    let m = wire::lent(n as usize, to);
    wire::read(input, &mut to[..m])?;
    Ok(())
}

pub fn write_bytes<W: Write>(output: &mut W, n: u32, from: &[u8]) -> io::Result<()> {
    let m = wire::lent(n as usize, from);
    output.write_all(&from[..m])
}

fn read_page<R: Read>(input: &mut R, to: &mut [u16]) -> io::Result<()>
    requires { length to.old ≤ PAGE }
{
    let mut page = [0u8; 2 * PAGE];
    let size = 2 * to.len();
    wire::read(input, &mut page[..size])?;
    wire::u16s_at(&page, 0, to);
    Ok(())
}

fn write_page<W: Write>(output: &mut W, from: &[u16]) -> io::Result<()>
    requires { length from.now ≤ PAGE }
{
    let mut page = [0u8; 2 * PAGE];
    wire::put_u16s(&mut page, 0, from);
    output.write_all(&page[..2 * from.len()])
}

pub fn read_words<R: Read>(input: &mut R, n: u32, to: &mut [u16]) -> io::Result<()> {
    let m = wire::lent(n as usize, to);
    for part in to[..m].chunks_mut(PAGE) {
        read_page(input, part)?;
    }
    Ok(())
}

pub fn write_words<W: Write>(output: &mut W, n: u32, from: &[u16]) -> io::Result<()> {
    let m = wire::lent(n as usize, from);
    for part in from[..m].chunks(PAGE) {
        write_page(output, part)?;
    }
    Ok(())
}
