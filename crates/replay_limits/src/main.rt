// A program: reads sharpnesses, writes what `limits` answers. The records are those of oracle/FORMATS.md.
#![tactic(auto)]

use limits::Av1FilterLUT;
use refusals::Refusal;
use std::io::{self, Read, Write};

fn write_table<W: Write>(output: &mut W, table: &Av1FilterLUT) -> io::Result<()> {
    output.write_all(&table.e)?;
    output.write_all(&table.i)?;
    output.write_all(&table.sharp[0].to_le_bytes())?;
    output.write_all(&table.sharp[1].to_le_bytes())
}

fn write_refusal<W: Write>(output: &mut W, refusal: Refusal) -> io::Result<()> {
    output.write_all(&[(u32::from(refusal) % 256) as u8])?;
    output.write_all(&[0u8; 144])
}

fn replayed<R: Read, W: Write>(input: &mut R, output: &mut W) -> io::Result<bool> {
    let mut case = [0u8; 4];
    if !wire::read(input, &mut case)? {
        return Ok(false);
    }
    match limits::limits(wire::u32_at(&case, 0)) {
        Ok(table) => {
            output.write_all(&[0])?;
            write_table(output, &table)?;
        }
        Err(refusal) => write_refusal(output, refusal)?,
    }
    Ok(true)
}

fn main(rt: HostRuntime) -> io::Result<()> {
    wire::replay(&mut rt.reader(), &mut io::writer(&rt), replayed)
}
