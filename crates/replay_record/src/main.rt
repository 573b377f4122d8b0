// A program: reads blocks with lent memory, writes what `record` answers and the memory afterwards. The records are those of
// oracle/FORMATS.md.
#![tactic(auto)]

ghost use Rattle.std.specs.Prelude.{◌≡◌, length, IfOk};

use refusals::{Refusal, answered};
use std::io::{self, Read, Write};

fn read_masks<R: Read>(input: &mut R) -> io::Result<[u16; 2560]>
    ensures { IfOk result (λ masks. 2560 ≡ length masks) }
{
    let mut bytes = [0u8; 5120];
    wire::read(input, &mut bytes)?;
    let mut masks = [0u16; 2560];
    wire::u16s_at(&bytes, 0, &mut masks);
    Ok(masks)
}

fn write_masks<W: Write>(output: &mut W, masks: &[u16; 2560]) -> io::Result<()> {
    let mut bytes = [0u8; 5120];
    wire::put_u16s(&mut bytes, 0, masks);
    output.write_all(&bytes)
}

fn write_number<W: Write>(output: &mut W, number: u32) -> io::Result<()> {
    let mut bytes = [0u8; 16];
    bytes[0] = (number % 256) as u8;
    output.write_all(&bytes)
}

fn intra(
    head: &[u8; 64],
    values: &[u8; 64],
    levels: &mut [u8],
    masks: &mut [u16],
    above: &mut [u8],
    left: &mut [u8],
    above_uv: &mut [u8],
    left_uv: &mut [u8],
) -> Result<(), Refusal> {
    record::record_intra(
        levels,
        wire::u32_at(head, 44) as usize,
        masks,
        values,
        wire::u32_at(head, 4),
        wire::u32_at(head, 8),
        wire::u32_at(head, 12),
        wire::u32_at(head, 16),
        wire::u32_at(head, 20),
        wire::u32_at(head, 24),
        wire::u32_at(head, 28),
        above,
        left,
        wire::u8_at(head, 1),
        wire::u32_at(head, 32),
        above_uv,
        left_uv,
    )
}

fn inter(
    head: &[u8; 64],
    values: &[u8; 64],
    levels: &mut [u8],
    masks: &mut [u16],
    above: &mut [u8],
    left: &mut [u8],
    above_uv: &mut [u8],
    left_uv: &mut [u8],
) -> Result<(), Refusal> {
    let mut tx_masks = [0u16; 2];
    wire::u16s_at(head, 40, &mut tx_masks);
    record::record_inter(
        levels,
        wire::u32_at(head, 44) as usize,
        masks,
        values,
        wire::u32_at(head, 4),
        wire::u32_at(head, 8),
        wire::u32_at(head, 12),
        wire::u32_at(head, 16),
        wire::u32_at(head, 20),
        wire::u32_at(head, 24),
        wire::u32_at(head, 28),
        &tx_masks,
        wire::u8_at(head, 2),
        wire::u32_at(head, 36),
        wire::u8_at(head, 3),
        above,
        left,
        wire::u8_at(head, 1),
        wire::u32_at(head, 32),
        above_uv,
        left_uv,
    )
}

// Lends as much of each as the record says.
fn recorded(
    head: &[u8; 64],
    values: &[u8; 64],
    levels: &mut [u8],
    masks: &mut [u16],
    above: &mut [u8],
    left: &mut [u8],
    above_uv: &mut [u8],
    left_uv: &mut [u8],
) -> Result<(), Refusal> {
    let l = wire::lent(wire::u32_at(head, 48) as usize, levels);
    let m = wire::lent(wire::u32_at(head, 52) as usize, masks);
    let a = wire::lent(wire::u8_at(head, 56) as usize, above);
    let b = wire::lent(wire::u8_at(head, 57) as usize, left);
    let c = wire::lent(wire::u8_at(head, 58) as usize, above_uv);
    let d = wire::lent(wire::u8_at(head, 59) as usize, left_uv);
    if head[0] == 0 {
        return intra(
            head,
            values,
            &mut levels[..l],
            &mut masks[..m],
            &mut above[..a],
            &mut left[..b],
            &mut above_uv[..c],
            &mut left_uv[..d],
        );
    }
    inter(
        head,
        values,
        &mut levels[..l],
        &mut masks[..m],
        &mut above[..a],
        &mut left[..b],
        &mut above_uv[..c],
        &mut left_uv[..d],
    )
}

fn replayed<R: Read, W: Write>(input: &mut R, output: &mut W) -> io::Result<bool> {
    let mut head = [0u8; 64];
    if !wire::read(input, &mut head)? {
        return Ok(false);
    }
    let mut values = [0u8; 64];
    wire::read(input, &mut values)?;
    let mut above = [0u8; 32];
    wire::read(input, &mut above)?;
    let mut left = [0u8; 32];
    wire::read(input, &mut left)?;
    let mut above_uv = [0u8; 32];
    wire::read(input, &mut above_uv)?;
    let mut left_uv = [0u8; 32];
    wire::read(input, &mut left_uv)?;
    let mut masks = read_masks(input)?;
    let mut levels = [0u8; 8192];
    wire::read(input, &mut levels)?;
    let result = recorded(
        &head,
        &values,
        &mut levels,
        &mut masks,
        &mut above,
        &mut left,
        &mut above_uv,
        &mut left_uv,
    );
    write_number(output, answered(result))?;
    output.write_all(&above)?;
    output.write_all(&left)?;
    output.write_all(&above_uv)?;
    output.write_all(&left_uv)?;
    write_masks(output, &masks)?;
    output.write_all(&levels)?;
    Ok(true)
}

fn main(rt: HostRuntime) -> io::Result<()> {
    wire::replay(&mut rt.reader(), &mut io::writer(&rt), replayed)
}
