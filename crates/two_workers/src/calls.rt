// The calls that filter, each with its number said.
use limits::Av1FilterLUT;
use refusals::{Refusal, answered};
use std::io;

fn table() -> Av1FilterLUT {
    limits::limits(0).unwrap()
}

fn columns(
    row: u32,
    luma: &mut [u8; 16384],
    u: &mut [u8; 4096],
    v: &mut [u8; 4096],
    levels: &[u8; 4096],
    masks: &[u16; 640],
) -> Result<(), Refusal> {
    let table = table();
    apply::columns_8(
        luma, 128, u, v, 64, levels, 32, masks, &table.e, &table.i, 128, 128, 420, 64, 24, 20, row,
    )
}

fn rows(
    row: u32,
    luma: &mut [u8; 16384],
    u: &mut [u8; 4096],
    v: &mut [u8; 4096],
    levels: &[u8; 4096],
    masks: &[u16; 640],
) -> Result<(), Refusal> {
    let table = table();
    apply::rows_8(
        luma, 128, u, v, 64, levels, 32, masks, &table.e, &table.i, 128, 128, 420, 64, 24, 20, row,
    )
}

fn say_answer(rt: &impl Print, row: u32, answer: Result<(), Refusal>) -> io::Result<()> {
    let number = answered(answer);
    print!(rt; "{row}: {number}; ")
}

// Columns of superblock rows 0 and 1 are calls 0 and 1, rows are calls 2 and 3.
pub fn call(
    rt: &impl Print,
    which: u32,
    luma: &mut [u8; 16384],
    u: &mut [u8; 4096],
    v: &mut [u8; 4096],
    levels: &[u8; 4096],
    masks: &[u16; 640],
) -> io::Result<()> {
    let row = which % 2;
    if which < 2 {
        print!(rt; "columns ")?;
        return say_answer(rt, row, columns(row, luma, u, v, levels, masks));
    }
    print!(rt; "rows ")?;
    say_answer(rt, row, rows(row, luma, u, v, levels, masks))
}

pub fn four(
    rt: &impl Print,
    a: u32,
    b: u32,
    c: u32,
    d: u32,
    luma: &mut [u8; 16384],
    u: &mut [u8; 4096],
    v: &mut [u8; 4096],
    levels: &[u8; 4096],
    masks: &[u16; 640],
) -> io::Result<()> {
    call(rt, a, luma, u, v, levels, masks)?;
    call(rt, b, luma, u, v, levels, masks)?;
    call(rt, c, luma, u, v, levels, masks)?;
    call(rt, d, luma, u, v, levels, masks)
}
