// A sample as a frame stores it, of 8 bits or of 16.
use crate::{memory, steps};
use refusals::Refusal;
use std::io::{self, Read, Write};

pub trait Stored: Copy {
    // As many as are lent.
    fn read<R: Read>(input: &mut R, n: u32, to: &mut [Self]) -> io::Result<()>;

    fn write<W: Write>(output: &mut W, n: u32, from: &[Self]) -> io::Result<()>;

    // The value's low bits, where the place is inside.
    fn put(to: &mut [Self], at: u32, value: u32);

    // Columns or rows, as the step says, with all its arguments.
    fn pass(
        step: &[u8; 96],
        e: &[u8; 64],
        i: &[u8; 64],
        levels: &[u8],
        masks: &[u16],
        luma: &mut [Self],
        u: &mut [Self],
        v: &mut [Self],
    ) -> Result<(), Refusal>;
}

impl Stored for u8 {
    fn read<R: Read>(input: &mut R, n: u32, to: &mut [u8]) -> io::Result<()> {
        memory::read_bytes(input, n, to)
    }

    fn write<W: Write>(output: &mut W, n: u32, from: &[u8]) -> io::Result<()> {
        memory::write_bytes(output, n, from)
    }

    fn put(to: &mut [u8], at: u32, value: u32) {
        if let Some(x) = to.get_mut(at as usize) {
            *x = (value % 256) as u8;
        }
    }

    fn pass(
        step: &[u8; 96],
        e: &[u8; 64],
        i: &[u8; 64],
        levels: &[u8],
        masks: &[u16],
        luma: &mut [u8],
        u: &mut [u8],
        v: &mut [u8],
    ) -> Result<(), Refusal> {
        let width = wire::u32_at(step, 4);
        let height = wire::u32_at(step, 8);
        let layout = wire::u32_at(step, 12);
        let superblock = wire::u32_at(step, 16);
        let row = wire::u32_at(step, 20);
        let level_u = wire::u32_at(step, 32);
        let level_v = wire::u32_at(step, 36);
        let stride = steps::stride_at(step, 64);
        let luma_stride = steps::stride_at(step, 72);
        let chroma_stride = steps::stride_at(step, 80);
        if wire::u32_at(step, 0) == 2 {
            return apply::columns_8(
                luma,
                luma_stride,
                u,
                v,
                chroma_stride,
                levels,
                stride,
                masks,
                e,
                i,
                width,
                height,
                layout,
                superblock,
                level_u,
                level_v,
                row,
            );
        }
        apply::rows_8(
            luma,
            luma_stride,
            u,
            v,
            chroma_stride,
            levels,
            stride,
            masks,
            e,
            i,
            width,
            height,
            layout,
            superblock,
            level_u,
            level_v,
            row,
        )
    }
}

impl Stored for u16 {
    fn read<R: Read>(input: &mut R, n: u32, to: &mut [u16]) -> io::Result<()> {
        memory::read_words(input, n, to)
    }

    fn write<W: Write>(output: &mut W, n: u32, from: &[u16]) -> io::Result<()> {
        memory::write_words(output, n, from)
    }

    fn put(to: &mut [u16], at: u32, value: u32) {
        if let Some(x) = to.get_mut(at as usize) {
            *x = (value % 65536) as u16;
        }
    }

    fn pass(
        step: &[u8; 96],
        e: &[u8; 64],
        i: &[u8; 64],
        levels: &[u8],
        masks: &[u16],
        luma: &mut [u16],
        u: &mut [u16],
        v: &mut [u16],
    ) -> Result<(), Refusal> {
        let width = wire::u32_at(step, 4);
        let height = wire::u32_at(step, 8);
        let layout = wire::u32_at(step, 12);
        let superblock = wire::u32_at(step, 16);
        let row = wire::u32_at(step, 20);
        let depth = wire::u32_at(step, 28);
        let level_u = wire::u32_at(step, 32);
        let level_v = wire::u32_at(step, 36);
        let stride = steps::stride_at(step, 64);
        let luma_stride = steps::stride_at(step, 72);
        let chroma_stride = steps::stride_at(step, 80);
        if wire::u32_at(step, 0) == 2 {
            return apply::columns_16(
                luma,
                luma_stride,
                u,
                v,
                chroma_stride,
                levels,
                stride,
                masks,
                e,
                i,
                depth,
                width,
                height,
                layout,
                superblock,
                level_u,
                level_v,
                row,
            );
        }
        apply::rows_16(
            luma,
            luma_stride,
            u,
            v,
            chroma_stride,
            levels,
            stride,
            masks,
            e,
            i,
            depth,
            width,
            height,
            layout,
            superblock,
            level_u,
            level_v,
            row,
        )
    }
}
