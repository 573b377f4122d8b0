// Columns and rows of one superblock row.
ghost use Rattle.std.specs.Prelude.{true, false};
ghost use Rattle.apply.specs.Apply.{call_of, FilterLent};

use refusals::answered;

#[unsafe(no_mangle)]
pub extern "C" fn deblock_columns_8(
    luma: &mut [u8],
    luma_stride: usize,
    u: &mut [u8],
    v: &mut [u8],
    chroma_stride: usize,
    levels: &[u8],
    level_stride: usize,
    masks: &[u16],
    e: &[u8; 64],
    i: &[u8; 64],
    width: u32,
    height: u32,
    layout: u32,
    superblock: u32,
    level_u: u32,
    level_v: u32,
    row: u32,
) -> u32
    ensures { FilterLent (call_of false 8 luma_stride chroma_stride level_stride width height layout superblock level_u level_v row)
        luma.old u.old v.old levels.now masks.now e.now i.now result
        luma.new u.new v.new }
{
    answered(apply::columns_8(
        luma,
        luma_stride,
        u,
        v,
        chroma_stride,
        levels,
        level_stride,
        masks,
        e,
        i,
        width,
        height,
        layout,
        superblock,
        level_u,
        level_v,
        row,
    ))
}

#[unsafe(no_mangle)]
pub extern "C" fn deblock_rows_8(
    luma: &mut [u8],
    luma_stride: usize,
    u: &mut [u8],
    v: &mut [u8],
    chroma_stride: usize,
    levels: &[u8],
    level_stride: usize,
    masks: &[u16],
    e: &[u8; 64],
    i: &[u8; 64],
    width: u32,
    height: u32,
    layout: u32,
    superblock: u32,
    level_u: u32,
    level_v: u32,
    row: u32,
) -> u32
    ensures { FilterLent (call_of true 8 luma_stride chroma_stride level_stride width height layout superblock level_u level_v row)
        luma.old u.old v.old levels.now masks.now e.now i.now result
        luma.new u.new v.new }
{
    answered(apply::rows_8(
        luma,
        luma_stride,
        u,
        v,
        chroma_stride,
        levels,
        level_stride,
        masks,
        e,
        i,
        width,
        height,
        layout,
        superblock,
        level_u,
        level_v,
        row,
    ))
}

#[unsafe(no_mangle)]
pub extern "C" fn deblock_columns_16(
    luma: &mut [u16],
    luma_stride: usize,
    u: &mut [u16],
    v: &mut [u16],
    chroma_stride: usize,
    levels: &[u8],
    level_stride: usize,
    masks: &[u16],
    e: &[u8; 64],
    i: &[u8; 64],
    depth: u32,
    width: u32,
    height: u32,
    layout: u32,
    superblock: u32,
    level_u: u32,
    level_v: u32,
    row: u32,
) -> u32
    ensures { FilterLent (call_of false depth luma_stride chroma_stride level_stride width height layout superblock level_u level_v row)
        luma.old u.old v.old levels.now masks.now e.now i.now result
        luma.new u.new v.new }
{
    answered(apply::columns_16(
        luma,
        luma_stride,
        u,
        v,
        chroma_stride,
        levels,
        level_stride,
        masks,
        e,
        i,
        depth,
        width,
        height,
        layout,
        superblock,
        level_u,
        level_v,
        row,
    ))
}

#[unsafe(no_mangle)]
pub extern "C" fn deblock_rows_16(
    luma: &mut [u16],
    luma_stride: usize,
    u: &mut [u16],
    v: &mut [u16],
    chroma_stride: usize,
    levels: &[u8],
    level_stride: usize,
    masks: &[u16],
    e: &[u8; 64],
    i: &[u8; 64],
    depth: u32,
    width: u32,
    height: u32,
    layout: u32,
    superblock: u32,
    level_u: u32,
    level_v: u32,
    row: u32,
) -> u32
    ensures { FilterLent (call_of true depth luma_stride chroma_stride level_stride width height layout superblock level_u level_v row)
        luma.old u.old v.old levels.now masks.now e.now i.now result
        luma.new u.new v.new }
{
    answered(apply::rows_16(
        luma,
        luma_stride,
        u,
        v,
        chroma_stride,
        levels,
        level_stride,
        masks,
        e,
        i,
        depth,
        width,
        height,
        layout,
        superblock,
        level_u,
        level_v,
        row,
    ))
}
