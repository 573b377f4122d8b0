// One block into level bytes, masks and contexts.
ghost use Rattle.std.specs.Prelude.{[]};
ghost use Rattle.block.specs.Block.{lent};
ghost use Rattle.record.specs.Record.{intra_of, inter_of, RecordAnswer};

use refusals::answered;

#[unsafe(no_mangle)]
pub extern "C" fn deblock_record_intra(
    levels: &mut [u8],
    level_stride: usize,
    masks: &mut [u16],
    values: &[u8; 64],
    width: u32,
    height: u32,
    layout: u32,
    x: u32,
    y: u32,
    size: u32,
    tx: u32,
    above: &mut [u8],
    left: &mut [u8],
    chroma: u32,
    uvtx: u32,
    above_uv: &mut [u8],
    left_uv: &mut [u8],
) -> u32
    ensures { RecordAnswer (intra_of width height layout x y size tx chroma uvtx) level_stride values.now [] result
        (lent levels.old masks.old above.old left.old above_uv.old left_uv.old)
        (lent levels.new masks.new above.new left.new above_uv.new left_uv.new) }
{
    answered(record::record_intra(
        levels,
        level_stride,
        masks,
        values,
        width,
        height,
        layout,
        x,
        y,
        size,
        tx,
        above,
        left,
        chroma,
        uvtx,
        above_uv,
        left_uv,
    ))
}

#[unsafe(no_mangle)]
pub extern "C" fn deblock_record_inter(
    levels: &mut [u8],
    level_stride: usize,
    masks: &mut [u16],
    values: &[u8; 64],
    width: u32,
    height: u32,
    layout: u32,
    x: u32,
    y: u32,
    size: u32,
    tx: u32,
    tx_masks: &[u16; 2],
    skip: u32,
    reference: u32,
    mode: u32,
    above: &mut [u8],
    left: &mut [u8],
    chroma: u32,
    uvtx: u32,
    above_uv: &mut [u8],
    left_uv: &mut [u8],
) -> u32
    ensures { RecordAnswer (inter_of width height layout x y size tx chroma uvtx skip reference mode) level_stride values.now tx_masks.now result
        (lent levels.old masks.old above.old left.old above_uv.old left_uv.old)
        (lent levels.new masks.new above.new left.new above_uv.new left_uv.new) }
{
    answered(record::record_inter(
        levels,
        level_stride,
        masks,
        values,
        width,
        height,
        layout,
        x,
        y,
        size,
        tx,
        tx_masks,
        skip,
        reference,
        mode,
        above,
        left,
        chroma,
        uvtx,
        above_uv,
        left_uv,
    ))
}
