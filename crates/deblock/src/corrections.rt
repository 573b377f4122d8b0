// The correction of masks at a tile's start.
ghost use Rattle.correct.specs.Answer.{column_of, row_of, CorrectAnswer};

use refusals::answered;

#[unsafe(no_mangle)]
pub extern "C" fn deblock_correct_column(
    masks: &mut [u16],
    width: u32,
    height: u32,
    layout: u32,
    superblock: u32,
    row: u32,
    start: u32,
    left: &[u8],
    left_uv: &[u8],
) -> u32
    ensures { CorrectAnswer (column_of width height layout superblock row start) left.now left_uv.now result masks.old masks.new }
{
    answered(correct::correct_column(
        masks, width, height, layout, superblock, row, start, left, left_uv,
    ))
}

#[unsafe(no_mangle)]
pub extern "C" fn deblock_correct_row(
    masks: &mut [u16],
    width: u32,
    height: u32,
    layout: u32,
    superblock: u32,
    row: u32,
    above: &[u8],
    above_uv: &[u8],
) -> u32
    ensures { CorrectAnswer (row_of width height layout superblock row) above.now above_uv.now result masks.old masks.new }
{
    answered(correct::correct_row(
        masks, width, height, layout, superblock, row, above, above_uv,
    ))
}
