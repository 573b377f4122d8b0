// Public: the correction of masks at a tile's first column and top row, where no edge has a class above its context's.
#![tactic(auto)]

mod edge;
mod place;
mod refusal;

ghost use Rattle.std.specs.Prelude.{◌≡◌, length};
ghost use Rattle.refusals.specs.Numbers.{answered};
ghost use Rattle.correct.specs.Correct.{plane_done};
ghost use Rattle.correct.specs.Answer.{start_of, column_of, row_of, CorrectAnswer, Ready};
ghost use Rattle.correct.specs.Promises.{Promises};

use edge::correct_line;
use place::{corrects, line};
use refusals::Refusal;
use units::{LumaUnit, Sample};

// The start of a tile: frame, pass, superblock row, and the superblock of the tile's first column, 0 in the row pass.
#[derive(Clone, Copy)]
pub struct Start {
    pub width: Sample,
    pub height: Sample,
    pub layout: usize,
    pub superblock: usize,
    pub rowwise: bool,
    pub row: usize,
    pub start: usize,
}

// n units along a pass, from `first` on, at `across`, in units of their own plane.
#[derive(Clone, Copy)]
pub struct TileEdge {
    pub luma: bool,
    pub rowwise: bool,
    pub ss_hor: usize,
    pub ss_ver: usize,
    pub w4: LumaUnit,
    pub h4: LumaUnit,
    pub across: usize,
    pub first: usize,
    pub n: usize,
}

fn correct_plane(masks: &mut [u16], t: Start, luma: bool, context: &[u8])
    requires { Ready t luma (length masks.old) (length context.now) }
    ensures { masks.new ≡ plane_done t luma context.now masks.old }
{
    if !corrects(t, luma) {
        return;
    }
    correct_line(masks, line(t, luma), context);
}

fn correct(
    masks: &mut [u16],
    rowwise: bool,
    width: u32,
    height: u32,
    layout: u32,
    superblock: u32,
    row: u32,
    start: u32,
    context: &[u8],
    context_uv: &[u8],
) -> Result<(), Refusal>
    ensures { CorrectAnswer (start_of rowwise width height layout superblock row start) context.now context_uv.now (answered result)
        masks.old masks.new }
{
    let t = Start {
        width: Sample(width as usize),
        height: Sample(height as usize),
        layout: layout as usize,
        superblock: superblock as usize,
        rowwise,
        row: row as usize,
        start: start as usize,
    };
    refusal::check(t, masks.len(), context, context_uv)?;
    correct_plane(masks, t, true, context);
    correct_plane(masks, t, false, context_uv);
    Ok(())
}

// A tile whose first column is superblock `start`, in superblock row `row`; the contexts begin at the row's first unit.
pub fn correct_column(
    masks: &mut [u16],
    width: u32,
    height: u32,
    layout: u32,
    superblock: u32,
    row: u32,
    start: u32,
    left: &[u8],
    left_uv: &[u8],
) -> Result<(), Refusal>
    ensures { CorrectAnswer (column_of width height layout superblock row start) left.now left_uv.now (answered result) masks.old masks.new }
{
    correct(
        masks, false, width, height, layout, superblock, row, start, left, left_uv,
    )
}

// A tile row that begins at superblock row `row`; the contexts begin at the frame's first unit.
pub fn correct_row(
    masks: &mut [u16],
    width: u32,
    height: u32,
    layout: u32,
    superblock: u32,
    row: u32,
    above: &[u8],
    above_uv: &[u8],
) -> Result<(), Refusal>
    ensures { CorrectAnswer (row_of width height layout superblock row) above.now above_uv.now (answered result) masks.old masks.new }
{
    correct(
        masks, true, width, height, layout, superblock, row, 0, above, above_uv,
    )
}

// The theorems of specs/Promises.antt are proved.
pub fn promised()
    ensures { Promises }
{}
