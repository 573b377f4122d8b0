// A block line.
ghost use Rattle.std.specs.Prelude.{◌≡◌, min};
ghost use Rattle.units.specs.Units.{chroma_unit};
ghost use Rattle.units.specs.Layout.{ss_hor, ss_ver};
ghost use Rattle.list_script.specs.Line.{block_line, chroma_code, chroma_flag};
ghost use Rattle.list_steps.specs.State.{state_is};
ghost use Rattle.list_steps.specs.Steps.{block_of, blocked, kept_of, after_line, taken};

use crate::{Carried, Fault, Phase};
use list_script::BlockLine;
use record::record_intra;
use units::layout::{ss_hor, ss_ver};
use units::{LumaUnit, chroma_unit};

fn across(layout: u32, x: u32, context: &[u8; 64]) -> usize
    ensures { result ≡ min (chroma_unit (ss_hor layout) x) 64 }
{
    let unit = chroma_unit(LumaUnit(x as usize), ss_hor(layout as usize));
    unit.0.min(context.len())
}

fn down(layout: u32, y: u32, context: &[u8; 64]) -> usize
    ensures { result ≡ min (chroma_unit (ss_ver layout) y) 64 }
{
    let unit = chroma_unit(LumaUnit(y as usize), ss_ver(layout as usize));
    unit.0.min(context.len())
}

// Lends the contexts from the block on.
fn recorded(
    c: Carried,
    levels: &mut [u8],
    masks: &mut [u16],
    b: BlockLine,
) -> Result<Carried, Fault>
    ensures { after_line c levels.new masks.new result
        ≡ blocked (kept_of c levels.old masks.old) (block_of (state_is c.state) b.x b.y b.size b.tx (chroma_flag b.uvtx) (chroma_code b.uvtx)) }
{
    let s = c.state;
    let Carried {
        mut above,
        mut left,
        mut above_uv,
        mut left_uv,
        ..
    } = c;
    let ax = (b.x as usize).min(above.len());
    let ly = (b.y as usize).min(left.len());
    let ux = across(s.layout, b.x, &above_uv);
    let vy = down(s.layout, b.y, &left_uv);
    record_intra(
        levels,
        (s.width as usize).div_ceil(4),
        masks,
        &c.values,
        s.width,
        s.height,
        s.layout,
        b.x,
        b.y,
        b.size,
        b.tx,
        &mut above[ax..],
        &mut left[ly..],
        u32::from(b.uvtx.is_some()),
        b.uvtx.unwrap_or(0),
        &mut above_uv[ux..],
        &mut left_uv[vy..],
    )?;
    Ok(Carried {
        above,
        left,
        above_uv,
        left_uv,
        ..c
    })
}

pub fn block_line(
    c: Carried,
    levels: &mut [u8],
    masks: &mut [u16],
    b: BlockLine,
) -> Result<Carried, Fault>
    ensures { after_line c levels.new masks.new result ≡ taken (kept_of c levels.old masks.old) (block_line b) }
{
    if c.state.phase != Phase::Leveled as u32 {
        return Err(Fault::Form);
    }
    recorded(c, levels, masks, b)
}
