// A frame line.
ghost use Rattle.std.specs.Prelude.{List, ◌≡◌, ℕ};
ghost use Rattle.refusals.specs.Numbers.{answered};
ghost use Rattle.list_script.specs.Line.{frame_line};
ghost use Rattle.list_steps.specs.Steps.{side_ok, depth_ok, frame_number, kept_of, after_line, taken};

use crate::{Carried, Fault, Phase, State};
use list_script::FrameLine;
use refusals::Refusal;
use units::frame::superblock_ok;
use units::layout::layout_ok;

fn side_ok(n: u32) -> bool
    ensures { result ≡ side_ok n }
{
    (1..=256).contains(&n)
}

fn depth_ok(n: u32) -> bool
    ensures { result ≡ depth_ok n }
{
    matches!(n, 8 | 10 | 12)
}

fn frame_ok(f: FrameLine) -> Result<(), Refusal>
    ensures { answered result ≡ frame_number f.width f.height f.layout f.depth f.superblock f.sharpness }
{
    if 7 < f.sharpness {
        return Err(Refusal::Sharpness);
    }
    if !depth_ok(f.depth) {
        return Err(Refusal::Depth);
    }
    if layout_ok(f.layout as usize)
        & (side_ok(f.width) & (side_ok(f.height) & superblock_ok(f.superblock as usize)))
    {
        return Ok(());
    }
    Err(Refusal::Shape)
}

pub fn frame_line(c: Carried, f: FrameLine) -> Result<Carried, Fault>
    ensures { (levels masks : List ℕ) → after_line c levels masks result ≡ taken (kept_of c levels masks) (frame_line f) }
{
    if c.state.phase != Phase::Start as u32 {
        return Err(Fault::Form);
    }
    frame_ok(f)?;
    let state = State {
        phase: Phase::Framed as u32,
        number: 0,
        width: f.width,
        height: f.height,
        layout: f.layout,
        ..c.state
    };
    Ok(Carried { state, ..c })
}
