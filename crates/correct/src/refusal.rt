// The refusal of a correction: of the faults, in their order, the first that it has.
ghost use Rattle.std.specs.Prelude.{◌≡◌};
ghost use Rattle.refusals.specs.Numbers.{answered};
ghost use Rattle.correct.specs.Start.{Shaped};
ghost use Rattle.correct.specs.Tests.{shape_bad, most, context_refused, length_bad, number};

use crate::Start;
use crate::place::{corrects, inside, line};
use block::faults::context_bad;
use refusals::Refusal;
use units::frame::{frame_ok, superblock_ok};
use units::layout::layout_ok;
use units::luma_units;
use units::memory::masks_ok;

fn shape_bad(t: Start) -> bool
    ensures { result ≡ shape_bad t }
{
    (!layout_ok(t.layout) | !frame_ok(t.width, t.height)) | !superblock_ok(t.superblock)
}

fn most(luma: bool) -> u8
    ensures { result ≡ most luma }
{
    if luma { 2 } else { 1 }
}

fn context_refused(t: Start, luma: bool, context: &[u8]) -> bool
    requires { Shaped t }
    ensures { result ≡ context_refused t luma context.now }
{
    if !corrects(t, luma) {
        return false;
    }
    context_bad(context, line(t, luma).n, most(luma))
}

fn length_bad(t: Start, masks: usize) -> bool
    requires { Shaped t }
    ensures { result ≡ length_bad t masks }
{
    !masks_ok(masks, luma_units(t.width), luma_units(t.height))
}

#[tactic(auto, using(crate::proofs::Starts::shaped), unfolding(crate::specs::Tests::number))]
pub fn check(t: Start, masks: usize, context: &[u8], context_uv: &[u8]) -> Result<(), Refusal>
    ensures { answered result ≡ number t masks context.now context_uv.now }
{
    if shape_bad(t) {
        return Err(Refusal::Shape);
    }
    if context_refused(t, true, context) {
        return Err(Refusal::Context);
    }
    if context_refused(t, false, context_uv) {
        return Err(Refusal::Context);
    }
    if length_bad(t, masks) {
        return Err(Refusal::Length);
    }
    if !inside(t) {
        return Err(Refusal::Outside);
    }
    Ok(())
}
