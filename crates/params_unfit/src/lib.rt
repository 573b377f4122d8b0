// Whether no bits say some parameters: what number 24 refuses.
#![tactic(auto)]

ghost use Rattle.std.specs.Prelude.{◌≡◌, cond, ◌≤◌, length};
ghost use Rattle.standard.specs.Header.{default_refs, default_modes, has_chroma};
ghost use Rattle.params_unfit.specs.Unfit.{unfit_delta, unfit_deltas, unfit_levels, unfit_fields, unfit_as};

use deltas::is_outside;
use params_read::{chroma_bits, default_refs};
use standard::Params;

fn chroma_most(planes: u32, columns: u8, rows: u8) -> u8
    ensures { result ≡ cond (has_chroma planes columns rows) 63 0 }
{
    if chroma_bits(planes, columns, rows) == 0 {
        return 0;
    }
    63
}

#[tactic(auto, unfolding(crate::specs::Unfit::unfit_levels))]
fn unfit_levels(planes: u32, level: [u8; 4]) -> bool
    ensures { result ≡ unfit_levels planes level }
{
    let most = chroma_most(planes, level[0], level[1]);
    (level[0] > 63) | (level[1] > 63) | (level[2] > most) | (level[3] > most)
}

#[tactic(auto, unfolding(crate::specs::Unfit::unfit_fields))]
fn unfit_fields(off: bool, planes: u32, p: Params) -> bool
    ensures { result ≡ unfit_fields off planes p }
{
    let level = p.level;
    if off {
        return (level[0] != 0)
            | (level[1] != 0)
            | (level[2] != 0)
            | (level[3] != 0)
            | (p.sharpness != 0)
            | (p.delta_enabled != 0);
    }
    unfit_levels(planes, level) | (p.sharpness > 7) | (p.delta_enabled > 1)
}

#[tactic(auto, unfolding(crate::specs::Unfit::unfit_delta))]
fn unfit_delta(most: u8, update: u8, before: i8, delta: i8) -> bool
    ensures { result ≡ unfit_delta most update before delta }
{
    if update > most {
        return true;
    }
    if update == 0 {
        return delta != before;
    }
    is_outside(delta, 64)
}

fn unfit_deltas<const N: usize>(
    most: u8,
    update: &[u8; N],
    before: &[i8; N],
    deltas: &[i8; N],
) -> bool
    ensures { result ≡ unfit_deltas N most update.now before.now deltas.now }
{
    update.iter().zip(before).zip(deltas).any(|((&update, &before), &delta)| unfit_delta(
        most, update, before, delta,
    ))
}

// What holds before the header: the defaults where no bits are sent.
fn before<const N: usize>(off: bool, defaults: [i8; N], given: [i8; N]) -> [i8; N]
    ensures { result ≡ cond off defaults.entry given.entry }
{
    if off { defaults } else { given }
}

#[tactic(auto, unfolding(crate::specs::Unfit::unfit_as))]
pub fn unfit(off: bool, planes: u32, refs: [i8; 8], modes: [i8; 2], p: Params) -> bool
    ensures { result ≡ unfit_as off planes refs modes p }
{
    let ref_before = before(off, default_refs(), refs);
    let mode_before = before(off, [0; 2], modes);
    unfit_fields(off, planes, p)
        | (p.delta_update > p.delta_enabled)
        | unfit_deltas(p.delta_update, &p.update_ref, &ref_before, &p.ref_delta)
        | unfit_deltas(p.delta_update, &p.update_mode, &mode_before, &p.mode_delta)
}
