// Public: the limit table of a sharpness, by value, in the caller's struct, in arrays. It is `rav1d_calc_eih` of the Rust.
#![tactic(auto)]

ghost use Rattle.std.specs.Prelude.{◌≡◌, ◌+◌, ◌*◌, ◌<◌, ◌≤◌};
ghost use Rattle.standard.specs.Strength.{limit};
ghost use Rattle.refusals.specs.Numbers.{answered};
ghost use Rattle.limits.specs.Limits.{sharp_cap, limits_of, answer_of, lut, LimitsLent};
ghost use Rattle.limits.specs.Promises.{Promises};

use refusals::Refusal;

#[derive(Clone, Copy)]
pub struct Av1FilterLUT {
    pub e: [u8; 64],
    pub i: [u8; 64],
    pub sharp: [u64; 2],
}

fn inner(sharp: u8, level: u8) -> u8
    requires { (sharp ≤ 7) × (level < 64) }
    ensures { (result ≡ limit sharp level) × (result < 64) }
{
    if sharp == 0 {
        return level.max(1);
    }
    (level >> ((sharp + 3) >> 2)).min(9 - sharp).max(1)
}

fn outer(level: u8, inner: u8) -> u8
    requires { (level < 64) × (inner < 64) }
    ensures { result ≡ 2 * (level + 2) + inner }
{
    2 * (level + 2) + inner
}

#[tactic(auto, unfolding(crate::specs::Limits::sharp_cap))]
fn cap(sharp: u8) -> u64
    requires { sharp ≤ 7 }
    ensures { result ≡ sharp_cap sharp }
{
    if sharp == 0 {
        return 255;
    }
    u64::from(9 - sharp)
}

pub fn limits(sharpness: u32) -> Result<Av1FilterLUT, Refusal>
    ensures { answer_of result ≡ limits_of sharpness }
{
    if sharpness > 7 {
        return Err(Refusal::Sharpness);
    }
    let sharp = sharpness as u8;
    let mut e = [0u8; 64];
    let mut i = [0u8; 64];
    for level in 0..64 {
        let limit = inner(sharp, level as u8);
        i[level] = limit;
        e[level] = outer(level as u8, limit);
    }
    Ok(Av1FilterLUT {
        e,
        i,
        sharp: [u64::from((sharp + 3) >> 2), cap(sharp)],
    })
}

pub fn calc_eih(lim_lut: &mut Av1FilterLUT, sharpness: u32) -> Result<(), Refusal>
    ensures { LimitsLent sharpness (answered result) lim_lut.old lim_lut.new }
{
    *lim_lut = limits(sharpness)?;
    Ok(())
}

pub fn limits_into(
    e: &mut [u8; 64],
    i: &mut [u8; 64],
    sharp: &mut [u64; 2],
    sharpness: u32,
) -> Result<(), Refusal>
    ensures { LimitsLent sharpness (answered result) (lut e.old i.old sharp.old) (lut e.new i.new sharp.new) }
{
    let table = limits(sharpness)?;
    let Av1FilterLUT {
        e: blimit,
        i: limit,
        sharp: words,
    } = table;
    *e = blimit;
    *i = limit;
    *sharp = words;
    Ok(())
}

// The theorems of specs/Promises.antt are proved.
pub fn promised()
    ensures { Promises }
{}
