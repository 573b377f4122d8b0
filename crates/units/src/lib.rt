// Luma units, chroma units and samples, counted apart; layouts, the frame, lent memory, the geometry of masks, block and transform
// sizes. Units are converted only here. ss is ss_hor or ss_ver.
#![tactic(auto)]

pub mod frame;
pub mod layout;
pub mod masks;
pub mod memory;
pub mod sizes;

ghost use Rattle.std.specs.Prelude.{◌≡◌, ◌*◌, ◌<◌, ◌≤◌};
ghost use Rattle.units.specs.Units.{units_of, chroma_unit, chroma_units};

// A place or a count in units of 4 by 4 luma samples.
#[derive(Clone, Copy)]
pub struct LumaUnit(pub usize);

// A place or a count in units of 4 by 4 chroma samples.
#[derive(Clone, Copy)]
pub struct ChromaUnit(pub usize);

impl From<u8> for LumaUnit {
    ghost from_gives = { λ n u. u.0 ≡ n };

    fn from(n: u8) -> LumaUnit {
        LumaUnit(usize::from(n))
    }
}

impl From<u8> for ChromaUnit {
    ghost from_gives = { λ n u. u.0 ≡ n };

    fn from(n: u8) -> ChromaUnit {
        ChromaUnit(usize::from(n))
    }
}

// A place or a count in samples of a plane.
#[derive(Clone, Copy)]
pub struct Sample(pub usize);

// w4 of a frame's width, h4 of its height.
pub fn luma_units(side: Sample) -> LumaUnit
    requires { side.0 ≤ 16384 }
    ensures { result.0 ≡ units_of side.0 }
{
    LumaUnit((side.0 + 3) / 4)
}

pub fn chroma_unit(u: LumaUnit, ss: usize) -> ChromaUnit
    requires { ss ≤ 1 }
    ensures { result.0 ≡ chroma_unit ss u.0 }
{
    ChromaUnit(u.0 >> ss)
}

pub fn chroma_units(n: LumaUnit, ss: usize) -> ChromaUnit
    requires { (n.0 < 65536) × (ss ≤ 1) }
    ensures { result.0 ≡ chroma_units ss n.0 }
{
    ChromaUnit((n.0 + ss) >> ss)
}

pub fn luma_sample(u: LumaUnit) -> Sample
    requires { u.0 < 65536 }
    ensures { result.0 ≡ 4 * u.0 }
{
    Sample(4 * u.0)
}

pub fn chroma_sample(u: ChromaUnit) -> Sample
    requires { u.0 < 65536 }
    ensures { result.0 ≡ 4 * u.0 }
{
    Sample(4 * u.0)
}
