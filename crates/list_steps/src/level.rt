// A level line.
ghost use Rattle.std.specs.Prelude.{List, ◌≡◌, ℕ, IfOk};
ghost use Rattle.loops.specs.Table.{tabulate};
ghost use Rattle.levels.specs.Levels.{levels_number, byte_at};
ghost use Rattle.refusals.specs.Numbers.{answered};
ghost use Rattle.list_script.specs.Line.{level_line};
ghost use Rattle.list_steps.specs.Steps.{bases, kept_of, after_line, taken};

use crate::{Carried, Fault, Phase, State};
use levels::levels;
use list_script::LevelLine;
use refusals::Refusal;

fn level_values(layout: u32, l: LevelLine) -> Result<[u8; 64], Refusal>
    ensures number { answered result ≡ levels_number layout (bases l.columns l.rows l.u l.v) }
    ensures values { IfOk result (λ v. v ≡ tabulate (byte_at (bases l.columns l.rows l.u l.v)) 64) }
{
    if (63 < l.columns) | (63 < l.rows) | (63 < l.u) | (63 < l.v) {
        return Err(Refusal::Level);
    }
    let base = [l.columns as u8, l.rows as u8, l.u as u8, l.v as u8];
    let mut all = [0; 512];
    levels(
        &mut all, layout, &base, 0, &[0; 8], &[0; 2], 0, &[0; 4], 0, &[0; 32],
    )?;
    let mut values = [0; 64];
    values.copy_from_slice(&all[..64]);
    Ok(values)
}

pub fn level_line(c: Carried, l: LevelLine) -> Result<Carried, Fault>
    ensures { (levels masks : List ℕ) → after_line c levels masks result ≡ taken (kept_of c levels masks) (level_line l) }
{
    if c.state.phase != Phase::Framed as u32 {
        return Err(Fault::Form);
    }
    let values = level_values(c.state.layout, l)?;
    let state = State {
        phase: Phase::Leveled as u32,
        number: 0,
        ..c.state
    };
    Ok(Carried { state, values, ..c })
}
