// One line of a script: the frame, its levels, a block recorded.
#![tactic(auto)]

mod blocks;
mod frame;
mod level;

ghost use Rattle.std.specs.Prelude.{List, ◌≡◌, ℕ, ◌<◌};
ghost use Rattle.list_script.specs.Line.{line_said};
ghost use Rattle.list_steps.specs.Promises.{Promises};
ghost use Rattle.list_steps.specs.State.{fault_number, state_is};
ghost use Rattle.list_steps.specs.Steps.{said, refused, counted, kept, kept_of, after_line, taken, step_of};

use blocks::block_line;
use frame::frame_line;
use level::level_line;
use list_script::{ScriptLine, read_line};
use refusals::Refusal;

const LONGEST: usize = 65535;

// The number of a line that is not of the script's form. No refusal has it.
const FORM: u32 = 1000;

// Before the frame line, before the level line, after it.
#[derive(Clone, Copy, Debug, PartialEq, Eq)]
pub enum Phase {
    Start,
    Framed,
    Leveled,
}

// Why a line is refused: it is not of the script's form, or what it says is refused.
#[derive(Clone, Copy, Debug, PartialEq, Eq)]
pub enum Fault {
    Form,
    Refused(Refusal),
}

impl From<Refusal> for Fault {
    ghost use Rattle.std.specs.Prelude.{◌≡◌};
    ghost use Rattle.list_steps.specs.declared.Fault.TheVariants.{Refused};

    ghost from_gives = { λ r f. f ≡ Refused r };

    fn from(r: Refusal) -> Fault {
        Fault::Refused(r)
    }
}

impl From<Fault> for u32 {
    ghost use Rattle.std.specs.Prelude.{◌≡◌};
    ghost use Rattle.list_steps.specs.State.{fault_number};

    ghost from_gives = { λ f n. n ≡ fault_number f };

    fn from(f: Fault) -> u32 {
        match f {
            Fault::Form => FORM,
            Fault::Refused(r) => u32::from(r),
        }
    }
}

// phase is a Phase, as a number. number is 0 until a line is refused, and then that of its Fault. Any other values are taken too.
#[derive(Clone, Copy, Debug, PartialEq, Eq)]
pub struct State {
    pub line: u64,
    pub phase: u32,
    pub number: u32,
    pub width: u32,
    pub height: u32,
    pub layout: u32,
}

// What goes from line to line by value: the state, the level values, the contexts of luma and of chroma. Level bytes and masks are lent.
#[derive(Clone, Copy)]
pub struct Carried {
    pub state: State,
    pub values: [u8; 64],
    pub above: [u8; 64],
    pub left: [u8; 64],
    pub above_uv: [u8; 64],
    pub left_uv: [u8; 64],
}

fn said(line: &[u8]) -> Option<ScriptLine>
    ensures { line_said result ≡ said line.now }
{
    if LONGEST < line.len() {
        return None;
    }
    read_line(line)
}

fn counted(c: Carried) -> Carried
    requires { c.state.line < 18446744073709551615 }
    ensures { (levels masks : List ℕ) → kept_of result levels masks ≡ kept (counted (state_is c.state)) c.values (kept_of c levels masks).memory }
{
    let state = State {
        line: c.state.line + 1,
        ..c.state
    };
    Carried { state, ..c }
}

fn refused(c: Carried, fault: Fault) -> Carried
    ensures { (levels masks : List ℕ) → kept_of result levels masks ≡ refused (kept_of c levels masks) (fault_number fault) }
{
    let state = State {
        number: u32::from(fault),
        ..c.state
    };
    Carried { state, ..c }
}

fn taken(c: Carried, line: &[u8], levels: &mut [u8], masks: &mut [u16]) -> Result<Carried, Fault>
    ensures { after_line c levels.new masks.new result ≡ taken (kept_of c levels.old masks.old) (said line.now) }
{
    match said(line) {
        Some(ScriptLine::Frame(f)) => frame_line(c, f),
        Some(ScriptLine::Level(l)) => level_line(c, l),
        Some(ScriptLine::Block(b)) => block_line(c, levels, masks, b),
        None => Err(Fault::Form),
    }
}

pub fn step(c: Carried, line: &[u8], levels: &mut [u8; 16384], masks: &mut [u16; 2560]) -> Carried
    requires { c.state.line < 18446744073709551615 }
    ensures { kept_of result levels.new masks.new ≡ step_of (kept_of c levels.old masks.old) line.now }
{
    if c.state.number != 0 {
        return c;
    }
    let d = counted(c);
    match taken(d, line, levels, masks) {
        Ok(after) => after,
        Err(fault) => refused(d, fault),
    }
}

// The theorems of specs/Promises.antt are proved.
pub fn promised()
    ensures { Promises }
{}
