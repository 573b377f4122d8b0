// Public: a script of bytes into an output of bytes, the edge listing.
#![tactic(auto)]

ghost use Rattle.std.specs.Prelude.{◌≡◌, ◌+◌, ◌<◌, ◌≤◌, length, replicate};
ghost use Rattle.list_text.specs.Text.{Put};
ghost use Rattle.list_edges.specs.Listed.{list_text};
ghost use Rattle.list_steps.specs.State.{state_is};
ghost use Rattle.list_steps.specs.Steps.{kept_of};
ghost use Rattle.list_call.specs.Listing.{lines_of, start, after, held_in, room, ListAnswer, Texted, Listable, Taken};
ghost use Rattle.list_call.specs.Promises.{Promises};

use list_fields::end_of;
use list_put::{Frame, put_list};
use list_steps::{Carried, Fault, Phase, State, step};
use list_text::Text;
use units::{Sample, luma_units};

const END: u8 = b'\n';

// What the context bytes start at.
const LUMA_START: u8 = 2;

const CHROMA_START: u8 = 1;

// What is carried after the lines taken, and where the rest begins.
#[derive(Clone, Copy)]
pub struct Rest {
    pub carried: Carried,
    pub at: usize,
}

// Before the first line, when level bytes and masks are 0.
pub fn start() -> Carried
    ensures { kept_of result (replicate 16384 0) (replicate 2560 0) ≡ start }
{
    let state = State {
        line: 0,
        phase: Phase::Start as u32,
        number: 0,
        width: 0,
        height: 0,
        layout: 0,
    };
    Carried {
        state,
        values: [0u8; 64],
        above: [LUMA_START; 64],
        left: [LUMA_START; 64],
        above_uv: [CHROMA_START; 64],
        left_uv: [CHROMA_START; 64],
    }
}

pub fn take_lines(
    c: Carried,
    part: &[u8],
    levels: &mut [u8; 16384],
    masks: &mut [u16; 2560],
) -> Rest
    requires { c.state.line + length part.now < 18446744073709551616 }
    ensures { Taken (kept_of c levels.old masks.old) part.now
        (kept_of result.carried levels.new masks.new) result.at }
{
    let mut k = c;
    let mut at = 0;
    let mut e = end_of(part, 0, END);
    while e < part.len() {
        k = step(k, &part[at..e], levels, masks);
        at = e + 1;
        e = end_of(part, at, END);
    }
    Rest { carried: k, at }
}

// After all lines, the last with its end or without.
pub fn run(c: Carried, script: &[u8], levels: &mut [u8; 16384], masks: &mut [u16; 2560]) -> Carried
    requires { c.state.line + length script.now < 18446744073709551616 }
    ensures { kept_of result levels.new masks.new ≡ after (kept_of c levels.old masks.old) (lines_of script.now) }
{
    let r = take_lines(c, script, levels, masks);
    let at = r.at;
    let k = r.carried;
    if at < script.len() {
        return step(k, &script[at..], levels, masks);
    }
    k
}

fn put_edges(s: State, levels: &[u8], masks: &[u16], text: &mut Text)
    requires { Listable (state_is s) (length levels.now) (length masks.now) (length text.old.bytes) }
    ensures { (text.new.len ≤ room) × Put text.old.bytes 0 (list_text (held_in (state_is s) levels.now masks.now)) text.new.bytes text.new.len }
{
    let w4 = luma_units(Sample(s.width as usize));
    let h4 = luma_units(Sample(s.height as usize));
    let frame = Frame {
        layout: s.layout as usize,
        w4,
        h4,
    };
    put_list(text, frame, levels, masks);
}

// Of a state that no script leaves it may store nothing.
pub fn put_text(s: State, levels: &[u8; 16384], masks: &[u16; 2560], text: &mut Text)
    ensures { Texted (state_is s) levels.now masks.now text.old.bytes text.new.bytes text.new.len }
{
    text.len = 0;
    if s.number == u32::from(Fault::Form) {
        text.put_form(s.line);
    } else if s.number != 0 {
        text.put_refused(s.line, u64::from(s.number));
    } else if s.phase < Phase::Leveled as u32 {
        text.put_form(u64::from(s.phase) + 1);
    } else if s.width <= 256 && s.height <= 256 {
        put_edges(s, levels, masks, text);
    }
}

pub fn list(script: &[u8], out: &mut [u8]) -> usize
    ensures { ListAnswer script.now result out.old out.new }
{
    let mut text = Text {
        bytes: [0u8; 393255],
        len: 0,
    };
    let mut levels = [0u8; 16384];
    let mut masks = [0u16; 2560];
    let k = run(start(), script, &mut levels, &mut masks);
    put_text(k.state, &levels, &masks, &mut text);
    let n = text.len;
    if n <= out.len() {
        out[..n].copy_from_slice(&text.bytes[..n]);
    }
    n
}

// The theorems of specs/Promises.antt are proved.
pub fn promised()
    ensures { Promises }
{}
