// A script read in parts, and its listing.
#![tactic(auto)]

ghost use Rattle.std.specs.Prelude.{◌≡◌, ◌+◌, ◌<◌, ◌≤◌, length, take, drop, IfOk};
ghost use Rattle.list_steps.specs.Steps.{kept_of};
ghost use Rattle.list_reading.specs.Reading.{Safe, Roomy, Adds, Reached, Ended, ListedAnswer};

use list_call::{put_text, run, start, take_lines};
use list_steps::Carried;
use list_text::Text;
use std::io;
use std::io::Read;

// The buffer's first `held` bytes were read, of which those before `at` are taken; `read` bytes in all.
#[derive(Clone, Copy)]
struct Progress {
    carried: Carried,
    at: usize,
    held: usize,
    read: usize,
    failed: bool,
}

// What is carried after all lines, the last with its end or without; the bytes read; whether a read failed.
#[derive(Clone, Copy)]
struct Script {
    carried: Carried,
    read: usize,
    failed: bool,
}

// The bytes read, and whether a read failed.
#[derive(Clone, Copy)]
pub struct Answer {
    pub read: usize,
    pub failed: bool,
}

// One read, of at most `most` bytes, to the places from `held` on.
fn read_more<R: Read>(input: &mut R, buf: &mut [u8], held: usize, most: usize) -> io::Result<usize>
    requires { held ≤ length buf.old }
    ensures before { take held buf.new ≡ take held buf.old }
    ensures read { IfOk result (λ n. (held + n ≤ length buf.old) × (n ≤ most)) }
{
    let end = held + most.min(buf.len() - held);
    input.read(&mut buf[held..end])
}

fn move_to_front(buf: &mut [u8], at: usize, n: usize)
    requires { at + n ≤ length buf.old }
    ensures { take n buf.new ≡ take n (drop at buf.old) }
{
    buf.copy_within(at..at + n, 0);
}

// Of a full buffer the bytes that are taken go. It answers how many.
fn make_room(buf: &mut [u8], at: usize, held: usize) -> usize
    requires { (at ≤ held) × (held ≤ length buf.old) }
    ensures { Roomy buf.old at held buf.new result }
{
    if held < buf.len() {
        return 0;
    }
    move_to_front(buf, at, held - at);
    at
}

// One read, and the whole lines that are held then.
fn part<R: Read>(
    input: &mut R,
    p: Progress,
    most: usize,
    buf: &mut [u8],
    levels: &mut [u8; 16384],
    masks: &mut [u16; 2560],
) -> Progress
    requires { Safe p.carried.state.line p.at p.held p.read (length buf.old) × (p.read + most < 18446744073709551616) }
    ensures { Adds (kept_of p.carried levels.old masks.old) p.at p.held p.read buf.old
        (kept_of result.carried levels.new masks.new) result.at result.held result.read buf.new most }
{
    let gone = make_room(buf, p.at, p.held);
    let at = p.at - gone;
    let held = p.held - gone;
    let got = read_more(input, buf, held, most);
    let failed = got.is_err();
    let n = got.unwrap_or(0);
    let end = held + n;
    let r = take_lines(p.carried, &buf[at..end], levels, masks);
    Progress {
        carried: r.carried,
        at: at + r.at,
        held: end,
        read: p.read + n,
        failed,
    }
}

// Reads to the end of the input, to `total` bytes or to a refused line.
fn parts<R: Read>(
    input: &mut R,
    c: Carried,
    total: usize,
    most: usize,
    buf: &mut [u8],
    levels: &mut [u8; 16384],
    masks: &mut [u16; 2560],
) -> Progress
    requires { c.state.line ≡ 0 }
    ensures { Reached (kept_of c levels.old masks.old) total
        (kept_of result.carried levels.new masks.new) result.at result.held result.read buf.new }
{
    let mut p = Progress {
        carried: c,
        at: 0,
        held: 0,
        read: 0,
        failed: false,
    };
    while p.read < total {
        let read = p.read;
        p = part(input, p, most.min(total - read), buf, levels, masks);
        if p.read == read || p.carried.state.number != 0 {
            return p;
        }
    }
    p
}

fn read_script<R: Read>(
    input: &mut R,
    c: Carried,
    total: usize,
    most: usize,
    buf: &mut [u8],
    levels: &mut [u8; 16384],
    masks: &mut [u16; 2560],
) -> Script
    requires { c.state.line ≡ 0 }
    ensures { Ended (kept_of c levels.old masks.old) total
        (kept_of result.carried levels.new masks.new) result.read buf.new }
{
    let p = parts(input, c, total, most, buf, levels, masks);
    Script {
        carried: run(p.carried, &buf[p.at..p.held], levels, masks),
        read: p.read,
        failed: p.failed,
    }
}

// Reads a script in parts of at most `most` bytes, to its end, to `total` bytes, to a refused line or to one that fills the buffer, and
// stores the listing. No line of 65,536 bytes or more is accepted.
pub fn listed<R: Read>(
    input: &mut R,
    total: usize,
    most: usize,
    buf: &mut [u8],
    text: &mut Text,
) -> Answer
    ensures { ListedAnswer total result.read buf.new text.new.len text.old.bytes text.new.bytes }
{
    let mut levels = [0u8; 16384];
    let mut masks = [0u16; 2560];
    let r = read_script(input, start(), total, most, buf, &mut levels, &mut masks);
    put_text(r.carried.state, &levels, &masks, text);
    Answer {
        read: r.read,
        failed: r.failed,
    }
}
