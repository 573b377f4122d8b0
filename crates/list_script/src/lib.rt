// A line of a script: `frame`, `level` or `block` with its fields.
#![tactic(auto)]

mod names;

ghost use Rattle.std.specs.Prelude.{◌≡◌, ◌↔◌, eqb, true, ◌+◌, ◌<◌, ◌≤◌, length, IsNone, IfSome};
ghost use Rattle.loops.specs.Table.{tabulate};
ghost use Rattle.list_decimal.specs.Decimal.{no_number};
ghost use Rattle.list_fields.specs.Fields.{place};
ghost use Rattle.list_fields.specs.Word.{packed};
ghost use Rattle.list_script.specs.Line.{chroma_code, chroma_flag, line_said};
ghost use Rattle.list_script.specs.Promises.{Promises};
ghost use Rattle.list_script.specs.Script.{space, Has, at, number_at, no_numbers, no_words, chroma_of, uvtx_of, frame_of, level_of, block_of, seven_of, line_of};

use list_decimal::number;
use list_fields::{end_of, start_of, word};
use names::{block_code, tx_code};

const SPACE: u8 = b' ';

#[derive(Clone, Copy, Debug, PartialEq, Eq)]
pub struct FrameLine {
    pub width: u32,
    pub height: u32,
    pub layout: u32,
    pub depth: u32,
    pub superblock: u32,
    pub sharpness: u32,
}

#[derive(Clone, Copy, Debug, PartialEq, Eq)]
pub struct LevelLine {
    pub columns: u32,
    pub rows: u32,
    pub u: u32,
    pub v: u32,
}

// Codes as `record_intra` takes them: 22 and 19 are sizes that name nothing, which it refuses. uvtx is None for a block without chroma.
#[derive(Clone, Copy, Debug, PartialEq, Eq)]
pub struct BlockLine {
    pub x: u32,
    pub y: u32,
    pub size: u32,
    pub tx: u32,
    pub uvtx: Option<u32>,
}

#[derive(Clone, Copy, Debug, PartialEq, Eq)]
pub enum ScriptLine {
    Frame(FrameLine),
    Level(LevelLine),
    Block(BlockLine),
}

fn field_at(s: &[u8], k: usize) -> &[u8]
    requires { (place space s.now k ≤ length s.now) × (length s.now + k < 18446744073709551615) }
    ensures { result.now ≡ at s.now k }
{
    let start = start_of(s, SPACE, k);
    &s[start..end_of(s, start, SPACE)]
}

// Fields 1 to N.
fn numbers<const N: usize>(s: &[u8]) -> Option<[u32; N]>
    requires { Has s.now (N + 1) }
    ensures none { IsNone result ↔ (no_numbers s.now N ≡ true) }
    ensures some { IfSome result (λ ns. ns ≡ tabulate (λ k. number_at s.now (k + 1)) N) }
{
    let mut numbers = [0; N];
    for (k, n) in numbers.iter_mut().enumerate() {
        *n = number(field_at(s, k + 1))?;
    }
    Some(numbers)
}

fn frame(s: &[u8]) -> Option<ScriptLine>
    requires { Has s.now 7 }
    ensures { line_said result ≡ frame_of s.now }
{
    let [width, height, layout, depth, superblock, sharpness] = numbers::<6>(s)?;
    Some(ScriptLine::Frame(FrameLine {
        width,
        height,
        layout,
        depth,
        superblock,
        sharpness,
    }))
}

fn level(s: &[u8]) -> Option<ScriptLine>
    requires { Has s.now 5 }
    ensures { line_said result ≡ level_of s.now }
{
    if word(field_at(s, 0)) != word(b"level") {
        return None;
    }
    let [columns, rows, u, v] = numbers::<4>(s)?;
    Some(ScriptLine::Level(LevelLine {
        columns,
        rows,
        u,
        v,
    }))
}

// The sizes of a block line.
fn no_words(s: &[u8]) -> bool
    requires { Has s.now 7 }
    ensures { result ≡ no_words s.now }
{
    word(field_at(s, 3)) == word(b"")
        || word(field_at(s, 4)) == word(b"")
        || word(field_at(s, 5)) == word(b"")
}

fn uvtx(w: &[u8]) -> Option<u32>
    ensures { (chroma_flag result ≡ chroma_of w.now) × (chroma_code result ≡ uvtx_of w.now) }
{
    if word(w) == word(b"-") {
        return None;
    }
    Some(tx_code(word(w)))
}

fn block(s: &[u8]) -> Option<ScriptLine>
    requires { Has s.now 7 }
    ensures { line_said result ≡ block_of s.now }
{
    let [x, y] = numbers::<2>(s)?;
    if no_words(s) || word(field_at(s, 6)) != word(b"I") {
        return None;
    }
    Some(ScriptLine::Block(BlockLine {
        x,
        y,
        size: block_code(word(field_at(s, 3))),
        tx: tx_code(word(field_at(s, 4))),
        uvtx: uvtx(field_at(s, 5)),
    }))
}

fn seven(s: &[u8]) -> Option<ScriptLine>
    requires { Has s.now 7 }
    ensures { line_said result ≡ seven_of s.now }
{
    let w = word(field_at(s, 0));
    if w == word(b"frame") {
        frame(s)
    } else if w == word(b"block") {
        block(s)
    } else {
        None
    }
}

// None for what is no line of a script.
pub fn read_line(s: &[u8]) -> Option<ScriptLine>
    requires { length s.now < 9223372036854775808 }
    ensures { line_said result ≡ line_of s.now }
{
    if start_of(s, SPACE, 5) == s.len() + 1 {
        level(s)
    } else if start_of(s, SPACE, 7) == s.len() + 1 {
        seven(s)
    } else {
        None
    }
}

// The theorems of specs/Promises.antt are proved.
pub fn promised()
    ensures { Promises }
{}
