// Numbers 11 and 12: the gap rule and stray mask bits, 32 lines of units at once.
#![tactic(auto)]

pub mod grid;
pub mod lines;
pub mod track;

ghost use Rattle.std.specs.Prelude.{◌≡◌, ◌⊎◌, ◌||◌, ◌+◌, ◌*◌, ◌/◌, ◌^◌, ◌≤◌, ◌<◌, length};
ghost use Rattle.plane.specs.Line.{columns, rows};
ghost use Rattle.units.specs.Frame.{records};
ghost use Rattle.units.specs.Masks.{unit_words, record_row};
ghost use Rattle.gap.specs.Fits.{MasksFit};
ghost use Rattle.gap.specs.Grid.{grid_of};
ghost use Rattle.gap.specs.Lines.{row_lines, record_lines};
ghost use Rattle.gap.specs.Numbers.{Found, RecordFound};
ghost use Rattle.gap.specs.Promises.{Promises};
ghost use Rattle.gap.specs.Track.{track, column_words, column_track, row_track, Answers};

use grid::Grid;
use std::ops::BitOr;
use track::Track;
use units::LumaUnit;
use units::masks::{
    first_half, first_line, half_units, in_record, record_row, record_start, row_units,
};

// Numbers 11 and 12.
#[derive(Clone, Copy, Default)]
pub struct Both {
    pub gap: bool,
    pub out: bool,
}

impl BitOr for Both {
    type Output = Both;

    ghost bitor_gives = { λ a b r. (r.gap ≡ (a.gap || b.gap)) × (r.out ≡ (a.out || b.out)) };

    fn bitor(self, other: Both) -> Both {
        Both {
            gap: self.gap | other.gap,
            out: self.out | other.out,
        }
    }
}

fn answer(t: Track, live: u32) -> Both
    ensures { Answers t live result }
{
    let all = t.all;
    let past = t.past;
    let out = (all & !live | past) != 0;
    let gap = live & track::close(t) != 0;
    Both { gap, out }
}

// The walk along `records` records from `base` on, of a plane that has `width` units.
fn columns_walk(
    masks: &[u16],
    luma: bool,
    halves: usize,
    base: usize,
    ss: usize,
    width: usize,
    records: usize,
) -> Track
    requires { (base + 640 * records + unit_words luma * 32 ≤ length masks.now + 640) × (ss ≤ 1) × (records ≤ 128) }
    ensures { result ≡ track (column_words masks.now luma halves base (32 / 2 ^ ss)) width (records * (32 / 2 ^ ss)) }
{
    let side = 32 >> ss;
    let mut t = track::start();
    for rec in 0..records {
        let n = in_record(side, width, rec);
        t = track::part(masks, luma, halves, base + 640 * rec, 0, n, side, t);
    }
    t
}

// The walk along the record row of superblock row k, of the row's own halves.
fn columns_track(masks: &[u16], g: Grid, sb4: LumaUnit, k: usize) -> Track
    requires { MasksFit (length masks.now) g.w4.0 g.h4.0 sb4.0 k }
    ensures { result ≡ column_track masks.now g.luma g.ss_hor g.w4.0 sb4.0 k }
{
    let records = units::frame::records_along(g.w4);
    let width = units::chroma_units(g.w4, g.ss_hor);
    let at = record_start(g.luma, false, record_row(sb4, k) * records);
    let base = at + first_half(sb4, k);
    columns_walk(masks, g.luma, sb4.0 / 16, base, g.ss_hor, width.0, records)
}

// The bits of the lines of superblock row k.
fn row_lines(g: Grid, sb4: LumaUnit, k: usize) -> u32
    requires { (g.h4.0 ≤ 4096) × (k * sb4.0 < g.h4.0) × ((sb4.0 ≡ 16) ⊎ (sb4.0 ≡ 32)) }
    ensures { result ≡ row_lines g.ss_ver g.h4.0 sb4.0 k }
{
    lines::line_word(half_units(g.ss_ver), row_units(g.ss_ver, g.h4, sb4, k))
}

pub fn columns(masks: &[u16], g: Grid, sb4: LumaUnit, k: usize) -> Both
    requires { MasksFit (length masks.now) g.w4.0 g.h4.0 sb4.0 k }
    ensures { Found (grid_of g) masks.now columns sb4.0 k result }
{
    let t = columns_track(masks, g, sb4, k);
    let live = row_lines(g, sb4, k);
    answer(t, live)
}

// The walk down superblock row k in record rec.
fn rows_track(masks: &[u16], g: Grid, sb4: LumaUnit, k: usize, rec: usize) -> Track
    requires { MasksFit (length masks.now) g.w4.0 g.h4.0 sb4.0 k × (rec < records g.w4.0) }
    ensures { result ≡ row_track masks.now g.luma g.ss_ver g.w4.0 g.h4.0 sb4.0 k rec }
{
    let records = units::frame::records_along(g.w4);
    let at = record_start(g.luma, true, record_row(sb4, k) * records + rec);
    let first = first_line(g.ss_ver, sb4, k);
    let n = row_units(g.ss_ver, g.h4, sb4, k);
    let sb = units::chroma_unit(sb4, g.ss_ver);
    track::part(masks, g.luma, 2, at, first, n, sb.0, track::start())
}

// The bits of the lines of record rec.
fn record_lines(g: Grid, rec: usize) -> u32
    requires { (g.w4.0 ≤ 4096) × (rec < records g.w4.0) }
    ensures { result ≡ record_lines g.ss_hor g.w4.0 rec }
{
    let width = units::chroma_units(g.w4, g.ss_hor);
    let n = in_record(32 >> g.ss_hor, width.0, rec);
    lines::line_word(half_units(g.ss_hor), n)
}

fn rows_record(masks: &[u16], g: Grid, sb4: LumaUnit, k: usize, rec: usize) -> Both
    requires { MasksFit (length masks.now) g.w4.0 g.h4.0 sb4.0 k × (rec < records g.w4.0) }
    ensures { RecordFound (grid_of g) masks.now sb4.0 k rec result }
{
    let t = rows_track(masks, g, sb4, k, rec);
    let live = record_lines(g, rec);
    answer(t, live)
}

pub fn rows(masks: &[u16], g: Grid, sb4: LumaUnit, k: usize) -> Both
    requires { MasksFit (length masks.now) g.w4.0 g.h4.0 sb4.0 k }
    ensures { Found (grid_of g) masks.now rows sb4.0 k result }
{
    let records = units::frame::records_along(g.w4);
    let mut found = Both::default();
    for rec in 0..records {
        found = found | rows_record(masks, g, sb4, k, rec);
    }
    found
}

// What the numbers mean.
pub fn promised()
    ensures { Promises }
{}
