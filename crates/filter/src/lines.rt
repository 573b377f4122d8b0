// One line of units of a superblock row: its masks, and where its samples and level bytes stand.
ghost use Rattle.std.specs.Prelude.{◌≡◌, cond, ◌+◌, ◌*◌, ◌/◌, ◌^◌, ◌<◌, ◌≤◌, eqb, length};
ghost use Rattle.plane.specs.Line.{columns, rows, pass_of};
ghost use Rattle.units.specs.Frame.{records};
ghost use Rattle.units.specs.Masks.{unit_words, pass_start, record_row};
ghost use Rattle.units.specs.Memory.{level_at};
ghost use Rattle.units.specs.Units.{chroma_unit};
ghost use Rattle.filter.specs.Filter.{area_of};
ghost use Rattle.filter.specs.Lines.{halves_at, class_at, first_unit, units_across, line_in, Counted};

use crate::Component;
use units::masks::{
    first_half, first_line, half_units, in_record, pass_no, record_row, record_start, row_units,
    two_halves, unit_words,
};
use units::{ChromaUnit, LumaUnit, Sample};
use walk::UnitLine;

fn record_left(ss_hor: usize, rec: usize) -> usize
    requires { (ss_hor ≤ 1) × (rec ≤ 128) }
    ensures { result ≡ rec * (32 / 2 ^ ss_hor) }
{
    rec * (32 >> ss_hor)
}

fn row_top(ss_ver: usize, sb4: LumaUnit, k: usize) -> usize
    requires { (ss_ver ≤ 1) × (k * sb4.0 < 4096) }
    ensures { result ≡ k * chroma_unit ss_ver sb4.0 }
{
    let sb = units::chroma_unit(sb4, ss_ver);
    k * sb.0
}

fn place(stride: usize, x: Sample, y: Sample) -> usize
    requires { y.0 * stride + x.0 < 2 ^ 64 }
    ensures { result ≡ y.0 * stride + x.0 }
{
    y.0 * stride + x.0
}

// Of the first sample of a unit.
fn sample_at(c: Component, x: usize, y: usize) -> usize
    requires { (4 * (y * c.stride + x) < 2 ^ 64) × (x < 65536) × (y < 65536) }
    ensures { result ≡ 4 * (y * c.stride + x) }
{
    if c.plane == 0 {
        return place(
            c.stride,
            units::luma_sample(LumaUnit(x)),
            units::luma_sample(LumaUnit(y)),
        );
    }
    place(
        c.stride,
        units::chroma_sample(ChromaUnit(x)),
        units::chroma_sample(ChromaUnit(y)),
    )
}

fn level_of(c: Component, rowwise: bool, x: usize, y: usize) -> usize
    requires { (c.plane ≤ 2) × (level_at c.level_stride x y (area_of c (pass_of rowwise)) < 2 ^ 64) }
    ensures { result ≡ level_at c.level_stride x y (area_of c (pass_of rowwise)) }
{
    if c.plane == 0 {
        let area = pass_no(rowwise);
        return units::memory::luma_level_at(c.level_stride, LumaUnit(x), LumaUnit(y), area);
    }
    units::memory::chroma_level_at(c.level_stride, ChromaUnit(x), ChromaUnit(y), c.plane + 1)
}

// Where the masks of a unit of record rec start.
fn mask_at(
    luma: bool,
    rowwise: bool,
    w4: LumaUnit,
    sb4: LumaUnit,
    k: usize,
    rec: usize,
    unit: usize,
) -> usize
    requires { (w4.0 ≤ 4096) × (k * sb4.0 < 4096) × (rec < records w4.0) × (unit ≤ 32) }
    ensures { result ≡ 640 * (record_row sb4.0 k * records w4.0 + rec) + pass_start luma (pass_of rowwise) + unit_words luma * unit }
{
    let records = units::frame::records_along(w4);
    let row = record_row(sb4, k);
    let start = record_start(luma, rowwise, row * records + rec);
    start + unit_words(luma) * unit
}

fn halves_at(masks: &[u16], at: usize, first: usize, n: usize, h: usize) -> u32
    requires { (at + 1 < length masks.now) × (first ≤ 1) × (h ≤ 16) }
    ensures { result ≡ halves_at masks.now at first n h }
{
    if n == 2 {
        return two_halves(masks[at], masks[at + 1], h);
    }
    u32::from(masks[at + first])
}

fn class_at(
    masks: &[u16],
    luma: bool,
    at: usize,
    first: usize,
    n: usize,
    h: usize,
    class: usize,
) -> u32
    requires { (at + unit_words luma ≤ length masks.now) × (first ≤ 1) × (h ≤ 16) × (class < 3) }
    ensures { result ≡ class_at masks.now luma at first n h class }
{
    if luma {
        return halves_at(masks, at + 2 * class, first, n, h);
    }
    if class < 2 {
        return halves_at(masks, at + 2 * class, first, n, h);
    }
    0
}

fn classes_of(luma: bool) -> u32
    ensures { result ≡ cond luma 3 2 }
{
    if luma { 3 } else { 2 }
}

fn column_line(masks: &[u16], c: Component, k: usize, rec: usize, a: usize) -> UnitLine
    requires { Counted c columns k rec a (length masks.now) }
    ensures { result ≡ line_in c masks.now columns k rec a }
{
    let luma = c.plane == 0;
    let x = record_left(c.ss_hor, rec) + a;
    let y = row_top(c.ss_ver, c.sb4, k);
    let m = mask_at(luma, false, c.w4, c.sb4, k, rec, a);
    let first = first_half(c.sb4, k);
    let n = c.sb4.0 / 16;
    let h = half_units(c.ss_ver);
    let stride = c.stride;
    UnitLine {
        q: sample_at(c, x, y),
        line_step: stride,
        sample_step: 1,
        m0: class_at(masks, luma, m, first, n, h, 0),
        m1: class_at(masks, luma, m, first, n, h, 1),
        m2: class_at(masks, luma, m, first, n, h, 2),
        classes: classes_of(luma),
        at: level_of(c, false, x, y),
        along: 4 * c.level_stride,
        back: 4,
    }
}

fn row_line(masks: &[u16], c: Component, k: usize, rec: usize, a: usize) -> UnitLine
    requires { Counted c rows k rec a (length masks.now) }
    ensures { result ≡ line_in c masks.now rows k rec a }
{
    let luma = c.plane == 0;
    let x = record_left(c.ss_hor, rec);
    let y = row_top(c.ss_ver, c.sb4, k) + a;
    let unit = first_line(c.ss_ver, c.sb4, k) + a;
    let m = mask_at(luma, true, c.w4, c.sb4, k, rec, unit);
    let h = half_units(c.ss_hor);
    let stride = c.stride;
    UnitLine {
        q: sample_at(c, x, y),
        line_step: 1,
        sample_step: stride,
        m0: class_at(masks, luma, m, 0, 2, h, 0),
        m1: class_at(masks, luma, m, 0, 2, h, 1),
        m2: class_at(masks, luma, m, 0, 2, h, 2),
        classes: classes_of(luma),
        at: level_of(c, true, x, y),
        along: 4,
        back: 4 * c.level_stride,
    }
}

pub fn line_of(
    masks: &[u16],
    c: Component,
    rowwise: bool,
    k: usize,
    rec: usize,
    a: usize,
) -> UnitLine
    requires { Counted c (pass_of rowwise) k rec a (length masks.now) }
    ensures { result ≡ line_in c masks.now (pass_of rowwise) k rec a }
{
    if rowwise {
        return row_line(masks, c, k, rec, a);
    }
    column_line(masks, c, k, rec, a)
}

// 1 at the frame's start, where no line is walked.
fn after_start(n: usize) -> usize
    ensures { result ≡ cond (eqb n 0) 1 0 }
{
    usize::from(n == 0)
}

pub fn first_unit(rowwise: bool, k: usize, rec: usize) -> usize
    ensures { result ≡ first_unit (pass_of rowwise) k rec }
{
    if rowwise {
        return after_start(k);
    }
    after_start(rec)
}

pub fn units_across(c: Component, rowwise: bool, k: usize, rec: usize) -> usize
    requires { (c.ss_hor ≤ 1) × (c.ss_ver ≤ 1) × (c.w4.0 ≤ 4096) × (c.h4.0 ≤ 4096) × (k * c.sb4.0 < c.h4.0) × (rec ≤ 128) }
    ensures { result ≡ units_across c (pass_of rowwise) k rec }
{
    if rowwise {
        return row_units(c.ss_ver, c.h4, c.sb4, k);
    }
    let width = units::chroma_units(c.w4, c.ss_hor);
    in_record(32 >> c.ss_hor, width.0, rec)
}
