// Numbers 8 and 9: level bytes and samples, or-ed together line by line and compared once.
#![tactic(auto)]

ghost use Rattle.std.specs.Prelude.{◌≡◌, ◌+◌, ◌-◌, ◌*◌, ◌/◌, ◌%◌, ◌^◌, ◌<◌, ◌≤◌, min, ltb, length};
ghost use Rattle.bits.specs.Word.{or_below};
ghost use Rattle.plane.specs.Line.{pass_of, pass_no};
ghost use Rattle.units.specs.Frame.{stored};
ghost use Rattle.units.specs.Units.{chroma_unit};
ghost use Rattle.scans.specs.Fits.{LevelsFit, LevelsRow, SamplesFit};
ghost use Rattle.scans.specs.Or.{four_at, or_units, or_levels, four_lines, or_quad, or_samples};
ghost use Rattle.scans.specs.Promises.{Promises};
ghost use Rattle.scans.specs.Scan.{luma_levels_high, chroma_levels_high, samples_high};

use plane::Pixel;
use units::masks::pass_no;
use units::{LumaUnit, Sample};

fn or_units(levels: &[u8], w: usize, at: usize) -> u32
    requires { at + 4 * w ≤ length levels.now }
    ensures { result ≡ or_units levels.now w at }
{
    let (units, _) = levels[at..at + 4 * w].as_chunks::<4>();
    let mut acc = 0;
    for unit in units {
        acc |= u32::from_le_bytes(*unit);
    }
    acc
}

fn or_levels(levels: &[u8], level_stride: usize, w: usize, first: usize, n: usize) -> u32
    requires { (4 * ((first + n) * level_stride) ≤ length levels.now) × (w ≤ level_stride) × (0 < level_stride) }
    ensures { result ≡ or_levels levels.now level_stride w first n }
{
    let mut acc: u32 = 0;
    for i in 0..n {
        acc |= or_units(levels, w, 4 * ((first + i) * level_stride));
    }
    acc
}

// The levels of row k, all areas at once: those of width by height units, in the row's lines and `above` before them.
fn row_levels(
    levels: &[u8],
    level_stride: usize,
    width: usize,
    height: usize,
    sb: usize,
    above: usize,
    k: usize,
) -> u32
    requires { LevelsRow (length levels.now) level_stride width height sb k }
    ensures { result ≡ or_levels levels.now level_stride width (k * sb - above) (min height ((k + 1) * sb) - (k * sb - above)) }
{
    let first = (k * sb).saturating_sub(above);
    let last = height.min(k * sb + sb);
    or_levels(levels, level_stride, width, first, last - first)
}

fn byte_high(r: u32, area: u32) -> bool
    requires { area < 4 }
    ensures { result ≡ ltb 63 (r / 2 ^ (8 * area) % 2 ^ 8) }
{
    63 < (r >> (8 * area)) % 256
}

// Number 8 of luma.
pub fn luma_levels_high(
    levels: &[u8],
    level_stride: usize,
    w4: LumaUnit,
    h4: LumaUnit,
    sb4: LumaUnit,
    rowwise: bool,
    k: usize,
) -> bool
    requires { LevelsFit (length levels.now) level_stride w4.0 h4.0 sb4.0 k }
    ensures { result ≡ luma_levels_high levels.now level_stride w4.0 h4.0 sb4.0 (pass_of rowwise) k }
{
    let pass = pass_no(rowwise);
    let r = row_levels(levels, level_stride, w4.0, h4.0, sb4.0, pass, k);
    byte_high(r, pass as u32)
}

// Number 8 of U and V, from one scan.
pub fn chroma_levels_high(
    levels: &[u8],
    level_stride: usize,
    w4: LumaUnit,
    h4: LumaUnit,
    ss_hor: usize,
    ss_ver: usize,
    sb4: LumaUnit,
    rowwise: bool,
    k: usize,
) -> bool
    requires { LevelsFit (length levels.now) level_stride w4.0 h4.0 sb4.0 k × (ss_hor ≤ 1) × (ss_ver ≤ 1) }
    ensures { result ≡ chroma_levels_high levels.now level_stride w4.0 h4.0 ss_hor ss_ver sb4.0 (pass_of rowwise) k }
{
    let width = units::chroma_units(w4, ss_hor);
    let height = units::chroma_units(h4, ss_ver);
    let sb = units::chroma_unit(sb4, ss_ver);
    let r = row_levels(
        levels,
        level_stride,
        width.0,
        height.0,
        sb.0,
        pass_no(rowwise),
        k,
    );
    byte_high(r, 2) | byte_high(r, 3)
}

// Four lines, or-ed together.
fn or_four<P: Pixel>(s: &[P], a: usize, b: usize, c: usize, d: usize, w: usize) -> u16
    requires { (a + w ≤ length s.now) × (b + w ≤ length s.now) × (c + w ≤ length s.now) × (d + w ≤ length s.now) }
    ensures { result ≡ or_below w (four_lines (P.samples s.now) a b c d) }
{
    let mut acc: u16 = 0;
    for x in 0..w {
        acc |= P::at(s, a + x) | P::at(s, b + x) | P::at(s, c + x) | P::at(s, d + x);
    }
    acc
}

fn or_quad<P: Pixel>(s: &[P], stride: usize, w: usize, a: usize) -> u16
    requires { (a + 4 * stride ≤ length s.now) × (w ≤ stride) }
    ensures { result ≡ or_quad (P.samples s.now) stride w a }
{
    let b = a + stride;
    let c = b + stride;
    let d = c + stride;
    or_four(s, a, b, c, d, w)
}

fn or_samples<P: Pixel>(s: &[P], stride: usize, w: usize, first: usize, n: usize) -> u16
    requires { (4 * ((first + n) * stride) ≤ length s.now) × (w ≤ stride) × (0 < stride) }
    ensures { result ≡ or_samples (P.samples s.now) stride w first n }
{
    let mut acc: u16 = 0;
    for i in 0..n {
        acc |= or_quad(s, stride, w, 4 * ((first + i) * stride));
    }
    acc
}

// The samples of a plane, of `lines` units a row: those of row k and, for rows, of the two lines of units above it.
fn row_samples<P: Pixel>(
    s: &[P],
    stride: usize,
    w: usize,
    lines: usize,
    rowwise: bool,
    k: usize,
) -> u16
    requires { (4 * ((k + 1) * lines) * stride ≤ length s.now) × (w ≤ stride) × (0 < stride) }
    ensures { result ≡ or_samples (P.samples s.now) stride w (k * lines - 2 * pass_no (pass_of rowwise)) ((k + 1) * lines - (k * lines - 2 * pass_no (pass_of rowwise))) }
{
    let pass = pass_no(rowwise);
    let first = (k * lines).saturating_sub(2 * pass);
    or_samples(s, stride, w, first, k * lines + lines - first)
}

// Number 9 of the samples of a plane; ss_hor and ss_ver are 0 for luma.
pub fn samples_high<P: Pixel>(
    s: &[P],
    stride: usize,
    width: Sample,
    height: Sample,
    ss_hor: usize,
    ss_ver: usize,
    sb4: LumaUnit,
    depth: u32,
    rowwise: bool,
    k: usize,
) -> bool
    requires { SamplesFit (length s.now) stride width.0 height.0 ss_hor ss_ver sb4.0 k × (ss_hor ≤ 1) × (ss_ver ≤ 1) × (depth < 16) }
    ensures { result ≡ samples_high (P.samples s.now) stride (2 ^ depth - 1) (stored width.0 ss_hor) (chroma_unit ss_ver sb4.0) (8 * pass_no (pass_of rowwise)) k }
{
    let stored = units::frame::stored_side(width, ss_hor);
    let sb = units::chroma_unit(sb4, ss_ver);
    let r = row_samples(s, stride, stored.0, sb.0, rowwise, k);
    r >> depth != 0
}

// What the tests mean.
pub fn promised()
    ensures { Promises }
{}
