// The geometry of masks: where the words and bits of edges stand in the records, and the lines of units that a superblock row has there.
ghost use Rattle.std.specs.Prelude.{◌≡◌, cond, ◌+◌, ◌*◌, ◌<◌, ◌≤◌};
ghost use Rattle.plane.specs.Line.{pass_of, pass_no};
ghost use Rattle.units.specs.Masks.{luma_word, chroma_word, word_of, unit_words, pass_start, in_record, record_row, first_line, first_half, row_units, half_units, two_halves, luma_bit, chroma_bit};

use crate::{ChromaUnit, LumaUnit, chroma_unit, chroma_units};

pub const RECORD_WORDS: usize = 640;

pub fn pass_no(rowwise: bool) -> usize
    ensures { (result ≡ pass_no (pass_of rowwise)) × (result < 2) }
{
    usize::from(rowwise)
}

pub fn luma_word(rowwise: bool, unit: LumaUnit, class: u8, half: usize) -> usize
    requires { (unit.0 < 32) × (class < 3) × (half < 2) }
    ensures { result ≡ luma_word (pass_no (pass_of rowwise)) unit.0 class half }
{
    ((pass_no(rowwise) * 32 + unit.0) * 3 + usize::from(class)) * 2 + half
}

pub fn chroma_word(rowwise: bool, unit: ChromaUnit, class: u8, half: usize) -> usize
    requires { (unit.0 < 32) × (class < 2) × (half < 2) }
    ensures { result ≡ chroma_word (pass_no (pass_of rowwise)) unit.0 class half }
{
    384 + (((pass_no(rowwise) * 32 + unit.0) * 2 + usize::from(class)) * 2 + half)
}

// The word of an edge's lower half, in its record.
pub fn edge_word(luma: bool, rowwise: bool, unit: usize, class: u8) -> usize
    requires { (unit < 32) × (class < cond luma 3 2) }
    ensures { (result ≡ word_of luma (pass_of rowwise) unit class 0) × (result < 639) }
{
    if luma {
        luma_word(rowwise, LumaUnit(unit), class, 0)
    } else {
        chroma_word(rowwise, ChromaUnit(unit), class, 0)
    }
}

// The words of a unit: two halves for each class.
pub fn unit_words(luma: bool) -> usize
    ensures { result ≡ unit_words luma }
{
    if luma { 6 } else { 4 }
}

// Those before the first unit of a pass, in its record.
pub fn pass_start(luma: bool, rowwise: bool) -> usize
    ensures { (result ≡ pass_start luma (pass_of rowwise)) × (result < 640) }
{
    let pass = pass_no(rowwise);
    if luma { 192 * pass } else { 384 + 128 * pass }
}

// The same of a record of the frame, by its number.
pub fn record_start(luma: bool, rowwise: bool, number: usize) -> usize
    requires { number ≤ 16384 }
    ensures { result ≡ 640 * number + pass_start luma (pass_of rowwise) }
{
    RECORD_WORDS * number + pass_start(luma, rowwise)
}

// The units of record `rec` of a row.
pub fn in_record(side: usize, n: usize, rec: usize) -> usize
    requires { (side ≤ 32) × (rec ≤ 128) }
    ensures { result ≡ in_record side n rec }
{
    side.min(n.saturating_sub(rec * side))
}

// The record row of superblock row k.
pub fn record_row(sb4: LumaUnit, k: usize) -> usize
    requires { k * sb4.0 < 4096 }
    ensures { result ≡ record_row sb4.0 k }
{
    k * sb4.0 / 32
}

// Its first line of units there.
pub fn first_line(ss: usize, sb4: LumaUnit, k: usize) -> usize
    requires { (k * sb4.0 < 4096) × (ss ≤ 1) }
    ensures { result ≡ first_line ss sb4.0 k }
{
    (k * sb4.0 % 32) >> ss
}

// Its first half there.
pub fn first_half(sb4: LumaUnit, k: usize) -> usize
    requires { k * sb4.0 < 4096 }
    ensures { result ≡ first_half sb4.0 k }
{
    k * sb4.0 % 32 / 16
}

// Its lines of units that lie in the frame.
pub fn row_units(ss: usize, h4: LumaUnit, sb4: LumaUnit, k: usize) -> usize
    requires { (ss ≤ 1) × (h4.0 ≤ 4096) × (k * sb4.0 < h4.0) }
    ensures { result ≡ row_units ss h4.0 sb4.0 k }
{
    let sb = chroma_unit(sb4, ss);
    let height = chroma_units(h4, ss);
    sb.0.min(height.0.saturating_sub(k * sb.0))
}

// The units that a half holds, ss being that of the direction along the pass.
pub fn half_units(ss: usize) -> usize
    requires { ss ≤ 1 }
    ensures { result ≡ half_units ss }
{
    16 >> ss
}

// Their joined word.
pub fn two_halves(lo: u16, hi: u16, h: usize) -> u32
    requires { h ≤ 16 }
    ensures { result ≡ two_halves lo hi h }
{
    u32::from(lo) | u32::from(hi) << h
}

#[tactic(auto, unfolding(crate::specs::Masks::luma_bit))]
pub fn luma_bit(rowwise: bool, unit: LumaUnit, class: u8, place: LumaUnit) -> usize
    requires { (unit.0 < 32) × (class < 3) × (place.0 < 32) }
    ensures { result ≡ luma_bit (pass_no (pass_of rowwise)) unit.0 class place.0 }
{
    16 * luma_word(rowwise, unit, class, place.0 / 16) + place.0 % 16
}

#[tactic(auto, unfolding(crate::specs::Masks::chroma_bit))]
pub fn chroma_bit(ss: usize, rowwise: bool, unit: ChromaUnit, class: u8, place: ChromaUnit) -> usize
    requires { (ss ≤ 1) × (unit.0 < 32) × (class < 2) × (place.0 < 2 * half_units ss) }
    ensures { result ≡ chroma_bit ss (pass_no (pass_of rowwise)) unit.0 class place.0 }
{
    let half = half_units(ss);
    16 * chroma_word(rowwise, unit, class, place.0 / half) + place.0 % half
}
