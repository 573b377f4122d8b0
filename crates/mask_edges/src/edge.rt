// One pass over a block, and the bits of its edges. Places and sizes are in units of the plane at hand.
ghost use Rattle.std.specs.Prelude.{◌≡◌, ◌+◌, ◌-◌, ◌*◌, ◌/◌, ◌%◌, ◌^◌, ◌<◌, ◌≤◌, length, get_or, set};
ghost use Rattle.std.specs.Int.Bits.{bit_or};
ghost use Rattle.bits.specs.Mark.{mark, marks};
ghost use Rattle.mask_edges.specs.Folds.{classes, bit_in, columns_of, rows_of, Held};

use units::masks::edge_word;

// `unit` and `across` are the block's place and visible size across the pass, `place` and `along` along it; a half of a mask holds
// `half` units.
#[derive(Clone, Copy)]
pub struct BlockPass {
    pub luma: bool,
    pub half: usize,
    pub rowwise: bool,
    pub unit: usize,
    pub place: usize,
    pub across: usize,
    pub along: usize,
}

pub fn columns(luma: bool, half: usize, by4: usize, bx4: usize, w4: usize, h4: usize) -> BlockPass
    ensures { result ≡ columns_of luma half by4 bx4 w4 h4 }
{
    BlockPass {
        luma,
        half,
        rowwise: false,
        unit: bx4,
        place: by4,
        across: w4,
        along: h4,
    }
}

pub fn rows(luma: bool, half: usize, by4: usize, bx4: usize, w4: usize, h4: usize) -> BlockPass
    ensures { result ≡ rows_of luma half by4 bx4 w4 h4 }
{
    BlockPass {
        luma,
        half,
        rowwise: true,
        unit: by4,
        place: bx4,
        across: h4,
        along: w4,
    }
}

// A mask word is stored only here, and only to set a bit.
fn set_bits(word: &mut u16, bits: u16)
    requires { 0 < bits }
    ensures { word.new ≡ bit_or word.old bits }
{
    *word |= bits;
}

// Bit k of word `at`.
fn set_at(masks: &mut [u16], at: usize, k: usize)
    requires { (at < length masks.old) × (k < 16) }
    ensures { masks.new ≡ mark masks.old (16 * at + k) }
{
    set_bits(&mut masks[at], bits::bit16(k as u32));
}

// Bit k of the word of a class, two to a class from `at` on.
pub fn set_in(masks: &mut [u16], at: usize, class: u8, k: usize)
    requires { (at + 2 * class < length masks.old) × (k < 16) }
    ensures { masks.new ≡ mark masks.old (16 * (at + 2 * class) + k) }
{
    set_at(masks, at + 2 * usize::from(class), k);
}

// The block's edge at (u, v).
pub fn set_edge(masks: &mut [u16], p: BlockPass, u: usize, class: u8, v: usize)
    requires { Held p (length masks.old) × (class < classes p.luma) × (u < p.across) × (v < p.along) }
    ensures { masks.new ≡ mark masks.old (bit_in p u class v) }
{
    let at = edge_word(p.luma, p.rowwise, p.unit + u, class);
    let q = p.place + v;
    if q < p.half {
        set_at(masks, at, q);
        return;
    }
    set_at(masks, at + 1, q - p.half);
}

fn low_half(w: u64, half: u32) -> u16
    requires { half ≤ 16 }
    ensures { result ≡ w % 2 ^ half }
{
    (w & ((1u64 << half) - 1)) as u16
}

fn high_half(w: u64, half: u32) -> u16
    requires { (half ≤ 16) × (w < 2 ^ (half + half)) }
    ensures { result ≡ w / 2 ^ half }
{
    (w >> half) as u16
}

// No bits, no store: the other half may be another tile's.
fn set_half(masks: &mut [u16], at: usize, bits: u16)
    requires { at < length masks.old }
    ensures { masks.new ≡ set masks.old at (bit_or (get_or masks.old at 0) bits) }
{
    if 0 < bits {
        set_bits(&mut masks[at], bits);
    }
}

// The block's edges at u, all along it: two words at once.
pub fn set_edges(masks: &mut [u16], p: BlockPass, u: usize, class: u8)
    requires { Held p (length masks.old) × (class < classes p.luma) × (u < p.across) }
    ensures { masks.new ≡ marks p.along (bit_in p u class) masks.old }
{
    let at = edge_word(p.luma, p.rowwise, p.unit + u, class);
    let w = bits::run_word(p.place as u32, p.along as u32);
    let lo = low_half(w, p.half as u32);
    let hi = high_half(w, p.half as u32);
    set_half(masks, at, lo);
    set_half(masks, at + 1, hi);
}
