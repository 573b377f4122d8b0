// Bits of bytes at a place, the highest bit of a byte first: read, put, and seven of them as a signed number.
#![tactic(auto)]

ghost use Rattle.std.specs.Prelude.{◌≡◌, ◌+◌, ◌-◌, ◌*◌, ◌^◌, ◌<◌, ◌≤◌, leb, length};
ghost use Rattle.bits.specs.Bit.{has_bit};
ghost use Rattle.standard.specs.Header.{worth, su_of};
ghost use Rattle.bit_place.specs.Place.{bit_at, number_at, with_bit, put_bit, digits, laid};
ghost use Rattle.bit_place.specs.Seven.{seven_of};

use deltas::biased;

// Bit k of a byte, the lowest being bit 0.
fn bit_of(byte: u8, k: u8) -> u8
    requires { k < 8 }
    ensures { (result ≡ worth (has_bit byte k)) × (result < 2) }
{
    (byte >> k) % 2
}

fn with_bit(byte: u8, k: u8, b: u8) -> u8
    requires { k < 8 }
    ensures { result ≡ with_bit byte k (has_bit b 0) }
{
    if b % 2 == 0 {
        return byte & !(1u8 << k);
    }
    byte | (1u8 << k)
}

// The bit k places on from `at`; past the last byte it is 0.
fn bit(bytes: &[u8], at: usize, k: usize) -> u8
    requires { k ≤ 200 }
    ensures { (result ≡ worth (bit_at bytes.now (at + k))) × (result < 2) }
{
    let p = at % 8 + k;
    let i = at / 8 + p / 8;
    if i >= bytes.len() {
        return 0;
    }
    bit_of(bytes[i], (7 - p % 8) as u8)
}

// n bits from there on, the first the highest.
pub fn number(bytes: &[u8], at: usize, k: usize, n: usize) -> u8
    requires { (k ≤ 190) × (n ≤ 7) }
    ensures { (result ≡ number_at (bit_at bytes.now) (at + k) n) × (result < 2 ^ n) }
{
    let mut v = 0;
    for i in 0..n {
        v = 2 * v + bit(bytes, at, k + i);
    }
    v
}

fn put_bit(bytes: &mut [u8], at: usize, k: usize, b: u8)
    requires { (k ≤ 200) × (at + k < 8 * length bytes.old) }
    ensures { bytes.new ≡ put_bit bytes.old (at + k) (has_bit b 0) }
{
    let p = at % 8 + k;
    let i = at / 8 + p / 8;
    bytes[i] = with_bit(bytes[i], (7 - p % 8) as u8, b);
}

pub fn put(bytes: &mut [u8], at: usize, k: usize, n: usize, v: u8)
    requires { (k ≤ 190) × (n ≤ 8) × (at + k + n ≤ 8 * length bytes.old) }
    ensures { bytes.new ≡ laid (digits n v) (at + k) bytes.old }
{
    for i in 0..n {
        put_bit(bytes, at, k + i, v >> (n - 1 - i));
    }
}

// Whether n bits from a place on lie in so many bytes.
pub fn has_room(len: usize, at: usize, n: usize) -> bool
    requires { n ≤ 200 }
    ensures { result ≡ leb n (8 * len - at) }
{
    if n == 0 {
        return true;
    }
    at / 8 + (at % 8 + n - 1) / 8 < len
}

pub fn su7(v: u8) -> i8
    requires { v < 128 }
    ensures { result ≡ su_of v }
{
    if v < 64 {
        return v as i8;
    }
    (i32::from(v) - 128) as i8
}

pub fn seven(d: i8) -> u8
    ensures { result ≡ seven_of d }
{
    (biased(d) % 128) as u8
}
