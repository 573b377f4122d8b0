// Fields parted by a byte, and words as numbers.
#![tactic(auto)]

ghost use Rattle.std.specs.Prelude.{◌≡◌, ◌+◌, ◌<◌, length, drop};
ghost use Rattle.list_fields.specs.Fields.{cut, place};
ghost use Rattle.list_fields.specs.Word.{packed};
ghost use Rattle.list_fields.specs.Promises.{Promises};

// The end of the field that begins at `at`.
pub fn end_of(s: &[u8], at: usize, d: u8) -> usize
    ensures { result ≡ at + cut d (drop at s.now) }
{
    match s.get(at..) {
        Some(rest) => at + rest.iter().position(|&b| b == d).unwrap_or(rest.len()),
        None => at,
    }
}

pub fn start_of(s: &[u8], d: u8, k: usize) -> usize
    requires { length s.now + k < 18446744073709551615 }
    ensures { result ≡ place d s.now k }
{
    let mut at = 0;
    for _ in 0..k {
        at = end_of(s, at, d) + 1;
    }
    at
}

pub fn word(s: &[u8]) -> u64
    ensures { result ≡ packed s.now }
{
    if 7 < s.len() {
        return 0;
    }
    let mut n = 1;
    for &b in s {
        n = n * 256 + u64::from(b);
    }
    n
}

// The theorems of specs/Promises.antt are proved.
pub fn promised()
    ensures { Promises }
{}
