// Decimal numbers: read from bytes, and written into them.
#![tactic(auto)]

ghost use Rattle.std.specs.Prelude.{false, ◌≡◌, ◌+◌, ◌≤◌, ◌↔◌, length, IsNone, IfSome};
ghost use Rattle.list_decimal.specs.Decimal.{numeral, number_of, decimal, pasted};
ghost use Rattle.list_decimal.specs.Promises.{Promises};

// None for what is not 1 to 9 digits.
pub fn number(s: &[u8]) -> Option<u32>
    ensures none { IsNone result ↔ (numeral s.now ≡ false) }
    ensures some { IfSome result (λ n. n ≡ number_of s.now) }
{
    if s.is_empty() || 9 < s.len() {
        return None;
    }
    let mut n = 0;
    for &b in s {
        if !b.is_ascii_digit() {
            return None;
        }
        n = n * 10 + u32::from(b - b'0');
    }
    Some(n)
}

// Answers the place after the last digit.
pub fn put_number(out: &mut [u8], at: usize, n: u64) -> usize
    requires { at + length (decimal n) ≤ length out.old }
    ensures { (result ≡ at + length (decimal n)) × (out.new ≡ pasted out.old at (decimal n)) }
{
    if n < 10 {
        out[at] = b'0' + n as u8;
        return at + 1;
    }
    let e = put_number(out, at, n / 10);
    out[e] = b'0' + (n % 10) as u8;
    e + 1
}

// The theorems of specs/Promises.antt are proved.
pub fn promised()
    ensures { Promises }
{}
