// The lines of units of a row, as bits of the two halves of a mask.
ghost use Rattle.std.specs.Prelude.{◌≡◌, ◌-◌, ◌*◌, ◌^◌, ◌≤◌};
ghost use Rattle.gap.specs.Lines.{line_word};

use units::masks::two_halves;

fn half_word(n: usize) -> u16
    requires { n ≤ 16 }
    ensures { result ≡ 2 ^ n - 1 }
{
    bits::run_word(0, n as u32) as u16
}

// The bits of the first n lines, where a half holds h.
pub fn line_word(h: usize, n: usize) -> u32
    requires { (h ≤ 16) × (n ≤ 2 * h) }
    ensures { result ≡ line_word h n }
{
    two_halves(half_word(n.min(h)), half_word(n.saturating_sub(h)), 16)
}
