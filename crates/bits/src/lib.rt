// Bits of words; a list of words as a set of bits; the walk over a word's bits.
#![tactic(auto)]

ghost use Rattle.std.specs.Prelude.{◌≡◌, ◌+◌, ◌-◌, ◌/◌, ◌^◌, ◌≤◌, ◌<◌, length};
ghost use Rattle.std.specs.Int.Bits.{bit_and};
ghost use Rattle.bits.specs.Bit.{has_bit};
ghost use Rattle.bits.specs.Mark.{is_set, mark, unmark};

// The word of one bit.
pub fn bit16(k: u32) -> u16
    requires { k < 16 }
    ensures { result ≡ 2 ^ k }
{
    1u16 << k
}

// The word of n bits from k on.
pub fn run_word(k: u32, n: u32) -> u64
    requires { k + n ≤ 32 }
    ensures { result ≡ 2 ^ (n + k) - 2 ^ k }
{
    (1u64 << (n + k)) - (1u64 << k)
}

pub fn has(m: u16, k: u16) -> bool
    requires { k < 16 }
    ensures { result ≡ has_bit m k }
{
    (m >> k) % 2 == 1
}

pub fn without(m: u16, k: u32) -> u16
    requires { k < 16 }
    ensures { result ≡ bit_and m ((2 ^ 16 - 1) - 2 ^ k) }
{
    m & !bit16(k)
}

pub fn test_bit(masks: &[u16], e: usize) -> bool
    requires { e / 16 < length masks.now }
    ensures { result ≡ is_set masks.now e }
{
    let at = e / 16;
    has(masks[at], (e % 16) as u16)
}

pub fn set_bit(masks: &mut [u16], e: usize)
    requires { e / 16 < length masks.old }
    ensures { masks.new ≡ mark masks.old e }
{
    let at = e / 16;
    masks[at] = masks[at] | bit16((e % 16) as u32);
}

pub fn clear_bit(masks: &mut [u16], e: usize)
    requires { e / 16 < length masks.old }
    ensures { masks.new ≡ unmark masks.old e }
{
    let at = e / 16;
    masks[at] = without(masks[at], (e % 16) as u32);
}
