// The edges that the masks of a frame hold: the bit of an edge, and its class.
#![tactic(auto)]

pub mod bit;

ghost use Rattle.std.specs.Prelude.{◌≡◌, ◌+◌, ◌/◌, ◌<◌, length, unwrap_or, IfSome};
ghost use Rattle.edges.specs.Class.{no_class, class_in};
ghost use Rattle.edges.specs.Promises.{Promises};

use bits::test_bit;

// e is the bit of class 0.
pub fn chroma_class(masks: &[u16], e: usize) -> Option<u8>
    requires { (e < 1099511627776) × ((e + 32) / 16 < length masks.now) }
    ensures class { unwrap_or result no_class ≡ class_in masks.now 2 e }
    ensures low { IfSome result (λ c. c < no_class) }
{
    if test_bit(masks, e + 32) {
        return Some(1);
    }
    if test_bit(masks, e) {
        return Some(0);
    }
    None
}

pub fn luma_class(masks: &[u16], e: usize) -> Option<u8>
    requires { (e < 1099511627776) × ((e + 64) / 16 < length masks.now) }
    ensures class { unwrap_or result no_class ≡ class_in masks.now 3 e }
    ensures low { IfSome result (λ c. c < no_class) }
{
    if test_bit(masks, e + 64) {
        return Some(2);
    }
    chroma_class(masks, e)
}

// The theorem of specs/Promises.antt is proved.
pub fn promised()
    ensures { Promises }
{}
