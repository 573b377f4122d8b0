// One edge, and a line of them.
ghost use Rattle.std.specs.Prelude.{◌≡◌, ◌+◌, ◌*◌, length};
ghost use Rattle.bits.specs.Mark.{is_set};
ghost use Rattle.correct.specs.Correct.{old_class, cleared, corrected, line_done, Room, Fits};

use crate::TileEdge;
use bits::{clear_bit, set_bit, test_bit};
use edges::bit::edge_bit;

// The bit of class c stands at e + 32 * c.
fn old_class(masks: &[u16], luma: bool, e: usize) -> usize
    requires { Room luma e (length masks.now) }
    ensures { result ≡ old_class luma (λ c. is_set masks.now (e + 32 * c)) }
{
    let one = usize::from(test_bit(masks, e + 32));
    if luma {
        return 2 * usize::from(test_bit(masks, e + 64)) + one;
    }
    one
}

#[tactic(auto, unfolding(crate::specs::Correct::cleared))]
fn clear_edge(masks: &mut [u16], luma: bool, e: usize)
    requires { Room luma e (length masks.old) }
    ensures { masks.new ≡ cleared luma (λ c. e + 32 * c) masks.old }
{
    clear_bit(masks, e);
    clear_bit(masks, e + 32);
    if !luma {
        return;
    }
    clear_bit(masks, e + 64);
}

#[tactic(auto, unfolding(crate::specs::Correct::corrected))]
fn correct_edge(masks: &mut [u16], luma: bool, e: usize, context: u8)
    requires { Room luma e (length masks.old) }
    ensures { masks.new ≡ corrected luma (λ c. e + 32 * c) context masks.old }
{
    let old = old_class(masks, luma, e);
    clear_edge(masks, luma, e);
    set_bit(masks, e + 32 * old.min(usize::from(context)));
}

pub fn correct_line(masks: &mut [u16], l: TileEdge, context: &[u8])
    requires { Fits l (length masks.old) (length context.now) }
    ensures { masks.new ≡ line_done l context.now masks.old }
{
    for (i, class) in context[..l.n].iter().enumerate() {
        let e = edge_bit(
            l.luma,
            l.ss_hor,
            l.ss_ver,
            l.w4,
            l.rowwise,
            l.across,
            l.first + i,
        );
        correct_edge(masks, l.luma, e, *class);
    }
}
