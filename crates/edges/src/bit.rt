// The place of an edge's bits in the masks.
ghost use Rattle.std.specs.Prelude.{◌≡◌, cond, ℕ, ◌+◌, ◌*◌, ◌/◌, ◌^◌, ◌<◌, ◌≤◌};
ghost use Rattle.plane.specs.Line.{pass_of, pass_no};
ghost use Rattle.units.specs.Frame.{records};
ghost use Rattle.units.specs.Masks.{luma_bit, chroma_bit};
ghost use Rattle.edges.specs.Edges.{grid_of, edge_bit};
ghost use Rattle.edges.specs.Bit.{Near};

use units::frame::records_along;
use units::masks::{chroma_bit, luma_bit};
use units::{ChromaUnit, LumaUnit};

fn bit_in(luma: bool, ss: usize, rowwise: bool, unit: usize, place: usize) -> usize
    requires { (ss ≤ 1) × (unit < 32) × (place < 32 / 2 ^ ss) }
    ensures { result ≡ cond luma (luma_bit (pass_no (pass_of rowwise)) unit 0 place) (chroma_bit ss (pass_no (pass_of rowwise)) unit 0 place) }
{
    if luma {
        return luma_bit(rowwise, LumaUnit(unit), 0, LumaUnit(place));
    }
    chroma_bit(ss, rowwise, ChromaUnit(unit), 0, ChromaUnit(place))
}

fn record_bit(w4: LumaUnit, right: usize, down: usize) -> usize
    requires { (w4.0 ≤ 4096) × (right ≤ 4096) × (down ≤ 4096) }
    ensures { result ≡ 10240 * (down * records w4.0 + right) }
{
    10240 * (down * records_along(w4) + right)
}

// The bit of class 0, in a frame of any height.
pub fn edge_bit(
    luma: bool,
    ss_hor: usize,
    ss_ver: usize,
    w4: LumaUnit,
    rowwise: bool,
    across: usize,
    along: usize,
) -> usize
    requires { Near ss_hor ss_ver w4.0 across along }
    ensures { (h4 : ℕ) → result ≡ edge_bit (grid_of luma ss_hor ss_ver w4.0 h4) (pass_of rowwise) (across, along) 0 }
{
    let width = 32 >> ss_hor;
    let height = 32 >> ss_ver;
    if rowwise {
        return record_bit(w4, along / width, across / height)
            + bit_in(luma, ss_hor, true, across % height, along % width);
    }
    record_bit(w4, across / width, along / height)
        + bit_in(luma, ss_ver, false, across % width, along % height)
}
