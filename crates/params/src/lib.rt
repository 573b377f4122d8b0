// Public: the loop filter parameters of a frame header, read from its bits and written.
#![tactic(auto)]

ghost use Rattle.std.specs.Prelude.{◌≡◌};
ghost use Rattle.standard.specs.Header.{is_off};
ghost use Rattle.refusals.specs.Numbers.{answered};
ghost use Rattle.params.specs.Calls.{given_by, read_of, read_answer, count_of, WriteAnswer};

use bit_place::has_room;
use params_lay::{count, lay};
pub use params_read::Taken;
use params_read::{defaults, parsed};
use params_unfit::unfit;
use refusals::Refusal;
use standard::Params;

// What the frame header says before the parameters, a flag as 0 or not 0, and the deltas as they are before them.
#[derive(Clone, Copy)]
pub struct FrameHeader {
    pub planes: u32,
    pub lossless: u32,
    pub intrabc: u32,
    pub refs: [i8; 8],
    pub modes: [i8; 2],
}

impl FrameHeader {
    // no bits are sent
    fn is_off(&self) -> bool
        ensures { result ≡ is_off (given_by self.now) }
    {
        (self.lossless != 0) | (self.intrabc != 0)
    }
}

pub fn read(bytes: &[u8], at: usize, header: FrameHeader) -> Result<Taken, Refusal>
    ensures { read_answer result ≡ read_of (given_by header) bytes.now at }
{
    if header.is_off() {
        return Ok(Taken {
            count: 0,
            params: defaults(),
        });
    }
    let taken = parsed(bytes, at, header.planes, header.refs, header.modes);
    if !has_room(bytes.len(), at, taken.count as usize) {
        return Err(Refusal::Bits);
    }
    Ok(taken)
}

// How many bits are written.
pub fn write(
    bytes: &mut [u8],
    at: usize,
    header: FrameHeader,
    params: Params,
) -> Result<u32, Refusal>
    ensures { WriteAnswer (given_by header) params at (answered result) (count_of result) bytes.old bytes.new }
{
    let off = header.is_off();
    if unfit(off, header.planes, header.refs, header.modes, params) {
        return Err(Refusal::Unwritable);
    }
    if off {
        return Ok(0);
    }
    let n = count(header.planes, params);
    if !has_room(bytes.len(), at, n) {
        return Err(Refusal::Bits);
    }
    lay(bytes, at, header.planes, params);
    Ok(n as u32)
}
