// `read` and `write` of `params` on lent arrays, for C.
#![tactic(auto)]

ghost use Rattle.std.specs.Prelude.{◌++◌, ◌≡◌, get_or};
ghost use Rattle.loops.specs.Flag.{on};
ghost use Rattle.loops.specs.Table.{tabulate};
ghost use Rattle.standard.specs.Header.{given};
ghost use Rattle.refusals.specs.Numbers.{answered};
ghost use Rattle.params.specs.Calls.{read_of, lent_of, ReadLent, fields_of, WriteLent};

use params::{FrameHeader, read, write};
use refusals::Refusal;
use standard::Params;

// Update bits of eight references and of two modes.
fn joined(r: [u8; 8], m: [u8; 2]) -> [u8; 10]
    ensures { result ≡ tabulate (λ i. get_or r i 0) 8 ++ tabulate (λ i. get_or m i 0) 2 }
{
    [r[0], r[1], r[2], r[3], r[4], r[5], r[6], r[7], m[0], m[1]]
}

fn of_refs(u: &[u8; 10]) -> [u8; 8]
    ensures { result ≡ tabulate (λ i. get_or u.now i 0) 8 }
{
    [u[0], u[1], u[2], u[3], u[4], u[5], u[6], u[7]]
}

fn fields(
    level: &[u8; 4],
    bits: &[u8; 3],
    update: &[u8; 10],
    ref_delta: &[i8; 8],
    mode_delta: &[i8; 2],
) -> Params
    ensures { result ≡ fields_of level.now bits.now update.now ref_delta.now mode_delta.now }
{
    let update_ref = of_refs(update);
    Params {
        level: *level,
        sharpness: bits[0],
        delta_enabled: bits[1],
        delta_update: bits[2],
        update_ref,
        update_mode: [update[8], update[9]],
        ref_delta: *ref_delta,
        mode_delta: *mode_delta,
    }
}

pub fn read_into(
    bytes: &[u8],
    at: usize,
    planes: u32,
    lossless: u32,
    intrabc: u32,
    level: &mut [u8; 4],
    bits: &mut [u8; 3],
    update: &mut [u8; 10],
    ref_delta: &mut [i8; 8],
    mode_delta: &mut [i8; 2],
    count: &mut [u32; 1],
) -> Result<(), Refusal>
    ensures { ReadLent (read_of (given planes (on lossless) (on intrabc) ref_delta.old mode_delta.old) bytes.now at) (answered result)
        (lent_of level.old bits.old update.old ref_delta.old mode_delta.old count.old)
        (lent_of level.new bits.new update.new ref_delta.new mode_delta.new count.new) }
{
    let header = FrameHeader {
        planes,
        lossless,
        intrabc,
        refs: *ref_delta,
        modes: *mode_delta,
    };
    let taken = read(bytes, at, header)?;
    let p = taken.params;
    let levels = p.level;
    let r = p.update_ref;
    let m = p.update_mode;
    let refs = p.ref_delta;
    let modes = p.mode_delta;
    *level = levels;
    *bits = [p.sharpness, p.delta_enabled, p.delta_update];
    *update = joined(r, m);
    *ref_delta = refs;
    *mode_delta = modes;
    *count = [taken.count];
    Ok(())
}

pub fn write_from(
    bytes: &mut [u8],
    at: usize,
    planes: u32,
    lossless: u32,
    intrabc: u32,
    ref_before: &[i8; 8],
    mode_before: &[i8; 2],
    level: &[u8; 4],
    bits: &[u8; 3],
    update: &[u8; 10],
    ref_delta: &[i8; 8],
    mode_delta: &[i8; 2],
    count: &mut [u32; 1],
) -> Result<(), Refusal>
    ensures { WriteLent (given planes (on lossless) (on intrabc) ref_before.now mode_before.now)
        (fields_of level.now bits.now update.now ref_delta.now mode_delta.now)
        at (answered result) bytes.old bytes.new count.old count.new }
{
    let header = FrameHeader {
        planes,
        lossless,
        intrabc,
        refs: *ref_before,
        modes: *mode_before,
    };
    let params = fields(level, bits, update, ref_delta, mode_delta);
    let written = write(bytes, at, header, params)?;
    *count = [written];
    Ok(())
}
