// The loop filter parameters of a frame header, read and written.
ghost use Rattle.loops.specs.Flag.{on};
ghost use Rattle.standard.specs.Header.{given};
ghost use Rattle.params.specs.Calls.{read_of, lent_of, ReadLent, fields_of, WriteLent};

use refusals::answered;

#[unsafe(no_mangle)]
pub extern "C" fn deblock_read_params(
    bytes: &[u8],
    at: usize,
    planes: u32,
    lossless: u32,
    intrabc: u32,
    level: &mut [u8; 4],
    bits: &mut [u8; 3],
    update: &mut [u8; 10],
    ref_delta: &mut [i8; 8],
    mode_delta: &mut [i8; 2],
    count: &mut [u32; 1],
) -> u32
    ensures { ReadLent (read_of (given planes (on lossless) (on intrabc) ref_delta.old mode_delta.old) bytes.now at) result
        (lent_of level.old bits.old update.old ref_delta.old mode_delta.old count.old)
        (lent_of level.new bits.new update.new ref_delta.new mode_delta.new count.new) }
{
    answered(params_lent::read_into(
        bytes, at, planes, lossless, intrabc, level, bits, update, ref_delta, mode_delta, count,
    ))
}

#[unsafe(no_mangle)]
pub extern "C" fn deblock_write_params(
    bytes: &mut [u8],
    at: usize,
    planes: u32,
    lossless: u32,
    intrabc: u32,
    ref_before: &[i8; 8],
    mode_before: &[i8; 2],
    level: &[u8; 4],
    bits: &[u8; 3],
    update: &[u8; 10],
    ref_delta: &[i8; 8],
    mode_delta: &[i8; 2],
    count: &mut [u32; 1],
) -> u32
    ensures { WriteLent (given planes (on lossless) (on intrabc) ref_before.now mode_before.now)
        (fields_of level.now bits.now update.now ref_delta.now mode_delta.now)
        at result bytes.old bytes.new count.old count.new }
{
    answered(params_lent::write_from(
        bytes,
        at,
        planes,
        lossless,
        intrabc,
        ref_before,
        mode_before,
        level,
        bits,
        update,
        ref_delta,
        mode_delta,
        count,
    ))
}
