// The fields of 5.9.11, read one after another. Past the end of the bytes all bits are 0, so that one test of the count says whether they ran out.
#![tactic(auto)]

ghost use Rattle.std.specs.Prelude.{◌≡◌, false, cond, ◌+◌, ◌-◌, ◌*◌, ◌<◌, ◌≤◌, eqb, length, replicate};
ghost use Rattle.standard.specs.Header.{su_of, given, has_chroma, default_refs, off, levels, sent};
ghost use Rattle.standard.specs.Header as Header;
ghost use Rattle.bit_place.specs.Place.{bit_at, number_at};
ghost use Rattle.params_read.specs.Reads.{chroma_bits, Reads};

use bit_place::{number, su7};
use standard::Params;

#[derive(Clone, Copy)]
pub struct Taken {
    pub count: u32,
    pub params: Params,
}

// INTRA 1, GOLDEN, ALTREF2 and ALTREF -1
pub fn default_refs() -> [i8; 8]
    ensures { result ≡ default_refs }
{
    [1, 0, 0, 0, -1, 0, -1, -1]
}

pub fn defaults() -> Params
    ensures { result ≡ off }
{
    Params {
        level: [0u8; 4],
        sharpness: 0,
        delta_enabled: 0,
        delta_update: 0,
        update_ref: [0u8; 8],
        update_mode: [0u8; 2],
        ref_delta: default_refs(),
        mode_delta: [0i8; 2],
    }
}

pub fn chroma_bits(planes: u32, columns: u8, rows: u8) -> usize
    ensures { (result ≡ cond (has_chroma planes columns rows) 6 0) × (result ≤ 6) }
{
    if (planes > 1) & ((columns != 0) | (rows != 0)) {
        return 6;
    }
    0
}

fn read_levels(bytes: &[u8], at: usize, planes: u32) -> [u8; 4]
    ensures { Reads (levels planes) result (bit_at bytes.now) at (12 + 2 * chroma_bits planes result) }
{
    let columns = number(bytes, at, 0, 6);
    let rows = number(bytes, at, 6, 6);
    let n = chroma_bits(planes, columns, rows);
    let u = number(bytes, at, 12, n);
    let v = number(bytes, at, 12 + n, n);
    [columns, rows, u, v]
}

fn read_delta(bytes: &[u8], at: usize, k: usize, update: u8, before: i8) -> i8
    requires { (k ≤ 190) × (update < 2) }
    ensures { result ≡ cond (eqb update 1) (su_of (number_at (bit_at bytes.now) (at + k) 7)) before }
{
    if update == 0 {
        return before;
    }
    su7(number(bytes, at, k, 7))
}

fn read_deltas<const N: usize>(
    bytes: &[u8],
    at: usize,
    from: usize,
    u: u8,
    deltas: &mut [i8; N],
) -> (usize, [u8; N])
    requires { (from ≤ 110) × (u < 2) × (N ≤ 8) }
    ensures { (from ≤ result.0) × (result.0 ≤ from + 8 * N)
        × Reads (Header.deltas u deltas.old N) (result.1, deltas.new) (bit_at bytes.now) (at + from) (result.0 - from) }
{
    let mut update = [0; N];
    if u == 0 {
        return (from, update);
    }
    let mut k = from;
    for i in 0..N {
        let sent = number(bytes, at, k, 1);
        update[i] = sent;
        deltas[i] = read_delta(bytes, at, k + 1, sent, deltas[i]);
        k = k + 1 + 7 * usize::from(sent);
    }
    (k, update)
}

pub fn parsed(bytes: &[u8], at: usize, planes: u32, refs: [i8; 8], modes: [i8; 2]) -> Taken
    ensures { (result.count ≤ 200) × Reads (sent (given planes false false refs modes)) result.params (bit_at bytes.now) at result.count }
{
    let level = read_levels(bytes, at, planes);
    let k = 12 + 2 * chroma_bits(planes, level[0], level[1]);
    let sharpness = number(bytes, at, k, 3);
    let delta_enabled = number(bytes, at, k + 3, 1);
    let enabled = usize::from(delta_enabled);
    let delta_update = number(bytes, at, k + 4, enabled);
    let d = k + 4 + enabled;
    let mut ref_delta = refs;
    let mut mode_delta = modes;
    let (m, update_ref) = read_deltas(bytes, at, d, delta_update, &mut ref_delta);
    let (end, update_mode) = read_deltas(bytes, at, m, delta_update, &mut mode_delta);
    Taken {
        count: end as u32,
        params: Params {
            level,
            sharpness,
            delta_enabled,
            delta_update,
            update_ref,
            update_mode,
            ref_delta,
            mode_delta,
        },
    }
}
