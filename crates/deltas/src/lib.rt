// The steps of a level on signed deltas: range tests, and 7.14.5 of the standard.
// A delta is carried as an unsigned number 128 above it, and a sum of deltas beside its offset.
#![tactic(auto)]

ghost use Rattle.std.specs.Prelude.{◌≡◌, true, cond, ◌<◌, ◌≤◌, pos, ◌+ℤ◌, length};
ghost use Rattle.std.proofs.Math.IntN.{sub_ℕ};
ghost use Rattle.loops.specs.Any.{any_below};
ghost use Rattle.standard.specs.Math.{Clip3};
ghost use Rattle.standard.specs.Level.{base_filter_level, lvl_seg, lvl_delta, shl, n_shift};
ghost use Rattle.loops.specs.Flag.{on};
ghost use Rattle.deltas.specs.Deltas.{delta, outside};

pub fn biased(d: i8) -> u32
    ensures { (sub_ℕ result 128 ≡ d) × (result < 256) }
{
    (i32::from(d) + 128) as u32
}

pub fn is_outside(d: i8, low: u32) -> bool
    requires { low ≤ 128 }
    ensures { result ≡ outside low d }
{
    let u = biased(d);
    (u + low < 128) | (u > 191)
}

pub fn any_outside(deltas: &[i8], low: u32) -> bool
    requires { low ≤ 128 }
    ensures { result ≡ any_below (length deltas.now) (λ i. outside low (delta deltas.now i)) }
{
    deltas.iter().any(|&d| is_outside(d, low))
}

// sum - offset, clipped to 0..63
fn clip63(sum: u32, offset: u32) -> u32
    ensures { (pos result ≡ Clip3 (pos 0) (pos 63) (sub_ℕ sum offset)) × (result < 64) }
{
    sum.saturating_sub(offset).min(63)
}

pub fn segment_base(level: u8, lf: u32, seg: u32) -> u32
    requires { (lf < 256) × (seg < 256) }
    ensures { (pos result ≡ lvl_seg true (sub_ℕ seg 128) (base_filter_level level (sub_ℕ lf 128))) × (result < 64) }
{
    clip63(clip63(u32::from(level) + lf, 128) + seg, 128)
}

// base plus the delta sum - offset, twice from 32 on
fn plus_delta(base: u32, sum: u32, offset: u32) -> u32
    requires { (base < 64) × (sum < 512) × (offset ≤ 256) }
    ensures { (pos result ≡ Clip3 (pos 0) (pos 63) (pos base +ℤ shl (sub_ℕ sum offset) (n_shift (pos base)))) × (result < 64) }
{
    if base < 32 {
        return clip63(base + sum, offset);
    }
    clip63(base + 2 * sum, 2 * offset)
}

pub fn mode_ref_level(
    base: u32,
    enabled: u32,
    refs: &[i8; 8],
    modes: &[i8; 2],
    r: usize,
    m: usize,
) -> u32
    requires { (base < 64) × (r < 8) × (m < 2) }
    ensures { (pos result ≡ lvl_delta (on enabled) (delta refs.now) (delta modes.now) r m (pos base)) × (result < 64) }
{
    if enabled == 0 {
        return base;
    }
    let u = biased(refs[r]);
    if r == 0 {
        return plus_delta(base, u, 128);
    }
    let v = biased(modes[m]);
    plus_delta(base, u + v, 256)
}

pub fn lf_of(lf: &[i8; 4], multi: u32, k: usize) -> u32
    requires { k < 4 }
    ensures { (sub_ℕ result 128 ≡ delta lf.now (cond (on multi) k 0)) × (result < 256) }
{
    if multi == 0 {
        return biased(lf[0]);
    }
    biased(lf[k])
}

pub fn seg_of(seg: &[i8; 32], segmentation: u32, c: usize) -> u32
    requires { c < 32 }
    ensures { (sub_ℕ result 128 ≡ cond (on segmentation) (delta seg.now c) (pos 0)) × (result < 256) }
{
    if segmentation == 0 {
        return 128;
    }
    biased(seg[c])
}
