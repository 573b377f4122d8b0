// The narrow filter of one line, 7.14.6.3. The standard's signed values are kept as unsigned ones with an offset: a filter value as its
// sum with 8 * half, an eighth of one as its sum with half.
#![tactic(auto)]

ghost use Rattle.std.specs.Prelude.{◌≡◌, ◌+◌, ◌*◌, ◌<◌, ◌≤◌, IfSome, true, false};
ghost use Rattle.std.proofs.Math.IntN.{sub_ℕ};
ghost use Rattle.standard.specs.Narrow.{filter4_clamp, base_filter, filter12, moved, narrow};
ghost use Rattle.line.specs.Place.{of, make};
ghost use Rattle.narrow.specs.Ranges.{Half, Inner};

use line::LineSamples;

fn clamp(half: u32, v: u32) -> u32
    requires { Half half }
    ensures { (sub_ℕ result (8 * half) ≡ filter4_clamp half (sub_ℕ v (8 * half))) × (7 * half ≤ result) × (result < 9 * half) }
{
    v.clamp(7 * half, 9 * half - 1)
}

fn base_filter(half: u32, hev: bool, l: LineSamples) -> u32
    requires { Inner half l }
    ensures { (sub_ℕ result (8 * half) ≡ base_filter half hev (of l)) × (7 * half ≤ result) × (result < 9 * half) }
{
    let p0 = l.p0 as u32;
    let q0 = l.q0 as u32;
    if hev {
        let c = clamp(half, 8 * half + l.p1 as u32 - l.q1 as u32);
        return clamp(half, c + 3 * q0 - 3 * p0);
    }
    clamp(half, 8 * half + 3 * q0 - 3 * p0)
}

fn eighth(half: u32, f: u32, k: u32) -> u32
    requires { Half half × (7 * half ≤ f) × (f < 9 * half) × (k ≤ 4) }
    ensures { (sub_ℕ result half ≡ filter12 half k (sub_ℕ f (8 * half))) × (result < 2 * half) }
{
    clamp(half, f + k) / 8
}

// The sample s moved by a - b.
fn move_by(half: u32, s: u16, a: u32, b: u32) -> u16
    requires { Half half × (s < 2 * half) × (a ≤ 8192) × (b ≤ 8192) }
    ensures { result ≡ moved half s (sub_ℕ a b) }
{
    let up = s as u32 + a;
    let x = up.wrapping_sub(b);
    if x < 2 * half {
        return x as u16;
    }
    if up < b { 0 } else { (2 * half - 1) as u16 }
}

pub fn narrow4(half: u32, hev: bool, l: LineSamples) -> LineSamples
    requires { Inner half l }
    ensures { result ≡ make (narrow half hev (of l)) }
{
    let f = base_filter(half, hev, l);
    let f1 = eighth(half, f, 4);
    let f2 = eighth(half, f, 3);
    let inner = LineSamples {
        p0: move_by(half, l.p0, f2, half),
        q0: move_by(half, l.q0, half, f1),
        ..l
    };
    if hev {
        return inner;
    }
    let f3 = (f1 + 1 + half) / 2;
    LineSamples {
        p1: move_by(half, l.p1, f3, half),
        q1: move_by(half, l.q1, half, f3),
        ..inner
    }
}

// Whether neither v nor the sums of filter1 and filter2 with it leave the clamp's range.
fn unclamped(half: u32, v: u32) -> bool
    requires { Half half × (v ≤ 65536) }
    ensures { result ≡ true → (7 * half ≤ v) × (v + 4 < 9 * half) }
{
    7 * half <= v && v + 4 < 9 * half
}

// The line after the narrow filter with high variance, where no step clamps.
pub fn plain2(half: u32, l: LineSamples) -> Option<LineSamples>
    requires { Inner half l }
    ensures { IfSome result (λ r. r ≡ make (narrow half true (of l))) }
{
    let c = 8 * half + l.p1 as u32 - l.q1 as u32;
    if !unclamped(half, c) {
        return None;
    }
    let v = c + 3 * l.q0 as u32 - 3 * l.p0 as u32;
    if !unclamped(half, v) {
        return None;
    }
    let p0 = (l.p0 as u32 + (v + 3) / 8).wrapping_sub(half);
    if p0 >= 2 * half {
        return None;
    }
    let q0 = (l.q0 as u32 + half).wrapping_sub((v + 4) / 8);
    if q0 >= 2 * half {
        return None;
    }
    Some(LineSamples {
        p0: p0 as u16,
        q0: q0 as u16,
        ..l
    })
}

// Without it: p0 and q0 stay in range by themselves.
pub fn plain4(half: u32, l: LineSamples) -> Option<LineSamples>
    requires { Inner half l }
    ensures { IfSome result (λ r. r ≡ make (narrow half false (of l))) }
{
    let v = 8 * half + 3 * l.q0 as u32 - 3 * l.p0 as u32;
    if !unclamped(half, v) {
        return None;
    }
    let g1 = (v + 4) / 8;
    let g3 = (g1 + 1 + half) / 2;
    let p1 = (l.p1 as u32 + g3).wrapping_sub(half);
    if p1 >= 2 * half {
        return None;
    }
    let q1 = (l.q1 as u32 + half).wrapping_sub(g3);
    if q1 >= 2 * half {
        return None;
    }
    Some(LineSamples {
        p1: p1 as u16,
        p0: (l.p0 as u32 + (v + 3) / 8 - half) as u16,
        q0: (l.q0 as u32 + half - g1) as u16,
        q1: q1 as u16,
        ..l
    })
}
