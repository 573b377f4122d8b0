// The fields of 5.9.11, counted, and laid one after another.
#![tactic(auto)]

ghost use Rattle.std.specs.Prelude.{List, ◌++◌, ◌≡◌, ℕ, ◌+◌, ◌*◌, ◌<◌, ◌≤◌, ℤ, length, get_or};
ghost use Rattle.bit_place.specs.Place.{digits, laid};
ghost use Rattle.params_lay.specs.Print.{switch_digits, deltas_digits, printed, OneBits};

use bit_place::{put, seven};
use params_read::chroma_bits;
use standard::Params;

fn delta_bits(update: &[u8], n: usize) -> usize
    requires { (n ≤ 8) × (n ≤ length update.now) × ((i : ℕ) → i < n → get_or update.now i 0 < 2) }
    ensures { ((ds : List ℤ) → result ≡ length (deltas_digits update.now ds n)) × (result ≤ 8 * n) }
{
    let mut k = 0;
    for &u in &update[..n] {
        k = k + 1 + 7 * usize::from(u);
    }
    k
}

pub fn count(planes: u32, p: Params) -> usize
    requires { OneBits p }
    ensures { (result ≡ length (printed planes p)) × (result ≤ 200) }
{
    let u = usize::from(p.delta_update);
    let fields = 16
        + 2 * chroma_bits(planes, p.level[0], p.level[1])
        + usize::from(p.delta_enabled);
    fields + delta_bits(&p.update_ref, 8 * u) + delta_bits(&p.update_mode, 2 * u)
}

fn lay_levels(bytes: &mut [u8], at: usize, n: usize, level: [u8; 4])
    requires { (n ≤ 6) × (at + (12 + 2 * n) ≤ 8 * length bytes.old) }
    ensures { bytes.new ≡ laid (digits 6 (get_or level 0 0) ++ digits 6 (get_or level 1 0) ++ digits n (get_or level 2 0) ++ digits n (get_or level 3 0)) at bytes.old }
{
    put(bytes, at, 0, 6, level[0]);
    put(bytes, at, 6, 6, level[1]);
    put(bytes, at, 12, n, level[2]);
    put(bytes, at, 12 + n, n, level[3]);
}

fn lay_switches(bytes: &mut [u8], at: usize, k: usize, sharpness: u8, enabled: u8, update: u8)
    requires { (k ≤ 24) × (enabled < 2) × (at + k + (4 + enabled) ≤ 8 * length bytes.old) }
    ensures { bytes.new ≡ laid (switch_digits sharpness enabled update) (at + k) bytes.old }
{
    put(bytes, at, k, 3, sharpness);
    put(bytes, at, k + 3, 1, enabled);
    put(bytes, at, k + 4, usize::from(enabled), update);
}

fn lay_deltas(
    bytes: &mut [u8],
    at: usize,
    from: usize,
    n: usize,
    update: &[u8],
    deltas: &[i8],
) -> usize
    requires { (from ≤ 110) × (n ≤ 8) × (n ≤ length update.now) × (n ≤ length deltas.now) × ((i : ℕ) → i < n → get_or update.now i 0 < 2)
        × (at + from + length (deltas_digits update.now deltas.now n) ≤ 8 * length bytes.old) }
    ensures { (result ≡ from + length (deltas_digits update.now deltas.now n))
        × (bytes.new ≡ laid (deltas_digits update.now deltas.now n) (at + from) bytes.old) }
{
    let mut k = from;
    for (&u, &d) in update[..n].iter().zip(&deltas[..n]) {
        let bits = 7 * usize::from(u);
        put(bytes, at, k, 1, u);
        put(bytes, at, k + 1, bits, seven(d));
        k = k + 1 + bits;
    }
    k
}

pub fn lay(bytes: &mut [u8], at: usize, planes: u32, p: Params)
    requires { OneBits p × (at + length (printed planes p) ≤ 8 * length bytes.old) }
    ensures { bytes.new ≡ laid (printed planes p) at bytes.old }
{
    let n = chroma_bits(planes, p.level[0], p.level[1]);
    let k = 12 + 2 * n;
    let u = usize::from(p.delta_update);
    lay_levels(bytes, at, n, p.level);
    lay_switches(bytes, at, k, p.sharpness, p.delta_enabled, p.delta_update);
    let d = k + 4 + usize::from(p.delta_enabled);
    let m = lay_deltas(bytes, at, d, 8 * u, &p.update_ref, &p.ref_delta);
    lay_deltas(bytes, at, m, 2 * u, &p.update_mode, &p.mode_delta);
}
