// The wide filters of one line, 7.14.6.4. The standard's position i is place 8 + i, and its tap j is tap n + j.
#![tactic(auto)]

ghost use Rattle.std.specs.Prelude.{◌≡◌, ℕ, ◌+◌, ◌-◌, ◌*◌, ◌^◌, ◌<◌, ◌≤◌, pos, nat_abs, get_or};
ghost use Rattle.standard.specs.Math.{Round2, clip, sum_to};
ghost use Rattle.standard.specs.Wide.{tap, wide_at};
ghost use Rattle.line.specs.Place.{of};
ghost use Rattle.line.specs.Width.{Same};

use line::LineSamples;

// The weight of tap j.
fn tap(n: usize, n2: usize, j: usize) -> u32
    ensures { result ≡ tap n n2 j }
{
    if n.abs_diff(j) <= n2 { 2 } else { 1 }
}

// The place of the sample that tap j takes for the output at place k.
fn position(n: usize, k: usize, j: usize) -> usize
    requires { (n ≤ 6) × (k < 64) × (j < 64) }
    ensures { result ≡ clip (8 - (n + 1)) (8 + n) (k + j - n) }
{
    let least = 8 - (n + 1);
    let most = 8 + n;
    (k + j).clamp(least + n, most + n) - n
}

// No width has a sample at place 0.
fn places(l: LineSamples) -> [u16; 15]
    ensures { Same 7 (λ k. get_or result k 0) (of l) }
{
    [
        0, l.p6, l.p5, l.p4, l.p3, l.p2, l.p1, l.p0, l.q0, l.q1, l.q2, l.q3, l.q4, l.q5, l.q6,
    ]
}

// Output i is at place 8 - n + i. Its tap j takes the sample at i + j here.
fn clipped(n: usize, x: [u16; 15]) -> [u32; 24]
    requires { n ≤ 6 }
    ensures { (i : ℕ) → i < 4 * n → (get_or result i 0 ≡ get_or x (clip (8 - (n + 1)) (8 + n) (8 - n + i - n)) 0) × (get_or result i 0 < 65536) }
{
    let mut y = [0u32; 24];
    for i in 0..4 * n {
        y[i] = x[position(n, 8 - n, i)] as u32;
    }
    y
}

fn sum(n: usize, n2: usize, y: &[u32; 24], i: usize) -> u32
    requires { (i + 2 * n < 24) × ((j : ℕ) → j ≤ 2 * n → get_or y.now (i + j) 0 < 65536) }
    ensures { result ≡ sum_to (λ j. tap n n2 j * get_or y.now (i + j) 0) (2 * n + 1) }
{
    let mut t = 0u32;
    for j in 0..2 * n + 1 {
        t += tap(n, n2, j) * y[i + j];
    }
    t
}

fn round2(x: u32, n: u32) -> u32
    requires { (1 ≤ n) × (n ≤ 4) × (x ≤ 2 ^ n * 65535) }
    ensures { (result ≡ nat_abs (Round2 (pos x) n)) × (result < 65536) }
{
    (x + (1 << (n - 1))) >> n
}

// The outputs at the places 8 - n to 7 + n.
pub fn wide(n: usize, n2: usize, log2: u32, l: LineSamples) -> [u16; 12]
    requires { (n ≤ 6) × (1 ≤ log2) × (log2 ≤ 4) × (sum_to (tap n n2) (2 * n + 1) ≡ 2 ^ log2) }
    ensures { (i : ℕ) → i < 2 * n → get_or result i 0 ≡ wide_at n n2 log2 (of l) (8 - n + i) }
{
    let y = clipped(n, places(l));
    let mut f = [0u16; 12];
    for i in 0..2 * n {
        f[i] = round2(sum(n, n2, &y, i), log2) as u16;
    }
    f
}
