// Planes compared.
ghost use Rattle.std.specs.Prelude.{◌<◌};

use std::io;

// 0 outside.
fn at(s: &[u8], k: usize) -> u8 {
    s.get(k).copied().unwrap_or(0)
}

fn differing(a: &[u8], b: &[u8]) -> usize {
    a.iter().zip(b).filter(|(x, y)| x != y).count()
}

fn first(a: &[u8], b: &[u8]) -> usize {
    a.iter().zip(b).position(|(x, y)| x != y).unwrap_or(a.len())
}

fn mixed(sum: usize, sample: u8) -> usize {
    (sum % 65521 * 31 + usize::from(sample)) % 65521
}

fn checksum(s: &[u8]) -> usize {
    s.iter().fold(0, |sum, &sample| mixed(sum, sample))
}

fn three(rt: &impl Print, luma: usize, u: usize, v: usize) -> io::Result<()> {
    print!(rt; "{luma} {u} {v}")
}

pub fn say_differing(
    rt: &impl Print,
    luma: &[u8; 16384],
    u: &[u8; 4096],
    v: &[u8; 4096],
    luma2: &[u8; 16384],
    u2: &[u8; 4096],
    v2: &[u8; 4096],
) -> io::Result<()> {
    three(
        rt,
        differing(luma, luma2),
        differing(u, u2),
        differing(v, v2),
    )
}

pub fn say_checksums(
    rt: &impl Print,
    luma: &[u8; 16384],
    u: &[u8; 4096],
    v: &[u8; 4096],
) -> io::Result<()> {
    three(rt, checksum(luma), checksum(u), checksum(v))
}

// Where `a` first differs from `b`, and both samples.
pub fn say_first(rt: &impl Print, a: &[u8; 16384], b: &[u8; 16384]) -> io::Result<()> {
    let k = first(a, b);
    print!(rt;
        "line {} column {}: {} against {}",
        k / 128,
        k % 128,
        at(a, k),
        at(b, k)
    )
}

// Line n - 1 has a sample that differs.
fn wrong(a: &[u8; 16384], b: &[u8; 16384], n: usize) -> bool {
    if n == 0 || 128 < n {
        return false;
    }
    let from = 128 * (n - 1);
    let to = 128 * n;
    a[from..to] != b[from..to]
}

fn say_ends(rt: &impl Print, a: &[u8; 16384], b: &[u8; 16384], line: usize) -> io::Result<()>
    requires { line < 128 }
{
    if !wrong(a, b, line + 1) {
        return Ok(());
    }
    if !wrong(a, b, line) {
        print!(rt; " {line}")?;
    }
    if !wrong(a, b, line + 2) {
        print!(rt; "-{line}")?;
    }
    Ok(())
}

// The lines with samples that differ.
pub fn say_lines(rt: &impl Print, a: &[u8; 16384], b: &[u8; 16384]) -> io::Result<()> {
    for line in 0..128 {
        say_ends(rt, a, b, line)?;
    }
    Ok(())
}

// Lines 57 to 70 of column 0.
pub fn say_column(rt: &impl Print, s: &[u8; 16384]) -> io::Result<()> {
    for line in s.chunks_exact(128).skip(57).take(14) {
        print!(rt; " {}", at(line, 0))?;
    }
    Ok(())
}
