// A frame of 16x16 blocks: its samples, and its recording.
ghost use Rattle.std.specs.Prelude.{◌<◌, ◌≤◌};

use refusals::Refusal;

// The transform of the block in column bx and row by: 4x4, 8x8 or 16x16, alike on both sides of the superblock boundary.
fn transform(bx: usize, by: usize) -> usize
    requires { (bx < 8) × (by < 8) }
    ensures { result < 3 }
{
    ((bx + 1) / 2 + (by + 1) / 2) % 3
}

fn chroma_transform(bx: usize, by: usize) -> usize
    requires { (bx < 8) × (by < 8) }
    ensures { result < 2 }
{
    if transform(bx, by) == 0 { 0 } else { 1 }
}

// Which transform of its plane the sample at x is in.
fn step(x: usize, tx: usize) -> usize
    requires { x < 128 }
    ensures { result < 128 }
{
    if tx == 0 {
        return x / 4;
    }
    if tx == 1 { x / 8 } else { x / 16 }
}

// Some blocks stand so high that their edges fail the limit test.
fn lift(bx: usize, by: usize) -> usize
    requires { (bx < 8) × (by < 8) }
    ensures { result ≤ 60 }
{
    if (bx * 3 + by) % 11 == 5 { 60 } else { 0 }
}

// Small steps from transform to transform, and a grain of 1.
fn shade(x: usize, y: usize, tx: usize) -> usize
    requires { (x < 128) × (y < 128) }
    ensures { result < 110 }
{
    100 + (step(x, tx) * 3 + step(y, tx) * 5) % 8 + (x * 3 + y * 7) / 5 % 2
}

fn luma_sample(x: usize, y: usize) -> u8
    requires { (x < 128) × (y < 128) }
{
    (shade(x, y, transform(x / 16, y / 16)) + lift(x / 16, y / 16)) as u8
}

fn chroma_sample(x: usize, y: usize) -> u8
    requires { (x < 64) × (y < 64) }
{
    (shade(x, y, chroma_transform(x / 8, y / 8)) + lift(x / 8, y / 8)) as u8
}

pub fn luma() -> [u8; 16384] {
    let mut s = [0u8; 16384];
    for (k, sample) in s.iter_mut().enumerate() {
        *sample = luma_sample(k % 128, k / 128);
    }
    s
}

// Turned, along its diagonal, for V.
fn chroma_at(k: usize, turned: bool) -> u8
    requires { k < 4096 }
{
    if turned {
        return chroma_sample(k / 64, k % 64);
    }
    chroma_sample(k % 64, k / 64)
}

pub fn chroma(turned: bool) -> [u8; 4096] {
    let mut s = [0u8; 4096];
    for (k, sample) in s.iter_mut().enumerate() {
        *sample = chroma_at(k, turned);
    }
    s
}

fn recorded(
    bx: usize,
    by: usize,
    levels: &mut [u8; 4096],
    masks: &mut [u16; 640],
    values: &[u8; 64],
    above: &mut [u8; 32],
    left: &mut [u8; 32],
    above_uv: &mut [u8; 16],
    left_uv: &mut [u8; 16],
) -> Result<(), Refusal>
    requires { (bx < 8) × (by < 8) }
{
    let x = 4 * bx;
    let y = 4 * by;
    let cx = 2 * bx;
    let cy = 2 * by;
    record::record_intra(
        levels,
        32,
        masks,
        values,
        128,
        128,
        420,
        x as u32,
        y as u32,
        6,
        transform(bx, by) as u32,
        &mut above[x..],
        &mut left[y..],
        1,
        chroma_transform(bx, by) as u32,
        &mut above_uv[cx..],
        &mut left_uv[cy..],
    )
}

fn block(
    bx: usize,
    by: usize,
    levels: &mut [u8; 4096],
    masks: &mut [u16; 640],
    above: &mut [u8; 32],
    left: &mut [u8; 32],
    above_uv: &mut [u8; 16],
    left_uv: &mut [u8; 16],
) -> Result<(), Refusal>
    requires { (bx < 8) × (by < 8) }
{
    let mut values = [0u8; 64];
    values[0] = 32;
    values[16] = 28;
    values[32] = 24;
    values[48] = 20;
    recorded(
        bx, by, levels, masks, &values, above, left, above_uv, left_uv,
    )
}

// Up to the first block that is refused.
pub fn record_all(levels: &mut [u8; 4096], masks: &mut [u16; 640]) -> Result<(), Refusal> {
    let mut above = [2u8; 32];
    let mut left = [2u8; 32];
    let mut above_uv = [1u8; 16];
    let mut left_uv = [1u8; 16];
    for n in 0..64 {
        block(
            n % 8,
            n / 8,
            levels,
            masks,
            &mut above,
            &mut left,
            &mut above_uv,
            &mut left_uv,
        )?;
    }
    Ok(())
}
