// Names of sizes, as numbers of words.
ghost use Rattle.std.specs.Prelude.{◌≡◌, ◌<◌, eqb, slice_index};
ghost use Rattle.list_script.specs.Names.{first, block_in, tx_in};

const BLOCKS: [u64; 22] = [
    0x01_34_78_34, // 4x4
    0x01_34_78_38, // 4x8
    0x01_38_78_34, // 8x4
    0x01_38_78_38, // 8x8
    0x01_38_78_31_36, // 8x16
    0x01_31_36_78_38, // 16x8
    0x01_31_36_78_31_36, // 16x16
    0x01_31_36_78_33_32, // 16x32
    0x01_33_32_78_31_36, // 32x16
    0x01_33_32_78_33_32, // 32x32
    0x01_33_32_78_36_34, // 32x64
    0x01_36_34_78_33_32, // 64x32
    0x01_36_34_78_36_34, // 64x64
    0x01_36_34_78_31_32_38, // 64x128
    0x01_31_32_38_78_36_34, // 128x64
    0x01_31_32_38_78_31_32_38, // 128x128
    0x01_34_78_31_36, // 4x16
    0x01_31_36_78_34, // 16x4
    0x01_38_78_33_32, // 8x32
    0x01_33_32_78_38, // 32x8
    0x01_31_36_78_36_34, // 16x64
    0x01_36_34_78_31_36, // 64x16
];

const TRANSFORMS: [u64; 19] = [
    0x01_34_78_34, // 4x4
    0x01_38_78_38, // 8x8
    0x01_31_36_78_31_36, // 16x16
    0x01_33_32_78_33_32, // 32x32
    0x01_36_34_78_36_34, // 64x64
    0x01_34_78_38, // 4x8
    0x01_38_78_34, // 8x4
    0x01_38_78_31_36, // 8x16
    0x01_31_36_78_38, // 16x8
    0x01_31_36_78_33_32, // 16x32
    0x01_33_32_78_31_36, // 32x16
    0x01_33_32_78_36_34, // 32x64
    0x01_36_34_78_33_32, // 64x32
    0x01_34_78_31_36, // 4x16
    0x01_31_36_78_34, // 16x4
    0x01_38_78_33_32, // 8x32
    0x01_33_32_78_38, // 32x8
    0x01_31_36_78_36_34, // 16x64
    0x01_36_34_78_31_36, // 64x16
];

// The place of the name w in the table, N for none.
fn code_in<const N: usize>(names: &[u64; N], w: u64) -> u32
    requires { N < 100 }
    ensures { result ≡ first N (λ c. eqb (slice_index names.now c) w) }
{
    names.iter().position(|&name| name == w).unwrap_or(N) as u32
}

pub fn block_code(w: u64) -> u32
    ensures { result ≡ block_in w }
{
    code_in(&BLOCKS, w)
}

pub fn tx_code(w: u64) -> u32
    ensures { result ≡ tx_in w }
{
    code_in(&TRANSFORMS, w)
}
