// Block and transform sizes by the standard's codes, in units, and the class of a transform's side.
ghost use Rattle.std.specs.Prelude.{◌≡◌, ◌<◌};
ghost use Rattle.standard.specs.Sizes.{Num_4x4_Blocks_Wide, Num_4x4_Blocks_High, Tx_Wide, Tx_High, Split_Tx_Size, Max_Tx_Size_Rect};
ghost use Rattle.units.specs.Sizes.{luma_class, chroma_class};

use crate::{ChromaUnit, LumaUnit};

const BLOCK_WIDE: [u8; 22] = [
    1, // 4x4
    1, // 4x8
    2, // 8x4
    2, // 8x8
    2, // 8x16
    4, // 16x8
    4, // 16x16
    4, // 16x32
    8, // 32x16
    8, // 32x32
    8, // 32x64
    16, // 64x32
    16, // 64x64
    16, // 64x128
    32, // 128x64
    32, // 128x128
    1, // 4x16
    4, // 16x4
    2, // 8x32
    8, // 32x8
    4, // 16x64
    16, // 64x16
];

const BLOCK_HIGH: [u8; 22] = [
    1, // 4x4
    2, // 4x8
    1, // 8x4
    2, // 8x8
    4, // 8x16
    2, // 16x8
    4, // 16x16
    8, // 16x32
    4, // 32x16
    8, // 32x32
    16, // 32x64
    8, // 64x32
    16, // 64x64
    32, // 64x128
    16, // 128x64
    32, // 128x128
    4, // 4x16
    1, // 16x4
    8, // 8x32
    2, // 32x8
    16, // 16x64
    4, // 64x16
];

const MAX_TX_RECT: [u8; 22] = [
    0, // 4x4
    5, // 4x8
    6, // 8x4
    1, // 8x8
    7, // 8x16
    8, // 16x8
    2, // 16x16
    9, // 16x32
    10, // 32x16
    3, // 32x32
    11, // 32x64
    12, // 64x32
    4, // 64x64
    4, // 64x128
    4, // 128x64
    4, // 128x128
    13, // 4x16
    14, // 16x4
    15, // 8x32
    16, // 32x8
    17, // 16x64
    18, // 64x16
];

const TX_WIDE: [u8; 19] = [
    1, // 4x4
    2, // 8x8
    4, // 16x16
    8, // 32x32
    16, // 64x64
    1, // 4x8
    2, // 8x4
    2, // 8x16
    4, // 16x8
    4, // 16x32
    8, // 32x16
    8, // 32x64
    16, // 64x32
    1, // 4x16
    4, // 16x4
    2, // 8x32
    8, // 32x8
    4, // 16x64
    16, // 64x16
];

const TX_HIGH: [u8; 19] = [
    1, // 4x4
    2, // 8x8
    4, // 16x16
    8, // 32x32
    16, // 64x64
    2, // 4x8
    1, // 8x4
    4, // 8x16
    2, // 16x8
    8, // 16x32
    4, // 32x16
    16, // 32x64
    8, // 64x32
    4, // 4x16
    1, // 16x4
    8, // 8x32
    2, // 32x8
    16, // 16x64
    4, // 64x16
];

const TX_SPLIT: [u8; 19] = [
    0, // 4x4
    0, // 8x8
    1, // 16x16
    2, // 32x32
    3, // 64x64
    0, // 4x8
    0, // 8x4
    1, // 8x16
    1, // 16x8
    2, // 16x32
    2, // 32x16
    3, // 32x64
    3, // 64x32
    5, // 4x16
    6, // 16x4
    7, // 8x32
    8, // 32x8
    9, // 16x64
    10, // 64x16
];

#[tactic(auto, unfolding(standard::specs::Sizes::Num_4x4_Blocks_Wide))]
pub fn block_wide(code: usize) -> LumaUnit
    requires { code < 22 }
    ensures { result.0 ≡ Num_4x4_Blocks_Wide code }
{
    LumaUnit::from(BLOCK_WIDE[code])
}

#[tactic(auto, unfolding(standard::specs::Sizes::Num_4x4_Blocks_High))]
pub fn block_high(code: usize) -> LumaUnit
    requires { code < 22 }
    ensures { result.0 ≡ Num_4x4_Blocks_High code }
{
    LumaUnit::from(BLOCK_HIGH[code])
}

// The largest transform of a block.
#[tactic(auto, unfolding(standard::specs::Sizes::Max_Tx_Size_Rect))]
pub fn max_tx_rect(code: usize) -> usize
    requires { code < 22 }
    ensures { result ≡ Max_Tx_Size_Rect code }
{
    usize::from(MAX_TX_RECT[code])
}

// A transform's sides are in units of its own plane.
#[tactic(auto, unfolding(standard::specs::Sizes::Tx_Wide))]
pub fn tx_wide<U: From<u8>>(code: usize) -> U
    requires { code < 19 }
    ensures { U.from_gives (Tx_Wide code) result }
{
    U::from(TX_WIDE[code])
}

#[tactic(auto, unfolding(standard::specs::Sizes::Tx_High))]
pub fn tx_high<U: From<u8>>(code: usize) -> U
    requires { code < 19 }
    ensures { U.from_gives (Tx_High code) result }
{
    U::from(TX_HIGH[code])
}

// The Rust's `sub`.
#[tactic(auto, unfolding(standard::specs::Sizes::Split_Tx_Size))]
pub fn tx_split(code: usize) -> usize
    requires { code < 19 }
    ensures { result ≡ Split_Tx_Size code }
{
    usize::from(TX_SPLIT[code])
}

#[tactic(auto, unfolding(crate::specs::Sizes::log2))]
pub fn luma_class(side: LumaUnit) -> u8
    ensures { result ≡ luma_class side.0 }
{
    if side.0 < 2 {
        return 0;
    }
    if side.0 < 4 {
        return 1;
    }
    2
}

pub fn chroma_class(side: ChromaUnit) -> u8
    ensures { result ≡ chroma_class side.0 }
{
    if 1 < side.0 { 1 } else { 0 }
}
