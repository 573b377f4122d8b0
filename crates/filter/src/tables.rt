// What planes are filtered by.
ghost use Rattle.std.specs.Prelude.{ℕ, ◌^◌, ◌<◌, slice_index};

// The depth, the level bytes, the masks, and the limit table's e and i.
#[derive(Clone, Copy)]
pub struct Tables<'a> {
    pub depth: u32,
    pub levels: &'a [u8],
    pub masks: &'a [u16],
    pub e: &'a [u8; 64],
    pub i: &'a [u8; 64],
    ghost words: { (k : ℕ) → slice_index masks.now k < 2 ^ 16 },
}
