// What a call refuses, and the numbers that say so: those of document 01 and of the requests of document 02.
#![tactic(auto)]

ghost use Rattle.std.specs.Prelude.{◌≡◌};
ghost use Rattle.refusals.specs.Numbers.{number_of, answered};
ghost use Rattle.refusals.specs.Promises.{Promises};

// Of several that hold the call gives the one of the lowest number, but Unwritable before Bits.
#[derive(Clone, Copy, Debug, PartialEq, Eq)]
pub enum Refusal {
    // sharpness above 7
    Sharpness,
    // base level above 63, a delta outside its range, or a chroma base level other than 0 at 4:0:0
    Level,
    // depth not 8, 10 or 12
    Depth,
    // layout, frame size or superblock size not as it may be, or a chroma pair given at 4:0:0
    Shape,
    // block size, transform or reference out of its range, place not the block's, or a transform that does not fit the block
    Block,
    // a context with too few bytes, or with a value above its range
    Context,
    // levels or masks too short, or stride below w4
    Length,
    // a level byte above 63
    LevelByte,
    // plane too short, its stride below the stored width, or a sample above the depth's maximum
    Plane,
    // superblock row or tile start outside the frame
    Outside,
    // an edge breaks the gap rule
    Gap,
    // a mask bit outside the frame, or outside the bits its half may hold
    MaskBit,
    // bits run out in reading, or room in writing
    Bits,
    // no bits with the given update choices read back as the writer's values
    Unwritable,
}

impl From<Refusal> for u32 {
    ghost from_gives = { λ r n. n ≡ number_of r };

    fn from(r: Refusal) -> u32 {
        match r {
            Refusal::Sharpness => 1,
            Refusal::Level => 2,
            Refusal::Depth => 3,
            Refusal::Shape => 4,
            Refusal::Block => 5,
            Refusal::Context => 6,
            Refusal::Length => 7,
            Refusal::LevelByte => 8,
            Refusal::Plane => 9,
            Refusal::Outside => 10,
            Refusal::Gap => 11,
            Refusal::MaskBit => 12,
            Refusal::Bits => 23,
            Refusal::Unwritable => 24,
        }
    }
}

// The number that a call for C returns, 0 for what is done.
pub fn answered(r: Result<(), Refusal>) -> u32
    ensures { result ≡ answered r }
{
    match r {
        Ok(()) => 0,
        Err(refusal) => u32::from(refusal),
    }
}

// The theorems of specs/Promises.antt are proved.
pub fn promised()
    ensures { Promises }
{}
