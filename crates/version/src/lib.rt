// Public: the version of the archive, 10,000 * major + 100 * minor + patch.
#![tactic(auto)]

ghost use Rattle.std.specs.Prelude.{◌≡◌};

const MAJOR: u32 = 0;

const MINOR: u32 = 3;

const PATCH: u32 = 0;

pub fn version() -> u32
    ensures { result ≡ 300 }
{
    10000 * MAJOR + 100 * MINOR + PATCH
}
