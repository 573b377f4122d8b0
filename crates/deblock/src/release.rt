// The version of the archive.
ghost use Rattle.std.specs.Prelude.{◌≡◌};

#[unsafe(no_mangle)]
pub extern "C" fn deblock_version() -> u32
    ensures { result ≡ 300 }
{
    version::version()
}
