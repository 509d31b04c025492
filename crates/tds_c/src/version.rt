//! The version of this library, by which a caller finds that its header is another one's.

ghost use Rattle.std.specs.Prelude.{◌≡◌};

/// The version as one number, as MOUKTELF_VERSION_NUMBER of the header: 10,000 for each major
/// version, 100 for each minor one, and the patch. This is 0.1.0.
#[unsafe(no_mangle)]
pub extern "C" fn mouktelf_version() -> u32
    ensures { result ≡ 100 }
{
    100
}
