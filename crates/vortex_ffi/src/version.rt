//! The version of the library.
ghost use Rattle.std.specs.Prelude.{◌≡◌, ◌+◌, ◌*◌};

/// The first number of the version, which changes where a caller has to.
pub const MAJOR: u32 = 0;

/// The second number, which changes where something is added.
pub const MINOR: u32 = 3;

/// The third number.
pub const PATCH: u32 = 0;

/// Returns the version, `vortex_version` of the header: the first number times 65,536, the second
/// times 256 and the third.
#[unsafe(no_mangle)]
pub extern "C" fn vortex_version() -> u32
    ensures { result ≡ MAJOR * 65536 + MINOR * 256 + PATCH }
{
    MAJOR * 65_536 + MINOR * 256 + PATCH
}
