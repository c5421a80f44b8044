// The version of the library. include/celestial_time.h has the same numbers for who compiles against it; tests/c and tests/install hold the two together.
ghost use Rattle.std.specs.Prelude.{◌≡◌, pos};
ghost use Rattle.capi.specs.Version.{version};

const MAJOR: i64 = 2;

const MINOR: i64 = 2;

const PATCH: i64 = 0;

#[unsafe(no_mangle)]
pub extern "C" fn ct_version() -> i64
    ensures { result ≡ pos (version 2 2 0) }
{
    MAJOR * 1_000_000 + MINOR * 1_000 + PATCH
}
