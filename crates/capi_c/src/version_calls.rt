// The version of the library. include/celestial_time.h has the same numbers for who compiles against it; tests/c and tests/install hold the two together.
ghost use Rattle.std.specs.Prelude.{◌≡◌, pos};
ghost use Rattle.capi.specs.Version.{version};

#[unsafe(no_mangle)]
pub extern "C" fn ct_version() -> i64
    ensures { result ≡ pos (version 2 2 0) }
{
    capi::version_calls::ct_version()
}
