// The functions of `floats` for C, with the same contracts: tests/floats compares them with the C library.
#![tactic(auto)]

ghost use Rattle.std.specs.Prelude.{◌≡◌};
ghost use Rattle.std.specs.Float.{binary64};
ghost use Rattle.std.specs.Float.Ieee.{of_bits, to_bits, to_signed};
ghost use Rattle.std.specs.Float.Ieee.Scale.{finite};
ghost use Rattle.floats.specs.Whole.{abs, to_whole, cut, downward, upward, away, nearest_int};

#[unsafe(no_mangle)]
pub extern "C" fn ct_fabs(x: f64) -> f64
    ensures { result ≡ abs x }
{
    floats::fabs(x)
}

#[unsafe(no_mangle)]
pub extern "C" fn ct_trunc(x: f64) -> f64
    ensures { result ≡ to_whole cut x }
{
    floats::trunc(x)
}

#[unsafe(no_mangle)]
pub extern "C" fn ct_floor(x: f64) -> f64
    ensures { result ≡ to_whole downward x }
{
    floats::floor(x)
}

#[unsafe(no_mangle)]
pub extern "C" fn ct_ceil(x: f64) -> f64
    ensures { result ≡ to_whole upward x }
{
    floats::ceil(x)
}

#[unsafe(no_mangle)]
pub extern "C" fn ct_round(x: f64) -> f64
    ensures { result ≡ to_whole away x }
{
    floats::round(x)
}

#[unsafe(no_mangle)]
pub extern "C" fn ct_nearest_int(a: f64) -> f64
    ensures { result ≡ nearest_int a }
{
    floats::nearest_int(a)
}

#[unsafe(no_mangle)]
pub extern "C" fn ct_is_finite(x: f64) -> bool
    ensures { result ≡ finite x }
{
    floats::is_finite(x)
}

#[unsafe(no_mangle)]
pub extern "C" fn ct_saturating_i64(x: f64) -> i64
    ensures { result ≡ to_signed 63 x }
{
    floats::saturating_i64(x)
}

#[unsafe(no_mangle)]
pub extern "C" fn ct_from_bits(n: u64) -> f64
    ensures { result ≡ of_bits binary64 n }
{
    floats::from_bits(n)
}

#[unsafe(no_mangle)]
pub extern "C" fn ct_to_bits(x: f64) -> u64
    ensures { result ≡ to_bits binary64 x }
{
    floats::to_bits(x)
}
