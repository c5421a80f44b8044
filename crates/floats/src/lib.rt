// Roundings to a whole number, casts and tests by a float's bits.
// Each takes every f64. A NaN has no pattern here (there is one NaN), so what reads the bits asks for it first, by `x != x`.
// kept: std's abs, trunc, floor, ceil and round have the same values, but without shifts and masks: 12 machine instructions for 7, and 45 to 52 for 19 to 32.
#![tactic(auto)]

ghost use Rattle.std.specs.Prelude.{◌≡◌, from_bits, to_bits};
ghost use Rattle.std.specs.Float.{binary64};
ghost use Rattle.std.specs.Float.Ieee.{to_signed, lt, le};
ghost use Rattle.std.specs.Float.Ieee.Scale.{finite};
ghost use Rattle.floats.specs.Whole.{abs, to_whole, cut, downward, upward, away, nearest_int};
ghost use Rattle.floats.specs.NearestWhole.{nearest_whole};
ghost use Rattle.floats.specs.Size.{size};

// The exponent's fields of 0.5 and of 1.0.
const HALF: u64 = 1022;

const ONE: u64 = 1023;

// The exponent's field of 2^52. A float with this field or a higher one has no digit below the unit; one with a lower field e, from 1.0 on,
// has ALL_WHOLE - e of them.
const ALL_WHOLE: u64 = 1075;

const TWO_52: f64 = 4503599627370496.0;

// A whole number as a float and as an integer.
#[derive(Clone, Copy)]
pub struct NearestWhole {
    pub value: f64,
    pub number: i64,
}

// |x|
pub fn fabs(x: f64) -> f64
    ensures { result ≡ abs x }
{
    if x != x {
        return x;
    }
    f64::from_bits(f64::to_bits(x) & 0x7fff_ffff_ffff_ffff)
}

// |x| but for the sign of a zero, in one comparison.
#[tactic(auto, unfolding(crate::specs::Size::size))]
fn size_of(x: f64) -> f64
    ensures { result ≡ size x }
{
    let y = -x;
    if x > y { x } else { y }
}

// Whether |x| >= |y|. No comparison sees the sign of a zero.
#[tactic(auto, using(crate::proofs::Sizes::in_size))]
pub fn at_least_in_size(x: f64, y: f64) -> bool
    ensures { result ≡ le (abs y) (abs x) }
{
    size_of(x) >= size_of(y)
}

// Whether |x| > |y|.
#[tactic(auto, using(crate::proofs::Sizes::in_size_larger))]
pub fn larger_in_size(x: f64, y: f64) -> bool
    ensures { result ≡ lt (abs y) (abs x) }
{
    size_of(x) > size_of(y)
}

// x toward zero to a whole number.
pub fn trunc(x: f64) -> f64
    ensures { result ≡ to_whole cut x }
{
    if x != x {
        return x;
    }
    let b = f64::to_bits(x);
    let e = (b >> 52) & 0x7ff;
    if e >= ALL_WHOLE {
        x
    } else if e < ONE {
        f64::from_bits(b & 0x8000_0000_0000_0000)
    } else {
        let k = ALL_WHOLE - e;
        f64::from_bits((b >> k) << k)
    }
}

// x down to a whole number.
pub fn floor(x: f64) -> f64
    ensures { result ≡ to_whole downward x }
{
    let t = trunc(x);
    if x < t { t - 1.0 } else { t }
}

// x up to a whole number.
#[tactic(auto, using(crate::proofs::Below::turned))]
pub fn ceil(x: f64) -> f64
    ensures { result ≡ to_whole upward x }
{
    -floor(-x)
}

// x to the nearest whole number, a half going away from zero.
pub fn round(x: f64) -> f64
    ensures { result ≡ to_whole away x }
{
    if x != x {
        return x;
    }
    let b = f64::to_bits(x);
    let e = (b >> 52) & 0x7ff;
    if e >= ALL_WHOLE {
        x
    } else if e < HALF {
        f64::from_bits(b & 0x8000_0000_0000_0000)
    } else if e < ONE {
        if b < 0x8000_0000_0000_0000 { 1.0 } else { -1.0 }
    } else {
        // Half a unit is added; where it carries out of the digits, it adds one to the exponent, and that is the right value.
        let k = ALL_WHOLE - e;
        f64::from_bits(((b + (1 << (k - 1))) >> k) << k)
    }
}

// The Rust's nearest_int, in its order of operations.
#[tactic(auto, using(crate::proofs::Cases::literals), unfolding(crate::specs::Whole::nearest_int))]
pub fn nearest_int(a: f64) -> f64
    ensures { result ≡ nearest_int a }
{
    if fabs(a) < 0.5 {
        0.0
    } else if a < 0.0 {
        ceil(a - 0.5)
    } else {
        floor(a + 0.5)
    }
}

// The Rust's nearest_int with its `as i64`. A part of a date is mostly between -0.5 and 2^52. From 0.5 on, the sum of a + 0.5 and 2^52 has no digit below the
// unit: with 2^52 taken off again a whole number next to a + 0.5 is left, and where that is above it, the one before is the floor.
#[tactic(auto, unfolding(crate::specs::NearestWhole::nearest_whole))]
pub fn nearest_whole(a: f64) -> NearestWhole
    ensures { result ≡ nearest_whole a }
{
    if a >= 0.5 {
        let t = a + 0.5;
        if t < TWO_52 {
            let beside = (t + TWO_52) - TWO_52;
            if beside > t {
                let before = beside - 1.0;
                return NearestWhole {
                    value: before,
                    number: before as i64,
                };
            }
            return NearestWhole {
                value: beside,
                number: beside as i64,
            };
        }
    } else if a > -0.5 {
        return NearestWhole {
            value: 0.0,
            number: 0,
        };
    }
    let value = nearest_int(a);
    NearestWhole {
        value: value,
        number: saturating_i64(value),
    }
}

// Whether x is neither an infinity nor a NaN, whose difference from itself is a NaN.
// kept: std's own method has this body and no other code, but over it must-fail/nothing_finite would be open: it is shown with the difference written here.
pub fn is_finite(x: f64) -> bool
    ensures { result ≡ finite x }
{
    x - x == 0.0
}

// Rust's `x as i64`: toward zero, to the nearest end of the range where x is outside it, and 0 for a NaN.
pub fn saturating_i64(x: f64) -> i64
    ensures { result ≡ to_signed 63 x }
{
    std::num::saturating_f64_to_i64(x)
}

// The float of a bit pattern; a NaN for every NaN's pattern.
pub fn from_bits(n: u64) -> f64
    ensures { result ≡ from_bits binary64 n }
{
    std::num::f64_from_bits_with_nan(n)
}

// The bit pattern of a float; 7ff8000000000000 for a NaN.
pub fn to_bits(x: f64) -> u64
    ensures { result ≡ to_bits binary64 x }
{
    std::num::f64_to_bits_with_nan(x)
}
