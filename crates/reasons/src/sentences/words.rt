// The words of a sentence: the text of its number, and the field's word with its value.
ghost use Rattle.std.specs.Prelude.{◌+◌, ◌≤◌, ◌++◌, length};
ghost use Rattle.numerals.specs.digits.Decimal.{digits_of};
ghost use Rattle.numerals.specs.digits.Placed.{Placed, Placing};
ghost use Rattle.reasons.specs.sentences.Texts.{fixed_text};
ghost use Rattle.reasons.specs.sentences.Render.{signed_digits, float_digits, named_text};

use crate::sentences::{Named, numbers};
use numerals::place::place_bytes;

// The text of a number at the start of a slice. No number past 28 has one.
#[tactic(auto, unfolding(crate::specs::sentences::Texts::fixed_text, crate::specs::sentences::Texts::texts))]
pub(crate) fn text(number: u32, dst: &mut [u8]) -> usize
    ensures { Placing dst.old 0 (fixed_text number) result dst.new }
{
    match number {
        1 => place_bytes(b"year is before -4799, in a bill 1972", dst, 0),
        2 => place_bytes(b"month is not 1 to 12", dst, 0),
        3 => place_bytes(b"day is not in the month", dst, 0),
        4 => place_bytes(b"time is not in the day", dst, 0),
        5 => place_bytes(b"there is no next day", dst, 0),
        6 => place_bytes(b"date is outside the calendar", dst, 0),
        7 => place_bytes(b"fraction is not 0 to 1", dst, 0),
        8 => place_bytes(b"nanoseconds are a second or more", dst, 0),
        9 => place_bytes(b"part or sum of a date is not finite", dst, 0),
        10 => place_bytes(b"offset is not finite", dst, 0),
        11 => place_bytes(b"answer is longer than its buffer", dst, 0),
        12 => place_bytes(b"the two sizes differ", dst, 0),
        13 => place_bytes(b"there are too many stamps", dst, 0),
        14 => place_bytes(b"the number of bytes is wrong", dst, 0),
        15 => place_bytes(b"text is not an ISO 8601 time", dst, 0),
        16 => place_bytes(b"second has more than 13 digits after its point", dst, 0),
        17 => place_bytes(b"date is out of time order", dst, 0),
        18 => place_bytes(b"number or GPS week is out of its range", dst, 0),
        19 => place_bytes(b"two weeks are equally near the reference week", dst, 0),
        20 => place_bytes(b"table sizes differ or are above 16", dst, 0),
        21 => place_bytes(b"table row is not later than the one before it", dst, 0),
        22 => place_bytes(b"table row does not step by one second", dst, 0),
        23 => place_bytes(
            b"passes are unequal, too few, too many or too large",
            dst,
            0,
        ),
        24 => place_bytes(b"passes do not rise in both lists", dst, 0),
        25 => place_bytes(b"tick or reading is outside the passes", dst, 0),
        26 => place_bytes(b"end of the standby is before its start", dst, 0),
        27 => place_bytes(b"number of the bill is over its limit", dst, 0),
        28 => place_bytes(b"both lengths of line are 0", dst, 0),
        _ => 0,
    }
}

// kept: three functions, since each of the three kinds of values is written by a function of its own, and a closure for it would be no plainer.
// A field's word, and a whole number that may be below 0.
fn signed(word: &[u8], n: i32, dst: &mut [u8], at: usize) -> usize
    requires { (length word.now ≤ 14) × (at + 40 ≤ length dst.old) }
    ensures placed { Placed dst.old at (word.now ++ signed_digits n) result dst.new }
    ensures upper_bound { result ≤ at + 35 }
{
    let next = place_bytes(word, dst, at);
    numbers::signed(n, dst, next)
}

// A field's word, and a whole number.
fn whole(word: &[u8], n: u64, dst: &mut [u8], at: usize) -> usize
    requires { (length word.now ≤ 14) × (at + 40 ≤ length dst.old) }
    ensures placed { Placed dst.old at (word.now ++ digits_of n) result dst.new }
    ensures upper_bound { result ≤ at + 35 }
{
    let next = place_bytes(word, dst, at);
    numbers::place_decimal(n, dst, next)
}

// A field's word, and a float by its bits.
fn float(word: &[u8], x: f64, dst: &mut [u8], at: usize) -> usize
    requires { (length word.now ≤ 14) × (at + 40 ≤ length dst.old) }
    ensures placed { Placed dst.old at (word.now ++ float_digits x) result dst.new }
    ensures upper_bound { result ≤ at + 35 }
{
    let next = place_bytes(word, dst, at);
    numbers::hexadecimal(floats::to_bits(x), dst, next)
}

// The word and the value of the field that is named.
#[tactic(auto, unfolding(crate::specs::sentences::Render::named_text))]
pub(crate) fn named(field: Named, dst: &mut [u8], at: usize) -> usize
    requires { at + 40 ≤ length dst.old }
    ensures placed { Placed dst.old at (named_text field) result dst.new }
    ensures upper_bound { result ≤ at + 35 }
{
    match field {
        Named::NoField => at,
        Named::Year(n) => signed(b": year ", n, dst, at),
        Named::Month(n) => signed(b": month ", n, dst, at),
        Named::Day(n) => signed(b": day ", n, dst, at),
        Named::Hour(n) => whole(b": hour ", n as u64, dst, at),
        Named::Minute(n) => whole(b": minute ", n as u64, dst, at),
        Named::Second(x) => float(b": seconds ", x, dst, at),
        Named::Sum(x) => float(b": sum ", x, dst, at),
        Named::Fraction(x) => float(b": fraction ", x, dst, at),
        Named::Nanos(n) => whole(b": nanoseconds ", n as u64, dst, at),
        Named::FirstPart(x) => float(b": jd1 ", x, dst, at),
        Named::SecondPart(x) => float(b": jd2 ", x, dst, at),
        Named::Offset(x) => float(b": offset ", x, dst, at),
        Named::SecondSize(n) => whole(b": second size ", n as u64, dst, at),
        Named::Size(n) => whole(b": size ", n as u64, dst, at),
        Named::WholeLength(n) => whole(b": length ", n, dst, at),
    }
}
