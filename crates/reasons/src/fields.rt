// Which field is at fault, by the number and its test.
ghost use Rattle.std.specs.Prelude.{◌≡◌, eqb};
ghost use Rattle.reasons.specs.Offending.{only_if, year_field, month_field, day_field, date_field, time_field, sum_field, part_field, parts_field};
ghost use Rattle.reasons.specs.Offending.{float_field, nanos_field, block_field};

use crate::sentences::Named;

#[tactic(auto, unfolding(crate::specs::Offending::year_field))]
fn year_field(year: i32) -> Named
    ensures { result ≡ year_field year }
{
    if year < -4799 {
        return Named::Year(year);
    }
    Named::NoField
}

#[tactic(auto, unfolding(crate::specs::Offending::month_field))]
fn month_field(month: i32) -> Named
    ensures { result ≡ month_field month }
{
    if month < 1 {
        return Named::Month(month);
    }
    if month > 12 {
        return Named::Month(month);
    }
    Named::NoField
}

#[tactic(auto, unfolding(crate::specs::Offending::day_field))]
fn day_field(year: i32, month: i32, day: i32) -> Named
    ensures { result ≡ day_field year month day }
{
    if day < 1 {
        return Named::Day(day);
    }
    if calendar::days_in_month(year, month) < day as u32 {
        return Named::Day(day);
    }
    Named::NoField
}

#[tactic(auto, unfolding(crate::specs::Offending::date_field))]
pub(crate) fn date_field(number: u32, year: i32, month: i32, day: i32) -> Named
    ensures { result ≡ date_field number year month day }
{
    if number == 1 {
        return year_field(year);
    }
    if number == 2 {
        return month_field(month);
    }
    if number == 3 {
        return day_field(year, month, day);
    }
    Named::NoField
}

// The first of hour, minute and second that is wrong.
#[tactic(auto, unfolding(crate::specs::Offending::time_field, julian::specs::DayFraction::day_fraction, refusals::specs::Outcome::outcome))]
fn first_wrong(hour: u8, minute: u8, second: f64, leap: f64) -> Named
    ensures { result ≡ time_field hour minute second leap }
{
    if hour > 23 {
        return Named::Hour(hour);
    }
    if minute > 59 {
        return Named::Minute(minute);
    }
    if julian::day_fraction(hour, minute, second, leap).is_err() {
        return Named::Second(second);
    }
    Named::NoField
}

pub(crate) fn time_field(number: u32, hour: u8, minute: u8, second: f64, leap: f64) -> Named
    ensures { result ≡ only_if (eqb number 4) (time_field hour minute second leap) }
{
    if number == 4 {
        return first_wrong(hour, minute, second, leap);
    }
    Named::NoField
}

fn sum_field(jd1: f64, jd2: f64) -> Named
    ensures { result ≡ sum_field jd1 jd2 }
{
    let sum = jd1 + jd2;
    if sum >= -68569.5 && sum <= 1e9 {
        return Named::NoField;
    }
    Named::Sum(sum)
}

// The first part that is not finite.
#[tactic(auto, unfolding(crate::specs::Offending::part_field))]
fn part_field(jd1: f64, jd2: f64) -> Named
    ensures { result ≡ part_field jd1 jd2 }
{
    if !floats::is_finite(jd1) {
        return Named::FirstPart(jd1);
    }
    if !floats::is_finite(jd2) {
        return Named::SecondPart(jd2);
    }
    Named::NoField
}

#[tactic(auto, unfolding(crate::specs::Offending::parts_field))]
pub(crate) fn parts_field(number: u32, jd1: f64, jd2: f64) -> Named
    ensures { result ≡ parts_field number jd1 jd2 }
{
    if number == 6 {
        return sum_field(jd1, jd2);
    }
    if number == 9 {
        return part_field(jd1, jd2);
    }
    Named::NoField
}

#[tactic(auto, unfolding(crate::specs::Offending::float_field, leap_table::specs::offsets::Offset::in_day))]
pub(crate) fn float_field(number: u32, x: f64) -> Named
    ensures { result ≡ float_field number x }
{
    if number == 7 {
        if 0.0 <= x && x <= 1.0 {
            return Named::NoField;
        }
        return Named::Fraction(x);
    }
    if number == 10 {
        if !floats::is_finite(x) {
            return Named::Offset(x);
        }
    }
    Named::NoField
}

#[tactic(auto, unfolding(crate::specs::Offending::nanos_field))]
pub(crate) fn nanos_field(number: u32, n: u32) -> Named
    ensures { result ≡ only_if (eqb number 8) (nanos_field n) }
{
    if number == 8 {
        if n >= 1000000000 {
            return Named::Nanos(n);
        }
    }
    Named::NoField
}

// Of a block: 12 the second size, 13 the size, 14 the whole length.
#[tactic(auto, unfolding(crate::specs::Offending::block_field))]
pub(crate) fn block_field(number: u32, length: u64, size: u32, second: u32) -> Named
    ensures { result ≡ block_field number length size second }
{
    if number == 12 {
        if size != second {
            return Named::SecondSize(second);
        }
        return Named::NoField;
    }
    if number == 13 {
        if size > 4000 {
            return Named::Size(size);
        }
        return Named::NoField;
    }
    if number == 14 {
        if length != 8 + 16 * (size as u64) {
            return Named::WholeLength(length);
        }
    }
    Named::NoField
}
