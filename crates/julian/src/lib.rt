// Two-part Julian dates: from the calendar and Unix time and back, equality, difference, each operation in the Rust's order.
// kept: the fields of a date and a time stand one by one, as C hands them (ct_calendar_to_julian, ct_from_calendar).
#![tactic(auto)]

ghost use Rattle.std.specs.Prelude.{◌≡◌};
ghost use Rattle.refusals.specs.Outcome.{outcome};
ghost use Rattle.floats.specs.Whole.{nought};
ghost use Rattle.constants.specs.Constants.{j2000_jd, unix_epoch_jd};
ghost use Rattle.julian.specs.JulianDate as D;
ghost use Rattle.julian.specs.UnixTime as U;
ghost use Rattle.julian.specs.JulianYear as Y;
ghost use Rattle.julian.specs.Equality as E;
ghost use Rattle.julian.specs.DayFraction as F;
ghost use Rattle.julian.specs.Finite as N;
ghost use Rattle.julian.specs.Calendar as C;
ghost use Rattle.julian.specs.Equivalence.{equal_laws};

use refusals::Refusal;
use std::ops::Sub;

pub mod day_number;
pub mod order;
pub mod same_stamps;
pub mod shifts;
pub mod stamp_lists;

// A Julian date: two floats whose exact sum is the date in days.
#[derive(Clone, Copy)]
pub struct JulianDate {
    pub jd1: f64,
    pub jd2: f64,
}

// A calendar date, and the part of its day that has passed.
#[derive(Clone, Copy)]
pub struct CalendarFields {
    pub date: calendar::CalendarDate,
    pub fraction: f64,
}

// A rounded sum, and what the rounding lost.
#[derive(Clone, Copy)]
pub struct ExactSum {
    pub sum: f64,
    pub error: f64,
}

impl JulianDate {
    pub const MJD_ZERO_POINT: f64 = constants::MJD_ZERO_POINT;

    pub const J2000_JD: f64 = constants::J2000_JD;

    pub fn new(jd1: f64, jd2: f64) -> JulianDate
        ensures { result ≡ D.julian jd1 jd2 }
    {
        JulianDate { jd1, jd2 }
    }

    #[tactic(auto, using(floats::proofs::Cases::literals))]
    pub fn from_f64(jd: f64) -> JulianDate
        ensures { result ≡ D.julian jd nought }
    {
        JulianDate::new(jd, 0.0)
    }

    // kept: no plainer: beside unix_epoch, each one line and a name that users know; one call of both would take the number that they are to give.
    pub fn j2000() -> JulianDate
        ensures { result ≡ D.julian j2000_jd nought }
    {
        JulianDate::new(JulianDate::J2000_JD, 0.0)
    }

    pub fn unix_epoch() -> JulianDate
        ensures { result ≡ D.julian unix_epoch_jd nought }
    {
        JulianDate::new(constants::UNIX_EPOCH_JD, 0.0)
    }

    pub fn jd1(self) -> f64
        ensures { result ≡ self.jd1 }
    {
        self.jd1
    }

    pub fn jd2(self) -> f64
        ensures { result ≡ self.jd2 }
    {
        self.jd2
    }

    // The rounded sum of the parts.
    pub fn to_f64(self) -> f64
        ensures { result ≡ D.rounded_sum self }
    {
        self.jd1 + self.jd2
    }

    // Whole days are carried into jd1. Left in jd2 they would grow it until small steps round away.
    #[tactic(auto, unfolding(crate::specs::JulianDate::add_days, crate::specs::JulianDate::uncarried))]
    pub fn add_days(self, days: f64) -> JulianDate
        ensures { result ≡ D.add_days self days }
    {
        let whole_days = floats::trunc(days);
        let jd2 = self.jd2 + (days - whole_days);
        let carry = floats::trunc(jd2);
        JulianDate::new(self.jd1 + (whole_days + carry), jd2 - carry)
    }

    pub fn add_seconds(self, seconds: f64) -> JulianDate
        ensures { result ≡ D.add_seconds self seconds }
    {
        self.add_days(seconds / constants::SECONDS_PER_DAY_F64)
    }

    // Whole days and the time of day are kept apart so nanoseconds survive. The day is the one toward 1970.
    pub fn from_unix_time(seconds: i64, nanos: u32) -> JulianDate
        ensures { result ≡ U.from_unix_time seconds nanos }
    {
        let days = (seconds / constants::SECONDS_PER_DAY) as f64;
        let rest = (seconds % constants::SECONDS_PER_DAY) as f64;
        let second_of_day = rest + nanos as f64 / constants::NANOSECONDS_PER_SECOND_F64;
        JulianDate::new(
            constants::UNIX_EPOCH_JD + days,
            second_of_day / constants::SECONDS_PER_DAY_F64,
        )
    }

    // ERFA's dtf2d's split: midnight's Julian date in jd1, the time of day in jd2. Refusals in order: those of the date, then 4.
    pub fn from_calendar(
        year: i32,
        month: u8,
        day: u8,
        hour: u8,
        minute: u8,
        second: f64,
    ) -> Result<JulianDate, Refusal>
        ensures { outcome result ≡ C.from_calendar year month day hour minute second }
    {
        let midnight = calendar_to_julian(year, month as i32, day as i32)?;
        let fraction = day_fraction(hour, minute, second, 0.0)?;
        Ok(JulianDate::new(midnight.to_f64(), fraction))
    }

    // Subtracting J2000 from jd1 before adding jd2 keeps jd2's low bits, as eraEpj does.
    pub fn to_julian_year(self) -> f64
        ensures { result ≡ Y.to_julian_year self }
    {
        2000.0 + ((self.jd1 - JulianDate::J2000_JD) + self.jd2) / constants::DAYS_PER_JULIAN_YEAR
    }

    // eraEpj2jd's split: the MJD zero point in jd1 and the MJD in jd2.
    pub fn from_julian_year(year: f64) -> JulianDate
        ensures { result ≡ Y.from_julian_year year }
    {
        let mjd = (JulianDate::J2000_JD - JulianDate::MJD_ZERO_POINT)
            + (year - 2000.0) * constants::DAYS_PER_JULIAN_YEAR;
        JulianDate::new(JulianDate::MJD_ZERO_POINT, mjd)
    }
}

// For parts under 2^52 in size, whether the two exact sums are one number, however it is split; for other parts the Rust's own test.
impl PartialEq for JulianDate {
    ghost eq = { E.equal };

    ghost laws = { equal_laws };

    #[tactic(auto, unfolding(crate::specs::Equality::equal, crate::specs::Equality::sums))]
    fn eq(&self, other: &JulianDate) -> bool {
        let one = exact_sum(self.jd1, self.jd2);
        let two = exact_sum(other.jd1, other.jd2);
        if both_finite(one.sum, two.sum) {
            same_pair(one.sum, one.error, two.sum, two.error)
        } else {
            // The rounding error is a NaN here, so only equal parts can match.
            same_pair(self.jd1, self.jd2, other.jd1, other.jd2)
        }
    }
}

// The difference in days. Subtracting part by part keeps the precision of a short interval between two large dates.
impl Sub for JulianDate {
    type Output = f64;

    ghost sub_gives = { λ a b r. r ≡ D.difference a b };

    #[tactic(auto, unfolding(crate::specs::JulianDate::difference))]
    fn sub(self, other: JulianDate) -> f64 {
        (self.jd1 - other.jd1) + (self.jd2 - other.jd2)
    }
}

// (2400000.5, the Modified Julian Date) of a date's midnight. Refusals in order: 1 the year, 2 the month, 3 the day.
pub fn calendar_to_julian(year: i32, month: i32, day: i32) -> Result<JulianDate, Refusal>
    ensures { outcome result ≡ C.calendar_to_julian year month day }
{
    let mjd = calendar::modified_julian_day(year, month, day)?;
    Ok(JulianDate::new(JulianDate::MJD_ZERO_POINT, mjd as f64))
}

// The calendar date of the day, and the fraction of the day that has passed; 6 where the rounded sum of the parts is outside -68569.5
// to 1e9, or a NaN.
pub fn julian_to_calendar(jd1: f64, jd2: f64) -> Result<CalendarFields, Refusal>
    ensures { outcome result ≡ C.julian_to_calendar jd1 jd2 }
{
    let found = crate::day_number::day_number_and_fraction(jd1, jd2)?;
    Ok(CalendarFields {
        date: calendar::gregorian_date(found.day),
        fraction: found.fraction,
    })
}

// Knuth's two-sum.
pub fn exact_sum(a: f64, b: f64) -> ExactSum
    ensures { result ≡ E.exact_sum a b }
{
    let sum = a + b;
    let b_rounded = sum - a;
    let error = (a - (sum - b_rounded)) + (b - b_rounded);
    ExactSum { sum, error }
}

// The part of the day that has passed; 4 where the time is not in the day. `leap` is how much longer than 86,400 s the day is, and
// the extra time goes into the seconds of its last minute; a day whose leap is not finite has no times.
#[tactic(auto, unfolding(crate::specs::DayFraction::day_fraction, refusals::specs::Outcome::outcome, refusals::specs::Refusal::refusal_number))]
pub fn day_fraction(hour: u8, minute: u8, second: f64, leap: f64) -> Result<f64, Refusal>
    ensures { outcome result ≡ F.day_fraction hour minute second leap }
{
    if !time_in_day(hour, minute, second, leap) {
        return Err(Refusal::TimeNotInDay);
    }
    let seconds_into_day = 60.0 * ((60 * (hour as u32) + minute as u32) as f64) + second;
    Ok(seconds_into_day / (constants::SECONDS_PER_DAY_F64 + leap))
}

// A second that is a NaN is in no day.
#[tactic(auto, using(floats::proofs::Cases::literals), unfolding(crate::specs::DayFraction::time_in_day))]
fn time_in_day(hour: u8, minute: u8, second: f64, leap: f64) -> bool
    ensures { result ≡ F.time_in_day hour minute second leap }
{
    let limit = second_limit(hour, minute, leap);
    if hour > 23 {
        return false;
    }
    if minute > 59 {
        return false;
    }
    if !floats::is_finite(leap) {
        return false;
    }
    0.0 <= second && second < limit
}

// What a second of the minute is below.
fn second_limit(hour: u8, minute: u8, leap: f64) -> f64
    ensures { result ≡ F.second_limit hour minute leap }
{
    if hour == 23 && minute == 59 {
        60.0 + leap
    } else {
        60.0
    }
}

fn both_finite(a: f64, b: f64) -> bool
    ensures { result ≡ N.both_finite a b }
{
    floats::is_finite(a) && floats::is_finite(b)
}

// Whether a is c and b is d. A NaN is nothing, and -0.0 is 0.0.
fn same_pair(a: f64, b: f64, c: f64, d: f64) -> bool
    ensures { result ≡ E.same_pair a b c d }
{
    a == c && b == d
}

// The date, where both parts are finite; else 9.
pub fn finite_jd(jd: JulianDate) -> Result<JulianDate, Refusal>
    ensures { outcome result ≡ N.finite_jd jd }
{
    if both_finite(jd.jd1, jd.jd2) {
        return Ok(jd);
    }
    Err(Refusal::PartNotFinite)
}

// The offset, where it is finite; else 10.
pub fn finite_arg(value: f64) -> Result<f64, Refusal>
    ensures { outcome result ≡ N.finite_arg value }
{
    if floats::is_finite(value) {
        return Ok(value);
    }
    Err(Refusal::OffsetNotFinite)
}
