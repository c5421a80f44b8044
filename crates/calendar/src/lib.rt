// The calendar of ISO 8601 by whole numbers: which dates there are, the next day, and day numbers both ways. From scales/common.rs's calendar half, the
// integers of `calendar_to_julian`, and `gregorian_date`.
// kept: year, month and day stand one by one and signed, as C hands them (ct_validate_calendar_date, ct_next_calendar_day): they may be no date.
#![tactic(auto)]

ghost use Rattle.std.specs.Prelude.{◌≡◌, false, ◌<◌, ◌≤◌, pos, negsuc, ◌+ℤ◌, ◌-ℤ◌};
ghost use Rattle.refusals.specs.Outcome.{outcome};
ghost use Rattle.std.specs.Int.Signed.{lt_z};
ghost use Rattle.calendar.specs.Calendar.{leap_year, month_length, days_in_month};
ghost use Rattle.calendar.specs.Refusals.{valid_date, next_of};
ghost use Rattle.calendar.specs.DayCount.{march_count, civil_count, mjd_of};
ghost use Rattle.calendar.specs.Gregorian.{gregorian_date, shifted_date};

use refusals::Refusal;

// A date of the proleptic Gregorian calendar.
#[derive(Clone, Copy)]
pub struct CalendarDate {
    pub year: i32,
    pub month: u32,
    pub day: u32,
}

// Whether the year has a 29 February; year 0 and those below it follow the same rule.
#[tactic(auto, using(crate::proofs::Signs::rem_zero), unfolding(crate::specs::Calendar::leap_size))]
pub fn is_leap_year(year: i32) -> bool
    ensures { result ≡ leap_year year }
{
    (year % 4 == 0) && (year % 100 != 0 || year % 400 == 0)
}

// The days of month 1 to 12; 0 for any other.
#[tactic(auto, unfolding(crate::specs::Calendar::lengths))]
fn month_length(year: i32, month: u32) -> u32
    ensures { result ≡ month_length year month }
{
    match month {
        1 | 3 | 5 | 7 | 10 | 12 => 31,
        // Apart from 7: the two as one arm would be a range and not two keys, and the proof goes by the keys.
        8 => 31,
        4 | 6 | 9 | 11 => 30,
        2 => { if is_leap_year(year) { 29 } else { 28 } }
        _ => 0,
    }
}

// The days of a month; 0 where the Rust says that there is no such month.
#[tactic(auto, using(crate::proofs::Accepted::days_found))]
pub fn days_in_month(year: i32, month: i32) -> u32
    ensures { result ≡ days_in_month year month }
{
    if month < 1 {
        return 0;
    }
    month_length(year, month as u32)
}

// Refusals in order: 1 the year, 2 the month, 3 the day.
pub fn validate_calendar_date(year: i32, month: i32, day: i32) -> Result<(), Refusal>
    ensures { outcome result ≡ valid_date year month day }
{
    if year < -4799 {
        return Err(Refusal::YearBeforeFirst);
    }
    let last = days_in_month(year, month);
    if last == 0 {
        return Err(Refusal::MonthNotInYear);
    }
    if day < 1 {
        return Err(Refusal::DayNotInMonth);
    }
    if last < day as u32 {
        return Err(Refusal::DayNotInMonth);
    }
    Ok(())
}

// The year + 4800: from here the arithmetic is unsigned.
fn raised_year(year: i32) -> u64
    requires { lt_z year (negsuc 4798) ≡ false }
    ensures { (pos result ≡ year +ℤ pos 4800) × (1 ≤ result) × (result < 4294967296) }
{
    (year as i64 + 4800) as u64
}

// The days before a date of a year that begins in March; y is that year + 4800, and m is 1 for March.
fn march_count(y: u64, m: u64, d: u64) -> u64
    requires { (y < 4294967296) × (m ≤ 12) × (d ≤ 31) }
    ensures { (result ≡ march_count y m d) × (result < 4611686018427387904) }
{
    (1461 * y) / 4 + (367 * m) / 12 - (3 * ((y + 100) / 100)) / 4 + d
}

// The same count by the months of the calendar: January and February end the March year before.
#[tactic(auto, unfolding(crate::specs::DayCount::civil_count))]
fn civil_count(y: u64, month: u32, day: u32) -> u64
    requires { (1 ≤ y) × (y < 4294967296) × (1 ≤ month) × (month ≤ 12) × (day ≤ 31) }
    ensures { (result ≡ civil_count y month day) × (result < 4611686018427387904) }
{
    if month <= 2 {
        march_count(y - 1, month as u64 + 10, day as u64)
    } else {
        march_count(y, month as u64 - 2, day as u64)
    }
}

// The count less that of MJD 0.
fn count_to_mjd(n: u64) -> i64
    requires { n < 4611686018427387904 }
    ensures { result ≡ pos n -ℤ pos 2432076 }
{
    n as i64 - 2432076
}

// The integer of the Rust's `calendar_to_julian`.
pub fn modified_julian_day(year: i32, month: i32, day: i32) -> Result<i64, Refusal>
    ensures { outcome result ≡ mjd_of year month day }
{
    validate_calendar_date(year, month, day)?;
    Ok(count_to_mjd(civil_count(raised_year(year), month as u32, day as u32)))
}

// The day number + 68569.
fn shifted_day(jd: i64) -> u32
    requires { (lt_z jd (negsuc 68568) ≡ false) × (lt_z (pos 1000000000) jd ≡ false) }
    ensures { (pos result ≡ jd +ℤ pos 68569) × (result ≤ 1000068569) }
{
    (jd + 68569) as u32
}

// y - 4900.
fn lowered_year(y: u32) -> i32
    requires { y < 2147483648 }
    ensures { result ≡ pos y -ℤ pos 4900 }
{
    y as i32 - 4900
}

// The date l days after -4900-03-01, by the Rust's divisions. Four times the largest l is 4,000,274,276. Month and day are divided by powers of two, which are
// shifts: for the days of a year, 31 to 396, (535 * b + 130) / 16384 is the Rust's (80 * b) / 2447, and for its months, 1 to 12, (979 * k) / 32 is (2447 * k) /
// 80 and (k + 5) / 16 is k / 11.
fn date_of_shifted_day(l: u32) -> CalendarDate
    requires { l ≤ 1000068569 }
    ensures { result ≡ shifted_date l }
{
    let n = (4 * l) / 146097;
    let a = l - (146097 * n + 3) / 4;
    let i = (4000 * (a + 1)) / 1461001;
    let b = a + 31 - (1461 * i) / 4;
    let k = (535 * b + 130) / 16384;
    let day = b - (979 * k) / 32;
    let over = (k + 5) / 16;
    let month = k + 2 - 12 * over;
    let year = lowered_year(100 * n + i + over);
    CalendarDate { year, month, day }
}

// The date of a day number. The Rust's callers hand it -68570 to 1,000,000,000, and at -68570 it says -4900-02-30; a number outside is taken to the nearer end.
pub fn gregorian_date(jd: i64) -> CalendarDate
    ensures { result ≡ gregorian_date jd }
{
    if jd < -68569 {
        return CalendarDate {
            year: -4900,
            month: 2,
            day: 30,
        };
    }
    if 1000000000 < jd {
        return date_of_shifted_day(1000068569);
    }
    date_of_shifted_day(shifted_day(jd))
}

// Refusals in order: 1, 2, 3, then 5 after the last day of year 2147483647.
pub fn next_calendar_day(year: i32, month: i32, day: i32) -> Result<CalendarDate, Refusal>
    ensures { outcome result ≡ next_of year month day }
{
    validate_calendar_date(year, month, day)?;
    let m = month as u32;
    let d = day as u32;
    if d < days_in_month(year, month) {
        return Ok(CalendarDate {
            year,
            month: m,
            day: d + 1,
        });
    }
    if m < 12 {
        return Ok(CalendarDate {
            year,
            month: m + 1,
            day: 1,
        });
    }
    if 2147483646 < year {
        return Err(Refusal::NoNextDay);
    }
    Ok(CalendarDate {
        year: year + 1,
        month: 1,
        day: 1,
    })
}
