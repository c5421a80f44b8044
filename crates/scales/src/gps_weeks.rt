// GPS weeks and milliseconds of the week, to dates and back.
ghost use Rattle.std.specs.Prelude.{◌≡◌, ◌<◌, ◌≤◌};
ghost use Rattle.refusals.specs.Outcome.{outcome, seen};
ghost use Rattle.scales.specs.gps_weeks.WeekDate.{week_midnight, part_of_day, week_date};
ghost use Rattle.scales.specs.gps_weeks.WeekOf.{day_millis, week_at, week_of_day, week_of};
ghost use Rattle.scales.specs.gps_weeks.FullWeek.{by_distance, full_week};

use crate::GPS;
use julian::JulianDate;
use refusals::Refusal;

// A week, counted from 1980-01-06 0h GPS, and the milliseconds of it that have passed.
#[derive(Clone, Copy)]
pub struct WeekTime {
    pub week: u32,
    pub millis: u32,
}

// The day number of 1980-01-06.
const FIRST_DAY: u32 = 2_444_245;

const LAST_WEEK: u32 = 100_000;

const MILLIS_PER_DAY: u32 = 86_400_000;

const MILLIS_PER_WEEK: u32 = 604_800_000;

// FIRST_DAY days.
const FIRST_MILLI: u64 = 211_182_768_000_000;

// No day from this on is in a week up to LAST_WEEK, whatever its fraction; it keeps the count below small.
const PAST_ALL_WEEKS: u64 = 4_000_000;

const TWO_52: f64 = 4503599627370496.0;

// A ten-bit week is below this.
const TEN_BITS: u32 = 1024;

const LAST_REFERENCE: u32 = 99_000;

// The Julian date of the midnight that begins a day from 1 on.
#[tactic(auto, using(crate::proofs::gps_weeks::Parts::parts))]
fn midnight_of(day: u32) -> f64
    requires { 0 < day }
    ensures { result ≡ week_midnight day }
{
    day as f64 - 0.5
}

// Milliseconds as a part of a day of 86,400 s.
#[tactic(auto, using(crate::proofs::gps_weeks::Parts::parts))]
fn part_of_day(millis: u32) -> f64
    ensures { result ≡ part_of_day millis }
{
    millis as f64 / 86400000.0
}

// The GPS date: midnight of its day in jd1, the milliseconds of the day in jd2. 18 for a week above 100,000 or 604,800,000 milliseconds or more.
#[tactic(auto, using(crate::proofs::Seen::judged), unfolding(crate::specs::gps_weeks::WeekDate::week_date))]
pub fn from_week(week: u32, millis: u32) -> Result<GPS, Refusal>
    ensures { seen (λ s. s.0) result ≡ week_date week millis }
{
    if week > LAST_WEEK {
        return Err(Refusal::OutOfLimit);
    }
    if millis >= MILLIS_PER_WEEK {
        return Err(Refusal::OutOfLimit);
    }
    let jd1 = midnight_of(FIRST_DAY + 7 * week + millis / MILLIS_PER_DAY);
    let jd2 = part_of_day(millis % MILLIS_PER_DAY);
    Ok(GPS(JulianDate { jd1, jd2 }))
}

// The milliseconds of a fraction of a day, a half going up. Nearly every count is from 1 to 2^52, where one cast does.
fn millis_of(fraction: f64) -> u64
    ensures { (result ≡ day_millis fraction) × (result ≤ 9223372036854775807) }
{
    let rounded = floats::round(fraction * 86400000.0);
    if rounded >= 1.0 && rounded < TWO_52 {
        return std::num::truncating_f64_to_u64(rounded);
    }
    time_of_day::from_zero(floats::saturating_i64(rounded))
}

// The week of so many milliseconds since midnight of day 0.
#[tactic(auto, using(crate::proofs::Seen::judged), unfolding(crate::specs::gps_weeks::WeekOf::week_at))]
fn week_at(count: u64) -> Result<WeekTime, Refusal>
    ensures { outcome result ≡ week_at count }
{
    if count < FIRST_MILLI {
        return Err(Refusal::OutOfLimit);
    }
    let since = count - FIRST_MILLI;
    let week = since / MILLIS_PER_WEEK as u64;
    if week > LAST_WEEK as u64 {
        return Err(Refusal::OutOfLimit);
    }
    let millis = since % MILLIS_PER_WEEK as u64;
    Ok(WeekTime {
        week: week as u32,
        millis: millis as u32,
    })
}

// The limits are judged by the rounded count, so that a day's last half millisecond is in the next.
// kept: `from_zero` behind its test; `u64::try_from` would be the same test and no plainer.
fn week_of_day(day: i64, fraction: f64) -> Result<WeekTime, Refusal>
    ensures { outcome result ≡ week_of_day day (day_millis fraction) }
{
    if day < 0 {
        return Err(Refusal::OutOfLimit);
    }
    let days = time_of_day::from_zero(day);
    if days >= PAST_ALL_WEEKS {
        return Err(Refusal::OutOfLimit);
    }
    week_at(days * MILLIS_PER_DAY as u64 + millis_of(fraction))
}

// The week of a GPS date, and the milliseconds of it, to the nearest. Refusals in order: 9, 6, and 18 for a rounded date outside weeks 0 to 100,000.
#[tactic(auto, using(crate::proofs::Seen::judged), unfolding(crate::specs::gps_weeks::WeekOf::week_of))]
pub fn to_week(gps: GPS) -> Result<WeekTime, Refusal>
    ensures { outcome result ≡ week_of gps.0 }
{
    let jd = julian::finite_jd(gps.0)?;
    let found = julian::day_number::day_number_and_fraction(jd.jd1, jd.jd2)?;
    week_of_day(found.day, found.fraction)
}

// Of the weeks with those ten bits, the one at most `back` weeks before the reference or the next; 19 where both are 512 away.
#[tactic(auto, using(crate::proofs::Seen::judged), unfolding(crate::specs::gps_weeks::FullWeek::by_distance))]
fn by_distance(reference: u32, back: u32) -> Result<u32, Refusal>
    requires { (back ≤ reference) × (reference ≤ 99000) }
    ensures { outcome result ≡ by_distance reference back }
{
    if back == TEN_BITS / 2 {
        return Err(Refusal::WeekNotDecided);
    }
    if back < TEN_BITS / 2 {
        Ok(reference - back)
    } else {
        Ok(reference - back + TEN_BITS)
    }
}

// The week with those ten lowest bits that lies nearest the reference and is not below 0. Refusals in order: 18 for ten bits above 1,023 or a reference above
// 99,000; 19 where two weeks are equally near.
#[tactic(auto, using(crate::proofs::Seen::judged), unfolding(crate::specs::gps_weeks::FullWeek::full_week))]
pub fn full_week(bits: u32, reference: u32) -> Result<u32, Refusal>
    ensures { outcome result ≡ full_week bits reference }
{
    if bits >= TEN_BITS {
        return Err(Refusal::OutOfLimit);
    }
    if reference > LAST_REFERENCE {
        return Err(Refusal::OutOfLimit);
    }
    if reference < bits {
        return Ok(bits);
    }
    by_distance(reference, (reference - bits) % TEN_BITS)
}
