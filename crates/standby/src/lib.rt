// The bill of a crew's standby by quarter hours, in exact TAI. From document 02, item 11. Whole numbers only: a UTC time is counted in exact TAI, by the
// announced table.
#![tactic(auto)]

ghost use Rattle.std.specs.Prelude.{◌≡◌, ◌+◌, ◌*◌, ◌≤◌, ◌<◌};
ghost use Rattle.refusals.specs.Outcome.{answer, onward, outcome};
ghost use Rattle.leap_table.specs.rows.Announced.{rows_of, table_of};
ghost use Rattle.standby.specs.Times.{in_its_day, last_minute, time_seconds};
ghost use Rattle.standby.specs.Times as T;
ghost use Rattle.standby.specs.Bills.{over_limit, shares, bill_between, standby_bill};
ghost use Rattle.standby.specs.Bills as B;
ghost use Rattle.standby.specs.Instants.{instant_ms};
ghost use Rattle.standby.specs.Asked.{Dated, InstantIs, SmallInstant, StartFirst, InLimits};

use calendar::CalendarDate;
use leap_table::rows::AnnouncedRows;
use refusals::Refusal;

// The longest of each: quarters, cents a quarter, metres.
const LIMIT: u64 = 1_000_000;

// A date and a time of its day in UTC, to the millisecond.
#[derive(Clone, Copy)]
pub struct UtcTime {
    pub year: i32,
    pub month: u8,
    pub day: u8,
    pub hour: u8,
    pub minute: u8,
    pub second: u8,
    pub millis: u32,
}

// The started quarter hours, and what each of the two owners pays, in the rate's cents.
#[derive(Clone, Copy)]
pub struct Bill {
    pub quarters: u64,
    pub first: u64,
    pub second: u64,
}

// Whole TAI seconds from 0h TAI of Modified Julian Date 0, and milliseconds. In milliseconds alone the last years would not fit 64 bits.
#[derive(Clone, Copy, PartialEq, Eq, PartialOrd, Ord)]
struct Instant {
    seconds: u64,
    millis: u32,
}

// The seconds of the day's last minute: 60, and one more or less where the table steps with the next date. `offset` is TAI-UTC on the date.
#[tactic(auto, unfolding(crate::specs::Times::last_minute))]
fn last_minute(t: UtcTime, next: CalendarDate, offset: u32, table: &AnnouncedRows) -> u32
    requires { (offset ≡ T.offset_on_date (rows_of table.now) t) × (offset ≤ 60) }
    ensures { result ≡ last_minute (rows_of table.now) t next }
{
    if next.year == t.year {
        if next.month == t.month as u32 {
            return 60;
        }
    }
    60 + leap_table::offsets::whole_seconds_by_rows(next.year, next.month, table) - offset
}

// Whether the time is one of a day whose last minute has `last` seconds.
#[tactic(auto, unfolding(crate::specs::Times::in_its_day))]
fn in_its_day(t: UtcTime, last: u32) -> bool
    ensures { result ≡ in_its_day t last }
{
    if 23 < t.hour {
        return false;
    }
    if 59 < t.minute {
        return false;
    }
    if 999 < t.millis {
        return false;
    }
    if t.hour == 23 {
        if t.minute == 59 {
            return (t.second as u32) < last;
        }
    }
    t.second < 60
}

// The seconds of the day before the time.
#[tactic(auto, unfolding(crate::specs::Times::time_seconds))]
fn time_seconds(t: UtcTime) -> u64
    ensures { (result ≡ time_seconds t) × (result < 1000000) }
{
    3600 * (t.hour as u64) + 60 * (t.minute as u64) + t.second as u64
}

// The instant of a time on Modified Julian Date `day`, whose next date is `next`. Refusal 4: the time is not in the day.
fn at_time(
    t: UtcTime,
    day: u64,
    next: CalendarDate,
    table: &AnnouncedRows,
) -> Result<Instant, Refusal>
    requires { Dated table.now t day next }
    ensures { InstantIs (T.instant_on (rows_of table.now) t next) result }
{
    let offset = leap_table::offsets::whole_seconds_by_rows(t.year, t.month as u32, table);
    let last = last_minute(t, next, offset, table);
    if in_its_day(t, last) {
        Ok(Instant {
            seconds: 86400 * day + time_seconds(t) + offset as u64,
            millis: t.millis,
        })
    } else {
        Err(Refusal::TimeNotInDay)
    }
}

// The instant of a UTC time from 1972 on. Refusals in order: 1 the year, 2 the month, 3 the day, 5 no next day, 4 the time.
fn instant_of(t: UtcTime, table: &AnnouncedRows) -> Result<Instant, Refusal>
    requires { table_of table.now ≡ answer (rows_of table.now) }
    ensures { InstantIs (T.instant (rows_of table.now) t) result }
{
    if t.year < 1972 {
        return Err(Refusal::YearBeforeFirst);
    }
    let day = calendar::modified_julian_day(t.year, t.month as i32, t.day as i32)?;
    let next = calendar::next_calendar_day(t.year, t.month as i32, t.day as i32)?;
    at_time(t, day as u64, next, table)
}

// The started quarter hours from start to end: those of the started seconds, so that no milliseconds are counted, which might not fit.
#[tactic(auto, unfolding(crate::specs::Bills::quarters))]
fn quarters_between(start: Instant, end: Instant) -> u64
    requires { StartFirst start end }
    ensures { result ≡ B.quarters_between (instant_ms start) (instant_ms end) }
{
    let seconds = end.seconds - start.seconds;
    if start.millis < end.millis {
        return (seconds + 900) / 900;
    }
    (seconds + 899) / 900
}

// Whether a number of the bill is over its limit.
// kept: rate and metres are no struct: `standby_bill` has them one by one, as ct_standby_bill does, and `shared` takes them as `u64`; a struct would be filled
// once and taken apart at each use.
#[tactic(auto, unfolding(crate::specs::Bills::over_limit))]
fn over_limit(quarters: u64, rate: u32, first_metres: u32, second_metres: u32) -> bool
    ensures { result ≡ over_limit quarters rate first_metres second_metres }
{
    if LIMIT < quarters {
        return true;
    }
    if LIMIT < rate as u64 {
        return true;
    }
    if LIMIT < first_metres as u64 {
        return true;
    }
    LIMIT < second_metres as u64
}

// Both shares rounded down, and the cent that may be left over to the larger remainder, to the first where they tie.
#[tactic(auto, unfolding(crate::specs::Bills::shares))]
fn shared(quarters: u64, rate: u64, first_metres: u64, second_metres: u64) -> Bill
    requires { InLimits quarters rate first_metres second_metres }
    ensures { result ≡ shares quarters (quarters * rate) first_metres second_metres }
{
    let total = quarters * rate;
    let metres = first_metres + second_metres;
    let to_first = total * first_metres;
    let to_second = total * second_metres;
    let first = to_first / metres;
    let second = to_second / metres;
    let left = total - first - second;
    if to_first % metres < to_second % metres {
        Bill {
            quarters,
            first,
            second: second + left,
        }
    } else {
        Bill {
            quarters,
            first: first + left,
            second,
        }
    }
}

// The bill between two instants. Refusals in order: 26 the end before the start, 27 a number over its limit, 28 both lengths 0.
fn bill_between(
    start: Instant,
    end: Instant,
    rate: u32,
    first_metres: u32,
    second_metres: u32,
) -> Result<Bill, Refusal>
    requires { (SmallInstant start) × (SmallInstant end) }
    ensures { outcome result ≡ bill_between (instant_ms start) (instant_ms end) rate first_metres second_metres }
{
    if end < start {
        return Err(Refusal::EndBeforeStart);
    }
    let quarters = quarters_between(start, end);
    if over_limit(quarters, rate, first_metres, second_metres) {
        return Err(Refusal::BillNumberOverLimit);
    }
    if first_metres + second_metres == 0 {
        return Err(Refusal::BothLengthsZero);
    }
    Ok(shared(
        quarters,
        rate as u64,
        first_metres as u64,
        second_metres as u64,
    ))
}

// The bill for a crew's standby between two UTC times: each started 900 s at `rate` cents, shared between two owners by their metres of line. Refusals in
// order: 20 to 22 the table; 1, 2, 3, 5, 4 the start, then the end; 26 the end before the start; 27 a number over its limit; 28 both lengths 0.
pub fn standby_bill(
    start: UtcTime,
    end: UtcTime,
    rate: u32,
    first_metres: u32,
    second_metres: u32,
    table: AnnouncedRows,
) -> Result<Bill, Refusal>
    ensures { outcome result ≡ onward (table_of table) (λ rows. standby_bill rows start end rate first_metres second_metres) }
{
    leap_table::rows::judge_table(&table)?;
    let from = instant_of(start, &table)?;
    let to = instant_of(end, &table)?;
    bill_between(from, to, rate, first_metres, second_metres)
}
