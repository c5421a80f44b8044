// UTC texts, and UTC of Unix time and of calendar fields. From scales/utc/mod.rs.
// kept: the fields of a date and a time stand one by one, as C hands them (ct_utc_from_calendar).
#![tactic(auto)]

ghost use Rattle.std.specs.Prelude.{◌≡◌, ◌<◌};
ghost use Rattle.refusals.specs.Outcome.{onward, seen};
ghost use Rattle.leap_table.specs.rows.Announced.{rows_of, table_of};
ghost use Rattle.utc.specs.FromCalendar.{utc_from_calendar};
ghost use Rattle.utc.specs.UnixTime.{unix_day, second_of_unix_day, second_with_nanos, utc_new};

use julian::JulianDate;
use leap_table::rows::AnnouncedRows;
use refusals::Refusal;
use scales::UTC;

pub mod iso_texts;
pub mod run_texts;
mod shown;
pub mod text;

// The day of a Unix time, counted from 1970-01-01.
#[tactic(auto, using(crate::proofs::Found::days))]
fn unix_day(seconds: i64) -> i64
    ensures { result ≡ unix_day seconds }
{
    seconds.div_euclid(constants::SECONDS_PER_DAY)
}

// The seconds since that day's midnight.
#[tactic(auto, using(crate::proofs::Found::days))]
fn second_of_unix_day(seconds: i64) -> u32
    ensures { (result ≡ second_of_unix_day seconds) × (result < 86400) }
{
    seconds.rem_euclid(constants::SECONDS_PER_DAY) as u32
}

// The second of its minute, with the nanoseconds.
#[tactic(auto, using(crate::proofs::Found::nanos), unfolding(crate::specs::UnixTime::second_with_nanos))]
fn second_with_nanos(second: u32, nanos: u32) -> f64
    ensures { result ≡ second_with_nanos second nanos }
{
    (second % 60) as f64 + nanos as f64 / constants::NANOSECONDS_PER_SECOND_F64
}

// UTC of a Unix time by rows that are tested elsewhere. Refusals in order: 8 the nanoseconds, 6 the day, 1 its year, then 4, which a day that ends in
// a step back can give.
pub fn new_by_rows(unix: i64, nanos: u32, table: &AnnouncedRows) -> Result<UTC, Refusal>
    ensures { seen (λ s. s.0) result ≡ utc_new (rows_of table.now) unix nanos }
{
    if nanos >= constants::NANOSECONDS_PER_SECOND {
        return Err(Refusal::NanosNotInSecond);
    }
    let fields = julian::julian_to_calendar(constants::UNIX_EPOCH_JD, unix_day(unix) as f64)?;
    let date = fields.date;
    let s = second_of_unix_day(unix);
    utc_from_calendar_by_rows(
        date.year,
        date.month as u8,
        date.day as u8,
        (s / 3600) as u8,
        (s % 3600 / 60) as u8,
        second_with_nanos(s, nanos),
        table,
    )
}

// kept: the test of the table and the call by its rows, as every call by a table has them: two steps, which are functions already.
// UTC of a Unix time. Refusals in order: 20 to 22 the table, 8 the nanoseconds, 6 the day, 1 its year, then 4, which a day that ends in a step back can give.
pub fn new(seconds: i64, nanos: u32, table: AnnouncedRows) -> Result<UTC, Refusal>
    ensures { seen (λ s. s.0) result ≡ onward (table_of table) (λ rows. utc_new rows seconds nanos) }
{
    leap_table::rows::judge_table(&table)?;
    new_by_rows(seconds, nanos, &table)
}

// UTC of a date and a time of its day by rows that are tested elsewhere. Refusals in order: 1 to 3 the date, 5 no next day, 4 the time; in the day's
// last minute the second is below 60 + leap.
pub fn utc_from_calendar_by_rows(
    year: i32,
    month: u8,
    day: u8,
    hour: u8,
    minute: u8,
    second: f64,
    table: &AnnouncedRows,
) -> Result<UTC, Refusal>
    ensures { seen (λ s. s.0) result ≡ utc_from_calendar (rows_of table.now) year month day hour minute second }
{
    let midnight = JulianDate::from_calendar(year, month, day, 0, 0, 0.0)?;
    let (leap, _) = leap_table::offsets::leap_at_end_of_day_by_rows(
        year,
        month as i32,
        day as i32,
        table,
    )?;
    let fraction = julian::day_fraction(hour, minute, second, leap)?;
    Ok(UTC(JulianDate::new(midnight.jd1, midnight.jd2 + fraction)))
}

// UTC of a date and a time of its day. Refusals in order: 20 to 22 the table, 1 to 3 the date, 5 no next day, 4 the time; in the day's last minute the second
// is below 60 + leap.
pub fn utc_from_calendar(
    year: i32,
    month: u8,
    day: u8,
    hour: u8,
    minute: u8,
    second: f64,
    table: AnnouncedRows,
) -> Result<UTC, Refusal>
    ensures { seen (λ s. s.0) result ≡ onward (table_of table) (λ rows. utc_from_calendar rows year month day hour minute second) }
{
    leap_table::rows::judge_table(&table)?;
    utc_from_calendar_by_rows(year, month, day, hour, minute, second, &table)
}
