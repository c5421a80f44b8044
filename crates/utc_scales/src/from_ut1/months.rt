// TAI-UTC at 0h of a day with its month, by which the next day need not be looked up.
ghost use Rattle.std.specs.Prelude.{◌≡◌};
ghost use Rattle.refusals.specs.Outcome.{seen};
ghost use Rattle.calendar.specs.Gregorian.{gregorian_date};
ghost use Rattle.leap_table.specs.rows.Announced.{rows_of};
ghost use Rattle.utc_scales.specs.days.Dates.{offset_at0h, offset_of_date};
ghost use Rattle.utc_scales.specs.from_ut1.KnownMonths.{RightMonth, RightMonths};

use crate::days::offset_at_0h;
use leap_table::rows::AnnouncedRows;
use refusals::Refusal;

// A month, and TAI-UTC at 0h of one of its days: from 1972 on that of all of them.
#[derive(Clone, Copy)]
pub(crate) struct KnownMonth {
    pub year: i32,
    pub month: u32,
    pub seconds: f64,
}

// TAI-UTC at 0h of the date of a day number, with the month of the day.
fn month_of(day: i64, table: &AnnouncedRows) -> Result<KnownMonth, Refusal>
    ensures { (seen (λ k. k.seconds) result ≡ offset_at0h (rows_of table.now) (gregorian_date day))
        × RightMonths (rows_of table.now) result }
{
    let (offset, _) = offset_at_0h(day, table)?;
    let t = calendar::gregorian_date(day);
    Ok(KnownMonth {
        year: t.year,
        month: t.month,
        seconds: offset,
    })
}

// The same, with no look-up where the month is the known one.
pub(crate) fn month_with(
    day: i64,
    known: KnownMonth,
    table: &AnnouncedRows,
) -> Result<KnownMonth, Refusal>
    requires { RightMonth (rows_of table.now) known }
    ensures { (seen (λ k. k.seconds) result ≡ offset_at0h (rows_of table.now) (gregorian_date day))
        × RightMonths (rows_of table.now) result }
{
    let t = calendar::gregorian_date(day);
    if t.month == known.month {
        if t.year == known.year {
            if t.year >= 1972 {
                return Ok(known);
            }
        }
    }
    month_of(day, table)
}

// TAI-UTC at 0h of the day of a Julian date, and its month.
// kept: no plainer, beside offset_of_date of to_ut1, two lines each: the day of a date, and another look-up of it.
pub(crate) fn month_of_date(
    jd1: f64,
    jd2: f64,
    table: &AnnouncedRows,
) -> Result<KnownMonth, Refusal>
    ensures { (seen (λ k. k.seconds) result ≡ offset_of_date (rows_of table.now) jd1 jd2)
        × RightMonths (rows_of table.now) result }
{
    let d = julian::day_number::day_number_and_fraction(jd1, jd2)?;
    month_of(d.day, table)
}
