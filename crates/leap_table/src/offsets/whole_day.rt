// TAI-UTC at the start, the middle and the end of a day, and the leap at its end.
ghost use Rattle.std.specs.Prelude.{◌≡◌, ◌+◌, ◌<◌, ◌≤◌, unsigned_abs};
ghost use Rattle.refusals.specs.Outcome.{onward, outcome};
ghost use Rattle.leap_table.specs.rows.Table.{fixed_rows, starts, reached};
ghost use Rattle.leap_table.specs.rows.Announced.{announced_size, rows_of, table_of};
ghost use Rattle.leap_table.specs.offsets.Leap.{offsets_of_day, day_offsets, leap_at_end_of_day};
ghost use Rattle.leap_table.specs.offsets.Rule.{rule_of, day_by_rule, leap_by_rule};

use super::look_up::{
    any_rows_reached, month_number, of_plain_day, offset_by, plain_day, rule_by, table_rows_reached,
};
use super::{DayByRule, DayOffsets, Rule, SecondsByRule};
use crate::rows::{AnnouncedRows, judge_table};
use refusals::Refusal;

// The rows reached in the month of the next day: looked up again only where it is another month.
fn next_rows_reached(table: &AnnouncedRows, rows: usize, month: u64, next: u64) -> usize
    requires { (rows ≡ reached (starts (rows_of table.now)) month) × (rows ≤ fixed_rows + announced_size table.now) }
    ensures { (result ≡ reached (starts (rows_of table.now)) next) × (result ≤ fixed_rows + announced_size table.now) }
{
    if next == month {
        return rows;
    }
    any_rows_reached(table, next)
}

// The offsets of a day by its month, the month of the next day, and its Modified Julian Date.
fn offsets_of_day(table: &AnnouncedRows, month: u64, next: u64, mjd: i64) -> (DayOffsets, Rule)
    requires { unsigned_abs mjd < 1000000000000 }
    ensures { result ≡ (
      offsets_of_day (rows_of table.now) month next mjd,
      rule_of (rows_of table.now) month,
    ) }
{
    let rows = table_rows_reached(table, month);
    let next_rows = next_rows_reached(table, rows, month, next);
    let midnight = mjd as f64;
    let next_midnight = (mjd + 1) as f64;
    let offsets = DayOffsets {
        at_0h: offset_by(table, rows, midnight, 0.0),
        at_12h: offset_by(table, rows, midnight, 0.5),
        at_24h: offset_by(table, next_rows, next_midnight, 0.0),
    };
    (offsets, rule_by(rows))
}

// By the Modified Julian Date and the next date. Refusals in order: 1 to 3 the date, then 5 no next day.
fn by_next_day(year: i32, month: i32, day: i32, table: &AnnouncedRows) -> DayByRule
    ensures { outcome result ≡ day_by_rule (rows_of table.now) year month day }
{
    let n = calendar::modified_julian_day(year, month, day)?;
    let t = calendar::next_calendar_day(year, month, day)?;
    Ok(offsets_of_day(
        table,
        month_number(year, month as u32),
        month_number(t.year, t.month),
        n,
    ))
}

// Refusals in order: 1 to 3 the date, then 5 no next day.
pub fn day_offsets_by_rows(year: i32, month: i32, day: i32, table: &AnnouncedRows) -> DayByRule
    ensures { outcome result ≡ day_by_rule (rows_of table.now) year month day }
{
    if plain_day(year, month, day) {
        let found = of_plain_day(year, month, day, table);
        let offsets = DayOffsets {
            at_0h: found.seconds,
            at_12h: found.seconds,
            at_24h: found.seconds,
        };
        let rule = found.rule;
        return Ok((offsets, rule));
    }
    by_next_day(year, month, day, table)
}

// kept: no plainer, beside `leap_at_end_of_day`: the test of the table and the call by its rows are functions already, and the pattern drops what is not asked.
// TAI-UTC at the start, the middle and the end of a day. Refusals in order: 20 to 22 the table, 1 to 3 the date, then 5 no next day.
pub fn day_offsets(
    year: i32,
    month: i32,
    day: i32,
    table: AnnouncedRows,
) -> Result<DayOffsets, Refusal>
    ensures { outcome result ≡ onward (table_of table) (λ rows. day_offsets rows year month day) }
{
    judge_table(&table)?;
    let (offsets, _) = day_offsets_by_rows(year, month, day, &table)?;
    Ok(offsets)
}

// Refusals as for its offsets.
pub fn leap_at_end_of_day_by_rows(
    year: i32,
    month: i32,
    day: i32,
    table: &AnnouncedRows,
) -> SecondsByRule
    ensures { outcome result ≡ leap_by_rule (rows_of table.now) year month day }
{
    if plain_day(year, month, day) {
        let found = of_plain_day(year, month, day, table);
        let x = found.seconds;
        let rule = found.rule;
        return Ok((x - (2.0 * x - x), rule));
    }
    let (o, rule) = by_next_day(year, month, day, table)?;
    Ok((o.at_24h - (2.0 * o.at_12h - o.at_0h), rule))
}

// How much longer the day is than 86,400 s and its drift: a leap second, one left out, or a step before 1972. Refusals as for its offsets.
pub fn leap_at_end_of_day(
    year: i32,
    month: i32,
    day: i32,
    table: AnnouncedRows,
) -> Result<f64, Refusal>
    ensures { outcome result ≡ onward (table_of table) (λ rows. leap_at_end_of_day rows year month day) }
{
    judge_table(&table)?;
    let (leap, _) = leap_at_end_of_day_by_rows(year, month, day, &table)?;
    Ok(leap)
}
