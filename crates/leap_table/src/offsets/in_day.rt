// TAI-UTC at a fraction of a day, and the rule that it was read by.
ghost use Rattle.std.specs.Prelude.{◌≡◌, true};
ghost use Rattle.floats.specs.Whole.{nought};
ghost use Rattle.refusals.specs.Outcome.{onward, outcome};
ghost use Rattle.leap_table.specs.rows.Announced.{rows_of, table_of};
ghost use Rattle.leap_table.specs.offsets.Offset.{in_day};
ghost use Rattle.leap_table.specs.offsets.Rule.{offset_by_rule};

use super::SecondsByRule;
use super::look_up::{
    month_number, of_plain_day, offset_by, plain_day, rule_by, table_rows_reached,
};
use crate::rows::{AnnouncedRows, judge_table};
use refusals::Refusal;

// By the Modified Julian Date. Refusals 1 to 3, the date.
fn by_mjd(year: i32, month: i32, day: i32, fraction: f64, table: &AnnouncedRows) -> SecondsByRule
    requires { in_day fraction ≡ true }
    ensures { outcome result ≡ offset_by_rule (rows_of table.now) year month day fraction }
{
    let n = calendar::modified_julian_day(year, month, day)?;
    let rows = table_rows_reached(table, month_number(year, month as u32));
    Ok((offset_by(table, rows, n as f64, fraction), rule_by(rows)))
}

// Refusals in order: 7 the fraction, then 1 to 3 the date.
pub fn get_tai_utc_offset_by_rows(
    year: i32,
    month: i32,
    day: i32,
    fraction: f64,
    table: &AnnouncedRows,
) -> SecondsByRule
    ensures { outcome result ≡ offset_by_rule (rows_of table.now) year month day fraction }
{
    if !(0.0 <= fraction) {
        return Err(Refusal::FractionNotInDay);
    }
    if !(fraction <= 1.0) {
        return Err(Refusal::FractionNotInDay);
    }
    if plain_day(year, month, day) {
        let found = of_plain_day(year, month, day, table);
        let rule = found.rule;
        return Ok((found.seconds, rule));
    }
    by_mjd(year, month, day, fraction, table)
}

// kept: tried and slower: as the call above with 0.0, whose two tests 0h does not need, it took 66 instructions for 60 of a day of 2020, 136 for 132 of 1965.
// At 0h. Refusals 1 to 3, the date.
pub fn offset_at_0h_by_rows(year: i32, month: i32, day: i32, table: &AnnouncedRows) -> SecondsByRule
    ensures { outcome result ≡ offset_by_rule (rows_of table.now) year month day nought }
{
    if plain_day(year, month, day) {
        let found = of_plain_day(year, month, day, table);
        let rule = found.rule;
        return Ok((found.seconds, rule));
    }
    by_mjd(year, month, day, 0.0, table)
}

// TAI-UTC at a fraction of a day, and its rule. Refusals in order: 20 to 22 the table, 7 the fraction, then 1 to 3 the date.
pub fn get_tai_utc_offset(
    year: i32,
    month: i32,
    day: i32,
    fraction: f64,
    table: AnnouncedRows,
) -> SecondsByRule
    ensures { outcome result ≡ onward (table_of table) (λ rows. offset_by_rule rows year month day fraction) }
{
    judge_table(&table)?;
    get_tai_utc_offset_by_rows(year, month, day, fraction, &table)
}
