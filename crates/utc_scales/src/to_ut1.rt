// UTC to UT1 by DUT1. From scales/conversions/utc_ut1/mod.rs.
ghost use Rattle.std.specs.Prelude.{◌≡◌};
ghost use Rattle.refusals.specs.Outcome.{onward, outcome, seen};
ghost use Rattle.leap_table.specs.rows.Announced.{rows_of, table_of};
ghost use Rattle.utc_scales.specs.days.DateRule.{offset_of_date_by_rule};
ghost use Rattle.utc_scales.specs.Known.{SameDay};
ghost use Rattle.utc_scales.specs.to_ut1.ByRule.{utc_to_ut1_by_rule, offset_of_parts};

use crate::days::{Parts, kept_parts, offset_at_0h, put_beside};
use crate::utc_tai::tai_fraction;
use leap_table::offsets::{Rule, SecondsByRule};
use leap_table::rows::AnnouncedRows;
use refusals::Refusal;
use scales::{TAI, UT1, UTC};

// A date of UT1 with the rule of the offset that was read on the way.
pub type Ut1ByRule = Result<(UT1, Rule), Refusal>;

// TAI-UTC at 0h of the day of a Julian date, and its rule.
fn offset_of_date(jd1: f64, jd2: f64, table: &AnnouncedRows) -> SecondsByRule
    ensures { outcome result ≡ offset_of_date_by_rule (rows_of table.now) jd1 jd2 }
{
    let d = julian::day_number::day_number_and_fraction(jd1, jd2)?;
    offset_at_0h(d.day, table)
}

// The same of jd1 and jd2 in their order. Where jd1 is the larger part, the day has been looked up for TAI.
fn offset_with(p: Parts, x: f64, rule: Rule, table: &AnnouncedRows) -> SecondsByRule
    requires { SameDay (rows_of table.now) p.larger p.smaller x rule }
    ensures { outcome result ≡ offset_of_parts (rows_of table.now) p }
{
    if p.first {
        Ok((x, rule))
    } else {
        offset_of_date(p.smaller, p.larger, table)
    }
}

// Refusals in order: 10, 6, the date's.
pub fn utc_to_ut1_with_dut1_by_rows(utc: UTC, dut1: f64, table: &AnnouncedRows) -> Ut1ByRule
    ensures { seen (λ p. (p.0.0, p.1)) result ≡ utc_to_ut1_by_rule (rows_of table.now) utc.0 dut1 }
{
    julian::finite_arg(dut1)?;
    let p = kept_parts(utc.0);
    let k = tai_fraction(p.larger, p.smaller, None, table)?;
    let tai = put_beside(p, k.part);
    let day = k.known;
    let offsets = day.offsets;
    let (offset, rule) = offset_with(p, offsets.at_0h, day.rule, table)?;
    let ut1 = scales::ut1_tai::tai_to_ut1_with_offset(TAI(tai), dut1 - offset)?;
    Ok((ut1, rule))
}

// UT1 with the rule of TAI-UTC on the date. Refusals in order: 20 to 22 the table, 10, 6, the date's.
pub fn utc_to_ut1_with_dut1(utc: UTC, dut1: f64, table: AnnouncedRows) -> Ut1ByRule
    ensures { seen (λ p. (p.0.0, p.1)) result ≡ onward (table_of table) (λ rows. utc_to_ut1_by_rule rows utc.0 dut1) }
{
    leap_table::rows::judge_table(&table)?;
    utc_to_ut1_with_dut1_by_rows(utc, dut1, &table)
}
