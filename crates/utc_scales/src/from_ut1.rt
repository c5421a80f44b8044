// UT1 to UTC by DUT1, with its scan for a leap second. From scales/conversions/utc_ut1/mod.rs.
ghost use Rattle.std.specs.Prelude.{◌≡◌};
ghost use Rattle.refusals.specs.Outcome.{onward, outcome, seen};
ghost use Rattle.constants.specs.Constants.{mjd_zero_point};
ghost use Rattle.julian.specs.JulianDate.{julian};
ghost use Rattle.leap_table.specs.rows.Announced.{rows_of, table_of};
ghost use Rattle.utc_scales.specs.days.LargerPart.{change_smaller};
ghost use Rattle.utc_scales.specs.from_ut1.Ut1Utc as U;
ghost use Rattle.utc_scales.specs.from_ut1.KnownMonths.{RightMonth, RightScan};

mod months;

use crate::days::{kept_parts, mjd_of, put_beside};
use constants::SECONDS_PER_DAY_F64;
use julian::JulianDate;
use leap_table::rows::AnnouncedRows;
use months::{KnownMonth, month_of_date, month_with};
use refusals::Refusal;
use scales::{UT1, UTC};

// What a scanned day shows: its month and TAI-UTC, with no step from the day before; or DUT1 near its step.
#[derive(Clone, Copy)]
enum DayScan {
    NoStep(KnownMonth),
    Step(f64),
}

// DUT1 less the step, where both have one sign.
#[tactic(auto, unfolding(crate::specs::from_ut1::Ut1Utc::before_step))]
fn before_step(delta: f64, dut1: f64) -> f64
    ensures { result ≡ U.before_step delta dut1 }
{
    if delta * dut1 >= 0.0 {
        dut1 - delta
    } else {
        dut1
    }
}

fn time_past_leap(big: f64, small: f64, mjd: f64, dut1: f64) -> f64
    ensures { result ≡ U.time_past_leap big small (julian mjd_zero_point mjd) dut1 }
{
    (big - JulianDate::MJD_ZERO_POINT) + (small - (mjd - 1.0 + dut1 / SECONDS_PER_DAY_F64))
}

// kept: by `<` and no `min`: the definition `at_most_one` is this test, by which the check finds it.
#[tactic(auto, unfolding(crate::specs::from_ut1::Ut1Utc::at_most_one))]
fn at_most_one(x: f64) -> f64
    ensures { result ≡ U.at_most_one x }
{
    if x < 1.0 { x } else { 1.0 }
}

// DUT1 with the part of the step that has passed.
#[tactic(auto, unfolding(crate::specs::from_ut1::Ut1Utc::after_step))]
fn after_step(past: f64, delta: f64, dut1: f64) -> f64
    ensures { result ≡ U.after_step past delta dut1 }
{
    if past > 0.0 {
        let fraction = at_most_one(past * SECONDS_PER_DAY_F64 / (SECONDS_PER_DAY_F64 + delta));
        dut1 + delta * fraction
    } else {
        dut1
    }
}

#[tactic(auto, unfolding(crate::specs::from_ut1::Ut1Utc::near_step))]
fn near_step(big: f64, small: f64, dut1: f64, delta: f64, mjd: f64) -> f64
    ensures { result ≡ U.near_step big small dut1 delta (julian mjd_zero_point mjd) }
{
    let duts = before_step(delta, dut1);
    after_step(time_past_leap(big, small, mjd, duts), delta, duts)
}

// The day i days later. Refusals in order: 6, 1.
// kept: the two parts and DUT1 one by one, as the definitions of specs/from_ut1/Ut1Utc take them.
fn scan_day(
    big: f64,
    small: f64,
    dut1: f64,
    i: f64,
    before: KnownMonth,
    table: &AnnouncedRows,
) -> Result<DayScan, Refusal>
    requires { RightMonth (rows_of table.now) before }
    ensures { (seen U.scanned result ≡ U.scan_day (rows_of table.now) big small dut1 i before.seconds)
        × RightScan (rows_of table.now) result }
{
    let d = julian::day_number::day_number_and_fraction(big, small + i)?;
    let k = month_with(d.day, before, table)?;
    let delta = k.seconds - before.seconds;
    if floats::fabs(delta) < 0.5 {
        return Ok(DayScan::NoStep(k));
    }
    Ok(DayScan::Step(near_step(big, small, dut1, delta, mjd_of(d.day))))
}

// The days 0 to 3, until a step; with none DUT1 stays.
fn scan(
    big: f64,
    small: f64,
    dut1: f64,
    first: KnownMonth,
    table: &AnnouncedRows,
) -> Result<f64, Refusal>
    requires { RightMonth (rows_of table.now) first }
    ensures { outcome result ≡ U.scan (rows_of table.now) big small dut1 4 0 first.seconds }
{
    let mut before = first;
    for i in 0..4u32 {
        match scan_day(big, small, dut1, i as f64, before, table)? {
            DayScan::NoStep(k) => {
                before = k;
            }
            DayScan::Step(x) => {
                return Ok(x);
            }
        }
    }
    Ok(dut1)
}

// Day -1 is only looked up.
fn adjust_dut1_for_leap_second(
    big: f64,
    small: f64,
    dut1: f64,
    table: &AnnouncedRows,
) -> Result<f64, Refusal>
    ensures { outcome result ≡ U.adjust_dut1 (rows_of table.now) big small dut1 }
{
    let first = month_of_date(big, small + -1.0, table)?;
    scan(big, small, dut1, first, table)
}

// The smaller part in UTC.
#[tactic(auto, using(refusals::proofs::Handed::handed_by, scales::proofs::Bits::numbers), unfolding(crate::specs::from_ut1::Ut1Utc::utc_fraction))]
fn utc_fraction(dut1: f64, big: f64, small: f64, table: &AnnouncedRows) -> Result<f64, Refusal>
    ensures { outcome result ≡ U.utc_fraction (rows_of table.now) dut1 big small }
{
    let adjusted = adjust_dut1_for_leap_second(big, small, dut1, table)?;
    Ok(small - adjusted / SECONDS_PER_DAY_F64)
}

// The same in its place.
fn less_dut1(jd: JulianDate, dut1: f64, table: &AnnouncedRows) -> Result<JulianDate, Refusal>
    ensures { outcome result ≡ change_smaller (U.utc_fraction (rows_of table.now) dut1) jd }
{
    let p = kept_parts(jd);
    let smaller = utc_fraction(dut1, p.larger, p.smaller, table)?;
    Ok(put_beside(p, smaller))
}

// Refusals in order: 10, 9, then 6 or 1 for each scanned day.
#[tactic(auto, using(refusals::proofs::Handed::handed_by), unfolding(crate::specs::from_ut1::Ut1Utc::ut1_to_utc))]
pub fn ut1_to_utc_with_dut1_by_rows(
    ut1: UT1,
    dut1: f64,
    table: &AnnouncedRows,
) -> Result<UTC, Refusal>
    ensures { seen (λ s. s.0) result ≡ U.ut1_to_utc (rows_of table.now) ut1.0 dut1 }
{
    julian::finite_arg(dut1)?;
    let jd = julian::finite_jd(ut1.0)?;
    Ok(UTC(less_dut1(jd, dut1, table)?))
}

// Refusals in order: 20 to 22 the table, 10, 9, then 6 or 1 for each scanned day.
pub fn ut1_to_utc_with_dut1(ut1: UT1, dut1: f64, table: AnnouncedRows) -> Result<UTC, Refusal>
    ensures { seen (λ s. s.0) result ≡ onward (table_of table) (λ rows. U.ut1_to_utc rows ut1.0 dut1) }
{
    leap_table::rows::judge_table(&table)?;
    ut1_to_utc_with_dut1_by_rows(ut1, dut1, &table)
}
