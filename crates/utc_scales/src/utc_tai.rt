// UTC to TAI, and TAI to UTC in three rounds. From scales/conversions/utc_tai/mod.rs but its calendar.
ghost use Rattle.std.specs.Prelude.{◌≡◌};
ghost use Rattle.refusals.specs.Outcome.{onward, outcome, seen};
ghost use Rattle.julian.specs.JulianDate.{julian};
ghost use Rattle.constants.specs.Constants.{mjd_zero_point};
ghost use Rattle.leap_table.specs.rows.Announced.{rows_of, table_of};
ghost use Rattle.utc_scales.specs.ByRule.{utc_to_tai_by_rule};
ghost use Rattle.utc_scales.specs.Known.{RightKnown, RightPart, DayOfDate};
ghost use Rattle.utc_scales.specs.UtcTai as U;

use super::table::{KnownDay, day_with};
use crate::days::{kept_parts, mjd_of, put_beside};
use constants::SECONDS_PER_DAY_F64;
use julian::JulianDate;
use leap_table::offsets::{DayOffsets, Rule};
use leap_table::rows::AnnouncedRows;
use refusals::Refusal;
use scales::{TAI, UTC};

// The smaller part of a date, and the day that was looked up for it.
#[derive(Clone, Copy)]
pub(crate) struct KnownPart {
    pub part: f64,
    pub known: KnownDay,
}

// A date with the rule of its offset.
pub type TaiByRule = Result<(TAI, Rule), Refusal>;

// The fraction of a day of 86,400 s, the drift through it and the leap at its end, in days of 86,400 s.
fn stretch_day_fraction(o: DayOffsets, fraction: f64) -> f64
    ensures { result ≡ U.stretch_day_fraction o fraction }
{
    let drift_rate = 2.0 * (o.at_12h - o.at_0h);
    let leap_amount = o.at_24h - (o.at_0h + drift_rate);
    let stretched = fraction * ((SECONDS_PER_DAY_F64 + leap_amount) / SECONDS_PER_DAY_F64);
    stretched * ((SECONDS_PER_DAY_F64 + drift_rate) / SECONDS_PER_DAY_F64)
}

// The smaller part in TAI, from the day's midnight and its offsets.
#[tactic(auto, using(scales::proofs::Bits::numbers), unfolding(crate::specs::UtcTai::tai_from_midnight))]
fn tai_from_midnight(big: f64, mjd: f64, o: DayOffsets, fraction: f64) -> f64
    ensures { result ≡ U.tai_from_midnight big (julian mjd_zero_point mjd) o fraction }
{
    let midnight = JulianDate::MJD_ZERO_POINT - big + mjd;
    midnight + (stretch_day_fraction(o, fraction) + o.at_0h / SECONDS_PER_DAY_F64)
}

// The smaller part in TAI, and the day that was read for it. Refusals in order: 6, then the date's.
pub(crate) fn tai_fraction(
    big: f64,
    small: f64,
    known: Option<KnownDay>,
    table: &AnnouncedRows,
) -> Result<KnownPart, Refusal>
    requires { RightKnown (rows_of table.now) known }
    ensures { (seen (λ k. k.part) result ≡ U.tai_fraction (rows_of table.now) big small)
        × DayOfDate (rows_of table.now) big small result }
{
    let d = julian::day_number::day_number_and_fraction(big, small)?;
    let (offsets, rule) = day_with(d.day, known, table)?;
    let part = tai_from_midnight(big, mjd_of(d.day), offsets, d.fraction);
    Ok(KnownPart {
        part,
        known: KnownDay {
            day: d.day,
            offsets,
            rule,
        },
    })
}

// Refusals in order: 6, then the date's.
pub fn utc_to_tai_by_rows(utc: UTC, table: &AnnouncedRows) -> TaiByRule
    ensures { seen (λ p. (p.0.0, p.1)) result ≡ utc_to_tai_by_rule (rows_of table.now) utc.0 }
{
    let p = kept_parts(utc.0);
    let k = tai_fraction(p.larger, p.smaller, None, table)?;
    let day = k.known;
    let rule = day.rule;
    Ok((TAI(put_beside(p, k.part)), rule))
}

// kept: the test of the table and the call by its rows, as every call by a table has them: two steps, which are functions already.
// TAI with the rule of TAI-UTC on the date. Refusals in order: 20 to 22 the table, 6, then the date's.
pub fn utc_to_tai(utc: UTC, table: AnnouncedRows) -> TaiByRule
    ensures { seen (λ p. (p.0.0, p.1)) result ≡ onward (table_of table) (λ rows. utc_to_tai_by_rule rows utc.0) }
{
    leap_table::rows::judge_table(&table)?;
    utc_to_tai_by_rows(utc, &table)
}

// One round: the guess moved by what its TAI is off.
fn refined(
    big: f64,
    small: f64,
    guess: f64,
    known: Option<KnownDay>,
    table: &AnnouncedRows,
) -> Result<KnownPart, Refusal>
    requires { RightKnown (rows_of table.now) known }
    ensures { (seen (λ k. k.part) result ≡ U.refined (rows_of table.now) big small guess)
        × RightPart (rows_of table.now) result }
{
    let p = kept_parts(JulianDate {
        jd1: big,
        jd2: guess,
    });
    let k = tai_fraction(p.larger, p.smaller, known, table)?;
    let tai = put_beside(p, k.part);
    let moved = guess + (big - tai.jd1);
    let part = moved + (small - tai.jd2);
    let day = k.known;
    Ok(KnownPart { part, known: day })
}

// The guess starts at TAI and keeps TAI's larger part, so only the smaller part moves. The rounds mostly stay on one day, which is looked up once.
fn refine_utc_fraction(big: f64, small: f64, table: &AnnouncedRows) -> Result<f64, Refusal>
    ensures { outcome result ≡ U.refine_utc_fraction (rows_of table.now) big small }
{
    let one = refined(big, small, small, None, table)?;
    let day = one.known;
    let two = refined(big, small, one.part, Some(day), table)?;
    let day = two.known;
    let three = refined(big, small, two.part, Some(day), table)?;
    Ok(three.part)
}

// Refusals in each round, in order: 6, then the date's.
pub fn tai_to_utc_by_rows(tai: TAI, table: &AnnouncedRows) -> Result<UTC, Refusal>
    ensures { seen (λ s. s.0) result ≡ U.tai_to_utc (rows_of table.now) tai.0 }
{
    let p = kept_parts(tai.0);
    let smaller = refine_utc_fraction(p.larger, p.smaller, table)?;
    Ok(UTC(put_beside(p, smaller)))
}

// Refusals in order: 20 to 22 the table; then in each round 6, then the date's.
pub fn tai_to_utc(tai: TAI, table: AnnouncedRows) -> Result<UTC, Refusal>
    ensures { seen (λ s. s.0) result ≡ onward (table_of table) (λ rows. U.tai_to_utc rows tai.0) }
{
    leap_table::rows::judge_table(&table)?;
    tai_to_utc_by_rows(tai, &table)
}
