// The way of a date from one scale to another, through TAI. A scale is its number.
ghost use Rattle.std.specs.Prelude.{◌≡◌, false, List, eqb};
ghost use Rattle.refusals.specs.Outcome.{outcome, seen};
ghost use Rattle.julian.specs.shifts.Shifts.{plus, converted};
ghost use Rattle.leap_table.specs.rows.Table.{Row};
ghost use Rattle.leap_table.specs.rows.Announced.{rows_of};
ghost use Rattle.utc_scales.specs.UtcTai.{utc_to_tai, tai_to_utc};
ghost use Rattle.runs.specs.ways.Ways.{into_tai, out_of_tai, way_of};
ghost use Rattle.runs.specs.ways.Asked.{is_shifted, days_into_tai, days_out_of_tai, reads_day};
ghost use Rattle.runs.specs.Asked.{is_short};

use constants::scale_numbers::{GPS, TCG, TT, UTC};
use julian::JulianDate;
use leap_table::rows::AnnouncedRows;
use refusals::Refusal;
use scales::gps_tai::gps_days;
use scales::tai_tt::tt_days;

// UTC in TAI, without the rule.
pub(crate) fn utc_into_tai(jd: JulianDate, table: &AnnouncedRows) -> Result<JulianDate, Refusal>
    ensures { outcome result ≡ utc_to_tai (rows_of table.now) jd }
{
    let (tai, _) = utc_scales::utc_tai::utc_to_tai_by_rows(scales::UTC(jd), table)?;
    let date = tai.0;
    Ok(date)
}

// TAI in UTC.
#[tactic(auto, using(refusals::proofs::Handed::handed_by))]
pub(crate) fn tai_into_utc(jd: JulianDate, table: &AnnouncedRows) -> Result<JulianDate, Refusal>
    ensures { outcome result ≡ tai_to_utc (rows_of table.now) jd }
{
    let utc = utc_scales::utc_tai::tai_to_utc_by_rows(scales::TAI(jd), table)?;
    let date = utc.0;
    Ok(date)
}

// Whether the way reads TAI-UTC on a day.
pub(crate) fn reads_day(from: u32, to: u32) -> bool
    ensures { result ≡ reads_day from to }
{
    if from == UTC {
        return to != UTC;
    }
    to == UTC
}

// Whether the scale is a fixed offset from TAI.
fn is_shifted(n: u32) -> bool
    ensures { result ≡ is_shifted n }
{
    if n == TT {
        return true;
    }
    n == GPS
}

#[tactic(auto, unfolding(crate::specs::ways::Asked::days_into_tai))]
fn days_into_tai(from: u32) -> f64
    ensures { result ≡ days_into_tai from }
{
    if from == TT { -tt_days() } else { gps_days() }
}

fn days_out_of_tai(to: u32) -> f64
    ensures { result ≡ days_out_of_tai to }
{
    if to == TT { tt_days() } else { -gps_days() }
}

// The date so many days later, and 9 where a part is not finite.
#[tactic(auto, using(julian::proofs::shifts::Shifted::shifted_says), unfolding(julian::specs::shifts::Shifts::converted))]
fn shifted(jd: JulianDate, days: f64) -> Result<JulianDate, Refusal>
    ensures { outcome result ≡ converted (plus days) jd }
{
    julian::shifts::smaller_part::later(julian::finite_jd(jd), days)
}

// kept: the two directions apart. They share two tests; a body for both would take the shift and the formula of each as closures.
// A date of another scale than UTC in TAI. The offset is chosen before it is added, so that the addition stands once in the code.
// kept: `inline(always)` here and below, since a result that is handed over in memory is cleared first (13 to 68 instructions fewer for each stamp).
#[inline(always)]
pub(crate) fn into_tai_by_formula(from: u32, jd: JulianDate) -> Result<JulianDate, Refusal>
    requires { eqb from 0 ≡ false }
    ensures { (rows : List Row) → outcome result ≡ into_tai rows from jd }
{
    if is_shifted(from) {
        return shifted(jd, days_into_tai(from));
    }
    if from == TCG {
        let tai = scales::tai_tt::tcg_to_tai(scales::TCG(jd))?;
        let date = tai.0;
        return Ok(date);
    }
    Ok(jd)
}

// A date of TAI in another scale than UTC.
#[inline(always)]
pub(crate) fn out_of_tai_by_formula(to: u32, jd: JulianDate) -> Result<JulianDate, Refusal>
    requires { eqb to 0 ≡ false }
    ensures { (rows : List Row) → outcome result ≡ out_of_tai rows to jd }
{
    if is_shifted(to) {
        return shifted(jd, days_out_of_tai(to));
    }
    if to == TCG {
        let tcg = scales::tai_tt::tai_to_tcg(scales::TAI(jd))?;
        let date = tcg.0;
        return Ok(date);
    }
    Ok(jd)
}

// The date in scale `to` of a date in another scale `from`, where no day is read and the way is not one formula. Refusals as the single calls have them, the
// first that comes.
pub(crate) fn convert_by_formulas(from: u32, to: u32, jd: JulianDate) -> Result<JulianDate, Refusal>
    requires { (eqb from to ≡ false) × ((reads_day from to ≡ false) × (is_short from to ≡ false)) }
    ensures { (rows : List Row) → outcome result ≡ way_of rows from to jd }
{
    let tai = into_tai_by_formula(from, jd)?;
    out_of_tai_by_formula(to, tai)
}
