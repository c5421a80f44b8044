// A date moved by an offset in seconds that the caller gives: the date is tested before the offset.
ghost use Rattle.std.specs.Prelude.{◌≡◌};
ghost use Rattle.refusals.specs.Outcome.{outcome};
ghost use Rattle.julian.specs.shifts.Shifts.{days_of, plus, minus, finite_both, converted_by};

use super::smaller_part::{earlier, later};
use crate::JulianDate;
use constants::SECONDS_PER_DAY_F64;
use refusals::Refusal;

#[tactic(auto, using(constants::proofs::Bits::numbers), unfolding(crate::specs::shifts::Shifts::days_of))]
fn days_of(seconds: f64) -> f64
    ensures { result ≡ days_of seconds }
{
    seconds / SECONDS_PER_DAY_F64
}

// The date, where it and the offset are finite. Refusals in order: 9 the date, then 10 the offset.
fn finite_both(jd: JulianDate, seconds: f64) -> Result<JulianDate, Refusal>
    ensures { outcome result ≡ finite_both seconds jd }
{
    let date = crate::finite_jd(jd)?;
    crate::finite_arg(seconds)?;
    Ok(date)
}

#[tactic(auto, using(crate::proofs::shifts::Shifted::shifted_says), unfolding(crate::specs::shifts::Shifts::converted_by))]
pub fn later_by(jd: JulianDate, seconds: f64) -> Result<JulianDate, Refusal>
    ensures { outcome result ≡ converted_by plus seconds jd }
{
    later(finite_both(jd, seconds), days_of(seconds))
}

#[tactic(auto, using(crate::proofs::shifts::Shifted::shifted_says), unfolding(crate::specs::shifts::Shifts::converted_by))]
pub fn earlier_by(jd: JulianDate, seconds: f64) -> Result<JulianDate, Refusal>
    ensures { outcome result ≡ converted_by minus seconds jd }
{
    earlier(finite_both(jd, seconds), days_of(seconds))
}
