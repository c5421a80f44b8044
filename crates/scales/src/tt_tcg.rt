// TT = TCG - L_G (TCG - T0), T0 being 1977 January 1, 32.184 s after midnight.
ghost use Rattle.std.specs.Prelude.{◌≡◌};
ghost use Rattle.refusals.specs.Outcome.{seen};
ghost use Rattle.julian.specs.shifts.SmallerPart.{map_smaller_part};
ghost use Rattle.scales.specs.Formulas.{tcg_to_tt, tt_to_tcg};
ghost use Rattle.scales.specs.Conversions.{answer_of, tcg-tt, tt_tcg};

use super::{TCG, TT};
use constants::{TCG_RATE_LG, TCG_RATE_RATIO, TCG_REFERENCE_EPOCH};
use julian::JulianDate;
use julian::shifts::smaller_part::{put_back, split};
use refusals::Refusal;

#[tactic(auto, using(crate::proofs::Bits::numbers), unfolding(crate::specs::Formulas::tcg_to_tt, crate::specs::Formulas::since))]
pub fn tcg_to_tt_part(larger: f64, smaller: f64) -> f64
    ensures { result ≡ tcg_to_tt larger smaller }
{
    smaller
        - ((larger - JulianDate::MJD_ZERO_POINT) + (smaller - TCG_REFERENCE_EPOCH)) * TCG_RATE_LG
}

#[tactic(auto, using(crate::proofs::Bits::numbers), unfolding(crate::specs::Formulas::tt_to_tcg, crate::specs::Formulas::since))]
pub fn tt_to_tcg_part(larger: f64, smaller: f64) -> f64
    ensures { result ≡ tt_to_tcg larger smaller }
{
    smaller
        + ((larger - JulianDate::MJD_ZERO_POINT) + (smaller - TCG_REFERENCE_EPOCH)) * TCG_RATE_RATIO
}

// kept: two alike, two lines each; one function of a formula would ask each caller for a closure and its contract.
#[tactic(auto, unfolding(julian::specs::shifts::SmallerPart::map_smaller_part))]
fn as_tt(jd: JulianDate) -> JulianDate
    ensures { result ≡ map_smaller_part tcg_to_tt jd }
{
    let p = split(jd);
    put_back(jd, tcg_to_tt_part(p.larger, p.smaller))
}

#[tactic(auto, unfolding(julian::specs::shifts::SmallerPart::map_smaller_part))]
fn as_tcg(jd: JulianDate) -> JulianDate
    ensures { result ≡ map_smaller_part tt_to_tcg jd }
{
    let p = split(jd);
    put_back(jd, tt_to_tcg_part(p.larger, p.smaller))
}

pub fn tcg_to_tt(tcg: TCG) -> Result<TT, Refusal>
    ensures { seen (λ s. s.0) result ≡ answer_of tcg-tt tcg.0 }
{
    Ok(TT(as_tt(julian::finite_jd(tcg.0)?)))
}

pub fn tt_to_tcg(tt: TT) -> Result<TCG, Refusal>
    ensures { seen (λ s. s.0) result ≡ answer_of tt_tcg tt.0 }
{
    Ok(TCG(as_tcg(julian::finite_jd(tt.0)?)))
}
