// TAI = GPS + 19 s.
ghost use Rattle.std.specs.Prelude.{◌≡◌};
ghost use Rattle.refusals.specs.Outcome.{seen};
ghost use Rattle.scales.specs.Formulas.{gps_days};
ghost use Rattle.scales.specs.Conversions.{answer_of, gps-tai, tai-gps};

use super::{GPS, TAI};
use constants::{GPS_TO_TAI_OFFSET_SECONDS, SECONDS_PER_DAY_F64};
use julian::shifts::smaller_part::{earlier, later};
use refusals::Refusal;

#[tactic(auto, using(crate::proofs::Bits::numbers), unfolding(crate::specs::Formulas::gps_days, julian::specs::shifts::Shifts::days_of))]
pub fn gps_days() -> f64
    ensures { result ≡ gps_days }
{
    GPS_TO_TAI_OFFSET_SECONDS / SECONDS_PER_DAY_F64
}

pub fn gps_to_tai(gps: GPS) -> Result<TAI, Refusal>
    ensures { seen (λ s. s.0) result ≡ answer_of gps-tai gps.0 }
{
    Ok(TAI(later(julian::finite_jd(gps.0), gps_days())?))
}

pub fn tai_to_gps(tai: TAI) -> Result<GPS, Refusal>
    ensures { seen (λ s. s.0) result ≡ answer_of tai-gps tai.0 }
{
    Ok(GPS(earlier(julian::finite_jd(tai.0), gps_days())?))
}
