// UT1 = TAI + (UT1 - TAI) and TT = UT1 + Delta T, the seconds given by the caller.
ghost use Rattle.std.specs.Prelude.{◌≡◌};
ghost use Rattle.refusals.specs.Outcome.{seen};
ghost use Rattle.scales.specs.Conversions.{answer_of, tai-ut1, ut1-tai, ut1-tt, tt-ut1};

use super::{TAI, TT, UT1};
use julian::shifts::given_offset::{earlier_by, later_by};
use refusals::Refusal;

pub fn ut1_to_tai_with_offset(ut1: UT1, seconds: f64) -> Result<TAI, Refusal>
    ensures { seen (λ s. s.0) result ≡ answer_of (ut1-tai seconds) ut1.0 }
{
    Ok(TAI(earlier_by(ut1.0, seconds)?))
}

pub fn tai_to_ut1_with_offset(tai: TAI, seconds: f64) -> Result<UT1, Refusal>
    ensures { seen (λ s. s.0) result ≡ answer_of (tai-ut1 seconds) tai.0 }
{
    Ok(UT1(later_by(tai.0, seconds)?))
}

pub fn ut1_to_tt_with_delta_t(ut1: UT1, seconds: f64) -> Result<TT, Refusal>
    ensures { seen (λ s. s.0) result ≡ answer_of (ut1-tt seconds) ut1.0 }
{
    Ok(TT(later_by(ut1.0, seconds)?))
}

pub fn tt_to_ut1_with_delta_t(tt: TT, seconds: f64) -> Result<UT1, Refusal>
    ensures { seen (λ s. s.0) result ≡ answer_of (tt-ut1 seconds) tt.0 }
{
    Ok(UT1(earlier_by(tt.0, seconds)?))
}
