// TT = TAI + 32.184 s; between TAI and TCG the way goes through TT.
ghost use Rattle.std.specs.Prelude.{◌≡◌};
ghost use Rattle.refusals.specs.Outcome.{seen};
ghost use Rattle.scales.specs.Formulas.{tt_days};
ghost use Rattle.scales.specs.Conversions.{answer_of, tai-tt, tt-tai, tai-tcg, tcg-tai};

use super::tt_tcg::{tcg_to_tt, tt_to_tcg};
use super::{TAI, TCG, TT};
use constants::{SECONDS_PER_DAY_F64, TT_TAI_OFFSET};
use julian::shifts::smaller_part::{earlier, later};
use refusals::Refusal;

#[tactic(auto, using(crate::proofs::Bits::numbers), unfolding(crate::specs::Formulas::tt_days, julian::specs::shifts::Shifts::days_of))]
pub fn tt_days() -> f64
    ensures { result ≡ tt_days }
{
    TT_TAI_OFFSET / SECONDS_PER_DAY_F64
}

pub fn tai_to_tt(tai: TAI) -> Result<TT, Refusal>
    ensures { seen (λ s. s.0) result ≡ answer_of tai-tt tai.0 }
{
    Ok(TT(later(julian::finite_jd(tai.0), tt_days())?))
}

pub fn tt_to_tai(tt: TT) -> Result<TAI, Refusal>
    ensures { seen (λ s. s.0) result ≡ answer_of tt-tai tt.0 }
{
    Ok(TAI(earlier(julian::finite_jd(tt.0), tt_days())?))
}

pub fn tai_to_tcg(tai: TAI) -> Result<TCG, Refusal>
    ensures { seen (λ s. s.0) result ≡ answer_of tai-tcg tai.0 }
{
    tt_to_tcg(tai_to_tt(tai)?)
}

pub fn tcg_to_tai(tcg: TCG) -> Result<TAI, Refusal>
    ensures { seen (λ s. s.0) result ≡ answer_of tcg-tai tcg.0 }
{
    tt_to_tai(tcg_to_tt(tcg)?)
}
