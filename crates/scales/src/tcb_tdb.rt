// TDB = TCB - L_B (TCB - T0) + TDB_0, T0 being 1977 January 1, 32.184 s after midnight.
ghost use Rattle.std.specs.Prelude.{◌≡◌};
ghost use Rattle.refusals.specs.Outcome.{seen};
ghost use Rattle.julian.specs.shifts.SmallerPart.{map_smaller_part};
ghost use Rattle.scales.specs.Formulas.{tcb_to_tdb, tdb_to_tcb};
ghost use Rattle.scales.specs.Conversions.{answer_of, tcb-tdb, tdb-tcb};

use super::{TCB, TDB};
use constants::{
    MJD_1977_JAN_1, SECONDS_PER_DAY_F64, TCB_RATE_LB, TCB_RATE_RATIO, TDB_OFFSET_1977,
    TT_TAI_OFFSET,
};
use julian::JulianDate;
use julian::shifts::smaller_part::{put_back, split};
use refusals::Refusal;

// T0: the day, and the 32.184 s after midnight in days.
const T77TD: f64 = JulianDate::MJD_ZERO_POINT + MJD_1977_JAN_1;

const T77TF: f64 = TT_TAI_OFFSET / SECONDS_PER_DAY_F64;

const TDB0: f64 = TDB_OFFSET_1977 / SECONDS_PER_DAY_F64;

#[tactic(auto, using(crate::proofs::Bits::numbers), unfolding(crate::specs::Formulas::tcb_to_tdb, crate::specs::Formulas::since))]
pub fn tcb_to_tdb_part(larger: f64, smaller: f64) -> f64
    ensures { result ≡ tcb_to_tdb larger smaller }
{
    smaller + TDB0 - ((larger - T77TD) + (smaller - T77TF)) * TCB_RATE_LB
}

#[tactic(auto, using(crate::proofs::Bits::numbers), unfolding(crate::specs::Formulas::tdb_to_tcb))]
pub fn tdb_to_tcb_part(larger: f64, smaller: f64) -> f64
    ensures { result ≡ tdb_to_tcb larger smaller }
{
    let f = smaller - TDB0;
    f - ((T77TD - larger) - (f - T77TF)) * TCB_RATE_RATIO
}

// kept: two alike, two lines each; one function of a formula would ask each caller for a closure and its contract.
#[tactic(auto, unfolding(julian::specs::shifts::SmallerPart::map_smaller_part))]
fn as_tdb(jd: JulianDate) -> JulianDate
    ensures { result ≡ map_smaller_part tcb_to_tdb jd }
{
    let p = split(jd);
    put_back(jd, tcb_to_tdb_part(p.larger, p.smaller))
}

#[tactic(auto, unfolding(julian::specs::shifts::SmallerPart::map_smaller_part))]
fn as_tcb(jd: JulianDate) -> JulianDate
    ensures { result ≡ map_smaller_part tdb_to_tcb jd }
{
    let p = split(jd);
    put_back(jd, tdb_to_tcb_part(p.larger, p.smaller))
}

pub fn tcb_to_tdb(tcb: TCB) -> Result<TDB, Refusal>
    ensures { seen (λ s. s.0) result ≡ answer_of tcb-tdb tcb.0 }
{
    Ok(TDB(as_tdb(julian::finite_jd(tcb.0)?)))
}

pub fn tdb_to_tcb(tdb: TDB) -> Result<TCB, Refusal>
    ensures { seen (λ s. s.0) result ≡ answer_of tdb-tcb tdb.0 }
{
    Ok(TCB(as_tcb(julian::finite_jd(tdb.0)?)))
}
