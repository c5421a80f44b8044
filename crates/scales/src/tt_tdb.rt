// TDB = TT + an offset in seconds that the caller gives, TDB - TT.
ghost use Rattle.std.specs.Prelude.{◌≡◌};
ghost use Rattle.refusals.specs.Outcome.{seen};
ghost use Rattle.scales.specs.Conversions.{answer_of, tt-tdb, tdb-tt};

use super::{TDB, TT};
use julian::shifts::given_offset::{earlier_by, later_by};
use refusals::Refusal;

pub fn tt_to_tdb_with_offset(tt: TT, seconds: f64) -> Result<TDB, Refusal>
    ensures { seen (λ s. s.0) result ≡ answer_of (tt-tdb seconds) tt.0 }
{
    Ok(TDB(later_by(tt.0, seconds)?))
}

pub fn tdb_to_tt_with_offset(tdb: TDB, seconds: f64) -> Result<TT, Refusal>
    ensures { seen (λ s. s.0) result ≡ answer_of (tdb-tt seconds) tdb.0 }
{
    Ok(TT(earlier_by(tdb.0, seconds)?))
}
