// Which formula leads from one scale to another.
ghost use Rattle.std.specs.Prelude.{◌≡◌, false, eqb};
ghost use Rattle.runs.specs.by_formula.Asked.{kind_number, needs_none, size_due, IsFormula, IsOffsetKind};

use constants::scale_numbers::{GPS, TAI, TCB, TCG, TDB, TT, UT1, are};
use scales::gps_tai::gps_days;
use scales::tai_tt::tt_days;

// The kinds of formulas.
// kept: `NoFormula` and no `Option`, `days` beside the kind, and no closures: `change_of`, `size_due`, `kind_refusal` and `IsFormula` (specs/by_formula/Asked)
// speak of the kind's number, 0 for none, and of the days.
#[derive(Clone, Copy)]
pub(crate) enum Kind {
    // No formula leads from the one scale to the other.
    NoFormula,
    // The offset of a stamp, added.
    Later,
    // The offset of a stamp, taken away.
    Earlier,
    // So many days for every stamp.
    Shift,
    // The four that multiply by a rate.
    TtToTcg,
    TcgToTt,
    TcbToTdb,
    TdbToTcb,
}

// A kind, and the days of a fixed offset.
#[derive(Clone, Copy)]
pub(crate) struct Formula {
    pub kind: Kind,
    pub days: f64,
}

// The kind where the caller gives an offset, which is that of the scale with the higher number less the other.
fn offset_kind(from: u32, to: u32) -> Kind
    requires { needs_none from to ≡ false }
    ensures { IsOffsetKind from to (kind_number result) }
{
    if are(from, to, TAI, UT1) {
        return Kind::Later;
    }
    if are(from, to, UT1, TAI) {
        return Kind::Earlier;
    }
    if are(from, to, UT1, TT) {
        return Kind::Later;
    }
    if are(from, to, TT, UT1) {
        return Kind::Earlier;
    }
    if are(from, to, TT, TDB) {
        return Kind::Later;
    }
    if are(from, to, TDB, TT) {
        return Kind::Earlier;
    }
    Kind::NoFormula
}

fn of_kind(kind: Kind, days: f64) -> Formula
    ensures { (result.kind ≡ kind) × (result.days ≡ days) }
{
    Formula { kind, days }
}

pub(crate) fn formula_of(from: u32, to: u32) -> Formula
    ensures { IsFormula from to (kind_number result.kind) result.days }
{
    if are(from, to, GPS, TAI) {
        return of_kind(Kind::Shift, gps_days());
    }
    if are(from, to, TAI, GPS) {
        return of_kind(Kind::Shift, -gps_days());
    }
    if are(from, to, TAI, TT) {
        return of_kind(Kind::Shift, tt_days());
    }
    if are(from, to, TT, TAI) {
        return of_kind(Kind::Shift, -tt_days());
    }
    if are(from, to, TT, TCG) {
        return of_kind(Kind::TtToTcg, 0.0);
    }
    if are(from, to, TCG, TT) {
        return of_kind(Kind::TcgToTt, 0.0);
    }
    if are(from, to, TCB, TDB) {
        return of_kind(Kind::TcbToTdb, 0.0);
    }
    if are(from, to, TDB, TCB) {
        return of_kind(Kind::TdbToTcb, 0.0);
    }
    of_kind(offset_kind(from, to), 0.0)
}

#[tactic(auto, using(crate::proofs::by_formula::KindLaws::kinds))]
pub(crate) fn is_none(kind: Kind) -> bool
    ensures { result ≡ eqb (kind_number kind) 0 }
{
    matches!(kind, Kind::NoFormula)
}

// The bytes of the offsets that are due where the first parts have `size` bytes: as many where the caller gives an offset for each stamp.
#[tactic(auto, using(crate::proofs::by_formula::KindLaws::kinds), unfolding(crate::specs::by_formula::Asked::size_due))]
pub(crate) fn size_due(kind: Kind, size: usize) -> usize
    ensures { result ≡ size_due (kind_number kind) size }
{
    match kind {
        Kind::Later | Kind::Earlier => size,
        _ => 0,
    }
}
