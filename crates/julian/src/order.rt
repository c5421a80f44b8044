// Which of two dates is first, by their exact sums.
ghost use Rattle.std.specs.Prelude.{◌≡◌};
ghost use Rattle.julian.specs.order.Order as O;
ghost use Rattle.refusals.specs.Outcome.{seen};
ghost use Rattle.julian.specs.order.Places as P;

use refusals::Refusal;
use std::cmp::Ordering;

// The smaller rounded sum comes first; of equal ones the smaller error.
// kept: with a derived `PartialOrd` of ExactSum it is `<`, and slower: 18 instructions for 12 where the first sum is the greater, 38 for 26 where the errors
// decide and the first is not smaller; `compare` has 58 instructions for 46 with `partial_cmp`, and 84 with `<`.
fn sooner(s: crate::ExactSum, t: crate::ExactSum) -> bool
    ensures { result ≡ O.sooner s t }
{
    if s.sum < t.sum {
        return true;
    }
    if t.sum < s.sum {
        return false;
    }
    s.error < t.error
}

// kept: no `PartialOrd` of dates. Its law wants `Equal` exactly where `==` holds, and dates with equal infinite parts are equal (`equal-not-finite`), but have
// no place in this order: 9.
// The order of the exact sums, however each date is divided. 9 where a part is not finite, or so large that the two-sum overflows: then the error is not
// finite.
pub fn compare(a: crate::JulianDate, b: crate::JulianDate) -> Result<Ordering, Refusal>
    ensures { seen O.place result ≡ O.comparison a b }
{
    let one = crate::exact_sum(a.jd1, a.jd2);
    let two = crate::exact_sum(b.jd1, b.jd2);
    if !floats::is_finite(one.error) {
        return Err(Refusal::PartNotFinite);
    }
    if !floats::is_finite(two.error) {
        return Err(Refusal::PartNotFinite);
    }
    if sooner(one, two) {
        return Ok(Ordering::Less);
    }
    if sooner(two, one) {
        return Ok(Ordering::Greater);
    }
    Ok(Ordering::Equal)
}

// Whether a date has a place in the order: `compare` refuses it by 9 where it has none.
#[tactic(auto, unfolding(crate::specs::Equality::sums))]
pub fn has_place(a: crate::JulianDate) -> bool
    ensures { result ≡ P.has_place a }
{
    let one = crate::exact_sum(a.jd1, a.jd2);
    floats::is_finite(one.error)
}

// Whether the one date comes before the other; of dates that have a place.
#[tactic(auto, unfolding(crate::specs::Equality::sums, crate::specs::order::Places::is_earlier))]
pub fn is_earlier(a: crate::JulianDate, b: crate::JulianDate) -> bool
    ensures { result ≡ P.is_earlier a b }
{
    let one = crate::exact_sum(a.jd1, a.jd2);
    let two = crate::exact_sum(b.jd1, b.jd2);
    sooner(one, two)
}
