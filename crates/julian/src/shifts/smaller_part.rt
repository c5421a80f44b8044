// The Rust's map_smaller_part: the smaller part of a date is chosen, changed, and put back. The larger part stays, so that no digit of it is lost.
ghost use Rattle.std.specs.Prelude.{◌≡◌};
ghost use Rattle.julian.specs.shifts.SmallerPart.{first_is_larger, parts_of, put_back, map_smaller_part};
ghost use Rattle.julian.specs.shifts.Shifts.{plus, minus, shifted};

use crate::JulianDate;

#[derive(Clone, Copy)]
pub struct Parts {
    pub larger: f64,
    pub smaller: f64,
}

// Whether jd1 is the larger part in size; on equal sizes it is not.
#[tactic(auto, unfolding(crate::specs::shifts::SmallerPart::first_is_larger))]
fn first_is_larger(jd: JulianDate) -> bool
    ensures { result ≡ first_is_larger jd }
{
    floats::larger_in_size(jd.jd1, jd.jd2)
}

pub fn split(jd: JulianDate) -> Parts
    ensures { result ≡ parts_of jd }
{
    if first_is_larger(jd) {
        Parts {
            larger: jd.jd1,
            smaller: jd.jd2,
        }
    } else {
        Parts {
            larger: jd.jd2,
            smaller: jd.jd1,
        }
    }
}

// The date with x for its smaller part.
pub fn put_back(jd: JulianDate, x: f64) -> JulianDate
    ensures { result ≡ put_back jd x }
{
    if first_is_larger(jd) {
        JulianDate {
            jd1: jd.jd1,
            jd2: x,
        }
    } else {
        JulianDate {
            jd1: x,
            jd2: jd.jd2,
        }
    }
}

#[tactic(auto, unfolding(crate::specs::shifts::SmallerPart::map_smaller_part, crate::specs::shifts::Shifts::plus))]
fn add_days(jd: JulianDate, days: f64) -> JulianDate
    ensures { result ≡ map_smaller_part (plus days) jd }
{
    let p = split(jd);
    put_back(jd, p.smaller + days)
}

#[tactic(auto, unfolding(crate::specs::shifts::SmallerPart::map_smaller_part, crate::specs::shifts::Shifts::minus))]
fn subtract_days(jd: JulianDate, days: f64) -> JulianDate
    ensures { result ≡ map_smaller_part (minus days) jd }
{
    let p = split(jd);
    put_back(jd, p.smaller - days)
}

// The date so many days later; a refusal, of whatever type, stays.
pub fn later<E>(a: Result<JulianDate, E>, days: f64) -> Result<JulianDate, E>
    ensures { result ≡ shifted (plus days) a }
{
    Ok(add_days(a?, days))
}

// The date so many days earlier; a refusal, of whatever type, stays. It shifts, and orders nothing.
// kept: no `-` for it: `JulianDate::add_days` shifts by another rule, the whole days into jd1, and a sign would not tell it from this.
pub fn earlier<E>(a: Result<JulianDate, E>, days: f64) -> Result<JulianDate, E>
    ensures { result ≡ shifted (minus days) a }
{
    Ok(subtract_days(a?, days))
}
