// A refusal's reason as an English sentence that names the field at fault.
#![tactic(auto)]

mod fields;
pub mod sentences;

ghost use Rattle.std.specs.Prelude.{◌≡◌};
ghost use Rattle.refusals.specs.Outcome.{outcome};
ghost use Rattle.utc.specs.iso_texts.TextCall.{TextCall};
ghost use Rattle.reasons.specs.Offending.{offending};
ghost use Rattle.reasons.specs.Sentence.{reason_of, sentence};

use crate::sentences::{Named, Reason};
use refusals::Refusal;

// The values that a refusal's test reads; where none are at hand, `NoValues`.
#[derive(Clone, Copy)]
pub enum Values {
    NoValues,
    // year, month, day: 1, 2, 3
    Date(i32, i32, i32),
    // hour, minute, second, and the day's length less 86,400 s: 4
    Time(u8, u8, f64, f64),
    // jd1, jd2: 6, 9
    Parts(f64, f64),
    // a fraction of a day, or an offset: 7, 10
    Number(f64),
    // nanoseconds: 8
    Count(u32),
    // the whole length of a block, its size and its second size: 12, 13, 14
    Block(u64, u32, u32),
}

// The field that the number names, of the values that are given.
#[tactic(auto, unfolding(crate::specs::Offending::offending))]
fn named_field(number: u32, values: Values) -> Named
    ensures { result ≡ offending number values }
{
    match values {
        Values::NoValues => Named::NoField,
        Values::Date(year, month, day) => fields::date_field(number, year, month, day),
        Values::Time(hour, minute, second, leap) => {
            fields::time_field(number, hour, minute, second, leap)
        }
        Values::Parts(jd1, jd2) => fields::parts_field(number, jd1, jd2),
        Values::Number(x) => fields::float_field(number, x),
        Values::Count(n) => fields::nanos_field(number, n),
        Values::Block(length, size, second) => fields::block_field(number, length, size, second),
    }
}

// The reason of a number with the values of its test. 18: a number that is not 1 to 28.
// kept: a number, not a `Refusal`, here and where it is handed on, since C asks by any number (ct_reason).
#[tactic(auto, unfolding(crate::specs::Sentence::reason_of, refusals::specs::Outcome::outcome, refusals::specs::Refusal::refusal_number))]
pub fn reason_of(number: u32, values: Values) -> Result<Reason, Refusal>
    ensures { outcome result ≡ reason_of number values }
{
    if number < 1 {
        return Err(Refusal::OutOfLimit);
    }
    if number > 28 {
        return Err(Refusal::OutOfLimit);
    }
    Ok(Reason {
        number,
        named: named_field(number, values),
    })
}

// The sentence of a number with the values of its test. Refusals in order: 18 a number that is not 1 to 28, then 11.
pub fn put_reason(number: u32, values: Values, out: &mut [u8]) -> Result<usize, Refusal>
    ensures { TextCall (sentence number values) out.old result out.new }
{
    let reason = reason_of(number, values)?;
    crate::sentences::put_sentence(reason, out)
}
