// The sentence of a reason: its text, the field's word and its value.
pub mod numbers;
mod words;

ghost use Rattle.std.specs.Prelude.{◌≤◌, length};
ghost use Rattle.numerals.specs.digits.Placed.{Placed};
ghost use Rattle.utc.specs.text.Answer.{TextPut};
ghost use Rattle.reasons.specs.sentences.Render.{render};

use refusals::Refusal;

// The field at fault, with its value.
#[derive(Clone, Copy)]
pub enum Named {
    NoField,
    Year(i32),
    Month(i32),
    Day(i32),
    Hour(u8),
    Minute(u8),
    Second(f64),
    Sum(f64),
    Fraction(f64),
    Nanos(u32),
    FirstPart(f64),
    SecondPart(f64),
    Offset(f64),
    SecondSize(u32),
    Size(u32),
    WholeLength(u64),
}

// A refusal's number, and the field that it names.
#[derive(Clone, Copy)]
pub struct Reason {
    pub number: u32,
    pub named: Named,
}

// The sentence of any reason at the start of a slice that surely holds it.
fn compose(reason: Reason, dst: &mut [u8]) -> usize
    requires { 90 ≤ length dst.old }
    ensures placed { Placed dst.old 0 (render reason) result dst.new }
    ensures upper_bound { result ≤ 85 }
{
    let number = reason.number;
    let field = reason.named;
    let at = words::text(number, dst);
    words::named(field, dst, at)
}

// The sentence at the buffer's start; where it does not fit, 11 and nothing is written.
pub fn put_sentence(reason: Reason, out: &mut [u8]) -> Result<usize, Refusal>
    ensures { TextPut (render reason) out.old result out.new }
{
    let mut all = [0u8; 90];
    let n = compose(reason, &mut all);
    if out.len() < n {
        return Err(Refusal::NoRoom);
    }
    Ok(numerals::place::copy(&all[..n], out))
}
