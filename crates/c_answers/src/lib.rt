// Answers for C: a code, and bytes at the start of a lent buffer.
#![tactic(auto)]

pub mod date_parts;
pub mod fields;
pub mod rules;
pub mod table;
pub mod wide_fields;

ghost use Rattle.std.specs.Prelude.{◌≡◌, ◌≤◌, length};
ghost use Rattle.refusals.specs.Refusal.{refusal_number};
ghost use Rattle.refusals.specs.Outcome.{answer, refusal};
ghost use Rattle.c_answers.specs.Delivery.{code, Delivered};

use refusals::Refusal;

// Minus a number, which is the code of what it refuses.
pub fn refused_by(number: u32) -> i64
    ensures { result ≡ code (refusal number) }
{
    let size = number as i64;
    let below_zero = 0 - size;
    below_zero
}

// The code of a refusal.
pub fn refused(r: Refusal) -> i64
    ensures { result ≡ code (refusal (refusal_number r)) }
{
    refused_by(r.number())
}

// The number of bytes put; where they do not fit, 11 and nothing is written.
pub(crate) fn put(all: &[u8], out: &mut [u8]) -> i64
    requires { length all.now ≤ 64 }
    ensures { Delivered (answer all.now) out.old result out.new }
{
    if out.len() < all.len() {
        return refused(Refusal::NoRoom);
    }
    numerals::place::copy(all, out) as i64
}
