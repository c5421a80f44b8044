// Three numbers of 64 bits as bytes, put at the start of a lent buffer.
ghost use Rattle.refusals.specs.Outcome.{answer};
ghost use Rattle.c_answers.specs.Delivery.{Delivered};
ghost use Rattle.c_answers.specs.WideFields.{three_eights};

use super::fields::two_patterns;
use super::{put, refused};
use refusals::Refusal;

pub fn put_three_patterns(a: u64, b: u64, c: u64, out: &mut [u8]) -> i64
    ensures { Delivered (answer (three_eights a b c)) out.old result out.new }
{
    if out.len() < 24 {
        return refused(Refusal::NoRoom);
    }
    let first = two_patterns(a, b);
    let last = numerals::little_endian::bytes_of_u64(c);
    put(&first, out);
    put(&last, &mut out[16..]);
    24
}
