// A refusal in a listing: by its number, or by its sentence.
ghost use Rattle.std.specs.Prelude.{◌≡◌, ◌+◌, ◌≤◌, ◌++◌, length};
ghost use Rattle.refusals.specs.Refusal.{refusal_number};
ghost use Rattle.numerals.specs.digits.Placed.{Placed};
ghost use Rattle.reasons.specs.declared.sentences.Reason.{Reason};
ghost use Rattle.reasons.specs.Offending.{offending};
ghost use Rattle.reasons.specs.sentences.Render.{render};
ghost use Rattle.reasons.specs.Widths.{OfWidth};
ghost use Rattle.stamps.specs.Listing.{refused_word, numeral, line_room, refused_values, block_values, reported};

use super::{Reporting, place};
use julian::JulianDate;
use numerals::place::place_bytes;
use reasons::Values;
use refusals::Refusal;

// `refused` and the number.
fn place_number(refusal: Refusal, dst: &mut [u8], at: usize) -> usize
    requires { at + 12 ≤ length dst.old }
    ensures placed { Placed dst.old at (refused_word ++ numeral (refusal_number refusal)) result dst.new }
    ensures upper_bound { result ≤ at + 12 }
{
    let next = place_bytes(b"refused ", dst, at);
    place::number(refusal.number(), dst, next)
}

// The sentence of a refusal: it is never refused itself, since no sentence has more than 57 bytes.
fn place_sentence(refusal: Refusal, values: Values, dst: &mut [u8], at: usize) -> usize
    requires { OfWidth values × (at + 57 ≤ length dst.old) }
    ensures placed { Placed dst.old at (render (record { number = refusal_number refusal; named = offending (refusal_number refusal) values })) result dst.new }
    ensures upper_bound { result ≤ at + 57 }
{
    at + reasons::put_reason(refusal.number(), values, &mut dst[at..]).unwrap_or(0)
}

// The values that the refusal of a date read.
// kept: no plainer: by `map_or` the value of a refusal would stand before the date's, and the closure would have the same lines.
fn refused_values(jd: JulianDate) -> Values
    ensures { result ≡ refused_values jd }
{
    match julian::julian_to_calendar(jd.jd1, jd.jd2) {
        Ok(found) => {
            let date = found.date;
            Values::Date(date.year, date.month as i32, date.day as i32)
        }
        Err(_) => Values::Parts(jd.jd1, jd.jd2),
    }
}

// The refusal of a date.
pub(crate) fn place_date_refused(
    reporting: Reporting,
    refusal: Refusal,
    jd: JulianDate,
    dst: &mut [u8],
    at: usize,
) -> usize
    requires { at + line_room reporting ≤ length dst.old + 7 }
    ensures placed { Placed dst.old at (reported reporting (refusal_number refusal) (refused_values jd)) result dst.new }
    ensures result_bound { result + 7 ≤ at + line_room reporting }
{
    match reporting {
        Reporting::Numbers => place_number(refusal, dst, at),
        Reporting::Sentences(_) => place_sentence(refusal, refused_values(jd), dst, at),
    }
}

// The refusal of a block.
pub(crate) fn place_block_reported(
    reporting: Reporting,
    refusal: Refusal,
    block: &[u8],
    dst: &mut [u8],
    at: usize,
) -> usize
    requires { at + line_room reporting ≤ length dst.old + 7 }
    ensures placed { Placed dst.old at (reported reporting (refusal_number refusal) (block_values reporting block.now)) result dst.new }
    ensures result_bound { result + 7 ≤ at + line_room reporting }
{
    match reporting {
        Reporting::Numbers => place_number(refusal, dst, at),
        Reporting::Sentences(came) => {
            let size = numerals::little_endian::u32_at(block, 0);
            let second = numerals::little_endian::u32_at(block, 4);
            place_sentence(refusal, Values::Block(came, size, second), dst, at)
        }
    }
}
