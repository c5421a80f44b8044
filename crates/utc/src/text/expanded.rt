// UTC text with a sign and seven digits for a year that four digits do not hold: ISO 8601's expanded representation.
ghost use Rattle.std.specs.Prelude.{◌≡◌, ◌++◌, ◌∷◌, cond};
ghost use Rattle.utc.specs.text.Text.{seven, after_year};
ghost use Rattle.utc.specs.text.Expanded.{expanded_text};
ghost use Rattle.utc.specs.text.Answer.{TextPut};

use crate::text::year;
use calendar::CalendarDate;
use refusals::Refusal;
use time_of_day::TimeOfDay;

fn sign(negative: bool) -> u8
    ensures { result ≡ cond negative 45 43 }
{
    if negative { b'-' } else { b'+' }
}

// The text of a year with its sign: the seven places of `wide_bytes` are all digits, behind the sign.
fn put_signed(
    negative: bool,
    size: u32,
    date: CalendarDate,
    time: TimeOfDay,
    out: &mut [u8],
) -> Result<usize, Refusal>
    ensures { TextPut ((cond negative 45 43 ∷ seven size) ++ after_year date time) out.old result out.new }
{
    let third = year::third(false, size);
    let fourth = year::fourth(false, size);
    let all = crate::text::wide_bytes(third, fourth, size, date, time);
    if out.len() < 27 {
        return Err(Refusal::NoRoom);
    }
    let first = sign(negative);
    let n = numerals::place::copy(&all, &mut out[1..]);
    out[0] = first;
    Ok(1 + n)
}

// The text at the buffer's start, 23 or 27 bytes; where it does not fit, 11 and nothing is written.
// kept: no plainer, beside `put_text`: both are public calls, and differ in how a year that four digits do not hold is put, which is a call already.
pub fn put_text_expanded(
    date: CalendarDate,
    time: TimeOfDay,
    out: &mut [u8],
) -> Result<usize, Refusal>
    ensures { TextPut (expanded_text date time) out.old result out.new }
{
    let negative = year::negative(date.year);
    let size = year::size(date.year);
    if year::is_basic(negative, size) {
        return crate::text::put_basic(size, date, time, out);
    }
    put_signed(negative, size, date, time, out)
}
