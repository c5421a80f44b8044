// The texts of the marker boxes, each answered by a line.
// kept: buffer and index beside each other, as the calls below take them (`numerals::place`).
#![tactic(auto)]

ghost use Rattle.std.specs.Prelude.{◌+◌, ◌≤◌, length};
ghost use Rattle.refusals.specs.Outcome.{refusal};
ghost use Rattle.leap_table.specs.rows.Announced.{rows_of};
ghost use Rattle.utc.specs.iso_texts.Expanded.{iso_text_expanded};
ghost use Rattle.numerals.specs.digits.Placed.{Placed};
ghost use Rattle.readings.specs.Reading.{reading, reading_words, reading_line, LineCall};

use leap_table::rows::AnnouncedRows;
use numerals::place::place_bytes;
use reasons::sentences::numbers::place_decimal;
use refusals::Refusal;
use scales::UTC;

// So many bytes hold every line: an index of 64 bits has at most 20 digits, and so has a refusal's number for all that is proved of it; `refused` with its
// blank has 8, the text of a date at most 27, and a blank and the line's end are left.
const LINE_ROOM: usize = 50;

// kept: the number and no `Refusal`: wrong/every_refusal_as_15 turns code and definition alike, and the contracts hold of every number.
fn place_refused(number: u32, dst: &mut [u8], at: usize) -> usize
    requires { at + 28 ≤ length dst.old }
    ensures placed { Placed dst.old at (reading_words (refusal number)) result dst.new }
    ensures upper_bound { result ≤ at + 28 }
{
    let next = place_bytes(b"refused ", dst, at);
    place_decimal(number as u64, dst, next)
}

// kept: `match` here and below, since both arms write into `dst`.
fn place_text(utc: UTC, table: &AnnouncedRows, dst: &mut [u8], at: usize) -> usize
    requires { at + 28 ≤ length dst.old }
    ensures placed { Placed dst.old at
        (reading_words (iso_text_expanded (rows_of table.now) utc.0)) result dst.new }
    ensures upper_bound { result ≤ at + 28 }
{
    match utc::iso_texts::to_iso8601_expanded_by_rows(utc, table, &mut dst[at..]) {
        Ok((n, _)) => at + n,
        Err(refusal) => place_refused(refusal.number(), dst, at),
    }
}

fn place_reading(text: &[u8], table: &AnnouncedRows, dst: &mut [u8], at: usize) -> usize
    requires { at + 28 ≤ length dst.old }
    ensures placed { Placed dst.old at
        (reading_words (reading (rows_of table.now) text.now)) result dst.new }
    ensures upper_bound { result ≤ at + 28 }
{
    match parsing::from_str_by_rows(text, table) {
        Err(refusal) => place_refused(refusal.number(), dst, at),
        Ok(read) => place_text(read.date, table, dst, at),
    }
}

// The line that answers a text, at the start of the buffer, by the rows of a table that is tested elsewhere: how many bytes it has. 11 where the buffer has
// less than 50 bytes; nothing is written then.
pub fn answer_line(
    text: &[u8],
    index: u64,
    table: AnnouncedRows,
    out: &mut [u8],
) -> Result<usize, Refusal>
    ensures { LineCall (reading_line (rows_of table) text.now index) out.old result out.new }
{
    if out.len() < LINE_ROOM {
        return Err(Refusal::NoRoom);
    }
    let a = place_decimal(index, out, 0);
    let b = place_bytes(b" ", out, a);
    let c = place_reading(text, &table, out, b);
    Ok(place_bytes(b"\n", out, c))
}
