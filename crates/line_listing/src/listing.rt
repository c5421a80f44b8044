// The whole listing in parts, from the head to the last line: a caller keeps a cursor and calls again until a part is empty.
// kept: lists as ct_line_listing_part lends them; sizes and ends of the runs, which it lends in records, one by one, as `ListingCall` names them.
ghost use Rattle.std.specs.Prelude.{◌≡◌, ◌+◌, ◌<◌, ◌≤◌, length, if◌then◌else◌, nat_le};
ghost use Rattle.refusals.specs.Outcome.{answer, number_said};
ghost use Rattle.leap_table.specs.rows.Announced.{rows_of, table_of};
ghost use Rattle.line_listing.specs.lines.StampLine.{stamps};
ghost use Rattle.line_listing.specs.lines.Parts.{lines_of_order};
ghost use Rattle.line_listing.specs.listing.Part.{head_step, lines_step, end_step, listing_refusal, ListingCall};
ghost use Rattle.line_listing.specs.listing.Asked.{StepWritten};

use crate::head::{RunEnd, compose, compose_end, count_of};
use crate::lines::{Part, judge_places, page_part, part_lines};
use leap_table::rows::AnnouncedRows;
use refusals::Refusal;

// The head.
fn head_step(
    gps: RunEnd,
    tai: RunEnd,
    utc: RunEnd,
    jd1s: &[u8],
    jd2s: &[u8],
    numbers: &[u8],
    first: usize,
    second: usize,
    textless: usize,
    out: &mut [u8],
) -> Part
    requires { 550 ≤ length out.old }
    ensures { StepWritten (head_step gps tai utc (stamps jd1s.now jd2s.now numbers.now first second) textless)
        out.old result out.new }
{
    let written = compose(jd1s, jd2s, numbers, first, second, gps, tai, utc, out);
    Part {
        written,
        line: 1,
        textless,
    }
}

// Lines of stamps, from line `line` of the listing on, which is one of them.
fn lines_step(
    sentences: bool,
    jd1s: &[u8],
    jd2s: &[u8],
    numbers: &[u8],
    first: usize,
    second: usize,
    order: &[u8],
    line: usize,
    textless: usize,
    table: &AnnouncedRows,
    out: &mut [u8],
) -> Part
    requires { (1 ≤ line) × (line ≤ lines_of_order order.now) }
    ensures { StepWritten (lines_step sentences (rows_of table.now)
        (stamps jd1s.now jd2s.now numbers.now first second) order.now line textless (length out.old))
        out.old result out.new }
{
    let from = line - 1;
    let count = part_lines(sentences, order.len() / 4, from, out.len());
    let part = page_part(
        sentences, jd1s, jd2s, numbers, first, second, order, from, count, table, out,
    );
    Part {
        written: part.written,
        line: line + count,
        textless: std::num::wrapping_add_usize(textless, part.textless),
    }
}

// The last line.
fn end_step(
    jd1s: &[u8],
    jd2s: &[u8],
    numbers: &[u8],
    first: usize,
    second: usize,
    line: usize,
    textless: usize,
    out: &mut [u8],
) -> Part
    requires { (line + 1 < 18446744073709551616) × (64 ≤ length out.old) }
    ensures { StepWritten (end_step (stamps jd1s.now jd2s.now numbers.now first second) line textless)
        out.old result out.new }
{
    let ordered = count_of(jd1s, jd2s, numbers, 0, 0, numbers.len());
    let written = compose_end(ordered as u64, textless as u64, out);
    Part {
        written,
        line: line + 1,
        textless,
    }
}

// Whether the buffer has 550 bytes; else 11.
#[tactic(auto, unfolding(refusals::specs::Outcome::number_said, refusals::specs::Refusal::refusal_number))]
fn judge_room(room: usize) -> Result<(), Refusal>
    ensures { number_said result ≡ (if nat_le 550 room then 0 else 11) }
{
    if room < 550 {
        return Err(Refusal::NoRoom);
    }
    Ok(())
}

// Whether each line of the part names a stamp that is there, else 18; then the room, 11.
fn judge_listing(
    sentences: bool,
    stamps: usize,
    order: &[u8],
    line: usize,
    room: usize,
) -> Result<(), Refusal>
    ensures { number_said result ≡ listing_refusal sentences stamps order.now line room }
{
    if line != 0 {
        judge_places(sentences, stamps, order, line - 1, room)?;
    }
    judge_room(room)
}

// By the rows of a table that is tested elsewhere.
pub fn listing_part_by_rows(
    sentences: bool,
    gps: RunEnd,
    tai: RunEnd,
    utc: RunEnd,
    jd1s: &[u8],
    jd2s: &[u8],
    numbers: &[u8],
    first: usize,
    second: usize,
    order: &[u8],
    line: usize,
    textless: usize,
    table: &AnnouncedRows,
    out: &mut [u8],
) -> Result<Part, Refusal>
    ensures { ListingCall sentences (answer (rows_of table.now)) gps tai utc
        (stamps jd1s.now jd2s.now numbers.now first second) order.now line textless out.old result
        out.new }
{
    judge_listing(sentences, numbers.len(), order, line, out.len())?;
    if line == 0 {
        return Ok(head_step(
            gps, tai, utc, jd1s, jd2s, numbers, first, second, textless, out,
        ));
    }
    let lines = order.len() / 4;
    if line <= lines {
        return Ok(lines_step(
            sentences, jd1s, jd2s, numbers, first, second, order, line, textless, table, out,
        ));
    }
    if line == lines + 1 {
        return Ok(end_step(jd1s, jd2s, numbers, first, second, line, textless, out));
    }
    Ok(Part {
        written: 0,
        line,
        textless,
    })
}

// The part of the listing from a cursor on, line and textless, both 0 at the start, at the start of the buffer; the answer has the bytes that are written and
// the next cursor. Line 0 is the head, lines 1 to n are those of the stamps, by `next_part`, then comes the last line, whose count of ordered stamps is that of
// the numbers 0, and after it a part is empty. Refusals in order: 20 to 22 the table; 18 a place in a line of the part that is not below the number of stamps,
// which is that of the numbers; 11 a buffer of less than 550 bytes.
pub fn listing_part(
    sentences: bool,
    gps: RunEnd,
    tai: RunEnd,
    utc: RunEnd,
    jd1s: &[u8],
    jd2s: &[u8],
    numbers: &[u8],
    first: usize,
    second: usize,
    order: &[u8],
    line: usize,
    textless: usize,
    table: AnnouncedRows,
    out: &mut [u8],
) -> Result<Part, Refusal>
    ensures { ListingCall sentences (table_of table) gps tai utc (stamps jd1s.now jd2s.now numbers.now first second)
        order.now line textless out.old result out.new }
{
    leap_table::rows::judge_table(&table)?;
    listing_part_by_rows(
        sentences, gps, tai, utc, jd1s, jd2s, numbers, first, second, order, line, textless,
        &table, out,
    )
}
