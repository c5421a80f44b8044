// The listing of a stamp block, in parts of whole lines.
// kept: reporting, block and table are parameters, not a struct: next_part_by_rows is called with them one by one from block_io, capi and listing_runs, and a
// struct would be made in it for place_line and place_stamp_line, the two private functions that take all three.
ghost use Rattle.std.specs.Prelude.{◌≡◌, ◌+◌, ◌-◌, ◌≤◌, ◌<◌, cond, ◌&&◌, List, length, negsuc};
ghost use Rattle.refusals.specs.Refusal.{refusal_number};
ghost use Rattle.refusals.specs.Outcome.{outcome};
ghost use Rattle.std.specs.Int.Signed.{lt_z};
ghost use Rattle.std.specs.Float.Ieee.{le};
ghost use Rattle.floats.specs.Whole.{nought};
ghost use Rattle.julian.specs.day_number.DayNumber.{c_djmax};
ghost use Rattle.leap_table.specs.rows.Table.{Row};
ghost use Rattle.leap_table.specs.rows.Announced.{rows_of, table_of};
ghost use Rattle.utc.specs.iso_texts.Expanded.{iso_text_expanded};
ghost use Rattle.stamps.specs.Block.{block_of};
ghost use Rattle.numerals.specs.digits.Placed.{Placed};
ghost use Rattle.stamps.specs.Listing.{line_room, shown, stamp_line, one_if_refused, refused_in, header, block_refused};
ghost use Rattle.stamps.specs.Parts.{line_of, lines_in, PartPlaced, PartCall};

use super::{Part, Reporting, block_stamps, place, reported, stamp_at};
use julian::JulianDate;
use leap_table::rows::AnnouncedRows;
use numerals::place::place_bytes;
use refusals::Refusal;
use scales::UTC;

// A line is begun only where so many bytes are left. By numbers the longest line has four bytes of the index, a blank, the longest text, 27, and the line's
// end; by sentences it has `block`, a blank, the longest sentence, 57, and the line's end.
#[tactic(auto, unfolding(crate::specs::Listing::line_room))]
fn line_room(reporting: Reporting) -> usize
    ensures { result ≡ line_room reporting }
{
    match reporting {
        Reporting::Numbers => 33,
        Reporting::Sentences(_) => 64,
    }
}

// The text of a date, or its refusal.
// kept: `match`, since both arms write into `dst`.
fn place_shown(
    reporting: Reporting,
    jd: JulianDate,
    table: &AnnouncedRows,
    dst: &mut [u8],
    at: usize,
) -> usize
    requires { at + line_room reporting ≤ length dst.old + 5 }
    ensures placed { Placed dst.old at (shown reporting jd (iso_text_expanded (rows_of table.now) jd)) result dst.new }
    ensures result_bound { result + 6 ≤ at + line_room reporting }
{
    match utc::iso_texts::to_iso8601_expanded_by_rows(UTC(jd), table, &mut dst[at..]) {
        Ok((n, _)) => at + n,
        Err(refusal) => reported::place_date_refused(reporting, refusal, jd, dst, at),
    }
}

fn place_stamp_line(
    reporting: Reporting,
    block: &[u8],
    stamps: usize,
    i: usize,
    table: &AnnouncedRows,
    dst: &mut [u8],
    at: usize,
) -> usize
    requires { (i < stamps) × (stamps ≤ 4000) × (at + line_room reporting ≤ length dst.old) }
    ensures placed { Placed dst.old at (stamp_line reporting (rows_of table.now) block.now stamps i) result dst.new }
    ensures upper_bound { result ≤ at + line_room reporting }
{
    let a = place::number(i as u32, dst, at);
    let b = place_bytes(b" ", dst, a);
    let c = place_shown(reporting, stamp_at(block, stamps, i), table, dst, b);
    place_bytes(b"\n", dst, c)
}

// 1 where the day is before -4799-01-01, the first that has a text, else 0.
// kept: by `if`, and no `u32::from`: wrong/only_six_counted_in_header turns one of the two numbers, and is to keep its meaning.
fn one_if_early(day: i64) -> u32
    ensures { (result ≡ cond (lt_z day (negsuc 31737)) 1 0) × (result ≤ 1) }
{
    if day < -31738 { 1 } else { 0 }
}

// Whether every date with this rounded sum of its parts has a text: from 0.0, in the year -4713, to the greatest sum that has a day. A NaN is not there.
fn surely_shown(sum: f64) -> bool
    ensures { result ≡ (le nought sum && le sum c_djmax) }
{
    sum >= 0.0 && sum <= julian::day_number::DJMAX
}

// 1 where a date has no text, else 0, by whatever rows. Of the text's conversion the day number is made at most: what comes after it refuses only the days
// before the first.
// kept: no plainer: by `map_or` the number of a refusal would stand before the date's, and the closure would have the same words.
fn one_if_refused(jd: JulianDate) -> u32
    ensures { ((rows : List Row) → result ≡ one_if_refused (iso_text_expanded rows jd)) × (result ≤ 1) }
{
    if surely_shown(jd.jd1 + jd.jd2) {
        return 0;
    }
    match julian::day_number::day_number_and_fraction(jd.jd1, jd.jd2) {
        Err(_) => 1,
        Ok(found) => one_if_early(found.day),
    }
}

// How many stamps are refused: each is judged as its conversion by any rows would be.
fn refused_stamps(block: &[u8], stamps: usize) -> u32
    requires { stamps ≤ 4000 }
    ensures { (rows : List Row) → result ≡ refused_in rows block.now stamps stamps }
{
    let mut refused = 0;
    for i in 0..stamps {
        refused += one_if_refused(stamp_at(block, stamps, i));
    }
    refused
}

fn place_header(stamps: u32, refused: u32, dst: &mut [u8], at: usize) -> usize
    requires { at + 33 ≤ length dst.old }
    ensures placed { Placed dst.old at (header stamps refused) result dst.new }
    ensures upper_bound { result ≤ at + 33 }
{
    let a = place_bytes(b"utc listing ", dst, at);
    let b = place::number(stamps, dst, a);
    let c = place_bytes(b" refused ", dst, b);
    let d = place::number(refused, dst, c);
    place_bytes(b"\n", dst, d)
}

fn place_block_refused(
    reporting: Reporting,
    block: &[u8],
    refusal: Refusal,
    dst: &mut [u8],
    at: usize,
) -> usize
    requires { at + line_room reporting ≤ length dst.old }
    ensures placed { Placed dst.old at (block_refused reporting block.now (refusal_number refusal)) result dst.new }
    ensures upper_bound { result ≤ at + line_room reporting }
{
    let a = place_bytes(b"block ", dst, at);
    let b = reported::place_block_reported(reporting, refusal, block, dst, a);
    place_bytes(b"\n", dst, b)
}

// Line `line` of the listing of a block with this answer: line 0 is the header or the refusal, line i + 1 is stamp i's.
// kept: `match`, since both arms write into `dst`.
fn place_line(
    reporting: Reporting,
    block: &[u8],
    answer: Result<usize, Refusal>,
    line: usize,
    table: &AnnouncedRows,
    dst: &mut [u8],
    at: usize,
) -> usize
    requires { (outcome answer ≡ block_of block.now) × (line < lines_in (block_of block.now)) × (at + line_room reporting ≤ length dst.old) }
    ensures placed { Placed dst.old at (line_of reporting (rows_of table.now) (block_of block.now) block.now line) result
        dst.new }
    ensures upper_bound { result ≤ at + line_room reporting }
{
    match answer {
        Err(refusal) => place_block_refused(reporting, block, refusal, dst, at),
        Ok(stamps) => {
            if line == 0 {
                return place_header(stamps as u32, refused_stamps(block, stamps), dst, at);
            }
            place_stamp_line(reporting, block, stamps, line - 1, table, dst, at)
        }
    }
}

#[tactic(auto, unfolding(crate::specs::Parts::lines_in, refusals::specs::Outcome::outcome))]
fn lines_in(answer: Result<usize, Refusal>) -> usize
    requires { lines_in (outcome answer) ≤ 4001 }
    ensures { result ≡ lines_in (outcome answer) }
{
    answer.map_or(1, |stamps| stamps + 1)
}

// The next part of the listing, from line `line` on, by the rows of a table that is tested elsewhere: as many whole lines as the scratch surely holds, at its
// start. A scratch of 33 bytes or more holds one, and where sentences are reported one of 64. Into a shorter one nothing is written, and the answer names the
// same line with `done` false: a caller that asks again with it never comes to an end.
pub fn next_part_by_rows(
    reporting: Reporting,
    block: &[u8],
    line: usize,
    table: &AnnouncedRows,
    scratch: &mut [u8],
) -> Part
    ensures { PartPlaced reporting (rows_of table.now) block.now line scratch.old result scratch.new }
{
    let answer = block_stamps(block);
    let left = lines_in(answer).saturating_sub(line);
    let room = line_room(reporting);
    let mut at = 0;
    for count in 0..left {
        if scratch.len() - at < room {
            return Part {
                written: at,
                line: line + count,
                done: false,
            };
        }
        at = place_line(reporting, block, answer, line + count, table, scratch, at);
    }
    Part {
        written: at,
        line: line + left,
        done: true,
    }
}

// The part by a table that is tested first: 20 to 22 where it is refused, and nothing is written.
pub fn next_part(
    reporting: Reporting,
    block: &[u8],
    line: usize,
    table: AnnouncedRows,
    scratch: &mut [u8],
) -> Result<Part, Refusal>
    ensures { PartCall reporting (table_of table) block.now line scratch.old result scratch.new }
{
    leap_table::rows::judge_table(&table)?;
    Ok(next_part_by_rows(reporting, block, line, &table, scratch))
}
