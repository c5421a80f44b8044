// The line of each stamp: its recorder, its index in its run, and its UTC text or the number of its refusal.
// kept: lists as ct_line_listing_part lends them, and the sizes of the runs, which it lends in records, one by one, as `stamps` of the contracts names them.
ghost use Rattle.std.specs.Prelude.{◌≡◌, ◌+◌, ◌-◌, ◌*◌, ◌/◌, ◌<◌, ◌≤◌, true, length, slice_index};
ghost use Rattle.refusals.specs.Outcome.{number_said};
ghost use Rattle.numerals.specs.digits.Placed.{Placed};
ghost use Rattle.leap_table.specs.rows.Announced.{rows_of, table_of, least};
ghost use Rattle.line_listing.specs.lines.StampLine.{stamps, line_in_order, recorder, index_in, sentence_behind, number_told, no_text, refused};
ghost use Rattle.line_listing.specs.lines.Parts.{longest_line, places_there, absent_refusal, ListedCall};
ghost use Rattle.line_listing.specs.lines.Asked.{text_by, none_by, told_by, textless_by, line_told, PartsRoom, TextsRoom, ShortTexts, Gathered, Converted};
ghost use Rattle.line_listing.specs.lines.Asked.{Texts, page, ToldAt, PagePlaced, LinesPlaced};

use crate::head::smaller;
use julian::JulianDate;
use leap_table::rows::AnnouncedRows;
use numerals::little_endian::{nth_u32, nth_u64, put_nth_u64};
use numerals::place::place_bytes;
use reasons::Values;
use reasons::sentences::numbers::place_decimal;
use refusals::Refusal;
use utc::iso_texts::NamedForm;

// What a call put into the buffer: how many bytes, which line comes next, and how many of the lines are of ordered stamps without text.
#[derive(Clone, Copy)]
pub struct Part {
    pub written: usize,
    pub line: usize,
    pub textless: usize,
}

// The index after what was written of a stamp, and 1 where it is ordered and has no text.
#[derive(Clone, Copy)]
struct Told {
    next: usize,
    textless: usize,
}

#[tactic(auto, unfolding(crate::specs::lines::StampLine::recorder))]
fn place_recorder(first: usize, second: usize, place: usize, dst: &mut [u8], at: usize) -> usize
    requires { at + 4 ≤ length dst.old }
    ensures { Placed dst.old at (recorder first second place) result dst.new × (result ≡ at + 4) }
{
    if place < first {
        return place_bytes(b"gps ", dst, at);
    }
    if place - first < second {
        return place_bytes(b"tai ", dst, at);
    }
    place_bytes(b"utc ", dst, at)
}

#[tactic(auto, unfolding(crate::specs::lines::StampLine::index_in))]
fn index_in(first: usize, second: usize, place: usize) -> usize
    ensures { (result ≡ index_in first second place) × (result ≤ place) }
{
    if place < first {
        return place;
    }
    let behind = place - first;
    if behind < second {
        return behind;
    }
    behind - second
}

// A colon and the sentence of a number that has one.
fn place_sentence(number: u32, jd: JulianDate, dst: &mut [u8], at: usize) -> usize
    requires { at + length (sentence_behind true number jd) ≤ length dst.old }
    ensures { Placed dst.old at (sentence_behind true number jd) result dst.new }
{
    let Ok(reason) = reasons::reason_of(number, Values::Parts(jd.jd1, jd.jd2)) else {
        return at;
    };
    let next = place_bytes(b": ", dst, at);
    next + reasons::sentences::put_sentence(reason, &mut dst[next..]).unwrap_or(0)
}

// A number below 256, and its sentence where it is asked for.
// kept: `sentences` is a truth value and no closure: C's number gives it (ct_line_listing_part), and two tests stand for it, here and in `line_room`.
fn place_number(sentences: bool, number: u32, jd: JulianDate, dst: &mut [u8], at: usize) -> usize
    requires { (number < 256) × (at + longest_line sentences ≤ length dst.old + 24) }
    ensures placed { Placed dst.old at (number_told sentences number jd) result dst.new }
    ensures result_bound { result + 24 ≤ at + longest_line sentences }
{
    let next = place_decimal(number as u64, dst, at);
    if sentences {
        return place_sentence(number, jd, dst, next);
    }
    next
}

// That there is no text, and why.
fn place_no_text(sentences: bool, number: u32, jd: JulianDate, dst: &mut [u8], at: usize) -> Told
    requires { (number < 256) × (at + longest_line sentences ≤ length dst.old + 16) }
    ensures told_at { ToldAt dst.old at (no_text sentences number jd) 1 result dst.new }
    ensures next_bound { result.next + 16 ≤ at + longest_line sentences }
{
    let start = place_bytes(b"no text ", dst, at);
    let next = place_number(sentences, number, jd, dst, start);
    Told { next, textless: 1 }
}

// That a stamp is refused or left out, and why.
fn place_refused(sentences: bool, number: u32, jd: JulianDate, dst: &mut [u8], at: usize) -> usize
    requires { (number < 256) × (at + longest_line sentences ≤ length dst.old + 16) }
    ensures placed { Placed dst.old at (refused sentences number jd) result dst.new }
    ensures result_bound { result + 16 ≤ at + longest_line sentences }
{
    let start = place_bytes(b"refused ", dst, at);
    place_number(sentences, number, jd, dst, start)
}

// What is told of an ordered stamp: the text of its UTC, where its conversion has the mark 0 and its text the number 0.
// kept: no plainer: number, mark, tai, date, text and none are taken from the lists in `place_lines` alone; `place_stamp` looks at the number, this one at the
// others, and a struct would be made for one line and taken apart at once.
fn place_text(
    sentences: bool,
    mark: u8,
    tai: JulianDate,
    date: JulianDate,
    text: &[u8],
    none: u8,
    dst: &mut [u8],
    at: usize,
) -> Told
    requires { (length text.now ≤ 27) × (at + longest_line sentences ≤ length dst.old + 16) }
    ensures told_at { ToldAt dst.old at (text_by sentences mark tai date text.now none) (none_by mark none) result dst.new }
    ensures next_bound { result.next + 16 ≤ at + longest_line sentences }
{
    if mark != 0 {
        return place_no_text(sentences, mark as u32, tai, dst, at);
    }
    if none != 0 {
        return place_no_text(sentences, none as u32, date, dst, at);
    }
    let next = place_bytes(text, dst, at);
    Told { next, textless: 0 }
}

// What is told of a stamp with this number.
fn place_stamp(
    sentences: bool,
    number: u8,
    mark: u8,
    tai: JulianDate,
    date: JulianDate,
    text: &[u8],
    none: u8,
    dst: &mut [u8],
    at: usize,
) -> Told
    requires { (length text.now ≤ 27) × (at + longest_line sentences ≤ length dst.old + 16) }
    ensures told_at { ToldAt dst.old at (told_by sentences number mark tai date text.now none) (textless_by number mark none) result
        dst.new }
    ensures next_bound { result.next + 16 ≤ at + longest_line sentences }
{
    if number != 0 {
        let next = place_refused(sentences, number as u32, tai, dst, at);
        return Told { next, textless: 0 };
    }
    place_text(sentences, mark, tai, date, text, none, dst, at)
}

// The line of the stamp at a place.
fn place_line(
    sentences: bool,
    first: usize,
    second: usize,
    place: usize,
    number: u8,
    mark: u8,
    tai: JulianDate,
    date: JulianDate,
    text: &[u8],
    none: u8,
    dst: &mut [u8],
    at: usize,
) -> Told
    requires { (length text.now ≤ 27) × (place < 4294967296) × (at + longest_line sentences ≤ length dst.old) }
    ensures told_at { ToldAt dst.old at (line_told first second place (told_by sentences number mark tai date text.now none))
        (textless_by number mark none) result dst.new }
    ensures next_bound { result.next ≤ at + longest_line sentences }
{
    let a = place_recorder(first, second, place, dst, at);
    let b = place_decimal(index_in(first, second, place) as u64, dst, a);
    let c = place_bytes(b" ", dst, b);
    let told = place_stamp(sentences, number, mark, tai, date, text, none, dst, c);
    let d = told.next;
    let next = place_bytes(b"\n", dst, d);
    Told {
        next,
        textless: told.textless,
    }
}

// The parts of the stamps of `count` lines from `line` on.
// kept: `order` whole, with the line and a count beside it, since the clauses speak of place `line + i` of the whole list.
fn gather(jds: &[u8], order: &[u8], line: usize, count: usize, out: &mut [u8])
    requires { (line + count < 18446744073709551616) × (length out.old ≡ 8 * count) }
    ensures { Gathered jds.now order.now line count out.new × (length out.new ≡ 8 * count) }
{
    for i in 0..count {
        let place = nth_u32(order, line + i) as usize;
        put_nth_u64(out, i, nth_u64(jds, place));
    }
}

// Their UTC.
fn convert_page(
    jd1s: &[u8],
    jd2s: &[u8],
    order: &[u8],
    line: usize,
    count: usize,
    table: &AnnouncedRows,
    tai1: &mut [u8],
    tai2: &mut [u8],
    utc1: &mut [u8],
    utc2: &mut [u8],
    marks: &mut [u8],
)
    requires { (line + count < 18446744073709551616) × PartsRoom count tai1.old tai2.old × PartsRoom count utc1.old utc2.old
        × (length marks.old ≡ count) }
    ensures { Converted (rows_of table.now) jd1s.now jd2s.now order.now line
        count utc1.new utc2.new marks.new × PartsRoom count utc1.new utc2.new
        × PartsRoom count tai1.new tai2.new × (length marks.new ≡ count) }
{
    gather(jd1s, order, line, count, tai1);
    gather(jd2s, order, line, count, tai2);
    // kept: `let _`, since a page of these lengths is never refused, and what it left is said by its clauses.
    let _ = runs::convert_run_by_rows(
        constants::scale_numbers::TAI,
        constants::scale_numbers::UTC,
        tai1,
        tai2,
        table,
        utc1,
        utc2,
        marks,
    );
}

// The texts of `count` UTC dates, with expanded years.
fn write_texts(
    utc1: &[u8],
    utc2: &[u8],
    count: usize,
    table: &AnnouncedRows,
    texts: &mut [u8],
    lengths: &mut [u8],
    nones: &mut [u8],
)
    requires { PartsRoom count utc1.now utc2.now × TextsRoom count texts.old lengths.old nones.old }
    ensures { Texts (rows_of table.now) utc1.now utc2.now count texts.new
        lengths.new nones.new × TextsRoom count texts.new lengths.new nones.new }
{
    // kept: `let _`, as above.
    let _ = utc::run_texts::texts_of_run_by_rows(
        NamedForm::Expanded,
        utc1,
        utc2,
        table,
        texts,
        lengths,
        nones,
    );
}

// The number of the stamp at a place; 0 where the list does not have it.
pub(crate) fn number_at(numbers: &[u8], place: usize) -> u8
    ensures { result ≡ slice_index numbers.now place }
{
    numbers.get(place).copied().unwrap_or(0)
}

// `count` lines from `line` on, by their UTC and its texts.
fn place_lines(
    sentences: bool,
    jd1s: &[u8],
    jd2s: &[u8],
    numbers: &[u8],
    first: usize,
    second: usize,
    order: &[u8],
    line: usize,
    count: usize,
    utc1: &[u8],
    utc2: &[u8],
    marks: &[u8],
    texts: &[u8],
    lengths: &[u8],
    nones: &[u8],
    out: &mut [u8],
) -> Part
    requires { (line + count < 18446744073709551616) × TextsRoom count texts.now lengths.now nones.now × ShortTexts count lengths.now
        × (count * longest_line sentences ≤ length out.old) }
    ensures { PagePlaced sentences (stamps jd1s.now jd2s.now numbers.now first second) order.now line count
        (page utc1.now utc2.now marks.now texts.now lengths.now nones.now)
        out.old result out.new }
{
    let mut at = 0;
    let mut textless = 0;
    for i in 0..count {
        let place = nth_u32(order, line + i) as usize;
        let number = number_at(numbers, place);
        let tai = julian::stamp_lists::stamp_of(jd1s, jd2s, place);
        let date = julian::stamp_lists::stamp_of(utc1, utc2, i);
        let start = 27 * i;
        let end = start + number_at(lengths, i) as usize;
        let told = place_line(
            sentences,
            first,
            second,
            place,
            number,
            number_at(marks, i),
            tai,
            date,
            &texts[start..end],
            number_at(nones, i),
            out,
            at,
        );
        at = told.next;
        textless += told.textless;
    }
    Part {
        written: at,
        line: line + count,
        textless,
    }
}

// The same, with the UTC and its texts, in areas of their size.
// kept: no plainer: the eight areas are locals of `page_part`, and go on from here to three functions that take five, five and six of them.
fn page_in(
    sentences: bool,
    jd1s: &[u8],
    jd2s: &[u8],
    numbers: &[u8],
    first: usize,
    second: usize,
    order: &[u8],
    line: usize,
    count: usize,
    table: &AnnouncedRows,
    tai1: &mut [u8],
    tai2: &mut [u8],
    utc1: &mut [u8],
    utc2: &mut [u8],
    marks: &mut [u8],
    texts: &mut [u8],
    lengths: &mut [u8],
    nones: &mut [u8],
    out: &mut [u8],
) -> Part
    requires { (line + count < 18446744073709551616) × PartsRoom count tai1.old tai2.old × PartsRoom count utc1.old utc2.old
        × (length marks.old ≡ count) × TextsRoom count texts.old lengths.old nones.old × (count * longest_line sentences ≤ length out.old) }
    ensures { LinesPlaced sentences (rows_of table.now)
        (stamps jd1s.now jd2s.now numbers.now first second) order.now line count out.old result
        out.new }
{
    convert_page(
        jd1s, jd2s, order, line, count, table, tai1, tai2, utc1, utc2, marks,
    );
    write_texts(utc1, utc2, count, table, texts, lengths, nones);
    place_lines(
        sentences, jd1s, jd2s, numbers, first, second, order, line, count, utc1, utc2, marks,
        texts, lengths, nones, out,
    )
}

// The same, with the areas.
pub(crate) fn page_part(
    sentences: bool,
    jd1s: &[u8],
    jd2s: &[u8],
    numbers: &[u8],
    first: usize,
    second: usize,
    order: &[u8],
    line: usize,
    count: usize,
    table: &AnnouncedRows,
    out: &mut [u8],
) -> Part
    requires { (count ≤ 256) × (line + 256 < 18446744073709551616) × (count * longest_line sentences ≤ length out.old) }
    ensures { LinesPlaced sentences (rows_of table.now)
        (stamps jd1s.now jd2s.now numbers.now first second) order.now line count out.old result
        out.new }
{
    let mut tai1 = [0u8; 2048];
    let mut tai2 = [0u8; 2048];
    let mut utc1 = [0u8; 2048];
    let mut utc2 = [0u8; 2048];
    let mut marks = [0u8; 256];
    let mut texts = [0u8; 6912];
    let mut lengths = [0u8; 256];
    let mut nones = [0u8; 256];
    let parts = 8 * count;
    let room = 27 * count;
    page_in(
        sentences,
        jd1s,
        jd2s,
        numbers,
        first,
        second,
        order,
        line,
        count,
        table,
        &mut tai1[..parts],
        &mut tai2[..parts],
        &mut utc1[..parts],
        &mut utc2[..parts],
        &mut marks[..count],
        &mut texts[..room],
        &mut lengths[..count],
        &mut nones[..count],
        out,
    )
}

// The most bytes of a line. By numbers it has `utc`, a blank, ten digits of the index, a blank, the longest text, 27, and the line's end; with sentences in the
// place of the text `refused`, a blank, a digit, a colon, a blank and the longest sentence, 57.
#[tactic(auto, unfolding(crate::specs::lines::Parts::longest_line))]
fn line_room(sentences: bool) -> usize
    ensures { result ≡ longest_line sentences }
{
    if sentences { 84 } else { 43 }
}

// How many lines go into the part from `line` on, into `room` bytes.
#[tactic(auto, unfolding(crate::specs::lines::Parts::longest_line))]
pub(crate) fn part_lines(sentences: bool, lines: usize, line: usize, room: usize) -> usize
    ensures { result ≡ least (least (lines - line) 256) (room / longest_line sentences) }
{
    if lines <= line {
        return 0;
    }
    smaller(smaller(lines - line, 256), room / line_room(sentences))
}

// Whether each of `count` lines from `line` on names one of so many stamps.
fn places_there(order: &[u8], stamps: usize, line: usize, count: usize) -> bool
    requires { line + count < 18446744073709551616 }
    ensures { result ≡ places_there order.now stamps line count }
{
    for i in 0..count {
        if nth_u32(order, line + i) as usize >= stamps {
            return false;
        }
    }
    true
}

// Whether each line of the part from `line` on names a stamp that is there; else 18.
pub(crate) fn judge_places(
    sentences: bool,
    stamps: usize,
    order: &[u8],
    line: usize,
    room: usize,
) -> Result<(), Refusal>
    ensures { number_said result ≡ absent_refusal sentences stamps order.now line room }
{
    let count = part_lines(sentences, order.len() / 4, line, room);
    if count != 0 && !places_there(order, stamps, line, count) {
        return Err(Refusal::OutOfLimit);
    }
    Ok(())
}

// The lines of an order of stamps, from line `line` on, at the start of the buffer: as many whole lines as surely go into it, each given the room of the
// longest, 43 bytes, or 84 with sentences, and at most 256. A stamp that the lists do not have is of parts 0.0 and of number 0. Into a shorter buffer
// nothing is written, and the answer names the same line. Refusals: 20 to 22 the table.
pub fn next_part(
    sentences: bool,
    jd1s: &[u8],
    jd2s: &[u8],
    numbers: &[u8],
    first: usize,
    second: usize,
    order: &[u8],
    line: usize,
    table: AnnouncedRows,
    out: &mut [u8],
) -> Result<Part, Refusal>
    ensures { ListedCall sentences (table_of table) (stamps jd1s.now jd2s.now numbers.now first second)
        order.now line out.old result out.new }
{
    leap_table::rows::judge_table(&table)?;
    let count = part_lines(sentences, order.len() / 4, line, out.len());
    if count == 0 {
        return Ok(Part {
            written: 0,
            line,
            textless: 0,
        });
    }
    Ok(page_part(
        sentences, jd1s, jd2s, numbers, first, second, order, line, count, &table, out,
    ))
}
