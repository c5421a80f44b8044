// A run of stamps from one scale to another in one call. Refused stamps are numbered and counted. The parts of the stamps and of the dates are bytes, eight
// each, the lowest first.
// kept: the parts stay bytes in two slices, and the parts that are written and the numbers in three, as C lends them (ct_convert_run).
#![tactic(auto)]

ghost use Rattle.std.specs.Prelude.{◌≡◌, true, false, List, ◌+◌, ◌*◌, ◌≤◌, length};
ghost use Rattle.std.specs.Float.{binary64};
ghost use Rattle.std.specs.Float.Ieee.{of_bits};
ghost use Rattle.refusals.specs.Outcome.{outcome, number_said};
ghost use Rattle.julian.specs.JulianDate.{julian};
ghost use Rattle.julian.specs.Finite.{finite_jd};
ghost use Rattle.leap_table.specs.rows.Table.{Row};
ghost use Rattle.leap_table.specs.rows.Announced.{rows_of, table_of};
ghost use Rattle.runs.specs.ways.Ways.{is_run_scale};
ghost use Rattle.runs.specs.ways.Asked.{reads_day};
ghost use Rattle.runs.specs.by_formula.Run.{run_call};
ghost use Rattle.runs.specs.by_formula.Asked.{Roomy, HasPlace, StampPut, RunPut};
ghost use Rattle.runs.specs.Run.{stamp_answer, run_refusal, run_by, converted_run};
ghost use Rattle.runs.specs.Asked.{is_short};
ghost use Rattle.runs.specs.by_day.Hand.{RightHand};

use crate::by_day::DayInHand;
use crate::by_formula::{PART_NOT_FINITE, is_number, one_if_refused, put_pattern};
use constants::scale_numbers::{GPS, TAI, TCG, TT, are};
use julian::JulianDate;
use leap_table::rows::AnnouncedRows;
use numerals::little_endian::nth_u64;
use refusals::Refusal;

mod by_day;
pub mod by_formula;
pub mod ways;

// Both parts of an answer in the places of stamp i, and its number: 0, or that of the refusal, of which the places stay.
// kept: `match`, since the refusal becomes the byte of `numbers`, which C reads.
fn put_answer(found: Result<JulianDate, Refusal>, i: usize, out1: &mut [u8], out2: &mut [u8]) -> u8
    requires { HasPlace i out1.old out2.old }
    ensures { StampPut (outcome found) i out1.old out2.old result out1.new out2.new }
{
    match found {
        Err(refusal) => refusal.byte(),
        Ok(jd) => {
            put_pattern(out1, 8 * i, floats::to_bits(jd.jd1));
            put_pattern(out2, 8 * i, floats::to_bits(jd.jd2));
            0
        }
    }
}

// The number of a stamp, and the day in hand after it.
// kept: a byte and no `Result`: it goes into `numbers`, which C reads (ct_convert_run).
#[derive(Clone, Copy)]
struct AfterStamp {
    number: u8,
    hand: DayInHand,
}

// Converts the stamp at place i, and gives its number and the day in hand for the next.
fn convert_stamp(
    from: u32,
    to: u32,
    jd1s: &[u8],
    jd2s: &[u8],
    i: usize,
    hand: DayInHand,
    table: &AnnouncedRows,
    out1: &mut [u8],
    out2: &mut [u8],
) -> AfterStamp
    requires { HasPlace i out1.old out2.old × (RightHand (rows_of table.now) hand × (reads_day from to ≡ true)) }
    ensures { StampPut (stamp_answer (rows_of table.now) from to jd1s.now jd2s.now i) i
        out1.old out2.old result.number out1.new out2.new
        × RightHand (rows_of table.now) result.hand }
{
    let jd = julian::stamp_lists::stamp_of(jd1s, jd2s, i);
    let next = crate::by_day::next_day(jd.jd1, hand, table);
    let found = crate::by_day::convert_with(from, to, jd, next, table);
    let number = put_answer(found, i, out1, out2);
    AfterStamp { number, hand: next }
}

// Converts n stamps by a way that reads a day, and says how many are refused. The day in hand is kept from stamp to stamp.
fn convert_all(
    from: u32,
    to: u32,
    jd1s: &[u8],
    jd2s: &[u8],
    n: usize,
    table: &AnnouncedRows,
    out1: &mut [u8],
    out2: &mut [u8],
    numbers: &mut [u8],
) -> usize
    requires { Roomy n jd1s.now jd2s.now out1.old out2.old numbers.old × (reads_day from to ≡ true) }
    ensures { RunPut (stamp_answer (rows_of table.now) from to jd1s.now jd2s.now) n
        out1.old out2.old numbers.old result out1.new out2.new numbers.new }
{
    let mut refused = 0;
    let mut hand = crate::by_day::no_day();
    for i in 0..n {
        let done = convert_stamp(from, to, jd1s, jd2s, i, hand, table, out1, out2);
        hand = done.hand;
        numbers[i] = done.number;
        refused += one_if_refused(done.number);
    }
    refused
}

// Puts a stamp of two patterns into the places i as it is, where both parts are finite, and gives its number.
fn keep_stamp(a: u64, b: u64, i: usize, out1: &mut [u8], out2: &mut [u8]) -> u8
    requires { HasPlace i out1.old out2.old }
    ensures { StampPut (finite_jd (julian (of_bits binary64 a) (of_bits binary64 b))) i out1.old out2.old result
        out1.new out2.new }
{
    if !is_number(a) || !is_number(b) {
        return PART_NOT_FINITE;
    }
    put_pattern(out1, 8 * i, a);
    put_pattern(out2, 8 * i, b);
    0
}

// Converts the stamp at place i by a way that reads no day and is not one formula, and gives its number.
// kept: from a scale to itself a stamp goes by its patterns: by `julian::finite_jd` it is made two floats and patterns again (45 instructions for 24).
fn change_stamp(
    from: u32,
    to: u32,
    jd1s: &[u8],
    jd2s: &[u8],
    i: usize,
    out1: &mut [u8],
    out2: &mut [u8],
) -> u8
    requires { HasPlace i out1.old out2.old × ((reads_day from to ≡ false) × (is_short from to ≡ false)) }
    ensures { (rows : List Row) → StampPut (stamp_answer rows from to jd1s.now jd2s.now i) i out1.old
        out2.old result out1.new out2.new }
{
    if from == to {
        let a = nth_u64(jd1s, i);
        let b = nth_u64(jd2s, i);
        return keep_stamp(a, b, i, out1, out2);
    }
    let jd = julian::stamp_lists::stamp_of(jd1s, jd2s, i);
    put_answer(
        crate::ways::convert_by_formulas(from, to, jd),
        i,
        out1,
        out2,
    )
}

// Converts n stamps by such a way, and says how many are refused.
// kept: its own loop beside `convert_all`, so that it carries no day: a day would be looked for at each stamp.
fn change_all(
    from: u32,
    to: u32,
    jd1s: &[u8],
    jd2s: &[u8],
    n: usize,
    out1: &mut [u8],
    out2: &mut [u8],
    numbers: &mut [u8],
) -> usize
    requires { Roomy n jd1s.now jd2s.now out1.old out2.old numbers.old × ((reads_day from to ≡ false) × (is_short from to ≡ false)) }
    ensures { (rows : List Row) → RunPut (stamp_answer rows from to jd1s.now jd2s.now) n out1.old out2.old
        numbers.old result out1.new out2.new numbers.new }
{
    let mut refused = 0;
    for i in 0..n {
        let number = change_stamp(from, to, jd1s, jd2s, i, out1, out2);
        numbers[i] = number;
        refused += one_if_refused(number);
    }
    refused
}

// Whether a run converts from and to this scale: UTC, TAI, TT, GPS or TCG.
#[tactic(auto, unfolding(crate::specs::ways::Ways::is_run_scale))]
pub fn is_run_scale(n: u32) -> bool
    ensures { result ≡ is_run_scale n }
{
    if n == constants::scale_numbers::UTC {
        return true;
    }
    if n == constants::scale_numbers::TAI {
        return true;
    }
    if n == constants::scale_numbers::TT {
        return true;
    }
    if n == constants::scale_numbers::GPS {
        return true;
    }
    n == constants::scale_numbers::TCG
}

// Whether the way is one formula, by which a run is quicker.
fn is_short(from: u32, to: u32) -> bool
    ensures { result ≡ is_short from to }
{
    if are(from, to, GPS, TAI) {
        return true;
    }
    if are(from, to, TAI, GPS) {
        return true;
    }
    if are(from, to, TAI, TT) {
        return true;
    }
    if are(from, to, TT, TAI) {
        return true;
    }
    if are(from, to, TT, TCG) {
        return true;
    }
    are(from, to, TCG, TT)
}

// Whether the scales are those of a run, and the lengths go together.
#[tactic(auto, unfolding(crate::specs::Run::run_refusal, refusals::specs::Outcome::number_said, refusals::specs::Refusal::refusal_number))]
fn judge_run(
    from: u32,
    to: u32,
    size1: usize,
    size2: usize,
    room1: usize,
    room2: usize,
    room: usize,
) -> Result<(), Refusal>
    ensures { number_said result ≡ run_refusal from to size1 size2 room1 room2 room }
{
    if !is_run_scale(from) || !is_run_scale(to) {
        return Err(Refusal::OutOfLimit);
    }
    if size1 % 8 != 0 || size2 % 8 != 0 {
        return Err(Refusal::LengthWrong);
    }
    if size1 != size2 {
        return Err(Refusal::SizesDiffer);
    }
    if room1 < size1 || room2 < size1 || room < size1 / 8 {
        return Err(Refusal::NoRoom);
    }
    Ok(())
}

// By the rows of a table that is tested elsewhere.
pub fn convert_run_by_rows(
    from: u32,
    to: u32,
    jd1s: &[u8],
    jd2s: &[u8],
    table: &AnnouncedRows,
    out1: &mut [u8],
    out2: &mut [u8],
    numbers: &mut [u8],
) -> Result<usize, Refusal>
    ensures { run_call (outcome result) out1.new out2.new numbers.new ≡ run_by
        (rows_of table.now) from to jd1s.now jd2s.now out1.old out2.old
        numbers.old }
{
    judge_run(
        from,
        to,
        jd1s.len(),
        jd2s.len(),
        out1.len(),
        out2.len(),
        numbers.len(),
    )?;
    if is_short(from, to) {
        let none = &jd1s[0..0];
        return crate::by_formula::formula_run(from, to, jd1s, jd2s, none, out1, out2, numbers);
    }
    let n = jd1s.len() / 8;
    if !crate::ways::reads_day(from, to) {
        let count = change_all(from, to, jd1s, jd2s, n, out1, out2, numbers);
        return Ok(count);
    }
    Ok(convert_all(from, to, jd1s, jd2s, n, table, out1, out2, numbers))
}

// The dates in scale `to` of a run of stamps in scale `from`: the parts of stamp i in the places i of `out1` and `out2`, its number in `numbers`, 0 or that of
// its refusal, and the number of refused stamps as the answer. A refused stamp's places stay. Refusals of the whole run in order, before a byte is written: 20
// to 22 the table, 18 a scale that is not UTC, TAI, TT, GPS or TCG, 14 a length of parts that is no multiple of eight, 12 another number of second parts than
// of first, 11 too few places.
pub fn convert_run(
    from: u32,
    to: u32,
    jd1s: &[u8],
    jd2s: &[u8],
    table: AnnouncedRows,
    out1: &mut [u8],
    out2: &mut [u8],
    numbers: &mut [u8],
) -> Result<usize, Refusal>
    ensures { run_call (outcome result) out1.new out2.new numbers.new ≡ converted_run (table_of table) from to
        jd1s.now jd2s.now out1.old out2.old numbers.old }
{
    leap_table::rows::judge_table(&table)?;
    convert_run_by_rows(from, to, jd1s, jd2s, &table, out1, out2, numbers)
}
