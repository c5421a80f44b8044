// TAI-UTC of many dates in one walk through the table. From document 02, item 2. All dates are judged before one offset is written.
ghost use Rattle.std.specs.Prelude.{◌≡◌, ◌*◌, ◌<◌, ◌≤◌, T, ◌++◌, map, length, drop};
ghost use Rattle.std.specs.Float.{binary64};
ghost use Rattle.std.specs.Float.Ieee.{of_int};
ghost use Rattle.refusals.specs.Outcome.{answer, onward};
ghost use Rattle.floats.specs.Whole.{nought};
ghost use Rattle.calendar.specs.DayCount.{mjd_number};
ghost use Rattle.leap_table.specs.rows.Table.{starts, rising};
ghost use Rattle.leap_table.specs.rows.Announced.{rows_of, table_of};
ghost use Rattle.leap_table.specs.offsets.Forward.{by_terms};
ghost use Rattle.leap_table.specs.walk.Rows.{compared};
ghost use Rattle.leap_table.specs.judging.Judging.{valid_triple};
ghost use Rattle.leap_table.specs.walk.Walk.{month_in, triple_offset};
ghost use Rattle.leap_table.specs.judging.Lists.{dates_from, triple_at};
ghost use Rattle.leap_table.specs.walk.Lists.{walk_of_numbers};
ghost use Rattle.leap_table.specs.walk.Call.{as_floats, WalkCall};
ghost use Rattle.leap_table.specs.walk.Asked.{Standing, AtStart, Stepped, Moved, CountsNext, GoodDates};

mod in_bytes;

use crate::judging::Triple;
use crate::offsets::month_number;
use crate::offsets::walk_rows::RowTerms;
use crate::rows::AnnouncedRows;
pub use in_bytes::offsets_at_0h_bytes;
use refusals::Refusal;

// How far a walk has come: the rows of the table and those reached, the start of the next one, the terms of the last one reached, and the rows compared so far.
#[derive(Clone, Copy)]
pub struct Walk {
    pub rows: usize,
    pub reached: usize,
    pub next: u64,
    pub terms: RowTerms,
    pub compared: u64,
}

// The number of a date's month; 0 in the years before year 0.
fn month_of(t: Triple) -> u64
    requires { valid_triple t ≡ answer tt }
    ensures { (result ≡ month_in t) × (result < 1099511627776) }
{
    month_number(t.year, t.month as u32)
}

// The offset of a date at 0h by the terms of its row. Its day is counted only where the row drifts.
fn offset_in(terms: RowTerms, t: Triple) -> f64
    requires { valid_triple t ≡ answer tt }
    ensures { result ≡ by_terms terms (of_int binary64 (mjd_number t.year t.month t.day)) nought }
{
    if !terms.drifts {
        return terms.seconds;
    }
    let n = calendar::modified_julian_day(t.year, t.month, t.day).unwrap();
    terms.seconds + (n as f64 + 0.0 - terms.start) * terms.rate
}

// A walk that has not begun: before the first row.
fn at_start(table: AnnouncedRows) -> Walk
    ensures { AtStart (rows_of table) result }
{
    Walk {
        rows: crate::offsets::walk_rows::row_count(table),
        reached: 0,
        next: crate::offsets::walk_rows::row_start(table, 0),
        terms: crate::offsets::walk_rows::row_terms(table, 0),
        compared: 0,
    }
}

// The walk goes on past each row that has begun in a month, and counts it.
// kept: `while`, since the loop ends at a month and not at a count.
fn walk_to(w: Walk, table: AnnouncedRows, month: u64) -> Walk
    requires { (Standing (rows_of table) w) × (month < 1099511627776) × (w.compared < 9223372036854775808) }
    ensures { Stepped (rows_of table) w month result }
{
    let mut reached = w.reached;
    let mut next = w.next;
    let mut compared = w.compared;
    while next <= month {
        reached += 1;
        compared += 1;
        next = crate::offsets::walk_rows::row_start(table, reached);
    }
    Walk {
        rows: w.rows,
        reached,
        next,
        terms: crate::offsets::walk_rows::row_terms(table, reached),
        compared,
    }
}

// A row that is left and has not begun is compared too.
fn next_counted(w: Walk) -> u64
    requires { w.compared < 18446744073709551615 }
    ensures { CountsNext w result }
{
    if w.rows <= w.reached {
        return w.compared;
    }
    w.compared + 1
}

// The walk goes on to a date, and gives its offset. Inlined in the two loops: as a call it takes 2 ns a date more, of 5 to 7.
#[inline(always)]
fn next_offset(w: &mut Walk, table: &AnnouncedRows, t: Triple) -> f64
    requires { (Standing (rows_of table.now) w.old) × (valid_triple t ≡ answer tt) × (w.old.compared < 9223372036854775808) }
    ensures { (Moved (rows_of table.now) w.old (month_in t) w.new)
        × (result ≡ by_terms w.new.terms (of_int binary64 (mjd_number t.year t.month t.day)) nought) }
{
    let month = month_of(t);
    if w.next <= month {
        *w = walk_to(*w, *table, month);
    }
    w.compared = next_counted(*w);
    offset_in(w.terms, t)
}

// Walks through the table with n dates, writes their offsets, and says how many rows it compared.
fn walk_all(dates: &[i32], n: usize, table: AnnouncedRows, out: &mut [f64]) -> u64
    requires { (GoodDates (triple_at dates.now) n) × (T (rising (starts (rows_of table)))) × (3 * n ≤ length dates.now) × (n ≤ length out.old) }
    ensures { (result ≡ compared (starts (rows_of table)) (map month_in (dates_from (triple_at dates.now) 0 n)))
        × (out.new ≡ map (triple_offset (rows_of table)) (dates_from (triple_at dates.now) 0 n) ++ drop n out.old) }
{
    let mut w = at_start(table);
    for i in 0..n {
        let t = crate::judging::triple_at(dates, i);
        out[i] = next_offset(&mut w, &table, t);
    }
    w.compared
}

// Writes TAI-UTC at 0h of each date, a year, a month and a day of `dates`, in their order, and answers how many rows of the table it compared. Refusals in
// order: 20 to 22 the table; 14 a length of `dates` that is no multiple of 3; 11 fewer places than dates; then date by date 1 to 3 its own, 17 earlier than the
// one before it.
// kept: no plainer, beside `offsets_at_0h_bytes`: two public calls, and the two functions of each, the judge and the walk, are of numbers and of bytes.
pub fn offsets_at_0h(dates: &[i32], table: AnnouncedRows, out: &mut [f64]) -> Result<u64, Refusal>
    ensures { WalkCall as_floats (onward (table_of table) (λ rows. walk_of_numbers rows dates.now (length out.old)))
        out.old result out.new }
{
    crate::judging::judge_numbers(dates, table, out.len())?;
    Ok(walk_all(dates, dates.len() / 3, table, out))
}
