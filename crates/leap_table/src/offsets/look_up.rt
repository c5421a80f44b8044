// The row of a month, and what it says: the offset and the rule.
ghost use Rattle.std.specs.Prelude.{◌≡◌, ◌+◌, ◌-◌, ◌<◌, ◌≤◌, true, pos, slice_index_or, unsigned_abs, Float};
ghost use Rattle.leap_table.specs.rows.Table.{fixed_rows, most_rows, starts, reached, month_number, none};
ghost use Rattle.leap_table.specs.declared.rows.AnnouncedRows.{AnnouncedRows};
ghost use Rattle.leap_table.specs.rows.Announced.{least, announced_size, rows_of, rows_to};
ghost use Rattle.leap_table.specs.offsets.Offset.{seconds_of, offset_at, offset_by};
ghost use Rattle.leap_table.specs.offsets.Rule.{rule_at, rule_by};
ghost use Rattle.leap_table.specs.offsets.Plain.{Plain, by_found};

use super::fixed_rows::{fixed_rows_reached, rate_at, seconds_at, start_at, whole_seconds};
use super::{Rule, announced};
use crate::rows::{AnnouncedRows, FIXED_SIZE, and_later, announced_size};

// A month's number as an announced one is, of which none is larger.
fn as_announced(n: u64) -> i32
    ensures { result ≡ pos (least n 2147483647) }
{
    n.min(2147483647) as i32
}

// Whether no announced row has begun in month n; where it is false, one may have. Without a jump, so that several rows are compared at once.
fn none_reached(table: &AnnouncedRows, size: u32, n: u64, month: i32) -> bool
    requires { (size ≤ 16) × (month ≡ pos (least n 2147483647)) }
    ensures { result ≡ true → by_found n 0 ≡ reached (starts (rows_to table.now size)) n }
{
    let mut none = true;
    for row in &table.months[..size as usize] {
        none = and_later(none, month, *row);
    }
    none
}

// How many announced rows stand up to the last that has begun, 0 where none has. From the end, with no order assumed.
fn last_reached(table: &AnnouncedRows, size: u32, n: u64, month: i32) -> u32
    requires { (size ≤ 16) × (month ≡ pos (least n 2147483647)) }
    ensures { (by_found n result ≡ reached (starts (rows_to table.now size)) n) × (result ≤ size) }
{
    for i in (0..size).rev() {
        let row = table.months[i as usize];
        if row <= month {
            return i + 1;
        }
    }
    0
}

// The same, with a short way for a month in which none has begun.
fn announced_rows_reached(table: &AnnouncedRows, n: u64) -> u32
    ensures { (by_found n result ≡ reached (starts (rows_of table.now)) n) × (result ≤ announced_size table.now) }
{
    let size = announced_size(table) as u32;
    let month = as_announced(n);
    if none_reached(table, size, n, month) {
        return 0;
    }
    last_reached(table, size, n, month)
}

// How many rows of a table stand up to the last that has begun.
pub(crate) fn any_rows_reached(table: &AnnouncedRows, n: u64) -> usize
    ensures { (result ≡ reached (starts (rows_of table.now)) n) × (result ≤ fixed_rows + announced_size table.now) }
{
    let found = announced_rows_reached(table, n);
    if found == 0 {
        return fixed_rows_reached(n);
    }
    FIXED_SIZE + found as usize
}

// The same, with a short way for a table that lends no rows.
pub(crate) fn table_rows_reached(table: &AnnouncedRows, n: u64) -> usize
    ensures { (result ≡ reached (starts (rows_of table.now)) n) × (result ≤ fixed_rows + announced_size table.now) }
{
    if table.months_size == 0 {
        return fixed_rows_reached(n);
    }
    any_rows_reached(table, n)
}

// The seconds of the last of 15 or more rows of a table.
pub(crate) fn seconds_of_row(table: &AnnouncedRows, rows: usize) -> f64
    requires { (15 ≤ rows) × (rows ≤ fixed_rows + announced_size table.now) }
    ensures { result ≡ seconds_of (slice_index_or (rows_of table.now) (rows - 1) none) }
{
    if rows <= FIXED_SIZE {
        return whole_seconds(rows);
    }
    announced::seconds_at(table, rows - FIXED_SIZE - 1)
}

// The offset by the number of rows reached.
pub(crate) fn offset_by(table: &AnnouncedRows, rows: usize, mjd: f64, fraction: f64) -> f64
    requires { rows ≤ fixed_rows + announced_size table.now }
    ensures { result ≡ offset_by (rows_of table.now) rows mjd fraction }
{
    if rows == 0 {
        return 0.0;
    }
    let i = rows - 1;
    if i < 14 {
        return seconds_at(i) + (mjd + fraction - start_at(i)) * rate_at(i);
    }
    seconds_of_row(table, rows)
}

// The rule by the number of rows reached: the rows of places 0 to 13 drift, in every table.
pub(crate) fn rule_by(rows: usize) -> Rule
    requires { rows ≤ most_rows }
    ensures { (t : AnnouncedRows) → rows ≤ fixed_rows + announced_size t → result ≡ rule_by (rows_of t) rows }
{
    if rows == 0 {
        return Rule::Absent;
    }
    let row = rows - 1;
    if row < 14 {
        return Rule::Drifting(row as u32);
    }
    Rule::Whole(row as u32)
}

// The rule of 15 or more rows: none of them drifts.
fn whole_rule(rows: usize) -> Rule
    requires { (15 ≤ rows) × (rows ≤ most_rows) }
    ensures { (t : AnnouncedRows) → rows ≤ fixed_rows + announced_size t → result ≡ rule_by (rows_of t) rows }
{
    Rule::Whole((rows - 1) as u32)
}

// The number of a date's month; 0 in the years before year 0, when no row has begun.
pub(crate) fn month_number(year: i32, month: u32) -> u64
    requires { (1 ≤ month) × (month ≤ 12) }
    ensures { result ≡ month_number year month }
{
    if year < 0 {
        return 0;
    }
    12 * (year as u64) + (month as u64) - 1
}

// Whether the date is from 1972 on, where no row drifts, and at most the 27th, so that its next date is in the same month. The offsets of such a date need
// neither its Modified Julian Date nor its next date.
// kept: beside `in_every_month` of judging: alike but for the first year and the last day, and each promises another thing (`valid_triple`, `Plain`).
pub(crate) fn plain_day(year: i32, month: i32, day: i32) -> bool
    ensures { result ≡ true → Plain year month day }
{
    if year < 1972 {
        return false;
    }
    if month < 1 {
        return false;
    }
    if 12 < month {
        return false;
    }
    if day < 1 {
        return false;
    }
    day <= 27
}

// TAI-UTC all through a plain day, and its rule.
#[derive(Clone, Copy)]
pub(crate) struct PlainDay {
    pub(crate) seconds: f64,
    pub(crate) rule: Rule,
}

pub(crate) fn of_plain_day(year: i32, month: i32, day: i32, table: &AnnouncedRows) -> PlainDay
    requires { Plain year month day }
    ensures { ((mjd fraction : Float)
        → result.seconds ≡ offset_at (rows_of table.now) (month_number year (unsigned_abs month)) mjd fraction)
        × (result.rule ≡ rule_at (rows_of table.now) year month) }
{
    let rows = table_rows_reached(table, month_number(year, month as u32));
    PlainDay {
        seconds: seconds_of_row(table, rows),
        rule: whole_rule(rows),
    }
}
