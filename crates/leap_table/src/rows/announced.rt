// The announced rows that a caller lends after the table's own: document 02, item 8.
ghost use Rattle.std.specs.Prelude.{◌≡◌, ◌+◌, ◌<◌, ◌≤◌, ◌&&◌, int_lt};
ghost use Rattle.refusals.specs.Outcome.{number_said};
ghost use Rattle.leap_table.specs.rows.Table.{starts, rising};
ghost use Rattle.leap_table.specs.rows.Announced as L;

use super::AnnouncedRows;
use super::fixed::{LAST_MONTH, LAST_SECONDS};
use refusals::Refusal;

// A number counted from 0; a negative one counts as 0.
// kept: a public function, whose promise is the definition `natural` that clauses cite; `max(0)` and a cast say it in as many words.
pub fn natural(x: i32) -> u32
    ensures { (result ≡ L.natural x) × (result < 2147483648) }
{
    if x < 0 {
        return 0;
    }
    x as u32
}

// How many rows both sizes of a table leave.
pub fn size_of(table: &AnnouncedRows) -> usize
    ensures { result ≡ L.least table.now.months_size table.now.seconds_size }
{
    table.months_size.min(table.seconds_size) as usize
}

// No more than a table has room for.
pub fn at_most_16(size: usize) -> usize
    ensures { (result ≡ L.least size 16) × (result ≤ 16) }
{
    size.min(16)
}

// How many announced rows count.
pub(crate) fn announced_size(table: &AnnouncedRows) -> usize
    ensures { (result ≡ L.announced_size table.now) × (result ≤ 16) }
{
    at_most_16(size_of(table))
}

// Whether what was seen is in order, and a month is later than the one before. No jump, so that several rows are compared at once; the same below.
pub(crate) fn and_later(good: bool, before: i32, month: i32) -> bool
    ensures { result ≡ good && int_lt before month }
{
    good & (before < month)
}

// Whether what was seen goes by steps of one second, and so does the next row: its seconds and 1, less the seconds before, modulo 2^32, are then 2 or 0.
fn and_one_apart(good: bool, before: u32, next: u32) -> bool
    requires { (before < 2147483648) × (next < 2147483648) }
    ensures { result ≡ good && L.one_apart before next }
{
    let moved = std::num::wrapping_sub_u32(next + 1, before);
    good & ((moved == 0) | (moved == 2))
}

// What two tests of all rows say: whether each announced row is later than the one before, and whether each is one second more or less.
// kept: two truth values and no `Result`, since one loop makes both tests without a jump.
#[derive(Clone, Copy)]
struct Tests {
    rises: bool,
    steps: bool,
}

// Both tests in one loop. Until a row fails, its number and the one before are not negative, so that the months are compared as they are announced.
fn tests_of(table: &AnnouncedRows, size: usize) -> Tests
    requires { size ≤ 16 }
    ensures { (result.rises ≡ rising (starts (L.rows_to table.now size))) × (result.steps ≡ L.by_seconds (L.rows_to table.now size)) }
{
    let mut rises = true;
    let mut steps = true;
    let mut month = LAST_MONTH as i32;
    let mut second = LAST_SECONDS;
    for i in 0..size {
        let next_month = table.months[i];
        let next_second = natural(table.seconds[i]);
        rises = and_later(rises, month, next_month);
        steps = and_one_apart(steps, second, next_second);
        month = next_month;
        second = next_second;
    }
    Tests { rises, steps }
}

// Whether a table is taken. Refusals in order: 20 the sizes, then 21 the order of the rows, then 22 their steps.
pub fn judge_table(table: &AnnouncedRows) -> Result<(), Refusal>
    ensures { L.Judged (number_said result) table.now }
{
    let size = table.months_size;
    if size != table.seconds_size {
        return Err(Refusal::TableSizesWrong);
    }
    if 16 < size {
        return Err(Refusal::TableSizesWrong);
    }
    let tests = tests_of(table, size as usize);
    if !tests.rises {
        return Err(Refusal::TableNotRising);
    }
    if !tests.steps {
        return Err(Refusal::TableStepWrong);
    }
    Ok(())
}
