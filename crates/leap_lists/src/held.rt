// The rows that are taken from a text, and the refusal of its next line.
ghost use Rattle.std.specs.Prelude.{◌≡◌, ◌<◌, ◌≤◌};
ghost use Rattle.refusals.specs.Outcome.{number_said};
ghost use Rattle.leap_table.specs.rows.Announced.{one_apart};
ghost use Rattle.leap_lists.specs.Held.{seconds_from, library_row, none_held, later_fault, line_fault, with_row, with_line, InRange};

use crate::lines::Line;
use leap_table::rows::{LAST_MONTH, LAST_SECONDS};
use refusals::Refusal;

// What is read so far: as many announced rows as `size`, their month starts and their seconds; the month and the seconds of the last row, of the library's last
// where there is none; and the expiry, 0 where there is none.
// kept: arrays with their size, as `AnnouncedRows` takes them (no heap); and 0 for no expiry, as `ListRead` hands it to C.
#[derive(Clone, Copy)]
pub(crate) struct Held {
    pub(crate) size: u32,
    pub(crate) months: [i32; 16],
    pub(crate) seconds: [i32; 16],
    pub(crate) month: u32,
    pub(crate) second: u32,
    pub(crate) known: u32,
}

// TAI-UTC in whole seconds in a month by the library's own rows; 0 before 1972.
fn seconds_from(month: u32) -> u32
    ensures { (result ≡ seconds_from month) × (result < 2147483648) }
{
    let year = (month / 12) as i32;
    let none = leap_table::rows::no_rows();
    leap_table::offsets::whole_seconds_by_rows(year, month % 12 + 1, &none)
}

// Whether the library has a row that begins in that month with these seconds.
#[tactic(auto, unfolding(crate::specs::Held::library_row))]
fn library_row(month: u32, seconds: u32) -> bool
    ensures { result ≡ library_row month seconds }
{
    month != 0 && seconds_from(month) == seconds && seconds_from(month - 1) != seconds
}

#[tactic(auto, unfolding(crate::specs::Held::none_held))]
pub(crate) fn none_held() -> Held
    ensures { result ≡ none_held }
{
    Held {
        size: 0,
        months: [0; 16],
        seconds: [0; 16],
        month: LAST_MONTH,
        second: LAST_SECONDS,
        known: 0,
    }
}

// kept: no plainer: `a.abs_diff(b) == 1` has as many words, and the definition `one_apart` is this test.
fn one_apart(a: u32, b: u32) -> bool
    requires { (a < 2147483648) × (b < 2147483648) }
    ensures { result ≡ one_apart a b }
{
    b == a + 1 || a == b + 1
}

// Judges a row later than the library's. Refusals in order: 20 to 22.
#[tactic(auto, unfolding(crate::specs::Held::later_fault, refusals::specs::Outcome::number_said, refusals::specs::Refusal::refusal_number))]
fn judge_later(held: Held, month: u32, seconds: u32) -> Result<(), Refusal>
    requires { (held.second < 2147483648) × (seconds < 2147483648) }
    ensures { number_said result ≡ later_fault held month seconds }
{
    if 16 <= held.size {
        return Err(Refusal::TableSizesWrong);
    }
    if month <= held.month {
        return Err(Refusal::TableNotRising);
    }
    if !one_apart(held.second, seconds) {
        return Err(Refusal::TableStepWrong);
    }
    Ok(())
}

// Judges a row: one that is not later than the library's last has to be the library's.
#[tactic(auto, unfolding(crate::specs::Held::line_fault, refusals::specs::Outcome::number_said, refusals::specs::Refusal::refusal_number))]
fn judge_row(held: Held, month: u32, seconds: u32) -> Result<(), Refusal>
    requires { (held.second < 2147483648) × (seconds < 2147483648) }
    ensures { number_said result ≡ line_fault held (Line.Row month seconds) }
{
    if LAST_MONTH < month {
        return judge_later(held, month, seconds);
    }
    if library_row(month, seconds) {
        return Ok(());
    }
    Err(Refusal::TableStepWrong)
}

// Judges a line.
#[tactic(auto, unfolding(crate::specs::Held::line_fault, refusals::specs::Outcome::number_said, refusals::specs::Refusal::refusal_number))]
pub(crate) fn judge(held: Held, line: Line) -> Result<(), Refusal>
    requires { (held.second < 2147483648) × InRange line }
    ensures { number_said result ≡ line_fault held line }
{
    match line {
        Line::Blank => Ok(()),
        Line::Row(month, seconds) => judge_row(held, month, seconds),
        Line::Expiry(_) => Ok(()),
        Line::Outside => Err(Refusal::TextOutsideGrammar),
    }
}

// One row more.
fn add_row(held: &mut Held, month: u32, seconds: u32)
    requires { (held.old.size < 16) × (month < 2147483648) × (seconds < 2147483648) }
    ensures { held.new ≡ with_row held.old month seconds }
{
    let i = held.size as usize;
    held.months[i] = month as i32;
    held.seconds[i] = seconds as i32;
    held.size += 1;
    held.month = month;
    held.second = seconds;
}

// Adds what a line that is not refused says.
#[tactic(auto, unfolding(crate::specs::Held::with_line, crate::specs::Held::line_fault, crate::specs::Held::later_fault))]
pub(crate) fn add_line(held: &mut Held, line: Line)
    requires { (line_fault held.old line ≡ 0) × InRange line }
    ensures { held.new ≡ with_line held.old line }
{
    match line {
        Line::Row(month, seconds) if LAST_MONTH < month => add_row(held, month, seconds),
        Line::Expiry(day) => held.known = day,
        _ => (),
    }
}
