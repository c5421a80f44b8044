// Which lists of dates a walk refuses, and by which number: dates go in time order. Document 02, item 2.
ghost use Rattle.std.specs.Prelude.{◌≡◌, ℕ, ◌+◌, ◌*◌, ◌<◌, ◌≤◌, true, length};
ghost use Rattle.refusals.specs.Outcome.{answer, onward, outcome};
ghost use Rattle.leap_table.specs.rows.Announced.{table_of};
ghost use Rattle.leap_table.specs.judging.Judging.{valid_triple, judged_next, judged_all};
ghost use Rattle.leap_table.specs.judging.Lists.{dates_from, triple_at, judged_numbers};

mod in_bytes;

use crate::rows::AnnouncedRows;
pub use in_bytes::judge_bytes;
pub(crate) use in_bytes::triple_in;
use refusals::Refusal;

// A year, month and day, a date or not, in time order.
#[derive(Clone, Copy, Debug, PartialEq, Eq, PartialOrd, Ord)]
pub struct Triple {
    pub year: i32,
    pub month: i32,
    pub day: i32,
}

// Whether the day is one that every month has, of a year and month that are good: such a date needs no look at its month's length.
// kept: beside `plain_day` of offsets::look_up: alike but for the first year and the last day, and each promises another thing (`valid_triple`, `Plain`).
fn in_every_month(t: Triple) -> bool
    ensures { result ≡ true → valid_triple t ≡ answer tt }
{
    if t.year < -4799 {
        return false;
    }
    if t.month < 1 {
        return false;
    }
    if 12 < t.month {
        return false;
    }
    if t.day < 1 {
        return false;
    }
    t.day <= 28
}

// Judges a date by itself. Refusals in order: 1 to 3.
fn judge_alone(t: Triple) -> Result<(), Refusal>
    ensures { outcome result ≡ valid_triple t }
{
    if in_every_month(t) {
        return Ok(());
    }
    calendar::validate_calendar_date(t.year, t.month, t.day)
}

// Judges a date after another. Refusals in order: its own, then 17.
#[tactic(auto, using(crate::proofs::judging::Judges::judged), unfolding(crate::specs::judging::Judging::judged_next, crate::specs::judging::Judging::earlier))]
fn judge(before: Triple, t: Triple) -> Result<(), Refusal>
    ensures { outcome result ≡ judged_next before t }
{
    judge_alone(t)?;
    if t < before {
        return Err(Refusal::OutOfOrder);
    }
    Ok(())
}

// Date i of a list that has it.
pub(crate) fn triple_at(dates: &[i32], i: usize) -> Triple
    requires { 3 * i + 3 ≤ length dates.now }
    ensures { result ≡ triple_at dates.now i }
{
    let at = 3 * i;
    Triple {
        year: dates[at],
        month: dates[at + 1],
        day: dates[at + 2],
    }
}

// Judges n dates in their order, each as `date` reads it. No valid date is earlier than the first of -4799.
fn judge_all<F: Fn(usize) -> Triple>(date: F, n: usize) -> Result<(), Refusal>
    requires { (i : ℕ) → i < n → F.pre date i }
    ensures { (f : ℕ → Triple) → ((i : ℕ) (t : Triple) → i < n → F.post date i t → t ≡ f i) → outcome result ≡ judged_all (dates_from f 0 n) }
{
    let mut before = Triple {
        year: -4799,
        month: 1,
        day: 1,
    };
    for i in 0..n {
        let t = date(i);
        judge(before, t)?;
        before = t;
    }
    Ok(())
}

// Whether a walk with these dates, a year, a month and a day each, is taken. Refusals in order: 20 to 22 the table; 14 a length of `dates` that is no multiple
// of 3; 11 fewer places than dates; then date by date 1 to 3 its own, 17 earlier than the one before it.
pub fn judge_numbers(dates: &[i32], table: AnnouncedRows, places: usize) -> Result<(), Refusal>
    ensures { outcome result ≡ onward (table_of table) (λ _. judged_numbers dates.now places) }
{
    crate::rows::judge_table(&table)?;
    if dates.len() % 3 != 0 {
        return Err(Refusal::LengthWrong);
    }
    let n = dates.len() / 3;
    if places < n {
        return Err(Refusal::NoRoom);
    }
    judge_all(|i| triple_at(dates, i), n)
}
