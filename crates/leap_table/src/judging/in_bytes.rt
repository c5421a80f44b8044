// The same of dates that are bytes, for callers from C: twelve bytes a date, the lowest first.
ghost use Rattle.std.specs.Prelude.{◌≡◌, ◌+◌, ◌*◌, ◌≤◌, length};
ghost use Rattle.refusals.specs.Outcome.{onward, outcome};
ghost use Rattle.leap_table.specs.rows.Announced.{table_of};
ghost use Rattle.leap_table.specs.judging.Judging.{judged_all};
ghost use Rattle.leap_table.specs.judging.Lists.{dates_from, triple_in, judged_bytes};

use super::Triple;
use crate::rows::AnnouncedRows;
use refusals::Refusal;

// Date i of a list that has it. Read from a part of twelve bytes, its numbers need no test of the length.
pub(crate) fn triple_in(dates: &[u8], i: usize) -> Triple
    requires { 12 * i + 12 ≤ length dates.now }
    ensures { result ≡ triple_in dates.now i }
{
    let at = 12 * i;
    let end = at + 12;
    let year = numerals::little_endian::i32_at(&dates[at..end], 0);
    let month = numerals::little_endian::i32_at(&dates[at..end], 4);
    let day = numerals::little_endian::i32_at(&dates[at..end], 8);
    Triple { year, month, day }
}

// Whether a walk with these dates is taken, as `judge_numbers` judges it: 14 where the bytes of `dates` are no multiple of 12, 11 where `room` bytes are fewer
// than eight for each date.
// kept: beside `judge_numbers`: two public calls, whose clauses are of numbers and of bytes; what they share, `judge_table` and `judge_all`, is called.
pub fn judge_bytes(dates: &[u8], table: AnnouncedRows, room: usize) -> Result<(), Refusal>
    ensures { outcome result ≡ onward (table_of table) (λ _. judged_bytes dates.now room) }
{
    crate::rows::judge_table(&table)?;
    if dates.len() % 12 != 0 {
        return Err(Refusal::LengthWrong);
    }
    let n = dates.len() / 12;
    if room / 8 < n {
        return Err(Refusal::NoRoom);
    }
    super::judge_all(|i| triple_in(dates, i), n)
}
