// The summary of three lined up runs, and what an analyst must look at.
// kept: records, parts and numbers in slices beside each other, in both calls (C interface). Both read the table and the records in lines of their own: they
// take the table by value, and a function for them would leave each call its `match`.
ghost use Rattle.std.specs.Prelude.{◌≡◌, ◌+◌, ◌≤◌, eqb, length};
ghost use Rattle.refusals.specs.Outcome.{onward, number_said};
ghost use Rattle.c_answers.specs.table.TableBytes.{table_bytes};
ghost use Rattle.c_answers.specs.Delivery.{code, Delivered};
ghost use Rattle.capi.specs.SummaryDelivery.{run_record, eight_for_each, runs_refusal, summary_of, look_at};

use c_answers::refused;
use c_answers::table::{announced_rows_at, judge_table};
use line_listing::head::RunEnd;
use numerals::little_endian::{u32_at, u64_at};
use refusals::Refusal;

// The record of a run, from `at` on.
#[tactic(auto, unfolding(crate::specs::SummaryDelivery::run_record))]
pub(crate) fn run_at(runs: &[u8], at: usize) -> RunEnd
    requires { at ≤ 64 }
    ensures { result ≡ run_record runs.now at }
{
    let named = u64_at(runs, at + 24) == 1;
    let block = u64_at(runs, at + 8);
    let refused = u32_at(runs, at + 16);
    RunEnd {
        named,
        block,
        refused,
    }
}

#[tactic(auto, unfolding(crate::specs::SummaryDelivery::eight_for_each))]
fn eight_each(size: usize, n: usize) -> bool
    ensures { result ≡ eight_for_each size n }
{
    size % 8 == 0 && size / 8 == n
}

// Whether three numbers are n together.
fn sum_is(a: u64, b: u64, c: u64, n: u64) -> bool
    ensures { result ≡ eqb (a + b + c) n }
{
    a <= n && b <= n - a && c == n - a - b
}

// Whether there are three records, and the lengths of the lists go with them.
#[tactic(auto, unfolding(crate::specs::SummaryDelivery::runs_refusal, refusals::specs::Outcome::number_said, refusals::specs::Refusal::refusal_number))]
pub(crate) fn judge_runs(runs: &[u8], size1: usize, size2: usize, n: usize) -> Result<(), Refusal>
    ensures { number_said result ≡ runs_refusal runs.now size1 size2 n }
{
    if runs.len() != 96 {
        return Err(Refusal::LengthWrong);
    }
    let (first, second, third) = (u64_at(runs, 0), u64_at(runs, 32), u64_at(runs, 64));
    if !eight_each(size1, n) || !eight_each(size2, n) || !sum_is(first, second, third, n as u64) {
        return Err(Refusal::SizesDiffer);
    }
    Ok(())
}

#[unsafe(no_mangle)]
pub extern "C" fn ct_line_summary(
    runs: &[u8],
    jd1: &[u8],
    jd2: &[u8],
    numbers: &[u8],
    table: &[u8],
    known: u32,
    out: &mut [u8],
) -> i64
    ensures { Delivered (onward (table_bytes table.now)
        (summary_of known runs.now jd1.now jd2.now numbers.now)) out.old result out.new }
{
    let rows = announced_rows_at(table);
    if let Err(refusal) = judge_table(table.len(), rows) {
        return refused(refusal);
    }
    if let Err(refusal) = judge_runs(runs, jd1.len(), jd2.len(), numbers.len()) {
        return refused(refusal);
    }
    match line_listing::summary::put_summary(
        jd1,
        jd2,
        numbers,
        u64_at(runs, 0) as usize,
        u64_at(runs, 32) as usize,
        run_at(runs, 0),
        run_at(runs, 32),
        run_at(runs, 64),
        rows,
        known,
        out,
    ) {
        Ok(n) => n as i64,
        Err(refusal) => refused(refusal),
    }
}

#[unsafe(no_mangle)]
pub extern "C" fn ct_line_look(
    runs: &[u8],
    jd1: &[u8],
    jd2: &[u8],
    numbers: &[u8],
    table: &[u8],
    known: u32,
) -> i64
    ensures { result ≡ code (onward (table_bytes table.now)
        (look_at known runs.now jd1.now jd2.now numbers.now)) }
{
    let rows = announced_rows_at(table);
    if let Err(refusal) = judge_table(table.len(), rows) {
        return refused(refusal);
    }
    if let Err(refusal) = judge_runs(runs, jd1.len(), jd2.len(), numbers.len()) {
        return refused(refusal);
    }
    match line_listing::summary::look(
        jd1,
        jd2,
        numbers,
        u64_at(runs, 0) as usize,
        u64_at(runs, 32) as usize,
        run_at(runs, 0),
        run_at(runs, 32),
        run_at(runs, 64),
        rows,
        known,
    ) {
        Ok(n) => n as i64,
        Err(refusal) => refused(refusal),
    }
}
