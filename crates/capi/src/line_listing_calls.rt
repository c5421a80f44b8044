// The listing of three recorders in parts.
// kept: records, parts, numbers and order in slices beside each other (C interface).
ghost use Rattle.std.specs.Prelude.{◌≡◌, length};
ghost use Rattle.refusals.specs.Outcome.{number_said};
ghost use Rattle.c_answers.specs.table.TableBytes.{table_bytes};
ghost use Rattle.capi.specs.LineListingDelivery.{asked_refusal, part_asked, PartDelivered};

use crate::summary_calls::run_at;
use c_answers::refused;
use c_answers::table::arrays;
use numerals::little_endian::{put_nth_u64, u64_at};
use refusals::Refusal;

// Whether the arguments go together.
#[tactic(auto, unfolding(crate::specs::LineListingDelivery::asked_refusal, refusals::specs::Outcome::number_said, refusals::specs::Refusal::refusal_number))]
fn judge_asked(
    reasons: u32,
    runs: &[u8],
    size1: usize,
    size2: usize,
    n: usize,
    cursor: usize,
) -> Result<(), Refusal>
    ensures { number_said result ≡ asked_refusal reasons runs.now size1 size2 n cursor }
{
    if reasons > 1 {
        return Err(Refusal::OutOfLimit);
    }
    if cursor != 16 {
        return Err(Refusal::LengthWrong);
    }
    crate::summary_calls::judge_runs(runs, size1, size2, n)
}

#[unsafe(no_mangle)]
pub extern "C" fn ct_line_listing_part(
    reasons: u32,
    runs: &[u8],
    jd1: &[u8],
    jd2: &[u8],
    numbers: &[u8],
    order: &[u8],
    table: &[u8],
    cursor: &mut [u8],
    out: &mut [u8],
) -> i64
    ensures { PartDelivered (part_asked «reasons» runs.now jd1.now jd2.now numbers.now order.now
        cursor.old (length out.old) (table_bytes table.now)) cursor.old out.old result cursor.new
        out.new }
{
    let mut rows = leap_table::rows::no_rows();
    if let Err(refusal) = arrays::read_table(table, &mut rows) {
        return refused(refusal);
    }
    if let Err(refusal) = judge_asked(
        reasons,
        runs,
        jd1.len(),
        jd2.len(),
        numbers.len(),
        cursor.len(),
    ) {
        return refused(refusal);
    }
    let line = u64_at(cursor, 0) as usize;
    let textless = u64_at(cursor, 8) as usize;
    match line_listing::listing::listing_part_by_rows(
        reasons == 1,
        run_at(runs, 0),
        run_at(runs, 32),
        run_at(runs, 64),
        jd1,
        jd2,
        numbers,
        u64_at(runs, 0) as usize,
        u64_at(runs, 32) as usize,
        order,
        line,
        textless,
        &rows,
        out,
    ) {
        Err(refusal) => refused(refusal),
        Ok(part) => {
            put_nth_u64(cursor, 0, part.line as u64);
            put_nth_u64(cursor, 1, part.textless as u64);
            part.written as i64
        }
    }
}
