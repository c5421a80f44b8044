// The dates of a run of UTC texts in one call.
// kept: an `if let` after `read_table` and no `?`, and three buffers of one run (C interface).
ghost use Rattle.parsing.specs.run_dates.RunDates.{dates_of_texts};
ghost use Rattle.c_answers.specs.table.TableBytes.{table_bytes};
ghost use Rattle.capi.specs.RunDelivery.{RunDelivered};

use c_answers::refused;
use c_answers::table::arrays;

#[unsafe(no_mangle)]
pub extern "C" fn ct_dates_of_texts(
    texts: &[u8],
    lengths: &[u8],
    table: &[u8],
    out1: &mut [u8],
    out2: &mut [u8],
    numbers: &mut [u8],
) -> i64
    ensures { RunDelivered (dates_of_texts (table_bytes table.now) texts.now lengths.now out1.old
        out2.old numbers.old) result out1.new out2.new numbers.new }
{
    let mut rows = leap_table::rows::no_rows();
    if let Err(refusal) = arrays::read_table(table, &mut rows) {
        return refused(refusal);
    }
    match parsing::run_dates::dates_of_texts_by_rows(texts, lengths, &rows, out1, out2, numbers) {
        Ok(n) => n as i64,
        Err(refusal) => refused(refusal),
    }
}
