// The dates of a run of UTC texts in one call.
ghost use Rattle.parsing.specs.run_dates.RunDates.{dates_of_texts};
ghost use Rattle.c_answers.specs.table.TableBytes.{table_bytes};
ghost use Rattle.capi.specs.RunDelivery.{RunDelivered};

#[unsafe(no_mangle)]
pub extern "C" fn ct_dates_of_texts(
    texts: &[u8],
    lengths: &[u8],
    table: &[u8],
    out1: &mut [u8],
    out2: &mut [u8],
    numbers: &mut [u8],
) -> i64
    ensures { RunDelivered (dates_of_texts (table_bytes table.now) texts.now lengths.now out1.old
        out2.old numbers.old) result out1.new out2.new numbers.new }
{
    capi::date_run_calls::ct_dates_of_texts(texts, lengths, table, out1, out2, numbers)
}
