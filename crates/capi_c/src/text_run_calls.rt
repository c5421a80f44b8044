// The texts of a run of UTC dates in one call.
ghost use Rattle.c_answers.specs.table.TableBytes.{table_bytes};
ghost use Rattle.capi.specs.TextsDelivery.{texts_by_number, TextsDelivered};

#[unsafe(no_mangle)]
pub extern "C" fn ct_texts_of_run(
    text_form: u32,
    jd1: &[u8],
    jd2: &[u8],
    table: &[u8],
    texts: &mut [u8],
    lengths: &mut [u8],
    numbers: &mut [u8],
) -> i64
    ensures { TextsDelivered (texts_by_number text_form (table_bytes table.now) jd1.now jd2.now texts.old
        lengths.old numbers.old) result texts.new lengths.new numbers.new }
{
    capi::text_run_calls::ct_texts_of_run(text_form, jd1, jd2, table, texts, lengths, numbers)
}
