// The texts of a run of UTC dates in one call.
ghost use Rattle.std.specs.Prelude.{◌≡◌};
ghost use Rattle.c_answers.specs.table.TableBytes.{table_bytes};
ghost use Rattle.capi.specs.TextsDelivery.{form_numbered, texts_by_number, TextsDelivered};

use c_answers::refused;
use c_answers::table::arrays;
use refusals::Refusal;
use utc::iso_texts::NamedForm;

// The form of text of a number, and that with expanded years for any number above 1.
#[tactic(auto, unfolding(crate::specs::TextsDelivery::form_numbered))]
fn form_of(n: u32) -> NamedForm
    ensures { result ≡ form_numbered n }
{
    if n == 0 {
        return NamedForm::Standard;
    }
    if n == 1 {
        return NamedForm::HalfEven;
    }
    NamedForm::Expanded
}

#[unsafe(no_mangle)]
pub extern "C" fn ct_texts_of_run(
    text_form: u32,
    jd1: &[u8],
    jd2: &[u8],
    table: &[u8],
    texts: &mut [u8],
    lengths: &mut [u8],
    numbers: &mut [u8],
) -> i64
    ensures { TextsDelivered (texts_by_number text_form (table_bytes table.now) jd1.now jd2.now texts.old
        lengths.old numbers.old) result texts.new lengths.new numbers.new }
{
    let mut rows = leap_table::rows::no_rows();
    if let Err(refusal) = arrays::read_table(table, &mut rows) {
        return refused(refusal);
    }
    if text_form > 2 {
        return refused(Refusal::OutOfLimit);
    }
    match utc::run_texts::texts_of_run_by_rows(
        form_of(text_form),
        jd1,
        jd2,
        &rows,
        texts,
        lengths,
        numbers,
    ) {
        Ok(n) => n as i64,
        Err(refusal) => refused(refusal),
    }
}
