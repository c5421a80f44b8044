// The summary of three lined up runs, and what an analyst must look at.
ghost use Rattle.std.specs.Prelude.{◌≡◌};
ghost use Rattle.refusals.specs.Outcome.{onward};
ghost use Rattle.c_answers.specs.table.TableBytes.{table_bytes};
ghost use Rattle.c_answers.specs.Delivery.{code, Delivered};
ghost use Rattle.capi.specs.SummaryDelivery.{summary_of, look_at};

#[unsafe(no_mangle)]
pub extern "C" fn ct_line_summary(
    runs: &[u8],
    jd1: &[u8],
    jd2: &[u8],
    numbers: &[u8],
    table: &[u8],
    known: u32,
    out: &mut [u8],
) -> i64
    ensures { Delivered (onward (table_bytes table.now)
        (summary_of known runs.now jd1.now jd2.now numbers.now)) out.old result out.new }
{
    capi::summary_calls::ct_line_summary(runs, jd1, jd2, numbers, table, known, out)
}

#[unsafe(no_mangle)]
pub extern "C" fn ct_line_look(
    runs: &[u8],
    jd1: &[u8],
    jd2: &[u8],
    numbers: &[u8],
    table: &[u8],
    known: u32,
) -> i64
    ensures { result ≡ code (onward (table_bytes table.now)
        (look_at known runs.now jd1.now jd2.now numbers.now)) }
{
    capi::summary_calls::ct_line_look(runs, jd1, jd2, numbers, table, known)
}
