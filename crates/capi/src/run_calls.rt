// A run of stamps from one scale to another: by the way through TAI, and by one formula.
ghost use Rattle.runs.specs.by_formula.Formula.{formula_run};
ghost use Rattle.runs.specs.Run.{converted_run};
ghost use Rattle.c_answers.specs.table.TableBytes.{table_bytes};
ghost use Rattle.capi.specs.RunDelivery.{RunDelivered};

use c_answers::refused;
use c_answers::table::arrays;

#[unsafe(no_mangle)]
pub extern "C" fn ct_convert_run(
    from: u32,
    to: u32,
    jd1: &[u8],
    jd2: &[u8],
    table: &[u8],
    out1: &mut [u8],
    out2: &mut [u8],
    numbers: &mut [u8],
) -> i64
    ensures { RunDelivered (converted_run (table_bytes table.now) from to jd1.now jd2.now out1.old
        out2.old numbers.old) result out1.new out2.new numbers.new }
{
    let mut rows = leap_table::rows::no_rows();
    if let Err(refusal) = arrays::read_table(table, &mut rows) {
        return refused(refusal);
    }
    match runs::convert_run_by_rows(from, to, jd1, jd2, &rows, out1, out2, numbers) {
        Ok(n) => n as i64,
        Err(refusal) => refused(refusal),
    }
}

#[unsafe(no_mangle)]
pub extern "C" fn ct_formula_run(
    from: u32,
    to: u32,
    jd1: &[u8],
    jd2: &[u8],
    offsets: &[u8],
    out1: &mut [u8],
    out2: &mut [u8],
    numbers: &mut [u8],
) -> i64
    ensures { RunDelivered (formula_run from to jd1.now jd2.now offsets.now out1.old out2.old
        numbers.old) result out1.new out2.new numbers.new }
{
    match runs::by_formula::formula_run(from, to, jd1, jd2, offsets, out1, out2, numbers) {
        Ok(n) => n as i64,
        Err(refusal) => refused(refusal),
    }
}
