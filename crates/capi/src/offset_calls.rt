// TAI-UTC by the table and the rows that are lent after it.
ghost use Rattle.std.specs.Prelude.{◌≡◌, length};
ghost use Rattle.refusals.specs.Outcome.{answer, onward, outcome};
ghost use Rattle.leap_table.specs.offsets.Rule.{forget, offset_by_rule};
ghost use Rattle.leap_table.specs.offsets.Leap.{leap_at_end_of_day};
ghost use Rattle.c_answers.specs.table.TableBytes.{table_bytes};
ghost use Rattle.c_answers.specs.Delivery.{code, in_bytes, Delivered};
ghost use Rattle.c_answers.specs.Fields.{float_bytes};
ghost use Rattle.c_answers.specs.rules.RuleFields.{offset_rule_bytes};

use c_answers::table::{announced_rows_at, arrays, judge_table};
use c_answers::{fields, refused};
use leap_table::offsets::SecondsByRule;

// The fixed rows and the announced ones.
#[unsafe(no_mangle)]
pub extern "C" fn ct_check_table(table: &[u8]) -> i64
    ensures { result ≡ code (onward (table_bytes table.now) (λ rows. answer (length rows))) }
{
    let rows = announced_rows_at(table);
    if let Err(refusal) = judge_table(table.len(), rows) {
        return refused(refusal);
    }
    (leap_table::rows::FIXED_ROWS + rows.months_size) as i64
}

fn put_offset(found: SecondsByRule, out: &mut [u8]) -> i64
    ensures { Delivered (in_bytes offset_rule_bytes (outcome found)) out.old result out.new }
{
    match found {
        Ok((seconds, rule)) => { c_answers::rules::put_offset_by_rule(seconds, rule, out) }
        Err(refusal) => refused(refusal),
    }
}

// A leap passes no rule on.
fn put_leap(found: SecondsByRule, out: &mut [u8]) -> i64
    ensures { Delivered (in_bytes float_bytes (forget (outcome found))) out.old result out.new }
{
    match found {
        Ok((seconds, _)) => fields::put_float(seconds, out),
        Err(refusal) => refused(refusal),
    }
}

#[unsafe(no_mangle)]
pub extern "C" fn ct_get_tai_utc_offset(
    year: i32,
    month: i32,
    day: i32,
    fraction: f64,
    table: &[u8],
    out: &mut [u8],
) -> i64
    ensures { Delivered (in_bytes offset_rule_bytes (onward (table_bytes table.now) (λ rows. offset_by_rule rows year month day fraction)))
        out.old result out.new }
{
    let mut rows = leap_table::rows::no_rows();
    if let Err(refusal) = arrays::read_table(table, &mut rows) {
        return refused(refusal);
    }
    put_offset(
        leap_table::offsets::get_tai_utc_offset_by_rows(year, month, day, fraction, &rows),
        out,
    )
}

#[unsafe(no_mangle)]
pub extern "C" fn ct_leap_at_end_of_day(
    year: i32,
    month: i32,
    day: i32,
    table: &[u8],
    out: &mut [u8],
) -> i64
    ensures { Delivered (in_bytes float_bytes (onward (table_bytes table.now) (λ rows. leap_at_end_of_day rows year month day))) out.old
        result out.new }
{
    let mut rows = leap_table::rows::no_rows();
    if let Err(refusal) = arrays::read_table(table, &mut rows) {
        return refused(refusal);
    }
    put_leap(
        leap_table::offsets::leap_at_end_of_day_by_rows(year, month, day, &rows),
        out,
    )
}
