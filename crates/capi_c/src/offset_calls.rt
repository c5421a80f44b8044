// TAI-UTC by the table and the rows that are lent after it.
ghost use Rattle.std.specs.Prelude.{◌≡◌, length};
ghost use Rattle.refusals.specs.Outcome.{answer, onward};
ghost use Rattle.leap_table.specs.offsets.Rule.{offset_by_rule};
ghost use Rattle.leap_table.specs.offsets.Leap.{leap_at_end_of_day};
ghost use Rattle.c_answers.specs.table.TableBytes.{table_bytes};
ghost use Rattle.c_answers.specs.Delivery.{code, in_bytes, Delivered};
ghost use Rattle.c_answers.specs.Fields.{float_bytes};
ghost use Rattle.c_answers.specs.rules.RuleFields.{offset_rule_bytes};

#[unsafe(no_mangle)]
pub extern "C" fn ct_check_table(table: &[u8]) -> i64
    ensures { result ≡ code (onward (table_bytes table.now) (λ rows. answer (length rows))) }
{
    capi::offset_calls::ct_check_table(table)
}

#[unsafe(no_mangle)]
pub extern "C" fn ct_get_tai_utc_offset(
    year: i32,
    month: i32,
    day: i32,
    fraction: f64,
    table: &[u8],
    out: &mut [u8],
) -> i64
    ensures { Delivered (in_bytes offset_rule_bytes (onward (table_bytes table.now) (λ rows. offset_by_rule rows year month day fraction)))
        out.old result out.new }
{
    capi::offset_calls::ct_get_tai_utc_offset(year, month, day, fraction, table, out)
}

#[unsafe(no_mangle)]
pub extern "C" fn ct_leap_at_end_of_day(
    year: i32,
    month: i32,
    day: i32,
    table: &[u8],
    out: &mut [u8],
) -> i64
    ensures { Delivered (in_bytes float_bytes (onward (table_bytes table.now) (λ rows. leap_at_end_of_day rows year month day))) out.old
        result out.new }
{
    capi::offset_calls::ct_leap_at_end_of_day(year, month, day, table, out)
}
