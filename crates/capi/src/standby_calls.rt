// The bill for a crew's standby.
// kept: the seven numbers of each time one by one, not as a struct (C interface).
ghost use Rattle.refusals.specs.Outcome.{onward, outcome};
ghost use Rattle.standby.specs.Bills.{standby_bill};
ghost use Rattle.c_answers.specs.table.TableBytes.{table_bytes};
ghost use Rattle.c_answers.specs.Delivery.{in_bytes, Delivered};
ghost use Rattle.capi.specs.BillBytes.{bill_bytes, utc_time};

use c_answers::table::{announced_rows_at, judge_table};
use c_answers::{refused, wide_fields};
use refusals::Refusal;
use standby::{Bill, UtcTime};

fn put_bill(found: Result<Bill, Refusal>, out: &mut [u8]) -> i64
    ensures { Delivered (in_bytes bill_bytes (outcome found)) out.old result out.new }
{
    match found {
        Ok(bill) => wide_fields::put_three_patterns(bill.quarters, bill.first, bill.second, out),
        Err(refusal) => refused(refusal),
    }
}

// The call with its times packed.
fn bill_call(
    start: UtcTime,
    end: UtcTime,
    rate: u32,
    first_metres: u32,
    second_metres: u32,
    table: &[u8],
    out: &mut [u8],
) -> i64
    ensures { Delivered (in_bytes bill_bytes
        (onward (table_bytes table.now) (λ rows. standby_bill rows start end rate first_metres second_metres))) out.old result
        out.new }
{
    let rows = announced_rows_at(table);
    if let Err(refusal) = judge_table(table.len(), rows) {
        return refused(refusal);
    }
    put_bill(
        standby::standby_bill(start, end, rate, first_metres, second_metres, rows),
        out,
    )
}

#[unsafe(no_mangle)]
pub extern "C" fn ct_standby_bill(
    start_year: i32,
    start_month: u8,
    start_day: u8,
    start_hour: u8,
    start_minute: u8,
    start_second: u8,
    start_millis: u32,
    end_year: i32,
    end_month: u8,
    end_day: u8,
    end_hour: u8,
    end_minute: u8,
    end_second: u8,
    end_millis: u32,
    rate: u32,
    first_metres: u32,
    second_metres: u32,
    table: &[u8],
    out: &mut [u8],
) -> i64
    ensures { Delivered (in_bytes bill_bytes
        (onward (table_bytes table.now)
        (λ rows. standby_bill rows (utc_time start_year start_month start_day start_hour start_minute start_second start_millis)
        (utc_time end_year end_month end_day end_hour end_minute end_second end_millis) rate first_metres second_metres))) out.old
        result out.new }
{
    let start = UtcTime {
        year: start_year,
        month: start_month,
        day: start_day,
        hour: start_hour,
        minute: start_minute,
        second: start_second,
        millis: start_millis,
    };
    let end = UtcTime {
        year: end_year,
        month: end_month,
        day: end_day,
        hour: end_hour,
        minute: end_minute,
        second: end_second,
        millis: end_millis,
    };
    bill_call(start, end, rate, first_metres, second_metres, table, out)
}
