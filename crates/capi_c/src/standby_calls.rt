// The bill for a crew's standby.
ghost use Rattle.refusals.specs.Outcome.{onward};
ghost use Rattle.standby.specs.Bills.{standby_bill};
ghost use Rattle.c_answers.specs.table.TableBytes.{table_bytes};
ghost use Rattle.c_answers.specs.Delivery.{in_bytes, Delivered};
ghost use Rattle.capi.specs.BillBytes.{bill_bytes, utc_time};

#[unsafe(no_mangle)]
pub extern "C" fn ct_standby_bill(
    start_year: i32,
    start_month: u8,
    start_day: u8,
    start_hour: u8,
    start_minute: u8,
    start_second: u8,
    start_millis: u32,
    end_year: i32,
    end_month: u8,
    end_day: u8,
    end_hour: u8,
    end_minute: u8,
    end_second: u8,
    end_millis: u32,
    rate: u32,
    first_metres: u32,
    second_metres: u32,
    table: &[u8],
    out: &mut [u8],
) -> i64
    ensures { Delivered (in_bytes bill_bytes
        (onward (table_bytes table.now)
        (λ rows. standby_bill rows (utc_time start_year start_month start_day start_hour start_minute start_second start_millis)
        (utc_time end_year end_month end_day end_hour end_minute end_second end_millis) rate first_metres second_metres))) out.old
        result out.new }
{
    capi::standby_calls::ct_standby_bill(
        start_year,
        start_month,
        start_day,
        start_hour,
        start_minute,
        start_second,
        start_millis,
        end_year,
        end_month,
        end_day,
        end_hour,
        end_minute,
        end_second,
        end_millis,
        rate,
        first_metres,
        second_metres,
        table,
        out,
    )
}
