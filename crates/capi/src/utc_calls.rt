// UTC: from Unix time and from the calendar, and to TAI and UT1 and back.
ghost use Rattle.refusals.specs.Outcome.{onward, outcome};
ghost use Rattle.julian.specs.JulianDate.{julian};
ghost use Rattle.utc_scales.specs.UtcTai.{tai_to_utc};
ghost use Rattle.utc_scales.specs.from_ut1.Ut1Utc.{ut1_to_utc};
ghost use Rattle.utc_scales.specs.ByRule.{utc_to_tai_by_rule};
ghost use Rattle.utc_scales.specs.to_ut1.ByRule.{utc_to_ut1_by_rule};
ghost use Rattle.utc.specs.UnixTime.{utc_new};
ghost use Rattle.utc.specs.FromCalendar.{utc_from_calendar};
ghost use Rattle.c_answers.specs.table.TableBytes.{table_bytes};
ghost use Rattle.c_answers.specs.Delivery.{in_bytes, Delivered};
ghost use Rattle.c_answers.specs.Fields.{julian_bytes};
ghost use Rattle.c_answers.specs.rules.RuleFields.{julian_rule_bytes};

use crate::date_calls::put_date;
use c_answers::refused;
use c_answers::table::arrays;
use julian::JulianDate;
use leap_table::offsets::Rule;
use refusals::Refusal;
use scales::{TAI, UT1, UTC};
use utc_scales::utc_tai;

#[unsafe(no_mangle)]
pub extern "C" fn ct_utc_new(seconds: i64, nanos: u32, table: &[u8], out: &mut [u8]) -> i64
    ensures { Delivered (in_bytes julian_bytes (onward (table_bytes table.now) (λ rows. utc_new rows seconds nanos))) out.old result
        out.new }
{
    let mut rows = leap_table::rows::no_rows();
    if let Err(refusal) = arrays::read_table(table, &mut rows) {
        return refused(refusal);
    }
    put_date(
        utc::new_by_rows(seconds, nanos, &rows).map(UTC::to_julian_date),
        out,
    )
}

#[unsafe(no_mangle)]
pub extern "C" fn ct_utc_from_calendar(
    year: i32,
    month: u8,
    day: u8,
    hour: u8,
    minute: u8,
    second: f64,
    table: &[u8],
    out: &mut [u8],
) -> i64
    ensures { Delivered (in_bytes julian_bytes
        (onward (table_bytes table.now) (λ rows. utc_from_calendar rows year month day hour minute second))) out.old result out.new }
{
    let mut rows = leap_table::rows::no_rows();
    if let Err(refusal) = arrays::read_table(table, &mut rows) {
        return refused(refusal);
    }
    put_date(
        utc::utc_from_calendar_by_rows(year, month, day, hour, minute, second, &rows).map(
            UTC::to_julian_date,
        ),
        out,
    )
}

fn put_by_rule(found: Result<(JulianDate, Rule), Refusal>, out: &mut [u8]) -> i64
    ensures { Delivered (in_bytes julian_rule_bytes (outcome found)) out.old result out.new }
{
    match found {
        Ok((date, rule)) => c_answers::rules::put_julian_by_rule(date, rule, out),
        Err(refusal) => refused(refusal),
    }
}

#[unsafe(no_mangle)]
pub extern "C" fn ct_utc_to_tai(jd1: f64, jd2: f64, table: &[u8], out: &mut [u8]) -> i64
    ensures { Delivered (in_bytes julian_rule_bytes (onward (table_bytes table.now) (λ rows. utc_to_tai_by_rule rows (julian jd1 jd2))))
        out.old result out.new }
{
    let mut rows = leap_table::rows::no_rows();
    if let Err(refusal) = arrays::read_table(table, &mut rows) {
        return refused(refusal);
    }
    let date = UTC(JulianDate { jd1, jd2 });
    put_by_rule(
        utc_tai::utc_to_tai_by_rows(date, &rows).map(|(tai, rule)| (tai.0, rule)),
        out,
    )
}

#[unsafe(no_mangle)]
pub extern "C" fn ct_tai_to_utc(jd1: f64, jd2: f64, table: &[u8], out: &mut [u8]) -> i64
    ensures { Delivered (in_bytes julian_bytes (onward (table_bytes table.now) (λ rows. tai_to_utc rows (julian jd1 jd2)))) out.old result
        out.new }
{
    let mut rows = leap_table::rows::no_rows();
    if let Err(refusal) = arrays::read_table(table, &mut rows) {
        return refused(refusal);
    }
    let date = TAI(JulianDate { jd1, jd2 });
    put_date(
        utc_tai::tai_to_utc_by_rows(date, &rows).map(UTC::to_julian_date),
        out,
    )
}

#[unsafe(no_mangle)]
pub extern "C" fn ct_utc_to_ut1_with_dut1(
    jd1: f64,
    jd2: f64,
    dut1: f64,
    table: &[u8],
    out: &mut [u8],
) -> i64
    ensures { Delivered (in_bytes julian_rule_bytes (onward (table_bytes table.now) (λ rows. utc_to_ut1_by_rule rows (julian jd1 jd2) dut1)))
        out.old result out.new }
{
    let mut rows = leap_table::rows::no_rows();
    if let Err(refusal) = arrays::read_table(table, &mut rows) {
        return refused(refusal);
    }
    let date = UTC(JulianDate { jd1, jd2 });
    put_by_rule(
        utc_scales::to_ut1::utc_to_ut1_with_dut1_by_rows(date, dut1, &rows).map(|(ut1, rule)| (
            ut1.0, rule,
        )),
        out,
    )
}

#[unsafe(no_mangle)]
pub extern "C" fn ct_ut1_to_utc_with_dut1(
    jd1: f64,
    jd2: f64,
    dut1: f64,
    table: &[u8],
    out: &mut [u8],
) -> i64
    ensures { Delivered (in_bytes julian_bytes (onward (table_bytes table.now) (λ rows. ut1_to_utc rows (julian jd1 jd2) dut1)))
        out.old result out.new }
{
    let mut rows = leap_table::rows::no_rows();
    if let Err(refusal) = arrays::read_table(table, &mut rows) {
        return refused(refusal);
    }
    let date = UT1(JulianDate { jd1, jd2 });
    put_date(
        utc_scales::from_ut1::ut1_to_utc_with_dut1_by_rows(date, dut1, &rows).map(
            UTC::to_julian_date,
        ),
        out,
    )
}
