// Julian dates: from the calendar and back, and the calls that refuse nothing but a short buffer.
ghost use Rattle.std.specs.Prelude.{◌≡◌};
ghost use Rattle.refusals.specs.Outcome.{answer, outcome};
ghost use Rattle.julian.specs.JulianDate.{julian, rounded_sum, add_days, add_seconds, difference};
ghost use Rattle.julian.specs.Calendar.{calendar_to_julian, julian_to_calendar, from_calendar};
ghost use Rattle.julian.specs.UnixTime.{from_unix_time};
ghost use Rattle.julian.specs.JulianYear.{to_julian_year, from_julian_year};
ghost use Rattle.julian.specs.Equality.{equal};
ghost use Rattle.c_answers.specs.Delivery.{truth, in_bytes, Delivered};
ghost use Rattle.c_answers.specs.Fields.{julian_bytes, calendar_bytes};

use c_answers::{fields, refused};
use julian::JulianDate;
use refusals::Refusal;

pub(crate) fn put_date(found: Result<JulianDate, Refusal>, out: &mut [u8]) -> i64
    ensures { Delivered (in_bytes julian_bytes (outcome found)) out.old result out.new }
{
    match found {
        Ok(date) => fields::put_julian(date, out),
        Err(refusal) => refused(refusal),
    }
}

#[unsafe(no_mangle)]
pub extern "C" fn ct_calendar_to_julian(year: i32, month: i32, day: i32, out: &mut [u8]) -> i64
    ensures { Delivered (in_bytes julian_bytes (calendar_to_julian year month day)) out.old result out.new }
{
    put_date(julian::calendar_to_julian(year, month, day), out)
}

#[unsafe(no_mangle)]
pub extern "C" fn ct_julian_to_calendar(jd1: f64, jd2: f64, out: &mut [u8]) -> i64
    ensures { Delivered (in_bytes calendar_bytes (julian_to_calendar jd1 jd2)) out.old result out.new }
{
    c_answers::date_parts::julian_to_calendar(jd1, jd2, out)
}

#[unsafe(no_mangle)]
pub extern "C" fn ct_from_calendar(
    year: i32,
    month: u8,
    day: u8,
    hour: u8,
    minute: u8,
    second: f64,
    out: &mut [u8],
) -> i64
    ensures { Delivered (in_bytes julian_bytes (from_calendar year month day hour minute second)) out.old result out.new }
{
    put_date(
        JulianDate::from_calendar(year, month, day, hour, minute, second),
        out,
    )
}

#[unsafe(no_mangle)]
pub extern "C" fn ct_to_f64(jd1: f64, jd2: f64) -> f64
    ensures { result ≡ rounded_sum (julian jd1 jd2) }
{
    JulianDate::new(jd1, jd2).to_f64()
}

#[unsafe(no_mangle)]
pub extern "C" fn ct_add_days(jd1: f64, jd2: f64, days: f64, out: &mut [u8]) -> i64
    ensures { Delivered (answer (julian_bytes (add_days (julian jd1 jd2) days))) out.old result out.new }
{
    fields::put_julian(JulianDate::new(jd1, jd2).add_days(days), out)
}

#[unsafe(no_mangle)]
pub extern "C" fn ct_add_seconds(jd1: f64, jd2: f64, seconds: f64, out: &mut [u8]) -> i64
    ensures { Delivered (answer (julian_bytes (add_seconds (julian jd1 jd2) seconds))) out.old result out.new }
{
    fields::put_julian(JulianDate::new(jd1, jd2).add_seconds(seconds), out)
}

#[unsafe(no_mangle)]
pub extern "C" fn ct_from_unix_time(seconds: i64, nanos: u32, out: &mut [u8]) -> i64
    ensures { Delivered (answer (julian_bytes (from_unix_time seconds nanos))) out.old result out.new }
{
    fields::put_julian(JulianDate::from_unix_time(seconds, nanos), out)
}

#[unsafe(no_mangle)]
pub extern "C" fn ct_to_julian_year(jd1: f64, jd2: f64) -> f64
    ensures { result ≡ to_julian_year (julian jd1 jd2) }
{
    JulianDate::new(jd1, jd2).to_julian_year()
}

#[unsafe(no_mangle)]
pub extern "C" fn ct_from_julian_year(year: f64, out: &mut [u8]) -> i64
    ensures { Delivered (answer (julian_bytes (from_julian_year year))) out.old result out.new }
{
    fields::put_julian(JulianDate::from_julian_year(year), out)
}

#[unsafe(no_mangle)]
pub extern "C" fn ct_equal(jd1: f64, jd2: f64, other1: f64, other2: f64) -> i64
    ensures { result ≡ truth (equal (julian jd1 jd2) (julian other1 other2)) }
{
    i64::from(JulianDate::new(jd1, jd2) == JulianDate::new(other1, other2))
}

#[unsafe(no_mangle)]
pub extern "C" fn ct_difference(jd1: f64, jd2: f64, other1: f64, other2: f64) -> f64
    ensures { result ≡ difference (julian jd1 jd2) (julian other1 other2) }
{
    c_answers::date_parts::difference(jd1, jd2, other1, other2)
}
