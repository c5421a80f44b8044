// GPS weeks and milliseconds of the week to GPS dates and back, and the whole week of its ten lowest bits.
ghost use Rattle.std.specs.Prelude.{◌≡◌};
ghost use Rattle.refusals.specs.Outcome.{outcome};
ghost use Rattle.julian.specs.JulianDate.{julian};
ghost use Rattle.scales.specs.gps_weeks.WeekDate.{week_date};
ghost use Rattle.scales.specs.gps_weeks.WeekOf.{week_of};
ghost use Rattle.scales.specs.gps_weeks.FullWeek.{full_week};
ghost use Rattle.c_answers.specs.Delivery.{code, in_bytes, Delivered};
ghost use Rattle.c_answers.specs.Fields.{julian_bytes};
ghost use Rattle.capi.specs.WeekBytes.{week_bytes};

use super::date_calls::put_date;
use c_answers::{fields, refused};
use julian::JulianDate;
use refusals::Refusal;
use scales::GPS;
use scales::gps_weeks::WeekTime;

#[unsafe(no_mangle)]
pub extern "C" fn ct_gps_from_week(week: u32, millis: u32, out: &mut [u8]) -> i64
    ensures { Delivered (in_bytes julian_bytes (week_date week millis)) out.old result out.new }
{
    put_date(
        scales::gps_weeks::from_week(week, millis).map(GPS::to_julian_date),
        out,
    )
}

fn put_week(found: Result<WeekTime, Refusal>, out: &mut [u8]) -> i64
    ensures { Delivered (in_bytes week_bytes (outcome found)) out.old result out.new }
{
    match found {
        Ok(time) => fields::put_two_numbers(time.week, time.millis, out),
        Err(refusal) => refused(refusal),
    }
}

#[unsafe(no_mangle)]
pub extern "C" fn ct_gps_to_week(jd1: f64, jd2: f64, out: &mut [u8]) -> i64
    ensures { Delivered (in_bytes week_bytes (week_of (julian jd1 jd2))) out.old result out.new }
{
    put_week(
        scales::gps_weeks::to_week(GPS(JulianDate { jd1, jd2 })),
        out,
    )
}

#[unsafe(no_mangle)]
pub extern "C" fn ct_gps_full_week(ten_bits: u32, reference: u32) -> i64
    ensures { result ≡ code (full_week ten_bits reference) }
{
    match scales::gps_weeks::full_week(ten_bits, reference) {
        Ok(week) => week as i64,
        Err(refusal) => refused(refusal),
    }
}
