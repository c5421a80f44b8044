// The calendar by whole numbers.
ghost use Rattle.std.specs.Prelude.{◌≡◌, pos};
ghost use Rattle.refusals.specs.Outcome.{outcome};
ghost use Rattle.calendar.specs.Calendar.{leap_year, days_in_month};
ghost use Rattle.calendar.specs.Refusals.{valid_date, next_of};
ghost use Rattle.c_answers.specs.Delivery.{code, truth, done, in_bytes, Delivered};
ghost use Rattle.c_answers.specs.Fields.{date_bytes};

use c_answers::{fields, refused};
use calendar::CalendarDate;
use refusals::Refusal;

#[unsafe(no_mangle)]
pub extern "C" fn ct_is_leap_year(year: i32) -> i64
    ensures { result ≡ truth (leap_year year) }
{
    i64::from(calendar::is_leap_year(year))
}

#[unsafe(no_mangle)]
pub extern "C" fn ct_days_in_month(year: i32, month: i32) -> i64
    ensures { result ≡ pos (days_in_month year month) }
{
    calendar::days_in_month(year, month) as i64
}

#[unsafe(no_mangle)]
pub extern "C" fn ct_validate_calendar_date(year: i32, month: i32, day: i32) -> i64
    ensures { result ≡ code (done (valid_date year month day)) }
{
    match calendar::validate_calendar_date(year, month, day) {
        Ok(()) => 0,
        Err(refusal) => refused(refusal),
    }
}

fn put_next(found: Result<CalendarDate, Refusal>, out: &mut [u8]) -> i64
    ensures { Delivered (in_bytes date_bytes (outcome found)) out.old result out.new }
{
    match found {
        Ok(date) => fields::put_date(date, out),
        Err(refusal) => refused(refusal),
    }
}

#[unsafe(no_mangle)]
pub extern "C" fn ct_next_calendar_day(year: i32, month: i32, day: i32, out: &mut [u8]) -> i64
    ensures { Delivered (in_bytes date_bytes (next_of year month day)) out.old result out.new }
{
    put_next(calendar::next_calendar_day(year, month, day), out)
}
