// The calendar by whole numbers.
ghost use Rattle.std.specs.Prelude.{◌≡◌, pos};
ghost use Rattle.calendar.specs.Calendar.{leap_year, days_in_month};
ghost use Rattle.calendar.specs.Refusals.{valid_date, next_of};
ghost use Rattle.c_answers.specs.Delivery.{code, truth, done, in_bytes, Delivered};
ghost use Rattle.c_answers.specs.Fields.{date_bytes};

#[unsafe(no_mangle)]
pub extern "C" fn ct_is_leap_year(year: i32) -> i64
    ensures { result ≡ truth (leap_year year) }
{
    capi::calendar_calls::ct_is_leap_year(year)
}

#[unsafe(no_mangle)]
pub extern "C" fn ct_days_in_month(year: i32, month: i32) -> i64
    ensures { result ≡ pos (days_in_month year month) }
{
    capi::calendar_calls::ct_days_in_month(year, month)
}

#[unsafe(no_mangle)]
pub extern "C" fn ct_validate_calendar_date(year: i32, month: i32, day: i32) -> i64
    ensures { result ≡ code (done (valid_date year month day)) }
{
    capi::calendar_calls::ct_validate_calendar_date(year, month, day)
}

#[unsafe(no_mangle)]
pub extern "C" fn ct_next_calendar_day(year: i32, month: i32, day: i32, out: &mut [u8]) -> i64
    ensures { Delivered (in_bytes date_bytes (next_of year month day)) out.old result out.new }
{
    capi::calendar_calls::ct_next_calendar_day(year, month, day, out)
}
