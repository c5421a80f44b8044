// The calendar, the Julian year and TAI-UTC.
use crate::tally;
use crate::tally::Tally;

fn cal2jd(t: Tally) -> Tally {
    let mut out = [0u8; 16];
    let code = capi::date_calls::ct_calendar_to_julian(2003, 6, 1, &mut out);
    tally::near_date(t, code == 16, &out, 2400000.5, 0.0, 52791.0, 0.0)
}

fn jd2cal(t: Tally) -> Tally {
    let mut out = [0u8; 20];
    let code = capi::date_calls::ct_julian_to_calendar(2400000.5, 50123.9999, &mut out);
    let status = tally::counted(t, code == 20);
    let year = tally::counted(status, numerals::little_endian::u32_at(&out, 0) == 1996);
    let month = tally::counted(year, numerals::little_endian::u32_at(&out, 4) == 2);
    let day = tally::counted(month, numerals::little_endian::u32_at(&out, 8) == 10);
    tally::near(day, tally::float_at(&out, 12), 0.9999, 1e-7)
}

fn dat(t: Tally, year: i32, month: i32, day: i32, seconds: f64) -> Tally {
    let mut out = [0u8; 16];
    let table = [0u8; 136];
    let code = capi::offset_calls::ct_get_tai_utc_offset(year, month, day, 0.0, &table, &mut out);
    let status = tally::counted(t, code == 16);
    tally::near(status, tally::float_at(&out, 0), seconds, 0.0)
}

fn epj(t: Tally) -> Tally {
    let year = capi::date_calls::ct_to_julian_year(2451545.0, -7392.5);
    tally::near(t, year, 1979.760438056125941, 1e-12)
}

fn epj2jd(t: Tally) -> Tally {
    let mut out = [0u8; 16];
    let code = capi::date_calls::ct_from_julian_year(1996.8, &mut out);
    tally::near_date(t, code == 16, &out, 2400000.5, 1e-9, 50375.7, 1e-9)
}

pub(crate) fn checked(t: Tally) -> Tally {
    let dates = jd2cal(cal2jd(t));
    let years = epj2jd(epj(dates));
    let first = dat(years, 2003, 6, 1, 32.0);
    let second = dat(first, 2008, 1, 17, 33.0);
    dat(second, 2017, 9, 1, 37.0)
}
