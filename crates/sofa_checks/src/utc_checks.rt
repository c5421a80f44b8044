// UTC: the conversions that read the table, and a leap second from and to the calendar.
use crate::tally;
use crate::tally::{DAY, Tally, near_call};
use capi::utc_calls;

// SOFA publishes the sum of the parts.
fn dtf2d(t: Tally) -> Tally {
    let mut out = [0u8; 16];
    let table = [0u8; 136];
    let code = utc_calls::ct_utc_from_calendar(1994, 6, 30, 23, 59, 60.13599, &table, &mut out);
    let status = tally::counted(t, code == 16);
    let sum = tally::float_at(&out, 0) + tally::float_at(&out, 8);
    tally::near(status, sum, 2449534.49999, 1e-6)
}

// SOFA publishes five digits of the second, 60.13599; the text has three.
fn d2dtf(t: Tally) -> Tally {
    let mut out = [0u8; 23];
    let table = [0u8; 136];
    let mut rule = [0u8; 8];
    let code = capi::text_calls::ct_to_iso8601(2400000.5, 49533.99999, &table, &mut out, &mut rule);
    let status = tally::counted(t, code == 23);
    tally::counted(status, check::same(&out, b"1994-06-30T23:59:60.136"))
}

pub(crate) fn checked(t: Tally) -> Tally {
    let table = [0u8; 136];
    let t = near_call(t, 24, 0.8924826384444444444, |out| {
        utc_calls::ct_utc_to_tai(DAY, 0.892100694, &table, out)
    });
    let t = near_call(t, 16, 0.8921006945555555556, |out| {
        utc_calls::ct_tai_to_utc(DAY, 0.892482639, &table, out)
    });
    let t = near_call(t, 24, 0.8921045608981481481, |out| {
        utc_calls::ct_utc_to_ut1_with_dut1(DAY, 0.892100694, 0.3341, &table, out)
    });
    let t = near_call(t, 16, 0.8921006941018518519, |out| {
        utc_calls::ct_ut1_to_utc_with_dut1(DAY, 0.892104561, 0.3341, &table, out)
    });
    d2dtf(dtf2d(t))
}
