// The calendar by whole numbers: calls 20 to 23 and 27.
use crate::words;
use crate::words::Answer;
use calendar::CalendarDate;

fn date(d: CalendarDate) -> Answer {
    words::values(words::year_word(d.year), d.month as u64, d.day as u64, 0)
}

pub(crate) fn answered(call: u64, record: &[u8; 128]) -> Answer {
    if call == 27 {
        return date(calendar::gregorian_date(words::signed_at(record, 1)));
    }
    let year = words::small_at(record, 1);
    let month = words::small_at(record, 2);
    let day = words::small_at(record, 3);
    match call {
        20 => words::truth(calendar::is_leap_year(year)),
        21 => words::values(calendar::days_in_month(year, month) as u64, 0, 0, 0),
        22 => words::told(calendar::validate_calendar_date(year, month, day).map(|_| words::values(
            0, 0, 0, 0,
        ))),
        _ => words::told(calendar::next_calendar_day(year, month, day).map(date)),
    }
}
