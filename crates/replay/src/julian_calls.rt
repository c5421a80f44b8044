// Julian dates: calls 24 to 26 and 40 to 58.
use crate::words;
use crate::words::Answer;
use julian::day_number::DayNumber;
use julian::{CalendarFields, JulianDate};
use refusals::Refusal;

fn fields(shown: CalendarFields) -> Answer {
    let date = shown.date;
    words::values(
        words::year_word(date.year),
        date.month as u64,
        date.day as u64,
        floats::to_bits(shown.fraction),
    )
}

fn day_and_fraction(found: DayNumber) -> Answer {
    let day = numerals::little_endian::pattern_of_i64(found.day);
    words::values(day, floats::to_bits(found.fraction), 0, 0)
}

// Two parts to a calendar date, and back.
pub(crate) fn calendar_answered(call: u64, record: &[u8; 128]) -> Answer {
    let jd1 = words::float_at(record, 1);
    let jd2 = words::float_at(record, 2);
    let year = words::small_at(record, 1);
    let month = words::small_at(record, 2);
    let day = words::small_at(record, 3);
    match call {
        24 => words::told(julian::calendar_to_julian(year, month, day).map(words::date)),
        25 => words::told(julian::julian_to_calendar(jd1, jd2).map(fields)),
        _ => words::told(julian::day_number::day_number_and_fraction(jd1, jd2).map(
            day_and_fraction,
        )),
    }
}

fn from_calendar(record: &[u8; 128]) -> Result<JulianDate, Refusal> {
    JulianDate::from_calendar(
        words::small_at(record, 1),
        words::byte_at(record, 2),
        words::byte_at(record, 3),
        words::byte_at(record, 4),
        words::byte_at(record, 5),
        words::float_at(record, 6),
    )
}

fn day_fraction(record: &[u8; 128]) -> Result<f64, Refusal> {
    julian::day_fraction(
        words::byte_at(record, 1),
        words::byte_at(record, 2),
        words::float_at(record, 3),
        words::float_at(record, 4),
    )
}

// What makes a date, and its parts.
fn made(call: u64, record: &[u8; 128]) -> Answer {
    let date = words::date_at(record, 1);
    match call {
        40 => words::date(date),
        41 => words::date(JulianDate::from_f64(words::float_at(record, 1))),
        42 => words::date(JulianDate::j2000()),
        43 => words::date(JulianDate::unix_epoch()),
        44 => words::float(date.jd1()),
        45 => words::float(date.jd2()),
        46 => words::float(date.to_f64()),
        47 => words::date(date.add_days(words::float_at(record, 3))),
        48 => words::date(date.add_seconds(words::float_at(record, 3))),
        _ => words::date(JulianDate::from_unix_time(
            words::signed_at(record, 1),
            words::number_at(record, 2),
        )),
    }
}

pub(crate) fn answered(call: u64, record: &[u8; 128]) -> Answer {
    if call < 50 {
        return made(call, record);
    }
    let date = words::date_at(record, 1);
    let other = words::date_at(record, 3);
    match call {
        50 => words::told(from_calendar(record).map(words::date)),
        51 => words::float(date.to_julian_year()),
        52 => words::date(JulianDate::from_julian_year(words::float_at(record, 1))),
        53 => words::truth(date == other),
        54 => words::float(date - other),
        55 => {
            let exact = julian::exact_sum(words::float_at(record, 1), words::float_at(record, 2));
            words::values(
                floats::to_bits(exact.sum),
                floats::to_bits(exact.error),
                0,
                0,
            )
        }
        56 => words::told(day_fraction(record).map(words::float)),
        57 => words::told(julian::finite_jd(date).map(words::date)),
        _ => words::told(julian::finite_arg(words::float_at(record, 1)).map(words::float)),
    }
}
