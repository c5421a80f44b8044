// TAI-UTC: calls 60 and 62.
use crate::words;
use crate::words::Answer;

pub(crate) fn answered(call: u64, record: &[u8; 128]) -> Answer {
    let year = words::small_at(record, 1);
    let month = words::small_at(record, 2);
    let day = words::small_at(record, 3);
    if call == 60 {
        let found = leap_table::offsets::get_tai_utc_offset(
            year,
            month,
            day,
            words::float_at(record, 4),
            leap_table::rows::no_rows(),
        );
        return words::told(found.map(|by_rule| words::float(by_rule.0)));
    }
    let found = leap_table::offsets::leap_at_end_of_day(
        year,
        month,
        day,
        leap_table::rows::no_rows(),
    );
    words::told(found.map(words::float))
}
