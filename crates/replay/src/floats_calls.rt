// The functions of a float's bits: calls 1 to 8, one float each.
use crate::words;
use crate::words::Answer;

pub(crate) fn answered(call: u64, record: &[u8; 128]) -> Answer {
    let x = words::float_at(record, 1);
    match call {
        1 => words::float(floats::floor(x)),
        2 => words::float(floats::ceil(x)),
        3 => words::float(floats::trunc(x)),
        4 => words::float(floats::round(x)),
        5 => words::float(floats::fabs(x)),
        6 => words::truth(floats::is_finite(x)),
        7 => words::values(
            numerals::little_endian::pattern_of_i64(floats::saturating_i64(x)),
            0,
            0,
            0,
        ),
        _ => words::float(floats::nearest_int(x)),
    }
}
