// The words of a record: a request of eight, the call's number first, then the Rust's answer of eight, the refusal's number first.
use julian::JulianDate;
use refusals::Refusal;

// An answer: the refusal's number, or 0 and the values.
// kept: a number and no `Result`, since these are the six words of a record, which `same` compares one by one, and a refused text has its buffer beside it.
#[derive(Clone, Copy)]
pub(crate) struct Answer {
    pub number: u64,
    pub first: u64,
    pub second: u64,
    pub third: u64,
    pub fourth: u64,
    pub fifth: u64,
}

pub(crate) fn values(first: u64, second: u64, third: u64, fourth: u64) -> Answer {
    Answer {
        number: 0,
        first,
        second,
        third,
        fourth,
        fifth: 0,
    }
}

pub(crate) fn refused(refusal: Refusal) -> Answer {
    Answer {
        number: refusal.number() as u64,
        first: 0,
        second: 0,
        third: 0,
        fourth: 0,
        fifth: 0,
    }
}

// What a call that may refuse says.
pub(crate) fn told(found: Result<Answer, Refusal>) -> Answer {
    found.unwrap_or_else(refused)
}

pub(crate) fn truth(b: bool) -> Answer {
    values(u64::from(b), 0, 0, 0)
}

pub(crate) fn float(x: f64) -> Answer {
    values(floats::to_bits(x), 0, 0, 0)
}

// The request's argument k, from 1 on.
pub(crate) fn float_at(record: &[u8; 128], k: usize) -> f64 {
    floats::from_bits(word_at(record, k))
}

pub(crate) fn signed_at(record: &[u8; 128], k: usize) -> i64 {
    numerals::little_endian::i64_of_pattern(word_at(record, k))
}

// A number of 32 bits; the list has no other where this is asked.
pub(crate) fn small_at(record: &[u8; 128], k: usize) -> i32 {
    i32::try_from(signed_at(record, k)).unwrap_or(0)
}

pub(crate) fn word_at(record: &[u8; 128], k: usize) -> u64 {
    if k > 15 {
        return 0;
    }
    numerals::little_endian::u64_at(record, 8 * k)
}

pub(crate) fn year_word(year: i32) -> u64 {
    numerals::little_endian::pattern_of_i64(year as i64)
}

// kept: one line for each width, since a cast names its type.
pub(crate) fn byte_at(record: &[u8; 128], k: usize) -> u8 {
    (word_at(record, k) % 256) as u8
}

pub(crate) fn number_at(record: &[u8; 128], k: usize) -> u32 {
    (word_at(record, k) % 4294967296) as u32
}

// The date in arguments k and k + 1.
pub(crate) fn date_at(record: &[u8; 128], k: usize) -> JulianDate {
    JulianDate::new(float_at(record, k), float_at(record, next(k)))
}

fn next(k: usize) -> usize {
    if k < 15 { k + 1 } else { 15 }
}

pub(crate) fn date(d: JulianDate) -> Answer {
    values(floats::to_bits(d.jd1), floats::to_bits(d.jd2), 0, 0)
}

// A text's length, and the 32 bytes of which a part was lent.
pub(crate) fn text(number: u64, length: u64, buffer: &[u8; 32]) -> Answer {
    Answer {
        number,
        first: length,
        second: numerals::little_endian::u64_at(buffer, 0),
        third: numerals::little_endian::u64_at(buffer, 8),
        fourth: numerals::little_endian::u64_at(buffer, 16),
        fifth: numerals::little_endian::u64_at(buffer, 24),
    }
}

// Whether the record's answer is this one.
pub(crate) fn same(a: Answer, record: &[u8; 128]) -> bool {
    a.number == word_at(record, 8)
        && a.first == word_at(record, 9)
        && a.second == word_at(record, 10)
        && a.third == word_at(record, 11)
        && a.fourth == word_at(record, 12)
        && a.fifth == word_at(record, 13)
}
