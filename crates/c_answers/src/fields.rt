// The values of an answer as bytes, put at the start of a lent buffer.
ghost use Rattle.std.specs.Prelude.{◌≡◌, ◌++◌};
ghost use Rattle.refusals.specs.Outcome.{answer};
ghost use Rattle.numerals.specs.little_endian.LittleEndian.{eight_bytes, pattern_of};
ghost use Rattle.c_answers.specs.Delivery.{Delivered};
ghost use Rattle.c_answers.specs.Fields.{four_bytes, date_bytes, float_bytes, julian_bytes, calendar_bytes};

use super::{put, refused};
use calendar::CalendarDate;
use julian::{CalendarFields, JulianDate};
use refusals::Refusal;

// kept: the same line as `year_word` of replay, which does not stand on c_answers.
pub(crate) fn year_pattern(year: i32) -> u64
    ensures { result ≡ pattern_of year }
{
    numerals::little_endian::pattern_of_i64(year as i64)
}

fn three_numbers(a: u64, b: u32, c: u32) -> [u8; 12]
    ensures { result ≡ four_bytes a ++ (four_bytes b ++ four_bytes c) }
{
    let first = a.to_le_bytes();
    let second = b.to_le_bytes();
    let third = c.to_le_bytes();
    [
        first[0], first[1], first[2], first[3], second[0], second[1], second[2], second[3],
        third[0], third[1], third[2], third[3],
    ]
}

pub fn put_date(date: CalendarDate, out: &mut [u8]) -> i64
    ensures { Delivered (answer (date_bytes date)) out.old result out.new }
{
    let all = three_numbers(year_pattern(date.year), date.month, date.day);
    put(&all, out)
}

fn two_numbers(a: u32, b: u32) -> [u8; 8]
    ensures { result ≡ four_bytes a ++ four_bytes b }
{
    let first = a.to_le_bytes();
    let second = b.to_le_bytes();
    [
        first[0], first[1], first[2], first[3], second[0], second[1], second[2], second[3],
    ]
}

pub fn put_two_numbers(a: u32, b: u32, out: &mut [u8]) -> i64
    ensures { Delivered (answer (four_bytes a ++ four_bytes b)) out.old result out.new }
{
    let all = two_numbers(a, b);
    put(&all, out)
}

pub fn put_float(x: f64, out: &mut [u8]) -> i64
    ensures { Delivered (answer (float_bytes x)) out.old result out.new }
{
    let all = numerals::little_endian::bytes_of_u64(floats::to_bits(x));
    put(&all, out)
}

pub(crate) fn two_patterns(a: u64, b: u64) -> [u8; 16]
    ensures { result ≡ eight_bytes a ++ eight_bytes b }
{
    let first = a.to_le_bytes();
    let second = b.to_le_bytes();
    [
        first[0], first[1], first[2], first[3], first[4], first[5], first[6], first[7], second[0],
        second[1], second[2], second[3], second[4], second[5], second[6], second[7],
    ]
}

pub fn put_julian(date: JulianDate, out: &mut [u8]) -> i64
    ensures { Delivered (answer (julian_bytes date)) out.old result out.new }
{
    let all = two_patterns(floats::to_bits(date.jd1), floats::to_bits(date.jd2));
    put(&all, out)
}

pub fn put_calendar(shown: CalendarFields, out: &mut [u8]) -> i64
    ensures { Delivered (answer (calendar_bytes shown)) out.old result out.new }
{
    if out.len() < 20 {
        return refused(Refusal::NoRoom);
    }
    put_date(shown.date, out);
    put_float(shown.fraction, &mut out[12..]);
    20
}
