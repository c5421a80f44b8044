// The characters of a UTC text, put into a lent buffer. From the Rust's `iso_string`, with a byte slice in place of a string.
mod expanded;
pub(crate) mod year;

ghost use Rattle.std.specs.Prelude.{◌≡◌, ◌++◌};
ghost use Rattle.utc.specs.text.Text.{four, after_year, utc_text};
ghost use Rattle.utc.specs.text.Answer.{TextPut};
ghost use Rattle.utc.specs.text.Layout.{signed, wide};

use calendar::CalendarDate;
pub use expanded::put_text_expanded;
use refusals::Refusal;
use time_of_day::TimeOfDay;

// The text with seven places for the year; a sign may stand in the third or the fourth.
fn wide_bytes(third: u8, fourth: u8, size: u32, date: CalendarDate, time: TimeOfDay) -> [u8; 26]
    ensures { result ≡ wide third fourth size ++ after_year date time }
{
    [
        48 + (size / 1000000 % 10) as u8,
        48 + (size / 100000 % 10) as u8,
        third,
        fourth,
        48 + (size / 100 % 10) as u8,
        48 + (size / 10 % 10) as u8,
        48 + (size % 10) as u8,
        b'-',
        48 + (date.month / 10 % 10) as u8,
        48 + (date.month % 10) as u8,
        b'-',
        48 + (date.day / 10 % 10) as u8,
        48 + (date.day % 10) as u8,
        b'T',
        48 + (time.hour / 10 % 10) as u8,
        48 + (time.hour % 10) as u8,
        b':',
        48 + (time.minute / 10 % 10) as u8,
        48 + (time.minute % 10) as u8,
        b':',
        48 + (time.second / 10 % 10) as u8,
        48 + (time.second % 10) as u8,
        b'.',
        48 + (time.milli / 100 % 10) as u8,
        48 + (time.milli / 10 % 10) as u8,
        48 + (time.milli % 10) as u8,
    ]
}

// The text of a year of four digits: three places are skipped, and the copy has a fixed length.
fn put_basic(
    year: u32,
    date: CalendarDate,
    time: TimeOfDay,
    out: &mut [u8],
) -> Result<usize, Refusal>
    ensures { TextPut (four year ++ after_year date time) out.old result out.new }
{
    let fourth = year::fourth(false, year);
    let all = wide_bytes(b'0', fourth, year, date, time);
    if out.len() < 23 {
        return Err(Refusal::NoRoom);
    }
    let n = numerals::place::copy(&all[3..], out);
    Ok(n)
}

// The text of any year.
fn put_wide(
    negative: bool,
    size: u32,
    date: CalendarDate,
    time: TimeOfDay,
    out: &mut [u8],
) -> Result<usize, Refusal>
    ensures { TextPut (signed negative size ++ after_year date time) out.old result out.new }
{
    let third = year::third(negative, size);
    let fourth = year::fourth(negative, size);
    let all = wide_bytes(third, fourth, size, date, time);
    let skip = year::skipped(negative, size);
    if out.len() < 26 - skip {
        return Err(Refusal::NoRoom);
    }
    let n = numerals::place::copy(&all[skip..], out);
    Ok(n)
}

// The text at the buffer's start; where it does not fit, 11 and nothing is written.
pub fn put_text(date: CalendarDate, time: TimeOfDay, out: &mut [u8]) -> Result<usize, Refusal>
    ensures { TextPut (utc_text date time) out.old result out.new }
{
    let negative = year::negative(date.year);
    let size = year::size(date.year);
    if year::is_basic(negative, size) {
        return put_basic(size, date, time, out);
    }
    put_wide(negative, size, date, time, out)
}
