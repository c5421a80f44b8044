// The day that is kept for the stamps that follow: the characters of its date, its leap and its end. It serves the stamps whose jd1 is its midnight and whose
// jd2 is from 0.0 to below 1.0, where the text shows a time of the day itself; every other stamp goes to the single call. The time of day is counted as there.
ghost use Rattle.std.specs.Prelude.{◌≡◌, ◌++◌, ◌<◌, ◌≤◌, length};
ghost use Rattle.time_of_day.specs.TimeShown.{time_of};
ghost use Rattle.leap_table.specs.rows.Announced.{rows_of};
ghost use Rattle.utc.specs.run_texts.Kept as K;

use crate::iso_texts::NamedForm;
use crate::text::year;
use calendar::CalendarDate;
use julian::JulianDate;
use leap_table::rows::AnnouncedRows;

// The day whose midnight is the Julian date `midnight`, the first part of the stamp before: `end` is the milliseconds at which the next day begins, and 0 where
// no stamp is served; `leap` is the leap that counts, and `date` is YYYY-MM-DDT.
// kept: `looked_up` and `end`, and no enum: `RightKept` and `KeptOf` (specs/run_texts/Kept), by which the contracts here go, speak of the fields.
#[derive(Clone, Copy)]
pub(crate) struct KeptDay {
    pub midnight: f64,
    pub looked_up: bool,
    pub end: u64,
    pub leap: f64,
    pub date: [u8; 11],
}

// The midnight of 9999-12-31.
const LAST_MIDNIGHT: f64 = 5373483.5;

// A midnight whose day serves no stamp.
fn serves_none(midnight: f64) -> KeptDay
    ensures { result.end ≡ 0 }
{
    KeptDay {
        midnight,
        looked_up: true,
        end: 0,
        leap: 0.0,
        date: [0; 11],
    }
}

// No day.
pub(crate) fn no_day() -> KeptDay
    ensures { result.end ≡ 0 }
{
    serves_none(-1.0)
}

fn date_bytes(year: u32, month: u32, day: u32) -> [u8; 11]
    ensures { result ≡ K.date_characters year month day }
{
    [
        48 + (year / 1000 % 10) as u8,
        48 + (year / 100 % 10) as u8,
        48 + (year / 10 % 10) as u8,
        48 + (year % 10) as u8,
        b'-',
        48 + (month / 10 % 10) as u8,
        48 + (month % 10) as u8,
        b'-',
        48 + (day / 10 % 10) as u8,
        48 + (day % 10) as u8,
        b'T',
    ]
}

// What is kept of a day of the years 0 to 9999.
#[tactic(auto, unfolding(crate::specs::run_texts::Kept::KeptOf))]
fn kept_of(midnight: f64, date: CalendarDate, leap: f64) -> KeptDay
    ensures { K.KeptOf midnight date leap result }
{
    let negative = year::negative(date.year);
    let size = year::size(date.year);
    if year::is_basic(negative, size) {
        let day_leap = crate::shown::whole_leap(leap);
        let end = crate::shown::day_end(day_leap);
        let characters = date_bytes(size, date.month, date.day);
        return KeptDay {
            midnight,
            looked_up: true,
            end,
            leap: day_leap,
            date: characters,
        };
    }
    serves_none(midnight)
}

// The day of a midnight, looked up.
// kept: beside by_day of runs: what is kept and the last midnight differ, and one body would take the look-up as a closure with its contract.
// kept: `match`, since both arms give a value: a day that is refused is kept too, as one that serves no stamp.
#[tactic(auto, unfolding(crate::specs::run_texts::Kept::RightKept))]
fn look_up(midnight: f64, table: &AnnouncedRows) -> KeptDay
    ensures { K.RightKept (rows_of table.now) result }
{
    let w = floats::nearest_whole(midnight);
    if midnight - w.value == -0.5 {
        if midnight >= 1.0 {
            if midnight <= LAST_MIDNIGHT {
                let date = calendar::gregorian_date(w.number);
                return match crate::iso_texts::with_leap(date, 0.0, table) {
                    Err(_) => serves_none(midnight),
                    Ok(day) => kept_of(midnight, date, day.leap),
                };
            }
        }
    }
    serves_none(midnight)
}

// The day that is kept for a stamp whose first part is jd1: it stays where it has this midnight, and is looked up where the stamp before had it too.
#[tactic(auto, unfolding(crate::specs::run_texts::Kept::RightKept))]
pub(crate) fn next_day(jd1: f64, kept: KeptDay, table: &AnnouncedRows) -> KeptDay
    requires { K.RightKept (rows_of table.now) kept }
    ensures { K.RightKept (rows_of table.now) result }
{
    if jd1 == kept.midnight {
        if kept.looked_up {
            return kept;
        }
        return look_up(jd1, table);
    }
    let date = kept.date;
    KeptDay {
        midnight: jd1,
        looked_up: false,
        end: 0,
        leap: kept.leap,
        date,
    }
}

// The text of a time of a day that is kept.
// kept: the minute and the rest as in `shown::time_of`, since the law `time-written` (run_texts/KeptDays) speaks of these two.
fn day_bytes(d: [u8; 11], millis: u32) -> [u8; 23]
    requires { millis < 86401000 }
    ensures { result ≡ K.eleven d ++ K.time_characters (time_of millis) }
{
    let minute = crate::shown::minute_of_day(millis);
    let rest = millis - minute * 60000;
    let hours = minute / 60;
    let minutes = minute % 60;
    let seconds = rest / 1000;
    let milli = rest % 1000;
    [
        d[0],
        d[1],
        d[2],
        d[3],
        d[4],
        d[5],
        d[6],
        d[7],
        d[8],
        d[9],
        d[10],
        48 + (hours / 10) as u8,
        48 + (hours % 10) as u8,
        b':',
        48 + (minutes / 10) as u8,
        48 + (minutes % 10) as u8,
        b':',
        48 + (seconds / 10) as u8,
        48 + (seconds % 10) as u8,
        b'.',
        48 + (milli / 100) as u8,
        48 + (milli / 10 % 10) as u8,
        48 + (milli % 10) as u8,
    ]
}

// Puts the text of a fraction of the day that is kept, where that is a time of the day itself; else nothing is written.
#[tactic(auto, unfolding(crate::specs::run_texts::Kept::PutsTime))]
fn put_time(textForm: NamedForm, fraction: f64, kept: KeptDay, out: &mut [u8]) -> bool
    requires { 27 ≤ length out.old }
    ensures { K.PutsTime textForm fraction kept out.old result out.new }
{
    let count = crate::shown::count_of(textForm, fraction, kept.leap);
    if count < kept.end {
        if count < 86401000 {
            let date = kept.date;
            let all = day_bytes(date, count as u32);
            numerals::place::copy(&all, out);
            return true;
        }
    }
    false
}

// Puts the text of a stamp that the day serves; else nothing is written.
#[tactic(auto, unfolding(crate::specs::run_texts::Kept::PutsByDay))]
pub(crate) fn put_kept(textForm: NamedForm, jd: JulianDate, kept: KeptDay, out: &mut [u8]) -> bool
    requires { 27 ≤ length out.old }
    ensures { K.PutsByDay textForm jd kept out.old result out.new }
{
    if kept.end > 0 {
        if jd.jd1 == kept.midnight {
            if jd.jd2 >= 0.0 {
                if jd.jd2 < 1.0 {
                    return put_time(textForm, 0.0 + jd.jd2, kept, out);
                }
            }
        }
    }
    false
}
