// The day that is kept for the texts that follow: the bytes of its date, its midnight and its leap. It serves the texts that begin with the same eleven bytes,
// of which the time alone is scanned and judged, as the single call does it; every other text is read whole.
// kept: where a text is refused the day of the one before stays, so that its `Err` is matched and not handed on by `?`.
ghost use Rattle.std.specs.Prelude.{◌≡◌, true, ◌≤◌, length};
ghost use Rattle.refusals.specs.Outcome.{answer, outcome};
ghost use Rattle.utc.specs.FromCalendar.{midnight_plus};
ghost use Rattle.leap_table.specs.rows.Announced.{rows_of};
ghost use Rattle.parsing.specs.Parsed.{parsed};
ghost use Rattle.parsing.specs.run_dates.Kept as K;

use crate::scan::Form;
use crate::{ParsedDateTime, scan};
use julian::JulianDate;
use leap_table::rows::AnnouncedRows;
use refusals::Refusal;

// The day of the texts that begin with `date`: its midnight in two parts, and how much longer than 86,400 s it is.
// kept: two floats and no `JulianDate`: `time_judged` and `DayOf` of specs/run_dates/Kept speak of `h.jd1` and `h.jd2`.
#[derive(Clone, Copy)]
pub(crate) struct KeptDay {
    pub jd1: f64,
    pub jd2: f64,
    pub leap: f64,
    pub date: [u8; 11],
}

// What a text is read as, and the day that is kept for the next text.
#[derive(Clone, Copy)]
pub(crate) struct TextRead {
    pub found: Result<JulianDate, Refusal>,
    pub kept: Option<KeptDay>,
}

// Whether a text begins with these eleven bytes; the last digit of a day differs most often.
// kept: byte by byte in this order. `text[..11] == d[..]` is slower: 35 ns for each text of a day in place of 27, and 71 in place of 61 where each has another.
#[tactic(auto, using(crate::proofs::Found::eleven), unfolding(crate::specs::run_dates::Kept::SameDate))]
fn same_date(text: &[u8], d: [u8; 11]) -> bool
    requires { 19 ≤ length text.now }
    ensures { K.SameDate text.now d result }
{
    text[9] == d[9]
        && text[8] == d[8]
        && text[6] == d[6]
        && text[5] == d[5]
        && text[3] == d[3]
        && text[2] == d[2]
        && text[1] == d[1]
        && text[0] == d[0]
        && text[4] == d[4]
        && text[7] == d[7]
        && text[10] == d[10]
}

// Whether the day serves a text.
#[tactic(auto, unfolding(crate::specs::run_dates::Kept::IsServed, crate::specs::run_dates::Kept::SameDate))]
fn is_served(text: &[u8], day: KeptDay) -> bool
    ensures { K.IsServed day text.now result }
{
    text.len() >= 19 && same_date(text, day.date)
}

// The time of a text and what stands behind it; the date is not looked at.
#[tactic(auto, using(crate::proofs::Found::times), unfolding(refusals::specs::Refusal::refusal_number))]
fn time_scanned(text: &[u8]) -> Result<Form, Refusal>
    requires { 19 ≤ length text.now }
    ensures { outcome result ≡ K.time_scanned text.now }
{
    if !scan::pairs_right(text, 11, b':') {
        return Err(Refusal::TextOutsideGrammar);
    }
    let second = scan::two(text[17], text[18]);
    let run = scan::fraction(text, 19, second);
    if !scan::end_right(text, run.end, true) {
        return Err(Refusal::TextOutsideGrammar);
    }
    Ok(Form {
        year: 0,
        month: 0,
        day: 0,
        hour: scan::two(text[11], text[12]),
        minute: scan::two(text[14], text[15]),
        second,
        whole: run.whole,
        places: run.places,
    })
}

// The date of a midnight and a fraction of its day, or the refusal.
#[tactic(auto, using(refusals::proofs::Handed::handed_by), unfolding(utc::specs::FromCalendar::midnight_plus))]
fn at_time(midnight: JulianDate, fraction: Result<f64, Refusal>) -> Result<JulianDate, Refusal>
    ensures { outcome result ≡ midnight_plus midnight (outcome fraction) }
{
    Ok(JulianDate::new(midnight.jd1, midnight.jd2 + fraction?))
}

// The date of a time of the day. Refusals in order: 16 the digits of the fraction, 4 the time.
#[tactic(auto, using(refusals::proofs::Handed::handed_by), unfolding(crate::specs::run_dates::Kept::time_judged, refusals::specs::Refusal::refusal_number))]
fn time_judged(form: Form, kept: KeptDay) -> Result<JulianDate, Refusal>
    requires { form.whole ≤ 1000000000000000 }
    ensures { outcome result ≡ K.time_judged kept form }
{
    if form.places > 13 {
        return Err(Refusal::TooManyFractionDigits);
    }
    if !crate::time_in(form) {
        return Err(Refusal::TimeNotInDay);
    }
    let second = crate::second_of(form.whole, form.places);
    let fraction = julian::day_fraction(form.hour, form.minute, second, kept.leap);
    at_time(JulianDate::new(kept.jd1, kept.jd2), fraction)
}

// The date of a text that the day serves.
#[tactic(auto, using(crate::proofs::Found::small), unfolding(crate::specs::run_dates::Kept::time_read))]
fn time_read(text: &[u8], kept: KeptDay) -> Result<JulianDate, Refusal>
    requires { 19 ≤ length text.now }
    ensures { outcome result ≡ K.time_read kept text.now }
{
    time_judged(time_scanned(text)?, kept)
}

// What is kept of the day of a text: nothing where a blank stands in front of its date.
#[tactic(auto, unfolding(crate::specs::run_dates::Kept::KeptOfText))]
fn kept_of(text: &[u8], midnight: JulianDate, leap: f64) -> Option<KeptDay>
    ensures { K.KeptOfText text.now midnight leap result }
{
    if text.len() < 19 || scan::blank(text[0]) {
        return None;
    }
    Some(KeptDay {
        jd1: midnight.jd1,
        jd2: midnight.jd2,
        leap,
        date: [
            text[0], text[1], text[2], text[3], text[4], text[5], text[6], text[7], text[8],
            text[9], text[10],
        ],
    })
}

// The date of the fields of a text, and the day that is kept: that of the text, and where its date is refused the one before.
fn dated_anew(
    text: &[u8],
    fields: ParsedDateTime,
    kept: Option<KeptDay>,
    table: &AnnouncedRows,
) -> TextRead
    requires { (parsed true text.now ≡ answer fields) × K.RightForTexts (rows_of table.now) kept }
    ensures { K.RightRead (rows_of table.now) text.now result }
{
    match JulianDate::from_calendar(fields.year, fields.month, fields.day, 0, 0, 0.0) {
        Err(refusal) => TextRead {
            found: Err(refusal),
            kept,
        },
        Ok(midnight) => match leap_table::offsets::leap_at_end_of_day_by_rows(
            fields.year,
            fields.month as i32,
            fields.day as i32,
            table,
        ) {
            Err(refusal) => TextRead {
                found: Err(refusal),
                kept,
            },
            Ok((leap, _)) => {
                let fraction = julian::day_fraction(
                    fields.hour,
                    fields.minute,
                    fields.second,
                    leap,
                );
                let found = at_time(midnight, fraction);
                let next = kept_of(text, midnight, leap);
                TextRead { found, kept: next }
            }
        },
    }
}

// Reads a text, by the day that is kept where it serves.
#[tactic(auto, using(crate::proofs::Found::served), unfolding(crate::specs::run_dates::RunDates::date_read, crate::specs::Parsed::parsed_utc))]
pub(crate) fn read_text(text: &[u8], kept: Option<KeptDay>, table: &AnnouncedRows) -> TextRead
    requires { K.RightForTexts (rows_of table.now) kept }
    ensures { K.RightRead (rows_of table.now) text.now result }
{
    if let Some(day) = kept
        && is_served(text, day)
    {
        let found = time_read(text, day);
        return TextRead { found, kept };
    }
    match crate::parse(text, true) {
        Err(refusal) => TextRead {
            found: Err(refusal),
            kept,
        },
        Ok(fields) => dated_anew(text, fields, kept, table),
    }
}
