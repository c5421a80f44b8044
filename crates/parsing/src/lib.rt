// ISO 8601 text read: its six fields, and of UTC text the date. From parsing/mod.rs, and `FromStr` of scales/utc/mod.rs, with a byte slice in place of a
// string.
#![tactic(auto)]

ghost use Rattle.std.specs.Prelude.{◌≡◌, true, false, ◌≤◌};
ghost use Rattle.refusals.specs.Outcome.{onward, outcome};
ghost use Rattle.leap_table.specs.rows.Announced.{rows_of, table_of};
ghost use Rattle.parsing.specs.Parsed.{parsed, to_julian_date, dated as dated·of, parsed_utc};
ghost use Rattle.parsing.specs.Judging.{time_in, quotient, judged_form};

use crate::scan::Form;
use julian::JulianDate;
use leap_table::rows::AnnouncedRows;
use refusals::Refusal;
use scales::UTC;

pub mod run_dates;
pub mod scan;

// The six fields of a text.
#[derive(Clone, Copy)]
pub struct ParsedDateTime {
    pub year: i32,
    pub month: u8,
    pub day: u8,
    pub hour: u8,
    pub minute: u8,
    pub second: f64,
}

// The fields of a UTC text, and the date that they name.
#[derive(Clone, Copy)]
pub struct ParsedUtc {
    pub fields: ParsedDateTime,
    pub date: UTC,
}

// 1 to 10^13: each is a float.
const POWERS_OF_TEN: [f64; 14] = [
    1.0,
    10.0,
    100.0,
    1000.0,
    10000.0,
    100000.0,
    1000000.0,
    10000000.0,
    100000000.0,
    1000000000.0,
    10000000000.0,
    100000000000.0,
    1000000000000.0,
    10000000000000.0,
];

// One division: the whole number and the power of ten are exact, so the result is the float nearest to the decimal.
fn second_of(whole: u64, places: usize) -> f64
    requires { (whole ≤ 1000000000000000) × (places ≤ 13) }
    ensures { result ≡ quotient whole places }
{
    whole as f64 / POWERS_OF_TEN[places]
}

// Second 60 may stand in any minute: whether its day has it is not asked here.
fn time_in(form: Form) -> bool
    ensures { result ≡ time_in form }
{
    form.hour <= 23 && form.minute <= 59 && form.second <= 60
}

// Refusals in order: 16 the digits of the fraction, 2 and 3 the date, 4 the time.
#[tactic(auto, using(refusals::proofs::Handed::handed_by), unfolding(crate::specs::Judging::judged_form, refusals::specs::Refusal::refusal_number))]
fn judged(form: Form) -> Result<ParsedDateTime, Refusal>
    requires { form.whole ≤ 1000000000000000 }
    ensures { outcome result ≡ judged_form form }
{
    if form.places > 13 {
        return Err(Refusal::TooManyFractionDigits);
    }
    calendar::validate_calendar_date(form.year as i32, form.month as i32, form.day as i32)?;
    if !time_in(form) {
        return Err(Refusal::TimeNotInDay);
    }
    Ok(ParsedDateTime {
        year: form.year as i32,
        month: form.month,
        day: form.day,
        hour: form.hour,
        minute: form.minute,
        second: second_of(form.whole, form.places),
    })
}

#[tactic(auto, using(crate::proofs::Found::texts))]
fn parse(text: &[u8], utc: bool) -> Result<ParsedDateTime, Refusal>
    ensures { outcome result ≡ parsed utc text.now }
{
    judged(crate::scan::scan(text, utc)?)
}

// The fields of a text of any scale but UTC: a Z is outside the grammar. Refusals in order: 15 the text, 16 its fraction, 2 the month, 3 the day, 4 the time.
pub fn parse_iso8601(text: &[u8]) -> Result<ParsedDateTime, Refusal>
    ensures { outcome result ≡ parsed false text.now }
{
    parse(text, false)
}

// The fields of a UTC text and the date that they name, by rows that are tested elsewhere. Refusals in order: 15 the text, 16 its fraction, 2 the month, 3 the
// day, 4 the time, which goes by the length of the day's last minute.
#[tactic(auto, using(refusals::proofs::Handed::handed_by), unfolding(crate::specs::Parsed::parsed_utc))]
pub fn from_str_by_rows(text: &[u8], table: &AnnouncedRows) -> Result<ParsedUtc, Refusal>
    ensures { outcome result ≡ parsed_utc (rows_of table.now) text.now }
{
    let fields = parse(text, true)?;
    dated(fields, table)
}

// kept: the test of the table and the call by its rows, as every call by a table has them: two steps, which are functions already.
// The fields of a UTC text and the date that they name. Refusals in order: 20 to 22 the table, 15 the text, 16 its fraction, 2 the month, 3 the day, 4 the
// time, which goes by the length of the day's last minute.
#[tactic(auto, using(crate::proofs::Found::tables))]
pub fn from_str(text: &[u8], table: AnnouncedRows) -> Result<ParsedUtc, Refusal>
    ensures { outcome result ≡ onward (table_of table) (λ rows. parsed_utc rows text.now) }
{
    leap_table::rows::judge_table(&table)?;
    from_str_by_rows(text, &table)
}

#[tactic(auto, using(refusals::proofs::Handed::handed_by), unfolding(crate::specs::Parsed::dated))]
fn dated(fields: ParsedDateTime, table: &AnnouncedRows) -> Result<ParsedUtc, Refusal>
    ensures { outcome result ≡ dated·of (rows_of table.now) fields }
{
    let date = utc::utc_from_calendar_by_rows(
        fields.year,
        fields.month,
        fields.day,
        fields.hour,
        fields.minute,
        fields.second,
        table,
    )?;
    Ok(ParsedUtc { fields, date })
}

impl ParsedDateTime {
    // The date of the fields by `from_calendar`, for a scale whose minutes all have 60 seconds: second 60 is 4.
    #[tactic(auto, unfolding(crate::specs::Parsed::to_julian_date))]
    pub fn to_julian_date(self) -> Result<JulianDate, Refusal>
        ensures { outcome result ≡ to_julian_date self }
    {
        JulianDate::from_calendar(
            self.year,
            self.month,
            self.day,
            self.hour,
            self.minute,
            self.second,
        )
    }
}
