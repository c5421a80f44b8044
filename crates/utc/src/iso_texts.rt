// The three texts of a UTC date, with the rule of its day: the standard form, expanded years, halves to the even. From document 01's (scales/utc/mod.rs), the
// one with expanded years and the one with halves to the even.
ghost use Rattle.std.specs.Prelude.{◌≡◌, ◌≤◌};
ghost use Rattle.refusals.specs.Outcome.{outcome};
ghost use Rattle.leap_table.specs.rows.Announced.{rows_of};
ghost use Rattle.utc.specs.iso_texts.TextDay.{day_with_leap, text_day};

mod named;

use calendar::CalendarDate;
use leap_table::offsets::Rule;
use leap_table::rows::AnnouncedRows;
pub use named::{
    to_iso8601, to_iso8601_by_rows, to_iso8601_expanded, to_iso8601_expanded_by_rows,
    to_iso8601_half_even, to_iso8601_half_even_by_rows, to_text_by_rows,
};
use refusals::Refusal;
use scales::UTC;

// Which form of text a text call writes by.
// kept: an enum and no closures: the text calls name it, and ct_texts_of_run makes it of C's number (`form_of` in capi). Two matches stand for it, how the
// milliseconds are counted (`count_of`) and how a text is put (`put`), so that two closures would travel in its place, through every run of texts too.
#[derive(Clone, Copy)]
pub enum NamedForm {
    Standard,
    HalfEven,
    Expanded,
}

// The length of a text with the rule of its day.
pub type TextByRule = Result<(usize, Rule), Refusal>;

// What a text is written by: the calendar's day, the fraction of it, its leap and its rule.
#[derive(Clone, Copy)]
pub(crate) struct TextDay {
    pub(crate) date: CalendarDate,
    pub(crate) fraction: f64,
    pub(crate) leap: f64,
    pub(crate) rule: Rule,
}

pub(crate) fn with_leap(
    date: CalendarDate,
    fraction: f64,
    table: &AnnouncedRows,
) -> Result<TextDay, Refusal>
    requires { (date.month ≤ 12) × (date.day ≤ 31) }
    ensures { outcome result ≡ day_with_leap (rows_of table.now) date fraction }
{
    let (leap, rule) = leap_table::offsets::leap_at_end_of_day_by_rows(
        date.year,
        date.month as i32,
        date.day as i32,
        table,
    )?;
    Ok(TextDay {
        date,
        fraction,
        leap,
        rule,
    })
}

// The same for every form of text. Refusals in order: 6 the parts, 1 the year.
fn day_of(utc: UTC, table: &AnnouncedRows) -> Result<TextDay, Refusal>
    ensures { outcome result ≡ text_day (rows_of table.now) utc.0 }
{
    let jd = utc.0;
    let fields = julian::julian_to_calendar(jd.jd1, jd.jd2)?;
    let date = fields.date;
    with_leap(date, fields.fraction, table)
}
