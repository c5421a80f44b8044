// UTC text with the rule of its day, of the form that is named, and the calls of each form.
ghost use Rattle.std.specs.Prelude.{◌≡◌, ◌≤◌};
ghost use Rattle.refusals.specs.Outcome.{onward};
ghost use Rattle.leap_table.specs.rows.Announced.{rows_of, table_of};
ghost use Rattle.utc.specs.text.Answer.{TextPut};
ghost use Rattle.utc.specs.iso_texts.ByRule.{expanded_by_rule, half_even_by_rule, iso_text_by_rule, text_by_rule, TextRuleCall};
ghost use Rattle.utc.specs.iso_texts.IsoText.{shown_text_by};
ghost use Rattle.utc.specs.iso_texts.Named.{form_named};
ghost use Rattle.utc.specs.iso_texts.TextCall.{TextCall};

use super::{NamedForm, TextByRule};
use crate::shown::time_shown;
use crate::text::{put_text, put_text_expanded};
use calendar::CalendarDate;
use leap_table::rows::AnnouncedRows;
use refusals::Refusal;
use scales::UTC;
use time_of_day::{TimeOfDay, TimeShown};

const MIDNIGHT: TimeOfDay = TimeOfDay {
    hour: 0,
    minute: 0,
    second: 0,
    milli: 0,
};

#[tactic(auto, unfolding(crate::specs::iso_texts::Named::form_named))]
fn put(
    textForm: NamedForm,
    date: CalendarDate,
    time: TimeOfDay,
    out: &mut [u8],
) -> Result<usize, Refusal>
    ensures { TextPut ((form_named textForm).write date time) out.old result out.new }
{
    match textForm {
        NamedForm::Standard | NamedForm::HalfEven => put_text(date, time, out),
        NamedForm::Expanded => put_text_expanded(date, time, out),
    }
}

fn put_shown(
    textForm: NamedForm,
    date: CalendarDate,
    shown: TimeShown,
    out: &mut [u8],
) -> Result<usize, Refusal>
    requires { (date.month ≤ 12) × (date.day ≤ 31) }
    ensures { TextCall (shown_text_by (form_named textForm).write date shown) out.old result out.new }
{
    match shown {
        TimeShown::At(time) => put(textForm, date, time, out),
        TimeShown::NextMidnight => {
            let next = calendar::next_calendar_day(date.year, date.month as i32, date.day as i32)?;
            put(textForm, next, MIDNIGHT, out)
        }
    }
}

// Refusals in order: 6 the parts, 1 the year, 11 the buffer; a refused call writes nothing.
pub fn to_text_by_rows(
    textForm: NamedForm,
    utc: UTC,
    table: &AnnouncedRows,
    out: &mut [u8],
) -> TextByRule
    ensures { TextRuleCall (text_by_rule (form_named textForm) (rows_of table.now) utc.0) out.old result
        out.new }
{
    let day = super::day_of(utc, table)?;
    let shown = time_shown(textForm, day.fraction, day.leap);
    let written = put_shown(textForm, day.date, shown, out)?;
    Ok((written, day.rule))
}

// Refusals in order: 20 to 22 the table, then those of its rows.
fn to_text(textForm: NamedForm, utc: UTC, table: AnnouncedRows, out: &mut [u8]) -> TextByRule
    ensures { TextRuleCall (onward (table_of table) (λ rows. text_by_rule (form_named textForm) rows utc.0)) out.old result
        out.new }
{
    leap_table::rows::judge_table(&table)?;
    to_text_by_rows(textForm, utc, &table, out)
}

// ---- document 01's form
// Refusals in order: 6 the parts, 1 the year, 11 the buffer; a refused call writes nothing.
#[tactic(auto, unfolding(crate::specs::iso_texts::Named::form_named))]
pub fn to_iso8601_by_rows(utc: UTC, table: &AnnouncedRows, out: &mut [u8]) -> TextByRule
    ensures { TextRuleCall (iso_text_by_rule (rows_of table.now) utc.0) out.old result out.new }
{
    to_text_by_rows(NamedForm::Standard, utc, table, out)
}

// The date as ISO 8601 text, rounded to the millisecond, at the start of the buffer, and the rule of its day; in a leap second the seconds are 60. Refusals in
// order: 20 to 22 the table, 6 the parts, 1 the year, 11 the buffer; a refused call writes nothing.
#[tactic(auto, unfolding(crate::specs::iso_texts::Named::form_named))]
pub fn to_iso8601(utc: UTC, table: AnnouncedRows, out: &mut [u8]) -> TextByRule
    ensures { TextRuleCall (onward (table_of table) (λ rows. iso_text_by_rule rows utc.0)) out.old result out.new }
{
    to_text(NamedForm::Standard, utc, table, out)
}

// ---- a half millisecond to the even one
// Refusals in order: 6 the parts, 1 the year, 11 the buffer; a refused call writes nothing.
#[tactic(auto, unfolding(crate::specs::iso_texts::Named::form_named))]
pub fn to_iso8601_half_even_by_rows(utc: UTC, table: &AnnouncedRows, out: &mut [u8]) -> TextByRule
    ensures { TextRuleCall (half_even_by_rule (rows_of table.now) utc.0) out.old result out.new }
{
    to_text_by_rows(NamedForm::HalfEven, utc, table, out)
}

// The date as ISO 8601 text, a half millisecond to the even one, at the start of the buffer, and the rule of its day. Refusals in order: 20 to 22 the table, 6
// the parts, 1 the year, 11 the buffer; a refused call writes nothing.
#[tactic(auto, unfolding(crate::specs::iso_texts::Named::form_named))]
pub fn to_iso8601_half_even(utc: UTC, table: AnnouncedRows, out: &mut [u8]) -> TextByRule
    ensures { TextRuleCall (onward (table_of table) (λ rows. half_even_by_rule rows utc.0)) out.old result out.new }
{
    to_text(NamedForm::HalfEven, utc, table, out)
}

// ---- a year before 0 or after 9999 as a sign and seven digits
// Refusals in order: 6 the parts, 1 the year, 11 the buffer; a refused call writes nothing.
#[tactic(auto, unfolding(crate::specs::iso_texts::Named::form_named))]
pub fn to_iso8601_expanded_by_rows(utc: UTC, table: &AnnouncedRows, out: &mut [u8]) -> TextByRule
    ensures { TextRuleCall (expanded_by_rule (rows_of table.now) utc.0) out.old result out.new }
{
    to_text_by_rows(NamedForm::Expanded, utc, table, out)
}

// The date as ISO 8601 text of 23 or 27 bytes, rounded to the millisecond, at the start of the buffer, and the rule of its day. Refusals in order: 20 to 22 the
// table, 6 the parts, 1 the year, 11 the buffer; a refused call writes nothing.
#[tactic(auto, unfolding(crate::specs::iso_texts::Named::form_named))]
pub fn to_iso8601_expanded(utc: UTC, table: AnnouncedRows, out: &mut [u8]) -> TextByRule
    ensures { TextRuleCall (onward (table_of table) (λ rows. expanded_by_rule rows utc.0)) out.old result out.new }
{
    to_text(NamedForm::Expanded, utc, table, out)
}
