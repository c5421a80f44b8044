// UTC as text by each of the three forms of text, with the rule of its day in a buffer of its own where one is lent.
// kept: each form of text has its own way from the table to the text: one way for a form of text by name takes 47 to 73 instructions a call more.
ghost use Rattle.std.specs.Prelude.{◌≡◌, ℕ, ◌<◌, [], length};
ghost use Rattle.refusals.specs.Outcome.{refusal, onward};
ghost use Rattle.julian.specs.JulianDate.{julian};
ghost use Rattle.leap_table.specs.rows.Announced.{rows_of};
ghost use Rattle.utc.specs.iso_texts.ByRule.{text_by_rule, iso_text_by_rule, half_even_by_rule, expanded_by_rule};
ghost use Rattle.c_answers.specs.table.TableBytes.{table_bytes};
ghost use Rattle.c_answers.specs.Delivery.{code};
ghost use Rattle.c_answers.specs.TwoBuffers.{DeliveredTwo};
ghost use Rattle.utc.specs.iso_texts.Named.{form_named};
ghost use Rattle.capi.specs.TextRule.{ruled, no_room, DeliveredBeside};

use c_answers::refused;
use c_answers::table::arrays;
use julian::JulianDate;
use leap_table::rows::AnnouncedRows;
use refusals::Refusal;
use scales::UTC;
use utc::iso_texts::NamedForm;

// The answer where the rule has no room: the text's own refusal, and 11 after it. The text goes to a byte of its own.
fn no_room_for_rule(textForm: NamedForm, date: UTC, table: &AnnouncedRows) -> i64
    ensures { result ≡ code (no_room (text_by_rule (form_named textForm) (rows_of table.now) date.0)) }
{
    let mut spare = [0; 1];
    match utc::iso_texts::to_text_by_rows(textForm, date, table, &mut spare) {
        Err(refusal) => refused(refusal),
        Ok((_, _)) => refused(Refusal::NoRoom),
    }
}

// The text alone, where no rule is asked for.
fn text_alone(textForm: NamedForm, date: UTC, table: &AnnouncedRows, out: &mut [u8]) -> i64
    ensures { DeliveredTwo (ruled 0 (text_by_rule (form_named textForm) (rows_of table.now) date.0))
        out.old [] result out.new [] }
{
    match utc::iso_texts::to_text_by_rows(textForm, date, table, out) {
        Err(refusal) => refused(refusal),
        Ok((n, _)) => n as i64,
    }
}

// With fewer bytes for the rule than it has: none asks for none.
fn with_short_rule(
    textForm: NamedForm,
    date: UTC,
    table: &AnnouncedRows,
    out: &mut [u8],
    room: usize,
) -> i64
    requires { room < 8 }
    ensures { DeliveredBeside room (text_by_rule (form_named textForm) (rows_of table.now) date.0)
        out.old result out.new }
{
    if room == 0 {
        return text_alone(textForm, date, table, out);
    }
    no_room_for_rule(textForm, date, table)
}

fn put_text(date: UTC, table: &AnnouncedRows, out: &mut [u8], rule: &mut [u8]) -> i64
    ensures { DeliveredTwo
        (ruled (length rule.old) (iso_text_by_rule (rows_of table.now) date.0)) out.old
        rule.old result out.new rule.new }
{
    if rule.len() < 8 {
        return with_short_rule(NamedForm::Standard, date, table, out, rule.len());
    }
    match utc::iso_texts::to_iso8601_by_rows(date, table, out) {
        Err(refusal) => refused(refusal),
        Ok((n, day_rule)) => {
            c_answers::rules::put_rule(day_rule, rule);
            n as i64
        }
    }
}

fn put_half_even(date: UTC, table: &AnnouncedRows, out: &mut [u8], rule: &mut [u8]) -> i64
    ensures { DeliveredTwo
        (ruled (length rule.old) (half_even_by_rule (rows_of table.now) date.0)) out.old
        rule.old result out.new rule.new }
{
    if rule.len() < 8 {
        return with_short_rule(NamedForm::HalfEven, date, table, out, rule.len());
    }
    match utc::iso_texts::to_iso8601_half_even_by_rows(date, table, out) {
        Err(refusal) => refused(refusal),
        Ok((n, day_rule)) => {
            c_answers::rules::put_rule(day_rule, rule);
            n as i64
        }
    }
}

fn put_expanded(date: UTC, table: &AnnouncedRows, out: &mut [u8], rule: &mut [u8]) -> i64
    ensures { DeliveredTwo
        (ruled (length rule.old) (expanded_by_rule (rows_of table.now) date.0)) out.old
        rule.old result out.new rule.new }
{
    if rule.len() < 8 {
        return with_short_rule(NamedForm::Expanded, date, table, out, rule.len());
    }
    match utc::iso_texts::to_iso8601_expanded_by_rows(date, table, out) {
        Err(refusal) => refused(refusal),
        Ok((n, day_rule)) => {
            c_answers::rules::put_rule(day_rule, rule);
            n as i64
        }
    }
}

#[unsafe(no_mangle)]
pub extern "C" fn ct_to_iso8601(
    jd1: f64,
    jd2: f64,
    table: &[u8],
    out: &mut [u8],
    rule: &mut [u8],
) -> i64
    ensures { DeliveredTwo
        (ruled (length rule.old) (onward (table_bytes table.now) (λ rows. iso_text_by_rule rows (julian jd1 jd2)))) out.old
        rule.old result out.new rule.new }
{
    let mut rows = leap_table::rows::no_rows();
    if let Err(refusal) = arrays::read_table(table, &mut rows) {
        return refused(refusal);
    }
    let date = UTC(JulianDate { jd1, jd2 });
    put_text(date, &rows, out, rule)
}

#[unsafe(no_mangle)]
pub extern "C" fn ct_to_iso8601_half_even(
    jd1: f64,
    jd2: f64,
    table: &[u8],
    out: &mut [u8],
    rule: &mut [u8],
) -> i64
    ensures { DeliveredTwo
        (ruled (length rule.old) (onward (table_bytes table.now) (λ rows. half_even_by_rule rows (julian jd1 jd2)))) out.old
        rule.old result out.new rule.new }
{
    let mut rows = leap_table::rows::no_rows();
    if let Err(refusal) = arrays::read_table(table, &mut rows) {
        return refused(refusal);
    }
    let date = UTC(JulianDate { jd1, jd2 });
    put_half_even(date, &rows, out, rule)
}

#[unsafe(no_mangle)]
pub extern "C" fn ct_to_iso8601_expanded(
    jd1: f64,
    jd2: f64,
    table: &[u8],
    out: &mut [u8],
    rule: &mut [u8],
) -> i64
    ensures { DeliveredTwo
        (ruled (length rule.old) (onward (table_bytes table.now) (λ rows. expanded_by_rule rows (julian jd1 jd2)))) out.old
        rule.old result out.new rule.new }
{
    let mut rows = leap_table::rows::no_rows();
    if let Err(refusal) = arrays::read_table(table, &mut rows) {
        return refused(refusal);
    }
    let date = UTC(JulianDate { jd1, jd2 });
    put_expanded(date, &rows, out, rule)
}
