// Text that others wrote, read: its six fields, and of UTC text the date too.
// kept: an `if let` after `read_table` and no `?` (C interface).
ghost use Rattle.std.specs.Prelude.{false};
ghost use Rattle.refusals.specs.Outcome.{answer, onward, outcome};
ghost use Rattle.parsing.specs.Parsed.{parsed, parsed_utc};
ghost use Rattle.c_answers.specs.table.TableBytes.{table_bytes};
ghost use Rattle.c_answers.specs.Delivery.{in_bytes, Delivered};
ghost use Rattle.capi.specs.ReaderFields.{parsed_bytes, parsed_utc_bytes};

use c_answers::fields::{put_date, put_float, put_julian, put_two_numbers};
use c_answers::refused;
use c_answers::table::arrays;
use calendar::CalendarDate;
use parsing::{ParsedDateTime, ParsedUtc};
use refusals::Refusal;

// Year, month and day, then hour and minute, then the second, one behind the other.
fn put_fields(fields: ParsedDateTime, out: &mut [u8]) -> i64
    ensures { Delivered (answer (parsed_bytes fields)) out.old result out.new }
{
    if out.len() < 28 {
        return refused(Refusal::NoRoom);
    }
    let date = CalendarDate {
        year: fields.year,
        month: fields.month as u32,
        day: fields.day as u32,
    };
    put_date(date, out);
    put_two_numbers(fields.hour as u32, fields.minute as u32, &mut out[12..]);
    put_float(fields.second, &mut out[20..]);
    28
}

// The 28 bytes of the fields and the 16 of the date.
fn put_fields_and_date(read: ParsedUtc, out: &mut [u8]) -> i64
    ensures { Delivered (answer (parsed_utc_bytes read)) out.old result out.new }
{
    if out.len() < 44 {
        return refused(Refusal::NoRoom);
    }
    let fields = read.fields;
    let date = read.date;
    put_fields(fields, out);
    put_julian(date.0, &mut out[28..]);
    44
}

// kept: nine such matches in this crate, each with a writer of its own: a function for all would take the writer as a closure, whose contract is longer.
fn put_parsed(found: Result<ParsedDateTime, Refusal>, out: &mut [u8]) -> i64
    ensures { Delivered (in_bytes parsed_bytes (outcome found)) out.old result out.new }
{
    match found {
        Ok(fields) => put_fields(fields, out),
        Err(refusal) => refused(refusal),
    }
}

fn put_parsed_utc(found: Result<ParsedUtc, Refusal>, out: &mut [u8]) -> i64
    ensures { Delivered (in_bytes parsed_utc_bytes (outcome found)) out.old result out.new }
{
    match found {
        Ok(read) => put_fields_and_date(read, out),
        Err(refusal) => refused(refusal),
    }
}

#[unsafe(no_mangle)]
pub extern "C" fn ct_parse_iso8601(text: &[u8], out: &mut [u8]) -> i64
    ensures { Delivered (in_bytes parsed_bytes (parsed false text.now)) out.old result out.new }
{
    put_parsed(parsing::parse_iso8601(text), out)
}

#[unsafe(no_mangle)]
pub extern "C" fn ct_utc_from_iso8601(text: &[u8], table: &[u8], out: &mut [u8]) -> i64
    ensures { Delivered (in_bytes parsed_utc_bytes (onward (table_bytes table.now) (λ rows. parsed_utc rows text.now)))
        out.old result out.new }
{
    let mut rows = leap_table::rows::no_rows();
    if let Err(refusal) = arrays::read_table(table, &mut rows) {
        return refused(refusal);
    }
    put_parsed_utc(parsing::from_str_by_rows(text, &rows), out)
}
