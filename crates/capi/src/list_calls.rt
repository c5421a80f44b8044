// Announced leap rows that are read from a text, as the table that other calls are lent.
// kept: a `match` after `read` and no `?`, and an expiry in a buffer of its own (C interface).
ghost use Rattle.std.specs.Prelude.{◌≡◌, ◌<◌};
ghost use Rattle.leap_lists.specs.Reading.{read_of};
ghost use Rattle.capi.specs.ListDelivery.{put_to, with_table, fault_line, TableRead};

use c_answers::refused;
use leap_table::rows::AnnouncedRows;
use refusals::Refusal;

// Sixteen numbers as numbers of four bytes, from place `from` on.
fn put_numbers(numbers: &[i32; 16], from: usize, out: &mut [u8])
    requires { from < 100 }
    ensures { out.new ≡ put_to out.old from numbers.now 16 }
{
    for i in 0..16 {
        numerals::little_endian::put_nth_u32(out, from + i, leap_table::rows::natural(numbers[i]));
    }
}

// The bytes of a table: its two sizes, the month starts, the seconds.
fn put_table(table: AnnouncedRows, out: &mut [u8])
    ensures { out.new ≡ with_table out.old table }
{
    numerals::little_endian::put_nth_u32(out, 0, table.months_size);
    numerals::little_endian::put_nth_u32(out, 1, table.seconds_size);
    put_numbers(&table.months, 2, out);
    put_numbers(&table.seconds, 18, out);
}

#[unsafe(no_mangle)]
pub extern "C" fn ct_read_table(text: &[u8], table: &mut [u8], known: &mut [u8]) -> i64
    ensures { TableRead (read_of text.now) table.old known.old result table.new known.new }
{
    let found = match leap_lists::read(text) {
        Ok(found) => found,
        Err(fault) => return refused(fault.refusal),
    };
    if table.len() < 136 || known.len() < 4 {
        return refused(Refusal::NoRoom);
    }
    let rows = found.table;
    put_table(rows, table);
    numerals::little_endian::put_u32(known, found.known_until);
    rows.months_size as i64
}

// The line at fault, counted from 1; 0 where the text is read.
#[unsafe(no_mangle)]
pub extern "C" fn ct_table_fault(text: &[u8]) -> i64
    ensures { result ≡ fault_line (read_of text.now) }
{
    match leap_lists::read(text) {
        Ok(_) => 0,
        Err(fault) => fault.line.min(9_223_372_036_854_775_807) as i64,
    }
}
