// The table of announced rows as 136 bytes. From document 02, item 8.
pub mod arrays;

ghost use Rattle.std.specs.Prelude.{◌≡◌, ℕ, ◌+◌, ◌*◌, ◌<◌, ◌≤◌, ◌&&◌, eqb, pos, get_or, length};
ghost use Rattle.refusals.specs.Outcome.{seen};
ghost use Rattle.numerals.specs.little_endian.LittleEndian.{i32_at};
ghost use Rattle.leap_table.specs.rows.Announced.{rows_of, table_of};
ghost use Rattle.c_answers.specs.table.TableBytes.{of_length, table_bytes};

use leap_table::rows::AnnouncedRows;
use refusals::Refusal;

// The 16 numbers from `at` on.
fn numbers_at(bytes: &[u8], at: usize) -> [i32; 16]
    requires { at < 100 }
    ensures { (i : ℕ) → i < 16 → get_or result i (pos 0) ≡ i32_at bytes.now (at + 4 * i) }
{
    let mut numbers = [0; 16];
    arrays::put_numbers(bytes, at, &mut numbers);
    numbers
}

// Whether two sizes lend no rows. Such a table is neither copied nor tested row by row.
pub(crate) fn lend_none(first: u32, second: u32) -> bool
    ensures { result ≡ eqb first 0 && eqb second 0 }
{
    if first != 0 {
        return false;
    }
    second == 0
}

// The rows that the bytes hold; bytes of another length than 136 are not read, and of two sizes of 0 nothing but the sizes.
pub fn announced_rows_at(bytes: &[u8]) -> AnnouncedRows
    ensures { of_length (length bytes.now) (table_of result) ≡ table_bytes bytes.now }
{
    if bytes.len() != 136 {
        return leap_table::rows::no_rows();
    }
    let months_size = numerals::little_endian::u32_at(bytes, 0);
    let seconds_size = numerals::little_endian::u32_at(bytes, 4);
    if lend_none(months_size, seconds_size) {
        return leap_table::rows::no_rows();
    }
    let months = numbers_at(bytes, 8);
    let seconds = numbers_at(bytes, 72);
    AnnouncedRows {
        months_size,
        seconds_size,
        months,
        seconds,
    }
}

// Whether a table in so many bytes is taken: 14 the length, then the refusals of the table.
pub fn judge_table(length: usize, rows: AnnouncedRows) -> Result<(), Refusal>
    ensures { seen (λ _. rows_of rows) result ≡ of_length length (table_of rows) }
{
    if length != 136 {
        return Err(Refusal::LengthWrong);
    }
    if lend_none(rows.months_size, rows.seconds_size) {
        return Ok(());
    }
    leap_table::rows::judge_table(&rows)
}
