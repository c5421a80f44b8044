// The same table, read into a record that is lent, for calls that lend it on: a record of 136 bytes is copied wherever it is handed on by value.
ghost use Rattle.std.specs.Prelude.{◌≡◌, ℕ, ◌+◌, ◌*◌, ◌<◌, pos, get_or};
ghost use Rattle.refusals.specs.Outcome.{seen};
ghost use Rattle.numerals.specs.little_endian.LittleEndian.{i32_at};
ghost use Rattle.leap_table.specs.rows.Announced.{rows_of};
ghost use Rattle.c_answers.specs.table.TableBytes.{table_bytes};

use super::lend_none;
use leap_table::rows::AnnouncedRows;
use refusals::Refusal;

// All 16 numbers from `at` on, whatever a size says: a number of places that is known is copied at once.
pub(crate) fn put_numbers(bytes: &[u8], at: usize, numbers: &mut [i32; 16])
    requires { at < 100 }
    ensures { (i : ℕ) → i < 16 → get_or numbers.new i (pos 0) ≡ i32_at bytes.now (at + 4 * i) }
{
    for i in 0..16 {
        numbers[i] = numerals::little_endian::i32_at(bytes, at + 4 * i);
    }
}

// Reads a table from its bytes, each size once, and judges it: 14 the length, then the tests of the table. Of a table of no rows, and of one whose sizes are
// refused, nothing is read but the sizes.
pub fn read_table(bytes: &[u8], table: &mut AnnouncedRows) -> Result<(), Refusal>
    ensures { seen (λ _. rows_of table.new) result ≡ table_bytes bytes.now }
{
    if bytes.len() != 136 {
        return Err(Refusal::LengthWrong);
    }
    let months_size = numerals::little_endian::u32_at(bytes, 0);
    let seconds_size = numerals::little_endian::u32_at(bytes, 4);
    table.months_size = months_size;
    table.seconds_size = seconds_size;
    if lend_none(months_size, seconds_size) {
        return Ok(());
    }
    if months_size != seconds_size {
        return Err(Refusal::TableSizesWrong);
    }
    if 16 < months_size {
        return Err(Refusal::TableSizesWrong);
    }
    put_numbers(bytes, 8, &mut table.months);
    put_numbers(bytes, 72, &mut table.seconds);
    leap_table::rows::judge_table(table)
}
