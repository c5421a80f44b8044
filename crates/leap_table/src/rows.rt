// The table of rows, the fixed ones of the IERS and those that a caller announces after them, and the test of such a table. From document 02, item 8.
ghost use Rattle.std.specs.Prelude.{◌≡◌, length};
ghost use Rattle.refusals.specs.Outcome.{answer, onward, outcome};
ghost use Rattle.leap_table.specs.rows.Table.{fixed};
ghost use Rattle.leap_table.specs.rows.Announced.{table_of};

use refusals::Refusal;

mod announced;
mod fixed;

pub(crate) use announced::{and_later, announced_size};
pub use announced::{at_most_16, judge_table, natural, size_of};
pub use fixed::{FIXED_ROWS, LAST_MONTH, LAST_SECONDS};
pub(crate) use fixed::{FIXED_SIZE, MONTHS};

// The rows that a caller lends after the fixed ones: how many by each size, their month starts (12 × year + month - 1) and their whole seconds. Places past the
// size are not read. A call that ends in `_by_rows` takes such a table by reference, so that nothing is copied from call to call, and reads its rows: it is
// tested elsewhere.
// kept: two sizes and two arrays of 16, as C lends them (the 136 bytes of a table): sizes that differ are refused by 20, and no list is on a heap.
#[derive(Clone, Copy)]
pub struct AnnouncedRows {
    pub months_size: u32,
    pub seconds_size: u32,
    pub months: [i32; 16],
    pub seconds: [i32; 16],
}

// No announced rows: the table is the fixed one.
pub fn no_rows() -> AnnouncedRows
    ensures { table_of result ≡ answer fixed }
{
    AnnouncedRows {
        months_size: 0,
        seconds_size: 0,
        months: [0; 16],
        seconds: [0; 16],
    }
}

// How many rows a table has, the fixed ones included. Refusals in order: 20 the sizes, 21 a row not later than the one before, 22 a step other than
// one second up or down.
pub fn check_table(table: AnnouncedRows) -> Result<u32, Refusal>
    ensures { outcome result ≡ onward (table_of table) (λ rows. answer (length rows)) }
{
    judge_table(&table)?;
    Ok(FIXED_ROWS + table.months_size)
}
