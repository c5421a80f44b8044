// TAI-UTC of a month in whole seconds, for those who count a time from 1972 on in whole numbers.
ghost use Rattle.std.specs.Prelude.{◌≡◌, ◌<◌, ◌≤◌};
ghost use Rattle.leap_table.specs.rows.Announced.{rows_of};
ghost use Rattle.leap_table.specs.offsets.Offset.{seconds_in};
ghost use Rattle.leap_table.specs.offsets.WholeSeconds.{whole_seconds};

use super::look_up::{month_number, table_rows_reached};
use crate::rows::{AnnouncedRows, FIXED_SIZE, natural};

// The seconds of the row reached in a month from January 1972 on.
fn seconds_in(table: &AnnouncedRows, month: u64) -> u32
    requires { 23664 ≤ month }
    ensures { (result ≡ seconds_in (rows_of table.now) month) × (result < 2147483648) }
{
    let rows = table_rows_reached(table, month);
    if rows <= FIXED_SIZE {
        return (rows - 5) as u32;
    }
    let i = rows - FIXED_SIZE - 1;
    natural(table.seconds[i])
}

// TAI-UTC of a month in whole seconds by the rows of a table that is tested elsewhere; 0 in the years before 1972 and for a number that is no month.
// kept: 0 and no `Option`: the definition `whole_seconds`, which the clauses of callers cite, is 0 there.
pub fn whole_seconds_by_rows(year: i32, month: u32, table: &AnnouncedRows) -> u32
    ensures { (result ≡ whole_seconds (rows_of table.now) year month) × (result < 2147483648) }
{
    if year < 1972 {
        return 0;
    }
    if month < 1 {
        return 0;
    }
    if 12 < month {
        return 0;
    }
    seconds_in(table, month_number(year, month))
}
