// The table read forward, row by row, as a walk needs it: document 02, item 2.
ghost use Rattle.std.specs.Prelude.{◌≡◌, ◌<◌, ◌≤◌, length, slice_index, slice_index_or, Float};
ghost use Rattle.leap_table.specs.rows.Table.{fixed, starts};
ghost use Rattle.leap_table.specs.rows.Announced.{rows_of};
ghost use Rattle.leap_table.specs.offsets.Offset.{offset_by};
ghost use Rattle.leap_table.specs.offsets.Forward.{never, by_terms};

use crate::rows::{AnnouncedRows, FIXED_SIZE, MONTHS, announced_size};

// Later than the month of any date.
// kept: no `Option`: the definition `never` has it so, and a walk compares one number a date.
const NEVER: u64 = 0xffff_ffff_ffff_ffff;

// What the offsets of a row are made of: where it drifts, its seconds, the Modified Julian Date from which it drifts and its seconds a day; else its seconds
// alone.
// kept: a flag and no `Option`, since `by_terms`, which the contract of `row_terms` cites, speaks of the fields.
#[derive(Clone, Copy)]
pub struct RowTerms {
    pub drifts: bool,
    pub seconds: f64,
    pub start: f64,
    pub rate: f64,
}

// Month i of a list that has it. From a list by reference, since a table that is read by an index is copied.
fn month_at(months: &[u64], i: usize) -> u64
    requires { i < length months.now }
    ensures { result ≡ slice_index months.now i }
{
    months[i]
}

// How many rows a table has, the fixed ones included.
pub fn row_count(table: AnnouncedRows) -> usize
    ensures { result ≡ length (rows_of table) }
{
    FIXED_SIZE + announced_size(&table)
}

// The month in which row i of a table begins; past the last row, a number that is later than the month of any date.
pub fn row_start(table: AnnouncedRows, i: usize) -> u64
    ensures { result ≡ slice_index_or (starts (rows_of table)) i never }
{
    if i < FIXED_SIZE {
        return month_at(&MONTHS, i);
    }
    let place = i - FIXED_SIZE;
    if place < announced_size(&table) {
        return crate::rows::natural(table.months[place]) as u64;
    }
    NEVER
}

// The terms of the last of so many rows of a table; 0 s where there is none.
pub fn row_terms(table: AnnouncedRows, rows: usize) -> RowTerms
    ensures { (mjd fraction : Float) → by_terms result mjd fraction ≡ offset_by (rows_of table) rows mjd fraction }
{
    if rows == 0 {
        return RowTerms {
            drifts: false,
            seconds: 0.0,
            start: 0.0,
            rate: 0.0,
        };
    }
    let i = rows - 1;
    if i < 14 {
        return RowTerms {
            drifts: true,
            seconds: super::fixed_rows::seconds_at(i),
            start: super::fixed_rows::start_at(i),
            rate: super::fixed_rows::rate_at(i),
        };
    }
    if FIXED_SIZE + announced_size(&table) <= i {
        return RowTerms {
            drifts: false,
            seconds: 0.0,
            start: 0.0,
            rate: 0.0,
        };
    }
    RowTerms {
        drifts: false,
        seconds: super::look_up::seconds_of_row(&table, rows),
        start: 0.0,
        rate: 0.0,
    }
}
