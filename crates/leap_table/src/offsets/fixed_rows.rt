// The look-up in the fixed rows, and what they say: the table of constants.rs.
ghost use Rattle.std.specs.Prelude.{◌≡◌, ◌-◌, ◌<◌, ◌≤◌, length, drop, slice_index_or};
ghost use Rattle.leap_table.specs.rows.Table.{fixed, fixed_rows, starts, reached, none};
ghost use Rattle.leap_table.specs.offsets.Offset.{seconds_of, start_of, rate_of};

use crate::rows::{FIXED_SIZE, MONTHS};

// The rows that drift: TAI-UTC in seconds, the Modified Julian Date at which the drift starts, and its seconds a day.
const DRIFTING: [(f64, f64, f64); 14] = [
    (1.4178180, 37300.0, 0.0012960),
    (1.4228180, 37300.0, 0.0012960),
    (1.3728180, 37300.0, 0.0012960),
    (1.8458580, 37665.0, 0.0011232),
    (1.9458580, 37665.0, 0.0011232),
    (3.2401300, 38761.0, 0.0012960),
    (3.3401300, 38761.0, 0.0012960),
    (3.4401300, 38761.0, 0.0012960),
    (3.5401300, 38761.0, 0.0012960),
    (3.6401300, 38761.0, 0.0012960),
    (3.7401300, 38761.0, 0.0012960),
    (3.8401300, 38761.0, 0.0012960),
    (4.3131700, 39126.0, 0.0025920),
    (4.2131700, 39126.0, 0.0025920),
];

// How many rows of a list of months stand up to the last that has begun, where none from place `end` on has begun. From the end: a date of today takes one
// step.
fn rows_reached(months: &[u64], end: usize, n: u64) -> usize
    requires { (end ≤ length months.now) × (reached (drop end months.now) n ≡ 0) }
    ensures { result ≡ reached months.now n }
{
    for i in (0..end).rev() {
        if months[i] <= n {
            return i + 1;
        }
    }
    0
}

// The same in the fixed table. The years before 1972, in which rows drift, and those up to 1987 do not look at the rows after them.
pub(crate) fn fixed_rows_reached(n: u64) -> usize
    ensures { (result ≡ reached (starts fixed) n) × (result ≤ fixed_rows) }
{
    if 23856 <= n {
        return rows_reached(&MONTHS, FIXED_SIZE, n);
    }
    if 23664 <= n {
        return rows_reached(&MONTHS, 28, n);
    }
    rows_reached(&MONTHS, 14, n)
}

// The decimals of row i as floats, each the nearest.
pub(crate) fn seconds_at(i: usize) -> f64
    requires { i < 14 }
    ensures { result ≡ seconds_of (slice_index_or fixed i none) }
{
    DRIFTING[i].0
}

pub(crate) fn start_at(i: usize) -> f64
    requires { i < 14 }
    ensures { result ≡ start_of (slice_index_or fixed i none) }
{
    DRIFTING[i].1
}

pub(crate) fn rate_at(i: usize) -> f64
    requires { i < 14 }
    ensures { result ≡ rate_of (slice_index_or fixed i none) }
{
    DRIFTING[i].2
}

// The seconds of the last of 15 or more rows: 10 in the row of 1972, whose place is 14, and one more in each later row, so that they are the number of rows
// less 5. They are counted and not read from a table, since the compiled code copies a table whenever it is read by an index.
pub(crate) fn whole_seconds(rows: usize) -> f64
    requires { (15 ≤ rows) × (rows ≤ fixed_rows) }
    ensures { result ≡ seconds_of (slice_index_or fixed (rows - 1) none) }
{
    let seconds = (rows - 5) as u32;
    seconds as f64
}
