// TAI-UTC of a date, and the leap at the end of a day. From scales/common.rs's `get_tai_utc_offset` with the table of constants.rs, and the look-ups of
// scales/utc/mod.rs and scales/conversions/utc_tai/mod.rs.
// kept: year, month and day stand one by one, as C hands them (ct_get_tai_utc_offset, ct_leap_at_end_of_day): they may be no date.

mod announced;
mod fixed_rows;
mod in_day;
mod look_up;
mod seconds;
pub mod walk_rows;
mod whole_day;

pub use in_day::{get_tai_utc_offset, get_tai_utc_offset_by_rows, offset_at_0h_by_rows};
pub(crate) use look_up::month_number;
use refusals::Refusal;
pub use seconds::whole_seconds_by_rows;
pub use whole_day::{
    day_offsets, day_offsets_by_rows, leap_at_end_of_day, leap_at_end_of_day_by_rows,
};

// Which row an offset was read from, counted from 0: none before 1960, one that drifts, or one of whole seconds.
#[derive(Clone, Copy, Debug, PartialEq, Eq)]
pub enum Rule {
    Absent,
    Drifting(u32),
    Whole(u32),
}

// Seconds with the rule of the day.
pub type SecondsByRule = Result<(f64, Rule), Refusal>;

// TAI-UTC in seconds at the start, the middle and the end of a day.
#[derive(Clone, Copy)]
pub struct DayOffsets {
    pub at_0h: f64,
    pub at_12h: f64,
    pub at_24h: f64,
}

// The same, with the rule of the day.
pub type DayByRule = Result<(DayOffsets, Rule), Refusal>;
