// UTC with TAI and with UT1: the four conversions that read the leap table.
#![tactic(auto)]

pub mod days;
pub mod from_ut1;
mod table;
pub mod to_ut1;
pub mod utc_tai;

pub use table::day_of;
