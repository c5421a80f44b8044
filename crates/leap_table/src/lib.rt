// The leap table: TAI-UTC from 1960 on, with the rows that are announced.
#![tactic(auto)]

// dates in time order
pub mod judging;
// TAI-UTC of a date, and the leap at the end of a day
pub mod offsets;
// announced rows, and the test of a table
pub mod rows;
// TAI-UTC of many dates in one walk
pub mod walk;
