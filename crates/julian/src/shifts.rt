// A date moved by days or by seconds: its smaller part changes, and the larger stays.
pub mod given_offset;
pub mod smaller_part;
