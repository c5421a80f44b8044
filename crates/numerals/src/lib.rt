// Numbers in bytes and in digits, and bytes placed one behind the other.
#![tactic(auto)]

pub mod little_endian;
pub mod place;
