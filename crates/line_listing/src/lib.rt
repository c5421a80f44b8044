// The listing of three recorders' stamps in one line, from their dates to its bytes.
#![tactic(auto)]

pub mod head;
pub mod lines;
pub mod listing;
pub mod order;
pub mod summary;
pub mod taken;
