// The calls for C: numbers and byte slices only. include/celestial_time.h declares each call and says what it answers.
// kept: in all of them a refusal is matched and no `?` hands it on, and a form or a scale comes as a number, since a call answers the code that C reads.
// Where the answer is a count, in seventeen of them, both arms stand in the call: a function for them would ask that the count fits an i64, which each call
// shows by a fact of its own.
#![tactic(auto)]

pub mod block_calls;
pub mod calendar_calls;
pub mod date_calls;
pub mod date_run_calls;
pub mod gps_week_calls;
pub mod line_listing_calls;
pub mod line_up_calls;
pub mod list_calls;
pub mod offset_calls;
pub mod order_calls;
pub mod reader_calls;
pub mod reason_calls;
pub mod run_bytes_calls;
pub mod run_calls;
pub mod same_stamp_calls;
pub mod scale_calls;
pub mod since_launch_calls;
pub mod standby_calls;
pub mod summary_calls;
pub mod text_calls;
pub mod text_run_calls;
pub mod tick_calls;
pub mod utc_calls;
pub mod version_calls;
pub mod walk_calls;
