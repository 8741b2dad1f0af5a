//! Which days an edit changes: the days of its interval are compared, and no others need be.
#![tactic(auto)]

pub mod days;
pub mod from_scratch;
pub mod laws;
pub mod reaching;
pub mod spans;

pub use days::DayList;
pub use reaching::{reach, reach_at};
pub use spans::{compared_days, compared_days_at};
