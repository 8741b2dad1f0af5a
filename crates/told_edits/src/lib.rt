//! An office is asked edits, and one line tells of each what became of it.
#![tactic(auto)]

pub mod laws;
pub mod lines;
pub mod telling;

pub use lines::{LINE_BYTES, MOST_END_BYTES, told_line};
pub use telling::tell_edit;
