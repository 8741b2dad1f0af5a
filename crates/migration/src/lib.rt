//! The records of a journal copied into one of the second format.
#![tactic(auto)]

pub mod copying;
pub mod laws;
mod matching;
pub mod reading;

pub use copying::{CopyFault, copy_records};
pub use reading::{has_room, read_records};
