//! What happened in an office, in order, and all that is read off it: the edits that were accepted, what is in force, which edit
//! each day awaits, what is answered, what is said to an edit, and how a history goes on.
#![tactic(auto)]

pub mod laws;
pub mod recorded;

pub use recorded::{Doubt, NotKept, Recorded};
