//! The office of one thread: what it keeps in memory, and the journal of its edits on a disk. Each edit is in the journal before it is
//! accepted.
#![tactic(auto)]

pub mod computing;
pub mod editing;
mod keeping;
pub mod laws;
pub mod offices;
pub mod opening;
pub mod taking;

pub use offices::{Accepted, Office};
pub use register::{Answer, Sheet};
