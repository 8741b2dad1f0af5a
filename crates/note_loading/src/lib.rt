//! Measurement notes are read from an input, their discharges are written, and an office is asked the measurement that they make.
#![tactic(auto)]

pub mod endings;
pub mod figures;
pub mod loading;
pub mod visits;

pub use endings::NotesEnd;
pub use loading::{MOST_BYTES, load_notes};
pub use visits::Visit;
