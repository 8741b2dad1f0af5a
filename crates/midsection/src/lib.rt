//! Measurement notes of a stream, and its discharge by the midsection method (U.S. Geological Survey, Techniques and Methods 3-A8).
#![tactic(auto)]

pub mod discharges;
pub mod faults;
pub mod fractions;
pub mod laws;
pub mod notes;
pub mod reading;
mod records;
pub mod verticals;

pub use discharges::{discharge, share, total};
pub use faults::NotesFault;
pub use notes::{LEAST_VERTICALS, MOST_VERTICALS, Notes};
pub use reading::read_notes;
pub use verticals::Vertical;
