//! A document of stations in TOML, read into the edits that add them: the whole document is one, or nothing is taken of it.
#![tactic(auto)]

pub mod documents;
pub mod faults;
pub mod laws;
mod members;
mod stations;

pub use documents::{MOST_BYTES, read_stations};
pub use faults::DocumentFault;
