//! Connections of a shared office, served in threads beside workers.
#![tactic(auto)]

mod accepting;
pub mod connections;
pub mod crews;
pub mod laws;
mod sending;
mod taking;
pub mod whole;

pub use whole::{ServeEnd, serve_all};
