//! An input is read whole, as far as it may be long.
#![tactic(auto)]

pub mod inputs;

pub use inputs::{NotRead, read_whole};
