//! Stations are added to an office from a document: each is an edit that the office is asked, and one line tells what became of it.
#![tactic(auto)]

pub mod lines;
pub mod loading;

pub use loading::{LoadingEnd, load_stations};
