//! The commands over an office that write tables: its daily values as text, and the table of a water year.
#![tactic(auto)]

mod rows;
mod texts;
mod turns;
pub mod writing;

pub use writing::{TableEnd, write_daily_values, write_water_year};
