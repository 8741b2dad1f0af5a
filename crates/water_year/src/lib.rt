//! Daily values of a station as text, and the table of a water year: the days, total, mean, extremes and volume of each month and of the
//! year. A water year is the twelve months that end with September, and has the number of the calendar year in which it ends (the
//! practice of the U.S. Geological Survey).
#![tactic(auto)]

mod daily;
pub mod laws;
mod lines;
mod months;
pub mod rows;
mod sums;
pub mod tables;

pub use daily::write_daily;
pub use lines::write_year;
pub use rows::{DailyRow, RowState, first_day, last_day};
pub use tables::{Month, Year, year_table};
