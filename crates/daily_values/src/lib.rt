//! The value that is computed from the inputs of a day alone.
#![tactic(auto)]

pub mod counts;
pub mod day_values;
pub mod extremes;
pub mod from_scratch;
pub mod laws;
pub mod sums;
mod totals;

pub use counts::Counts;
pub use day_inputs::{DayInputs, DayParts};
pub use day_values::{DayValue, Figures, compute};
pub use extremes::Extremes;
pub use readings::ReadingList;
pub use sums::Sum;
pub use unit_discharge::{Missing, Unit};
