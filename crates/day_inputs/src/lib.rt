//! The inputs of a day: all that its value depends on, and whether the inputs of two days are equal.
#![tactic(auto)]

pub mod day_inputs;
pub mod equality;
pub mod making;

pub use day_inputs::{DayInputs, DayParts};
pub use equality::are_same;
pub use making::{Settings, ends, has_rules, with_window};
pub use readings::window_is;
