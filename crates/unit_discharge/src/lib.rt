//! What a reading gives: its corrected stage, its shift, and its discharge or the reason why there is none.
#![tactic(auto)]

pub mod applying;
pub mod unit_values;

pub use applying::unit;
pub use unit_values::{Missing, Unit};
