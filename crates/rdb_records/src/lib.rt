//! Unit values, the readings of a gauge, read from RDB texts as the USGS gives them.
#![tactic(auto)]

pub mod faults;
mod fields;
pub mod laws;
mod lines;
mod rows;
mod times;
pub mod units;

pub use faults::UnitFault;
pub use laws::texts_state_one_result;
pub use units::{UnitList, read_units};
