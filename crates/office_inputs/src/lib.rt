//! The inputs in force: the stations that are kept, what refuses an edit of them, and which days' inputs an edit changes.
#![tactic(auto)]

mod applying;
pub mod inputs;
pub mod laws;
pub mod limits;
pub mod places;
pub mod refusals;
mod refusing;
pub mod rooms;
pub mod staged;
mod touching;
mod zones;

pub use inputs::{Inputs, stations_keep_to_their_ranges};
pub use limits::Limits;
pub use places::Place;
pub use refusals::{Full, Refusal, Which};
pub use station_inputs::{Station, StationSeries, Touched};
