//! Which days await a computation: the cells of all stations, and the jobs that compute them.
#![tactic(auto)]

pub mod cells;
pub mod due;
pub mod jobs;
pub mod laws;
mod stations;

pub use cells::{Cells, pending_days_stand_by_site};
pub use day_cells::Waiting;
pub use jobs::{Done, Job, Publish};
