//! A worker of a shared office: it claims pending days, computes them while nobody holds the office, and publishes them.
#![tactic(auto)]

pub mod workers;

pub use workers::{WorkerEnd, worker};
