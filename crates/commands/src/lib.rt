//! The commands of the program: a journal is made, or the messages of an input or of connections are served over one, or what an input states
//! is put into it (stations, unit values, the notes of a measurement), or a table of it is written (daily values, a water year); or the trial
//! of a number is run.
#![tactic(auto)]

mod batch;
mod beside;
mod connections;
pub mod endings;
pub mod laws;
mod loading;
mod making;
mod migrating;
mod opening;
pub mod repeats;
mod sharing;
mod tables;
pub mod top;
mod trying;

pub use endings::end_without_memory;
pub use top::run_office;
