//! How far the record of each day is approved, and by whom: who may review days and decide on them, and which edits an approved day
//! locks out.
#![tactic(auto)]

mod applying;
mod changed;
mod day_lists;
mod days;
pub mod laws;
pub mod objections;
mod questions;
mod rooms;
pub mod sites;
mod spans;
pub mod status;
pub mod statuses;

// A contract can name the standings only if the types of their fields are exported.
#[doc(hidden)]
pub use days::DayStanding;
pub use objections::Objection;
#[doc(hidden)]
pub use sites::SiteStandings;
pub use status::Status;
pub use statuses::Statuses;
