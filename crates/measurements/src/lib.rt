//! What a field measurement says of the rating in force: its percent departure and its indicated shift.
#![tactic(auto)]

pub mod departures;
pub mod measuring;

pub use departures::Departure;
pub use measuring::{departure, station_departure};
