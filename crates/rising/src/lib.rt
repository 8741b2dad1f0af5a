//! Lists that strictly rise by a key, with room that is made beforehand: one list for readings by instant, entries of a
//! series, periods by their start and all else that is found by a key.
#![tactic(auto)]

pub mod keys;
pub mod laws;
pub mod lists;
pub mod places;

pub use keys::Keyed;
pub use lists::{NoEntry, Parts, RisingList, put_in};
pub use places::{count_before, count_to, place_in};
