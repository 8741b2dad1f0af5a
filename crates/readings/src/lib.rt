//! A station's readings as a list that rises by instant, the window of a day, and when two lists of readings are equal.
#![tactic(auto)]

pub mod changes;
pub mod equality;
pub mod halves;
pub mod laws;
pub mod lists;
mod places;
mod reach;
pub mod reading_list;
mod used;
pub mod windows;

pub use changes::Change;
pub use equality::{are_same, window_is};
pub use fixed_units::{Flag, Reading};
pub use halves::Halves;
pub use lists::Readings;
pub use reading_list::ReadingList;
pub use windows::Window;
