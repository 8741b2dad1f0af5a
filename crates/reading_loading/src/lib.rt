//! The readings of a text of unit values are put into an office: each 100,000 of them are an edit that it is asked, one line tells what
//! became of each, and a last one counts them.
#![tactic(auto)]

mod chunks;
pub mod laws;
pub mod limits;
mod lines;
pub mod loading;
pub mod orders;
pub mod prefixes;

pub use limits::{MOST_BYTES, MOST_READINGS};
pub use loading::{ReadingsEnd, load_readings};
pub use orders::ReadingOrder;
pub use prefixes::Prefix;
