//! The ratings of a station, the periods in which they are in force, and the parts of these that a day is rated by.
#![tactic(auto)]

mod cutting;
pub mod laws;
pub mod parts;
pub mod period;
mod period_changes;
pub mod periods;
pub mod station_ratings;

pub use parts::{PartList, are_same, part_at};
pub use period::{Period, PeriodPart};
pub use periods::Periods;
pub use rating_tables::{Rated, RdbFault, SharedTable, Table, TableFault, read_rdb};
pub use rising::NoEntry;
pub use station_ratings::{Rating, Ratings};
