//! The inputs in force of one station, what stands in the way of an edit of it, and which of its days an edit changes.
#![tactic(auto)]

mod changing;
mod comparing;
pub mod counts;
mod days;
mod estimates;
pub mod laws;
mod measured;
pub mod obstacles;
pub mod series;
pub mod staged;
pub mod station_editions;
pub mod stations;
pub mod touched;

pub use counts::{
    Counted, MOST_EDITIONS, MOST_ENTRIES, MOST_MEASUREMENTS, MOST_PERIODS, MOST_RATINGS,
};
pub use obstacles::Obstacle;
pub use series::StationSeries;
pub use staged::Staged;
pub use station_editions::Edition;
pub use stations::Station;
pub use touched::Touched;
