//! The cells of one station: which edit each day awaits, whether its claim is out, and the value that was published last,
//! for the days from the first to the last that an edit ever changed.
#![tactic(auto)]

pub mod columns;
pub mod kept_days;
pub mod sites;
pub mod spans;
pub mod values;
pub mod waiting;

pub use kept_days::DayCells;
pub use sites::rank;
pub use spans::{Span, count_days, with_day};
pub use waiting::Waiting;
