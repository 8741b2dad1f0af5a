//! Quantities of streamgaging as whole numbers, their rounding, and the texts that they are read from
//! and written as.
#![tactic(auto)]

pub mod decimals;
pub mod lines;
pub mod points;
pub mod published;
pub mod quantities;
pub mod ranges;
pub mod readings;
pub mod rounding;
pub mod rounding_array;
pub mod texts;

pub use decimals::{Bad, read_decimal};
pub use lines::line_at;
pub use published::{Published, publish, write_hundredths, write_micro, write_published};
pub use quantities::{Day, FIRST_DAY, LAST_DAY, Micro, Second, Site};
pub use ranges::{
    FIRST_STAMP, LAST_STAMP, LONGEST_DAY, MOST_GAP, MOST_RATING_NUMBER, SHORTEST_DAY, is_amount,
    is_discharge, is_stage, is_stamp,
};
pub use readings::{Flag, Reading};
pub use rounding::div_half_away;
pub use rounding_array::RoundingArray;
pub use texts::{NoMemory, Text};
