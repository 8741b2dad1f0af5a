//! Acts on the inputs in force, on reviews, on the days that await an edit, and on an office over a disk in memory, by the words of
//! rows that stand in blocks.
#![tactic(auto)]

mod blocks;
mod cells;
mod compared;
mod counted;
mod inputs;
mod many;
mod office_acts;
mod offices;
mod readmitted;
mod reviews;
mod sent;
mod sent_changes;
mod sent_readings;
mod told;

pub use blocks::{are_blocks, play_blocks};
