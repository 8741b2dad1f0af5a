//! What the files of worked rows are made of: lines, and how the rows of a file ended.
#![tactic(auto)]

mod lines;

pub use lines::{Ended, is_row, parted};
