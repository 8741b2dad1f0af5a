//! The words of the command line: which command they ask for, by a grammar of this project's own, with `clap` reading
//! the words that pass once more behind it.
#![tactic(auto)]

pub mod laws;
mod numbers;
mod options;
pub mod orders;
mod reading;
mod second_reading;

pub use orders::{DailyOrder, ImportOrder, NotesOrder, WaterOrder};
pub use reading::{Command, WordsFault, read_words};
