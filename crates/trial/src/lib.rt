//! The trial: a made-up record of four stations, asked of a whole office, and what it comes to in six figures of text. What a trial is, and
//! its text, is defined in specs/; that it comes to one text is a law. A run asks the orders of an office over a disk in memory, one behind
//! another, and its figures are counted over what the office keeps then.
#![tactic(auto)]

mod counts;
mod disks;
mod figures;
pub mod laws;
mod means;
mod phases;
mod runs;
pub mod trials;

pub use trials::run_trial;
