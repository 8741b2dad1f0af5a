//! The editions of the rule of a daily mean: how much of a day it has to cover. By the first edition that is the whole day, by the
//! second a least cover.
#![tactic(auto)]

pub mod covers;

pub use covers::{MOST_LEAST_COVER, is_least_cover, need};
