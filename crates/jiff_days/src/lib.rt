//! Laws that tie the starts of days to the conversion of the jiff library. Programs call nothing of it: the laws have no code, and
//! the one call that has some asks jiff itself when a day begins, so that its contract says that jiff's answer is the start.
#![tactic(auto)]

mod conversion;
mod laws;

pub use conversion::day_start_by_jiff;
pub use laws::{
    offset_days_begin_by_jiff, rule_days_begin_by_jiff, the_offset_before_a_change_is_taken,
    zones_are_known_to_jiff,
};
