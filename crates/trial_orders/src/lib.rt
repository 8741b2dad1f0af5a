//! What a trial asks of an office: its edits, made from the trial's number, and the order in which they are asked.
#![tactic(auto)]

pub mod corrections;
pub mod draws;
pub mod measured;
pub mod references;
pub mod reviews;
pub mod stations;

pub use corrections::{first_correction, second_correction, shift};
pub use draws::Draws;
pub use measured::{PARTS, part_put};
pub use references::{approver, edit_of, reviewer, sender};
pub use reviews::{approval, flagging_approved, flagging_open, review};
pub use stations::{STATIONS, addition, period, rating, site_of};
