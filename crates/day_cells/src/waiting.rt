//! A day that awaits an edit.

use fixed_units::{Day, Site};

/// A day that awaits an edit.
#[derive(Clone, Copy, Debug, PartialEq, Eq)]
pub struct Waiting {
    /// The station.
    pub site: Site,
    /// The day.
    pub day: Day,
    /// The number of the edit, from 1 on.
    pub awaits: u64,
    /// Whether its claim is out.
    pub out: bool,
}
