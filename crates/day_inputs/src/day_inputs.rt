//! The inputs of a day.

use curves::EntryList;
use fixed_units::{Micro, RoundingArray, Second};
use ratings::PartList;
use readings::ReadingList;

/// The inputs of a day that has a window or an estimate.
#[derive(Drop)]
pub struct DayParts {
    /// The gap tolerance in minutes, 1 to 720: the greatest distance over which a line is drawn.
    pub gap: u32,
    /// The rounding array for stages.
    pub stage_array: RoundingArray,
    /// The rounding array for discharges.
    pub discharge_array: RoundingArray,
    /// The first instant of the day.
    pub from: Second,
    /// The first instant of the next day, 20 to 28 hours later.
    pub until: Second,
    /// The readings of the day and its neighbours, rising by instant: stages of at most 100,000 feet either way. It may be empty where
    /// an estimate stands.
    pub window: ReadingList,
    /// The entries of the first correction set that bear on the time from the window's first reading to its last one: they
    /// rise by instant, with amounts of at most 1,000 feet either way.
    pub first: EntryList,
    /// Those of the second set.
    pub second: EntryList,
    /// Those of the third set.
    pub third: EntryList,
    /// Those of the shifts.
    pub shifts: EntryList,
    /// The rating periods that are in force at some instant of that time, cut to it, with their tables: each ends before the
    /// next one begins.
    pub periods: PartList,
    /// The mean discharge as a person estimates it, in millionths of a cubic foot per second: 0 to 10,000,000 cubic feet per second.
    pub estimate: Option<Micro>,
    /// The least cover in minutes from which on a mean is published, 1 to 1,440; without one, and where the window is empty, the whole
    /// day is needed.
    pub least: Option<u32>,
}

/// The inputs of a day.
pub enum DayInputs {
    /// The day has no reading that is used, and no estimate.
    Empty,
    /// The day has a window, an estimate, or both.
    Day(DayParts),
}

/// By hand, so that a drop is one call wherever inputs are dropped.
impl Drop for DayInputs {
    fn drop(self) {
        match self {
            DayInputs::Empty => {}
            DayInputs::Day(_parts) => {}
        }
    }
}
