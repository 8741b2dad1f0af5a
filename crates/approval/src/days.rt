//! The standing of a day that is in review or approved.

ghost use Rattle.std.specs.Prelude.{◌≡◌, ◌&&◌};
ghost use Rattle.approval.specs.Statuses.{is_approved};
ghost use Rattle.fixed_units.specs.Quantities.{is_day};

use crate::status::Status;
use fixed_units::Day;
use rising::Keyed;

/// How far the record of a day is approved, and by which edit.
#[derive(Drop)]
pub struct DayStanding {
    /// The day.
    pub day: Day,
    /// How far its record is approved.
    pub status: Status,
    /// The number of the accepted edit that gave it this status.
    pub edit: u64,
}

impl DayStanding {
    /// Whether the record of the day, which is one of the calendar, is approved.
    pub(crate) fn is_approved(&self) -> bool
        ensures { result ≡ (is_day self.now.day && is_approved self.now.status) }
    {
        // Read for its range, which the contract tells.
        let _number = self.day.get();
        self.status.is_approved()
    }
}

impl Keyed for DayStanding {
    type Key = Day;

    ghost place = { λ s. s.day };

    ghost number = { λ day. day };

    fn key(&self) -> Day {
        self.day
    }

    fn is_before(&self, key: Day) -> bool {
        self.day < key
    }

    fn is_at(&self, key: Day) -> bool {
        self.day == key
    }
}
