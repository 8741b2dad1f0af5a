//! Estimates of a day's mean discharge.

ghost use Rattle.std.specs.Prelude.{◌≡◌, ◌↔◌, true};
ghost use Rattle.edits.specs.Same.{same_estimate};

use fixed_units::{Day, Micro};
use rising::Keyed;

/// The mean discharge of a day as a person estimates it, where the record is missing or no rating holds (ice, backwater).
#[derive(Clone, Copy, Debug, PartialEq, Eq)]
pub struct Estimate {
    /// The day.
    pub day: Day,
    /// The mean discharge, in millionths of a cubic foot per second: 0 to 10,000,000 cubic feet per second.
    pub discharge: Micro,
}

impl Keyed for Estimate {
    type Key = Day;

    ghost place = { λ e. e.day };

    ghost number = { λ d. d };

    fn key(&self) -> Day {
        self.day
    }

    fn is_before(&self, key: Day) -> bool {
        self.day < key
    }

    fn is_at(&self, key: Day) -> bool {
        self.day == key
    }
}

impl Estimate {
    /// Whether both are equal: by the day and the discharge.
    pub fn is_same(&self, other: &Estimate) -> bool
        ensures same { result ≡ same_estimate self.now other.now }
        ensures equal { result ≡ true ↔ self.now ≡ other.now }
    {
        self.day == other.day && self.discharge == other.discharge
    }
}
