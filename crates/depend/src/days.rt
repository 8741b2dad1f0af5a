//! A list of days.

ghost use Rattle.std.specs.Prelude.{◌≡◌, []};

use fixed_units::Day;
use std::alloc::Global;
use std::marker::Model;

/// A list of days. Contracts see the list.
#[derive(Drop)]
pub struct DayList {
    days: Vec<Day>,
}

impl Model for DayList {
    ghost use Rattle.std.specs.Prelude.{List, ℤ};

    ghost Value = { List ℤ };

    ghost view = { λ l. l.days.items };
}

impl DayList {
    /// No days, which takes no memory.
    pub fn new(alloc: Global) -> DayList
        ensures { result ≡ [] }
    {
        DayList {
            days: Vec::new(alloc),
        }
    }

    /// The list of these days.
    pub fn from_vec(days: Vec<Day>) -> DayList
        ensures { result ≡ days.items }
    {
        DayList { days }
    }

    /// The days, in order.
    pub fn as_slice(&self) -> &[Day]
        ensures { result.now ≡ self.now }
    {
        self.days.as_slice()
    }

    /// The days, given back without taking memory.
    pub fn into_vec(self) -> Vec<Day>
        ensures { result.items ≡ self }
    {
        self.days
    }
}
