//! A list of readings that is handed on whole, as the window of a day.

ghost use Rattle.std.specs.Prelude.{◌≡◌, List};

use fixed_units::Reading;
use std::marker::Model;

/// A list of readings. Contracts see the list.
#[derive(Drop)]
pub struct ReadingList {
    readings: Vec<Reading>,
}

impl Model for ReadingList {
    ghost use Rattle.std.specs.Prelude.{List};
    ghost use Rattle.fixed_units.specs.declared.readings.Reading.{Reading};

    ghost Value = { List Reading };

    ghost view = { λ l. l.readings.items };
}

impl ReadingList {
    /// The list of these readings.
    pub fn from_vec(readings: Vec<Reading>) -> ReadingList
        ensures { result ≡ readings.items }
    {
        ReadingList { readings }
    }

    /// The readings, given back without taking memory.
    pub fn into_vec(self) -> Vec<Reading>
        ensures { result.items ≡ self }
    {
        self.readings
    }

    /// The readings, in order.
    pub fn as_slice(&self) -> &[Reading]
        ensures { result.now ≡ self.now }
    {
        self.readings.as_slice()
    }
}
