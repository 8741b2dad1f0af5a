//! Field measurements of discharge.

ghost use Rattle.std.specs.Prelude.{◌≡◌, ◌↔◌, true};
ghost use Rattle.edits.specs.Same.{same_measurement};
ghost use Rattle.edits.specs.Grades.{grade_number, grade_of};

use fixed_units::{Micro, Second};
use rising::Keyed;

/// How good a field measurement is, as the person who made it says.
#[derive(Clone, Copy, Debug, PartialEq, Eq)]
pub enum Grade {
    /// Within 2 percent.
    Excellent,
    /// Within 5 percent.
    Good,
    /// Within 8 percent.
    Fair,
    /// Over 8 percent.
    Poor,
}

impl Grade {
    /// Its number in records: 0 to 3, the best first.
    pub fn number(self) -> u8
        ensures { result ≡ grade_number self }
    {
        match self {
            Grade::Excellent => 0,
            Grade::Good => 1,
            Grade::Fair => 2,
            Grade::Poor => 3,
        }
    }

    /// The grade of a number in records, or `None` exactly where none has it.
    pub fn of_number(number: u8) -> Option<Grade>
        ensures { result ≡ grade_of number }
    {
        match number {
            0 => Some(Grade::Excellent),
            1 => Some(Grade::Good),
            2 => Some(Grade::Fair),
            3 => Some(Grade::Poor),
            _ => None,
        }
    }
}

/// A field measurement of a discharge.
#[derive(Clone, Copy, Debug, PartialEq, Eq)]
pub struct Measurement {
    /// Its number, from 1.
    pub number: u32,
    /// When it was made: a stamp.
    pub at: Second,
    /// The gage height, in millionths of a foot: at most 100,000 feet either way.
    pub gage: Micro,
    /// The measured discharge, in millionths of a cubic foot per second: 0 to 10,000,000 cubic feet per second.
    pub discharge: Micro,
    /// How good it is.
    pub grade: Grade,
}

impl Keyed for Measurement {
    ghost use Rattle.std.specs.Prelude.{pos};

    type Key = u32;

    ghost place = { λ m. pos m.number };

    ghost number = { λ n. pos n };

    fn key(&self) -> u32 {
        self.number
    }

    fn is_before(&self, key: u32) -> bool {
        self.number < key
    }

    fn is_at(&self, key: u32) -> bool {
        self.number == key
    }
}

impl Measurement {
    /// Whether both are equal: by the number, the instant, the gage height, the discharge and the grade.
    pub fn is_same(&self, other: &Measurement) -> bool
        ensures same { result ≡ same_measurement self.now other.now }
        ensures equal { result ≡ true ↔ self.now ≡ other.now }
    {
        self.number == other.number
            && self.at == other.at
            && self.gage == other.gage
            && self.discharge == other.discharge
            && self.grade.number() == other.grade.number()
    }
}
