//! Why a text is no measurement notes.

ghost use Rattle.std.specs.Prelude.{◌≡◌};
ghost use Rattle.midsection.specs.Reading as reading;

use std::alloc::AllocFailed;
use thiserror::Error;

/// Why a text is no measurement notes. Records are counted from 1, that of the names included.
#[derive(Clone, Copy, Debug, PartialEq, Eq, Error)]
pub enum NotesFault {
    /// The first record is missing, or is not `distance,depth,v2,v6,v8`.
    #[error("the first record does not name the fields")]
    Header,
    /// That record has not five fields, or one that is needed or filled is no decimal of at most six places and at most 10,000,000 either way.
    #[error("record {0} lacks a number")]
    Number(u64),
    /// A number of that record is out of its range.
    #[error("record {0} has a number out of range")]
    Range(u64),
    /// The distance of that record is not above the one before.
    #[error("the distance in record {0} does not rise")]
    Order(u64),
    /// The velocities of that record are those of no method.
    #[error("the velocities in record {0} are those of no method")]
    Method(u64),
    /// There are fewer than 3 verticals, or more than 200.
    #[error("there are not 3 to 200 verticals")]
    Count,
    /// The total is below 0, or above 10,000,000 cubic feet per second.
    #[error("the total is no discharge")]
    Total,
    /// There was no memory.
    #[error("there is no memory for the notes")]
    NoMemory,
}

impl NotesFault {
    /// Its name, as it is told.
    pub fn code(&self) -> &'static str
        ensures { result.now ≡ reading.code_of self.now }
    {
        match self {
            NotesFault::Header => "Header",
            NotesFault::Number(_) => "Number",
            NotesFault::Range(_) => "Range",
            NotesFault::Order(_) => "Order",
            NotesFault::Method(_) => "Method",
            NotesFault::Count => "Count",
            NotesFault::Total => "Total",
            NotesFault::NoMemory => "NoMemory",
        }
    }

    /// The record of the fault; 0 where it is none of a record.
    pub fn record_number(&self) -> u64
        ensures { result ≡ reading.record_of self.now }
    {
        match self {
            NotesFault::Number(number)
            | NotesFault::Range(number)
            | NotesFault::Order(number)
            | NotesFault::Method(number) => *number,
            NotesFault::Header | NotesFault::Count | NotesFault::Total | NotesFault::NoMemory => 0,
        }
    }
}

impl From<csv::Error> for NotesFault {
    ghost use Rattle.midsection.specs.declared.faults.NotesFault.TheVariants.{NoMemory};

    ghost from_gives = { λ e f. f ≡ NoMemory };

    fn from(_error: csv::Error) -> NotesFault {
        NotesFault::NoMemory
    }
}

impl<T: Drop> From<AllocFailed<T>> for NotesFault {
    ghost use Rattle.midsection.specs.declared.faults.NotesFault.TheVariants.{NoMemory};

    ghost from_gives = { λ e f. f ≡ NoMemory };

    fn from(_error: AllocFailed<T>) -> NotesFault {
        NotesFault::NoMemory
    }
}
