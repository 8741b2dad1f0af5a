//! Why an edit is refused.

use approval::Objection;
use fixed_units::{Day, Second};
use station_inputs::{Counted, Obstacle};
use std::error::Error;
use std::fmt;

/// Which count an edit would raise past its limit, in the order in which they are asked.
#[derive(Clone, Copy, Debug, PartialEq, Eq)]
pub enum Which {
    /// The stations.
    Stations,
    /// The readings of all stations.
    Readings,
    /// The readings of a local day of a station.
    DayReadings,
    /// The ratings of a station.
    Ratings,
    /// The entries of a correction set, or of the shifts, of a station.
    Entries,
    /// The periods of a station.
    Periods,
    /// The measurements of a station.
    Measurements,
    /// The editions of a station.
    Editions,
}

impl From<Counted> for Which {
    ghost use Rattle.std.specs.Prelude.{◌≡◌};
    ghost use Rattle.office_inputs.specs.Refusals.{limit_of};

    ghost from_gives = { λ counted which. which ≡ limit_of counted };

    fn from(counted: Counted) -> Which {
        match counted {
            Counted::Ratings => Which::Ratings,
            Counted::Entries => Which::Entries,
            Counted::Periods => Which::Periods,
            Counted::Measurements => Which::Measurements,
            Counted::Editions => Which::Editions,
        }
    }
}

/// What a history has no room for.
#[derive(Clone, Copy, Debug, PartialEq, Eq)]
pub enum Full {
    /// The edit, and a publication of each day that would await one.
    Events,
    /// The cells of the days that were ever changed.
    Cells,
}

/// Why an edit is refused.
#[derive(Clone, Copy, Debug, PartialEq, Eq)]
pub enum Refusal {
    /// The reference is that of this accepted edit, which differs.
    RefReused(u64),
    /// The site is not kept.
    NoStation,
    /// The station to be added is kept already.
    StationExists,
    /// A count would pass its limit.
    Limit(Which),
    /// The station has no rating of the number that a period names.
    NoRating,
    /// The station has a rating of that number already.
    RatingExists,
    /// The period shares an instant with one that begins at another instant: the first of these begins here.
    PeriodOverlap(Second),
    /// A drop or a flagging finds nothing: no reading in its span, no entry at its instant in its series, no period of its start, no
    /// estimate of its day, or no measurement of its number.
    NoEntry,
    /// An approval names this day, which is not in review: the first such day.
    NotInReview(Day),
    /// An approval names this day, which the approver put in review: the first such day.
    SamePerson(Day),
    /// An approval names this day, which awaits the edit of this number: the first such day.
    Awaits(Day, u64),
    /// A rescission names this day, which is not approved: the first such day.
    NotApproved(Day),
    /// A review names this day, which is approved: the first such day.
    AlreadyApproved(Day),
    /// The edit would change the inputs of this day, which is approved: the first such day.
    Locked(Day),
    /// The history has no room.
    HistoryFull(Full),
    /// The edit has a comment, and a journal of the first format holds none.
    NoComments,
    /// The journal has no room.
    JournalFull,
    /// There is no memory for the edit.
    NoMemory,
    /// The disk of the journal failed: whether the edit may stand in the journal nevertheless.
    JournalFault(bool),
}

impl Refusal {
    /// What it says, in words.
    fn as_str(&self) -> &'static str {
        match self {
            Refusal::RefReused(..) => "the reference is that of another accepted edit",
            Refusal::NoStation => "the site is not kept",
            Refusal::StationExists => "the station is kept already",
            Refusal::Limit(..) => "a count would pass its limit",
            Refusal::NoRating => "the station has no such rating",
            Refusal::RatingExists => "the station has a rating of that number already",
            Refusal::PeriodOverlap(..) => "the period shares an instant with another one",
            Refusal::NoEntry => "nothing stands where the edit would act",
            Refusal::NotInReview(..) => "a day to be approved is not in review",
            Refusal::SamePerson(..) => "a day to be approved was put in review by the approver",
            Refusal::Awaits(..) => "a day to be approved awaits an edit",
            Refusal::NotApproved(..) => "a day whose approval is to be taken back is not approved",
            Refusal::AlreadyApproved(..) => "a day to be reviewed is approved",
            Refusal::Locked(..) => "an approved day would change",
            Refusal::HistoryFull(..) => "the history is full",
            Refusal::NoComments => "the journal's format holds no comment",
            Refusal::JournalFull => "the journal is full",
            Refusal::NoMemory => "there is no memory for the edit",
            Refusal::JournalFault(..) => "the disk of the journal failed",
        }
    }
}

impl fmt::Display for Refusal {
    fn fmt<W: fmt::Write>(&self, f: &mut fmt::Formatter<W>) -> fmt::Result {
        f.write_str(self.as_str())
    }
}

impl Error for Refusal {}

impl From<Obstacle> for Refusal {
    ghost use Rattle.std.specs.Prelude.{◌≡◌};
    ghost use Rattle.office_inputs.specs.Refusals.{refusal_for};

    ghost from_gives = { λ obstacle refusal. refusal ≡ refusal_for obstacle };

    fn from(obstacle: Obstacle) -> Refusal {
        match obstacle {
            Obstacle::NoRating => Refusal::NoRating,
            Obstacle::RatingExists => Refusal::RatingExists,
            Obstacle::PeriodOverlap(from) => Refusal::PeriodOverlap(from),
            Obstacle::NoEntry => Refusal::NoEntry,
        }
    }
}

impl From<Objection> for Refusal {
    ghost use Rattle.std.specs.Prelude.{◌≡◌};
    ghost use Rattle.office_inputs.specs.Refusals.{refusal_for_objection};

    ghost from_gives = { λ objection refusal. refusal ≡ refusal_for_objection objection };

    fn from(objection: Objection) -> Refusal {
        match objection {
            Objection::NotInReview(day) => Refusal::NotInReview(day),
            Objection::SamePerson(day) => Refusal::SamePerson(day),
            Objection::NotApproved(day) => Refusal::NotApproved(day),
            Objection::AlreadyApproved(day) => Refusal::AlreadyApproved(day),
        }
    }
}
