//! An edit: what it changes, of which station, by whom, under which reference and why.

ghost use Rattle.std.specs.Prelude.{◌≡◌};
ghost use Rattle.edits.specs.Lawful.{IsLawful};
ghost use Rattle.edits.specs.Single.{IsLawful-prop};

use crate::comments::Comment;
use crate::decisions::Decision;
use crate::estimates::Estimate;
use crate::measurements::Measurement;
use crate::names::Name;
use crate::senders::{By, Ref};
use curves::Curve;
use fixed_units::{Day, Flag, RoundingArray, Second, Site};
use ratings::{Period, SharedTable};
use readings::ReadingList;

/// What an edit changes.
#[derive(Drop)]
pub enum What {
    /// Adds the station, which has no readings then.
    AddStation {
        /// What the station is called.
        name: Name,
        /// The text of its zone, which it keeps.
        zone: Name,
        /// The gap tolerance in minutes, 1 to 720: the greatest distance of two readings over which a line is drawn.
        gap: u32,
        /// The rounding array for stages.
        stage_array: RoundingArray,
        /// The rounding array for discharges.
        discharge_array: RoundingArray,
    },
    /// Sets all of the station but its zone.
    SetStation {
        /// What the station is called.
        name: Name,
        /// The gap tolerance in minutes, 1 to 720: the greatest distance of two readings over which a line is drawn.
        gap: u32,
        /// The rounding array for stages.
        stage_array: RoundingArray,
        /// The rounding array for discharges.
        discharge_array: RoundingArray,
    },
    /// Puts each reading in place of the one at its instant, with its flag.
    PutReadings {
        /// The readings, 1 to 100,000, rising by instant: stages at stamps, of any flag.
        readings: ReadingList,
    },
    /// Takes out every reading from an instant to another, both included.
    DropReadings {
        /// The first instant: a stamp.
        from: Second,
        /// The last instant: a stamp that is not before the first.
        to: Second,
    },
    /// Flags every reading from an instant to another, both included.
    FlagReadings {
        /// The first instant: a stamp.
        from: Second,
        /// The last instant: a stamp that is not before the first.
        to: Second,
        /// The flag that each of them has then.
        flag: Flag,
    },
    /// Puts an entry of a correction set in place of the one at its instant.
    PutCorrection {
        /// The number of the set, 1 to 3.
        set: u8,
        /// The instant from which the entry governs: a stamp.
        at: Second,
        /// The correction for each raw stage: amounts of at most 1,000 feet either way.
        curve: Curve,
        /// Whether the correction goes over to that of the next entry in a straight line.
        prorate: bool,
    },
    /// Takes the entry at an instant out of a correction set.
    DropCorrection {
        /// The number of the set, 1 to 3.
        set: u8,
        /// The instant of the entry: a stamp.
        at: Second,
    },
    /// Puts an entry of the shifts in place of the one at its instant.
    PutShift {
        /// The instant from which the entry governs: a stamp.
        at: Second,
        /// The shift for each stage: amounts of at most 1,000 feet either way.
        curve: Curve,
        /// Whether the shift goes over to that of the next entry in a straight line.
        prorate: bool,
    },
    /// Takes the entry at an instant out of the shifts.
    DropShift {
        /// The instant of the entry: a stamp.
        at: Second,
    },
    /// Adds a rating, which stays as it is.
    AddRating {
        /// The number of the rating, 1 to 999,999.
        rating: u32,
        /// Its table: stages of at most 100,000 feet either way, and discharges of 0 to 10,000,000 cubic feet per second.
        table: SharedTable,
    },
    /// Puts a period, in which a rating is in force, in place of the one of its start.
    PutPeriod {
        /// The period: of a rating of a number from 1 to 999,999, from a stamp until a later one, or without end.
        period: Period,
    },
    /// Takes out the period that begins at an instant.
    DropPeriod {
        /// The start of the period: a stamp.
        from: Second,
    },
    /// Puts an estimate of a day's mean discharge in place of the one of its day.
    PutEstimate {
        /// The estimate.
        estimate: Estimate,
    },
    /// Takes out the estimate of a day.
    DropEstimate {
        /// The day.
        day: Day,
    },
    /// Puts a field measurement in place of the one of its number.
    PutMeasurement {
        /// The measurement.
        measurement: Measurement,
    },
    /// Takes out the field measurement of a number.
    DropMeasurement {
        /// The number, from 1.
        number: u32,
    },
    /// Puts the days from one to another, both included, in review.
    Review {
        /// The first day.
        from: Day,
        /// The last day: not before the first, and at most 366 days with it.
        to: Day,
    },
    /// Decides on the days from one to another, both included.
    Decide {
        /// The first day.
        from: Day,
        /// The last day: not before the first, and at most 366 days with it.
        to: Day,
        /// What is decided.
        decision: Decision,
    },
    /// Sets from which cover on a mean is published, from a day on, in place of what was set for that day.
    SetEdition {
        /// The first day.
        day: Day,
        /// The least cover in minutes, 1 to 1,440, or `None` for the whole day.
        least: Option<u32>,
    },
}

/// An edit of the record.
pub struct Edit {
    /// Who makes it.
    pub by: By,
    /// The reference under which it is sent.
    pub reference: Ref,
    /// The site whose record it changes.
    pub site: Site,
    /// Why it was made. Nothing that an edit does depends on it.
    pub comment: Comment,
    /// What it changes.
    pub what: What,
    ghost lawful: { IsLawful what } by { IsLawful-prop what },
}

impl Edit {
    /// The same edit with this comment in place of its own.
    pub fn with_comment(self, comment: Comment) -> Edit
        ensures parts { (result.by ≡ self.by) × (result.reference ≡ self.reference) × (result.site ≡ self.site) × (result.what ≡ self.what) }
        ensures comment { result.comment ≡ comment }
    {
        let Edit {
            by,
            reference,
            site,
            comment: _comment,
            what,
        } = self;
        Edit {
            by,
            reference,
            site,
            comment,
            what,
        }
    }
}

/// By hand, so that a drop is one call wherever an edit is dropped, and not one path for each kind of edit.
impl Drop for Edit {
    fn drop(self) {
        let Edit {
            by: _,
            reference: _,
            site: _,
            comment: _comment,
            what: _what,
        } = self;
    }
}
