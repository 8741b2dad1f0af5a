//! What the commands with many options ask.

use edits::Grade;
use fixed_units::{Day, Micro, Second, Site};

/// To put the unit values of an RDB text on the input.
#[derive(Clone, Copy, PartialEq, Eq)]
pub struct ImportOrder<'a> {
    /// The journal's name.
    pub journal: &'a str,
    /// The site of the unit values.
    pub site: Site,
    /// The name of their column, which is not empty.
    pub column: &'a str,
    /// The initials of the person who puts them: 1 to 8 ASCII letters.
    pub by: &'a str,
    /// What the references begin with under which they are put: 1 to 30 ASCII letters, digits and `-`.
    pub reference: &'a str,
}

/// To write the daily values of a site.
#[derive(Clone, Copy, PartialEq, Eq)]
pub struct DailyOrder<'a> {
    /// The journal's name.
    pub journal: &'a str,
    /// The site.
    pub site: Site,
    /// The first day, as it is spelled.
    pub from: &'a str,
    /// The first day.
    pub first: Day,
    /// The last day: not before the first, and at most 365 days behind it.
    pub last: Day,
    /// How many turns are made before, at most 999,999,999.
    pub turns: u32,
}

/// To write the table of a water year.
#[derive(Clone, Copy, PartialEq, Eq)]
pub struct WaterOrder<'a> {
    /// The journal's name.
    pub journal: &'a str,
    /// The site.
    pub site: Site,
    /// The year in which the water year ends, 1901 to 2099.
    pub year: u16,
    /// How many turns are made before, at most 999,999,999.
    pub turns: u32,
}

/// To put the measurement that the notes on the input tell of.
#[derive(Clone, Copy, PartialEq, Eq)]
pub struct NotesOrder<'a> {
    /// The journal's name.
    pub journal: &'a str,
    /// The site.
    pub site: Site,
    /// The measurement's number, 1 to 999,999,999.
    pub number: u32,
    /// When it was made: a stamp.
    pub at: Second,
    /// The gage height, in millionths of a foot: at most 100,000 feet either way.
    pub gage: Micro,
    /// How good it is.
    pub grade: Grade,
    /// The initials of the person who puts it: 1 to 8 ASCII letters.
    pub by: &'a str,
    /// The reference under which it is put: 1 to 40 ASCII letters, digits and `-`.
    pub reference: &'a str,
}
