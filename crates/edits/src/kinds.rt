//! The kinds of edits: of each its name, as bodies have it, and its number, as records do.

ghost use Rattle.std.specs.Prelude.{◌≡◌, ◌==◌, bytes_eq, find, Some};
ghost use Rattle.edits.specs.declared.kinds.Kind.{Kind};
ghost use Rattle.edits.specs.Kinds.{kind_name, kind_named, kind_number, kind_numbered, kind_of};

use crate::content::What;

/// The kind of an edit.
#[derive(Clone, Copy, Debug, PartialEq, Eq)]
pub enum Kind {
    /// Adds a station.
    AddStation,
    /// Sets a station.
    SetStation,
    /// Puts readings.
    PutReadings,
    /// Takes out the readings of a span.
    DropReadings,
    /// Flags the readings of a span.
    FlagReadings,
    /// Puts an entry of a correction set.
    PutCorrection,
    /// Takes out an entry of a correction set.
    DropCorrection,
    /// Puts an entry of the shifts.
    PutShift,
    /// Takes out an entry of the shifts.
    DropShift,
    /// Adds a rating.
    AddRating,
    /// Puts a period.
    PutPeriod,
    /// Takes out a period.
    DropPeriod,
    /// Puts an estimate of a day.
    PutEstimate,
    /// Takes out an estimate of a day.
    DropEstimate,
    /// Puts a field measurement.
    PutMeasurement,
    /// Takes out a field measurement.
    DropMeasurement,
    /// Puts days in review.
    Review,
    /// Decides on days.
    Decide,
    /// Sets the edition from a day on.
    SetEdition,
}

/// The kinds of edits, by number.
const KINDS: [Kind; 19] = [
    Kind::AddStation,
    Kind::SetStation,
    Kind::PutReadings,
    Kind::DropReadings,
    Kind::FlagReadings,
    Kind::PutCorrection,
    Kind::DropCorrection,
    Kind::PutShift,
    Kind::DropShift,
    Kind::AddRating,
    Kind::PutPeriod,
    Kind::DropPeriod,
    Kind::PutEstimate,
    Kind::DropEstimate,
    Kind::PutMeasurement,
    Kind::DropMeasurement,
    Kind::Review,
    Kind::Decide,
    Kind::SetEdition,
];

impl Kind {
    /// The name of the kind.
    pub fn name(self) -> &'static [u8]
        ensures { result.now ≡ kind_name self }
    {
        match self {
            Kind::AddStation => b"AddStation",
            Kind::SetStation => b"SetStation",
            Kind::PutReadings => b"PutReadings",
            Kind::DropReadings => b"DropReadings",
            Kind::FlagReadings => b"FlagReadings",
            Kind::PutCorrection => b"PutCorrection",
            Kind::DropCorrection => b"DropCorrection",
            Kind::PutShift => b"PutShift",
            Kind::DropShift => b"DropShift",
            Kind::AddRating => b"AddRating",
            Kind::PutPeriod => b"PutPeriod",
            Kind::DropPeriod => b"DropPeriod",
            Kind::PutEstimate => b"PutEstimate",
            Kind::DropEstimate => b"DropEstimate",
            Kind::PutMeasurement => b"PutMeasurement",
            Kind::DropMeasurement => b"DropMeasurement",
            Kind::Review => b"Review",
            Kind::Decide => b"Decide",
            Kind::SetEdition => b"SetEdition",
        }
    }

    /// The number of the kind.
    pub fn number(self) -> u8
        ensures { result ≡ kind_number self }
    {
        match self {
            Kind::AddStation => 1,
            Kind::SetStation => 2,
            Kind::PutReadings => 3,
            Kind::DropReadings => 4,
            Kind::FlagReadings => 5,
            Kind::PutCorrection => 6,
            Kind::DropCorrection => 7,
            Kind::PutShift => 8,
            Kind::DropShift => 9,
            Kind::AddRating => 10,
            Kind::PutPeriod => 11,
            Kind::DropPeriod => 12,
            Kind::PutEstimate => 13,
            Kind::DropEstimate => 14,
            Kind::PutMeasurement => 15,
            Kind::DropMeasurement => 16,
            Kind::Review => 17,
            Kind::Decide => 18,
            Kind::SetEdition => 19,
        }
    }

    /// The kind of a name, or `None` exactly where there is no such kind.
    pub fn named(name: &[u8]) -> Option<Kind>
        ensures { result ≡ kind_named name.now }
    {
        first_named(name, &KINDS)
    }

    /// The kind of a number, or `None` exactly where there is no such kind.
    pub fn numbered(number: u8) -> Option<Kind>
        ensures { result ≡ kind_numbered number }
    {
        first_numbered(number, &KINDS)
    }
}

/// The first of these kinds that has that name.
fn first_named(name: &[u8], kinds: &[Kind]) -> Option<Kind>
    ensures { result ≡ find (λ kind. bytes_eq name.now (kind_name kind)) kinds.now }
{
    kinds.iter().copied().find(|kind| name == kind.name())
}

/// The first of these kinds that has that number.
fn first_numbered(number: u8, kinds: &[Kind]) -> Option<Kind>
    ensures { result ≡ find (λ kind. number == kind_number kind) kinds.now }
{
    kinds.iter().copied().find(|kind| number == kind.number())
}

impl What {
    /// The kind of what an edit changes.
    pub fn kind(&self) -> Kind
        ensures { result ≡ kind_of self.now }
    {
        match self {
            What::AddStation { .. } => Kind::AddStation,
            What::SetStation { .. } => Kind::SetStation,
            What::PutReadings { .. } => Kind::PutReadings,
            What::DropReadings { .. } => Kind::DropReadings,
            What::FlagReadings { .. } => Kind::FlagReadings,
            What::PutCorrection { .. } => Kind::PutCorrection,
            What::DropCorrection { .. } => Kind::DropCorrection,
            What::PutShift { .. } => Kind::PutShift,
            What::DropShift { .. } => Kind::DropShift,
            What::AddRating { .. } => Kind::AddRating,
            What::PutPeriod { .. } => Kind::PutPeriod,
            What::DropPeriod { .. } => Kind::DropPeriod,
            What::PutEstimate { .. } => Kind::PutEstimate,
            What::DropEstimate { .. } => Kind::DropEstimate,
            What::PutMeasurement { .. } => Kind::PutMeasurement,
            What::DropMeasurement { .. } => Kind::DropMeasurement,
            What::Review { .. } => Kind::Review,
            What::Decide { .. } => Kind::Decide,
            What::SetEdition { .. } => Kind::SetEdition,
        }
    }
}

/// Each kind has a number and a name of its own: it is the kind of both.
pub fn kinds_are_told_apart()
    ensures number { (kind : Kind) → kind_numbered (kind_number kind) ≡ Some kind }
    ensures name { (kind : Kind) → kind_named (kind_name kind) ≡ Some kind }
{}
