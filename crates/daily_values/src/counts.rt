//! How many readings a day has, and how many of them have no discharge.

ghost use Rattle.std.specs.Prelude.{◌≡◌, ◌+◌, ◌≤◌, ◌&&◌, int_le, int_lt, if◌then◌else◌};
ghost use Rattle.fixed_units.specs.Calendar.{longest_day};
ghost use Rattle.unit_discharge.specs.declared.unit_values.Missing.TheVariants as missing;
ghost use Rattle.daily_values.specs.DayValue.{is_missing, is_of_day};

use day_inputs::DayParts;
use fixed_units::Second;
use unit_discharge::{Missing, Unit};

/// The used readings of a day, without those of its neighbours, and those of them that have no discharge, by the first reason
/// that holds: at most 100,800 each, since instants are whole seconds.
#[derive(Clone, Copy, Debug, PartialEq, Eq)]
pub struct Counts {
    /// How many used readings the day has.
    pub readings: u32,
    /// How many of them are flagged: the rating does not hold for them (backwater, ice).
    pub affected: u32,
    /// How many have no rating in force.
    pub no_rating: u32,
    /// How many have a stage with its shift below the first one of the rating.
    pub below: u32,
    /// How many have one above the last one of the rating.
    pub above: u32,
}

impl Counts {
    ghost use Rattle.std.specs.Prelude.{◌≡◌};

    /// The counts of no reading.
    pub(crate) fn none() -> Counts
        ensures { result ≡ record { readings = 0; affected = 0; no_rating = 0; below = 0; above = 0 } }
    {
        Counts {
            readings: 0,
            affected: 0,
            no_rating: 0,
            below: 0,
            above: 0,
        }
    }
}

/// The counts with a unit value more, which counts where it is of the day.
pub(crate) fn add_unit(counts: Counts, parts: &DayParts, unit: &Unit) -> Counts
    requires readings { counts.readings ≤ longest_day }
    requires affected { counts.affected ≤ longest_day }
    requires no_rating { counts.no_rating ≤ longest_day }
    requires below { counts.below ≤ longest_day }
    requires above { counts.above ≤ longest_day }
    ensures readings { result.readings ≡ counts.readings + (if is_of_day parts.now unit.now then 1 else 0) }
    ensures affected { result.affected ≡ counts.affected + (if is_missing parts.now missing.Affected unit.now then 1 else 0) }
    ensures no_rating { result.no_rating ≡ counts.no_rating + (if is_missing parts.now missing.NoRating unit.now then 1 else 0) }
    ensures below { result.below ≡ counts.below + (if is_missing parts.now missing.Below unit.now then 1 else 0) }
    ensures above { result.above ≡ counts.above + (if is_missing parts.now missing.Above unit.now then 1 else 0) }
{
    if !is_within(parts, unit.at) {
        return counts;
    }
    let counts = Counts {
        readings: counts.readings + 1,
        ..counts
    };
    match unit.discharge {
        Ok(_) => counts,
        Err(Missing::Affected) => Counts {
            affected: counts.affected + 1,
            ..counts
        },
        Err(Missing::NoRating) => Counts {
            no_rating: counts.no_rating + 1,
            ..counts
        },
        Err(Missing::Below) => Counts {
            below: counts.below + 1,
            ..counts
        },
        Err(Missing::Above) => Counts {
            above: counts.above + 1,
            ..counts
        },
    }
}

/// Whether an instant is within the day.
pub(crate) fn is_within(parts: &DayParts, at: Second) -> bool
    ensures { result ≡ (int_le parts.now.from at && int_lt at parts.now.until) }
{
    parts.from <= at && at < parts.until
}
