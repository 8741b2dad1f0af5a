//! Calls of `unit_discharge`, and which entries and parts of ratings may stand in them.

ghost use Rattle.std.specs.Prelude.{All, IsTrue, ◌<ℤ◌};
ghost use Rattle.curves.specs.Entries.{AreAmounts, IsSeries};
ghost use Rattle.fixed_units.specs.Quantities.{IsAmount};
ghost use Rattle.ratings.specs.Parts.{AreParts};
ghost use Rattle.rating_tables.specs.Table.{IsRating};

use crate::notation::{Stop, push_whole, told};
use crate::reading_lists::reading;
use crate::series::{put_entries, put_sets};
use curves::{CorrectionSets, Entry, Shifts};
use fixed_units::{Micro, NoMemory, Reading, Text, is_amount, is_stage, write_micro};
use ratings::PeriodPart;
use row_lines::parted;
use std::alloc::Global;
use unit_discharge::{Missing, Unit, unit};

fn has_amounts(entry: &Entry) -> bool
    ensures { IsTrue result → All (λ p. IsAmount p.1) entry.now.curve }
{
    entry
        .curve
        .points()
        .iter()
        .all(|point| is_amount(point.1.get()))
}

fn are_amounts(entries: &[Entry]) -> bool
    ensures { IsTrue result → AreAmounts entries.now }
{
    entries.iter().all(|entry| has_amounts(entry))
}

/// Whether at most one entry stands there, and its amounts are in range.
pub fn is_series(entries: &[Entry]) -> bool
    ensures { IsTrue result → IsSeries entries.now }
{
    entries.len() < 2 && are_amounts(entries)
}

fn is_part(part: &PeriodPart) -> bool
    ensures rating { IsTrue result → IsRating part.now.rows }
    ensures ordered { IsTrue result → part.now.from <ℤ part.now.until }
{
    part.table.table().is_rating() && part.from < part.until
}

/// Whether at most one part stands there, with a rating's table.
pub fn are_parts(parts: &[PeriodPart]) -> bool
    ensures { IsTrue result → AreParts parts.now }
{
    parts.len() < 2 && parts.iter().all(|part| is_part(part))
}

/// Writes what comes of `unit SHIFTS READING SERIES SERIES SERIES`, with three series of corrections: all that the reading gives.
pub fn answer(alloc: Global, word: &str, rest: &str, came: &mut Text) -> Result<(), NoMemory> {
    match word {
        "unit" => told(with_shifts(alloc, rest, came), came),
        _ => came.push_slice(b"no such call"),
    }
}

fn with_shifts(alloc: Global, rest: &str, came: &mut Text) -> Result<(), Stop> {
    let mut shifts = Shifts::new(alloc);
    with_sets(alloc, &mut shifts, rest, came)
}

fn with_sets(alloc: Global, shifts: &mut Shifts, rest: &str, came: &mut Text) -> Result<(), Stop> {
    let mut sets = CorrectionSets::new(alloc);
    unit_with(alloc, &mut sets, shifts, rest, came)
}

fn unit_with(
    alloc: Global,
    sets: &mut CorrectionSets,
    shifts: &mut Shifts,
    rest: &str,
    came: &mut Text,
) -> Result<(), Stop> {
    let (entries, rest) = parted(rest);
    let (listed, rest) = parted(rest);
    put_entries(alloc, entries, shifts.series_mut())?;
    put_sets(alloc, sets, rest)?;
    unit_of(sets, shifts.series().entries(), reading(0, listed)?, came)
}

fn unit_of(
    sets: &CorrectionSets,
    shifts: &[Entry],
    reading: Reading,
    came: &mut Text,
) -> Result<(), Stop> {
    let (first, second, third) = (sets.set(1), sets.set(2), sets.set(3));
    match unit_if(
        first.entries(),
        second.entries(),
        third.entries(),
        shifts,
        reading,
    ) {
        Some(unit) => Ok(push_unit(unit, came)?),
        None => Err(Stop::NotWellFormed),
    }
}

fn unit_if(
    first: &[Entry],
    second: &[Entry],
    third: &[Entry],
    shifts: &[Entry],
    reading: Reading,
) -> Option<Unit> {
    let none: &[PeriodPart] = &[];
    if !is_series(first) || !is_series(second) || !is_series(third) || !is_series(shifts) {
        return None;
    }
    if !is_stage(reading.raw.get()) || !are_parts(none) {
        return None;
    }
    Some(unit(first, second, third, shifts, none, reading))
}

/// The instant, the raw stage, the correction, the stage, the shift, and the discharge or why there is none.
fn push_unit(unit: Unit, came: &mut Text) -> Result<(), NoMemory> {
    push_whole(i128::from(unit.at.get()), came)?;
    push_next_quantity(unit.raw, came)?;
    push_next_quantity(unit.correction, came)?;
    push_next_quantity(unit.stage, came)?;
    push_next_quantity(unit.shift, came)?;
    came.push_slice(b" ")?;
    push_discharge(unit.discharge, came)
}

fn push_next_quantity(value: Micro, came: &mut Text) -> Result<(), NoMemory> {
    came.push_slice(b" ")?;
    write_micro(value, came)
}

fn push_discharge(discharge: Result<Micro, Missing>, came: &mut Text) -> Result<(), NoMemory> {
    match discharge {
        Ok(discharge) => write_micro(discharge, came),
        Err(Missing::Affected) => came.push_slice(b"affected"),
        Err(Missing::NoRating) => came.push_slice(b"no rating"),
        Err(Missing::Below) => came.push_slice(b"below"),
        Err(Missing::Above) => came.push_slice(b"above"),
    }
}
