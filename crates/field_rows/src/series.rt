//! Calls of `curves` on entries of a series, and how rows write these.

use crate::curve_points::{curve, push_place};
use crate::notation::{Stop, count, instant, quantity, three, told};
use curves::{CorrectionSets, Entry, NoEntry, Series, Shifts};
use fixed_units::{NoMemory, Text, write_micro};
use row_lines::parted;
use std::alloc::Global;

/// Writes what comes of a call.
pub fn answer(alloc: Global, word: &str, rest: &str, came: &mut Text) -> Result<(), NoMemory> {
    match word {
        "room" => told(room(alloc, rest, came), came),
        "set" => told(set(alloc, rest, came), came),
        "shift" => told(shift(alloc, rest, came), came),
        _ => told(of_series(alloc, word, rest, came), came),
    }
}

/// A call on a series: `WORD SERIES ARGUMENTS`.
fn of_series(alloc: Global, word: &str, rest: &str, came: &mut Text) -> Result<(), Stop> {
    let mut series = Series::new(alloc);
    answer_of(alloc, &mut series, word, rest, came)
}

fn answer_of(
    alloc: Global,
    series: &mut Series,
    word: &str,
    rest: &str,
    came: &mut Text,
) -> Result<(), Stop> {
    let (entries, rest) = parted(rest);
    put_entries(alloc, entries, series)?;
    match word {
        "at" => value(series, rest, came),
        "entries" => Ok(push_place(series.entries().len(), came)?),
        "taken" => taken(series, rest, came),
        "bearing" => bearing(series, rest, came),
        _ => Ok(came.push_slice(b"no such call")?),
    }
}

/// Puts the entries of a text, one behind another, with semicolons between them; `-` is none.
pub fn put_entries(alloc: Global, text: &str, series: &mut Series) -> Result<(), Stop> {
    if text == "-" {
        return Ok(());
    }
    for piece in text.split(';') {
        put(series, entry(alloc, piece)?)?;
    }
    Ok(())
}

fn put(series: &mut Series, entry: Entry) -> Result<(), NoMemory> {
    series.reserve(1)?;
    series.put(entry);
    Ok(())
}

/// An entry: its instant, `=`, and its curve; one that is prorated has a `~` before it.
pub fn entry(alloc: Global, text: &str) -> Result<Entry, Stop> {
    match text.strip_prefix('~') {
        Some(text) => entry_at(alloc, text, true),
        None => entry_at(alloc, text, false),
    }
}

fn entry_at(alloc: Global, text: &str, prorate: bool) -> Result<Entry, Stop> {
    let Some((at, points)) = text.split_once('=') else {
        return Err(Stop::NotWellFormed);
    };
    Ok(Entry::new(instant(at)?, curve(alloc, points)?, prorate))
}

/// `at SERIES INSTANT STAGE`: the amount of the series.
fn value(series: &Series, rest: &str, came: &mut Text) -> Result<(), Stop> {
    let (at, stage) = parted(rest);
    let value = series.value(instant(at)?, quantity(stage)?);
    Ok(write_micro(value, came)?)
}

/// `taken SERIES INSTANT,INSTANT..`: what comes of each that is taken out, and how many entries are left.
fn taken(series: &mut Series, rest: &str, came: &mut Text) -> Result<(), Stop> {
    for at in rest.split(',') {
        let end = series.take_out(instant(at)?);
        push_taken(end, came)?;
    }
    Ok(push_place(series.entries().len(), came)?)
}

/// Writes whether something was taken out, with a blank behind it.
pub fn push_taken(end: Result<(), NoEntry>, came: &mut Text) -> Result<(), NoMemory> {
    match end {
        Ok(()) => came.push_slice(b"taken "),
        Err(NoEntry) => came.push_slice(b"none "),
    }
}

/// `bearing SERIES FIRST LAST`: from where to where the entries stand that bear on the time between two instants.
fn bearing(series: &Series, rest: &str, came: &mut Text) -> Result<(), Stop> {
    let (first, last) = parted(rest);
    let (from, until) = series.bearing(instant(first)?, instant(last)?);
    push_place(from, came)?;
    came.push_slice(b" ")?;
    Ok(push_place(until, came)?)
}

/// `room COUNT`: whether a series has room for so many entries when it is reserved.
fn room(alloc: Global, rest: &str, came: &mut Text) -> Result<(), Stop> {
    let mut series = Series::new(alloc);
    push_room(&mut series, rest, came)
}

fn push_room(series: &mut Series, rest: &str, came: &mut Text) -> Result<(), Stop> {
    let many = usize::try_from(count(rest)?).unwrap_or(usize::MAX);
    series.reserve(many)?;
    if series.spare() < many {
        return Ok(came.push_slice(b"too little")?);
    }
    Ok(came.push_slice(b"enough")?)
}

/// `set NUMBER SERIES SERIES SERIES`: the amount of the set of that number at the instant 0 and a stage of 0, where the three sets have these
/// entries.
fn set(alloc: Global, rest: &str, came: &mut Text) -> Result<(), Stop> {
    let mut sets = CorrectionSets::new(alloc);
    of_sets(alloc, &mut sets, rest, came)
}

fn of_sets(
    alloc: Global,
    sets: &mut CorrectionSets,
    rest: &str,
    came: &mut Text,
) -> Result<(), Stop> {
    let (number, rest) = parted(rest);
    put_sets(alloc, sets, rest)?;
    match number {
        "1" => value(sets.set(1), "0 0", came),
        "2" => value(sets.set(2), "0 0", came),
        "3" => value(sets.set(3), "0 0", came),
        _ => Err(Stop::NotWellFormed),
    }
}

/// Puts the entries of three sets.
pub fn put_sets(alloc: Global, sets: &mut CorrectionSets, text: &str) -> Result<(), Stop> {
    let (first, second, third) = three(text);
    put_entries(alloc, first, sets.set_mut(1))?;
    put_entries(alloc, second, sets.set_mut(2))?;
    put_entries(alloc, third, sets.set_mut(3))
}

/// `shift SERIES`: the shift at the instant 0 and a stage of 0.
fn shift(alloc: Global, rest: &str, came: &mut Text) -> Result<(), Stop> {
    let mut shifts = Shifts::new(alloc);
    of_shifts(alloc, &mut shifts, rest, came)
}

fn of_shifts(alloc: Global, shifts: &mut Shifts, rest: &str, came: &mut Text) -> Result<(), Stop> {
    put_entries(alloc, rest, shifts.series_mut())?;
    value(shifts.series(), "0 0", came)
}
