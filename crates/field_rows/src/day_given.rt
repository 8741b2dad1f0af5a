//! How rows write the inputs of a day: words of a key, `=` and a value, in any order. What is not said is as usual.

use crate::notation::{Stop, after, count, instant, keep, quantity, there};
use crate::periods::period;
use crate::rated::shared;
use crate::reading_lists::reading_list;
use crate::series::entry;
use curves::{Entry, EntryList};
use day_inputs::{DayInputs, DayParts};
use fixed_units::{Micro, NoMemory, Reading, RoundingArray, Second};
use ratings::{PartList, PeriodPart};
use readings::ReadingList;
use std::alloc::Global;

/// What is said of a day but for its lists.
#[derive(Clone, Copy)]
pub struct Frame {
    /// The gap tolerance in minutes: `gap=`, usually 720.
    pub gap: u32,
    /// The day's first instant: `origin=`, usually that of 2024-01-05 at UTC-5. Readings count their seconds from it.
    pub from: Second,
    /// Its end: `length=` in seconds, usually 86400.
    pub until: Second,
    /// The rounding array of stages: `stages=`, usually 9999999992.
    pub stages: RoundingArray,
    /// The rounding array of discharges: `discharges=`, usually 0222233332.
    pub discharges: RoundingArray,
    /// The estimate: `estimate=`, usually none.
    pub estimate: Option<Micro>,
    /// The least cover in minutes: `least=`, usually none.
    pub least: Option<u32>,
}

/// What stands behind a key.
pub fn behind<'a>(text: &'a str, key: &str, usual: &'a str) -> &'a str {
    for word in text.split(' ') {
        if let Some(value) = word.strip_prefix(key) {
            return value;
        }
    }
    usual
}

/// What is said of a day but for its lists.
pub fn frame_of(text: &str) -> Result<Frame, Stop> {
    let from = instant(behind(text, "origin=", "2024-01-05T05:00:00Z"))?;
    Ok(Frame {
        gap: count(behind(text, "gap=", "720"))?,
        from,
        until: after(from.get(), behind(text, "length=", "86400"))?,
        stages: array(behind(text, "stages=", "9999999992"))?,
        discharges: array(behind(text, "discharges=", "0222233332"))?,
        estimate: estimate(behind(text, "estimate=", "-"))?,
        least: least(behind(text, "least=", "-"))?,
    })
}

fn array(text: &str) -> Result<RoundingArray, Stop> {
    there(RoundingArray::read(text.as_bytes()))
}

fn estimate(text: &str) -> Result<Option<Micro>, Stop> {
    if text == "-" {
        return Ok(None);
    }
    Ok(Some(quantity(text)?))
}

fn least(text: &str) -> Result<Option<u32>, Stop> {
    if text == "-" {
        return Ok(None);
    }
    Ok(Some(count(text)?))
}

/// The inputs of a day, or none where the text is `empty`.
pub fn inputs(alloc: Global, text: &str) -> Result<DayInputs, Stop> {
    if text == "empty" {
        return Ok(DayInputs::Empty);
    }
    let mut parts = without_lists(alloc, frame_of(text)?);
    put_lists(alloc, text, &mut parts)?;
    Ok(DayInputs::Day(parts))
}

fn without_lists(alloc: Global, frame: Frame) -> DayParts {
    DayParts {
        gap: frame.gap,
        stage_array: frame.stages,
        discharge_array: frame.discharges,
        from: frame.from,
        until: frame.until,
        window: ReadingList::from_vec(Vec::new(alloc)),
        first: EntryList::from_vec(Vec::new(alloc)),
        second: EntryList::from_vec(Vec::new(alloc)),
        third: EntryList::from_vec(Vec::new(alloc)),
        shifts: EntryList::from_vec(Vec::new(alloc)),
        periods: PartList::from_vec(Vec::new(alloc)),
        estimate: frame.estimate,
        least: frame.least,
    }
}

/// The lists of a day: `readings=`, `set=` for the second set of corrections, `shifts=` and `rating=`; usually all are empty.
fn put_lists(alloc: Global, text: &str, parts: &mut DayParts) -> Result<(), Stop> {
    let origin = parts.from.get();
    put_window(
        reading_list(alloc, origin, behind(text, "readings=", ""))?,
        parts,
    );
    put_set(entries(alloc, behind(text, "set=", "-"))?, parts);
    put_shifts(entries(alloc, behind(text, "shifts=", "-"))?, parts);
    put_periods(periods(alloc, behind(text, "rating=", "-"))?, parts);
    Ok(())
}

fn put_window(list: Vec<Reading>, parts: &mut DayParts) {
    parts.window = ReadingList::from_vec(list);
}

fn put_set(list: Vec<Entry>, parts: &mut DayParts) {
    parts.second = EntryList::from_vec(list);
}

fn put_shifts(list: Vec<Entry>, parts: &mut DayParts) {
    parts.shifts = EntryList::from_vec(list);
}

fn put_periods(list: Vec<PeriodPart>, parts: &mut DayParts) {
    parts.periods = PartList::from_vec(list);
}

/// One entry, or none.
fn entries(alloc: Global, text: &str) -> Result<Vec<Entry>, Stop> {
    let mut list = Vec::new(alloc);
    if text == "-" {
        return Ok(list);
    }
    keep(&mut list, entry(alloc, text)?)?;
    Ok(list)
}

/// The part of one rating, `FROM/UNTIL/NUMBER=TABLE`, or none.
fn periods(alloc: Global, text: &str) -> Result<Vec<PeriodPart>, Stop> {
    let mut list = Vec::new(alloc);
    if text == "-" {
        return Ok(list);
    }
    put_part(part(alloc, text)?, &mut list)?;
    Ok(list)
}

fn put_part(part: PeriodPart, list: &mut Vec<PeriodPart>) -> Result<(), NoMemory> {
    list.push(part)?;
    Ok(())
}

fn part(alloc: Global, text: &str) -> Result<PeriodPart, Stop> {
    let (span, rows) = there(text.split_once('='))?;
    let period = period(span)?;
    let until = there(period.until)?;
    Ok(PeriodPart {
        from: period.from,
        until,
        rating: period.rating,
        table: shared(alloc, rows)?,
    })
}
