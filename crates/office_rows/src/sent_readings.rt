//! The readings that an edit puts.

use crate::sent::{instant, quantity};
use crate::sent_changes::flag;
use edits::What;
use fixed_units::{Flag, Micro, NoMemory, Reading, Second};
use readings::ReadingList;
use row_lines::parted;
use std::alloc::Global;

/// `put AT STAGE [FLAG], ..`: readings, usable where none is named.
pub fn put(alloc: Global, text: &str) -> Option<What> {
    Some(What::PutReadings {
        readings: ReadingList::from_vec(readings(alloc, text)?),
    })
}

fn readings(alloc: Global, text: &str) -> Option<Vec<Reading>> {
    let mut readings = Vec::new(alloc);
    for part in text.split(", ") {
        if !add_reading(&mut readings, part) {
            return None;
        }
    }
    Some(readings)
}

fn add_reading(readings: &mut Vec<Reading>, text: &str) -> bool {
    match reading(text) {
        Some(reading) => readings.push(reading).is_ok(),
        None => false,
    }
}

fn reading(text: &str) -> Option<Reading> {
    let (at, rest) = parted(text);
    let (stage, word) = parted(rest);
    Some(Reading {
        at: instant(at)?,
        raw: quantity(stage)?,
        flag: flag(word)?,
    })
}

/// `put-every SECONDS COUNT FROM`: so many readings of 1 foot, so many seconds apart.
pub fn put_every(alloc: Global, text: &str) -> Option<What> {
    let (apart, rest) = parted(text);
    let (count, from) = parted(rest);
    let from = instant(from)?;
    let readings = every(alloc, from, count.parse().ok()?, apart.parse().ok()?)?;
    Some(What::PutReadings {
        readings: ReadingList::from_vec(readings),
    })
}

fn every(alloc: Global, from: Second, count: u32, apart: u32) -> Option<Vec<Reading>> {
    let mut readings = Vec::new(alloc);
    for place in 0..count {
        if !add_foot(&mut readings, from, place, apart) {
            return None;
        }
    }
    Some(readings)
}

fn add_foot(readings: &mut Vec<Reading>, from: Second, place: u32, apart: u32) -> bool {
    match foot(from, place, apart) {
        Some(reading) => readings.push(reading).is_ok(),
        None => false,
    }
}

/// A stage of 1 foot, read so many times some seconds after another instant.
fn foot(from: Second, place: u32, apart: u32) -> Option<Reading> {
    let seconds = i64::from(place).checked_mul(i64::from(apart))?;
    Some(Reading {
        at: Second::new(from.get().checked_add(seconds)?)?,
        raw: Micro::new(1_000_000)?,
        flag: Flag::Usable,
    })
}
