//! Calls of `readings` on spans of a list and on the window of a day.

use crate::notation::{Stop, after, count, push_whether, three};
use crate::reading_lists::{push_ends, push_reading, reading};
use fixed_units::{NoMemory, Reading, Second, Text};
use readings::{Change, Readings};
use row_lines::parted;
use std::alloc::Global;

/// Writes what comes of a call: `WORD ORIGIN READINGS FROM TO ARGUMENTS`.
pub fn answer(
    alloc: Global,
    readings: &Readings,
    origin: i64,
    word: &str,
    rest: &str,
    came: &mut Text,
) -> Result<(), Stop> {
    let (from, to, rest) = three(rest);
    let ends = (after(origin, from)?, after(origin, to)?);
    match word {
        "list" => list(alloc, readings, origin, ends, rest, came),
        "window" => window(readings, origin, ends, rest, came),
        "alters" => alters(readings, origin, ends, rest, came),
        _ => Ok(answer_of(readings, origin, ends, word, came)?),
    }
}

/// `count`: how many readings there are; `ends`: the first and the last; `has_used`: whether one is used; `between`: all before the end.
fn answer_of(
    readings: &Readings,
    origin: i64,
    ends: (Second, Second),
    word: &str,
    came: &mut Text,
) -> Result<(), NoMemory> {
    match word {
        "count" => came.push_number(readings.count(ends.0, ends.1)),
        "ends" => push_ends(origin, readings.span_ends(ends.0, ends.1), came),
        "has_used" => push_whether(readings.has_used(ends.0, ends.1), came),
        "between" => between(readings, origin, ends, came),
        _ => came.push_slice(b"no such call"),
    }
}

fn between(
    readings: &Readings,
    origin: i64,
    ends: (Second, Second),
    came: &mut Text,
) -> Result<(), NoMemory> {
    let halves = readings.between(ends.0, ends.1);
    push_readings(origin, halves.left, came)?;
    push_readings(origin, halves.right, came)
}

/// `list ORIGIN READINGS FROM UNTIL GAP`: the readings of the window of a day, with the neighbours that are used.
fn list(
    alloc: Global,
    readings: &Readings,
    origin: i64,
    ends: (Second, Second),
    gap: &str,
    came: &mut Text,
) -> Result<(), Stop> {
    let gap = count(gap)?;
    let list = readings.to_list(alloc, ends.0, ends.1, gap)?;
    Ok(push_readings(origin, list.as_slice(), came)?)
}

/// `window ORIGIN READINGS FROM UNTIL GAP`: the readings of the day alone.
fn window(
    readings: &Readings,
    origin: i64,
    ends: (Second, Second),
    gap: &str,
    came: &mut Text,
) -> Result<(), Stop> {
    let window = readings.window(ends.0, ends.1, count(gap)?);
    push_readings(origin, window.left, came)?;
    Ok(push_readings(origin, window.right, came)?)
}

/// Writes readings, each with a comma behind it.
fn push_readings(origin: i64, list: &[Reading], came: &mut Text) -> Result<(), NoMemory> {
    for reading in list {
        push_reading(origin, *reading, came)?;
        came.push_slice(b",")?;
    }
    Ok(())
}

/// `alters ORIGIN READINGS FROM UNTIL GAP READING`: whether the reading alters the window when it is put.
fn alters(
    readings: &Readings,
    origin: i64,
    ends: (Second, Second),
    rest: &str,
    came: &mut Text,
) -> Result<(), Stop> {
    let (gap, put) = parted(rest);
    let gap = count(gap)?;
    let altered = alters_by(readings, reading(origin, put)?, ends, gap);
    Ok(push_whether(altered, came)?)
}

fn alters_by(readings: &Readings, put: Reading, ends: (Second, Second), gap: u32) -> bool {
    readings.alters_window(&Change::Put(&[put]), ends.0, ends.1, gap)
}
