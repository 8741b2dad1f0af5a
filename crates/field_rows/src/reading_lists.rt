//! Calls of `readings` on a list, and how rows write readings.

use crate::curve_points::push_place;
use crate::notation::{Stop, after, keep, push_whole, quantity, there, three, told, whole};
use crate::windows;
use fixed_units::{Flag, NoMemory, Reading, Text, write_micro};
use readings::Readings;
use std::alloc::Global;

/// Writes what comes of a call: `WORD ORIGIN READINGS ARGUMENTS`.
pub fn answer(alloc: Global, word: &str, rest: &str, came: &mut Text) -> Result<(), NoMemory> {
    let mut readings = Readings::new(alloc);
    let end = answer_with(alloc, &mut readings, word, rest, came);
    told(end, came)
}

fn answer_with(
    alloc: Global,
    readings: &mut Readings,
    word: &str,
    rest: &str,
    came: &mut Text,
) -> Result<(), Stop> {
    let (origin, list, rest) = three(rest);
    let origin = whole(origin)?;
    change_all(readings, origin, list)?;
    match word {
        "flag" => flag(readings, origin, rest, came),
        "drop" => drop_and_tell(readings, origin, rest, came),
        "length" => Ok(push_place(readings.len(), came)?),
        "new" => new(readings, origin, rest, came),
        "used_ends" => Ok(push_ends(origin, readings.used_ends(), came)?),
        _ => windows::answer(alloc, readings, origin, word, rest, came),
    }
}

/// A reading: its seconds behind the origin, with `:` and its stage where that is not 0; one that is affected or erroneous has an `a` or
/// an `e` before it.
pub fn reading(origin: i64, text: &str) -> Result<Reading, Stop> {
    let (flag, text) = flagged(text);
    let (seconds, stage) = text.split_once(':').unwrap_or((text, "0"));
    Ok(Reading {
        at: after(origin, seconds)?,
        raw: quantity(stage)?,
        flag,
    })
}

fn flagged(text: &str) -> (Flag, &str) {
    if let Some(rest) = text.strip_prefix('a') {
        return (Flag::Affected, rest);
    }
    match text.strip_prefix('e') {
        Some(rest) => (Flag::Erroneous, rest),
        None => (Flag::Usable, text),
    }
}

/// Readings, with commas between them.
pub fn reading_list(alloc: Global, origin: i64, text: &str) -> Result<Vec<Reading>, Stop> {
    let mut list = Vec::new(alloc);
    keep_all(origin, text, &mut list)?;
    Ok(list)
}

fn keep_all(origin: i64, text: &str, list: &mut Vec<Reading>) -> Result<(), Stop> {
    for piece in text.split(',') {
        if !piece.is_empty() {
            keep(list, reading(origin, piece)?)?;
        }
    }
    Ok(())
}

/// Puts one reading behind another, and changes spans: `xFROM..TO` drops one, and with an `a`, an `e` or nothing before it one is flagged.
fn change_all(readings: &mut Readings, origin: i64, text: &str) -> Result<(), Stop> {
    for piece in text.split(',') {
        change(readings, origin, piece)?;
    }
    Ok(())
}

fn change(readings: &mut Readings, origin: i64, text: &str) -> Result<(), Stop> {
    if !text.contains("..") {
        return Ok(put(readings, reading(origin, text)?)?);
    }
    match text.strip_prefix('x') {
        Some(span) => drop_span(readings, origin, span)?,
        None => flag_span(readings, origin, text)?,
    };
    Ok(())
}

fn put(readings: &mut Readings, reading: Reading) -> Result<(), NoMemory> {
    readings.reserve(1)?;
    readings.put_all(&[reading]);
    Ok(())
}

fn drop_span(readings: &mut Readings, origin: i64, text: &str) -> Result<u64, Stop> {
    let (from, to) = there(text.split_once(".."))?;
    Ok(readings.drop_span(after(origin, from)?, after(origin, to)?))
}

fn flag_span(readings: &mut Readings, origin: i64, text: &str) -> Result<u64, Stop> {
    let (flag, span) = flagged(text);
    let (from, to) = there(span.split_once(".."))?;
    Ok(readings.flag_span(after(origin, from)?, after(origin, to)?, flag))
}

/// `flag ORIGIN READINGS SPAN`: how many readings are flagged; the span has the letter of the flag before it.
fn flag(readings: &mut Readings, origin: i64, rest: &str, came: &mut Text) -> Result<(), Stop> {
    let many = flag_span(readings, origin, rest)?;
    Ok(came.push_number(many)?)
}

/// `drop ORIGIN READINGS SPAN`: how many readings are dropped.
fn drop_and_tell(
    readings: &mut Readings,
    origin: i64,
    rest: &str,
    came: &mut Text,
) -> Result<(), Stop> {
    let many = drop_span(readings, origin, rest)?;
    Ok(came.push_number(many)?)
}

/// `new ORIGIN READINGS READING`: how many readings would come anew.
fn new(readings: &Readings, origin: i64, rest: &str, came: &mut Text) -> Result<(), Stop> {
    let reading = reading(origin, rest)?;
    Ok(push_place(readings.count_new(&[reading]), came)?)
}

/// Writes the first and the last reading, or that there are none.
pub fn push_ends(
    origin: i64,
    ends: Option<(Reading, Reading)>,
    came: &mut Text,
) -> Result<(), NoMemory> {
    let Some((first, last)) = ends else {
        return came.push_slice(b"none");
    };
    push_reading(origin, first, came)?;
    came.push_slice(b" ")?;
    push_reading(origin, last, came)
}

/// Writes a reading as it is read.
pub fn push_reading(origin: i64, reading: Reading, came: &mut Text) -> Result<(), NoMemory> {
    push_flag(reading.flag, came)?;
    let seconds = reading.at.get().saturating_sub(origin);
    push_whole(i128::from(seconds), came)?;
    if reading.raw.get() == 0 {
        return Ok(());
    }
    came.push_slice(b":")?;
    write_micro(reading.raw, came)
}

fn push_flag(flag: Flag, came: &mut Text) -> Result<(), NoMemory> {
    match flag {
        Flag::Usable => Ok(()),
        Flag::Affected => came.push_slice(b"a"),
        Flag::Erroneous => came.push_slice(b"e"),
    }
}
