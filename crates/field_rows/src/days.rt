//! Calls of `civil_days`.

use crate::notation::{Stop, after, push_next, push_whole, there, told};
use civil_days::{StationZone, ZoneFault, read_day, read_instant, write_day, write_instant};
use fixed_units::{Day, NoMemory, Second, Text, is_stamp};
use row_lines::parted;
use std::alloc::Global;

/// Writes what comes of a call.
pub fn answer(alloc: Global, word: &str, rest: &str, came: &mut Text) -> Result<(), NoMemory> {
    match word {
        "interval" => told(in_zone(alloc, word, rest, came), came),
        "day_start" => told(in_zone(alloc, word, rest, came), came),
        "day_of" => told(in_zone(alloc, word, rest, came), came),
        "zone" => zone(alloc, rest, came),
        "day" => day(rest, came),
        "day_again" => day_again(rest, came),
        "instant" => instant(rest, came),
        "instant_text" => told(instant_text(rest, came), came),
        _ => came.push_slice(b"no such call"),
    }
}

/// A call on a zone.
fn in_zone(alloc: Global, word: &str, rest: &str, came: &mut Text) -> Result<(), Stop> {
    let (zone, rest) = parted(rest);
    match StationZone::read(alloc, zone) {
        Ok(zone) => answer_in(&zone, word, rest, came),
        Err(fault) => Ok(push_fault(fault, came)?),
    }
}

fn answer_in(zone: &StationZone, word: &str, rest: &str, came: &mut Text) -> Result<(), Stop> {
    match word {
        "interval" => Ok(push_bounds(zone.bounds(day_named(rest)?), came)?),
        "day_start" => Ok(write_instant(zone.day_start(day_named(rest)?), came)?),
        _ => day_of(zone, instant_named(rest)?, came),
    }
}

fn day_named(text: &str) -> Result<Day, Stop> {
    there(read_day(text.as_bytes()))
}

fn instant_named(text: &str) -> Result<Second, Stop> {
    there(read_instant(text.as_bytes()))
}

/// `interval ZONE DAY`: the first instant of the day, and how many seconds it lasts; `day_start ZONE DAY`: its first instant alone.
fn push_bounds(bounds: (Second, Second), came: &mut Text) -> Result<(), NoMemory> {
    let (start, end) = bounds;
    let length = end.get().saturating_sub(start.get());
    write_instant(start, came)?;
    push_next(i128::from(length), came)
}

/// `day_of ZONE INSTANT`: the day that the instant is of.
fn day_of(zone: &StationZone, at: Second, came: &mut Text) -> Result<(), Stop> {
    if !is_stamp(at.get()) {
        return Err(Stop::NotWellFormed);
    }
    Ok(write_day(zone.day_of(at), came)?)
}

fn push_fault(fault: ZoneFault, came: &mut Text) -> Result<(), NoMemory> {
    match fault {
        ZoneFault::BadZone => came.push_slice(b"bad zone"),
        ZoneFault::NoMemory => Err(NoMemory),
    }
}

/// `zone TEXT`: whether it is a zone.
fn zone(alloc: Global, text: &str, came: &mut Text) -> Result<(), NoMemory> {
    match StationZone::read(alloc, text) {
        Ok(_) => came.push_slice(b"yes"),
        Err(fault) => push_fault(fault, came),
    }
}

/// `day TEXT`: the number of the day, counted from 1970-01-01.
fn day(text: &str, came: &mut Text) -> Result<(), NoMemory> {
    match read_day(text.as_bytes()) {
        Some(day) => push_whole(i128::from(day.get()), came),
        None => came.push_slice(b"none"),
    }
}

/// `day_again TEXT`: the day written again.
fn day_again(text: &str, came: &mut Text) -> Result<(), NoMemory> {
    match read_day(text.as_bytes()) {
        Some(day) => write_day(day, came),
        None => came.push_slice(b"none"),
    }
}

/// `instant TEXT`: its seconds since 1970.
fn instant(text: &str, came: &mut Text) -> Result<(), NoMemory> {
    match read_instant(text.as_bytes()) {
        Some(at) => push_whole(i128::from(at.get()), came),
        None => came.push_slice(b"none"),
    }
}

/// `instant_text SECONDS`: the date and time.
fn instant_text(text: &str, came: &mut Text) -> Result<(), Stop> {
    Ok(write_instant(after(0, text)?, came)?)
}
