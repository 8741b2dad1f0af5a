//! Calls of `midsection`: measurement notes, and the discharges of their verticals.

ghost use Rattle.std.specs.Prelude.{◌<◌, length};

use crate::notation::{Stop, count, told};
use crate::tables::push_unescaped;
use fixed_units::{NoMemory, Text, write_hundredths, write_micro};
use midsection::{Notes, NotesFault, discharge, read_notes, share, total};
use row_lines::parted;
use std::alloc::Global;

/// Writes what comes of a call.
pub fn answer(alloc: Global, word: &str, rest: &str, came: &mut Text) -> Result<(), NoMemory> {
    match word {
        "notes" => told(of_text(alloc, rest, came), came),
        "many" => told(of_many(alloc, rest, came), came),
        _ => came.push_slice(b"no such call"),
    }
}

/// `notes TEXT`: the discharge and the share of each vertical, and the total, or why the text is no notes and in which record.
fn of_text(alloc: Global, text: &str, came: &mut Text) -> Result<(), Stop> {
    let mut bytes = Text::new(alloc);
    push_unescaped(text, &mut bytes)?;
    Ok(push_notes(alloc, bytes.as_slice(), came)?)
}

/// `many COUNT REST`: so many verticals, at distances of 1, 2, 3 and so on, of which all else is the rest.
fn of_many(alloc: Global, text: &str, came: &mut Text) -> Result<(), Stop> {
    let (number, rest) = parted(text);
    let mut bytes = Text::new(alloc);
    push_many(count(number)?, rest, &mut bytes)?;
    Ok(push_notes(alloc, bytes.as_slice(), came)?)
}

fn push_many(count: u32, rest: &str, bytes: &mut Text) -> Result<(), NoMemory> {
    bytes.push_slice(b"distance,depth,v2,v6,v8")?;
    for place in 0..count {
        push_row(u64::from(place), rest, bytes)?;
    }
    Ok(())
}

fn push_row(place: u64, rest: &str, bytes: &mut Text) -> Result<(), NoMemory> {
    bytes.push_slice(b"\n")?;
    bytes.push_number(place.saturating_add(1))?;
    bytes.push_slice(rest.as_bytes())
}

fn push_notes(alloc: Global, text: &[u8], came: &mut Text) -> Result<(), NoMemory> {
    match read_notes(alloc, text) {
        Ok(notes) => push_figures(&notes, came),
        Err(NotesFault::NoMemory) => Err(NoMemory),
        Err(fault) => push_fault(fault, came),
    }
}

/// The name of a fault, and its record.
fn push_fault(fault: NotesFault, came: &mut Text) -> Result<(), NoMemory> {
    came.push_slice(fault.code().as_bytes())?;
    came.push_slice(b" at ")?;
    came.push_number(fault.record_number())
}

/// The discharges with their shares where they are few, and the total.
fn push_figures(notes: &Notes, came: &mut Text) -> Result<(), NoMemory> {
    let verticals = notes.verticals().len();
    if verticals <= 8 {
        push_verticals(notes, verticals, came)?;
    }
    came.push_slice(b"total ")?;
    write_micro(total(notes), came)
}

fn push_verticals(notes: &Notes, verticals: usize, came: &mut Text) -> Result<(), NoMemory> {
    for place in 0..verticals {
        if place < notes.verticals().len() {
            push_vertical(notes, place, came)?;
        }
    }
    Ok(())
}

fn push_vertical(notes: &Notes, place: usize, came: &mut Text) -> Result<(), NoMemory>
    requires { place < length notes.now }
{
    write_micro(discharge(notes, place), came)?;
    came.push_slice(b" ")?;
    match share(notes, place) {
        Some(hundredths) => write_hundredths(hundredths, came)?,
        None => came.push_slice(b"-")?,
    }
    came.push_slice(b"; ")
}
