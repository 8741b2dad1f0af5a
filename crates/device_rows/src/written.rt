//! The records of two edits, as they are written.

use crate::escapes::push_shown;
use crate::journals::format_named;
use edits::{By, Edit, Name, Ref, What};
use fixed_units::{Flag, Micro, NoMemory, Reading, RoundingArray, Second, Site, Text};
use readings::ReadingList;
use records::{Format, Record, SheetList, encode_and_close};
use row_lines::parted;
use std::alloc::Global;

/// `FORMAT addition REFERENCE` or `FORMAT reading REFERENCE`: the record of the edit by `AB` at the site 01646500 under that reference,
/// without a comment, with a gate behind it.
pub fn push_record(alloc: Global, rest: &str, came: &mut Text) -> Result<(), NoMemory> {
    let (name, rest) = parted(rest);
    let (change, reference) = parted(rest);
    match (
        format_named(name),
        record(alloc, reference.as_bytes(), change),
    ) {
        (Some(format), Some(piece)) => push_written(alloc, &piece, format, came),
        _ => came.push_slice(b"no record"),
    }
}

fn push_written(
    alloc: Global,
    piece: &Record,
    format: Format,
    came: &mut Text,
) -> Result<(), NoMemory> {
    if !format.holds(&piece.edit().comment) {
        return came.push_slice(b"not held");
    }
    let bytes = encode_and_close(alloc, piece, format)?;
    push_shown(bytes.as_slice(), came)
}

fn record(alloc: Global, reference: &[u8], change: &str) -> Option<Record> {
    let by = By::new(b"AB")?;
    let reference = Ref::new(reference)?;
    let site = Site::new(8, 1_646_500)?;
    match Edit::new(alloc, by, reference, site, what(alloc, change)?) {
        Ok(edit) => Record::new(edit, SheetList::new(alloc)),
        Err(_) => None,
    }
}

fn what(alloc: Global, change: &str) -> Option<What> {
    match change {
        "addition" => addition(alloc),
        "reading" => put(alloc),
        _ => None,
    }
}

fn name(alloc: Global, text: &[u8]) -> Option<Name> {
    Name::new(Text::from_vec(text.to_vec(alloc).ok()?))
}

/// What adds the station.
fn addition(alloc: Global) -> Option<What> {
    let zone = name(alloc, b"-05:00")?;
    Some(What::AddStation {
        name: name(alloc, b"POTOMAC")?,
        zone,
        gap: 720,
        stage_array: RoundingArray::STAGES,
        discharge_array: RoundingArray::STAGES,
    })
}

/// What puts the reading.
fn put(alloc: Global) -> Option<What> {
    let reading = Reading {
        at: Second::new(1_704_430_800)?,
        raw: Micro::new(1_000_000)?,
        flag: Flag::Usable,
    };
    Some(What::PutReadings {
        readings: ReadingList::from_vec([reading].to_vec(alloc).ok()?),
    })
}
