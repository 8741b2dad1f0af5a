//! Calls of `rdb_records`: the unit values of a site, read from RDB texts.

use crate::notation::{Stop, push_instant, push_next, there, three, told};
use crate::tables::{push_line, push_unescaped};
use fixed_units::{Flag, NoMemory, Reading, Text, write_micro};
use rdb_records::{UnitFault, UnitList, read_units};
use site_texts::read_site;
use std::alloc::Global;

/// Writes what comes of a call.
pub fn answer(alloc: Global, word: &str, rest: &str, came: &mut Text) -> Result<(), NoMemory> {
    match word {
        "read" => told(read(alloc, rest, came), came),
        _ => came.push_slice(b"no such call"),
    }
}

/// `read SITE COLUMN TEXT`: the readings that an RDB text states and how many rows are skipped, or why it states none and in which line.
fn read(alloc: Global, rest: &str, came: &mut Text) -> Result<(), Stop> {
    let mut bytes = Text::new(alloc);
    read_escaped(alloc, rest, &mut bytes, came)
}

fn read_escaped(alloc: Global, rest: &str, bytes: &mut Text, came: &mut Text) -> Result<(), Stop> {
    let (site, column, text) = three(rest);
    let site = there(read_site(site.as_bytes()))?;
    push_unescaped(text, bytes)?;
    match read_units(alloc, bytes.as_slice(), site, column.as_bytes()) {
        Ok(list) => Ok(push_list(&list, came)?),
        Err(fault) => Ok(push_fault(fault, came)?),
    }
}

fn push_list(list: &UnitList, came: &mut Text) -> Result<(), NoMemory> {
    for reading in list.readings.as_slice() {
        push_reading(reading, came)?;
        came.push_slice(b", ")?;
    }
    came.push_slice(b"skipped")?;
    push_next(i128::from(list.skipped), came)
}

/// Writes a reading as its instant and its stage, and whether its flag is another than ok.
fn push_reading(reading: &Reading, came: &mut Text) -> Result<(), NoMemory> {
    push_instant(Some(reading.at), came)?;
    came.push_slice(b"=")?;
    write_micro(reading.raw, came)?;
    if reading.flag == Flag::Usable {
        Ok(())
    } else {
        came.push_slice(b" flagged")
    }
}

/// The fault, and the line that it tells.
fn push_fault(fault: UnitFault, came: &mut Text) -> Result<(), NoMemory> {
    let name: &[u8] = match fault {
        UnitFault::NoNames => b"no names",
        UnitFault::NoColumn(_) => b"no column",
        UnitFault::Site(_) => b"site",
        UnitFault::Zone(_) => b"zone",
        UnitFault::Instant(_) => b"instant",
        UnitFault::Order(_) => b"order",
        UnitFault::Range(_) => b"range",
        UnitFault::NoMemory => return Err(NoMemory),
    };
    came.push_slice(name)?;
    push_line(fault.line(), came)
}
