//! Documents of stations, which `station_documents` reads.

use crate::escapes::{push_counted, push_read, push_shown};
use crate::memory::bytes_of;
use edits::{Edit, What};
use fixed_units::{NoMemory, RoundingArray, Site, Text};
use row_lines::parted;
use station_documents::{DocumentFault, MOST_BYTES, read_stations};
use std::alloc::Global;

/// Writes what comes of a call: the stations that the edits of a document add, or that it is none.
pub fn answer(alloc: Global, word: &str, rest: &str, came: &mut Text) -> Result<(), NoMemory> {
    match word {
        "document" => document(alloc, rest, came),
        "with" => with(alloc, rest, came),
        "stations" => stations(alloc, rest, came),
        "sized" => sized(alloc, rest, came),
        "most" => came.push_number(MOST_BYTES as u64),
        _ => came.push_slice(b"no such call"),
    }
}

/// `document BYTES`
fn document(alloc: Global, rest: &str, came: &mut Text) -> Result<(), NoMemory> {
    let bytes = bytes_of(alloc, rest)?;
    tell(alloc, bytes.as_slice(), came)
}

/// The document of one station.
const USUAL: &str =
    "by = \"AB\"\n[[station]]\nsite = \"01646500\"\nref = \"st-1\"\nname = \"POTOMAC\"\nzone = \"-05:00\"\ngap = 720\nstage_array = \"9999999992\"\ndischarge_array = \"0222233332\"\n";

/// `with KEY LINES`: the document of one station, with other lines in place of the one that begins with the key.
fn with(alloc: Global, rest: &str, came: &mut Text) -> Result<(), NoMemory> {
    let (key, lines) = parted(rest);
    let mut bytes = Text::new(alloc);
    push_with(key, lines, &mut bytes)?;
    tell(alloc, bytes.as_slice(), came)
}

fn push_with(key: &str, lines: &str, bytes: &mut Text) -> Result<(), NoMemory> {
    for line in USUAL.lines() {
        if line.starts_with(key) {
            push_read(lines, bytes)?;
        } else {
            bytes.push_slice(line.as_bytes())?;
        }
        bytes.push(b'\n')?;
    }
    Ok(())
}

/// `sized COUNT`: the document of one station, with a comment behind it, of so many bytes.
fn sized(alloc: Global, rest: &str, came: &mut Text) -> Result<(), NoMemory> {
    let mut bytes = Text::new(alloc);
    push_sized(rest.parse().unwrap_or(0), &mut bytes)?;
    tell(alloc, bytes.as_slice(), came)
}

fn push_sized(count: usize, bytes: &mut Text) -> Result<(), NoMemory> {
    bytes.push_slice(USUAL.as_bytes())?;
    bytes.push(b'#')?;
    for _ in bytes.len()..count {
        bytes.push(b' ')?;
    }
    Ok(())
}

/// The number of the site that place 0 would have; the places of a document's stations are counted from 1.
const SITE_OF_PLACE_ZERO: u64 = 10_000_000;

/// `stations COUNT`: of a document of so many stations, of which the site, the reference and the gap tolerance tell the place, how many
/// are told in order.
fn stations(alloc: Global, rest: &str, came: &mut Text) -> Result<(), NoMemory> {
    let mut bytes = Text::new(alloc);
    push_stations(rest.parse().unwrap_or(0), &mut bytes)?;
    match read_stations(alloc, bytes.as_slice()) {
        Ok(edits) => push_order(&edits, came),
        Err(fault) => push_fault(fault, came),
    }
}

fn push_stations(count: u32, bytes: &mut Text) -> Result<(), NoMemory> {
    bytes.push_slice(b"by = \"AB\"\n")?;
    for place in 0..count {
        push_station(u64::from(place) + 1, bytes)?;
    }
    Ok(())
}

fn push_station(place: u64, bytes: &mut Text) -> Result<(), NoMemory> {
    push_counted(
        b"[[station]]\nsite = \"",
        SITE_OF_PLACE_ZERO.saturating_add(place),
        bytes,
    )?;
    push_counted(b"\"\nref = \"st-", place, bytes)?;
    push_counted(b"\"\ngap = ", place, bytes)?;
    bytes.push_slice(
        b"\nname = \"POTOMAC\"\nzone = \"-05:00\"\nstage_array = \"9999999992\"\ndischarge_array = \"0222233332\"\n",
    )
}

/// Adds how many edits there are, and how many of the first add the station of their place.
fn push_order(edits: &[Edit], came: &mut Text) -> Result<(), NoMemory> {
    push_counted(b"", edits.len() as u64, came)?;
    push_counted(b", in order ", in_order(edits), came)
}

fn in_order(edits: &[Edit]) -> u64 {
    let mut place = 0_u64;
    for edit in edits {
        if !adds(edit, place.saturating_add(1)) {
            break;
        }
        place = place.saturating_add(1);
    }
    place
}

/// Whether the edit adds the station of a place.
fn adds(edit: &Edit, place: u64) -> bool {
    match edit.what {
        What::AddStation { gap, .. } => {
            u64::from(gap) == place && edit.site.value() == SITE_OF_PLACE_ZERO.saturating_add(place)
        }
        _ => false,
    }
}

fn tell(alloc: Global, bytes: &[u8], came: &mut Text) -> Result<(), NoMemory> {
    match read_stations(alloc, bytes) {
        Ok(edits) => push_edits(&edits, came),
        Err(fault) => push_fault(fault, came),
    }
}

fn push_fault(fault: DocumentFault, came: &mut Text) -> Result<(), NoMemory> {
    match fault {
        DocumentFault::NoDocument => came.push_slice(b"no document"),
        DocumentFault::NoMemory => Err(NoMemory),
    }
}

/// Adds each edit, with a semicolon behind it.
fn push_edits(edits: &[Edit], came: &mut Text) -> Result<(), NoMemory> {
    for edit in edits {
        push_edit(edit, came)?;
    }
    Ok(())
}

fn push_edit(edit: &Edit, came: &mut Text) -> Result<(), NoMemory> {
    came.push_slice(edit.by.as_slice())?;
    came.push_slice(b" ")?;
    came.push_slice(edit.reference.as_slice())?;
    push_site(edit.site, came)?;
    push_what(&edit.what, came)
}

/// Adds how many digits a site has, and their value.
fn push_site(site: Site, came: &mut Text) -> Result<(), NoMemory> {
    push_counted(b" ", u64::from(site.digits()), came)?;
    push_counted(b":", site.value(), came)
}

fn push_what(what: &What, came: &mut Text) -> Result<(), NoMemory> {
    match what {
        What::AddStation {
            name,
            zone,
            gap,
            stage_array,
            discharge_array,
        } => {
            push_quoted(name.as_slice(), came)?;
            push_quoted(zone.as_slice(), came)?;
            push_counted(b" ", u64::from(*gap), came)?;
            push_array(stage_array, came)?;
            push_array(discharge_array, came)?;
            came.push_slice(b";")
        }
        _ => came.push_slice(b" no station is added;"),
    }
}

fn push_quoted(text: &[u8], came: &mut Text) -> Result<(), NoMemory> {
    came.push_slice(b" '")?;
    push_shown(text, came)?;
    came.push_slice(b"'")
}

fn push_array(array: &RoundingArray, came: &mut Text) -> Result<(), NoMemory> {
    came.push_slice(b" ")?;
    came.push_slice(&array.digits())
}
