//! How rows write quantities, instants and lists of pairs, and why a row is not played to its end.

use civil_days::{read_instant, write_instant};
use fixed_units::{
    Micro, NoMemory, Published, Second, Text, read_decimal, write_micro, write_published,
};
use row_lines::parted;
use std::alloc::Global;

/// Why a row is not played to its end.
#[derive(Clone, Copy)]
pub enum Stop {
    /// What it says cannot be read, or is not what the call takes.
    NotWellFormed,
    /// There was no memory for it.
    NoMemory,
}

impl From<NoMemory> for Stop {
    fn from(_fault: NoMemory) -> Stop {
        Stop::NoMemory
    }
}

/// A row that is not well formed is told as what came of it.
pub fn told(end: Result<(), Stop>, came: &mut Text) -> Result<(), NoMemory> {
    match end {
        Ok(()) => Ok(()),
        Err(Stop::NotWellFormed) => came.push_slice(b" not well formed"),
        Err(Stop::NoMemory) => Err(NoMemory),
    }
}

/// What is there, where the row would else not be well formed.
pub fn there<T: Copy>(value: Option<T>) -> Result<T, Stop> {
    match value {
        Some(value) => Ok(value),
        None => Err(Stop::NotWellFormed),
    }
}

/// Three arguments, of which the last one is the rest of the text.
pub fn three(text: &str) -> (&str, &str, &str) {
    let (first, rest) = parted(text);
    let (second, third) = parted(rest);
    (first, second, third)
}

/// A whole number.
pub fn whole(text: &str) -> Result<i64, Stop> {
    match text.parse::<i64>() {
        Ok(number) => Ok(number),
        Err(_) => Err(Stop::NotWellFormed),
    }
}

/// A small number that is not below 0.
pub fn count(text: &str) -> Result<u32, Stop> {
    match text.parse::<u32>() {
        Ok(number) => Ok(number),
        Err(_) => Err(Stop::NotWellFormed),
    }
}

/// A quantity, by its decimals.
pub fn quantity(text: &str) -> Result<Micro, Stop> {
    match read_decimal(text.as_bytes()) {
        Ok(value) => Ok(value),
        Err(_) => Err(Stop::NotWellFormed),
    }
}

/// An instant by its date and time, or by its seconds since 1970.
pub fn instant(text: &str) -> Result<Second, Stop> {
    match read_instant(text.as_bytes()) {
        Some(at) => Ok(at),
        None => after(0, text),
    }
}

/// The instant of so many seconds behind an origin.
pub fn after(origin: i64, text: &str) -> Result<Second, Stop> {
    there(Second::new(origin.saturating_add(whole(text)?)))
}

/// A pair of quantities with a colon between them.
pub fn pair(text: &str) -> Result<(Micro, Micro), Stop> {
    let (first, second) = there(text.split_once(':'))?;
    Ok((quantity(first)?, quantity(second)?))
}

/// Pairs of quantities, with commas between them.
pub fn pairs(alloc: Global, text: &str) -> Result<Vec<(Micro, Micro)>, Stop> {
    let mut list = Vec::new(alloc);
    put_pairs(text, &mut list)?;
    Ok(list)
}

fn put_pairs(text: &str, list: &mut Vec<(Micro, Micro)>) -> Result<(), Stop> {
    for piece in text.split(',') {
        if !piece.is_empty() {
            keep(list, pair(piece)?)?;
        }
    }
    Ok(())
}

/// Adds to a list.
pub fn keep<T: Copy>(list: &mut Vec<T>, item: T) -> Result<(), NoMemory> {
    list.push(item)?;
    Ok(())
}

/// Writes pairs of quantities as they are read.
pub fn push_pairs(list: &[(Micro, Micro)], came: &mut Text) -> Result<(), NoMemory> {
    let mut between: &[u8] = b"";
    for pair in list {
        came.push_slice(between)?;
        push_pair(*pair, came)?;
        between = b",";
    }
    Ok(())
}

/// Writes two quantities with a colon between them.
pub fn push_pair(pair: (Micro, Micro), came: &mut Text) -> Result<(), NoMemory> {
    write_micro(pair.0, came)?;
    came.push_slice(b":")?;
    write_micro(pair.1, came)
}

/// Writes a quantity, or that there is none.
pub fn push_quantity(value: Option<Micro>, came: &mut Text) -> Result<(), NoMemory> {
    match value {
        Some(value) => write_micro(value, came),
        None => came.push_slice(b"none"),
    }
}

/// Writes an instant by its date and time, or that there is none.
pub fn push_instant(at: Option<Second>, came: &mut Text) -> Result<(), NoMemory> {
    match at {
        Some(at) => write_instant(at, came),
        None => came.push_slice(b"none"),
    }
}

/// Writes a whole number.
pub fn push_whole(value: i128, came: &mut Text) -> Result<(), NoMemory> {
    let mut buffer = itoa::Buffer::new();
    came.push_slice(buffer.format(value).as_bytes())
}

/// Writes a whole number, or that there is none.
pub fn push_whole_if(value: Option<i64>, came: &mut Text) -> Result<(), NoMemory> {
    match value {
        Some(value) => push_whole(i128::from(value), came),
        None => came.push_slice(b"none"),
    }
}

/// Writes a published value, or that there is none.
pub fn push_published(value: Option<Published>, came: &mut Text) -> Result<(), NoMemory> {
    match value {
        Some(value) => write_published(value, came),
        None => came.push_slice(b"none"),
    }
}

/// Writes a number behind a blank.
pub fn push_next(value: i128, came: &mut Text) -> Result<(), NoMemory> {
    came.push_slice(b" ")?;
    push_whole(value, came)
}

/// Writes whether something holds.
pub fn push_whether(holds: bool, came: &mut Text) -> Result<(), NoMemory> {
    if holds {
        came.push_slice(b"yes")
    } else {
        came.push_slice(b"no")
    }
}
