//! Calls of `fixed_units` on texts: they grow and are cut.

use crate::notation::{Stop, count, keep, push_whether, told, whole};
use fixed_units::{NoMemory, Text};
use row_lines::parted;
use std::alloc::{AllocError, Global};

/// Writes what comes of a call.
pub fn answer(alloc: Global, word: &str, rest: &str, came: &mut Text) -> Result<(), NoMemory> {
    match word {
        "grown" => told(grown(alloc, rest, came), came),
        "cut" => told(cut(alloc, rest, came), came),
        "want" => want(came),
        _ => came.push_slice(b"no such call"),
    }
}

/// `grown SLICE|NUMBER|BYTES|SLICE`: whether a new text is empty, how long it is when all four are pushed, and what it then says.
fn grown(alloc: Global, rest: &str, came: &mut Text) -> Result<(), Stop> {
    let mut text = Text::new(alloc);
    grow(rest, &mut text, came)
}

fn grow(rest: &str, text: &mut Text, came: &mut Text) -> Result<(), Stop> {
    push_whether(text.is_empty(), came)?;
    push_parts(rest, text)?;
    came.push_slice(b" ")?;
    came.push_number(length_of(text))?;
    came.push_slice(b" ")?;
    Ok(came.push_slice(text.as_slice())?)
}

fn length_of(text: &Text) -> u64 {
    u64::try_from(text.len()).unwrap_or(u64::MAX)
}

fn push_parts(rest: &str, text: &mut Text) -> Result<(), Stop> {
    let Some((first, rest)) = rest.split_once('|') else {
        return Err(Stop::NotWellFormed);
    };
    let Some((number, rest)) = rest.split_once('|') else {
        return Err(Stop::NotWellFormed);
    };
    text.push_slice(first.as_bytes())?;
    text.push_number(whole(number)?.unsigned_abs())?;
    push_last_parts(rest, text)
}

fn push_last_parts(rest: &str, text: &mut Text) -> Result<(), Stop> {
    let Some((bytes, last)) = rest.split_once('|') else {
        return Err(Stop::NotWellFormed);
    };
    for byte in bytes.as_bytes() {
        text.push(*byte)?;
    }
    Ok(text.push_slice(last.as_bytes())?)
}

/// `cut LENGTH TEXT`: whether the text of so many of its bytes is empty, and what it then says.
fn cut(alloc: Global, rest: &str, came: &mut Text) -> Result<(), Stop> {
    let (length, text) = parted(rest);
    let length = count(length)?;
    let mut bytes = Vec::new(alloc);
    match push_bytes(text, &mut bytes) {
        Ok(()) => Ok(push_cut(Text::from_vec(bytes), length, came)?),
        Err(NoMemory) => Err(Stop::NoMemory),
    }
}

fn push_bytes(text: &str, bytes: &mut Vec<u8>) -> Result<(), NoMemory> {
    for byte in text.as_bytes() {
        keep(bytes, *byte)?;
    }
    Ok(())
}

fn push_cut(mut text: Text, length: u32, came: &mut Text) -> Result<(), NoMemory> {
    text.truncate(usize::try_from(length).unwrap_or(usize::MAX));
    push_whether(text.is_empty(), came)?;
    came.push_slice(b" ")?;
    came.push_slice(text.into_vec().as_slice())
}

/// `want`: the failure of an allocation as the one of this library.
fn want(came: &mut Text) -> Result<(), NoMemory> {
    match NoMemory::from(AllocError) {
        NoMemory => came.push_slice(b"no memory"),
    }
}
