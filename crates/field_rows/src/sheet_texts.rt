//! Calls of `sheets`: the text of a computation sheet.

use crate::day_figures::value_in;
use crate::notation::{Stop, count, there, three, told};
use civil_days::read_day;
use daily_values::DayValue;
use fixed_units::{Day, NoMemory, Site, Text};
use sheets::sheet_text;
use std::alloc::Global;

/// Writes what comes of a call: `WORD SITE DAY STATE INPUTS`.
pub fn answer(alloc: Global, word: &str, rest: &str, came: &mut Text) -> Result<(), NoMemory> {
    let end = sheet(alloc, word, rest, came);
    told(end, came)
}

fn sheet(alloc: Global, word: &str, rest: &str, came: &mut Text) -> Result<(), Stop> {
    let (site, day, rest) = three(rest);
    let (site, day) = (site_of(site)?, day_of(day)?);
    let (approved, given) = state(rest)?;
    let value = value_in(alloc, given)?;
    push_sheet(alloc, word, (site, day), (&value, approved), came)
}

fn site_of(text: &str) -> Result<Site, Stop> {
    let value = u64::from(count(text)?);
    match u8::try_from(text.len()) {
        Ok(digits) => there(Site::new(digits, value)),
        Err(_) => Err(Stop::NotWellFormed),
    }
}

fn day_of(text: &str) -> Result<Day, Stop> {
    there(read_day(text.as_bytes()))
}

/// `A` for an approved day and `P` for another one, and the inputs behind it.
fn state(text: &str) -> Result<(bool, &str), Stop> {
    match text.strip_prefix("A ") {
        Some(given) => Ok((true, given)),
        None => Ok((false, there(text.strip_prefix("P "))?)),
    }
}

fn push_sheet(
    alloc: Global,
    word: &str,
    of: (Site, Day),
    value: (&DayValue, bool),
    came: &mut Text,
) -> Result<(), Stop> {
    let sheet = sheet_text(alloc, of.0, of.1, value.0, value.1)?;
    match word {
        "sheet" => Ok(push_escaped(sheet.as_slice(), came)?),
        "size" => Ok(push_size(&sheet, came)?),
        _ => Ok(came.push_slice(b"no such call")?),
    }
}

/// `sheet ..`: the text, in which `\n` stands for the end of a line.
fn push_escaped(text: &[u8], came: &mut Text) -> Result<(), NoMemory> {
    for byte in text {
        push_byte(*byte, came)?;
    }
    Ok(())
}

fn push_byte(byte: u8, came: &mut Text) -> Result<(), NoMemory> {
    match byte {
        b'\n' => came.push_slice(b"\\n"),
        _ => came.push(byte),
    }
}

/// `size ..`: how many bytes the text has.
fn push_size(text: &Text, came: &mut Text) -> Result<(), NoMemory> {
    match u64::try_from(text.len()) {
        Ok(size) => came.push_number(size),
        Err(_) => came.push_slice(b"many"),
    }
}
