//! Bodies of so many rows that a program writes them: the body is given with an `@` in the place of its rows.

use crate::body_calls::push_fault;
use crate::edit_bytes::push_text;
use crate::edit_texts::{push_count, push_sender, push_word};
use civil_days::write_instant;
use edit_bodies::read_edit;
use edits::{Edit, What};
use fixed_units::{Flag, NoMemory, Reading, Second, Text};
use json::Scratch;
use rating_tables::SharedTable;
use row_lines::parted;
use std::alloc::Global;

/// How many seconds the readings are apart.
const STEP: i64 = 900;

/// `readings COUNT BODY`: the body with so many readings from 1970-01-01 on, a quarter of an hour apart, of 0, 1, 2 .. feet; each third has
/// a flag.
pub fn readings(alloc: Global, rest: &str, came: &mut Text) -> Result<(), NoMemory> {
    let (count, body) = parted(rest);
    match (count.parse(), body.split_once('@')) {
        (Ok(count), Some((front, back))) => read_readings(alloc, count, front, back, came),
        _ => came.push_slice(b"not well formed"),
    }
}

fn read_readings(
    alloc: Global,
    count: u32,
    front: &str,
    back: &str,
    came: &mut Text,
) -> Result<(), NoMemory> {
    let mut body = Text::new(alloc);
    push_text(front, &mut body)?;
    push_readings(count, &mut body)?;
    push_text(back, &mut body)?;
    push_read(alloc, body.as_slice(), came)
}

fn push_readings(count: u32, body: &mut Text) -> Result<(), NoMemory> {
    for row in 0..count {
        push_comma(row, body)?;
        push_reading(row, body)?;
    }
    Ok(())
}

fn push_comma(row: u32, body: &mut Text) -> Result<(), NoMemory> {
    if row == 0 {
        return Ok(());
    }
    body.push(b',')
}

fn push_reading(row: u32, body: &mut Text) -> Result<(), NoMemory> {
    body.push_slice(b"[\"")?;
    push_instant(row, body)?;
    body.push_slice(b"\",\"")?;
    body.push_number(u64::from(row))?;
    if row % 3 == 0 {
        body.push_slice(b"\",\"affected")?;
    }
    body.push_slice(b"\"]")
}

fn push_instant(row: u32, body: &mut Text) -> Result<(), NoMemory> {
    match Second::new(i64::from(row) * STEP) {
        Some(at) => write_instant(at, body),
        None => Ok(()),
    }
}

/// `rows COUNT BODY`: the body with so many rows of a rating, each a foot and a cubic foot per second above the one before.
pub fn rows(alloc: Global, rest: &str, came: &mut Text) -> Result<(), NoMemory> {
    let (count, body) = parted(rest);
    match (count.parse(), body.split_once('@')) {
        (Ok(count), Some((front, back))) => read_rows(alloc, count, front, back, came),
        _ => came.push_slice(b"not well formed"),
    }
}

fn read_rows(
    alloc: Global,
    count: u32,
    front: &str,
    back: &str,
    came: &mut Text,
) -> Result<(), NoMemory> {
    let mut body = Text::new(alloc);
    push_text(front, &mut body)?;
    push_rows(count, &mut body)?;
    push_text(back, &mut body)?;
    push_read(alloc, body.as_slice(), came)
}

fn push_rows(count: u32, body: &mut Text) -> Result<(), NoMemory> {
    for row in 0..count {
        push_comma(row, body)?;
        push_row(row, body)?;
    }
    Ok(())
}

fn push_row(row: u32, body: &mut Text) -> Result<(), NoMemory> {
    body.push_slice(b"[\"")?;
    body.push_number(u64::from(row))?;
    body.push_slice(b"\",\"")?;
    body.push_number(u64::from(row))?;
    body.push_slice(b"\"]")
}

fn push_read(alloc: Global, body: &[u8], came: &mut Text) -> Result<(), NoMemory> {
    let mut scratch = Scratch::new(alloc);
    match read_edit(alloc, body, &mut scratch) {
        Ok(edit) => push_edit(&edit, came),
        Err(fault) => push_fault(fault, came),
    }
}

/// Writes whose edit it is, what it changes, and how many rows it has as stated.
fn push_edit(edit: &Edit, came: &mut Text) -> Result<(), NoMemory> {
    push_sender(edit, came)?;
    match &edit.what {
        What::PutReadings { readings } => push_put(readings.as_slice(), came),
        What::AddRating { rating, table } => push_rating(*rating, table, came),
        _ => push_word(b"otherwise", came),
    }
}

fn push_put(readings: &[Reading], came: &mut Text) -> Result<(), NoMemory> {
    push_word(b"PutReadings", came)?;
    came.push(b' ')?;
    came.push_number(readings.len() as u64)?;
    push_word(stated(are_stated(readings)), came)
}

fn push_rating(rating: u32, table: &SharedTable, came: &mut Text) -> Result<(), NoMemory> {
    push_word(b"AddRating", came)?;
    push_count(rating, came)?;
    came.push(b' ')?;
    came.push_number(table.table().rows().len() as u64)?;
    push_word(stated(are_stated_rows(table)), came)
}

fn stated(told: bool) -> &'static [u8] {
    if told { b"as stated" } else { b"otherwise" }
}

/// Whether the readings are those that the rows state.
fn are_stated(readings: &[Reading]) -> bool {
    let mut row = 0_u32;
    for reading in readings {
        if !is_stated(row, reading) {
            return false;
        }
        row = row.saturating_add(1);
    }
    true
}

fn is_stated(row: u32, reading: &Reading) -> bool {
    let number = i64::from(row);
    reading.at.get() == number * STEP
        && reading.raw.get() == number * 1_000_000
        && is_flag_stated(row % 3 == 0, reading.flag)
}

fn is_flag_stated(is_third: bool, flag: Flag) -> bool {
    match flag {
        Flag::Usable => !is_third,
        Flag::Erroneous => false,
        Flag::Affected => is_third,
    }
}

/// Whether the rows of a table are those that the rows state.
fn are_stated_rows(table: &SharedTable) -> bool {
    let mut row = 0_i64;
    for (stage, discharge) in table.table().rows() {
        if stage.get() != row || discharge.get() != row {
            return false;
        }
        row = row.saturating_add(1_000_000);
    }
    true
}
