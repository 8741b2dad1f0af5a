//! Calls of `rating_tables`: tables of stages and discharges, and the RDB texts that they are read from.

use crate::curve_points::{push_not_rising, push_place};
use crate::notation::{Stop, pairs, push_next, push_pairs, push_quantity, quantity, told};
use fixed_units::{NoMemory, Text, write_micro};
use ratings::{Rated, RdbFault, Table, TableFault, read_rdb};
use row_lines::parted;
use std::alloc::Global;

/// Writes what comes of a call.
pub fn answer(alloc: Global, word: &str, rest: &str, came: &mut Text) -> Result<(), NoMemory> {
    match word {
        "table" => told(rows(alloc, rest, came), came),
        "rdb" => told(rdb(alloc, rest, came), came),
        _ => told(of_table(alloc, word, rest, came), came),
    }
}

/// A call on a table: `WORD TABLE ARGUMENT`.
fn of_table(alloc: Global, word: &str, rest: &str, came: &mut Text) -> Result<(), Stop> {
    let (rows, rest) = parted(rest);
    match table_or_fault(alloc, rows)? {
        Ok(table) => answer_of(&table, word, rest, came),
        Err(_) => Err(Stop::NotWellFormed),
    }
}

/// `rate TABLE STAGE`: the discharge, or on which side of the table the stage is; `stage TABLE DISCHARGE`: the stage, or that there is none.
fn answer_of(table: &Table, word: &str, rest: &str, came: &mut Text) -> Result<(), Stop> {
    match word {
        "rate" => Ok(push_rated(table.rate(quantity(rest)?), came)?),
        "stage" => Ok(push_quantity(table.stage_of(quantity(rest)?), came)?),
        _ => Ok(came.push_slice(b"no such call")?),
    }
}

fn push_rated(rated: Rated, came: &mut Text) -> Result<(), NoMemory> {
    match rated {
        Rated::Value(discharge) => write_micro(discharge, came),
        Rated::Below => came.push_slice(b"below"),
        Rated::Above => came.push_slice(b"above"),
    }
}

/// What comes of rows, each `STAGE:DISCHARGE`, with commas between them.
fn table_or_fault(alloc: Global, text: &str) -> Result<Result<Table, TableFault>, Stop> {
    let rows = pairs(alloc, text)?;
    Ok(Table::new(alloc, rows.as_slice()))
}

/// A table by its rows.
pub fn table(alloc: Global, text: &str) -> Result<Table, Stop> {
    match table_or_fault(alloc, text)? {
        Ok(table) => Ok(table),
        Err(TableFault::NoMemory) => Err(Stop::NoMemory),
        Err(_) => Err(Stop::NotWellFormed),
    }
}

/// `table TABLE`: its rows, or why there is none.
fn rows(alloc: Global, text: &str, came: &mut Text) -> Result<(), Stop> {
    match table_or_fault(alloc, text)? {
        Ok(table) => Ok(push_pairs(table.rows(), came)?),
        Err(fault) => Ok(push_fault(fault, came)?),
    }
}

fn push_fault(fault: TableFault, came: &mut Text) -> Result<(), NoMemory> {
    match fault {
        TableFault::Count => came.push_slice(b"count"),
        TableFault::NotRising(place) => push_not_rising(place, came),
        TableFault::Falling(place) => push_falling(place, came),
        TableFault::NoMemory => Err(NoMemory),
    }
}

fn push_falling(place: usize, came: &mut Text) -> Result<(), NoMemory> {
    came.push_slice(b"falling ")?;
    push_place(place, came)
}

/// `rdb TEXT`: the rows of the table that an RDB text has, or why it has none and in which line.
fn rdb(alloc: Global, text: &str, came: &mut Text) -> Result<(), Stop> {
    let mut bytes = Text::new(alloc);
    read_escaped(alloc, text, &mut bytes, came)
}

fn read_escaped(alloc: Global, text: &str, bytes: &mut Text, came: &mut Text) -> Result<(), Stop> {
    push_unescaped(text, bytes)?;
    match read_rdb(alloc, bytes.as_slice()) {
        Ok(table) => Ok(push_pairs(table.rows(), came)?),
        Err(fault) => Ok(push_rdb_fault(fault, came)?),
    }
}

/// Writes a text in which `\n`, `\r` and `\t` stand for the end of a line, a carriage return and a tabulator, and `\m` for the mark of UTF-8.
pub fn push_unescaped(text: &str, bytes: &mut Text) -> Result<(), Stop> {
    let (first, rest) = text.split_once('\\').unwrap_or((text, ""));
    bytes.push_slice(first.as_bytes())?;
    if rest.is_empty() {
        return Ok(());
    }
    for piece in rest.split('\\') {
        push_escape(piece, bytes)?;
    }
    Ok(())
}

fn push_escape(piece: &str, bytes: &mut Text) -> Result<(), Stop> {
    if let Some(rest) = piece.strip_prefix('n') {
        return push_both(b"\n", rest, bytes);
    }
    if let Some(rest) = piece.strip_prefix('t') {
        return push_both(b"\t", rest, bytes);
    }
    if let Some(rest) = piece.strip_prefix('r') {
        return push_both(b"\r", rest, bytes);
    }
    match piece.strip_prefix('m') {
        Some(rest) => push_both(b"\xEF\xBB\xBF", rest, bytes),
        None => Err(Stop::NotWellFormed),
    }
}

fn push_both(first: &[u8], rest: &str, bytes: &mut Text) -> Result<(), Stop> {
    bytes.push_slice(first)?;
    Ok(bytes.push_slice(rest.as_bytes())?)
}

/// The fault, the number that it says, and the line that it tells.
fn push_rdb_fault(fault: RdbFault, came: &mut Text) -> Result<(), NoMemory> {
    match fault {
        RdbFault::NoNames => came.push_slice(b"no names")?,
        RdbFault::NoColumn(line) => push_numbered(b"no column", line, came)?,
        RdbFault::Number(line) => push_numbered(b"number", line, came)?,
        RdbFault::Shift(line) => push_numbered(b"shift", line, came)?,
        RdbFault::Order(line) => push_numbered(b"order", line, came)?,
        RdbFault::Count => came.push_slice(b"count")?,
        RdbFault::NoMemory => return Err(NoMemory),
    }
    push_line(fault.line(), came)
}

fn push_numbered(name: &[u8], number: u64, came: &mut Text) -> Result<(), NoMemory> {
    came.push_slice(name)?;
    push_next(i128::from(number), came)
}

/// Writes a line by its number.
pub fn push_line(line: u64, came: &mut Text) -> Result<(), NoMemory> {
    came.push_slice(b", line ")?;
    came.push_number(line)
}
