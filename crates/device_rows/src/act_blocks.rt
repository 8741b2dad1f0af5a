//! Blocks of rows: a line `== NAME`, lines that say what is given at first, and rows that go on one from another.

use crate::{appends, cabinets, disks};
use fixed_units::{NoMemory, Text};
use row_lines::{Ended, parted};
use std::alloc::Global;

/// Whether the rows on a subject stand in blocks.
pub fn are_of(subject: &str) -> bool {
    matches!(subject, "appends" | "cabinets" | "disks")
}

/// Plays each block. What came of the last one is left in `came`, a line for each row.
pub fn play_blocks<'a>(alloc: Global, subject: &str, text: &'a str, came: &mut Text) -> Ended<'a> {
    let mut rows = 0_u64;
    for block in text.split("== ").skip(1) {
        match play_block(alloc, subject, block, came) {
            Ok(None) => rows = rows.saturating_add(count(block)),
            Ok(Some(row)) => return Ended::Otherwise(row),
            Err(NoMemory) => return Ended::NoMemory,
        }
    }
    Ended::AsDue(rows)
}

/// The first row of a block of which something else came than is due, or the block where more came than it has rows.
fn play_block<'a>(
    alloc: Global,
    subject: &str,
    block: &'a str,
    came: &mut Text,
) -> Result<Option<&'a str>, NoMemory> {
    came.truncate(0);
    answer(alloc, subject, block, came)?;
    Ok(first_wrong(block, str::from_utf8(came.as_slice()).unwrap_or("")))
}

fn first_wrong<'a>(block: &'a str, came: &str) -> Option<&'a str> {
    let mut told = came.lines();
    for line in block.lines().skip(1) {
        if let Some((_, due)) = line.split_once(" -> ") {
            if told.next() != Some(due) {
                return Some(line);
            }
        } else if !is_given(line) {
            return Some(line);
        }
    }
    if told.next().is_none() {
        None
    } else {
        Some(block)
    }
}

/// Whether a line says what is given, or nothing.
fn is_given(line: &str) -> bool {
    line.is_empty()
        || line.starts_with('#')
        || matches!(parted(line).0, "disk" | "failing" | "limit")
}

fn count(block: &str) -> u64 {
    let mut rows = 0_u64;
    for line in block.lines() {
        if line.contains(" -> ") {
            rows = rows.saturating_add(1);
        }
    }
    rows
}

/// Writes what comes of each row of a block, on a line of its own.
fn answer(alloc: Global, subject: &str, block: &str, came: &mut Text) -> Result<(), NoMemory> {
    match subject {
        "appends" => appends::answer(alloc, block, came),
        "cabinets" => cabinets::answer(alloc, block, came),
        "disks" => disks::answer(alloc, block, came),
        _ => came.push_slice(b"no such subject\n"),
    }
}

/// What stands behind the first line of a block that begins so; nothing where none does.
pub fn given<'a>(block: &'a str, begin: &str) -> &'a str {
    for line in block.lines() {
        if let Some(rest) = line.strip_prefix(begin) {
            return rest;
        }
    }
    ""
}
