//! Rows that stand in blocks: a line `== NAME` begins one, with something new to play on, and each row behind it is an act on that.
//! Lines `with WORD ..` say what it begins with. What stands before the first block is for all of them.

use crate::{cells, inputs, offices, readmitted, reviews};
use fixed_units::{NoMemory, Text};
use office_inputs::Limits;
use row_lines::{Ended, parted};
use std::alloc::Global;

/// What the rows of a block are played on.
pub trait Bench {
    /// Does an act, and writes what is told of it. `book` is what stands before the first block of the file.
    fn act(
        &mut self,
        alloc: Global,
        book: &str,
        act: &str,
        came: &mut Text,
    ) -> Result<(), NoMemory>;
}

/// Whether the rows on a subject stand in blocks of acts.
pub fn are_blocks(subject: &str) -> bool {
    matches!(
        subject,
        "cells" | "inputs" | "offices" | "readmitted" | "reviews"
    )
}

/// Plays each row of each block. What came of the last one is left in `came`.
pub fn play_blocks<'a>(alloc: Global, subject: &str, text: &'a str, came: &mut Text) -> Ended<'a> {
    let mut rows = 0_u64;
    for block in text.split("== ").skip(1) {
        match play_named(alloc, (subject, book_of(text)), block, came) {
            Ended::AsDue(more) => rows = rows.saturating_add(more),
            ended => return ended,
        }
    }
    Ended::AsDue(rows)
}

fn book_of(text: &str) -> &str {
    match text.split_once("== ") {
        Some((book, _)) => book,
        None => "",
    }
}

/// Plays a block, and names it behind what came where that is not due.
fn play_named<'a>(
    alloc: Global,
    (subject, book): (&str, &str),
    block: &'a str,
    came: &mut Text,
) -> Ended<'a> {
    let (name, text) = named(block);
    match play_block(alloc, (subject, book), text, came) {
        Ended::Otherwise(line) => otherwise(name, line, came),
        ended => ended,
    }
}

/// The name of a block, and its lines.
fn named(block: &str) -> (&str, &str) {
    block.split_once('\n').unwrap_or((block, ""))
}

fn otherwise<'a>(name: &str, line: &'a str, came: &mut Text) -> Ended<'a> {
    match add_name(name, came) {
        Ok(()) => Ended::Otherwise(line),
        Err(NoMemory) => Ended::NoMemory,
    }
}

fn add_name(name: &str, came: &mut Text) -> Result<(), NoMemory> {
    came.push_slice(b" == ")?;
    came.push_slice(name.as_bytes())
}

fn play_block<'a>(
    alloc: Global,
    (subject, book): (&str, &str),
    block: &'a str,
    came: &mut Text,
) -> Ended<'a> {
    match subject {
        "cells" => cells::play(alloc, block, came),
        "inputs" => inputs::play(alloc, block, came),
        "offices" => offices::play(alloc, book, block, came),
        "readmitted" => readmitted::play(alloc, book, block, came),
        "reviews" => reviews::play(alloc, block, came),
        _ => Ended::Otherwise(block),
    }
}

/// Plays the rows of a block on a bench.
pub fn play_on<'a, B: Bench>(
    alloc: Global,
    bench: &mut B,
    book: &str,
    block: &'a str,
    came: &mut Text,
) -> Ended<'a> {
    let mut rows = 0_u64;
    for line in block.lines() {
        if is_act(line) {
            match play_act(alloc, bench, book, line, came) {
                Ok(true) => rows = rows.saturating_add(1),
                Ok(false) => return Ended::Otherwise(line),
                Err(NoMemory) => return Ended::NoMemory,
            }
        }
    }
    Ended::AsDue(rows)
}

fn is_act(line: &str) -> bool {
    !line.is_empty() && !line.starts_with('#') && !line.starts_with("with ")
}

/// Whether what is told of an act is due. A line without ` -> ` is an act of which nothing is.
fn play_act<B: Bench>(
    alloc: Global,
    bench: &mut B,
    book: &str,
    line: &str,
    came: &mut Text,
) -> Result<bool, NoMemory> {
    came.truncate(0);
    let Some((act, due)) = line.split_once(" -> ") else {
        return Ok(false);
    };
    bench.act(alloc, book, act, came)?;
    Ok(came.as_slice() == due.as_bytes())
}

/// The limits of a block: the usual ones, but for those that a line names. None where a line is not known.
pub fn limits_of(block: &str) -> Option<Limits> {
    let mut limits = Limits::usual();
    for line in block.lines() {
        if let Some(given) = line.strip_prefix("with ") {
            let (word, rest) = parted(given);
            limits = limited(limits, word, rest)?;
        }
    }
    Some(limits)
}

fn limited(limits: Limits, word: &str, rest: &str) -> Option<Limits> {
    match word {
        "stations" | "readings" | "day-readings" => counted(limits, word, rest.parse().ok()?),
        "events" | "cells" | "bytes" => filled(limits, word, rest.parse().ok()?),
        "failing" | "journal" => Some(limits),
        _ => None,
    }
}

/// How many stations and readings there are at most.
fn counted(mut limits: Limits, word: &str, most: u32) -> Option<Limits> {
    match word {
        "stations" => limits.stations = most,
        "readings" => limits.readings = u64::from(most),
        _ => limits.day_readings = most,
    }
    Some(limits)
}

/// How much a history and its journal hold at most.
fn filled(mut limits: Limits, word: &str, most: u64) -> Option<Limits> {
    match word {
        "events" => limits.events = most,
        "cells" => limits.cells = most,
        _ => limits.journal_bytes = most,
    }
    Some(limits)
}

/// What the first line of a block says that begins with `with` and a word, or nothing.
pub fn given<'a>(block: &'a str, word: &str) -> &'a str {
    for line in block.lines() {
        if let Some(given) = line.strip_prefix("with ") {
            let (named, rest) = parted(given);
            if named == word {
                return rest;
            }
        }
    }
    ""
}
