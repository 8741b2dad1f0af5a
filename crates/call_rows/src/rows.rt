//! Plays the rows of a file, each by the crate that knows its subject.

use fixed_units::{NoMemory, Text};
use row_lines::{Ended, is_row, parted};
use std::alloc::Global;

/// Plays each row. What came of the last one is left in `came`.
pub fn play_rows<'a>(alloc: Global, subject: &str, text: &'a str, came: &mut Text) -> Ended<'a> {
    if office_rows::are_blocks(subject) {
        office_rows::play_blocks(alloc, subject, text, came)
    } else if device_rows::are_of(subject) {
        device_rows::play_blocks(alloc, subject, text, came)
    } else {
        play_lines(alloc, subject, text, came)
    }
}

/// Plays each line that is a row.
fn play_lines<'a>(alloc: Global, subject: &str, text: &'a str, came: &mut Text) -> Ended<'a> {
    let mut rows = 0_u64;
    for line in text.lines() {
        if is_row(line) {
            match play_row(alloc, subject, line, came) {
                Ok(true) => rows = rows.saturating_add(1),
                Ok(false) => return Ended::Otherwise(line),
                Err(NoMemory) => return Ended::NoMemory,
            }
        }
    }
    Ended::AsDue(rows)
}

/// Whether what comes of a row is due. A line without ` -> ` is a row that never is.
fn play_row(alloc: Global, subject: &str, row: &str, came: &mut Text) -> Result<bool, NoMemory> {
    came.truncate(0);
    let Some((call, due)) = row.split_once(" -> ") else {
        return Ok(false);
    };
    let (word, rest) = parted(call);
    answer(alloc, subject, word, rest, came)?;
    Ok(came.as_slice() == due.as_bytes())
}

/// Writes what comes of a call on a subject.
fn answer(
    alloc: Global,
    subject: &str,
    word: &str,
    rest: &str,
    came: &mut Text,
) -> Result<(), NoMemory> {
    if field_rows::answer(alloc, subject, word, rest, came)?
        || edit_rows::answer(alloc, subject, word, rest, came)?
        || device_rows::answer(alloc, subject, word, rest, came)?
    {
        Ok(())
    } else {
        came.push_slice(b"no such subject")
    }
}
