//! Calls on edits, their records and their bodies, by the words of rows.
#![tactic(auto)]

mod body_calls;
mod edit_bytes;
mod edit_calls;
mod edit_notation;
mod edit_parts;
mod edit_texts;
mod edit_words;
mod many_bodies;
mod record_calls;

use fixed_units::{NoMemory, Text};
use std::alloc::Global;

/// Writes what comes of a call on a subject of this crate; whether it is one.
pub fn answer(
    alloc: Global,
    subject: &str,
    word: &str,
    rest: &str,
    came: &mut Text,
) -> Result<bool, NoMemory> {
    match subject {
        "edits" => edit_calls::answer(alloc, word, rest, came)?,
        "records" => record_calls::answer(alloc, word, rest, came)?,
        "bodies" => body_calls::answer(alloc, word, rest, came)?,
        _ => return Ok(false),
    }
    Ok(true)
}
