//! Calls on words, documents, messages, journals and devices in memory, by the words of rows.
#![tactic(auto)]

mod act_blocks;
mod appends;
mod cabinets;
mod copies;
mod disks;
mod documents;
mod escapes;
mod journals;
mod memory;
mod messages;
mod orders;
mod reads;
mod replies;
mod streams;
mod words;
mod written;

pub use act_blocks::{are_of, play_blocks};
use fixed_units::{NoMemory, Text};
use std::alloc::Global;

/// Writes what comes of a call on a subject of this crate; whether it is one.
pub fn answer(
    alloc: Global,
    subject: &str,
    word: &str,
    rest: &str,
    came: &mut Text,
) -> Result<bool, NoMemory> {
    match subject {
        "documents" => documents::answer(alloc, word, rest, came)?,
        "journals" => journals::answer(alloc, word, rest, came)?,
        "messages" => messages::answer(alloc, word, rest, came)?,
        "replies" => replies::answer(alloc, word, rest, came)?,
        "streams" => streams::answer(alloc, word, rest, came)?,
        "words" => words::answer(alloc, word, rest, came)?,
        _ => return Ok(false),
    }
    Ok(true)
}
