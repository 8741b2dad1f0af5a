//! Calls of `edit_bodies`: which edit a body is, or what refuses it.

use crate::edit_bytes::push_text;
use crate::edit_texts::push_edit;
use crate::many_bodies;
use edit_bodies::{BodyFault, read_edit};
use fixed_units::{NoMemory, Text};
use json::Scratch;
use std::alloc::Global;

/// Writes what comes of a call.
pub fn answer(alloc: Global, word: &str, rest: &str, came: &mut Text) -> Result<(), NoMemory> {
    match word {
        "body" => body(alloc, rest, came),
        "readings" => many_bodies::readings(alloc, rest, came),
        "rows" => many_bodies::rows(alloc, rest, came),
        _ => came.push_slice(b"no such call"),
    }
}

/// `body BODY`: the edit that it is, or what refuses it, as it stands and behind many blanks; both where they differ.
fn body(alloc: Global, text: &str, came: &mut Text) -> Result<(), NoMemory> {
    let mut bytes = Text::new(alloc);
    push_text(text, &mut bytes)?;
    push_read_twice(alloc, bytes.as_slice(), came)
}

fn push_read_twice(alloc: Global, body: &[u8], came: &mut Text) -> Result<(), NoMemory> {
    let mut scratch = Scratch::new(alloc);
    use_scratch(alloc, &mut scratch)?;
    push_read(alloc, body, &mut scratch, came)?;
    push_read_behind_blanks(alloc, body, &mut scratch, came)
}

/// A text with escapes, which is no edit.
const SPELLED: &[u8] = br#"{"k\u0069nd":"\u0041 text with an escape"}"#;

/// Reads another body with the scratch, so that no row has a new one.
fn use_scratch(alloc: Global, scratch: &mut Scratch) -> Result<(), NoMemory> {
    match read_edit(alloc, SPELLED, scratch) {
        Err(BodyFault::NoMemory) => Err(NoMemory),
        _ => Ok(()),
    }
}

/// Writes the edit that a body is, or what refuses it.
fn push_read(
    alloc: Global,
    body: &[u8],
    scratch: &mut Scratch,
    came: &mut Text,
) -> Result<(), NoMemory> {
    match read_edit(alloc, body, scratch) {
        Ok(edit) => push_edit(&edit, came),
        Err(fault) => push_fault(fault, came),
    }
}

/// Writes what refuses a body.
pub fn push_fault(fault: BodyFault, came: &mut Text) -> Result<(), NoMemory> {
    match fault {
        BodyFault::Json => came.push_slice(b"no JSON"),
        BodyFault::Body(member) => push_refused(member.text(), came),
        BodyFault::NoMemory => Err(NoMemory),
    }
}

fn push_refused(member: &str, came: &mut Text) -> Result<(), NoMemory> {
    came.push_slice(b"refused by ")?;
    came.push_slice(member.as_bytes())
}

/// Writes what comes of the body behind so many blanks that it is a long one, which is tried without a tree first; but not where it is what
/// was written last.
fn push_read_behind_blanks(
    alloc: Global,
    body: &[u8],
    scratch: &mut Scratch,
    came: &mut Text,
) -> Result<(), NoMemory> {
    let half = came.len();
    let mut long = Text::new(alloc);
    push_blanks(&mut long)?;
    long.push_slice(body)?;
    push_read(alloc, long.as_slice(), scratch, came)?;
    if is_twice(came.as_slice(), half) {
        came.truncate(half);
    }
    Ok(())
}

fn push_blanks(out: &mut Text) -> Result<(), NoMemory> {
    for _ in 0..512 {
        out.push(b' ')?;
    }
    Ok(())
}

/// Whether the bytes are so many and the same once more.
fn is_twice(bytes: &[u8], half: usize) -> bool {
    bytes.get(..half) == bytes.get(half..)
}
