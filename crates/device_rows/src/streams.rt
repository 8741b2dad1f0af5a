//! Sources and sinks in memory, which come in pieces and fail on command.

ghost use Rattle.std.specs.Prelude.{◌<◌};

use crate::escapes::{push_counted, push_shown};
use crate::memory::{numbers, push_calls};
use devices::{MemorySink, MemorySource, Put, Sink, Source, Took};
use fixed_units::{NoMemory, Text};
use row_lines::parted;
use std::alloc::Global;

/// Writes what comes of a call.
pub fn answer(alloc: Global, word: &str, rest: &str, came: &mut Text) -> Result<(), NoMemory> {
    match word {
        "joins" => joins(alloc, rest, came),
        "takes" => takes(alloc, rest, came),
        "puts" => puts(alloc, rest, came),
        _ => came.push_slice(b"no such call"),
    }
}

/// `joins PIECE TEXT`: what a source gives of a text up to its end, so many bytes at once, in a room of 4 bytes, and what it gives behind
/// that.
fn joins(alloc: Global, rest: &str, came: &mut Text) -> Result<(), NoMemory> {
    let (piece, text) = parted(rest);
    match piece.parse().unwrap_or(0) {
        0 => came.push_slice(b"no piece"),
        piece => join(&mut source(alloc, text, "-", piece)?, came),
    }
}

fn join(source: &mut MemorySource, came: &mut Text) -> Result<(), NoMemory> {
    push_all(source, came)?;
    push_all(source, came)?;
    push_counted(b"faults ", source.fault_count(), came)
}

/// A source of a text in pieces of so many bytes.
fn source(alloc: Global, text: &str, failing: &str, piece: usize) -> Result<MemorySource, NoMemory>
    requires { 0 < piece }
{
    let failing = numbers(alloc, failing)?;
    let bytes = text.as_bytes().to_vec(alloc)?;
    Ok(MemorySource::new(bytes, failing, piece))
}

/// Adds what a source gives up to its end, or up to a failure.
fn push_all(source: &mut MemorySource, came: &mut Text) -> Result<(), NoMemory> {
    let mut room = [0; 4];
    for _ in 0..20 {
        match source.take(&mut room) {
            Took::Bytes(count) => push_shown(&room[..count], came)?,
            Took::End => return came.push_slice(b" end; "),
            Took::Failed => return came.push_slice(b" failed; "),
        }
    }
    came.push_slice(b" no end; ")
}

/// `takes FAILING PIECE COUNT TEXT`: what comes of so many calls of a source, each in a room of 10 bytes, and how many calls and faults it
/// has had then.
fn takes(alloc: Global, rest: &str, came: &mut Text) -> Result<(), NoMemory> {
    let (failing, rest) = parted(rest);
    let (piece, rest) = parted(rest);
    let (count, text) = parted(rest);
    match piece.parse().unwrap_or(0) {
        0 => came.push_slice(b"no piece"),
        piece => take_all(
            &mut source(alloc, text, failing, piece)?,
            count.parse().unwrap_or(0),
            came,
        ),
    }
}

fn take_all(source: &mut MemorySource, count: u32, came: &mut Text) -> Result<(), NoMemory> {
    for _ in 0..count {
        take(source, came)?;
    }
    push_calls(source.calls(), source.fault_count(), came)
}

fn take(source: &mut MemorySource, came: &mut Text) -> Result<(), NoMemory> {
    let mut room = [0; 10];
    match source.take(&mut room) {
        Took::Bytes(count) => push_taken(&room[..count], came),
        Took::End => came.push_slice(b"end; "),
        Took::Failed => came.push_slice(b"failed; "),
    }
}

fn push_taken(bytes: &[u8], came: &mut Text) -> Result<(), NoMemory> {
    push_counted(b"", bytes.len() as u64, came)?;
    came.push_slice(b" '")?;
    push_shown(bytes, came)?;
    came.push_slice(b"'; ")
}

/// `puts FAILING PIECE TEXT|TEXT..`: what comes of putting each text into a sink, and what is there then; and how many calls and faults it
/// has had then.
fn puts(alloc: Global, rest: &str, came: &mut Text) -> Result<(), NoMemory> {
    let (failing, rest) = parted(rest);
    let (piece, texts) = parted(rest);
    match piece.parse().unwrap_or(0) {
        0 => came.push_slice(b"no piece"),
        piece => put_all(&mut sink(alloc, failing, piece)?, texts, came),
    }
}

/// A sink that takes so many bytes at once.
fn sink(alloc: Global, failing: &str, piece: usize) -> Result<MemorySink, NoMemory>
    requires { 0 < piece }
{
    let failing = numbers(alloc, failing)?;
    Ok(MemorySink::new(alloc, failing, piece))
}

fn put_all(sink: &mut MemorySink, texts: &str, came: &mut Text) -> Result<(), NoMemory> {
    for text in texts.split('|') {
        push_put(put(sink, text.as_bytes()), came)?;
        push_shown(sink.bytes(), came)?;
        came.push_slice(b"; ")?;
    }
    push_calls(sink.calls(), sink.fault_count(), came)
}

/// What comes of putting bytes, where there are some.
fn put(sink: &mut MemorySink, bytes: &[u8]) -> Option<Put> {
    if bytes.is_empty() {
        return None;
    }
    Some(sink.put(bytes))
}

fn push_put(put: Option<Put>, came: &mut Text) -> Result<(), NoMemory> {
    match put {
        Some(Put::Bytes(count)) => push_counted(b"", count as u64, came),
        Some(Put::Failed) => came.push_slice(b"failed"),
        None => came.push_slice(b"nothing to put"),
    }?;
    came.push_slice(b", ")
}
