//! What is read of a journal: records whose bytes stand behind their gates, which are open.

use crate::escapes::push_counted;
use crate::memory::disk;
use devices::MemoryDisk;
use fixed_units::{NoMemory, Text};
use journal::{OpenFault, Opening, open};
use records::{Format, Record, encode};
use std::alloc::Global;

/// What comes of a read.
#[derive(Clone, Copy)]
pub enum Came {
    /// The record whose bytes stand behind its gate, which is open.
    Record,
    /// A record that does not stand there.
    Other,
    End,
    Fault(OpenFault),
    NoMemory,
}

/// How many records there are, and what comes of the read behind them.
pub type Found = (u64, Came);

/// Whether these bytes stand behind an open gate at this offset.
fn stands(bytes: &[u8], gate: u64, text: &[u8]) -> bool {
    let from_gate = bytes.get(gate as usize..).unwrap_or_default();
    let behind = from_gate.strip_prefix(b"\x01").unwrap_or_default();
    behind.starts_with(text)
}

fn look_behind(alloc: Global, bytes: &[u8], gate: u64, piece: &Record, format: Format) -> Came {
    if !format.holds(&piece.edit().comment) {
        return Came::Other;
    }
    match encode(alloc, piece, format) {
        Ok(text) if stands(bytes, gate, text.as_slice()) => Came::Record,
        Ok(_) => Came::Other,
        Err(_) => Came::NoMemory,
    }
}

/// Reads a journal of these bytes on.
fn read(alloc: Global, opening: &mut Opening<MemoryDisk>, bytes: &[u8]) -> Came {
    match opening.next(alloc) {
        Ok(Some(piece)) => { look_behind(alloc, bytes, opening.offset(), &piece, opening.format()) }
        Ok(None) => Came::End,
        Err(fault) => Came::Fault(fault),
    }
}

fn read_all(alloc: Global, opening: &mut Opening<MemoryDisk>, bytes: &[u8]) -> Found {
    for number in 0..9 {
        let found = read(alloc, opening, bytes);
        if !matches!(found, Came::Record) {
            return (number, found);
        }
    }
    (9, Came::Record)
}

fn count_on(alloc: Global, made: MemoryDisk, bytes: &[u8]) -> Found {
    match open(alloc, made) {
        Ok(mut opening) => read_all(alloc, &mut opening, bytes),
        Err(refused) => (0, Came::Fault(refused.fault)),
    }
}

/// The records of a journal of these bytes.
pub fn count(alloc: Global, bytes: &[u8]) -> Found {
    match disk(alloc, bytes, "-") {
        Ok(made) => count_on(alloc, made, bytes),
        Err(NoMemory) => (0, Came::NoMemory),
    }
}

/// Adds how many records there are, and what comes of the read behind them.
pub fn push_found(found: Found, came: &mut Text) -> Result<(), NoMemory> {
    push_counted(b"records ", found.0, came)?;
    came.push_slice(b", ")?;
    push_came(found.1, came)
}

fn push_came(found: Came, came: &mut Text) -> Result<(), NoMemory> {
    match found {
        Came::Record => came.push_slice(b"record"),
        Came::Other => came.push_slice(b"other record"),
        Came::End => came.push_slice(b"end"),
        Came::Fault(fault) => push_fault(fault, came),
        Came::NoMemory => Err(NoMemory),
    }
}

/// Adds why a journal is not opened or read on.
pub fn push_fault(fault: OpenFault, came: &mut Text) -> Result<(), NoMemory> {
    match fault {
        OpenFault::Fault => came.push_slice(b"fault"),
        OpenFault::NotAJournal => came.push_slice(b"not a journal"),
        OpenFault::Damaged(at) => push_counted(b"damaged at ", at, came),
        OpenFault::NoMemory => Err(NoMemory),
    }
}

/// Adds what comes of so many reads, and the offset behind each.
pub fn read_some(
    alloc: Global,
    opening: &mut Opening<MemoryDisk>,
    bytes: &[u8],
    count: u32,
    came: &mut Text,
) -> Result<(), NoMemory> {
    for _ in 0..count {
        push_came(read(alloc, opening, bytes), came)?;
        push_counted(b" at ", opening.offset(), came)?;
        came.push_slice(b"; ")?;
    }
    Ok(())
}
