//! Journals on disks in memory: records that are appended, and gates that are mended.

use crate::act_blocks::given;
use crate::escapes::push_shown;
use crate::memory::{bytes_of, disk, push_calls};
use crate::reads::{count, push_found};
use devices::{DiskFailed, MemoryDisk};
use fixed_units::{NoMemory, Text};
use journal::{AppendFault, Journal, open};
use row_lines::parted;
use std::alloc::Global;

/// Does all of a block to the journal of at most `limit` bytes on a disk of the bytes behind `disk`, whose calls behind `failing` fail, and
/// writes what comes of each row.
pub fn answer(alloc: Global, block: &str, came: &mut Text) -> Result<(), NoMemory> {
    let bytes = bytes_of(alloc, given(block, "disk "))?;
    let made = disk(alloc, bytes.as_slice(), given(block, "failing "))?;
    act_on_disk(alloc, made, block, came)
}

fn act_on_disk(
    alloc: Global,
    made: MemoryDisk,
    block: &str,
    came: &mut Text,
) -> Result<(), NoMemory> {
    let limit = given(block, "limit ").parse().unwrap_or(0);
    match opened(alloc, made, limit) {
        Some(journal) => act_and_close(alloc, journal, block, came),
        None => came.push_slice(b"not opened\n"),
    }
}

/// The journal of at most so many bytes on a disk, whose records are read to the end.
fn opened(alloc: Global, made: MemoryDisk, limit: u64) -> Option<Journal<MemoryDisk>> {
    let mut opening = open(alloc, made).ok()?;
    for _ in 0..9 {
        match opening.next(alloc) {
            Ok(Some(_)) => {}
            Ok(None) => return Some(opening.finish(limit)),
            Err(_) => return None,
        }
    }
    None
}

/// Does all of a block to a journal, and closes it.
fn act_and_close(
    alloc: Global,
    mut journal: Journal<MemoryDisk>,
    block: &str,
    came: &mut Text,
) -> Result<(), NoMemory> {
    let went = act_all(alloc, &mut journal, block, came);
    let left = push_left(alloc, &journal.close(), came);
    went?;
    left
}

fn act_all(
    alloc: Global,
    journal: &mut Journal<MemoryDisk>,
    block: &str,
    came: &mut Text,
) -> Result<(), NoMemory> {
    for line in block.lines() {
        if let Some((call, _)) = line.split_once(" -> ") {
            act(alloc, journal, call, came)?;
        }
    }
    Ok(())
}

/// Does what a row says. Its last row, `left`, is written once the journal is closed.
fn act(
    alloc: Global,
    journal: &mut Journal<MemoryDisk>,
    call: &str,
    came: &mut Text,
) -> Result<(), NoMemory> {
    let (word, rest) = parted(call);
    match word {
        "append" => append(alloc, journal, rest, came),
        "mend" => came.push_slice(mend(journal)),
        "fits" => came.push_slice(fits(journal, rest)),
        "left" => Ok(()),
        _ => came.push_slice(b"no such call\n"),
    }
}

/// `append BYTES`: a record with a gate behind it is appended, if no gate is in doubt.
fn append(
    alloc: Global,
    journal: &mut Journal<MemoryDisk>,
    text: &str,
    came: &mut Text,
) -> Result<(), NoMemory> {
    let bytes = bytes_of(alloc, text)?;
    came.push_slice(append_bytes(journal, bytes.as_slice()))
}

fn append_bytes(journal: &mut Journal<MemoryDisk>, bytes: &[u8]) -> &'static [u8] {
    if journal.in_doubt() {
        return b"in doubt\n";
    }
    match journal.append(bytes) {
        Ok(()) => b"done\n",
        Err(AppendFault::Full) => b"full\n",
        Err(AppendFault::Fault(false)) => b"fault\n",
        Err(AppendFault::Fault(true)) => b"fault that leaves a doubt\n",
    }
}

/// `mend`: the gate that is in doubt is mended.
fn mend(journal: &mut Journal<MemoryDisk>) -> &'static [u8] {
    if !journal.in_doubt() {
        return b"no doubt\n";
    }
    match journal.mend() {
        Ok(()) => b"done\n",
        Err(DiskFailed) => b"fault\n",
    }
}

/// `fits COUNT`: whether so many bytes fit.
fn fits(journal: &Journal<MemoryDisk>, count: &str) -> &'static [u8] {
    if journal.fits(count.parse().unwrap_or(0)) {
        b"yes\n"
    } else {
        b"no\n"
    }
}

/// Adds how many calls and faults a disk had, how many records its journal has, and its bytes.
fn push_left(alloc: Global, left: &MemoryDisk, came: &mut Text) -> Result<(), NoMemory> {
    push_calls(left.call_count(), left.fault_count(), came)?;
    came.push_slice(b"; ")?;
    push_found(count(alloc, left.bytes()), came)?;
    came.push_slice(b"; ")?;
    push_shown(left.bytes(), came)?;
    came.push_slice(b"\n")
}
