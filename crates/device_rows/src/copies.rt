//! Journals whose records are copied into others of the second format, and copies that are stopped and begun again.

use crate::escapes::{push_counted, push_shown};
use crate::memory::{bytes_of, disk};
use crate::reads::push_fault;
use devices::{MemoryDisk, Unsynced};
use fixed_units::{NoMemory, Text};
use journal::OpenFault;
use migration::{CopyFault, copy_records, has_room, read_records};
use records::Record;
use row_lines::parted;
use std::alloc::Global;

/// How many bytes a journal may have.
const MOST: u64 = 536_870_912;

/// What a row gives: the records of one journal, and the bytes of another.
#[derive(Drop)]
struct Given {
    records: Result<Vec<Record>, OpenFault>,
    bytes: Text,
}

/// The bytes of the journal that is copied to, and behind them ` | ` and those of the one that is copied.
fn given_records(alloc: Global, text: &str) -> Result<Given, NoMemory> {
    let (to, from) = text.split_once(" | ").unwrap_or((text, ""));
    let bytes = bytes_of(alloc, to)?;
    let from = bytes_of(alloc, from)?;
    let (records, _read) = read_records(alloc, disk(alloc, from.as_slice(), "-")?);
    Ok(Given { records, bytes })
}

/// `copy LIMIT FAILING BYTES | BYTES`: what comes of the copy of the second journal into the first, where one may have at most so many bytes and
/// some calls of the first one's disk fail; and the bytes of that disk then.
pub fn copy(alloc: Global, rest: &str, came: &mut Text) -> Result<(), NoMemory> {
    let (limit, rest) = parted(rest);
    let (failing, rest) = parted(rest);
    let given = given_records(alloc, rest)?;
    match &given.records {
        Ok(records) => {
            let made = disk(alloc, given.bytes.as_slice(), failing)?;
            copy_into(
                alloc,
                made,
                records.as_slice(),
                limit.parse().unwrap_or(0),
                came,
            )
        }
        Err(fault) => push_fault(*fault, came),
    }
}

fn copy_into(
    alloc: Global,
    made: MemoryDisk,
    records: &[Record],
    limit: u64,
    came: &mut Text,
) -> Result<(), NoMemory> {
    if !has_room(records, limit) {
        return came.push_slice(b"full");
    }
    let (copied, left) = copy_records(alloc, made, records, limit);
    push_copied(copied, came)?;
    push_shown(left.bytes(), came)
}

fn push_copied(copied: Result<(), CopyFault>, came: &mut Text) -> Result<(), NoMemory> {
    match copied {
        Ok(()) => came.push_slice(b"done")?,
        Err(CopyFault::Open(fault)) => push_fault(fault, came)?,
        Err(CopyFault::Differs(number)) => push_counted(b"differs at ", number, came)?,
    }
    came.push_slice(b"; ")
}

/// `stops BYTES | BYTES`: of how many images that a stop leaves behind each call of the copy of the second journal into the first, by each that may
/// become of the bytes that were not synced, the copy is begun again and comes to the same bytes.
pub fn stops(alloc: Global, rest: &str, came: &mut Text) -> Result<(), NoMemory> {
    let given = given_records(alloc, rest)?;
    match &given.records {
        Ok(records) => {
            let made = disk(alloc, given.bytes.as_slice(), "-")?;
            stop_all(alloc, made, records.as_slice(), came)
        }
        Err(fault) => push_fault(*fault, came),
    }
}

fn stop_all(
    alloc: Global,
    made: MemoryDisk,
    records: &[Record],
    came: &mut Text,
) -> Result<(), NoMemory> {
    if !has_room(records, MOST) {
        return came.push_slice(b"full");
    }
    let (_copied, whole) = copy_records(alloc, made, records, MOST);
    let images = whole.call_count().saturating_add(1).saturating_mul(3);
    push_counted(b"begun again ", count_again(alloc, &whole, records)?, came)?;
    push_counted(b" of ", images, came)
}

/// How many of the images of a copy a copy that is begun again makes whole.
fn count_again(alloc: Global, whole: &MemoryDisk, records: &[Record]) -> Result<u64, NoMemory> {
    let mut again = 0_u64;
    for calls in 0..whole.call_count().saturating_add(1) {
        for unsynced in [Unsynced::Kept, Unsynced::Lost, Unsynced::Ones] {
            if is_made_whole(alloc, whole, calls, unsynced, records)? {
                again = again.saturating_add(1);
            }
        }
    }
    Ok(again)
}

fn is_made_whole(
    alloc: Global,
    whole: &MemoryDisk,
    calls: u64,
    unsynced: Unsynced,
    records: &[Record],
) -> Result<bool, NoMemory> {
    let image = whole.stopped(alloc, calls as usize, unsynced)?;
    let stopped = MemoryDisk::new(alloc, image, Vec::new(alloc))?;
    if !has_room(records, MOST) {
        return Ok(false);
    }
    let (copied, again) = copy_records(alloc, stopped, records, MOST);
    Ok(copied.is_ok() && again.bytes() == whole.bytes())
}
