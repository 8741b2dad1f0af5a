//! Blocks of an office over a disk in memory. `with journal NAME ..` names the records that its journal has at first, where `J2` before
//! the names stands for the second format, and `with failing N ..` the calls of the disk that fail. Each line `-- open -> ..` opens an
//! office on the disk, on which the rows behind it are played, and closes the one before; behind `-- closed` stand rows on the disk that
//! is left.

use crate::blocks::{Bench, given, limits_of, play_on};
use crate::office_acts::OfficeBench;
use crate::readmitted::add_record;
use crate::told::push_number_behind;
use devices::MemoryDisk;
use fixed_units::{NoMemory, Text};
use journal::OpenFault;
use office::Office;
use office_inputs::Limits;
use row_lines::{Ended, parted};
use std::alloc::Global;

/// Plays a block.
pub fn play<'a>(alloc: Global, book: &str, block: &'a str, came: &mut Text) -> Ended<'a> {
    match (limits_of(block), disk_of(alloc, book, block)) {
        (Some(limits), Some(disk)) => play_under(alloc, book, block, limits, disk, came),
        _ => Ended::Otherwise(block),
    }
}

/// The header of a journal, and the names of its records.
fn headed(names: &str) -> (&'static [u8], &str) {
    match names.strip_prefix("J2") {
        Some(names) => (b"STREAMOFFICE-J2\n", names),
        None => (b"STREAMOFFICE-J1\n", names),
    }
}

/// The journal of records.
fn journal_of(alloc: Global, book: &str, names: &str) -> Option<Vec<u8>> {
    let (header, names) = headed(names);
    let mut bytes = header.to_vec(alloc).ok()?;
    if add_records(&mut bytes, book, names) {
        Some(bytes)
    } else {
        None
    }
}

/// Whether each record of these names is added, behind an open gate, and the last gate, which is closed.
fn add_records(bytes: &mut Vec<u8>, book: &str, names: &str) -> bool {
    for name in names.split(' ') {
        if !name.is_empty() && !add_behind_gate(bytes, book, name) {
            return false;
        }
    }
    bytes.push(0).is_ok()
}

fn add_behind_gate(bytes: &mut Vec<u8>, book: &str, name: &str) -> bool {
    bytes.push(1).is_ok() && add_record(bytes, book, name)
}

/// The calls that fail, counted from 1.
fn calls_of(alloc: Global, text: &str) -> Option<Vec<u64>> {
    let mut calls = Vec::new(alloc);
    for part in text.split(' ') {
        if !part.is_empty() && !add_call(&mut calls, part) {
            return None;
        }
    }
    Some(calls)
}

fn add_call(calls: &mut Vec<u64>, text: &str) -> bool {
    match text.parse() {
        Ok(call) => calls.push(call).is_ok(),
        Err(_) => false,
    }
}

/// The disk of a block.
fn disk_of(alloc: Global, book: &str, block: &str) -> Option<MemoryDisk> {
    match (
        journal_of(alloc, book, given(block, "journal")),
        calls_of(alloc, given(block, "failing")),
    ) {
        (Some(bytes), Some(calls)) => MemoryDisk::new(alloc, bytes, calls).ok(),
        _ => None,
    }
}

fn play_under<'a>(
    alloc: Global,
    book: &str,
    block: &'a str,
    limits: Limits,
    disk: MemoryDisk,
    came: &mut Text,
) -> Ended<'a> {
    let Some((held, left)) = block.split_once("-- closed\n") else {
        return Ended::Otherwise(block);
    };
    let (mut disk, ended) = hold_all(alloc, disk, limits, held, came);
    match ended {
        Ended::AsDue(rows) => more(rows, play_on(alloc, &mut disk, book, left, came)),
        ended => ended,
    }
}

/// So many rows, and those behind them.
fn more(rows: u64, ended: Ended<'_>) -> Ended<'_> {
    match ended {
        Ended::AsDue(others) => Ended::AsDue(rows.saturating_add(others)),
        ended => ended,
    }
}

/// Opens an office for each session, plays its rows, and closes it.
fn hold_all<'a>(
    alloc: Global,
    mut disk: MemoryDisk,
    limits: Limits,
    held: &'a str,
    came: &mut Text,
) -> (MemoryDisk, Ended<'a>) {
    let mut rows = 0_u64;
    for session in held.split("-- ").skip(1) {
        let (left, ended) = hold(alloc, disk, limits, session, came);
        disk = left;
        match ended {
            Ended::AsDue(others) => rows = rows.saturating_add(others),
            ended => return (disk, ended),
        }
    }
    (disk, Ended::AsDue(rows))
}

fn hold<'a>(
    alloc: Global,
    disk: MemoryDisk,
    limits: Limits,
    session: &'a str,
    came: &mut Text,
) -> (MemoryDisk, Ended<'a>) {
    match Office::open(alloc, disk, limits) {
        Ok(office) => hold_open(alloc, office, session, came),
        Err(refused) => {
            let mut shut = Shut(refused.fault);
            let ended = play_on(alloc, &mut shut, "", session, came);
            (refused.disk, ended)
        }
    }
}

fn hold_open<'a>(
    alloc: Global,
    office: Office<MemoryDisk>,
    session: &'a str,
    came: &mut Text,
) -> (MemoryDisk, Ended<'a>) {
    let mut bench = OfficeBench {
        office,
        jobs: Vec::new(alloc),
    };
    let ended = play_on(alloc, &mut bench, "", session, came);
    (bench.office.close(), ended)
}

/// No office, and why.
#[derive(Drop)]
struct Shut(OpenFault);

impl Bench for Shut {
    fn act(
        &mut self,
        _alloc: Global,
        _book: &str,
        act: &str,
        came: &mut Text,
    ) -> Result<(), NoMemory> {
        match (act, self.0) {
            ("open", OpenFault::Damaged(at)) => push_number_behind(b"damaged at ", at, came),
            ("open", OpenFault::Fault) => came.push_slice(b"fault"),
            ("open", OpenFault::NotAJournal) => came.push_slice(b"not a journal"),
            ("open", OpenFault::NoMemory) => Err(NoMemory),
            _ => came.push_slice(b"no office"),
        }
    }
}

impl Bench for MemoryDisk {
    /// `calls`: how many calls there were. `journal NAME ..`, `journal J2 NAME ..`: whether it has the journal of these records, byte by
    /// byte.
    fn act(
        &mut self,
        alloc: Global,
        book: &str,
        act: &str,
        came: &mut Text,
    ) -> Result<(), NoMemory> {
        let (word, rest) = parted(act);
        match word {
            "calls" => came.push_number(self.call_count()),
            "journal" => push_is_journal(alloc, self.bytes(), book, rest, came),
            _ => came.push_slice(b"no such act"),
        }
    }
}

fn push_is_journal(
    alloc: Global,
    bytes: &[u8],
    book: &str,
    names: &str,
    came: &mut Text,
) -> Result<(), NoMemory> {
    match journal_of(alloc, book, names) {
        Some(due) => push_same(bytes == due.as_slice(), came),
        None => came.push_slice(b"not well formed"),
    }
}

fn push_same(same: bool, came: &mut Text) -> Result<(), NoMemory> {
    came.push_slice(if same { b"as due" } else { b"other bytes" })
}
