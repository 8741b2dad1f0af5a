//! Journals, which `journal` makes and opens.

use crate::copies::{copy, stops};
use crate::escapes::{push_counted, push_shown};
use crate::memory::{bytes_of, disk, push_calls};
use crate::reads::{count, push_fault, push_found, read_some};
use crate::written::push_record;
use devices::MemoryDisk;
use fixed_units::{NoMemory, Text};
use journal::laws::{
    begun_is_made_anew, damaged_at_one_gate, empty_journal_has_no_records, has_one_format,
    no_journal_is_damaged, nothing_else_has_the_header, one_record_more, stands_for_one_list,
};
use journal::{InitFault, OpenFault, Opening, init, open};
use migration::laws::{a_copy_that_may_begin_is_not_barred, what_a_copy_leaves_is_a_front};
use records::Format;
use row_lines::parted;
use std::alloc::Global;

/// Writes what comes of a call.
pub fn answer(alloc: Global, word: &str, rest: &str, came: &mut Text) -> Result<(), NoMemory> {
    match word {
        "make" => make(alloc, rest, came),
        "records" => records(alloc, rest, came),
        "open" => open_failing(alloc, rest, came),
        "reads" => reads(alloc, rest, came),
        "written" => push_record(alloc, rest, came),
        "copy" => copy(alloc, rest, came),
        "stops" => stops(alloc, rest, came),
        "laws" => laws(came),
        _ => came.push_slice(b"no such call"),
    }
}

/// `laws`: calls the laws of what a journal is, of which a call does nothing: what they say is for proofs.
fn laws(came: &mut Text) -> Result<(), NoMemory> {
    has_one_format();
    stands_for_one_list();
    no_journal_is_damaged();
    damaged_at_one_gate();
    nothing_else_has_the_header();
    one_record_more();
    empty_journal_has_no_records();
    begun_is_made_anew();
    a_copy_that_may_begin_is_not_barred();
    what_a_copy_leaves_is_a_front();
    came.push_slice(b"called")
}

/// The format of the journals that begin with `STREAMOFFICE-` and this word.
pub fn format_named(word: &str) -> Option<Format> {
    match word {
        "J1" => Some(Format::First),
        "J2" => Some(Format::Second),
        _ => None,
    }
}

/// `make FORMAT FAILING COUNT BYTES`: what comes of so many makings of a journal of a format over a disk, and its bytes then.
fn make(alloc: Global, rest: &str, came: &mut Text) -> Result<(), NoMemory> {
    let (name, rest) = parted(rest);
    let (failing, rest) = parted(rest);
    let (count, text) = parted(rest);
    let bytes = bytes_of(alloc, text)?;
    let mut made = disk(alloc, bytes.as_slice(), failing)?;
    match format_named(name) {
        Some(format) => make_all(&mut made, format, count.parse().unwrap_or(0), came),
        None => came.push_slice(b"no such format"),
    }
}

fn make_all(
    made: &mut MemoryDisk,
    format: Format,
    count: u32,
    came: &mut Text,
) -> Result<(), NoMemory> {
    for _ in 0..count {
        came.push_slice(text_of(init(made, format)))?;
    }
    push_shown(made.bytes(), came)
}

fn text_of(made: Result<(), InitFault>) -> &'static [u8] {
    match made {
        Ok(()) => b"made; ",
        Err(InitFault::Exists) => b"exists; ",
        Err(InitFault::NotAJournal) => b"not a journal; ",
        Err(InitFault::Fault) => b"fault; ",
    }
}

/// `records BYTES`: how many records a journal has, and what comes of the read behind them.
fn records(alloc: Global, text: &str, came: &mut Text) -> Result<(), NoMemory> {
    let bytes = bytes_of(alloc, text)?;
    push_found(count(alloc, bytes.as_slice()), came)
}

/// `open FAILING BYTES`: the fault of an opening, and how many calls its disk had.
fn open_failing(alloc: Global, rest: &str, came: &mut Text) -> Result<(), NoMemory> {
    let (failing, text) = parted(rest);
    let bytes = bytes_of(alloc, text)?;
    open_disk(alloc, disk(alloc, bytes.as_slice(), failing)?, came)
}

fn open_disk(alloc: Global, made: MemoryDisk, came: &mut Text) -> Result<(), NoMemory> {
    match open(alloc, made) {
        Ok(_) => came.push_slice(b"opened"),
        Err(refused) => push_refused(refused.fault, refused.disk.call_count(), came),
    }
}

fn push_refused(fault: OpenFault, calls: u64, came: &mut Text) -> Result<(), NoMemory> {
    push_fault(fault, came)?;
    push_counted(b", calls ", calls, came)
}

/// `reads FAILING COUNT BYTES`: what comes of so many reads of a journal, and the offset behind each; and what is left of the disk.
fn reads(alloc: Global, rest: &str, came: &mut Text) -> Result<(), NoMemory> {
    let (failing, rest) = parted(rest);
    let (count, text) = parted(rest);
    let bytes = bytes_of(alloc, text)?;
    let made = disk(alloc, bytes.as_slice(), failing)?;
    read_disk(
        alloc,
        made,
        bytes.as_slice(),
        count.parse().unwrap_or(0),
        came,
    )
}

fn read_disk(
    alloc: Global,
    made: MemoryDisk,
    bytes: &[u8],
    count: u32,
    came: &mut Text,
) -> Result<(), NoMemory> {
    match open(alloc, made) {
        Ok(opening) => read_and_give_up(alloc, opening, bytes, count, came),
        Err(refused) => push_fault(refused.fault, came),
    }
}

fn read_and_give_up(
    alloc: Global,
    mut opening: Opening<MemoryDisk>,
    bytes: &[u8],
    count: u32,
    came: &mut Text,
) -> Result<(), NoMemory> {
    let went = read_some(alloc, &mut opening, bytes, count, came);
    let left = push_left(&opening.give_up(), came);
    went?;
    left
}

/// Adds how many calls and faults a disk had, and its bytes.
fn push_left(left: &MemoryDisk, came: &mut Text) -> Result<(), NoMemory> {
    push_calls(left.call_count(), left.fault_count(), came)?;
    came.push_slice(b"; ")?;
    push_shown(left.bytes(), came)
}
