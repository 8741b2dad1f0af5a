//! Disks in memory, which fail on command.

ghost use Rattle.std.specs.Prelude.{◌+◌, ◌^◌, ◌<◌, ◌≤◌, length, IfSome};

use crate::act_blocks::given;
use crate::escapes::{push_counted, push_shown};
use crate::memory::{bytes_of, disk, push_calls};
use devices::{Disk, DiskFailed, MemoryDisk};
use fixed_units::{NoMemory, Text};
use row_lines::parted;
use std::alloc::Global;

/// Does all of a block to a disk of the bytes behind `disk`, whose calls behind `failing` fail, and writes what comes of each row, and
/// what the disk holds then.
pub fn answer(alloc: Global, block: &str, came: &mut Text) -> Result<(), NoMemory> {
    let bytes = bytes_of(alloc, given(block, "disk "))?;
    let mut made = disk(alloc, bytes.as_slice(), given(block, "failing "))?;
    act_all(&mut made, block, came)
}

fn act_all(made: &mut MemoryDisk, block: &str, came: &mut Text) -> Result<(), NoMemory> {
    for line in block.lines() {
        if let Some((call, _)) = line.split_once(" -> ") {
            act(made, call, came)?;
            push_content(made, came)?;
        }
    }
    Ok(())
}

fn push_content(made: &MemoryDisk, came: &mut Text) -> Result<(), NoMemory> {
    came.push_slice(b"; ")?;
    push_shown(made.bytes(), came)?;
    came.push_slice(b"\n")
}

fn act(made: &mut MemoryDisk, call: &str, came: &mut Text) -> Result<(), NoMemory> {
    let (word, rest) = parted(call);
    match word {
        "length" => push_length(made, came),
        "read" => read(made, rest.parse().unwrap_or(0), came),
        "write" => came.push_slice(write(made, rest)),
        "sync" => came.push_slice(told(made.sync())),
        "calls" => push_counts(made, came),
        _ => came.push_slice(b"no such call"),
    }
}

fn told(came: Result<(), DiskFailed>) -> &'static [u8] {
    match came {
        Ok(()) => b"done",
        Err(DiskFailed) => b"failed",
    }
}

fn push_length(made: &mut MemoryDisk, came: &mut Text) -> Result<(), NoMemory> {
    match made.len() {
        Ok(count) => push_counted(b"", count, came),
        Err(DiskFailed) => came.push_slice(b"failed"),
    }
}

/// `read AT`: the five bytes from an offset on, if they stand within the content.
fn read(made: &mut MemoryDisk, at: u64, came: &mut Text) -> Result<(), NoMemory> {
    let count = made.bytes().len() as u64;
    if count < 5 || at > count - 5 {
        return came.push_slice(b"outside");
    }
    read_five(made, at, came)
}

fn read_five<D: Disk>(made: &mut D, at: u64, came: &mut Text) -> Result<(), NoMemory>
    requires { IfSome (D.content made.old) (λ bytes. at + 5 ≤ length bytes) }
{
    let mut room = [0; 5];
    match made.read_at(at, &mut room) {
        Ok(()) => push_shown(&room, came),
        Err(DiskFailed) => came.push_slice(b"failed"),
    }
}

/// `write AT TEXT`: the text is written from an offset on, if that stands within the content.
fn write(made: &mut MemoryDisk, rest: &str) -> &'static [u8] {
    let (at, text) = parted(rest);
    write_at(made, at.parse().unwrap_or(0), text.as_bytes())
}

fn write_at(made: &mut MemoryDisk, at: u64, bytes: &[u8]) -> &'static [u8] {
    if at > made.bytes().len() as u64 || bytes.len() > 100 {
        return b"outside";
    }
    write_within(made, at, bytes)
}

fn write_within<D: Disk>(made: &mut D, at: u64, bytes: &[u8]) -> &'static [u8]
    requires begins { IfSome (D.content made.old) (λ old. at ≤ length old) }
    requires ends { at + length bytes.now < 2 ^ 64 }
{
    told(made.write_at(at, bytes))
}

/// `calls`: how many calls and faults the disk had, and whether there is no room to list calls.
fn push_counts(made: &MemoryDisk, came: &mut Text) -> Result<(), NoMemory> {
    push_calls(made.call_count(), made.fault_count(), came)?;
    if made.is_stuck() {
        came.push_slice(b", stuck")?;
    }
    Ok(())
}
