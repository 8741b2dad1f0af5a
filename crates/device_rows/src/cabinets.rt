//! Cabinets in memory, which make, keep and count.

ghost use Rattle.std.specs.Prelude.{◌≡◌};
ghost use Rattle.devices.specs.Cabinets.{Out};
ghost use Rattle.devices.specs.MemoryCabinets.{places_of};

use crate::act_blocks::given;
use crate::escapes::push_counted;
use crate::memory::{disk, numbers};
use devices::{Cabinet, Disk, MemoryCabinet, MemoryDisk, Opened};
use fixed_units::{NoMemory, Text};
use row_lines::parted;
use std::alloc::Global;

/// What comes of asking for a name.
#[derive(Clone, Copy)]
enum Asked {
    /// A disk, which was used, has had so many calls then and was kept.
    Disk(u64),
    Absent,
    Failed,
    /// A disk that has faults at once.
    AtFault,
    /// A disk that is still there while it is out, or is not there when it is kept.
    NotKept,
}

/// Asks a cabinet for all names of a block: a cabinet whose calls behind `failing` fail, and that has a disk by what stands behind `disk`.
pub fn answer(alloc: Global, block: &str, came: &mut Text) -> Result<(), NoMemory> {
    let mut cabinet = MemoryCabinet::new(alloc, numbers(alloc, given(block, "failing "))?);
    insert(alloc, &mut cabinet, given(block, "disk "))?;
    ask_all(&mut cabinet, block, came)
}

/// Puts a disk under a name, `NAME FAILING BYTES`.
fn insert(alloc: Global, cabinet: &mut MemoryCabinet, told: &str) -> Result<(), NoMemory> {
    let (name, rest) = parted(told);
    let (failing, bytes) = parted(rest);
    let made = disk(alloc, bytes.as_bytes(), failing)?;
    Ok(cabinet.insert(name, made)?)
}

fn ask_all(cabinet: &mut MemoryCabinet, block: &str, came: &mut Text) -> Result<(), NoMemory> {
    for line in block.lines() {
        if let Some((call, _)) = line.split_once(" -> ") {
            push_asked(ask_as(cabinet, call), came)?;
            push_counted(b"; faults ", cabinet.fault_count(), came)?;
            came.push_slice(b"\n")?;
        }
    }
    Ok(())
}

/// `open NAME`, or `make NAME` where a disk is made if there is none.
fn ask_as(cabinet: &mut MemoryCabinet, call: &str) -> Asked {
    let (word, name) = parted(call);
    ask(cabinet, name, word == "make")
}

fn push_asked(asked: Asked, came: &mut Text) -> Result<(), NoMemory> {
    match asked {
        Asked::Disk(calls) => push_counted(b"disk, calls ", calls, came),
        Asked::Absent => came.push_slice(b"absent"),
        Asked::Failed => came.push_slice(b"failed"),
        Asked::AtFault => came.push_slice(b"a disk that has faults at once"),
        Asked::NotKept => came.push_slice(b"a disk that is not kept"),
    }
}

/// Syncs a disk without faults and asks for its length; how many calls it has had then.
fn used(disk: &mut MemoryDisk) -> Asked {
    if disk.fault_count() != 0 {
        return Asked::AtFault;
    }
    let _ = disk.sync();
    let _ = disk.len();
    Asked::Disk(disk.call_count())
}

/// Keeps a disk that is out; whether it is there then.
fn keep(cabinet: &mut MemoryCabinet, name: &str, disk: MemoryDisk) -> bool
    requires { places_of cabinet.old.disks name.now ≡ Out }
{
    cabinet.keep(name, disk);
    cabinet.disk(name).is_some()
}

/// Uses a disk that is out, and keeps it.
fn use_and_keep(cabinet: &mut MemoryCabinet, name: &str, mut disk: MemoryDisk) -> Asked
    requires { places_of cabinet.old.disks name.now ≡ Out }
{
    let told = used(&mut disk);
    let lost = cabinet.disk(name).is_none();
    let kept = keep(cabinet, name, disk);
    if lost && kept { told } else { Asked::NotKept }
}

fn ask(cabinet: &mut MemoryCabinet, name: &str, make: bool) -> Asked {
    match cabinet.open(name, make) {
        Opened::Disk(disk) => use_and_keep(cabinet, name, disk),
        Opened::Absent => Asked::Absent,
        Opened::Failed => Asked::Failed,
    }
}
