//! A cabinet in memory, which tells what it has under its names, and fails on command.
ghost use Rattle.std.specs.Prelude.{◌≡◌, ◌≤◌, ℕ, List, nat_lt, false, if◌then◌else◌, OnOk, OnErr, MatchOption, Some, string_bytes};
ghost use Rattle.devices.specs.Cabinets.{Free, Kept, Out, is_kept, IsAsked, IsFresh, HasCause, Opens, IsKept, IsCounted, OthersStay};
ghost use Rattle.devices.specs.Failures.{untouched, with_fault};
ghost use Rattle.devices.specs.MemoryCabinets.{places_of, place_with, OpensPlace, OpensOnCommand};

use crate::{Cabinet, Disk, Failures, MemoryDisk, Opened};
use std::alloc::{AllocError, Global};
use std::collections::BTreeMap;

/// Disks under names, in memory. A disk that was taken out leaves its place. Want of memory is a fault, also of a disk
/// that can't list its calls any more, which is not given.
#[derive(Drop)]
pub struct MemoryCabinet {
    alloc: Global,
    disks: BTreeMap<String, Option<MemoryDisk>>,
    failures: Failures,
}

impl MemoryCabinet {
    /// An empty cabinet. The calls of `open` with these numbers, counted from 1, fail.
    pub fn new(alloc: Global, failing: Vec<u64>) -> Self
        ensures places { (name : List ℕ) → places_of result.disks name ≡ Free }
        ensures counts { result.failures ≡ untouched failing.items }
    {
        MemoryCabinet {
            alloc,
            disks: BTreeMap::new(alloc),
            failures: Failures::new(failing),
        }
    }

    /// Puts a disk under a name, in the place of what was there.
    pub fn insert(&mut self, name: &str, disk: MemoryDisk) -> Result<(), AllocError>
        ensures placed { OnOk result (places_of self.new.disks name.now ≡ Kept disk) }
        ensures others { OthersStay name.now (places_of self.old.disks) (places_of self.new.disks) }
        ensures same { OnErr result ((name : List ℕ) → places_of self.new.disks name ≡ places_of self.old.disks name) }
        ensures counts { self.new.failures ≡ self.old.failures }
    {
        place(&mut self.disks, self.alloc, name, Some(disk))
    }

    /// The disk that is kept under a name.
    pub fn disk(&self, name: &str) -> Option<&MemoryDisk>
        ensures { MatchOption result (is_kept (places_of self.now.disks name.now) ≡ false) (λ disk. places_of self.now.disks name.now ≡ Kept disk.now) }
    {
        self.disks.get(name)?.as_ref()
    }

    /// How many faults there were.
    pub fn fault_count(&self) -> u64
        ensures { result ≡ self.now.failures.faults }
    {
        self.failures.faults()
    }
}

impl Cabinet for MemoryCabinet {
    type Disk = MemoryDisk;

    ghost places = { λ c. Some (places_of c.disks) };

    ghost faults = { λ c. c.failures.faults };

    fn open(&mut self, name: &str, make: bool) -> Opened<MemoryDisk>
        ensures opened { Opens ⟦<MemoryDisk as Disk>⟧ name.now make (places_of self.old.disks) (places_of self.new.disks) result }
        ensures asked { IsAsked make result }
        ensures fresh { IsFresh ⟦<MemoryDisk as Disk>⟧ result }
        ensures counted { self.old.failures.faults ≤ self.new.failures.faults }
        ensures cause { HasCause self.old.failures.faults self.new.failures.faults result }
        ensures on_command { OpensOnCommand self.old.failures result self.new.failures }
    {
        if self.failures.fails_next() {
            return Opened::Failed;
        }
        match open_under(&mut self.disks, self.alloc, name, make) {
            Opened::Disk(disk) => Opened::Disk(disk),
            Opened::Absent => Opened::Absent,
            Opened::Failed => {
                self.failures.count_fault();
                Opened::Failed
            }
        }
    }

    fn keep(&mut self, name: &str, disk: MemoryDisk)
        requires { places_of self.old.disks name.now ≡ Out }
        ensures kept { IsKept name.now disk (Some (places_of self.old.disks)) (Some (places_of self.new.disks)) }
        ensures counted { IsCounted disk.counts.faults self.old.failures.faults self.new.failures.faults }
        ensures counts { self.new.failures ≡ (if nat_lt 0 disk.counts.faults then with_fault self.old.failures else self.old.failures) }
    {
        self.failures.count_fault_if(disk.fault_count() > 0);
        put_back(&mut self.disks, name, disk);
    }
}

// Puts a disk, or the place of one, under a name.
fn place(
    disks: &mut BTreeMap<String, Option<MemoryDisk>>,
    alloc: Global,
    name: &str,
    disk: Option<MemoryDisk>,
) -> Result<(), AllocError>
    ensures placed { OnOk result (places_of disks.new name.now ≡ place_with disk) }
    ensures others { OthersStay name.now (places_of disks.old) (places_of disks.new) }
    ensures same { OnErr result ((name : List ℕ) → places_of disks.new name ≡ places_of disks.old name) }
{
    place_under(disks, String::from_str(alloc, name)?, disk)
}

// The same under a name of its own.
fn place_under(
    disks: &mut BTreeMap<String, Option<MemoryDisk>>,
    name: String,
    disk: Option<MemoryDisk>,
) -> Result<(), AllocError>
    ensures placed { OnOk result (places_of disks.new (string_bytes name) ≡ place_with disk) }
    ensures others { OthersStay (string_bytes name) (places_of disks.old) (places_of disks.new) }
    ensures same { OnErr result ((other : List ℕ) → places_of disks.new other ≡ places_of disks.old other) }
{
    disks.insert(name, disk)?;
    Ok(())
}

fn put_back(disks: &mut BTreeMap<String, Option<MemoryDisk>>, name: &str, disk: MemoryDisk)
    requires { places_of disks.old name.now ≡ Out }
    ensures kept { places_of disks.new name.now ≡ Kept disk }
    ensures others { OthersStay name.now (places_of disks.old) (places_of disks.new) }
{
    if let Some(empty) = disks.get_mut(name) {
        *empty = Some(disk);
    }
}

fn open_under(
    disks: &mut BTreeMap<String, Option<MemoryDisk>>,
    alloc: Global,
    name: &str,
    make: bool,
) -> Opened<MemoryDisk>
    ensures opened { Opens ⟦<MemoryDisk as Disk>⟧ name.now make (places_of disks.old) (places_of disks.new) result }
    ensures asked { IsAsked make result }
    ensures fresh { IsFresh ⟦<MemoryDisk as Disk>⟧ result }
{
    if let Some(place) = disks.get_mut(name) {
        return open_place(place, alloc, make);
    }
    if !make {
        return Opened::Absent;
    }
    match place(disks, alloc, name, None) {
        Ok(()) => Opened::Disk(MemoryDisk::empty(alloc)),
        Err(_) => Opened::Failed,
    }
}

// Takes out the disk, and begins its count of faults anew. Where it is out already, makes one if it is asked to.
fn open_place(place: &mut Option<MemoryDisk>, alloc: Global, make: bool) -> Opened<MemoryDisk>
    ensures opened { OpensPlace ⟦<MemoryDisk as Disk>⟧ make (place_with place.old) (place_with place.new) result }
    ensures asked { IsAsked make result }
    ensures fresh { IsFresh ⟦<MemoryDisk as Disk>⟧ result }
{
    match place.take() {
        Some(disk) if disk.is_stuck() => {
            *place = Some(disk);
            Opened::Failed
        }
        Some(mut disk) => {
            disk.forget_faults();
            Opened::Disk(disk)
        }
        None if make => Opened::Disk(MemoryDisk::empty(alloc)),
        None => Opened::Absent,
    }
}
