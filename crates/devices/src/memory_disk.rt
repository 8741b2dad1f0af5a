//! A disk in memory, which tells its content, what a stop may leave and its calls, and fails on command.
ghost use Rattle.std.specs.Prelude.{◌≡◌, ◌+◌, ◌^◌, ◌<◌, ◌≤◌, nat_lt, true, length, take, [], Some, slice_range, IfOk, OnOk, OnErr};
ghost use Rattle.devices.specs.Disks.{Torn, NothingNew, Only, Follows, HasCause, IsListed, overwritten};
ghost use Rattle.devices.specs.Failures.{untouched};
ghost use Rattle.devices.specs.MemoryDisks.{MayLeave, content_of, images_of, moment_of, since_of, calls_of, stands, counts_now, only_now, blank, done, half, with_step, IsQuiet, DidNothing, WroteInPart, GoesOn, LeavesContent, AnswersOnCommand, with_no_faults};
ghost use Rattle.devices.specs.Stops.{stopped};
ghost use Rattle.devices.specs.declared.recordings.Change.TheVariants.{Nothing, Synced, Wrote};

use crate::recordings::{Change, Recording};
use crate::{Disk, DiskFailed, Failures, Unsynced};
use std::alloc::{AllocError, Global};
use std::marker::Model;

/// A disk in memory. Want of memory for what is written, or for the list of the calls, is a fault. Where there is no
/// room to list a call, that call and each later one fails.
#[derive(Drop)]
pub struct MemoryDisk {
    recording: Recording,
    failures: Failures,
}

impl Model for MemoryDisk {
    ghost use Rattle.std.specs.Prelude.{◌≤◌};
    ghost use Rattle.devices.specs.MemoryDisks.{MemoryDiskState};

    ghost Value = { MemoryDiskState };

    ghost view = { λ d. record { recorded = d.recording; counts = d.failures } };

    ghost invariant = { λ d. d.recording.unlisted ≤ d.failures.faults };
}

impl MemoryDisk {
    /// A disk with these bytes, all of which a stop leaves. The calls with these numbers, counted from 1, fail; a
    /// write that does leaves the first half of its bytes.
    pub fn new(alloc: Global, bytes: Vec<u8>, failing: Vec<u64>) -> Result<Self, AllocError>
        ensures recorded { IfOk result (λ disk. disk.recorded ≡ blank bytes.items) }
        ensures counts { IfOk result (λ disk. disk.counts ≡ untouched failing.items) }
    {
        Ok(MemoryDisk {
            recording: Recording::new(alloc, bytes)?,
            failures: Failures::new(failing),
        })
    }

    /// A disk of length 0, no call of which is to fail. Takes no memory.
    pub fn empty(alloc: Global) -> Self
        ensures recorded { result.recorded ≡ blank [] }
        ensures counts { result.counts ≡ untouched [] }
    {
        MemoryDisk {
            recording: Recording::empty(alloc),
            failures: Failures::new(Vec::new(alloc)),
        }
    }

    /// What a read gives.
    pub fn bytes(&self) -> &[u8]
        ensures { result.now ≡ content_of self.now.recorded }
    {
        self.recording.bytes()
    }

    /// What a stop behind the first so many of the listed calls leaves, or behind all of them where there are fewer, by what becomes of the
    /// bytes that were written behind the last sync that was done: one of the images that the disk tells for that moment.
    pub fn stopped(
        &self,
        alloc: Global,
        calls: usize,
        unsynced: Unsynced,
    ) -> Result<Vec<u8>, AllocError>
        ensures left { IfOk result (λ image. image.items ≡ stopped unsynced self.now.recorded calls) }
        ensures is_image { IfOk result (λ image. MayLeave self.now.recorded.first (take calls self.now.recorded.steps) image.items) }
    {
        self.recording.stopped(alloc, calls, unsynced)
    }

    /// How many calls there were.
    pub fn call_count(&self) -> u64
        ensures { result ≡ self.now.counts.calls }
    {
        self.failures.calls()
    }

    /// How many faults there were since the disk was taken out of its cabinet, or made.
    pub fn fault_count(&self) -> u64
        ensures { result ≡ self.now.counts.faults }
    {
        self.failures.faults()
    }

    /// There was no room to list a call, so each later one fails.
    pub fn is_stuck(&self) -> bool
        ensures { result ≡ nat_lt 0 self.now.recorded.unlisted }
    {
        self.recording.is_stuck()
    }

    /// Begins the count of faults anew.
    pub(crate) fn forget_faults(&mut self)
        requires { self.old.recorded.unlisted ≡ 0 }
        ensures { self.new ≡ with_no_faults self.old }
    {
        self.failures.forget_faults();
    }

    // A call that leaves the content, unless it is to fail or there is no room to list it.
    fn call(&mut self, change: Change) -> Result<(), DiskFailed>
        requires { IsQuiet change }
        ensures recorded { OnOk result (self.new.recorded ≡ with_step (done change) self.old.recorded) }
        ensures nothing { OnErr result (DidNothing self.old.recorded self.new.recorded) }
        ensures durable { OnOk result (change ≡ Synced → Only (content_of self.old.recorded) (images_of self.new.recorded)) }
        ensures left { LeavesContent self.old.recorded self.new.recorded }
        ensures listed { IsListed (Some (content_of self.old.recorded)) (calls_of self.old.recorded) result (calls_of self.new.recorded) self.new.counts.faults }
        ensures on_command { AnswersOnCommand self.old.counts result self.new.counts }
        ensures counted { self.old.counts.faults ≤ self.new.counts.faults }
    {
        if self.failures.fails_next() {
            self.recording.list(true, Change::Nothing);
            return Err(DiskFailed);
        }
        if !self.recording.list(false, change) {
            self.failures.count_fault();
            return Err(DiskFailed);
        }
        Ok(())
    }
}

impl Disk for MemoryDisk {
    ghost content = { λ d. Some (content_of d.recorded) };

    ghost may_leave = { λ d. images_of d.recorded };

    ghost moment = { λ d. moment_of d.recorded };

    ghost left_since = { λ d. since_of d.recorded };

    ghost calls = { λ d. calls_of d.recorded };

    ghost faults = { λ d. d.counts.faults };

    ghost stands = { λ d. stands d.recorded };

    ghost counts_now = { λ d. counts_now d.recorded };

    ghost only_now = { λ d. only_now d.recorded };

    fn len(&mut self) -> Result<u64, DiskFailed>
        ensures counts { IfOk result (λ n. n ≡ length (content_of self.old.recorded)) }
        ensures recorded { OnOk result (self.new.recorded ≡ with_step (done Nothing) self.old.recorded) }
        ensures nothing { OnErr result (DidNothing self.old.recorded self.new.recorded) }
        ensures same { content_of self.new.recorded ≡ content_of self.old.recorded }
        ensures images { NothingNew (images_of self.old.recorded) (images_of self.new.recorded) }
        ensures time { GoesOn self.old.recorded self.new.recorded }
        ensures listed { IsListed (Some (content_of self.old.recorded)) (calls_of self.old.recorded) result (calls_of self.new.recorded) self.new.counts.faults }
        ensures on_command { AnswersOnCommand self.old.counts result self.new.counts }
        ensures counted { self.old.counts.faults ≤ self.new.counts.faults }
        ensures done { OnOk result (self.new.counts.faults ≡ self.old.counts.faults) }
        ensures cause { HasCause self.old.counts.faults self.new.counts.faults result }
    {
        self.call(Change::Nothing)?;
        Ok(self.bytes().len() as u64)
    }

    fn read_at(&mut self, at: u64, into: &mut [u8]) -> Result<(), DiskFailed>
        requires { at + length into.old ≤ length (content_of self.old.recorded) }
        ensures bytes { OnOk result (into.new ≡ slice_range (content_of self.old.recorded) at (at + length into.old)) }
        ensures recorded { OnOk result (self.new.recorded ≡ with_step (done Nothing) self.old.recorded) }
        ensures nothing { OnErr result (DidNothing self.old.recorded self.new.recorded) }
        ensures same { content_of self.new.recorded ≡ content_of self.old.recorded }
        ensures images { NothingNew (images_of self.old.recorded) (images_of self.new.recorded) }
        ensures time { GoesOn self.old.recorded self.new.recorded }
        ensures listed { IsListed (Some (content_of self.old.recorded)) (calls_of self.old.recorded) result (calls_of self.new.recorded) self.new.counts.faults }
        ensures on_command { AnswersOnCommand self.old.counts result self.new.counts }
        ensures counted { self.old.counts.faults ≤ self.new.counts.faults }
        ensures done { OnOk result (self.new.counts.faults ≡ self.old.counts.faults) }
        ensures cause { HasCause self.old.counts.faults self.new.counts.faults result }
    {
        self.call(Change::Nothing)?;
        let from = at as usize;
        into.copy_from_slice(&self.bytes()[from..from + into.len()]);
        Ok(())
    }

    fn write_at(&mut self, at: u64, bytes: &[u8]) -> Result<(), DiskFailed>
        requires begins { at ≤ length (content_of self.old.recorded) }
        requires ends { at + length bytes.now < 2 ^ 64 }
        ensures written { OnOk result (content_of self.new.recorded ≡ overwritten (content_of self.old.recorded) at bytes.now) }
        ensures recorded { OnOk result (self.new.recorded ≡ with_step (done (Wrote (record { at = at; count = length bytes.now; left = bytes.now }))) self.old.recorded) }
        ensures half { OnErr result (WroteInPart at (length bytes.now) (half bytes.now) self.old.recorded self.new.recorded) }
        ensures torn { OnErr result (Torn at (length bytes.now) (content_of self.old.recorded) (content_of self.new.recorded)) }
        ensures images { Follows (Torn at (length bytes.now)) (images_of self.old.recorded) (images_of self.new.recorded) }
        ensures time { GoesOn self.old.recorded self.new.recorded }
        ensures listed { IsListed (Some (content_of self.old.recorded)) (calls_of self.old.recorded) result (calls_of self.new.recorded) self.new.counts.faults }
        ensures on_command { AnswersOnCommand self.old.counts result self.new.counts }
        ensures counted { self.old.counts.faults ≤ self.new.counts.faults }
        ensures done { OnOk result (self.new.counts.faults ≡ self.old.counts.faults) }
        ensures cause { HasCause self.old.counts.faults self.new.counts.faults result }
    {
        let count = bytes.len() as u64;
        if self.failures.fails_next() {
            self.recording
                .write(true, at, count, &bytes[..bytes.len() / 2]);
            return Err(DiskFailed);
        }
        if !self.recording.write(false, at, count, bytes) {
            self.failures.count_fault();
            return Err(DiskFailed);
        }
        Ok(())
    }

    fn sync(&mut self) -> Result<(), DiskFailed>
        ensures durable { OnOk result (Only (content_of self.old.recorded) (images_of self.new.recorded)) }
        ensures recorded { OnOk result (self.new.recorded ≡ with_step (done Synced) self.old.recorded) }
        ensures nothing { OnErr result (DidNothing self.old.recorded self.new.recorded) }
        ensures same { content_of self.new.recorded ≡ content_of self.old.recorded }
        ensures images { NothingNew (images_of self.old.recorded) (images_of self.new.recorded) }
        ensures time { GoesOn self.old.recorded self.new.recorded }
        ensures listed { IsListed (Some (content_of self.old.recorded)) (calls_of self.old.recorded) result (calls_of self.new.recorded) self.new.counts.faults }
        ensures on_command { AnswersOnCommand self.old.counts result self.new.counts }
        ensures counted { self.old.counts.faults ≤ self.new.counts.faults }
        ensures done { OnOk result (self.new.counts.faults ≡ self.old.counts.faults) }
        ensures cause { HasCause self.old.counts.faults self.new.counts.faults result }
    {
        self.call(Change::Synced)
    }
}
