//! The disk under a trial: bytes in memory and nothing else, which are gone with the trial. It tells contracts no content: to tell one, a disk
//! has to keep a list of its calls. What a trial comes to is said of its office's history, and not of what stands here.

ghost use Rattle.std.specs.Prelude.{◌≡◌, ◌+◌, ◌^◌, ◌<◌, ◌≤◌, ◌↔◌, [], length, slice_range, None, Ok, IsOk, OnOk, OnErr};
ghost use Rattle.devices.specs.Disks.{HasCause, overwritten};
ghost use Rattle.devices.specs.Failures.{one_more};
ghost use Rattle.devices.specs.Files.{tells_nothing};

use devices::{Disk, DiskFailed};
use std::alloc::{AllocError, Global};

/// A disk in memory that keeps what was written and no list of its calls, with its count of faults. A fault is a read that goes beyond the
/// end, a write that begins behind it, or want of memory for a write.
#[derive(Drop)]
pub(crate) struct ScratchDisk {
    bytes: Vec<u8>,
    faults: u64,
}

impl ScratchDisk {
    /// A disk of length 0. It takes no memory.
    pub(crate) fn empty(alloc: Global) -> ScratchDisk
        ensures bytes { result.bytes.items ≡ [] }
        ensures faults { result.faults ≡ 0 }
    {
        ScratchDisk {
            bytes: Vec::new(alloc),
            faults: 0,
        }
    }

    /// Counts a fault.
    fn fail(&mut self) -> DiskFailed
        ensures same { self.new.bytes ≡ self.old.bytes }
        ensures one_more { self.new.faults ≡ one_more self.old.faults }
        ensures counted { self.old.faults ≤ self.new.faults }
    {
        self.faults = self.faults.saturating_add(1);
        DiskFailed
    }
}

// The trait's other clauses speak of a content that is told, or of what a stop may leave of it, and this disk tells none.
impl Disk for ScratchDisk {
    ghost content = { λ _. None };

    ghost may_leave = { λ _ _. ⊥ };

    ghost moment = { λ _. 0 };

    ghost left_since = { λ _ _ _. ⊥ };

    ghost calls = { λ _. [] };

    ghost faults = { λ d. d.faults };

    ghost stands = { λ d bytes is. tells_nothing bytes is };

    ghost counts_now = { λ d from image le left. left };

    ghost only_now = { λ d image left. left };

    fn len(&mut self) -> Result<u64, DiskFailed>
        ensures counts { result ≡ Ok (length self.old.bytes.items) }
        ensures same { self.new ≡ self.old }
    {
        Ok(self.bytes.len() as u64)
    }

    fn read_at(&mut self, at: u64, into: &mut [u8]) -> Result<(), DiskFailed>
        ensures within { IsOk result ↔ at + length into.old ≤ length self.old.bytes.items }
        ensures bytes { OnOk result (into.new ≡ slice_range self.old.bytes.items at (at + length into.old)) }
        ensures same { self.new.bytes ≡ self.old.bytes }
        ensures done { OnOk result (self.new.faults ≡ self.old.faults) }
        ensures counted { self.old.faults ≤ self.new.faults }
        ensures cause { HasCause self.old.faults self.new.faults result }
    {
        let from = at as usize;
        let len = self.bytes.len();
        if from > len || into.len() > len - from {
            return Err(self.fail());
        }
        into.copy_from_slice(&self.bytes[from..from + into.len()]);
        Ok(())
    }

    fn write_at(&mut self, at: u64, bytes: &[u8]) -> Result<(), DiskFailed>
        requires { at + length bytes.now < 2 ^ 64 }
        ensures begins { OnOk result (at ≤ length self.old.bytes.items) }
        ensures written { OnOk result (self.new.bytes.items ≡ overwritten self.old.bytes.items at bytes.now) }
        ensures nothing { OnErr result (self.new.bytes.items ≡ self.old.bytes.items) }
        ensures done { OnOk result (self.new.faults ≡ self.old.faults) }
        ensures counted { self.old.faults ≤ self.new.faults }
        ensures cause { HasCause self.old.faults self.new.faults result }
    {
        let from = at as usize;
        if from > self.bytes.len() || put(&mut self.bytes, from, bytes).is_err() {
            return Err(self.fail());
        }
        Ok(())
    }

    fn sync(&mut self) -> Result<(), DiskFailed>
        ensures done { IsOk result }
        ensures same { self.new ≡ self.old }
    {
        Ok(())
    }
}

/// Writes bytes over those that stand from an offset on, and adds those that go past the end. Where there is no memory all is as before.
fn put(kept: &mut Vec<u8>, at: usize, bytes: &[u8]) -> Result<(), AllocError>
    requires begins { at ≤ length kept.old.items }
    requires ends { at + length bytes.now < 2 ^ 64 }
    ensures ok { OnOk result (kept.new.items ≡ overwritten kept.old.items at bytes.now) }
    ensures err { OnErr result (kept.new.items ≡ kept.old.items) }
{
    let over = bytes.len().min(kept.len() - at);
    let (front, rest) = bytes.split_at(over);
    kept.extend_from_slice(rest)?;
    kept[at..at + over].copy_from_slice(front);
    Ok(())
}
