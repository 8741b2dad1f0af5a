//! The bytes of a journal that were read whole, as a disk that is read and never written.

ghost use Rattle.std.specs.Prelude.{◌≡◌, ◌+◌, ◌-◌, ◌^◌, ◌≤◌, [], length, Some, slice_range, IfOk, OnOk};
ghost use Rattle.ledger.specs.Held.{told};

use devices::{Disk, DiskFailed};
use fixed_units::Text;

/// Bytes that are read as those of a disk. A write fails, and nothing else does. Its count of faults stands at its type's end.
#[derive(Drop)]
pub(crate) struct HeldBytes {
    bytes: Text,
}

impl HeldBytes {
    /// A disk of these bytes.
    pub(crate) fn new(bytes: Text) -> HeldBytes
        ensures { result.bytes ≡ bytes }
    {
        HeldBytes { bytes }
    }
}

impl Disk for HeldBytes {
    ghost content = { λ d. Some d.bytes };

    ghost may_leave = { λ d image. image ≡ d.bytes };

    ghost moment = { λ d. 0 };

    ghost left_since = { λ d t image. image ≡ d.bytes };

    ghost calls = { λ d. [] };

    ghost faults = { λ d. 2 ^ 64 - 1 };

    ghost stands = { λ d bytes is. told d.bytes bytes is };

    ghost counts_now = { λ d t image within left. left };

    ghost only_now = { λ d image left. left };

    fn len(&mut self) -> Result<u64, DiskFailed> {
        Ok(self.bytes.len() as u64)
    }

    fn read_at(&mut self, at: u64, into: &mut [u8]) -> Result<(), DiskFailed> {
        let from = at as usize;
        let count = into.len();
        into.copy_from_slice(&self.bytes.as_slice()[from..from + count]);
        Ok(())
    }

    fn write_at(&mut self, at: u64, bytes: &[u8]) -> Result<(), DiskFailed> {
        let _end = at + bytes.len() as u64;
        Err(DiskFailed)
    }

    fn sync(&mut self) -> Result<(), DiskFailed> {
        Ok(())
    }
}
