//! A disk, as it is modelled: what a read gives, and what a stop may leave.

ghost use Rattle.std.specs.Prelude.{◌≡◌, ℕ, ◌+◌, ◌^◌, ◌<◌, ◌≤◌, Bool, List, length, Option, Some, slice_range, IfSome, IfOk, OnOk, OnErr};
ghost use Rattle.devices.specs.Disks.{Torn, IsUnchanged, IsOverwritten, IsTorn, NothingNew, Follows, IsDurable, Elapses, HasCause, IsListed};

use thiserror::Error;

/// The disk failed.
#[derive(Clone, Copy, Debug, PartialEq, Eq, Error)]
#[error("the disk failed")]
pub struct DiskFailed;

/// A disk of bytes, which are read and written at offsets. What is written may be lost at a stop, whole or in part,
/// until a sync was answered with `Ok`.
///
/// Each call's clauses speak of every moment since its start, by a clock of the disk's own: `left_since` is what a stop
/// at some moment since then might have left, during a call or between two.
pub trait Disk {
    /// The bytes that a read gives, where the disk tells them; no clause can say what a real file has.
    ghost content: { Self → Option (List ℕ) };

    /// What a stop at this moment may leave. A disk that tells no content tells none.
    ghost may_leave: { Self → List ℕ → Type 0 };

    /// The moment, as a number that does not fall.
    ghost moment: { Self → ℕ };

    /// What a stop at some moment from that one on might have left.
    ghost left_since: { Self → ℕ → List ℕ → Type 0 };

    /// The calls so far, in order, each with whether it failed. A disk that tells no content tells none.
    ghost calls: { Self → List Bool };

    /// How many faults there were. The count never falls and stands still at the end of a `u64`.
    ghost faults: { Self → ℕ };

    /// How many bytes there are.
    fn len(&mut self) -> Result<u64, DiskFailed>
        ensures counts { IfOk result (λ n. IfSome (content self.old) (λ bytes. n ≡ length bytes)) }
        ensures same { IsUnchanged (content self.old) (content self.new) }
        ensures images { NothingNew (may_leave self.old) (may_leave self.new) }
        ensures time { Elapses (moment self.old) (moment self.new) (left_since self.old) (left_since self.new) (may_leave self.new) }
        ensures listed { IsListed (content self.old) (calls self.old) result (calls self.new) (faults self.new) }
        ensures counted { faults self.old ≤ faults self.new }
        ensures done { OnOk result (faults self.new ≡ faults self.old) }
        ensures cause { HasCause (faults self.old) (faults self.new) result };

    /// Reads the bytes from an offset on; they stand within the content.
    fn read_at(&mut self, at: u64, into: &mut [u8]) -> Result<(), DiskFailed>
        requires { IfSome (content self.old) (λ bytes. at + length into.old ≤ length bytes) }
        ensures bytes { OnOk result (IfSome (content self.old) (λ bytes. into.new ≡ slice_range bytes at (at + length into.old))) }
        ensures same { IsUnchanged (content self.old) (content self.new) }
        ensures images { NothingNew (may_leave self.old) (may_leave self.new) }
        ensures time { Elapses (moment self.old) (moment self.new) (left_since self.old) (left_since self.new) (may_leave self.new) }
        ensures listed { IsListed (content self.old) (calls self.old) result (calls self.new) (faults self.new) }
        ensures counted { faults self.old ≤ faults self.new }
        ensures done { OnOk result (faults self.new ≡ faults self.old) }
        ensures cause { HasCause (faults self.old) (faults self.new) result };

    /// Writes bytes from an offset on, over what is there and past the end; it begins at the end at most. A write that
    /// failed may have left any bytes in its range. Until a sync, a stop may leave any there.
    fn write_at(&mut self, at: u64, bytes: &[u8]) -> Result<(), DiskFailed>
        requires begins { IfSome (content self.old) (λ old. at ≤ length old) }
        requires ends { at + length bytes.now < 2 ^ 64 }
        ensures written { OnOk result (IsOverwritten (content self.old) at bytes.now (content self.new)) }
        ensures torn { OnErr result (IsTorn (content self.old) at (length bytes.now) (content self.new)) }
        ensures images { Follows (Torn at (length bytes.now)) (may_leave self.old) (may_leave self.new) }
        ensures time { Elapses (moment self.old) (moment self.new) (left_since self.old) (left_since self.new) (may_leave self.new) }
        ensures listed { IsListed (content self.old) (calls self.old) result (calls self.new) (faults self.new) }
        ensures counted { faults self.old ≤ faults self.new }
        ensures done { OnOk result (faults self.new ≡ faults self.old) }
        ensures cause { HasCause (faults self.old) (faults self.new) result };

    /// After it a stop leaves what a read gives. A sync that failed settles nothing.
    fn sync(&mut self) -> Result<(), DiskFailed>
        ensures durable { OnOk result (IsDurable (content self.old) (may_leave self.new)) }
        ensures same { IsUnchanged (content self.old) (content self.new) }
        ensures images { NothingNew (may_leave self.old) (may_leave self.new) }
        ensures time { Elapses (moment self.old) (moment self.new) (left_since self.old) (left_since self.new) (may_leave self.new) }
        ensures listed { IsListed (content self.old) (calls self.old) result (calls self.new) (faults self.new) }
        ensures counted { faults self.old ≤ faults self.new }
        ensures done { OnOk result (faults self.new ≡ faults self.old) }
        ensures cause { HasCause (faults self.old) (faults self.new) result };

    /// The disk as it stands is one of those that a stop may leave.
    ghost stands: { (disk : Self) (bytes : List ℕ) → content disk ≡ Some bytes → may_leave disk bytes };

    /// This moment is one of those since an earlier one.
    ghost counts_now: { (disk : Self) (t : ℕ) (image : List ℕ) → t ≤ moment disk → may_leave disk image → left_since disk t image };

    /// Since this moment there is no other.
    ghost only_now: { (disk : Self) (image : List ℕ) → left_since disk (moment disk) image → may_leave disk image };
}
