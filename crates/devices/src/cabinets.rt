//! Where disks are kept: under names.

ghost use Rattle.std.specs.Prelude.{◌≡◌, ℕ, ◌≤◌, List, Option, IfSome, string_bytes};
ghost use Rattle.devices.specs.Cabinets.{Place, Out, IsAsked, IsFresh, HasCause, IsOpened, IsKept, IsCounted};

use crate::Disk;

/// What a cabinet answers to a name.
#[derive(Drop)]
pub enum Opened<D> {
    /// The disk under the name.
    Disk(D),
    /// No disk, since none is under the name.
    Absent,
    /// No disk, since the cabinet failed.
    Failed,
}

/// Disks under names.
pub trait Cabinet {
    type Disk: Disk + Send + 'static;

    /// What is under each name, where the cabinet tells it.
    ghost places: { Self → Option (List ℕ → Place Self.Disk) };

    /// How many faults there were. The count never falls and stands still at the end of a `u64`.
    ghost faults: { Self → ℕ };

    /// Takes out the disk under a name, which goes on by its clock. Where there is none, makes a disk of length 0 if `make`
    /// says so.
    fn open(&mut self, name: &str, make: bool) -> Opened<Self::Disk>
        ensures opened { IsOpened Self.Disk.Disk name.now make (places self.old) (places self.new) result }
        ensures asked { IsAsked make result }
        ensures fresh { IsFresh Self.Disk.Disk result }
        ensures counted { faults self.old ≤ faults self.new }
        ensures cause { HasCause (faults self.old) (faults self.new) result };

    /// Puts a disk that was taken out under its name. A disk that had faults is one fault of the cabinet.
    fn keep(&mut self, name: &str, disk: Self::Disk)
        requires { IfSome (places self.old) (λ places. places name.now ≡ Out) }
        ensures kept { IsKept name.now disk (places self.old) (places self.new) }
        ensures counted { IsCounted (Self.Disk.faults disk) (faults self.old) (faults self.new) };
}
