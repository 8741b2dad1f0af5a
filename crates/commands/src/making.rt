//! `init`: a journal of no records, of the second format, is made under a name of a cabinet.

ghost use Rattle.std.specs.Prelude.{◌≡◌, ◌≤◌, IfSome};
ghost use Rattle.commands.specs.Making.{HasFailed, IsMadeUnder, MakesOn};
ghost use Rattle.commands.specs.Worlds.{shelf};
ghost use Rattle.devices.specs.Faults.{Rose};
ghost use Rattle.journal.specs.Init.{IsLeftByInit};
ghost use Rattle.journal.specs.Moments.{LeavesOnly};

use crate::endings::Ending;
use devices::{Cabinet, Disk, Opened};
use journal::InitFault;
use records::Format;

impl From<Result<(), InitFault>> for Ending {
    ghost use Rattle.std.specs.Prelude.{◌≡◌};
    ghost use Rattle.commands.specs.Making.{making_ending};

    ghost from_gives = { λ made ending. ending ≡ making_ending made };

    fn from(made: Result<(), InitFault>) -> Ending {
        match made {
            Ok(()) => Ending::Done,
            Err(InitFault::Exists) => Ending::Exists,
            Err(InitFault::NotAJournal) => Ending::NotAJournal,
            Err(InitFault::Fault) => Ending::DiskFault,
        }
    }
}

/// Makes a journal of no records under a name. The disk that the cabinet gave is under the name again, whatever came.
pub(crate) fn make_journal<C: Cabinet>(cabinet: &mut C, name: &str) -> Result<(), InitFault>
    ensures { IsMadeUnder C.Disk.Disk name.now result (shelf C.Cabinet cabinet.old) (shelf C.Cabinet cabinet.new) }
{
    match cabinet.open(name, true) {
        Opened::Disk(disk) => {
            let (made, disk) = make_on(disk);
            cabinet.keep(name, disk);
            made
        }
        // a disk is made where there is none, so none is absent
        Opened::Absent | Opened::Failed => Err(InitFault::Fault),
    }
}

/// Makes a journal of no records on a disk.
fn make_on<D: Disk>(disk: D) -> (Result<(), InitFault>, D)
    ensures makes { IfSome (D.content disk) (λ bytes. MakesOn D.Disk bytes (D.may_leave disk) result.0 result.1) }
    ensures any_moment { LeavesOnly D.Disk disk result.1 (IsLeftByInit (D.content disk) (D.may_leave disk) result.0) }
    ensures cause { HasFailed result.0 → Rose (D.faults disk) (D.faults result.1) }
    ensures counted { D.faults disk ≤ D.faults result.1 }
{
    let mut disk = disk;
    let made = journal::init(&mut disk, Format::Second);
    (made, disk)
}
