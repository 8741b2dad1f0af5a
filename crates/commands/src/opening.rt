//! The journal under a name of a cabinet, opened and closed again: what the commands over a journal have in common.

ghost use Rattle.std.specs.Prelude.{◌≡◌, IfOk, IfErr, IfSome};
ghost use Rattle.commands.specs.Opening.{IsClosedUnder, IsNotOpenedUnder, IsOpenedUnder};
ghost use Rattle.commands.specs.Worlds.{shelf};
ghost use Rattle.devices.specs.Cabinets.{Out};

use crate::endings::Ending;
use devices::{Cabinet, Opened};
use journal::OpenFault;
use office::Office;
use office::laws::an_office_stands_on_its_disk;
use office_inputs::Limits;
use std::alloc::Global;

impl From<OpenFault> for Ending {
    ghost use Rattle.std.specs.Prelude.{◌≡◌};
    ghost use Rattle.commands.specs.Opening.{opening_ending};

    ghost from_gives = { λ why ending. ending ≡ opening_ending why };

    fn from(why: OpenFault) -> Ending {
        match why {
            OpenFault::Fault => Ending::DiskFault,
            OpenFault::NotAJournal => Ending::NotAJournal,
            OpenFault::Damaged(at) => Ending::Damaged(at),
            OpenFault::NoMemory => Ending::NoMemory,
        }
    }
}

/// Takes out the disk under a name, and opens an office on its journal. Where that is not opened the disk is under its name again; where
/// none stands there, that is no journal, and a cabinet that failed is a fault.
pub(crate) fn open_office<C: Cabinet>(
    alloc: Global,
    cabinet: &mut C,
    name: &str,
) -> Result<Office<C::Disk>, OpenFault>
    ensures opened { IfOk result (λ office. IsOpenedUnder C.Disk.Disk name.now office.register office.disk
        (shelf C.Cabinet cabinet.old) (shelf C.Cabinet cabinet.new)) }
    ensures refused { IfErr result (λ why. IsNotOpenedUnder C.Disk.Disk name.now why
        (shelf C.Cabinet cabinet.old) (shelf C.Cabinet cabinet.new)) }
{
    match cabinet.open(name, false) {
        Opened::Disk(disk) => match Office::open(alloc, disk, Limits::usual()) {
            Ok(office) => Ok(office),
            Err(refused) => {
                cabinet.keep(name, refused.disk);
                Err(refused.fault)
            }
        },
        Opened::Absent => Err(OpenFault::NotAJournal),
        Opened::Failed => Err(OpenFault::Fault),
    }
}

/// Closes an office, and puts its disk under the name from which it was taken.
pub(crate) fn close_office<C: Cabinet>(cabinet: &mut C, name: &str, office: Office<C::Disk>)
    requires { IfSome (C.places cabinet.old) (λ places. places name.now ≡ Out) }
    ensures { IsClosedUnder C.Disk.Disk name.now office.register.history office.disk
        (shelf C.Cabinet cabinet.old) (shelf C.Cabinet cabinet.new) }
{
    an_office_stands_on_its_disk(&office);
    cabinet.keep(name, office.close());
}
