//! `migrate`: the journal under a name of a cabinet is copied into one of the second format under another name.

ghost use Rattle.std.specs.Prelude.{◌≡◌, IfOk, IfErr, false};
ghost use Rattle.commands.specs.Migrating.{AreReadUnder, IsCopiedUnder, IsMigrated, IsUnreadUnder};
ghost use Rattle.commands.specs.Worlds.{shelf};
ghost use Rattle.migration.specs.Reading.{HasRoom};
ghost use Rattle.office_inputs.specs.Usual.{usual};

use crate::endings::Ending;
use devices::{Cabinet, Opened};
use journal::OpenFault;
use migration::{CopyFault, copy_records, has_room, read_records};
use office_inputs::Limits;
use records::Record;
use std::alloc::Global;

/// Why a journal was not copied, or not whole.
#[derive(Clone, Copy)]
pub(crate) enum MigrationFault {
    /// It was not read to its end.
    Unread(OpenFault),
    /// In the second format it would be longer than a journal may be.
    Full,
    /// Its records were not copied.
    Uncopied(CopyFault),
}

impl From<Result<(), MigrationFault>> for Ending {
    ghost use Rattle.std.specs.Prelude.{◌≡◌};
    ghost use Rattle.commands.specs.Migrating.{migration_ending};

    ghost from_gives = { λ migrated ending. ending ≡ migration_ending migrated };

    fn from(migrated: Result<(), MigrationFault>) -> Ending {
        match migrated {
            Ok(()) => Ending::Done,
            Err(MigrationFault::Unread(why)) => Ending::from(why),
            Err(MigrationFault::Full) => Ending::JournalFull,
            Err(MigrationFault::Uncopied(CopyFault::Open(why))) => Ending::from(why),
            Err(MigrationFault::Uncopied(CopyFault::Differs(number))) => Ending::Differs(number),
        }
    }
}

/// Copies the journal under a name into the one under another name, which is made where none is. Each disk that the cabinet gave is under its
/// name again, whatever came.
pub(crate) fn migrate_journal<C: Cabinet>(
    alloc: Global,
    cabinet: &mut C,
    from: &str,
    to: &str,
) -> Result<(), MigrationFault>
    ensures { IsMigrated C.Disk.Disk from.now to.now result (shelf C.Cabinet cabinet.old) (shelf C.Cabinet cabinet.new) }
{
    let records = match read_under(alloc, cabinet, from) {
        Ok(records) => records,
        Err(why) => return Err(MigrationFault::Unread(why)),
    };
    let limit = Limits::usual().journal_bytes;
    if !has_room(records.as_slice(), limit) {
        return Err(MigrationFault::Full);
    }
    match copy_under(alloc, cabinet, to, records.as_slice(), limit) {
        Ok(()) => Ok(()),
        Err(fault) => Err(MigrationFault::Uncopied(fault)),
    }
}

/// The records of the journal under a name.
fn read_under<C: Cabinet>(
    alloc: Global,
    cabinet: &mut C,
    name: &str,
) -> Result<Vec<Record>, OpenFault>
    ensures read { IfOk result (λ records. AreReadUnder C.Disk.Disk name.now records.items (shelf C.Cabinet cabinet.old) (shelf C.Cabinet cabinet.new)) }
    ensures refused { IfErr result (λ why. IsUnreadUnder C.Disk.Disk name.now why (shelf C.Cabinet cabinet.old) (shelf C.Cabinet cabinet.new)) }
{
    match cabinet.open(name, false) {
        Opened::Disk(disk) => {
            let (read, disk) = read_records(alloc, disk);
            cabinet.keep(name, disk);
            read
        }
        Opened::Absent => Err(OpenFault::NotAJournal),
        Opened::Failed => Err(OpenFault::Fault),
    }
}

/// Copies records into the journal under a name, which is made where none is.
fn copy_under<C: Cabinet>(
    alloc: Global,
    cabinet: &mut C,
    name: &str,
    records: &[Record],
    limit: u64,
) -> Result<(), CopyFault>
    requires { HasRoom limit records.now }
    ensures { IsCopiedUnder C.Disk.Disk name.now records.now result (shelf C.Cabinet cabinet.old) (shelf C.Cabinet cabinet.new) }
{
    match cabinet.open(name, true) {
        Opened::Disk(disk) => {
            let (copied, disk) = copy_records(alloc, disk, records, limit);
            cabinet.keep(name, disk);
            copied
        }
        // a disk is made where there is none, so none is absent
        Opened::Absent | Opened::Failed => Err(CopyFault::Open(OpenFault::Fault)),
    }
}
