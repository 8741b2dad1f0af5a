//! Records copied into a journal of the second format, which is made where none is.

ghost use Rattle.std.specs.Prelude.{◌≡◌, ◌⊎◌, ◌≤◌, ◌+◌, ◌++◌, ◌∷◌, List, [], true, false, length, flat_map, IfErr, IfOk, IfSome, OnOk, Some, None, Err};
ghost use Rattle.devices.specs.Disks.{IsDurable, IsOverwritten};
ghost use Rattle.devices.specs.Faults.{Rose};
ghost use Rattle.journal.specs.JournalBytes.{HasAnyHeader, StandsFor, block, front};
ghost use Rattle.journal.specs.Keeping.{Holds};
ghost use Rattle.journal.specs.Moments.{LeavesOnly, OnlyReads};
ghost use Rattle.journal.specs.Reading.{HasEnded, HasRead};
ghost use Rattle.migration.specs.Copying.{Begins, Copies, GoesBehind, GoesOn, HasCause, IsBarred, IsBetween, appended, beginning_of};
ghost use Rattle.migration.specs.Reading.{HasRoom};
ghost use Rattle.records.specs.Payloads.{closed_gate};
ghost use Rattle.records.specs.Sheets.{Record};
ghost use Rattle.records.specs.declared.formats.Format.TheVariants.{Second};

use crate::matching::read_beside;
use devices::{Disk, DiskFailed};
use journal::{InitFault, Journal, OpenFault, Opening};
use records::laws::keeps_grammar;
use records::{Format, Record, encode_and_close};
use std::alloc::Global;
use thiserror::Error;

/// Why records were not copied into a journal.
#[derive(Clone, Copy, Debug, PartialEq, Eq, Error)]
pub enum CopyFault {
    /// The disk failed, or has something else than a journal, or a damaged one; or there was no memory.
    #[error("{0}")]
    Open(OpenFault),
    /// The journal is of the first format, where the number is 0, or has a record of this number that is not the one in its place.
    #[error("the journals differ at {0}")]
    Differs(u64),
}

impl From<DiskFailed> for CopyFault {
    ghost use Rattle.migration.specs.declared.copying.CopyFault.{CopyFault};
    ghost use Rattle.journal.specs.declared.opening.OpenFault.{OpenFault};

    ghost from_gives = { λ _ e. e ≡ CopyFault.Open OpenFault.Fault };

    fn from(_: DiskFailed) -> CopyFault {
        CopyFault::Open(OpenFault::Fault)
    }
}

impl From<OpenFault> for CopyFault {
    ghost use Rattle.migration.specs.declared.copying.CopyFault.{CopyFault};

    ghost from_gives = { λ fault e. e ≡ CopyFault.Open fault };

    fn from(fault: OpenFault) -> CopyFault {
        CopyFault::Open(fault)
    }
}

/// Copies records into the journal of the second format on a disk, behind those that it has. Where a journal may be made one is; where it has the
/// first of the records, only the further ones are appended; and where it has others, or is of the first format, nothing is written. The disk is
/// given back, whatever came.
///
/// The disk is synced first. So a stop at any moment leaves what a copy of the same records may begin on again, and no fewer records than stood there.
pub fn copy_records<D: Disk>(
    alloc: Global,
    disk: D,
    records: &[Record],
    limit: u64,
) -> (Result<(), CopyFault>, D)
    requires { HasRoom limit records.now }
    ensures copies { Copies D.Disk records.now result.0 disk result.1 }
    ensures cause { HasCause (D.faults disk) (D.faults result.1) result.0 }
    ensures counted { D.faults disk ≤ D.faults result.1 }
{
    let mut disk = disk;
    match begin(&mut disk) {
        Ok(()) => copy_behind(alloc, disk, records, limit),
        Err(fault) => (Err(fault), disk),
    }
}

/// Opens the journal on a disk, and copies records behind those that it has.
fn copy_behind<D: Disk>(
    alloc: Global,
    disk: D,
    records: &[Record],
    limit: u64,
) -> (Result<(), CopyFault>, D)
    requires { HasRoom limit records.now }
    ensures goes_on { IfSome (D.content disk) (λ bytes. HasAnyHeader bytes → GoesOn D.Disk records.now bytes result.0 disk result.1) }
    ensures cause { HasCause (D.faults disk) (D.faults result.1) result.0 }
    ensures counted { D.faults disk ≤ D.faults result.1 }
{
    match journal::open(alloc, disk) {
        Ok(opening) => go_on(alloc, opening, records, limit),
        Err(refused) => (Err(CopyFault::Open(refused.fault)), refused.disk),
    }
}

/// Syncs, and makes a journal of no records where one may be made.
fn begin<D: Disk>(disk: &mut D) -> Result<(), CopyFault>
    ensures begins { IfSome (D.content disk.old) (λ bytes. Begins D.Disk bytes result disk.old disk.new) }
    ensures cause { HasCause (D.faults disk.old) (D.faults disk.new) result }
    ensures counted { D.faults disk.old ≤ D.faults disk.new }
{
    disk.sync()?;
    begun(journal::init(disk, Format::Second))
}

/// What the making of a journal comes to for a copy: one that stands there already need not be made.
fn begun(made: Result<(), InitFault>) -> Result<(), CopyFault>
    ensures { result ≡ beginning_of made }
{
    match made {
        Ok(()) | Err(InitFault::Exists) => Ok(()),
        Err(InitFault::NotAJournal) => Err(CopyFault::Open(OpenFault::NotAJournal)),
        Err(InitFault::Fault) => Err(CopyFault::Open(OpenFault::Fault)),
    }
}

/// Copies records into a journal that was opened, behind those that it has.
fn go_on<D: Disk>(
    alloc: Global,
    opening: Opening<D>,
    records: &[Record],
    limit: u64,
) -> (Result<(), CopyFault>, D)
    requires read { HasRead [] opening }
    requires room { HasRoom limit records.now }
    ensures goes_on { IsDurable (D.content opening.ahead.disk) (D.may_leave opening.ahead.disk)
        → IfSome (D.content opening.ahead.disk) (λ bytes. GoesOn D.Disk records.now bytes result.0 opening.ahead.disk result.1) }
    ensures cause { HasCause (D.faults opening.ahead.disk) (D.faults result.1) result.0 }
    ensures counted { D.faults opening.ahead.disk ≤ D.faults result.1 }
{
    let mut opening = opening;
    match place_in(alloc, &mut opening, records) {
        Ok(place) => append_from(alloc, opening.finish(limit), records, place),
        Err(fault) => (Err(fault), opening.give_up()),
    }
}

/// How many of the records stand in a journal already, of the second format and without others.
fn place_in<D: Disk>(
    alloc: Global,
    opening: &mut Opening<D>,
    records: &[Record],
) -> Result<usize, CopyFault>
    requires { HasRead [] opening.old }
    ensures place { IfOk result (λ place. (done rest : List Record) × (records.now ≡ done ++ rest) × (length done ≡ place) × HasEnded done opening.new) }
    ensures format { OnOk result (opening.new.format ≡ Second) }
    ensures ended { OnOk result (opening.new.ended ≡ true) }
    ensures within { IfOk result (λ place. place ≤ length records.now) }
    ensures barred { IfErr result (λ fault. IfSome (D.content opening.old.ahead.disk) (λ bytes. IsBarred records.now bytes fault)) }
    ensures disk { OnlyReads D.Disk opening.old.ahead.disk opening.new.ahead.disk }
    ensures cause { HasCause (D.faults opening.old.ahead.disk) (D.faults opening.new.ahead.disk) result }
{
    if opening.format() == Format::First {
        return Err(CopyFault::Differs(0));
    }
    let found = read_beside(alloc, opening, records)?;
    if found.differs {
        return Err(CopyFault::Differs(found.same as u64 + 1));
    }
    Ok(found.same)
}

/// Appends the records from this place on.
fn append_from<D: Disk>(
    alloc: Global,
    journal: Journal<D>,
    records: &[Record],
    place: usize,
) -> (Result<(), CopyFault>, D)
    requires place { (done rest : List Record) × (records.now ≡ done ++ rest) × (length done ≡ place) × (journal.gate ≡ length (front Second done)) }
    requires within { place ≤ length records.now }
    requires format { journal.format ≡ Second }
    requires settled { journal.in_doubt ≡ false }
    requires room { HasRoom journal.limit records.now }
    ensures appended { (first rest : List Record) → records.now ≡ first ++ rest → length first ≡ place → Holds first None journal
        → GoesBehind D.Disk first rest result.0 journal.disk result.1 }
    ensures cause { HasCause (D.faults journal.disk) (D.faults result.1) result.0 }
    ensures counted { D.faults journal.disk ≤ D.faults result.1 }
{
    let mut journal = journal;
    let appended = append_all(alloc, &mut journal, &records[place..]);
    (appended, journal.close())
}

/// Appends these records.
fn append_all<D: Disk>(
    alloc: Global,
    journal: &mut Journal<D>,
    records: &[Record],
) -> Result<(), CopyFault>
    requires format { journal.old.format ≡ Second }
    requires settled { journal.old.in_doubt ≡ false }
    requires room { journal.old.gate + length (flat_map (block Second) records.now) + 1 ≤ journal.old.limit }
    ensures appended { (done : List Record) → Holds done None journal.old → OnOk result (Holds (done ++ records.now) None journal.new) }
    ensures any_moment { (done : List Record) → Holds done None journal.old
        → LeavesOnly D.Disk journal.old.disk journal.new.disk (IsBetween done (done ++ records.now)) }
    ensures wrote { (done : List Record) → Holds done None journal.old
        → OnOk result (IsOverwritten (D.content journal.old.disk) journal.old.gate (appended records.now) (D.content journal.new.disk)) }
    ensures only { IfErr result (λ fault. (fault ≡ CopyFault.Open OpenFault.Fault) ⊎ (fault ≡ CopyFault.Open OpenFault.NoMemory)) }
    ensures format { journal.new.format ≡ Second }
    ensures cause { HasCause (D.faults journal.old.disk) (D.faults journal.new.disk) result }
    ensures counted { D.faults journal.old.disk ≤ D.faults journal.new.disk }
{
    for piece in records {
        append(alloc, journal, piece)?;
    }
    Ok(())
}

/// Appends a record.
fn append<D: Disk>(alloc: Global, journal: &mut Journal<D>, piece: &Record) -> Result<(), OpenFault>
    requires format { journal.old.format ≡ Second }
    requires settled { journal.old.in_doubt ≡ false }
    requires room { journal.old.gate + length (block Second piece.now) + 1 ≤ journal.old.limit }
    ensures appended { (done : List Record) → Holds done None journal.old → OnOk result (Holds (done ++ piece.now ∷ []) None journal.new) }
    ensures any_moment { (done : List Record) → Holds done None journal.old
        → LeavesOnly D.Disk journal.old.disk journal.new.disk (StandsFor Second done (Some piece.now)) }
    ensures wrote { OnOk result (IsOverwritten (D.content journal.old.disk) journal.old.gate (block Second piece.now ++ closed_gate ∷ []) (D.content journal.new.disk)) }
    ensures gate { OnOk result (journal.new.gate ≡ journal.old.gate + length (block Second piece.now)) }
    ensures settled { OnOk result (journal.new.in_doubt ≡ false) }
    ensures only { IfErr result (λ fault. (fault ≡ OpenFault.Fault) ⊎ (fault ≡ OpenFault.NoMemory)) }
    ensures limit { journal.new.limit ≡ journal.old.limit }
    ensures format { journal.new.format ≡ Second }
    ensures cause { result ≡ Err OpenFault.Fault → Rose (D.faults journal.old.disk) (D.faults journal.new.disk) }
    ensures done { OnOk result (D.faults journal.new.disk ≡ D.faults journal.old.disk) }
    ensures counted { D.faults journal.old.disk ≤ D.faults journal.new.disk }
{
    keeps_grammar(piece, Format::Second);
    let Ok(bytes) = encode_and_close(alloc, piece, Format::Second) else {
        return Err(OpenFault::NoMemory);
    };
    match journal.append(bytes.as_slice()) {
        Ok(()) => Ok(()),
        Err(_) => Err(OpenFault::Fault),
    }
}
