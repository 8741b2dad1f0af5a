//! The records of a journal, read to its end, and the room that they take in the second format.

ghost use Rattle.std.specs.Prelude.{◌≡◌, ◌≤◌, ◌<◌, ◌+◌, ◌^◌, ◌++◌, ◌∷◌, ◌↔◌, List, [], true, false, length, IfOk, IfErr, IfSome, OnOk, Ok};
ghost use Rattle.devices.specs.Disks.{IsUnchanged};
ghost use Rattle.journal.specs.JournalBytes.{block};
ghost use Rattle.journal.specs.Moments.{IsContent, LeavesOnly, OnlyReads, SyncsFirst};
ghost use Rattle.journal.specs.Reading.{HasEnded, HasRead};
ghost use Rattle.migration.specs.Reading.{HasRoom, IsUnread, StandsForAll};
ghost use Rattle.records.specs.Sheets.{Record};
ghost use Rattle.records.specs.declared.formats.Format.TheVariants.{Second};

use devices::Disk;
use journal::{OpenFault, Opening};
use records::{BEFORE_PAYLOAD, Format, HEADER_LEN, Record, record_len};
use std::alloc::Global;

/// Opens the journal on a disk, and reads its records to the end. Nothing is written, and what was not yet safe from a stop is safe then.
/// The disk is given back, whatever came.
pub fn read_records<D: Disk>(alloc: Global, disk: D) -> (Result<Vec<Record>, OpenFault>, D)
    ensures read { IfOk result.0 (λ records. IfSome (D.content disk) (StandsForAll records.items)) }
    ensures synced { IfOk result.0 (λ _. SyncsFirst D.Disk disk result.1 (IsContent (D.content disk))) }
    ensures refused { IfErr result.0 (λ fault. IsUnread (D.content disk) fault (D.faults disk) (D.faults result.1)) }
    ensures same { IsUnchanged (D.content disk) (D.content result.1) }
    ensures any_moment { LeavesOnly D.Disk disk result.1 (D.may_leave disk) }
    ensures counted { D.faults disk ≤ D.faults result.1 }
    ensures done { OnOk result.0 (D.faults result.1 ≡ D.faults disk) }
{
    match journal::open(alloc, disk) {
        Ok(opening) => {
            let mut opening = opening;
            let read = read_all(alloc, &mut opening);
            (read, opening.give_up())
        }
        Err(refused) => (Err(refused.fault), refused.disk),
    }
}

/// Reads the records up to the closed gate.
fn read_all<D: Disk>(alloc: Global, opening: &mut Opening<D>) -> Result<Vec<Record>, OpenFault>
    requires { HasRead [] opening.old }
    ensures all { IfOk result (λ records. HasEnded records.items opening.new) }
    ensures refused { IfErr result (λ fault. IsUnread (D.content opening.new.ahead.disk) fault (D.faults opening.old.ahead.disk) (D.faults opening.new.ahead.disk)) }
    ensures disk { OnlyReads D.Disk opening.old.ahead.disk opening.new.ahead.disk }
    ensures done { OnOk result (D.faults opening.new.ahead.disk ≡ D.faults opening.old.ahead.disk) }
{
    let mut records = Vec::new(alloc);
    while read_next(alloc, opening, &mut records)? {}
    Ok(records)
}

/// Reads the next record behind the others; `false` at the closed gate.
fn read_next<D: Disk>(
    alloc: Global,
    opening: &mut Opening<D>,
    records: &mut Vec<Record>,
) -> Result<bool, OpenFault>
    requires { HasRead records.old.items opening.old }
    ensures more { result ≡ Ok true → HasRead records.new.items opening.new }
    ensures ended { result ≡ Ok false → HasEnded records.new.items opening.new }
    ensures moves { result ≡ Ok true → opening.old.gate < opening.new.gate }
    ensures within { result ≡ Ok true → opening.old.gate < 2 ^ 64 }
    ensures refused { IfErr result (λ fault. IsUnread (D.content opening.new.ahead.disk) fault (D.faults opening.old.ahead.disk) (D.faults opening.new.ahead.disk)) }
    ensures disk { OnlyReads D.Disk opening.old.ahead.disk opening.new.ahead.disk }
    ensures done { OnOk result (D.faults opening.new.ahead.disk ≡ D.faults opening.old.ahead.disk) }
{
    let Some(piece) = opening.next(alloc)? else {
        return Ok(false);
    };
    let _gate = opening.offset();
    if records.push(piece).is_err() {
        return Err(OpenFault::NoMemory);
    }
    Ok(true)
}

/// Whether the journal of these records in the second format has at most so many bytes.
pub fn has_room(records: &[Record], limit: u64) -> bool
    ensures { result ≡ true ↔ HasRoom limit records.now }
{
    if limit < HEADER_LEN + 1 {
        return false;
    }
    let mut left = limit - (HEADER_LEN + 1);
    for piece in records {
        let len = block_len(piece);
        if left < len {
            return false;
        }
        left -= len;
    }
    true
}

/// How many bytes a record takes in a journal of the second format, behind the gate before it.
fn block_len(piece: &Record) -> u64
    ensures { result ≡ length (block Second piece.now) }
{
    BEFORE_PAYLOAD + record_len(piece, Format::Second) as u64
}
