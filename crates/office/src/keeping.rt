//! A record kept in a journal that may be in doubt.

ghost use Rattle.std.specs.Prelude.{◌≡◌, ◌≤◌, ◌+◌, true, List, length, Option, None, is_some, is_err, OnOk, OnErr};
ghost use Rattle.devices.specs.Faults.{Rose};
ghost use Rattle.journal.specs.JournalBytes.{StandsFor};
ghost use Rattle.journal.specs.Keeping.{Holds, IsNext};
ghost use Rattle.journal.specs.Moments.{LeavesOnly};
ghost use Rattle.journal.specs.Writing.{Lists};
ghost use Rattle.office.specs.Keeping.{Keeps, Leaves, IsLeftKeeping, KeepCalls, Settles, SettleCalls, flown, gate_of};
ghost use Rattle.records.specs.Sheets.{Record};

use devices::{Disk, DiskFailed};
use history::{Doubt, NotKept};
use journal::{AppendFault, Journal};
use records::Record;

/// Appends a record to a journal; where that is in doubt of one, it is mended first. It takes no memory.
pub(crate) fn keep<D: Disk>(
    journal: &mut Journal<D>,
    doubt: &mut Doubt,
    piece: &Record,
    bytes: &[u8],
) -> Result<(), NotKept>
    requires in_doubt { journal.old.in_doubt ≡ is_some doubt.old }
    requires fits { journal.old.gate + 1 + length bytes.now ≤ journal.old.limit }
    requires next { IsNext journal.old.format piece.now bytes.now }
    ensures keeps { (pieces : List Record) → Holds pieces doubt.old journal.old → Keeps pieces piece.now doubt.new journal.new result }
    ensures leaves { Leaves doubt.old piece.now doubt.new result }
    ensures in_doubt { journal.new.in_doubt ≡ is_some doubt.new }
    ensures any_moment { (pieces : List Record) → Holds pieces doubt.old journal.old
        → LeavesOnly D.Disk journal.old.disk journal.new.disk (IsLeftKeeping journal.old.format pieces doubt.old (flown piece.now doubt.new result)) }
    ensures calls { (pieces : List Record) → Holds pieces doubt.old journal.old
        → Lists (D.content journal.old.disk) (D.calls journal.old.disk) (D.calls journal.new.disk) (D.faults journal.new.disk) (KeepCalls (is_some doubt.old) result) }
    ensures gate { journal.new.gate ≡ gate_of journal.old.gate (length bytes.now) result }
    ensures format { journal.new.format ≡ journal.old.format }
    ensures limit { journal.new.limit ≡ journal.old.limit }
    ensures untold { D.content journal.old.disk ≡ None → D.content journal.new.disk ≡ None }
    ensures counted { D.faults journal.old.disk ≤ D.faults journal.new.disk }
    ensures done { OnOk result (D.faults journal.new.disk ≡ D.faults journal.old.disk) }
    ensures cause { OnErr result (Rose (D.faults journal.old.disk) (D.faults journal.new.disk)) }
{
    if settle(journal).is_err() {
        return Err(NotKept::Mend);
    }
    *doubt = Doubt::none();
    match journal.append(bytes) {
        Ok(()) => Ok(()),
        Err(AppendFault::Fault(true)) => {
            *doubt = Doubt::of(piece);
            Err(NotKept::Gate)
        }
        Err(_) => Err(NotKept::Record),
    }
}

/// Mends a journal where it is in doubt of a record. It takes no memory.
fn settle<D: Disk>(journal: &mut Journal<D>) -> Result<(), DiskFailed>
    ensures settled { (pieces : List Record) (left : Option Record) → Holds pieces left journal.old → Settles pieces left journal.new result }
    ensures any_moment { (pieces : List Record) (left : Option Record) → Holds pieces left journal.old
        → LeavesOnly D.Disk journal.old.disk journal.new.disk (StandsFor journal.old.format pieces left) }
    ensures calls { Lists (D.content journal.old.disk) (D.calls journal.old.disk) (D.calls journal.new.disk) (D.faults journal.new.disk) (SettleCalls journal.old.in_doubt result) }
    ensures doubtful { OnErr result (journal.old.in_doubt ≡ true) }
    ensures in_doubt { journal.new.in_doubt ≡ is_err result }
    ensures gate { journal.new.gate ≡ journal.old.gate }
    ensures format { journal.new.format ≡ journal.old.format }
    ensures limit { journal.new.limit ≡ journal.old.limit }
    ensures untold { D.content journal.old.disk ≡ None → D.content journal.new.disk ≡ None }
    ensures counted { D.faults journal.old.disk ≤ D.faults journal.new.disk }
    ensures done { OnOk result (D.faults journal.new.disk ≡ D.faults journal.old.disk) }
    ensures cause { OnErr result (Rose (D.faults journal.old.disk) (D.faults journal.new.disk)) }
{
    if !journal.in_doubt() {
        return Ok(());
    }
    journal.mend()
}
