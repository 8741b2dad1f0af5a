//! The records that stand in a journal already, beside those that are copied into it.

ghost use Rattle.std.specs.Prelude.{◌≡◌, ◌≢◌, ◌≤◌, ◌<◌, ◌+◌, ◌^◌, ◌++◌, ◌∷◌, ◌↔◌, List, [], true, false, length, IfOk, IfErr, IfSome, OnOk, Ok, Err};
ghost use Rattle.devices.specs.Faults.{Rose};
ghost use Rattle.journal.specs.Moments.{OnlyReads};
ghost use Rattle.journal.specs.Reading.{HasEnded, HasRead};
ghost use Rattle.migration.specs.Matching.{IsMatched};
ghost use Rattle.migration.specs.Reading.{IsUnread};
ghost use Rattle.records.specs.Sheets.{Record};

use devices::Disk;
use fixed_units::Text;
use journal::{OpenFault, Opening};
use records::Record;
use std::alloc::Global;

/// How far the records of a journal are those that are copied.
#[derive(Clone, Copy)]
pub(crate) struct Match {
    /// How many of the first ones are.
    pub(crate) same: usize,
    /// Whether the one behind them is another.
    pub(crate) differs: bool,
}

/// Reads a journal to its end, beside the records that are copied.
pub(crate) fn read_beside<D: Disk>(
    alloc: Global,
    opening: &mut Opening<D>,
    records: &[Record],
) -> Result<Match, OpenFault>
    requires { HasRead [] opening.old }
    ensures all { IfOk result (λ found. (copied : List Record) × HasEnded copied opening.new × IsMatched found.differs found.same records.now copied) }
    ensures ended { OnOk result (opening.new.ended ≡ true) }
    ensures within { IfOk result (λ found. found.same ≤ length records.now) }
    ensures refused { IfErr result (λ fault. IsUnread (D.content opening.new.ahead.disk) fault (D.faults opening.old.ahead.disk) (D.faults opening.new.ahead.disk)) }
    ensures format { opening.new.format ≡ opening.old.format }
    ensures disk { OnlyReads D.Disk opening.old.ahead.disk opening.new.ahead.disk }
    ensures done { OnOk result (D.faults opening.new.ahead.disk ≡ D.faults opening.old.ahead.disk) }
{
    let mut found = Match {
        same: 0,
        differs: false,
    };
    while read_next_beside(alloc, opening, records, &mut found)? {}
    Ok(found)
}

/// Reads the next record; `false` at the closed gate.
fn read_next_beside<D: Disk>(
    alloc: Global,
    opening: &mut Opening<D>,
    records: &[Record],
    found: &mut Match,
) -> Result<bool, OpenFault>
    requires read { (copied : List Record) × HasRead copied opening.old × IsMatched found.old.differs found.old.same records.now copied }
    requires within { found.old.same ≤ length records.now }
    ensures more { result ≡ Ok true → (copied : List Record) × HasRead copied opening.new × IsMatched found.new.differs found.new.same records.now copied }
    ensures all { result ≡ Ok false → (copied : List Record) × HasEnded copied opening.new × IsMatched found.new.differs found.new.same records.now copied }
    ensures ended { result ≡ Ok false → opening.new.ended ≡ true }
    ensures within { found.new.same ≤ length records.now }
    ensures moves { result ≡ Ok true → opening.old.gate < opening.new.gate }
    ensures below { result ≡ Ok true → opening.old.gate < 2 ^ 64 }
    ensures refused { IfErr result (λ fault. IsUnread (D.content opening.new.ahead.disk) fault (D.faults opening.old.ahead.disk) (D.faults opening.new.ahead.disk)) }
    ensures format { opening.new.format ≡ opening.old.format }
    ensures disk { OnlyReads D.Disk opening.old.ahead.disk opening.new.ahead.disk }
    ensures done { OnOk result (D.faults opening.new.ahead.disk ≡ D.faults opening.old.ahead.disk) }
{
    let Some(piece) = opening.next(alloc)? else {
        return Ok(false);
    };
    let _gate = opening.offset();
    *found = found.with_next(records, &piece);
    Ok(true)
}

impl Match {
    /// With one record more of the journal.
    fn with_next(self, records: &[Record], piece: &Record) -> Match
        requires { self.same ≤ length records.now }
        ensures matched { (copied : List Record) → IsMatched self.differs self.same records.now copied
            → IsMatched result.differs result.same records.now (copied ++ piece.now ∷ []) }
        ensures within { result.same ≤ length records.now }
    {
        if self.differs {
            return self;
        }
        match records.get(self.same) {
            Some(record) if is_same(record, piece) => Match {
                same: self.same + 1,
                differs: false,
            },
            _ => Match {
                same: self.same,
                differs: true,
            },
        }
    }
}

/// Whether both records are of the same edit, and have the same sheets, byte for byte.
fn is_same(one: &Record, other: &Record) -> bool
    ensures { result ≡ true ↔ one.now ≡ other.now }
{
    one.edit().is_same(other.edit()) && are_same(one.sheets().as_slice(), other.sheets().as_slice())
}

/// Whether both lists have the same sheets, byte for byte.
fn are_same(one: &[Text], other: &[Text]) -> bool
    ensures { result ≡ true ↔ one.now ≡ other.now }
{
    if one.len() != other.len() {
        return false;
    }
    let mut place = 0;
    while place < one.len() {
        if one[place].as_slice() != other[place].as_slice() {
            return false;
        }
        place += 1;
    }
    true
}
