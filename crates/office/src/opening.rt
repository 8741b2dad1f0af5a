//! The opening of an office on the journal of its edits: each is accepted as it was when it was made.

ghost use Rattle.std.specs.Prelude.{◌≡◌, ◌≤◌, ◌<◌, ◌^◌, true, false, List, [], None, Ok, OnOk, IfOk, IfErr};
ghost use Rattle.devices.specs.Disks.{IsUnchanged, IsDurable};
ghost use Rattle.history.specs.Legal.{IsLegal};
ghost use Rattle.journal.specs.Moments.{IsContent, LeavesOnly, OnlyReads, SyncsFirst};
ghost use Rattle.journal.specs.Reading.{HasRead};
ghost use Rattle.office.specs.Openings.{IsNotOpened, IsOpened};
ghost use Rattle.office.specs.Replaying.{HasReadmitted, HasReadmittedAll, IsReadFault, ReadsNext};
ghost use Rattle.office.specs.Standing.{Stands};
ghost use Rattle.office_inputs.specs.declared.limits.Limits.{Limits};
ghost use Rattle.records.specs.Sheets.{Record};

use crate::offices::Office;
use devices::Disk;
use history::Doubt;
use journal::{Journal, OpenFault, OpenRefused, Opening};
use office_inputs::Limits;
use register::laws::a_history_is_legal;
use register::{NotReadmitted, Register};
use std::alloc::Global;

impl<D: Disk> Office<D> {
    /// Opens an office on the journal of its edits, and accepts them again. Nothing is written, and what was not yet safe from a stop
    /// is safe then.
    ///
    /// # Errors
    ///
    /// A refusal gives the disk back. [`OpenFault::Damaged`] tells the offset of the first gate that is missing, or is open with no
    /// record behind it, or with one whose reference is that of a record before it, that the stations in force or the statuses of its days refuse, or that
    /// would change an approved day.
    pub fn open(alloc: Global, disk: D, limits: Limits) -> Result<Office<D>, OpenRefused<D>>
        ensures opened { IfOk result (λ office. IsOpened (D.content disk) limits office.register) }
        ensures same { IfOk result (λ office. IsUnchanged (D.content disk) (D.content office.disk)) }
        ensures durable { IfOk result (λ office. IsDurable (D.content disk) (D.may_leave office.disk)) }
        ensures synced { IfOk result (λ office. SyncsFirst D.Disk disk office.disk (IsContent (D.content disk))) }
        ensures any_moment { IfOk result (λ office. LeavesOnly D.Disk disk office.disk (D.may_leave disk)) }
        ensures counted { IfOk result (λ office. D.faults disk ≤ D.faults office.disk) }
        ensures done { IfOk result (λ office. D.faults office.disk ≡ D.faults disk) }
        ensures refused { IfErr result (λ refused. IsNotOpened (D.content disk) limits refused.fault (D.faults disk) (D.faults refused.disk)) }
        ensures refused_same { IfErr result (λ refused. IsUnchanged (D.content disk) (D.content refused.disk)) }
        ensures refused_any_moment { IfErr result (λ refused. LeavesOnly D.Disk disk refused.disk (D.may_leave disk)) }
        ensures refused_counted { IfErr result (λ refused. D.faults disk ≤ D.faults refused.disk) }
    {
        let mut opening = journal::open(alloc, disk)?;
        match replay(alloc, &mut opening, limits) {
            Ok(register) => {
                let journal = opening.finish(limits.journal_bytes);
                Ok(Office::over(alloc, register, journal))
            }
            Err(fault) => Err(OpenRefused {
                disk: opening.give_up(),
                fault,
            }),
        }
    }

    /// The office of what is kept in memory and of its journal, which is in doubt of no record.
    fn over(alloc: Global, register: Register, journal: Journal<D>) -> Office<D>
        requires { Stands register.history None journal }
        ensures register { result.register ≡ register }
        ensures disk { result.disk ≡ journal.disk }
    {
        Office {
            alloc,
            register,
            journal,
            doubt: Doubt::none(),
        }
    }
}

/// What is kept in memory once the records up to the closed gate are read, and the edit of each is accepted.
fn replay<D: Disk>(
    alloc: Global,
    opening: &mut Opening<D>,
    limits: Limits,
) -> Result<Register, OpenFault>
    requires { HasRead [] opening.old }
    ensures all { IfOk result (λ register. (pieces : List Record) × HasReadmittedAll limits pieces register opening.new) }
    ensures legal { IfOk result (λ register. IsLegal register.history) }
    ensures ended { OnOk result (opening.new.ended ≡ true) }
    ensures refused { IfErr result (λ fault. IsReadFault (D.content opening.new.ahead.disk) limits fault (D.faults opening.old.ahead.disk) (D.faults opening.new.ahead.disk)) }
    ensures disk { OnlyReads D.Disk opening.old.ahead.disk opening.new.ahead.disk }
    ensures done { OnOk result (D.faults opening.new.ahead.disk ≡ D.faults opening.old.ahead.disk) }
{
    let mut register = Register::new(alloc, limits, opening.format());
    read_all(alloc, opening, &mut register)?;
    a_history_is_legal(&register);
    Ok(register)
}

/// Reads the records up to the closed gate, and accepts the edit of each.
pub(crate) fn read_all<D: Disk>(
    alloc: Global,
    opening: &mut Opening<D>,
    register: &mut Register,
) -> Result<(), OpenFault>
    requires { HasReadmitted register.old.history.limits [] register.old opening.old }
    ensures all { OnOk result ((pieces : List Record) × HasReadmittedAll register.old.history.limits pieces register.new opening.new) }
    ensures ended { OnOk result (opening.new.ended ≡ true) }
    ensures refused { IfErr result (λ fault. IsReadFault (D.content opening.new.ahead.disk) register.old.history.limits fault (D.faults opening.old.ahead.disk) (D.faults opening.new.ahead.disk)) }
    ensures disk { OnlyReads D.Disk opening.old.ahead.disk opening.new.ahead.disk }
    ensures done { OnOk result (D.faults opening.new.ahead.disk ≡ D.faults opening.old.ahead.disk) }
{
    while read_next(alloc, opening, register)? {}
    Ok(())
}

/// Reads the next record and accepts its edit; `false` at the closed gate.
fn read_next<D: Disk>(
    alloc: Global,
    opening: &mut Opening<D>,
    register: &mut Register,
) -> Result<bool, OpenFault>
    requires { (pieces : List Record) × HasReadmitted register.old.history.limits pieces register.old opening.old }
    ensures reads { (pieces : List Record) → HasReadmitted register.old.history.limits pieces register.old opening.old → ReadsNext register.old.history.limits pieces register.new opening.new result }
    ensures limits { OnOk result (register.new.history.limits ≡ register.old.history.limits) }
    ensures format { opening.new.format ≡ opening.old.format }
    ensures ended { result ≡ Ok false → opening.new.ended ≡ true }
    ensures within { result ≡ Ok true → opening.old.gate < 2 ^ 64 }
    ensures refused { IfErr result (λ fault. IsReadFault (D.content opening.new.ahead.disk) register.old.history.limits fault (D.faults opening.old.ahead.disk) (D.faults opening.new.ahead.disk)) }
    ensures disk { OnlyReads D.Disk opening.old.ahead.disk opening.new.ahead.disk }
    ensures done { OnOk result (D.faults opening.new.ahead.disk ≡ D.faults opening.old.ahead.disk) }
{
    a_history_is_legal(register);
    let Some(piece) = opening.next(alloc)? else {
        return Ok(false);
    };
    let gate = opening.offset();
    match register.readmit(piece) {
        Ok(()) => Ok(true),
        Err(NotReadmitted::Refused(_)) => Err(OpenFault::Damaged(gate)),
        Err(NotReadmitted::NoMemory) => Err(OpenFault::NoMemory),
    }
}
