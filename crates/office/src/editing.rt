//! An edit: judged, kept in the journal, accepted.

ghost use Rattle.std.specs.Prelude.{◌≡◌, ◌≤◌, ◌+◌, Bool, true, false, length, is_some, IsSome, None, IfOk, IfErr, OnOk, OnErr, Err};
ghost use Rattle.devices.specs.Faults.{Rose};
ghost use Rattle.history.specs.Accepted.{edits_of, named, stations_at};
ghost use Rattle.history.specs.Verdicts.{Accepts, record_of, verdict};
ghost use Rattle.journal.specs.Keeping.{IsNext};
ghost use Rattle.journal.specs.Moments.{LeavesOnly};
ghost use Rattle.journal.specs.Writing.{Lists};
ghost use Rattle.office.specs.Counting.{CountsEdit};
ghost use Rattle.office.specs.Edits.{Edits, EditCalls, EditsClaims, IsFaulted, IsTaken, asks_disk};
ghost use Rattle.office.specs.Steps.{AnEdit, IsStep};
ghost use Rattle.office.specs.Stops.{IsLeftBetween};
ghost use Rattle.office_inputs.specs.Changes.{changed_days};
ghost use Rattle.office_inputs.specs.Places.{IsPlaceOf};
ghost use Rattle.office_inputs.specs.Touched.{interval};
ghost use Rattle.records.specs.Payloads.{Holds};
ghost use Rattle.register.specs.Asked.{needs_days};
ghost use Rattle.register.specs.Registered.{IsReady, KeepsClaims, MarksClaims};

use crate::keeping::keep;
use crate::offices::{Accepted, Office};
use chronicle::Steps;
use devices::Disk;
use edits::Edit;
use fixed_units::{Day, NoMemory, Text};
use office_inputs::{Place, Refusal};
use records::laws::keeps_grammar;
use records::{Record, encode_and_close};
use register::Judged;
use std::sync::ledger::Ledger;

impl<D: Disk> Office<D> {
    /// Keeps an edit in the journal, and accepts it: the days whose inputs it changes await it from then on. An edit that comes again
    /// is told its number, and one that the history refuses its refusal, with no write; where the journal is in doubt of a record, that
    /// is mended first. All memory is taken before the journal is written. No step is taken where the edit comes again or where the
    /// stations in force refuse it, and else no more than the search for its days may take.
    ///
    /// # Errors
    ///
    /// The history's refusal exactly where it has one; [`Refusal::NoMemory`]; and [`Refusal::JournalFault`] only where the disk failed
    /// in this call, with whether the journal is in doubt of a record.
    pub fn edit<L: Ledger>(&mut self, edit: Edit, steps: &mut Steps<L>) -> Result<Accepted, Refusal>
        ensures edited { Edits self.old.register.history edit self.new.register.history result }
        ensures claims { EditsClaims self.old.register edit self.new.register result }
        ensures step { IsStep self.old.register (AnEdit edit result) self.new.register }
        ensures disk { asks_disk result ≡ false → self.new.disk ≡ self.old.disk }
        ensures any_moment { IsSome (D.content self.old.disk) → LeavesOnly D.Disk self.old.disk self.new.disk (IsLeftBetween self.old.register.history self.new.register.history) }
        ensures calls { Lists (D.content self.old.disk) (D.calls self.old.disk) (D.calls self.new.disk) (D.faults self.new.disk) (EditCalls self.old.register.history edit self.new.register.history result) }
        ensures counted { D.faults self.old.disk ≤ D.faults self.new.disk }
        ensures counts { CountsEdit (D.faults self.old.disk) result (D.faults self.new.disk) }
        ensures cause { (in_doubt : Bool) → result ≡ Err (Refusal.JournalFault in_doubt) → Rose (D.faults self.old.disk) (D.faults self.new.disk) }
        ensures told { is_some (D.content self.new.disk) ≡ is_some (D.content self.old.disk) }
        ensures steps { steps.new ≤ steps.old + length (interval (stations_at self.old.register.history.events) edit) + 9 }
        ensures no_step { needs_days self.old.register.history edit ≡ false → steps.new ≡ steps.old }
    {
        match self.register.judge(edit, steps) {
            Ok(Judged::Repeated(number)) => Ok(Accepted {
                number,
                repeated: true,
            }),
            Ok(Judged::Refused(refusal)) => Err(refusal),
            Ok(Judged::Accepted { piece, place, days }) => {
                self.keep_judged(piece, place, days.as_slice())
            }
            Err(NoMemory) => Err(Refusal::NoMemory),
        }
    }

    /// Keeps the record of an edit that nothing refuses in the journal, and accepts it. All memory is taken before the journal is written.
    fn keep_judged(
        &mut self,
        piece: Record,
        place: Place,
        days: &[Day],
    ) -> Result<Accepted, Refusal>
        requires verdict { verdict self.old.register.history piece.edit ≡ Accepts }
        requires made { piece ≡ record_of self.old.register.history piece.edit }
        requires place { IsPlaceOf (stations_at self.old.register.history.events) piece.edit.site place }
        requires days { days.now ≡ changed_days (stations_at self.old.register.history.events) piece.edit }
        ensures edited { Edits self.old.register.history piece.edit self.new.register.history result }
        ensures claims { EditsClaims self.old.register piece.edit self.new.register result }
        ensures disk { asks_disk result ≡ false → self.new.disk ≡ self.old.disk }
        ensures any_moment { IsSome (D.content self.old.disk) → LeavesOnly D.Disk self.old.disk self.new.disk (IsLeftBetween self.old.register.history self.new.register.history) }
        ensures calls { Lists (D.content self.old.disk) (D.calls self.old.disk) (D.calls self.new.disk) (D.faults self.new.disk) (EditCalls self.old.register.history piece.edit self.new.register.history result) }
        ensures counted { D.faults self.old.disk ≤ D.faults self.new.disk }
        ensures counts { CountsEdit (D.faults self.old.disk) result (D.faults self.new.disk) }
        ensures cause { (in_doubt : Bool) → result ≡ Err (Refusal.JournalFault in_doubt) → Rose (D.faults self.old.disk) (D.faults self.new.disk) }
        ensures told { is_some (D.content self.new.disk) ≡ is_some (D.content self.old.disk) }
    {
        let Ok(bytes) = self.prepare(&piece, place, days) else {
            return Err(Refusal::NoMemory);
        };
        self.keep_and_accept(piece, bytes.as_slice(), place, days)
    }

    /// Writes out the record of an edit that nothing refuses, as it is added to the journal, and makes room for all that the edit adds. What
    /// happened, which claims are out and the disk are as before, also after `NoMemory`.
    fn prepare(&mut self, piece: &Record, place: Place, days: &[Day]) -> Result<Text, NoMemory>
        requires new { named (edits_of self.old.register.history.events) piece.now.edit.reference ≡ None }
        requires holds { Holds self.old.register.history.format piece.now.edit.comment }
        requires place { IsPlaceOf (stations_at self.old.register.history.events) piece.now.edit.site place }
        requires days { days.now ≡ changed_days (stations_at self.old.register.history.events) piece.now.edit }
        ensures history { self.new.register.history ≡ self.old.register.history }
        ensures claims { KeepsClaims self.old.register self.new.register }
        ensures disk { self.new.disk ≡ self.old.disk }
        ensures any_moment { IsSome (D.content self.old.disk) → LeavesOnly D.Disk self.old.disk self.new.disk (IsLeftBetween self.old.register.history self.new.register.history) }
        ensures room { OnOk result (IsReady self.new.register piece.now.edit) }
        ensures next { IfOk result (λ bytes. IsNext self.old.register.history.format piece.now bytes) }
    {
        // this runs nothing: it tells the proof that each record of the code is in the grammar
        let format = self.register.format();
        keeps_grammar(piece, format);
        let bytes = encode_and_close(self.alloc, piece, format)?;
        self.register.prepare(piece.edit(), place, days)?;
        Ok(bytes)
    }

    /// Keeps the record of an edit that nothing refuses in the journal, and accepts it. There is room for it, so no memory is taken.
    fn keep_and_accept(
        &mut self,
        piece: Record,
        bytes: &[u8],
        place: Place,
        days: &[Day],
    ) -> Result<Accepted, Refusal>
        requires verdict { verdict self.old.register.history piece.edit ≡ Accepts }
        requires made { piece ≡ record_of self.old.register.history piece.edit }
        requires place { IsPlaceOf (stations_at self.old.register.history.events) piece.edit.site place }
        requires days { days.now ≡ changed_days (stations_at self.old.register.history.events) piece.edit }
        requires room { IsReady self.old.register piece.edit }
        requires next { IsNext self.old.register.history.format piece bytes.now }
        ensures accepted { IfOk result (λ told. (told.repeated ≡ false) × IsTaken self.old.register.history piece.edit self.new.register.history told.number false) }
        ensures claims { IfOk result (λ told. MarksClaims self.old.register self.new.register piece.edit) }
        ensures fault { IfErr result (λ refusal. (in_doubt : Bool) × (refusal ≡ Refusal.JournalFault in_doubt) × IsFaulted self.old.register.history piece.edit self.new.register.history in_doubt) }
        ensures fault_claims { OnErr result (KeepsClaims self.old.register self.new.register) }
        ensures any_moment { IsSome (D.content self.old.disk) → LeavesOnly D.Disk self.old.disk self.new.disk (IsLeftBetween self.old.register.history self.new.register.history) }
        ensures calls { Lists (D.content self.old.disk) (D.calls self.old.disk) (D.calls self.new.disk) (D.faults self.new.disk) (EditCalls self.old.register.history piece.edit self.new.register.history result) }
        ensures counted { D.faults self.old.disk ≤ D.faults self.new.disk }
        ensures counts { CountsEdit (D.faults self.old.disk) result (D.faults self.new.disk) }
        ensures cause { OnErr result (Rose (D.faults self.old.disk) (D.faults self.new.disk)) }
        ensures told { is_some (D.content self.new.disk) ≡ is_some (D.content self.old.disk) }
    {
        if let Err(failed) = keep(&mut self.journal, &mut self.doubt, &piece, bytes) {
            self.register.fault(piece.edit(), &self.doubt);
            return Err(Refusal::JournalFault(failed.in_doubt()));
        }
        self.register.accept(piece, place, days);
        Ok(Accepted {
            number: self.register.edits(),
            repeated: false,
        })
    }
}
