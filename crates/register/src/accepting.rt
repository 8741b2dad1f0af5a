//! An edit accepted, or refused by a fault of its journal; and the edits that an office is opened with.

ghost use Rattle.std.specs.Prelude.{◌≡◌, ◌<◌, ◌+◌, ◌^◌, ◌∷◌, ◌++◌, [], false, ◌&&◌, if◌then◌else◌, length, None, IfOk, IfErr, OnOk, OnErr};
ghost use Rattle.day_cells.specs.Days.{contains_day};
ghost use Rattle.fixed_units.specs.Quantities.{SiteNumber, same_site};
ghost use Rattle.history.specs.Accepted.{accepted, edits_of, stations_at, named, journal_size};
ghost use Rattle.history.specs.After.{MayLeaveInDoubt, after_edit, after_fault, after_record, reopen};
ghost use Rattle.history.specs.Awaited.{pending_days};
ghost use Rattle.history.specs.Legal.{IsLegal};
ghost use Rattle.history.specs.Verdicts.{Accepts, record_of, refused_by_stations, verdict, with_record};
ghost use Rattle.office_inputs.specs.Changes.{changed_days};
ghost use Rattle.office_inputs.specs.Places.{IsPlaceOf};
ghost use Rattle.records.specs.Payloads.{Holds};
ghost use Rattle.register.specs.Asked.{IsNotReadmitted, readmission_refusal, refused_at_once};
ghost use Rattle.register.specs.Registered.{IsReady, KeepsClaims, MarksClaims, NoneOut};

use crate::judged::NotReadmitted;
use crate::registers::Register;
use chronicle::Steps;
use depend::reach_at;
use edits::Edit;
use fixed_units::{Day, NoMemory};
use history::{Doubt, Recorded};
use office_inputs::{Place, Refusal, stations_keep_to_their_ranges};
use records::Record;
use std::marker::Brand;
use std::sync::ledger::{Blank, Ledger};

impl Register {
    /// Makes room for all that an edit adds which changes these days, so that its acceptance takes no memory. What happened and which
    /// claims are out is as before, also after `NoMemory`.
    pub fn prepare(&mut self, edit: &Edit, place: Place, days: &[Day]) -> Result<(), NoMemory>
        requires new { named (edits_of self.old.history.events) edit.now.reference ≡ None }
        requires place { IsPlaceOf (stations_at self.old.history.events) edit.now.site place }
        requires days { days.now ≡ changed_days (stations_at self.old.history.events) edit.now }
        ensures history { self.new.history ≡ self.old.history }
        ensures claims { KeepsClaims self.old self.new }
        ensures room { OnOk result (IsReady self.new edit.now) }
    {
        self.inputs.prepare_at(place, edit)?;
        self.cells.prepare(edit.site, days)?;
        self.pieces.reserve(1)?;
        let number = self.pieces.len() as u64;
        self.statuses.prepare(edit)?;
        self.references.put(edit.reference.as_slice(), number)
    }

    /// Accepts an edit by its record, for which room is made: the days that it changes await it from then on, and their claims are no
    /// longer out. It takes no memory.
    #[inline(always)]
    pub fn accept(&mut self, piece: Record, place: Place, days: &[Day])
        requires verdict { verdict self.old.history piece.edit ≡ Accepts }
        requires made { piece ≡ record_of self.old.history piece.edit }
        requires place { IsPlaceOf (stations_at self.old.history.events) piece.edit.site place }
        requires days { days.now ≡ changed_days (stations_at self.old.history.events) piece.edit }
        requires room { IsReady self.old piece.edit }
        ensures history { self.new.history ≡ after_edit self.old.history piece.edit }
        ensures claims { MarksClaims self.old self.new piece.edit }
    {
        // What an accepted edit counts is within the limits, which are numbers of 64 bits.
        let _ = self.inputs.limits();
        let bytes = self.journal_after(&piece).unwrap_or(u64::MAX);
        let opened = self.opened;
        self.take_in(piece, place, days, bytes, opened);
    }

    /// Accepts an edit by its record, of an office that was opened with so many.
    fn take_in(
        &mut self,
        piece: Record,
        place: Place,
        days: &[Day],
        journal_bytes: u64,
        opened: u64,
    )
        requires legal { IsLegal (after_record opened self.old.history piece) }
        requires place { IsPlaceOf (stations_at self.old.history.events) piece.edit.site place }
        requires lawful { refused_by_stations self.old.history piece.edit ≡ None }
        requires days { days.now ≡ changed_days (stations_at self.old.history.events) piece.edit }
        requires room { IsReady self.old piece.edit }
        requires events { length self.old.history.events + 1 + length (pending_days (with_record self.old.history piece)) < 2 ^ 64 }
        requires bytes { journal_bytes ≡ journal_size self.old.history.format (accepted (with_record self.old.history piece)) }
        ensures history { self.new.history ≡ after_record opened self.old.history piece }
        ensures claims { MarksClaims self.old self.new piece.edit }
    {
        let accepted = Recorded::accepted(&piece);
        let number = self.pieces.len() as u64 + 1;
        let edit = piece.edit();
        self.inputs.apply_at(place, edit);
        self.cells.mark(edit.site, days, number);
        self.statuses.apply(number, edit, days);
        self.events += 1;
        self.journal_bytes = journal_bytes;
        self.opened = opened;
        self.past.record(&accepted);
        self.pieces.push_reserved(piece);
    }

    /// A fault of the journal refused an edit that nothing else refused, and left this doubt: that of before, none, or that of the
    /// edit's record. It takes no memory.
    pub fn fault(&mut self, edit: &Edit, doubt: &Doubt)
        requires verdict { verdict self.old.history edit.now ≡ Accepts }
        requires doubt { MayLeaveInDoubt self.old.history edit.now doubt.now }
        ensures history { self.new.history ≡ after_fault self.old.history doubt.now }
        ensures claims { KeepsClaims self.old self.new }
        ensures room { (other : Edit) → IsReady self.old other → IsReady self.new other }
    {
        stations_keep_to_their_ranges(&self.inputs);
        // There was room for an event within the limits, which are numbers of 64 bits.
        let _ = self.inputs.limits();
        self.events += 1;
        self.past.record(&Recorded::faulted(doubt));
    }

    /// Accepts an edit by its record, whose comment the format of the journal holds, while an office is opened with it.
    ///
    /// # Errors
    ///
    /// [`NotReadmitted::Refused`] exactly where its reference is that of an accepted edit, where the stations in force or the statuses of
    /// its days refuse it, or where it would change an approved day, and [`NotReadmitted::NoMemory`] where there was none, or the events or the bytes of the journal could not be counted. What happened
    /// is then as before.
    pub fn readmit(&mut self, piece: Record) -> Result<(), NotReadmitted>
        requires opening { self.old.history ≡ reopen self.old.history.limits self.old.history.format (accepted self.old.history.events) }
        requires holds { Holds self.old.history.format piece.edit.comment }
        ensures history { OnOk result (self.new.history ≡ reopen self.old.history.limits self.old.history.format (accepted self.old.history.events ++ piece ∷ [])) }
        ensures lawful { OnOk result (readmission_refusal self.old.history piece.edit ≡ None) }
        ensures refused { IfErr result (IsNotReadmitted self.old.history piece.edit) }
        ensures same { OnErr result (self.new.history ≡ self.old.history) }
        ensures claims { NoneOut self.old → NoneOut self.new }
    {
        self.readmit_counted::<Brand>(piece, Blank::new(1))
    }

    /// The same, with a counter that nobody reads.
    fn readmit_counted<L: Ledger>(
        &mut self,
        piece: Record,
        blank: Blank,
    ) -> Result<(), NotReadmitted>
        requires name { blank.name ≡ L.name }
        requires parts { blank.parts ≡ L.parts }
        requires some { 0 < blank.parts }
        requires opening { self.old.history ≡ reopen self.old.history.limits self.old.history.format (accepted self.old.history.events) }
        requires holds { Holds self.old.history.format piece.edit.comment }
        ensures history { OnOk result (self.new.history ≡ reopen self.old.history.limits self.old.history.format (accepted self.old.history.events ++ piece ∷ [])) }
        ensures lawful { OnOk result (readmission_refusal self.old.history piece.edit ≡ None) }
        ensures refused { IfErr result (IsNotReadmitted self.old.history piece.edit) }
        ensures same { OnErr result (self.new.history ≡ self.old.history) }
        ensures claims { NoneOut self.old → NoneOut self.new }
    {
        let edit = piece.edit();
        let place = self.inputs.place(edit.site);
        if let Some(refusal) = self.refusal_at_once(place, edit) {
            return Err(NotReadmitted::Refused(refusal));
        }
        let mut steps = Steps::<L>::new(blank);
        let days = reach_at(self.alloc, &self.inputs, place, edit, &mut steps)?;
        self.readmit_on(piece, place, days.as_slice())
    }

    /// Why an edit is refused without a look at the days that it changes, while an office is opened with it. It takes no memory.
    fn refusal_at_once(&self, place: Place, edit: &Edit) -> Option<Refusal>
        requires { IsPlaceOf (stations_at self.now.history.events) edit.now.site place }
        ensures { result ≡ refused_at_once self.now.history edit.now }
    {
        if let Some((number, _)) = self.named(edit.reference.as_slice()) {
            return Some(Refusal::RefReused(number));
        }
        if let Some(refusal) = self.inputs.refusal_at(place, edit) {
            return Some(refusal);
        }
        self.status_refusal(edit)
    }

    /// Accepts an edit that is not refused at once and changes these days, while an office is opened with it.
    fn readmit_on(&mut self, piece: Record, place: Place, days: &[Day]) -> Result<(), NotReadmitted>
        requires opening { self.old.history ≡ reopen self.old.history.limits self.old.history.format (accepted self.old.history.events) }
        requires holds { Holds self.old.history.format piece.edit.comment }
        requires at_once { refused_at_once self.old.history piece.edit ≡ None }
        requires place { IsPlaceOf (stations_at self.old.history.events) piece.edit.site place }
        requires days { days.now ≡ changed_days (stations_at self.old.history.events) piece.edit }
        ensures history { OnOk result (self.new.history ≡ reopen self.old.history.limits self.old.history.format (accepted self.old.history.events ++ piece ∷ [])) }
        ensures lawful { OnOk result (readmission_refusal self.old.history piece.edit ≡ None) }
        ensures refused { IfErr result (IsNotReadmitted self.old.history piece.edit) }
        ensures same { OnErr result (self.new.history ≡ self.old.history) }
        ensures claims { NoneOut self.old → NoneOut self.new }
    {
        if let Some(refusal) = self.lock_refusal(piece.edit(), days) {
            return Err(NotReadmitted::Refused(refusal));
        }
        self.readmit_unlocked(piece, place, days)
    }

    /// Accepts an edit that is not refused and changes these days, while an office is opened with it.
    fn readmit_unlocked(
        &mut self,
        piece: Record,
        place: Place,
        days: &[Day],
    ) -> Result<(), NotReadmitted>
        requires opening { self.old.history ≡ reopen self.old.history.limits self.old.history.format (accepted self.old.history.events) }
        requires holds { Holds self.old.history.format piece.edit.comment }
        requires lawful { readmission_refusal self.old.history piece.edit ≡ None }
        requires place { IsPlaceOf (stations_at self.old.history.events) piece.edit.site place }
        requires days { days.now ≡ changed_days (stations_at self.old.history.events) piece.edit }
        ensures history { OnOk result (self.new.history ≡ reopen self.old.history.limits self.old.history.format (accepted self.old.history.events ++ piece ∷ [])) }
        ensures refused { IfErr result (IsNotReadmitted self.old.history piece.edit) }
        ensures same { OnErr result (self.new.history ≡ self.old.history) }
        ensures claims { NoneOut self.old → NoneOut self.new }
    {
        // Its type promises a sheet for each day that it approves.
        let _ = piece.sheets();
        let bytes = self.prepare_counted(&piece, place, days)?;
        let opened = self.opened + 1;
        self.take_in(piece, place, days, bytes, opened);
        Ok(())
    }

    /// Makes room for all that an edit adds which changes these days, where its events and the bytes of the journal can be counted, and
    /// tells how many bytes the journal has with its record. What happened and which claims are out is as before, also after `NoMemory`.
    fn prepare_counted(
        &mut self,
        piece: &Record,
        place: Place,
        days: &[Day],
    ) -> Result<u64, NoMemory>
        requires new { named (edits_of self.old.history.events) piece.now.edit.reference ≡ None }
        requires place { IsPlaceOf (stations_at self.old.history.events) piece.now.edit.site place }
        requires days { days.now ≡ changed_days (stations_at self.old.history.events) piece.now.edit }
        ensures history { self.new.history ≡ self.old.history }
        ensures claims { KeepsClaims self.old self.new }
        ensures room { OnOk result (IsReady self.new piece.now.edit) }
        ensures events { OnOk result (length self.old.history.events + 1 + length (pending_days (with_record self.old.history piece.now)) < 2 ^ 64) }
        ensures bytes { IfOk result (λ bytes. bytes ≡ journal_size self.old.history.format (accepted (with_record self.old.history piece.now))) }
    {
        if self.events_after(piece, days).is_none() {
            return Err(NoMemory);
        }
        let Some(bytes) = self.journal_after(piece) else {
            return Err(NoMemory);
        };
        self.prepare(piece.edit(), place, days)?;
        Ok(bytes)
    }
}
