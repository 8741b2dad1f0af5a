//! What is said to an edit: that it comes again, why it is refused, or that it is accepted and which days it changes.

ghost use Rattle.std.specs.Prelude.{◌≡◌, ◌≤◌, ◌+◌, ◌^◌, true, false, if◌then◌else◌, length, count_by, is_none, IfOk, IfSome, None};
ghost use Rattle.edits.specs.Same.{is_same};
ghost use Rattle.history.specs.Accepted.{accepted, edits_of, stations_at, named, cell_count, journal_size};
ghost use Rattle.history.specs.Awaited.{pending_days};
ghost use Rattle.history.specs.Events.{History};
ghost use Rattle.history.specs.Verdicts.{record_of, refused_as_locked, refused_by_stations, refused_for_room, is_full_of_events, is_full_of_cells, is_comment_barred, is_journal_full, verdict, with_record, Repeats, Refuses};
ghost use Rattle.office_inputs.specs.Changes.{changed_days};
ghost use Rattle.office_inputs.specs.Places.{IsPlaceOf};
ghost use Rattle.office_inputs.specs.Touched.{interval};
ghost use Rattle.office_inputs.specs.declared.refusals.Refusal.TheVariants.{RefReused};
ghost use Rattle.recompute.specs.Cells.{awaited_in};
ghost use Rattle.records.specs.Frames.{before_payload};
ghost use Rattle.records.specs.Payloads.{payload};
ghost use Rattle.register.specs.Asked.{TellsChanged, TellsPlace, TellsRecord, verdict_told, needs_days, refused_before_days};

use crate::judged::Judged;
use crate::registers::Register;
use chronicle::Steps;
use depend::{DayList, reach_at};
use edits::Edit;
use fixed_units::{Day, NoMemory, Site};
use office_inputs::{Full, Place, Refusal, stations_keep_to_their_ranges};
use recompute::pending_days_stand_by_site;
use records::{BEFORE_PAYLOAD, Format, Record, record_len};
use std::sync::ledger::Ledger;

impl Register {
    /// The verdict of an edit, whose station is looked up once. Nothing is changed. No step is taken where the edit comes again or
    /// where the stations in force refuse it, and else no more than the search for its days may take.
    ///
    /// # Errors
    ///
    /// [`NoMemory`] where there was none for the search or for the sheets of an approval.
    pub fn judge<L: Ledger>(&self, edit: Edit, steps: &mut Steps<L>) -> Result<Judged, NoMemory>
        ensures verdict { IfOk result (λ judged. verdict_told judged ≡ verdict self.now.history edit) }
        ensures changed { IfOk result (TellsChanged self.now.history edit) }
        ensures place { IfOk result (TellsPlace self.now.history edit) }
        ensures record { IfOk result (TellsRecord self.now.history edit) }
        ensures steps { steps.new ≤ steps.old + length (interval (stations_at self.now.history.events) edit) + 9 }
        ensures no_step { needs_days self.now.history edit ≡ false → steps.new ≡ steps.old }
    {
        if let Some((number, other)) = self.named(edit.reference.as_slice()) {
            return Ok(judge_again(number, other, &edit));
        }
        self.judge_new(edit, steps)
    }

    /// The verdict of an edit whose reference names no accepted one.
    fn judge_new<L: Ledger>(&self, edit: Edit, steps: &mut Steps<L>) -> Result<Judged, NoMemory>
        requires { named (edits_of self.now.history.events) edit.reference ≡ None }
        ensures verdict { IfOk result (λ judged. verdict_told judged ≡ verdict self.now.history edit) }
        ensures changed { IfOk result (TellsChanged self.now.history edit) }
        ensures place { IfOk result (TellsPlace self.now.history edit) }
        ensures record { IfOk result (TellsRecord self.now.history edit) }
        ensures steps { steps.new ≤ steps.old + length (interval (stations_at self.now.history.events) edit) + 9 }
        ensures no_step { needs_days self.now.history edit ≡ false → steps.new ≡ steps.old }
    {
        let place = self.inputs.place(edit.site);
        if let Some(refusal) = self.refusal_before_days(place, &edit) {
            return Ok(Judged::Refused(refusal));
        }
        let days = reach_at(self.alloc, &self.inputs, place, &edit, steps)?;
        self.judge_changed(edit, place, days)
    }

    /// Why the stations in force, the statuses of its days or the edits that they await refuse an edit, without a look at the days that
    /// it changes. It takes no memory.
    fn refusal_before_days(&self, place: Place, edit: &Edit) -> Option<Refusal>
        requires { IsPlaceOf (stations_at self.now.history.events) edit.now.site place }
        ensures { result ≡ refused_before_days self.now.history edit.now }
    {
        match self.inputs.refusal_at(place, edit) {
            Some(refusal) => Some(refusal),
            None => self.review_refusal(edit),
        }
    }

    /// The verdict of an edit that changes these days, which nothing refuses without a look at them.
    fn judge_changed(&self, edit: Edit, place: Place, days: DayList) -> Result<Judged, NoMemory>
        requires new { named (edits_of self.now.history.events) edit.reference ≡ None }
        requires before { refused_before_days self.now.history edit ≡ None }
        requires place { IsPlaceOf (stations_at self.now.history.events) edit.site place }
        requires days { days ≡ changed_days (stations_at self.now.history.events) edit }
        ensures verdict { IfOk result (λ judged. verdict_told judged ≡ verdict self.now.history edit) }
        ensures changed { IfOk result (TellsChanged self.now.history edit) }
        ensures place { IfOk result (TellsPlace self.now.history edit) }
        ensures record { IfOk result (TellsRecord self.now.history edit) }
    {
        if let Some(refusal) = self.lock_refusal(&edit, days.as_slice()) {
            return Ok(Judged::Refused(refusal));
        }
        let piece = self.record_of(edit)?;
        Ok(self.judge_record(piece, place, days))
    }

    /// The first approved day that an edit would change, as a refusal. It takes no memory.
    pub(crate) fn lock_refusal(&self, edit: &Edit, days: &[Day]) -> Option<Refusal>
        requires { days.now ≡ changed_days (stations_at self.now.history.events) edit.now }
        ensures { result ≡ refused_as_locked self.now.history edit.now }
    {
        let day = self.statuses.locked(edit.site, days)?;
        Some(Refusal::Locked(day))
    }

    /// The verdict of an edit by its record, which only want of room may refuse.
    fn judge_record(&self, piece: Record, place: Place, days: DayList) -> Judged
        requires new { named (edits_of self.now.history.events) piece.edit.reference ≡ None }
        requires before { refused_before_days self.now.history piece.edit ≡ None }
        requires unlocked { refused_as_locked self.now.history piece.edit ≡ None }
        requires made { piece ≡ record_of self.now.history piece.edit }
        requires place { IsPlaceOf (stations_at self.now.history.events) piece.edit.site place }
        requires days { days ≡ changed_days (stations_at self.now.history.events) piece.edit }
        ensures verdict { verdict_told result ≡ verdict self.now.history piece.edit }
        ensures changed { TellsChanged self.now.history piece.edit result }
        ensures place { TellsPlace self.now.history piece.edit result }
        ensures record { TellsRecord self.now.history piece.edit result }
    {
        match self.lacks_room(&piece, days.as_slice()) {
            Some(refusal) => Judged::Refused(refusal),
            None => Judged::Accepted { piece, place, days },
        }
    }

    /// For what there is no room, of an edit that changes these days: its events, its cells, its comment or its record.
    fn lacks_room(&self, piece: &Record, days: &[Day]) -> Option<Refusal>
        requires lawful { refused_by_stations self.now.history piece.now.edit ≡ None }
        requires made { piece.now ≡ record_of self.now.history piece.now.edit }
        requires days { days.now ≡ changed_days (stations_at self.now.history.events) piece.now.edit }
        ensures { result ≡ refused_for_room self.now.history piece.now.edit }
    {
        if self.lacks_events(piece, days) {
            return Some(Refusal::HistoryFull(Full::Events));
        }
        if self.lacks_cells(piece.edit(), days) {
            return Some(Refusal::HistoryFull(Full::Cells));
        }
        if self.bars_comment(piece.edit()) {
            return Some(Refusal::NoComments);
        }
        if self.lacks_bytes(piece) {
            return Some(Refusal::JournalFull);
        }
        None
    }

    /// Whether an edit that changes these days and the publications that it brings are too many events.
    fn lacks_events(&self, piece: &Record, days: &[Day]) -> bool
        requires made { piece.now ≡ record_of self.now.history piece.now.edit }
        requires days { days.now ≡ changed_days (stations_at self.now.history.events) piece.now.edit }
        ensures { result ≡ is_full_of_events self.now.history piece.now.edit }
    {
        let limit = self.inputs.limits().events;
        self.events_after(piece, days)
            .is_none_or(|events| events > limit)
    }

    /// Whether there would be too many cells with an edit that changes these days.
    fn lacks_cells(&self, edit: &Edit, days: &[Day]) -> bool
        requires { days.now ≡ changed_days (stations_at self.now.history.events) edit.now }
        ensures { result ≡ is_full_of_cells self.now.history edit.now }
    {
        stations_keep_to_their_ranges(&self.inputs);
        pending_days_stand_by_site(&self.cells);
        self.cells.cells_after(edit.site, days) > self.inputs.limits().cells
    }

    /// Whether the format of the journal does not hold an edit's comment.
    fn bars_comment(&self, edit: &Edit) -> bool
        ensures { result ≡ is_comment_barred self.now.history edit.now }
    {
        !self.format.holds(&edit.comment)
    }

    /// Whether the journal would be too long with a record.
    fn lacks_bytes(&self, piece: &Record) -> bool
        requires { piece.now ≡ record_of self.now.history piece.now.edit }
        ensures { result ≡ is_journal_full self.now.history piece.now.edit }
    {
        let limit = self.inputs.limits().journal_bytes;
        self.journal_after(piece).is_none_or(|bytes| bytes > limit)
    }

    /// How many events there would be with a record whose edit changes these days and a publication of each day that would be pending,
    /// or `None` where that cannot be counted.
    #[inline(always)]
    pub(crate) fn events_after(&self, piece: &Record, days: &[Day]) -> Option<u64>
        requires { days.now ≡ changed_days (stations_at self.now.history.events) piece.now.edit }
        ensures counted { IfSome result (λ events. events ≡ length self.now.history.events + 1 + length (pending_days (with_record self.now.history piece.now))) }
        ensures most { result ≡ None → 2 ^ 64 ≤ length self.now.history.events + 1 + length (pending_days (with_record self.now.history piece.now)) }
    {
        stations_keep_to_their_ranges(&self.inputs);
        pending_days_stand_by_site(&self.cells);
        let settled = self.events + self.cells.pending();
        let added = 1 + self.newly_pending(piece.edit().site, days);
        settled.checked_add(added)
    }

    /// How many of some days of a site await no edit.
    fn newly_pending(&self, site: Site, days: &[Day]) -> u64
        ensures count { result ≡ count_by (λ day. is_none (awaited_in self.now.cells site day)) days.now }
        ensures most { result ≤ length days.now }
    {
        days.iter()
            .filter(|day| self.cells.awaited(site, **day).is_none())
            .count() as u64
    }

    /// How many bytes the journal would have with a record, or `None` where that cannot be counted.
    pub(crate) fn journal_after(&self, piece: &Record) -> Option<u64>
        ensures counted { IfSome result (λ bytes. bytes ≡ journal_size self.now.history.format (accepted (with_record self.now.history piece.now))) }
        ensures most { result ≡ None → 2 ^ 64 ≤ journal_size self.now.history.format (accepted (with_record self.now.history piece.now)) }
    {
        self.journal_bytes
            .checked_add(block_len(piece, self.format))
    }
}

/// How many bytes of a journal a record takes in a format: a gate, the length of its payload in four bytes, and the payload.
fn block_len(piece: &Record, format: Format) -> u64
    ensures { result ≡ before_payload + length (payload format piece.now) }
{
    BEFORE_PAYLOAD + record_len(piece, format) as u64
}

/// The verdict of an edit under the reference of an accepted one.
fn judge_again(number: u64, other: &Record, edit: &Edit) -> Judged
    ensures verdict { verdict_told result ≡ (if is_same other.now.edit edit.now then Repeats number else Refuses (RefReused number)) }
    ensures changed { (h : History) → TellsChanged h edit.now result }
    ensures place { (h : History) → TellsPlace h edit.now result }
    ensures record { (h : History) → TellsRecord h edit.now result }
{
    if other.edit().is_same(edit) {
        return Judged::Repeated(number);
    }
    Judged::Refused(Refusal::RefReused(number))
}
