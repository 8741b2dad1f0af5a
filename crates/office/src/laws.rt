//! What holds of every office.

ghost use Rattle.std.specs.Prelude.{◌≡◌, ◌≢◌, ◌↔◌, ◌⊎◌, ◌<◌, ◌≤◌, ◌+◌, ◌++◌, ◌∷◌, [], ℕ, ℤ, false, true, List, length, map, slice_get, All, Option, Some, None, is_some, IsSome, IfSome, Ok};
ghost use Rattle.approval.specs.Statuses.{is_approved};
ghost use Rattle.daily_values.specs.DayValue.{day_value};
ghost use Rattle.daily_values.specs.declared.day_values.DayValue.{DayValue};
ghost use Rattle.day_cells.specs.Spans.{with_days};
ghost use Rattle.edits.specs.declared.content.Edit.{Edit};
ghost use Rattle.fixed_units.specs.Quantities.{IsDay, SiteNumber};
ghost use Rattle.history.specs.Accepted.{accepted, days_ever_changed, edit_of, edits_of, was_changed};
ghost use Rattle.history.specs.After.{doubt, go_on, reopen};
ghost use Rattle.history.specs.Awaited.{Computed, DayAnswer, NoStation, Pending, answer_at, awaited, inputs_at};
ghost use Rattle.history.specs.Events.{Event, History};
ghost use Rattle.history.specs.LastChanges.{ChangedLast};
ghost use Rattle.history.specs.Legal.{IsLegal};
ghost use Rattle.history.specs.Rescissions.{NoneRescinds};
ghost use Rattle.history.specs.Sheets as Shown;
ghost use Rattle.history.specs.Sheets.{Text, shown_at};
ghost use Rattle.history.specs.Statuses.{standing_at, status_at, stored_sheet};
ghost use Rattle.history.specs.Verdicts.{Repeats, verdict};
ghost use Rattle.journal.specs.JournalBytes.{HasHeader, IsJournalOf};
ghost use Rattle.office.specs.Counting.{GoesOverCounting, HasCounted};
ghost use Rattle.office.specs.Edits.{IsTaken};
ghost use Rattle.office.specs.KeptSheets.{FoundRescinded};
ghost use Rattle.office.specs.Openings.{IsDamagedFor, IsOpened, MayOpen};
ghost use Rattle.office.specs.ShownSheets.{IsKeptOrMade};
ghost use Rattle.office.specs.Steps.{APublication, AStop, AnAnswer, AnEdit, Gives, GoesOver, IsCall, IsStep, MayBeFound, Step, added, cut_off};
ghost use Rattle.office.specs.Stops.{IsLeft, IsLeftBetween};
ghost use Rattle.office.specs.UsedDays.{LiesIn};
ghost use Rattle.office.specs.declared.offices.Accepted.{Accepted};
ghost use Rattle.office_inputs.specs.Stations.{inputs_of_day, station_of, stations_of};
ghost use Rattle.office_inputs.specs.Touched.{IsUsedSpan, is_filled};
ghost use Rattle.office_inputs.specs.declared.limits.Limits.{Limits};
ghost use Rattle.recompute.specs.Jobs.{DayJob};
ghost use Rattle.recompute.specs.declared.jobs.Publish.{Publish};
ghost use Rattle.recompute.specs.declared.jobs.Publish.TheVariants.{Foreign, Published};
ghost use Rattle.records.specs.Sheets.{Record};
ghost use Rattle.records.specs.declared.formats.Format.{Format};
ghost use Rattle.register.specs.Keeping.{KeepsToTheLimit};
ghost use Rattle.register.specs.Registered.{Registered};

use crate::offices::Office;
use devices::Disk;
use recompute::Done;

/// What the disk of an office has, where it tells that, is the journal of the accepted edits, or of these and the one in doubt, and so
/// is whatever a stop may leave; and the history is legal.
pub fn an_office_stands_on_its_disk<D: Disk>(office: &Office<D>)
    ensures now { IfSome (D.content office.now.disk) (IsLeft office.now.register.history) }
    ensures images { IsSome (D.content office.now.disk) → (image : List ℕ) → D.may_leave office.now.disk image → IsLeft office.now.register.history image }
    ensures legal { IsLegal office.now.register.history }
{
    register::laws::a_history_is_legal(&office.register);
}

/// An accepted edit leaves no record in doubt, and then the disk has the journal of exactly the accepted edits, and so has whatever a
/// stop may leave.
pub fn an_accepted_edit_leaves_no_doubt<D: Disk>(office: &Office<D>)
    ensures settled { (old new : History) (edit : Edit) (number : ℕ) → IsTaken old edit new number false → doubt new ≡ None }
    ensures now { doubt office.now.register.history ≡ None → IfSome (D.content office.now.disk) (IsJournalOf office.now.register.history.format (accepted office.now.register.history.events)) }
    ensures images { doubt office.now.register.history ≡ None → IsSome (D.content office.now.disk) → (image : List ℕ) → D.may_leave office.now.disk image
        → IsJournalOf office.now.register.history.format (accepted office.now.register.history.events) image }
{
    let _ = &office.journal;
}

/// An office may open on whatever a stop leaves of it, also in the midst of a call: that is the journal of the edits that were accepted
/// then, or of these and one more, the one in doubt or in flight, and each of them is accepted again. It has a journal's header and is
/// not damaged, so no opening is refused for its bytes. In an office that is opened on it an edit that was accepted and comes again is
/// told its number.
pub fn whatever_is_left_opens()
    ensures opens { (h : History) (image : List ℕ) → IsLegal h → IsLeft h image → MayOpen h [] image }
    ensures any_moment { (h after : History) (image : List ℕ) → IsLegal after → after.limits ≡ h.limits → after.format ≡ h.format → (left : IsLeftBetween h after image)
        → MayOpen (go_on h left.since) left.behind image }
    ensures header { (h : History) (behind : List Event) (image : List ℕ) → MayOpen h behind image → HasHeader h.format image }
    ensures undamaged { (h : History) (behind : List Event) (image : List ℕ) (at : ℕ) → MayOpen h behind image → ¬ IsDamagedFor h.limits at image }
    ensures repeated { (h : History) (behind : List Event) (pieces : List Record) (image : List ℕ) (place : ℕ) (edit : Edit) → MayOpen h behind image
        → IsJournalOf h.format pieces image → slice_get (edits_of h.events) place ≡ Some edit → verdict (reopen h.limits h.format pieces) edit ≡ Repeats (place + 1) }
{}

/// A journal is damaged for an office at one gate at most: the first one without a record, or with one that is not accepted.
pub fn damaged_at_one_gate()
    ensures { (limits : Limits) (at other : ℕ) (image : List ℕ) → IsDamagedFor limits at image → IsDamagedFor limits other image → at ≡ other }
{}

/// Whatever calls of an office are made, with faults of its disk, stops at any moment and openings behind them: the history stays
/// legal; the records of the accepted edits stay, each at its number, and behind them stand exactly those of the edits that were
/// acknowledged since, or were found at an opening; and an edit that was acknowledged and comes again is told its number. Where the
/// events and a publication of each pending day keep to the limit they go on to: over calls whatever came before, and behind an opening
/// over stops and further openings too.
pub fn accepted_edits_stay()
    ensures legal { (old new : Registered) (steps : List Step) → GoesOver old steps new → IsLegal old.history → IsLegal new.history }
    ensures records { (old new : Registered) (steps : List Step) → GoesOver old steps new
        → (records : List Record) × (accepted new.history.events ≡ accepted old.history.events ++ records) × (map edit_of records ≡ added steps) }
    ensures numbered { (old new : Registered) (before after : List Step) (edit : Edit) (told : Accepted) → told.repeated ≡ false
        → GoesOver old (before ++ AnEdit edit (Ok told) ∷ after) new → told.number ≡ length (edits_of old.history.events ++ added before) + 1 }
    ensures repeated { (old new : Registered) (before after : List Step) (edit : Edit) (told : Accepted) → IsLegal old.history
        → GoesOver old (before ++ AnEdit edit (Ok told) ∷ after) new → verdict new.history edit ≡ Repeats told.number }
    ensures limits { (old new : Registered) (steps : List Step) → GoesOver old steps new → new.history.limits ≡ old.history.limits }
    ensures format { (old new : Registered) (steps : List Step) → GoesOver old steps new → new.history.format ≡ old.history.format }
    ensures limit { (old new : Registered) (steps : List Step) → All IsCall steps → GoesOver old steps new → KeepsToTheLimit old.history
        → KeepsToTheLimit new.history }
    ensures limit_from_opening { (old new : Registered) (steps : List Step) (pieces : List Record) → old.history ≡ reopen old.history.limits old.history.format pieces
        → GoesOver old steps new → KeepsToTheLimit old.history → KeepsToTheLimit new.history }
{}

/// Whatever calls are made, with stops and openings between them, the disk has counted each fault that refused an edit since it was
/// opened, or its count stands at the end of its type.
pub fn faults_are_counted()
    ensures steps { (old new : Registered) (steps : List Step) (before now : ℕ) → GoesOverCounting old before steps new now → HasCounted old.history before
        → HasCounted new.history now }
    ensures opened { (limits : Limits) (format : Format) (pieces : List Record) (count : ℕ) → HasCounted (reopen limits format pieces) count }
{}

/// Stopped at any moment, between two calls or inside one, the journal has the edits that were accepted before, all that were
/// acknowledged since, and perhaps one more: the one in doubt, or inside the call of an edit whose verdict is to accept it that very
/// edit.
pub fn no_acknowledged_edit_is_lost()
    ensures between { (old at : Registered) (before : List Step) (image : List ℕ) (pieces : List Record) → GoesOver old before at → IsLeft at.history image
        → IsJournalOf at.history.format pieces image
        → (more : List Record) × (length more ≤ 1) × All (MayBeFound at.history None) more
        × (map edit_of pieces ≡ (edits_of old.history.events ++ added before) ++ map edit_of more) }
    ensures inside { (old at new : Registered) (before : List Step) (step : Step) (image : List ℕ) (pieces : List Record) → GoesOver old before at
        → IsCall step → IsStep at step new → IsLeftBetween at.history new.history image → IsJournalOf at.history.format pieces image
        → (more : List Record) × (length more ≤ 1) × All (MayBeFound at.history (cut_off step)) more
        × (map edit_of pieces ≡ (edits_of old.history.events ++ added before) ++ map edit_of more) }
{}

/// Approved sheets stay byte for byte; that each approved day has one, which is what is shown of it, is a law of histories. Whatever calls
/// are made, with faults of the disk, stops at any moment and openings behind them, it stands as it is approved, with its inputs and with
/// that very sheet, and the same is shown of it, as long as no edit is acknowledged, or found at an opening, that takes its approval back.
/// So an office that is opened on whatever a stop leaves, between two calls or inside one, has the sheet of each day that was approved,
/// unless the one edit that it found beside the accepted ones takes that very approval back.
pub fn approved_sheets_stay()
    ensures standing { (old new : Registered) (steps : List Step) (site : SiteNumber) (day : ℤ) → GoesOver old steps new → IsLegal old.history → IsDay day
        → is_approved (status_at old.history.events site day) ≡ true → NoneRescinds site day (added steps)
        → standing_at new.history.events site day ≡ standing_at old.history.events site day }
    ensures inputs { (old new : Registered) (steps : List Step) (site : SiteNumber) (day : ℤ) → GoesOver old steps new → IsLegal old.history → IsDay day
        → is_approved (status_at old.history.events site day) ≡ true → NoneRescinds site day (added steps)
        → inputs_at new.history.events site day ≡ inputs_at old.history.events site day }
    ensures sheet { (old new : Registered) (steps : List Step) (site : SiteNumber) (day : ℤ) → GoesOver old steps new → IsLegal old.history → IsDay day
        → is_approved (status_at old.history.events site day) ≡ true → NoneRescinds site day (added steps)
        → stored_sheet new.history.events site day ≡ stored_sheet old.history.events site day }
    ensures shown { (old new : Registered) (steps : List Step) (site : SiteNumber) (day : ℤ) → GoesOver old steps new → IsLegal old.history → IsDay day
        → is_approved (status_at old.history.events site day) ≡ true → NoneRescinds site day (added steps)
        → shown_at new.history.events site day ≡ shown_at old.history.events site day }
    ensures between { (old register : Registered) (image : List ℕ) (site : SiteNumber) (day : ℤ) → IsLeft old.history image
        → IsOpened (Some image) old.history.limits register → IsDay day → is_approved (status_at old.history.events site day) ≡ true
        → (stored_sheet register.history.events site day ≡ stored_sheet old.history.events site day) ⊎ FoundRescinded old.history None register.history site day }
    ensures inside { (old : Registered) (step : Step) (new register : Registered) (image : List ℕ) (site : SiteNumber) (day : ℤ) → IsCall step → IsStep old step new
        → IsLeftBetween old.history new.history image → IsOpened (Some image) old.history.limits register → IsDay day
        → is_approved (status_at old.history.events site day) ≡ true
        → (stored_sheet register.history.events site day ≡ stored_sheet old.history.events site day) ⊎ FoundRescinded old.history (cut_off step) register.history site day }
{}

/// Whatever comes before and after it, an answer is that of the history then; one marked computed is the value that computing from
/// scratch from all edits accepted so far gives; any other names the last of these edits that changed the day, or says that none of them
/// added the station.
pub fn answers_are_true()
    ensures of_history { (old new : Registered) (before after : List Step) (site : SiteNumber) (day : ℤ) (told : DayAnswer)
        → GoesOver old (before ++ AnAnswer site day told ∷ after) new
        → (at : Registered) × GoesOver old before at × GoesOver at (AnAnswer site day told ∷ after) new × (told ≡ answer_at at.history.events site day) }
    ensures computed { (old new : Registered) (before after : List Step) (site : SiteNumber) (day : ℤ) (value : DayValue)
        → GoesOver old (before ++ AnAnswer site day (Computed value) ∷ after) new
        → value ≡ day_value (inputs_of_day (stations_of (edits_of old.history.events ++ added before)) site day) }
    ensures pending { (old new : Registered) (before after : List Step) (site : SiteNumber) (day : ℤ) (number : ℕ)
        → GoesOver old (before ++ AnAnswer site day (Pending number) ∷ after) new
        → ChangedLast (edits_of old.history.events ++ added before) site day number }
    ensures no_station { (old new : Registered) (before after : List Step) (site : SiteNumber) (day : ℤ)
        → GoesOver old (before ++ AnAnswer site day NoStation ∷ after) new
        → is_some (station_of (stations_of (edits_of old.history.events ++ added before)) site) ≡ false }
{}

/// Whatever comes before it, the sheet that is shown of a day is the text that is kept of it where it is approved, and else that of the value
/// that computing from scratch from all edits accepted so far gives; or it names the last of these edits that changed the day, or says that
/// none of them added the station.
pub fn shown_sheets_are_true()
    ensures text { (old new : Registered) (steps : List Step) (site : SiteNumber) (day : ℤ) (text : List ℕ) → GoesOver old steps new
        → shown_at new.history.events site day ≡ Text text → IsKeptOrMade site day (stored_sheet new.history.events site day)
        (day_value (inputs_of_day (stations_of (edits_of old.history.events ++ added steps)) site day)) text }
    ensures pending { (old new : Registered) (steps : List Step) (site : SiteNumber) (day : ℤ) (number : ℕ) → GoesOver old steps new
        → shown_at new.history.events site day ≡ Shown.Pending number
        → (stored_sheet new.history.events site day ≡ None) × ChangedLast (edits_of old.history.events ++ added steps) site day number }
    ensures no_station { (old new : Registered) (steps : List Step) (site : SiteNumber) (day : ℤ) → GoesOver old steps new
        → shown_at new.history.events site day ≡ Shown.NoStation
        → is_some (station_of (stations_of (edits_of old.history.events ++ added steps)) site) ≡ false }
{}

/// A job that a claim or a look gave, and whose value is published after any calls, stops and openings, is published exactly where its day
/// then awaits the job's edit, and never told to be foreign.
pub fn given_jobs_are_published_where_awaited()
    ensures { (old new : Registered) (before between after : List Step) (given : Step) (job : DayJob) (outcome : Publish) → Gives given job
        → GoesOver old (before ++ given ∷ (between ++ APublication job outcome ∷ after)) new
        → (at : Registered) × GoesOver old (before ++ given ∷ between) at × GoesOver at (APublication job outcome ∷ after) new
        × ((outcome ≡ Published ↔ awaited at.history.events job.site job.day ≡ Some job.awaits) × (outcome ≢ Foreign)) }
{}

/// What a stop leaves, between two calls and inside one, is opened by the step of that stop: the office goes on from the records of the
/// edits that were accepted before the call, and perhaps one more, the one in doubt or that of the very edit whose call was cut off. A
/// stop inside any other call is like one between calls.
pub fn an_opening_is_a_step()
    ensures between { (old register : Registered) (image : List ℕ) → IsLeft old.history image → IsOpened (Some image) old.history.limits register
        → (found : Option Record) × IsStep old (AStop None found) register }
    ensures inside { (old : Registered) (step : Step) (new register : Registered) (image : List ℕ) → IsCall step → IsStep old step new
        → IsLeftBetween old.history new.history image → IsOpened (Some image) old.history.limits register
        → (found : Option Record) × IsStep old (AStop (cut_off step) found) register }
{}

/// A day that has inputs was changed by one of the edits, so the span of the used days of a station lies within its cells.
pub fn used_days_lie_in_cells()
    ensures changed { (edits : List Edit) (site : SiteNumber) (day : ℤ) → is_filled (stations_of edits) site day ≡ true
        → was_changed edits site day ≡ true }
    ensures within { (edits : List Edit) (site : SiteNumber) (first last : ℤ) → IsDay first → IsDay last → IsUsedSpan (stations_of edits) site (Some (first, last))
        → LiesIn (with_days None (days_ever_changed edits site)) first × LiesIn (with_days None (days_ever_changed edits site)) last }
{}

/// The day of a job is one of the calendar.
pub fn jobs_have_days_of_the_calendar(done: &Done)
    ensures { IsDay done.now.job.day }
{
    let _ = done.job().day().get();
}
