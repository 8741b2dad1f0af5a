//! What holds of every history.

ghost use Rattle.std.specs.Prelude.{◌≡◌, ◌≢◌, ◌↔◌, ℕ, ◌+◌, ◌≤◌, List, [], ◌∷◌, ℤ, ◌++◌, length, map, slice_get, Some, None, is_some, true, false};
ghost use Rattle.approval.specs.Statuses.{is_approved};
ghost use Rattle.edits.specs.declared.content.Edit.{Edit};
ghost use Rattle.edits.specs.declared.content.What.TheVariants.{Review, Decide};
ghost use Rattle.edits.specs.declared.decisions.Decision.{Decision};
ghost use Rattle.fixed_units.specs.Quantities.{IsDay, SiteNumber};
ghost use Rattle.history.specs.Accepted.{accepted, edit_of, edits_of, stations_at};
ghost use Rattle.history.specs.After.{doubt, go_on, reopen};
ghost use Rattle.history.specs.Awaited.{awaited, inputs_at};
ghost use Rattle.history.specs.Events.{Event, History};
ghost use Rattle.history.specs.LastChanges.{ChangedLast, NoneChanges};
ghost use Rattle.history.specs.Legal.{IsLegal};
ghost use Rattle.history.specs.Locks.{ChangesApproved, IsFirstChanged, ReachesTheLocks};
ghost use Rattle.history.specs.Rescissions.{NoneRescinds};
ghost use Rattle.history.specs.Sheets.{Text, shown_at};
ghost use Rattle.history.specs.Statuses.{locked_at, standing_at, status_at, stored_sheet};
ghost use Rattle.history.specs.Verdicts.{Accepts, Refuses, Repeats, verdict, with_record};
ghost use Rattle.office_inputs.specs.Changes.{keeps_day};
ghost use Rattle.office_inputs.specs.Stations.{station_of};
ghost use Rattle.office_inputs.specs.declared.limits.Limits.{Limits};
ghost use Rattle.office_inputs.specs.declared.refusals.Refusal.TheVariants.{Locked};
ghost use Rattle.records.specs.Payloads.{Holds};
ghost use Rattle.records.specs.Sheets.{Record};
ghost use Rattle.records.specs.declared.formats.Format.{Format};

/// As long as a day awaits an edit its inputs stay as they are, whatever comes between.
pub fn inputs_stay_while_awaited()
    ensures { (events since : List Event) (site : SiteNumber) (day : ℤ) (edit : ℕ) → awaited events site day ≡ Some edit → awaited (events ++ since) site day ≡ Some edit → inputs_at (events ++ since) site day ≡ inputs_at events site day }
{}

/// The edit that a day awaits is the one that changed it last.
pub fn an_awaited_edit_changed_last()
    ensures { (events : List Event) (site : SiteNumber) (day : ℤ) (number : ℕ) → awaited events site day ≡ Some number → ChangedLast (edits_of events) site day number }
{}

/// No two accepted edits have one reference.
pub fn references_are_unique()
    ensures { (h : History) (first second : ℕ) (a b : Edit) → IsLegal h → slice_get (edits_of h.events) first ≡ Some a → slice_get (edits_of h.events) second ≡ Some b → a.reference ≡ b.reference → first ≡ second }
{}

/// An accepted edit that comes again is told its number.
pub fn an_accepted_edit_is_repeated()
    ensures { (h : History) (place : ℕ) (edit : Edit) → IsLegal h → slice_get (edits_of h.events) place ≡ Some edit → verdict h edit ≡ Repeats (place + 1) }
{}

/// The format of the journal holds the comment of each accepted edit: in the first one each is empty.
pub fn comments_are_held()
    ensures { (h : History) (place : ℕ) (edit : Edit) → IsLegal h → slice_get (edits_of h.events) place ≡ Some edit → Holds h.format edit.comment }
{}

/// An office may be opened again on the edits that were accepted up to some point, and on all of them and the record that is in doubt.
pub fn what_was_kept_is_accepted_again()
    ensures accepted { (h : History) (events behind : List Event) → IsLegal h → h.events ≡ events ++ behind → IsLegal (reopen h.limits h.format (accepted events)) }
    ensures in_doubt { (h : History) (piece : Record) → IsLegal h → doubt h ≡ Some piece → IsLegal (reopen h.limits h.format (accepted h.events ++ piece ∷ [])) }
{}

/// In a legal history an approved day stands as it is approved, its inputs stay as they are and the sheet that is kept of it stays the
/// same bytes, until a rescission of that day is accepted.
pub fn an_approved_day_does_not_move()
    ensures standing { (h : History) (events since : List Event) (site : SiteNumber) (day : ℤ) → IsLegal h → IsDay day → h.events ≡ events ++ since → is_approved (status_at events site day) ≡ true → NoneRescinds site day (edits_of since) → standing_at h.events site day ≡ standing_at events site day }
    ensures inputs { (h : History) (events since : List Event) (site : SiteNumber) (day : ℤ) → IsLegal h → IsDay day → h.events ≡ events ++ since → is_approved (status_at events site day) ≡ true → NoneRescinds site day (edits_of since) → inputs_at h.events site day ≡ inputs_at events site day }
    ensures sheet { (h : History) (events since : List Event) (site : SiteNumber) (day : ℤ) → IsLegal h → IsDay day → h.events ≡ events ++ since → is_approved (status_at events site day) ≡ true → NoneRescinds site day (edits_of since) → stored_sheet h.events site day ≡ stored_sheet events site day }
{}

/// In a legal history each approved day has its sheet, also one that was approved before the office was opened; its station is in force,
/// and that very sheet is what is shown of it, also while it awaits an edit.
pub fn an_approved_day_has_its_sheet()
    ensures sheet { (h : History) (site : SiteNumber) (day : ℤ) → IsLegal h → is_approved (status_at h.events site day) ≡ true → is_some (stored_sheet h.events site day) ≡ true }
    ensures station { (h : History) (site : SiteNumber) (day : ℤ) → IsLegal h → is_approved (status_at h.events site day) ≡ true → is_some (station_of (stations_at h.events) site) ≡ true }
    ensures shown { (h : History) (site : SiteNumber) (day : ℤ) → IsLegal h → is_approved (status_at h.events site day) ≡ true → (text : List ℕ) × (stored_sheet h.events site day ≡ Some text) × (shown_at h.events site day ≡ Text text) }
{}

/// A legal history was legal at each point since its opening.
pub fn a_front_of_a_legal_history_is_legal()
    ensures { (front : History) (behind : List Event) → IsLegal (go_on front behind) → front.opened ≤ length front.events → IsLegal front }
{}

/// An office that is opened on the records of the accepted edits has each day as it was: how it stands, how far it is approved, its
/// inputs in force and the sheet that is kept of it. With one record more it has each day as the acceptance of that one leaves it.
pub fn an_opening_keeps_what_was_accepted()
    ensures standing { (limits : Limits) (format : Format) (events : List Event) (site : SiteNumber) (day : ℤ) → standing_at (reopen limits format (accepted events)).events site day ≡ standing_at events site day }
    ensures status { (limits : Limits) (format : Format) (events : List Event) (site : SiteNumber) (day : ℤ) → status_at (reopen limits format (accepted events)).events site day ≡ status_at events site day }
    ensures inputs { (limits : Limits) (format : Format) (events : List Event) (site : SiteNumber) (day : ℤ) → inputs_at (reopen limits format (accepted events)).events site day ≡ inputs_at events site day }
    ensures sheet { (limits : Limits) (format : Format) (events : List Event) (site : SiteNumber) (day : ℤ) → stored_sheet (reopen limits format (accepted events)).events site day ≡ stored_sheet events site day }
    ensures standing_with { (h : History) (piece : Record) (site : SiteNumber) (day : ℤ) → standing_at (reopen h.limits h.format (accepted h.events ++ piece ∷ [])).events site day ≡ standing_at (with_record h piece) site day }
    ensures status_with { (h : History) (piece : Record) (site : SiteNumber) (day : ℤ) → status_at (reopen h.limits h.format (accepted h.events ++ piece ∷ [])).events site day ≡ status_at (with_record h piece) site day }
    ensures inputs_with { (h : History) (piece : Record) (site : SiteNumber) (day : ℤ) → inputs_at (reopen h.limits h.format (accepted h.events ++ piece ∷ [])).events site day ≡ inputs_at (with_record h piece) site day }
    ensures sheet_with { (h : History) (piece : Record) (site : SiteNumber) (day : ℤ) → stored_sheet (reopen h.limits h.format (accepted h.events ++ piece ∷ [])).events site day ≡ stored_sheet (with_record h piece) site day }
{}

/// In an office that was just opened each day that was ever changed awaits the edit that changed it last, and no other day awaits one.
pub fn behind_an_opening_days_await_their_last_edits()
    ensures changed { (limits : Limits) (format : Format) (pieces : List Record) (site : SiteNumber) (day : ℤ) (number : ℕ) → ChangedLast (map edit_of pieces) site day number → awaited (reopen limits format pieces).events site day ≡ Some number }
    ensures unchanged { (limits : Limits) (format : Format) (pieces : List Record) (site : SiteNumber) (day : ℤ) → NoneChanges site day [] (map edit_of pieces) → awaited (reopen limits format pieces).events site day ≡ None }
{}

/// An edit is refused as locked exactly where nothing refuses it that is asked before and it would change the inputs of an approved day:
/// the first such day is named. Whatever is asked before or behind, an edit that would change an approved day's inputs is not accepted,
/// and one that would change none is not refused as locked; no review, approval or rescission ever is.
pub fn an_edit_is_locked_where_it_would_change_an_approved_day()
    ensures exactly { (h : History) (edit : Edit) (day : ℤ) → verdict h edit ≡ Refuses (Locked day) ↔ ReachesTheLocks h edit × IsFirstChanged h.events edit day }
    ensures some { (h : History) (edit : Edit) (day : ℤ) → ReachesTheLocks h edit → ChangesApproved h.events edit day → (first : ℤ) × IsFirstChanged h.events edit first × (verdict h edit ≡ Refuses (Locked first)) }
    ensures not_accepted { (h : History) (edit : Edit) (day : ℤ) → ChangesApproved h.events edit day → verdict h edit ≢ Accepts }
    ensures not_locked { (h : History) (edit : Edit) (named : ℤ) → ((day : ℤ) → ¬ ChangesApproved h.events edit day) → verdict h edit ≢ Refuses (Locked named) }
    ensures first { (h : History) (edit : Edit) (day : ℤ) → verdict h edit ≡ Refuses (Locked day) → locked_at h.events edit ≡ Some day }
    ensures changes { (h : History) (edit : Edit) (day : ℤ) → verdict h edit ≡ Refuses (Locked day) → (is_approved (status_at h.events edit.site day) ≡ true) × (keeps_day (stations_at h.events) edit day ≡ false) }
    ensures review { (h : History) (edit : Edit) (from to day : ℤ) → edit.what ≡ Review from to → verdict h edit ≢ Refuses (Locked day) }
    ensures decision { (h : History) (edit : Edit) (from to day : ℤ) (decision : Decision) → edit.what ≡ Decide from to decision → verdict h edit ≢ Refuses (Locked day) }
    ensures accepted { (h : History) (edit : Edit) (day : ℤ) → verdict h edit ≡ Accepts → IsDay day → is_approved (status_at h.events edit.site day) ≡ true → keeps_day (stations_at h.events) edit day ≡ true }
{}
