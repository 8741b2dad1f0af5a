//! What holds of the jobs of an office, and of its history.

ghost use Rattle.std.specs.Prelude.{◌≡◌, ◌≢◌, ◌↔◌, ◌<◌, ◌++◌, ◌∷◌, [], ℕ, ℤ, true, List, take, All, Option, Some};
ghost use Rattle.edits.specs.declared.content.Edit.{Edit};
ghost use Rattle.approval.specs.Statuses.{is_approved};
ghost use Rattle.fixed_units.specs.Quantities.{IsDay, IsSite, SiteNumber};
ghost use Rattle.history.specs.Accepted.{accepted};
ghost use Rattle.history.specs.After.{after_edit, after_fault, after_publications, after_settlement, after_turn};
ghost use Rattle.history.specs.Awaited.{SiteDay, awaited, is_pending, pending_days, value_at};
ghost use Rattle.history.specs.Events.{Event, History};
ghost use Rattle.history.specs.Legal.{IsLegal};
ghost use Rattle.history.specs.Sheets.{IsFromScratch};
ghost use Rattle.history.specs.Statuses.{standing_at, status_at, stored_sheet};
ghost use Rattle.history.specs.Verdicts.{Accepts, verdict};
ghost use Rattle.recompute.specs.declared.jobs.Publish.TheVariants.{Foreign, Published};
ghost use Rattle.records.specs.Sheets.{Record};
ghost use Rattle.register.specs.Asked.{job_at, outcome_at};
ghost use Rattle.register.specs.Keeping.{KeepsToTheLimit};
ghost use Rattle.sheets.specs.Sheets.{sheet};

use crate::registers::Register;

/// A job that was given of a day, while the day awaited an edit, is published exactly where the day still awaits that edit,
/// whatever came between; its inputs are never told to be foreign.
pub fn jobs_are_published_where_awaited()
    ensures { (events since : List Event) (d : SiteDay) → awaited events d.site d.day ≡ Some (job_at events d).awaits → (outcome_at (events ++ since) (job_at events d) ≡ Published ↔ awaited (events ++ since) d.site d.day ≡ Some (job_at events d).awaits) × (outcome_at (events ++ since) (job_at events d) ≢ Foreign) }
{}

/// What an office keeps in memory has a legal history.
pub fn a_history_is_legal(register: &Register)
    ensures { IsLegal register.now.history }
{
    let _ = &register.inputs;
}

/// The events, and a publication of each pending day, keep to the limit where an edit is accepted, and also where a fault refuses it;
/// and they go on doing so however pending days are published.
pub fn events_and_pending_days_keep_to_the_limit()
    ensures edit { (h : History) (edit : Edit) → verdict h edit ≡ Accepts → KeepsToTheLimit (after_edit h edit) }
    ensures fault { (h : History) (edit : Edit) (left : Option Record) → verdict h edit ≡ Accepts → KeepsToTheLimit (after_fault h left) }
    ensures publication { (h : History) (d : SiteDay) → KeepsToTheLimit h → IsDay d.day → is_pending h.events d.site d.day ≡ true → KeepsToTheLimit (after_publications h (d ∷ [])) }
    ensures turn { (h : History) → KeepsToTheLimit h → KeepsToTheLimit (after_turn h) }
    ensures settlement { (h : History) → KeepsToTheLimit h → KeepsToTheLimit (after_settlement h) }
    ensures partly { (h : History) (count : ℕ) → KeepsToTheLimit h → KeepsToTheLimit (after_publications h (take count (pending_days h.events))) }
{}

/// The sheet that is kept of a day which was approved since the office was opened is that of the day's value from scratch, of the inputs
/// in force, under the site as the approval names it: whatever came since the approval. Where each edit names a site of 8 to 15 digits, as
/// the edits of an office do, that is the site itself.
pub fn a_kept_sheet_is_from_scratch()
    ensures approval { (h : History) (site : SiteNumber) (day : ℤ) → IsLegal h → IsDay day → is_approved (status_at h.events site day) ≡ true → h.opened < (standing_at h.events site day).edit → IsFromScratch h.events site day }
    ensures site { (h : History) (site : SiteNumber) (day : ℤ) → IsLegal h → IsDay day → IsSite site → All (λ (piece : Record). IsSite piece.edit.site) (accepted h.events) → is_approved (status_at h.events site day) ≡ true → h.opened < (standing_at h.events site day).edit → stored_sheet h.events site day ≡ Some (sheet site day (value_at h.events site day) true) }
{}
