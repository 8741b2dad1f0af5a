//! What holds of every standing.

ghost use Rattle.std.specs.Prelude.{◌≡◌, true, false, Bool, None, List, ℕ, ℤ};
ghost use Rattle.approval.specs.Statuses.{Standing, is_approved, is_in_review, is_reviewed_by, objection_of, rescinds, spans, standing_after};
ghost use Rattle.approval.specs.declared.status.Status.{Status};
ghost use Rattle.edits.specs.declared.content.Edit.{Edit};
ghost use Rattle.edits.specs.declared.content.What.TheVariants.{Decide};
ghost use Rattle.edits.specs.declared.decisions.Decision.TheVariants.{Approve};
ghost use Rattle.fixed_units.specs.Quantities.{IsDay, SiteNumber};

/// An approved day stands as it does, with the number of the edit that approved it, after every edit that no day's status stands
/// against, but for one that takes its approval back.
pub fn approved_days_stay()
    ensures { (at : ℤ → Standing) (number : ℕ) (edit : Edit) (changed : Bool) (site : SiteNumber) (day : ℤ) → IsDay day → is_approved (at day).status ≡ true → objection_of (λ d. (at d).status) edit.by edit.what ≡ None → rescinds edit.what day ≡ false → standing_after number edit changed site day (at day) ≡ at day }
{}

/// Two persons have seen each day that is approved: before an approval that no day's status stands against, it was in review, and
/// not by the approver.
pub fn two_persons_see_each_day()
    ensures reviewed { (at : ℤ → Status) (by : List ℕ) (from to day : ℤ) → objection_of at by (Decide from to Approve) ≡ None → IsDay day → spans from to day ≡ true → is_in_review (at day) ≡ true }
    ensures another { (at : ℤ → Status) (by : List ℕ) (from to day : ℤ) → objection_of at by (Decide from to Approve) ≡ None → IsDay day → spans from to day ≡ true → is_reviewed_by by (at day) ≡ false }
{}
