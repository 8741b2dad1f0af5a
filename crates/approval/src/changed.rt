//! The days in review that an edit changes: they are worked again.

ghost use Rattle.std.specs.Prelude.{◌≡◌, ◌<ℤ◌, ℤ, ◌&&◌, not, AllPairs, vec_capacity, if◌then◌else◌};
ghost use Rattle.std.specs.List.{list_any};
ghost use Rattle.std.specs.Ordering.{int_eq};
ghost use Rattle.approval.specs.Kept.{day_place, standing_at};
ghost use Rattle.approval.specs.Statuses.{is_in_review, worked};
ghost use Rattle.rising.specs.Lists.{IsRising};

use crate::day_lists::first_of_days;
use crate::days::DayStanding;
use crate::questions::Question;
use fixed_units::Day;

/// Takes out the standings in review of these days.
pub(crate) fn take_changed(list: &mut Vec<DayStanding>, changed: &[Day])
    requires rising { IsRising day_place list.old.items }
    requires days { AllPairs (λ a b. a <ℤ b) changed.now }
    ensures rising { IsRising day_place list.new.items }
    ensures capacity { vec_capacity list.new ≡ vec_capacity list.old }
    ensures standings { (day : ℤ) → standing_at list.new.items day ≡ (if list_any (λ d. int_eq d day) changed.now && is_in_review (standing_at list.old.items day).status then worked else standing_at list.old.items day) }
{
    if first_of_days(list, changed, Question::IsInReview).is_some() {
        list.retain(|standing| stays(standing, changed));
    }
}

/// Whether a standing stays where these days are changed: it is not in review, or its day is none of them.
fn stays(standing: &DayStanding, changed: &[Day]) -> bool
    requires { AllPairs (λ a b. a <ℤ b) changed.now }
    ensures { result ≡ not (list_any (λ d. int_eq d standing.now.day) changed.now && is_in_review standing.now.status) }
{
    !standing.status.is_in_review() || !is_among(changed, standing.day)
}

/// Whether a day is one of these.
fn is_among(days: &[Day], day: Day) -> bool
    requires { AllPairs (λ a b. a <ℤ b) days.now }
    ensures { result ≡ list_any (λ d. int_eq d day) days.now }
{
    days.binary_search(&day).is_ok()
}
