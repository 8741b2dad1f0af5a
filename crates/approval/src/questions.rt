//! What is asked of the statuses of days.

ghost use Rattle.std.specs.Prelude.{◌≡◌, option_map};
ghost use Rattle.approval.specs.Kept.{standing_of};
ghost use Rattle.approval.specs.Questions.{holds};

use crate::days::DayStanding;
use edits::By;

/// What is asked of the status of a day.
#[derive(Clone, Copy)]
pub(crate) enum Question<'a> {
    /// Is its record in review?
    IsInReview,
    /// Is it not in review?
    IsNotInReview,
    /// Did this person put it in review?
    IsReviewedBy(&'a By),
    /// Is it approved?
    IsApproved,
    /// Is it not approved?
    IsNotApproved,
}

impl Question<'_> {
    /// The answer of a day that stands so: where it has no standing its record is being worked.
    pub(crate) fn holds(self, standing: Option<&DayStanding>) -> bool
        ensures { result ≡ holds self.entry (standing_of (option_map (λ s. s.now) standing.entry)).status }
    {
        let Some(standing) = standing else {
            return matches!(self, Question::IsNotInReview | Question::IsNotApproved);
        };
        let status = &standing.status;
        match self {
            Question::IsInReview => status.is_in_review(),
            Question::IsNotInReview => !status.is_in_review(),
            Question::IsReviewedBy(person) => status.is_reviewed_by(person),
            Question::IsApproved => status.is_approved(),
            Question::IsNotApproved => !status.is_approved(),
        }
    }
}
