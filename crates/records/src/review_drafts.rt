//! The reviews and decisions of a payload that was read: the ranges of their days, and the edits that they make.

ghost use Rattle.std.specs.Prelude.{◌≡◌, ◌↔◌, true};
ghost use Rattle.edits.specs.Lawful.{IsReviewSpan};
ghost use Rattle.edits.specs.declared.content.What.TheVariants as whats;

use edits::{Decision, What, is_review_span};
use fixed_units::Day;

/// Whether an edit may review the days from one to another, or decide on them.
pub(crate) fn is_review(from: i32, to: i32) -> bool
    ensures { result ≡ true ↔ IsReviewSpan from to }
{
    match (Day::new(from), Day::new(to)) {
        (Some(from), Some(to)) => is_review_span(from, to),
        _ => false,
    }
}

/// The review of the days from one to another.
pub(crate) fn review_from(from: i32, to: i32) -> What
    requires { IsReviewSpan from to }
    ensures { result ≡ whats.Review from to }
{
    What::Review {
        from: Day::new(from).unwrap(),
        to: Day::new(to).unwrap(),
    }
}

/// The decision on the days from one to another.
pub(crate) fn decided_from(from: i32, to: i32, decision: Decision) -> What
    requires { IsReviewSpan from to }
    ensures { result ≡ whats.Decide from to decision }
{
    What::Decide {
        from: Day::new(from).unwrap(),
        to: Day::new(to).unwrap(),
        decision,
    }
}
