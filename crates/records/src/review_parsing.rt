//! The reviews and decisions of a payload, read from left to right.

ghost use Rattle.std.specs.Prelude.{◌≡◌, option_map};
ghost use Rattle.records.specs.Drafts.{what_of};
ghost use Rattle.records.specs.Parsing.{review_at, decision_at, decided_at};

use crate::drafts::Fields;
use crate::parsing::{byte_of, day_of};
use edits::Decision;

/// The fields of a review.
#[tactic(auto, unfolding(crate::specs::Parsing::review_at))]
pub(crate) fn review_of(bytes: &[u8]) -> Option<(Fields<'_>, &[u8])>
    ensures { option_map (λ x. (what_of x.0, x.1.now)) result ≡ review_at bytes.now }
{
    let (from, rest) = day_of(bytes)?;
    let (to, rest) = day_of(rest)?;
    Some((Fields::Review { from, to }, rest))
}

/// The fields of a decision.
#[tactic(auto, unfolding(crate::specs::Parsing::decided_at))]
pub(crate) fn decided_of(bytes: &[u8]) -> Option<(Fields<'_>, &[u8])>
    ensures { option_map (λ x. (what_of x.0, x.1.now)) result ≡ decided_at bytes.now }
{
    let (from, rest) = day_of(bytes)?;
    let (to, rest) = day_of(rest)?;
    let (decision, rest) = decision_of(rest)?;
    let fields = Fields::Decided { from, to, decision };
    Some((fields, rest))
}

/// What is decided.
#[tactic(auto, unfolding(crate::specs::Parsing::decision_at))]
fn decision_of(bytes: &[u8]) -> Option<(Decision, &[u8])>
    ensures { option_map (λ x. (x.0, x.1.now)) result ≡ decision_at bytes.now }
{
    let (number, rest) = byte_of(bytes)?;
    let decision = Decision::of_number(number)?;
    Some((decision, rest))
}
