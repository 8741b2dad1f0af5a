//! The last day of a span that is reviewed or decided on, and what is decided.

ghost use Rattle.std.specs.Prelude.{◌≡◌, IfOk};
ghost use Rattle.edit_bodies.specs.Answers.{IsTaken};
ghost use Rattle.edit_bodies.specs.Grammars.{decision_of, decision_of_text, last_day_of};
ghost use Rattle.edit_bodies.specs.Members.{required};
ghost use Rattle.edits.specs.Lawful.{IsReviewSpan};

use crate::days::take_day;
use crate::faults::BodyFault;
use crate::grammars::take_text;
use crate::members::{Fields, Member};
use edits::{Decision, is_review_span};
use fixed_units::Day;

/// Takes out the last day of a span that begins at a day.
pub(crate) fn take_last_day(fields: &mut Fields<'_>, from: Day) -> Result<Day, BodyFault>
    ensures read { IsTaken (required Member.To (last_day_of from)) fields.old result fields.new }
    ensures span { IfOk result (IsReviewSpan from) }
{
    let to = take_day(fields, Member::To)?;
    if is_review_span(from, to) {
        Ok(to)
    } else {
        Err(BodyFault::Body(Member::To))
    }
}

/// Takes out what is decided.
pub(crate) fn take_decision(fields: &mut Fields<'_>) -> Result<Decision, BodyFault>
    ensures { IsTaken (required Member.Decision decision_of) fields.old result fields.new }
{
    let text = take_text(fields, Member::Decision)?;
    decision_named(text.as_bytes()).ok_or(BodyFault::Body(Member::Decision))
}

/// The decision of that name, or `None` exactly where there is no such decision.
fn decision_named(text: &[u8]) -> Option<Decision>
    ensures { result ≡ decision_of_text text.now }
{
    if text == b"approve".as_slice() {
        Some(Decision::Approve)
    } else if text == b"rescind".as_slice() {
        Some(Decision::Rescind)
    } else {
        None
    }
}
