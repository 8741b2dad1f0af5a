//! The end of a period.

ghost use Rattle.std.specs.Prelude.{◌≡◌, IfOk, IfSome, ◌<ℤ◌, option_and_then};
ghost use Rattle.edit_bodies.specs.Answers.{IsTaken};
ghost use Rattle.edit_bodies.specs.Grammars.{until_of};
ghost use Rattle.edit_bodies.specs.Members.{member_text, required};
ghost use Rattle.edit_bodies.specs.Trees.{left, stated};
ghost use Rattle.fixed_units.specs.Quantities.{IsStamp};
ghost use Rattle.serde_json.specs.Find.{get_member};

use crate::faults::BodyFault;
use crate::members::{Fields, Member, remove, value_at};
use crate::rows::instant_in;
use fixed_units::Second;
use json::Value;

/// Takes out the end of a period that begins at an instant.
pub(crate) fn take_until(fields: &mut Fields<'_>, from: Second) -> Result<Option<Second>, BodyFault>
    ensures read { IsTaken (required Member.Until (until_of from)) fields.old result fields.new }
    ensures stamp { IfOk result (λ until. IfSome until IsStamp) }
    ensures later { IfOk result (λ until. IfSome until (λ u. from <ℤ u)) }
{
    let found = until_at(fields, from);
    remove(fields, Member::Until);
    found.ok_or(BodyFault::Body(Member::Until))
}

/// The end that is there.
fn until_at(fields: &Fields<'_>, from: Second) -> Option<Option<Second>>
    ensures value { result ≡ option_and_then (until_of from) (get_member (member_text Member.Until) (left fields.now)) }
    ensures stamp { IfSome result (λ until. IfSome until IsStamp) }
    ensures later { IfSome result (λ until. IfSome until (λ u. from <ℤ u)) }
{
    until_in(value_at(fields, Member::Until)?, from)
}

/// The end that a value states: an instant after the start, or none.
fn until_in(value: &Value<'_>, from: Second) -> Option<Option<Second>>
    ensures value { result ≡ until_of from (stated value.now) }
    ensures stamp { IfSome result (λ until. IfSome until IsStamp) }
    ensures later { IfSome result (λ until. IfSome until (λ u. from <ℤ u)) }
{
    if value.is_null() {
        return Some(None);
    }
    match instant_in(value) {
        Some(until) if from < until => Some(Some(until)),
        _ => None,
    }
}
