//! The end of a span of readings, and the flag that they are given.

ghost use Rattle.std.specs.Prelude.{◌≡◌, IfOk, IfSome, ◌≤ℤ◌, option_and_then};
ghost use Rattle.edit_bodies.specs.Answers.{IsTaken};
ghost use Rattle.edit_bodies.specs.Grammars.{flag_of, to_of};
ghost use Rattle.edit_bodies.specs.Members.{member_text, required};
ghost use Rattle.edit_bodies.specs.Trees.{left, stated};
ghost use Rattle.fixed_units.specs.Quantities.{IsStamp};
ghost use Rattle.serde_json.specs.Find.{get_member};

use crate::faults::BodyFault;
use crate::grammars::take_text;
use crate::members::{Fields, Member, remove, value_at};
use crate::rows::{flag_named, instant_in};
use fixed_units::{Flag, Second};
use json::Value;

/// Takes out the last instant of a span that begins at an instant.
pub(crate) fn take_to(fields: &mut Fields<'_>, from: Second) -> Result<Second, BodyFault>
    ensures read { IsTaken (required Member.To (to_of from)) fields.old result fields.new }
    ensures stamp { IfOk result IsStamp }
    ensures ordered { IfOk result (λ to. from ≤ℤ to) }
{
    let found = to_at(fields, from);
    remove(fields, Member::To);
    found.ok_or(BodyFault::Body(Member::To))
}

/// The last instant that is there.
fn to_at(fields: &Fields<'_>, from: Second) -> Option<Second>
    ensures value { result ≡ option_and_then (to_of from) (get_member (member_text Member.To) (left fields.now)) }
    ensures stamp { IfSome result IsStamp }
    ensures ordered { IfSome result (λ to. from ≤ℤ to) }
{
    to_in(value_at(fields, Member::To)?, from)
}

/// The last instant that a value states: a stamp that is not before the first.
fn to_in(value: &Value<'_>, from: Second) -> Option<Second>
    ensures value { result ≡ to_of from (stated value.now) }
    ensures stamp { IfSome result IsStamp }
    ensures ordered { IfSome result (λ to. from ≤ℤ to) }
{
    let to = instant_in(value)?;
    if from <= to { Some(to) } else { None }
}

/// Takes out the flag that the readings of a span are given.
pub(crate) fn take_flag(fields: &mut Fields<'_>) -> Result<Flag, BodyFault>
    ensures { IsTaken (required Member.Flag flag_of) fields.old result fields.new }
{
    let text = take_text(fields, Member::Flag)?;
    flag_named(text.as_bytes()).ok_or(BodyFault::Body(Member::Flag))
}
