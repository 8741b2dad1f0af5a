//! The least cover of an edition.

ghost use Rattle.std.specs.Prelude.{◌≡◌, IfOk, IfSome, option_and_then};
ghost use Rattle.edit_bodies.specs.Answers.{IsTaken};
ghost use Rattle.edit_bodies.specs.Grammars.{kept_within, least_of};
ghost use Rattle.edit_bodies.specs.Members.{member_text, required};
ghost use Rattle.edit_bodies.specs.Trees.{left, stated};
ghost use Rattle.editions.specs.Covers.{IsLeastCover, most_least_cover};
ghost use Rattle.serde_json.specs.Find.{get_member};

use crate::faults::BodyFault;
use crate::grammars::whole_in;
use crate::members::{Fields, Member, remove, value_at};
use editions::is_least_cover;
use json::Value;

/// Takes out the least cover of an edition.
pub(crate) fn take_least(fields: &mut Fields<'_>) -> Result<Option<u32>, BodyFault>
    ensures read { IsTaken (required Member.Least least_of) fields.old result fields.new }
    ensures cover { IfOk result (λ least. IfSome least IsLeastCover) }
{
    let found = least_at(fields);
    remove(fields, Member::Least);
    found.ok_or(BodyFault::Body(Member::Least))
}

/// The least cover that is there.
fn least_at(fields: &Fields<'_>) -> Option<Option<u32>>
    ensures value { result ≡ option_and_then least_of (get_member (member_text Member.Least) (left fields.now)) }
    ensures cover { IfSome result (λ least. IfSome least IsLeastCover) }
{
    least_in(value_at(fields, Member::Least)?)
}

/// The least cover that a value states: minutes, or none.
fn least_in(value: &Value<'_>) -> Option<Option<u32>>
    ensures value { result ≡ least_of (stated value.now) }
    ensures cover { IfSome result (λ least. IfSome least IsLeastCover) }
{
    if value.is_null() {
        return Some(None);
    }
    Some(Some(least_from(whole_in(value)?)?))
}

/// The least cover of so many minutes, or `None` exactly where it is none.
fn least_from(minutes: u64) -> Option<u32>
    ensures value { result ≡ kept_within 1 most_least_cover minutes }
    ensures cover { IfSome result IsLeastCover }
{
    let least = u32::try_from(minutes).ok()?;
    if is_least_cover(least) {
        Some(least)
    } else {
        None
    }
}
