//! Why an edit is made: the one member that may be missing.

ghost use Rattle.std.specs.Prelude.{◌≡◌, [], option_map};
ghost use Rattle.edit_bodies.specs.Answers.{IsFound, IsTaken};
ghost use Rattle.edit_bodies.specs.Grammars.{comment_of, kept_if};
ghost use Rattle.edit_bodies.specs.Members.{member_text, optional, read_or};
ghost use Rattle.edit_bodies.specs.Texts.{is_comment};
ghost use Rattle.edit_bodies.specs.Trees.{left, stated};
ghost use Rattle.serde_json.specs.Find.{as_str, get_member};

use crate::faults::BodyFault;
use crate::members::{Fields, Member, remove, value_at};
use edits::Comment;
use fixed_units::NoMemory;
use json::Value;
use std::alloc::Global;

/// Takes out why the edit is made, which is empty where it is missing.
pub(crate) fn take_comment(alloc: Global, fields: &mut Fields<'_>) -> Result<Comment, BodyFault>
    ensures { IsTaken (optional Member.Comment [] comment_of) fields.old result fields.new }
{
    let found = comment_at(alloc, fields);
    remove(fields, Member::Comment);
    found
}

/// The comment that is there, or the empty one where it is missing.
fn comment_at(alloc: Global, fields: &Fields<'_>) -> Result<Comment, BodyFault>
    ensures { IsFound Member.Comment (read_or [] comment_of (get_member (member_text Member.Comment) (left fields.now))) result }
{
    match value_at(fields, Member::Comment) {
        Some(value) => comment_in(alloc, value),
        None => Ok(Comment::empty()),
    }
}

/// The comment that a value states.
fn comment_in(alloc: Global, value: &Value<'_>) -> Result<Comment, BodyFault>
    ensures { IsFound Member.Comment (comment_of (stated value.now)) result }
{
    match text_in(value) {
        Some(text) => comment_from(alloc, text),
        None => Err(BodyFault::Body(Member::Comment)),
    }
}

/// The string that a value states.
fn text_in<'a>(value: &Value<'a>) -> Option<&'a str>
    ensures { option_map (λ text. text.now) result ≡ as_str (stated value.now) }
{
    value.as_str()
}

/// The comment that a text is.
fn comment_from(alloc: Global, text: &str) -> Result<Comment, BodyFault>
    ensures { IsFound Member.Comment (kept_if is_comment text.now) result }
{
    match Comment::new(alloc, text.as_bytes()) {
        Ok(Some(comment)) => Ok(comment),
        Ok(None) => Err(BodyFault::Body(Member::Comment)),
        Err(NoMemory) => Err(BodyFault::NoMemory),
    }
}
