//! The body of an edit, read as one.

ghost use Rattle.std.specs.Prelude.{◌≡◌, ◌≢◌, IfOk, Ok, Err, Some, None, option_map};
ghost use Rattle.edit_bodies.specs.Bodies.{edit_of, edit_of_value, edit_in, parts};
ghost use Rattle.edit_bodies.specs.Answers.{IsMade};
ghost use Rattle.edit_bodies.specs.Trees.{left, stated};
ghost use Rattle.serde_json.specs.Find.{as_object};
ghost use Rattle.serde_json.specs.Read.{read};

use crate::comments::take_comment;
use crate::compact_form::compact_edit;
use crate::faults::BodyFault;
use crate::grammars::{take_by, take_reference, take_site};
use crate::kinds::{take_kind, take_what};
use crate::members::{Fields, Member, is_none_left};
use crate::trees::read_tree;
use crate::usual_form::usual_put;
use edits::Edit;
use json::{Error, Scratch, Value};
use std::alloc::Global;

/// The edit that a body is. The scratch is what strings with escapes are written to: one serves all bodies that are read one after
/// another, and grows to the longest of them.
///
/// # Errors
///
/// [`BodyFault::Json`] exactly where the body is no text in JSON with numbers that a float holds and at most 127 levels,
/// and [`BodyFault::Body`] with the first member that is missing or ill formed: kind, initials, reference, site, then those
/// of the kind, and at last the comment, which alone may be missing; the kind also where the body is no object, and a further
/// member where all of them are good. Of a member that comes twice the last counts. [`BodyFault::NoMemory`] may come in place of each answer.
pub fn read_edit(alloc: Global, body: &[u8], scratch: &mut Scratch) -> Result<Edit, BodyFault>
    ensures edit { IfOk result (λ edit. edit_of body.now ≡ Ok (parts edit)) }
    ensures json { result ≡ Err BodyFault.Json → edit_of body.now ≡ Err BodyFault.Json }
    ensures member { (name : Member) → result ≡ Err (BodyFault.Body name) → edit_of body.now ≡ Err (BodyFault.Body name) }
{
    let Ok(text) = str::from_utf8(body) else {
        return Err(BodyFault::Json);
    };
    // most edits, as programs write them, need no tree
    match compact_edit(alloc, text) {
        Some(edit) => Ok(edit),
        None => edit_of_tokens(alloc, text, scratch),
    }
}

/// The edit that a text is: by its tokens, where it is a put of the usual form, and else by its tree.
fn edit_of_tokens(alloc: Global, text: &str, scratch: &mut Scratch) -> Result<Edit, BodyFault>
    ensures edit { IfOk result (λ edit. edit_of_value (read text.now) ≡ Ok (parts edit)) }
    ensures json { result ≡ Err BodyFault.Json → edit_of_value (read text.now) ≡ Err BodyFault.Json }
    ensures member { (name : Member) → result ≡ Err (BodyFault.Body name) → edit_of_value (read text.now) ≡ Err (BodyFault.Body name) }
{
    match usual_put(alloc, text, scratch) {
        Some(edit) => Ok(edit),
        None => edit_of_tree(alloc, text, scratch),
    }
}

/// The edit that a text is by its tree.
fn edit_of_tree(alloc: Global, text: &str, scratch: &mut Scratch) -> Result<Edit, BodyFault>
    ensures edit { IfOk result (λ edit. edit_of_value (read text.now) ≡ Ok (parts edit)) }
    ensures json { result ≡ Err BodyFault.Json → edit_of_value (read text.now) ≡ Err BodyFault.Json }
    ensures member { (name : Member) → result ≡ Err (BodyFault.Body name) → edit_of_value (read text.now) ≡ Err (BodyFault.Body name) }
{
    let value = value_of(alloc, text, scratch)?;
    let Some(mut members) = members_in(value) else {
        return Err(BodyFault::Body(Member::Kind));
    };
    edit_from(alloc, &mut members)
}

/// The value that a text states.
fn value_of<'a>(
    alloc: Global,
    text: &'a str,
    scratch: &'a mut Scratch,
) -> Result<Value<'a>, BodyFault>
    ensures value { IfOk result (λ value. read text.now ≡ Some (stated value)) }
    ensures json { result ≡ Err BodyFault.Json → read text.now ≡ None }
    ensures only { (name : Member) → result ≢ Err (BodyFault.Body name) }
{
    match read_tree(alloc, text, scratch) {
        Ok(value) => Ok(value),
        Err(Error::Invalid) => Err(BodyFault::Json),
        Err(Error::OutOfMemory | Error::TooLong | Error::DuplicateKey) => Err(BodyFault::NoMemory),
    }
}

/// The members of an object.
fn members_in<'a>(value: Value<'a>) -> Option<Fields<'a>>
    ensures { option_map left result ≡ as_object (stated value.entry) }
{
    match value {
        Value::Object(members) => Some(members),
        _ => None,
    }
}

/// The edit that the members of an object make.
fn edit_from(alloc: Global, fields: &mut Fields<'_>) -> Result<Edit, BodyFault>
    ensures { IsMade (edit_in (Some (left fields.old))) result }
{
    let kind = take_kind(fields)?;
    let by = take_by(fields)?;
    let reference = take_reference(fields)?;
    let site = take_site(fields)?;
    let what = take_what(alloc, kind, fields)?;
    let comment = take_comment(alloc, fields)?;
    if !is_none_left(fields) {
        return Err(BodyFault::Body(Member::Further));
    }
    Ok(Edit {
        by,
        reference,
        site,
        comment,
        what,
    })
}
