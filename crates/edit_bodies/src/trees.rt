//! The tree of a text in JSON, which borrows its strings from the text.

ghost use Rattle.std.specs.Prelude.{◌≡◌, None, Some, IfOk, Err};
ghost use Rattle.edit_bodies.specs.Trees.{stated, is_held, are_items_held, are_members_held};
ghost use Rattle.json.specs.Value.{value_view, items_view, members_view};
ghost use Rattle.serde_json.specs.Read.{of_json, read};

use crate::numbers::number_in;
use json::{Error, Reader, Scratch, Value};
use std::alloc::Global;

/// How deep arrays and objects may nest.
const MAX_DEPTH: usize = 127;

/// The tree of a text.
///
/// # Errors
///
/// [`Error::Invalid`] only where the text is no JSON, where no float holds one of its numbers, or where it has more than 127
/// levels. Any other error is want of memory.
pub(crate) fn read_tree<'a>(
    alloc: Global,
    text: &'a str,
    scratch: &'a mut Scratch,
) -> Result<Value<'a>, Error>
    ensures tree { IfOk result (λ tree. read text.now ≡ Some (stated tree)) }
    ensures invalid { result ≡ Err Error.Invalid → read text.now ≡ None }
{
    let tree = whole_tree(alloc, text, scratch)?;
    if !is_held(&tree) {
        return Err(Error::Invalid);
    }
    Ok(tree)
}

/// The tree of a text, whatever its numbers are.
fn whole_tree<'a>(
    alloc: Global,
    text: &'a str,
    scratch: &'a mut Scratch,
) -> Result<Value<'a>, Error>
    ensures tree { IfOk result (λ tree. read text.now ≡ of_json (value_view tree)) }
    ensures invalid { result ≡ Err Error.Invalid → read text.now ≡ None }
{
    let mut reader = Reader::new(text, scratch)?;
    let tree = Value::read(alloc, &mut reader, MAX_DEPTH)?;
    if reader.next().is_some() {
        return Err(Error::Invalid);
    }
    Ok(tree)
}

/// Whether floats hold all numbers of a tree.
#[cycle(held)]
fn is_held(tree: &Value<'_>) -> bool
    ensures { result ≡ is_held (value_view tree.now) }
{
    match tree {
        Value::Number(text) => number_in(text).is_some(),
        Value::Array(items) => are_items_held(items),
        Value::Object(members) => are_members_held(members),
        _ => true,
    }
}

/// Whether floats hold all numbers of the items.
#[cycle(held)]
fn are_items_held(items: &Vec<Value<'_>>) -> bool
    ensures { result ≡ are_items_held (items_view items.now.items) }
{
    for item in items {
        if !is_held(item) {
            return false;
        }
    }
    true
}

/// Whether floats hold all numbers of the members' values.
#[cycle(held)]
fn are_members_held(members: &Vec<(&str, Value<'_>)>) -> bool
    ensures { result ≡ are_members_held (members_view members.now.items) }
{
    for member in members {
        if !is_held(&member.1) {
            return false;
        }
    }
    true
}
