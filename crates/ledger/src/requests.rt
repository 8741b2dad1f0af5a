//! An edit as the request that `batch` and the server take.

ghost use Rattle.std.specs.Prelude.{◌≡◌, ◌↔◌, ◌++◌, true, Ok, IfOk, IfErr, OnOk};
ghost use Rattle.edit_bodies.specs.Bodies.{edit_of, parts};
ghost use Rattle.ledger.specs.Requests.{IsReadBack, body_text, comment_member, kind_members, posted, request_text, sender_members, settlement};
ghost use Rattle.ledger.specs.Runs.{IsNoText};

use crate::figures::Style;
use crate::kinds::write_figures;
use crate::quotes::write_quoted;
use crate::runs::RunEnd;
use edit_bodies::{BodyFault, read_edit};
use edits::{Decision, Edit, What};
use fixed_units::{NoMemory, Text};
use json::Scratch;
use site_texts::write_site;
use std::alloc::Global;

/// How many bytes the body of a request has at most.
const MOST_BODY: usize = 4_194_304;

/// Adds the request of an edit of that number, whose body is read as the edit.
pub(crate) fn write_request(
    alloc: Global,
    number: u64,
    edit: &Edit,
    out: &mut Text,
) -> Result<(), RunEnd>
    ensures text { OnOk result (out.new ≡ out.old ++ request_text edit.now) }
    ensures meant { OnOk result (IsReadBack edit.now) }
    ensures none { IfErr result (λ end. IsNoText end number edit.now) }
{
    let body = body_of(alloc, edit)?;
    if MOST_BODY < body.len() {
        return Err(RunEnd::TooLarge(number));
    }
    if !is_read_back(alloc, body.as_slice(), edit)? {
        return Err(RunEnd::NotReadBack(number));
    }
    write_settlement(&edit.what, out)?;
    write_posted(body.as_slice(), out)?;
    Ok(())
}

/// Whether a body is read as this edit.
fn is_read_back(alloc: Global, body: &[u8], edit: &Edit) -> Result<bool, NoMemory>
    ensures { IfOk result (λ back. back ≡ true ↔ edit_of body.now ≡ Ok (parts edit.now)) }
{
    let mut scratch = Scratch::new(alloc);
    match read_edit(alloc, body, &mut scratch) {
        Ok(found) => Ok(found.is_same(edit)),
        Err(BodyFault::Json) => Ok(false),
        Err(BodyFault::Body(_)) => Ok(false),
        Err(BodyFault::NoMemory) => Err(NoMemory),
    }
}

/// The body of an edit.
fn body_of(alloc: Global, edit: &Edit) -> Result<Text, NoMemory>
    ensures { IfOk result (λ body. body ≡ body_text edit.now) }
{
    let mut body = Text::new(alloc);
    write_body(edit, &mut body)?;
    Ok(body)
}

/// Adds the body of an edit.
fn write_body(edit: &Edit, out: &mut Text) -> Result<(), NoMemory>
    ensures { OnOk result (out.new ≡ out.old ++ body_text edit.now) }
{
    write_kind(edit, out)?;
    write_sender(edit, out)?;
    write_figures(Style::OfABody, &edit.what, out)?;
    write_comment(edit.comment.as_slice(), out)?;
    out.push(b'}')
}

/// Adds the kind and the person.
fn write_kind(edit: &Edit, out: &mut Text) -> Result<(), NoMemory>
    ensures { OnOk result (out.new ≡ out.old ++ kind_members edit.now) }
{
    out.push_slice(b"{\"kind\":\"")?;
    out.push_slice(edit.what.kind().name())?;
    out.push_slice(b"\",\"by\":\"")?;
    out.push_slice(edit.by.as_slice())
}

/// Adds the reference and the site.
fn write_sender(edit: &Edit, out: &mut Text) -> Result<(), NoMemory>
    ensures { OnOk result (out.new ≡ out.old ++ sender_members edit.now) }
{
    out.push_slice(b"\",\"ref\":\"")?;
    out.push_slice(edit.reference.as_slice())?;
    out.push_slice(b"\",\"site\":\"")?;
    write_site(edit.site, out)?;
    out.push_slice(b"\"")
}

/// Adds the comment, where there is one.
fn write_comment(comment: &[u8], out: &mut Text) -> Result<(), NoMemory>
    ensures { OnOk result (out.new ≡ out.old ++ comment_member comment.now) }
{
    if comment.is_empty() {
        return Ok(());
    }
    out.push_slice(b",\"comment\":")?;
    write_quoted(comment, out)
}

/// Adds a request with a body.
fn write_posted(body: &[u8], out: &mut Text) -> Result<(), NoMemory>
    ensures { OnOk result (out.new ≡ out.old ++ posted body.now) }
{
    out.push_slice(b"POST /edits HTTP/1.1\r\nContent-Length: ")?;
    out.push_number(body.len() as u64)?;
    out.push_slice(b"\r\n\r\n")?;
    out.push_slice(body)
}

/// Adds the request that every day is computed, before an approval.
fn write_settlement(what: &What, out: &mut Text) -> Result<(), NoMemory>
    ensures { OnOk result (out.new ≡ out.old ++ settlement what.now) }
{
    match what {
        What::Decide {
            decision: Decision::Approve,
            ..
        } => out.push_slice(b"POST /settle HTTP/1.1\r\nContent-Length: 0\r\n\r\n"),
        _ => Ok(()),
    }
}
