//! The heads of replies, and two whole replies that need no memory.

ghost use Rattle.std.specs.Prelude.{◌≡◌, ◌++◌, [], true, None, take, length, IfSome, OnOk, OnErr, codes, unwrap_or};
ghost use Rattle.http.specs.StatusCode.{reason_phrase};
ghost use Rattle.wire.specs.ReplyHead.{head_text, status_line, type_line, length_line, line_end, reply_bytes, is_reply_status, is_allowance, allow_line};
ghost use Rattle.wire.specs.declared.replies.Kind.TheVariants.{Json};

use crate::messages::Verb;
use fixed_units::{NoMemory, Text};
use http::StatusCode;

/// The type of a reply's body.
#[derive(Clone, Copy, Debug, PartialEq, Eq)]
pub enum Kind {
    /// `application/json`
    Json,
    /// `text/plain; charset=utf-8`
    Plain,
    /// `text/csv`
    Csv,
}

/// The whole reply for want of memory.
pub const NO_MEMORY_REPLY: &[u8] =
    b"HTTP/1.1 507 Insufficient Storage\r\nContent-Type: application/json\r\nContent-Length: 19\r\n\r\n{\"code\":\"NoMemory\"}";

/// The whole reply to what is no well framed request.
pub const MALFORMED_REPLY: &[u8] =
    b"HTTP/1.1 400 Bad Request\r\nContent-Type: application/json\r\nContent-Length: 20\r\n\r\n{\"code\":\"Malformed\"}";

/// The constants are replies like any other: a law, which does nothing.
pub fn constants_are_replies()
    ensures no_memory { NO_MEMORY_REPLY.now ≡ reply_bytes 507 Json None (codes "{\"code\":\"NoMemory\"}") }
    ensures malformed { MALFORMED_REPLY.now ≡ reply_bytes 400 Json None (codes "{\"code\":\"Malformed\"}") }
{}

/// Adds the head of a reply whose body has `body_length` bytes. After `NoMemory` the text is as before.
pub fn write_head(
    status: u16,
    kind: Kind,
    allow: Option<Verb>,
    body_length: usize,
    out: &mut Text,
) -> Result<(), NoMemory>
    requires status { is_reply_status status ≡ true }
    requires allow { is_allowance status allow ≡ true }
    ensures ok { OnOk result (out.new ≡ out.old ++ head_text status kind allow body_length) }
    ensures err { OnErr result (out.new ≡ out.old) }
{
    let before = out.len();
    let written = write_lines(status, kind, allow, body_length, out);
    if written.is_err() {
        out.truncate(before);
    }
    written
}

/// Adds the lines of a head, of which some may be added where memory runs out.
fn write_lines(
    status: u16,
    kind: Kind,
    allow: Option<Verb>,
    body_length: usize,
    out: &mut Text,
) -> Result<(), NoMemory>
    requires { is_reply_status status ≡ true }
    ensures ok { OnOk result (out.new ≡ out.old ++ head_text status kind allow body_length) }
    ensures err { OnErr result (take (length out.old) out.new ≡ out.old) }
{
    write_status(status, out)?;
    write_type(kind, out)?;
    out.push_slice(allow_line_of(allow))?;
    write_length(body_length, out)
}

/// Adds the status line, of which a part may be added where memory runs out.
fn write_status(status: u16, out: &mut Text) -> Result<(), NoMemory>
    requires { is_reply_status status ≡ true }
    ensures ok { OnOk result (out.new ≡ out.old ++ status_line status) }
    ensures err { OnErr result (take (length out.old) out.new ≡ out.old) }
{
    match usual_line(status) {
        Some(line) => out.push_slice(line),
        None => write_rare_status(status, out),
    }
}

/// The status line of a reply that comes often. Of another status nothing is said.
fn usual_line(status: u16) -> Option<&'static [u8]>
    ensures { IfSome result (λ line. line.now ≡ status_line status) }
{
    match status {
        200 => Some(b"HTTP/1.1 200 OK\r\n"),
        409 => Some(b"HTTP/1.1 409 Conflict\r\n"),
        423 => Some(b"HTTP/1.1 423 Locked\r\n"),
        _ => None,
    }
}

/// Adds the status line part by part.
fn write_rare_status(status: u16, out: &mut Text) -> Result<(), NoMemory>
    requires { is_reply_status status ≡ true }
    ensures ok { OnOk result (out.new ≡ out.old ++ status_line status) }
    ensures err { OnErr result (take (length out.old) out.new ≡ out.old) }
{
    out.push_slice(b"HTTP/1.1 ")?;
    out.push_number(u64::from(status))?;
    out.push(b' ')?;
    out.push_slice(phrase(status).as_bytes())?;
    out.push_slice(b"\r\n")
}

/// Adds the line for the type. After `NoMemory` the text is as before.
fn write_type(kind: Kind, out: &mut Text) -> Result<(), NoMemory>
    ensures ok { OnOk result (out.new ≡ out.old ++ type_line kind) }
    ensures err { OnErr result (out.new ≡ out.old) }
{
    out.push_slice(type_line_of(kind))
}

/// Adds the line for the length and the empty line, of which a part may be added where memory runs out.
fn write_length(body_length: usize, out: &mut Text) -> Result<(), NoMemory>
    ensures ok { OnOk result (out.new ≡ out.old ++ length_line body_length ++ line_end) }
    ensures err { OnErr result (take (length out.old) out.new ≡ out.old) }
{
    out.push_slice(b"Content-Length: ")?;
    out.push_number(body_length as u64)?;
    out.push_slice(b"\r\n\r\n")
}

/// The phrase that stands behind a status.
fn phrase(status: u16) -> &'static str
    requires { is_reply_status status ≡ true }
    ensures { result.now ≡ unwrap_or (reason_phrase status) [] }
{
    match StatusCode::from_u16(status) {
        Ok(code) => code.canonical_reason().unwrap_or(""),
        Err(_) => "",
    }
}

/// The line for the type.
fn type_line_of(kind: Kind) -> &'static [u8]
    ensures { result.now ≡ type_line kind }
{
    match kind {
        Kind::Json => b"Content-Type: application/json\r\n",
        Kind::Plain => b"Content-Type: text/plain; charset=utf-8\r\n",
        Kind::Csv => b"Content-Type: text/csv\r\n",
    }
}

fn allow_line_of(allow: Option<Verb>) -> &'static [u8]
    ensures { result.now ≡ allow_line allow }
{
    match allow {
        Some(Verb::Get) => b"Allow: GET\r\n",
        Some(Verb::Post) => b"Allow: POST\r\n",
        _ => b"",
    }
}
