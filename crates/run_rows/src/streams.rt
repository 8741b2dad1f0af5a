//! The bytes of the requests and of the replies of a run.

use crate::rows::parted;
use crate::texts::{At, push_text};
use fixed_units::{NoMemory, Text};

/// The beginnings of replies.
const STATUSES: &str =
    "200 OK\n400 Bad Request\n404 Not Found\n405 Method Not Allowed\n409 Conflict\n\
    411 Length Required\n413 Payload Too Large\n423 Locked\n503 Service Unavailable";

/// Which lines of a run are read.
#[derive(Clone, Copy)]
pub enum Side {
    /// Those of the input.
    Asked,
    /// Those of the output.
    Replied,
}

/// Adds the bytes of one side of a run.
pub fn push_stream(
    file: &str,
    run: &str,
    side: Side,
    body: &mut Text,
    out: &mut Text,
) -> Result<(), NoMemory> {
    for part in run.split("\nrepeat ") {
        for round in 0..times_of(part.lines().next().unwrap_or("")) {
            push_round(At { file, round }, part, side, body, out)?;
        }
    }
    Ok(())
}

/// How often a part stands, by its first line; once where that is no number.
fn times_of(digits: &str) -> u32 {
    digits.parse().unwrap_or(1)
}

fn push_round(
    at: At<'_>,
    part: &str,
    side: Side,
    body: &mut Text,
    out: &mut Text,
) -> Result<(), NoMemory> {
    for line in part.lines() {
        match side {
            Side::Asked => push_asked(at, line, body, out)?,
            Side::Replied => push_replied(at, line, body, out)?,
        }
    }
    Ok(())
}

fn push_asked(at: At<'_>, line: &str, body: &mut Text, out: &mut Text) -> Result<(), NoMemory> {
    if let Some(request) = line.strip_prefix("> ") {
        return push_request(at, request, body, out);
    }
    match line.strip_prefix(">>") {
        Some(raw) => push_raw(at, raw, body, out),
        None => Ok(()),
    }
}

fn push_replied(at: At<'_>, line: &str, body: &mut Text, out: &mut Text) -> Result<(), NoMemory> {
    if let Some(reply) = line.strip_prefix("< ") {
        return push_reply(at, reply, body, out);
    }
    match line.strip_prefix("<<") {
        Some(raw) => push_raw(at, raw, body, out),
        None => Ok(()),
    }
}

/// Adds a text so often as the digits before it say, or once.
fn push_raw(at: At<'_>, raw: &str, body: &mut Text, out: &mut Text) -> Result<(), NoMemory> {
    let (times, text) = parted(raw);
    body.truncate(0);
    push_text(at, text, body)?;
    for _ in 0..times_of(times) {
        out.push_slice(body.as_slice())?;
    }
    Ok(())
}

/// Adds a request. A POST tells the length of its body.
fn push_request(
    at: At<'_>,
    request: &str,
    body: &mut Text,
    out: &mut Text,
) -> Result<(), NoMemory> {
    let (method, rest) = parted(request);
    let (target, text) = parted(rest);
    body.truncate(0);
    push_text(at, text, body)?;
    out.push_slice(method.as_bytes())?;
    out.push_slice(b" ")?;
    out.push_slice(target.as_bytes())?;
    out.push_slice(b" HTTP/1.1\r\n")?;
    if method == "POST" {
        push_length(body.len(), out)?;
    }
    push_body(body, out)
}

/// Adds a reply.
fn push_reply(at: At<'_>, reply: &str, body: &mut Text, out: &mut Text) -> Result<(), NoMemory> {
    let (status, rest) = parted(reply);
    let (kind, text) = parted(rest);
    body.truncate(0);
    push_text(at, text, body)?;
    out.push_slice(b"HTTP/1.1 ")?;
    out.push_slice(status_line(status).as_bytes())?;
    out.push_slice(b"\r\nContent-Type: ")?;
    out.push_slice(content_type(kind).as_bytes())?;
    out.push_slice(b"\r\n")?;
    push_length(body.len(), out)?;
    push_body(body, out)
}

fn status_line(status: &str) -> &str {
    for line in STATUSES.lines() {
        if parted(line).0 == status {
            return line;
        }
    }
    status
}

/// What stands behind `Content-Type`, up to the length.
fn content_type(kind: &str) -> &'static str {
    match kind {
        "json" => "application/json",
        "GET" => "application/json\r\nAllow: GET",
        "POST" => "application/json\r\nAllow: POST",
        "sheet" => "text/plain; charset=utf-8",
        "table" => "text/csv",
        _ => "no such kind",
    }
}

fn push_length(length: usize, out: &mut Text) -> Result<(), NoMemory> {
    out.push_slice(b"Content-Length: ")?;
    out.push_number(length as u64)?;
    out.push_slice(b"\r\n")
}

fn push_body(body: &Text, out: &mut Text) -> Result<(), NoMemory> {
    out.push_slice(b"\r\n")?;
    out.push_slice(body.as_slice())
}
