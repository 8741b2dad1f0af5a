//! Heads of replies, which `wire` writes.

ghost use Rattle.std.specs.Prelude.{◌≡◌, true, None, IfSome};
ghost use Rattle.wire.specs.ReplyHead.{is_reply_status, is_allowance};

use crate::escapes::{push_counted, push_shown};
use fixed_units::{NoMemory, Text};
use row_lines::parted;
use std::alloc::Global;
use wire::{Kind, MALFORMED_REPLY, NO_MEMORY_REPLY, Verb, write_head};

/// Writes what comes of a call.
pub fn answer(alloc: Global, word: &str, rest: &str, came: &mut Text) -> Result<(), NoMemory> {
    match word {
        "head" => head(alloc, rest, came),
        "constants" => constants(came),
        _ => came.push_slice(b"no such call"),
    }
}

/// How many bytes the replies have that need no memory.
fn constants(came: &mut Text) -> Result<(), NoMemory> {
    push_counted(b"no memory ", NO_MEMORY_REPLY.len() as u64, came)?;
    push_counted(b", malformed ", MALFORMED_REPLY.len() as u64, came)
}

/// `head STATUS ALLOWED KIND LENGTH`: the head of a reply. The verb that is allowed is `-` where there is none.
fn head(alloc: Global, rest: &str, came: &mut Text) -> Result<(), NoMemory> {
    let mut out = Text::new(alloc);
    write_named(rest, &mut out)?;
    push_shown(out.as_slice(), came)
}

fn write_named(rest: &str, out: &mut Text) -> Result<(), NoMemory> {
    let (status, rest) = parted(rest);
    let (allowed, rest) = parted(rest);
    let (kind, length) = parted(rest);
    match (status.parse(), length.parse()) {
        (Ok(status), Ok(length)) => write_of(status, allowed, kind_of(kind), length, out),
        _ => out.push_slice(b"not well formed"),
    }
}

fn kind_of(word: &str) -> Kind {
    match word {
        "json" => Kind::Json,
        "plain" => Kind::Plain,
        _ => Kind::Csv,
    }
}

fn write_of(
    status: u16,
    allowed: &str,
    kind: Kind,
    length: usize,
    out: &mut Text,
) -> Result<(), NoMemory> {
    match (allowed, status) {
        ("GET", 405) => write_head(405, kind, Some(Verb::Get), length, out),
        ("POST", 405) => write_head(405, kind, Some(Verb::Post), length, out),
        ("-", _) => write_usual(status, kind, length, out),
        _ => out.push_slice(b"no head"),
    }
}

fn write_usual(status: u16, kind: Kind, length: usize, out: &mut Text) -> Result<(), NoMemory> {
    match usual(status) {
        Some(status) => write_head(status, kind, None, length, out),
        None => out.push_slice(b"no head"),
    }
}

/// The status, where a reply may have it that names no verb.
fn usual(status: u16) -> Option<u16>
    ensures status { IfSome result (λ status. is_reply_status status ≡ true) }
    ensures allow { IfSome result (λ status. is_allowance status None ≡ true) }
{
    match status {
        200 => Some(200),
        400 => Some(400),
        404 => Some(404),
        409 => Some(409),
        411 => Some(411),
        413 => Some(413),
        423 => Some(423),
        503 => Some(503),
        507 => Some(507),
        _ => None,
    }
}
