//! Messages that `wire` reads from a stream.

ghost use Rattle.std.specs.Prelude.{◌<◌};

use crate::escapes::{push_counted, push_read, push_shown};
use crate::memory::{bytes_of, numbers};
use devices::MemorySource;
use fixed_units::{NoMemory, Text};
use row_lines::parted;
use std::alloc::Global;
use wire::{Incoming, Message, Verb};

/// A piece that no short stream is longer than.
const WHOLE: usize = 65_536;

/// How many messages are read at most where a stream is read to its end.
const ALL: usize = 20;

/// How a stream comes.
#[derive(Clone, Copy)]
struct Coming<'a> {
    /// The numbers of the calls of the source that fail, counted from 1.
    failing: &'a str,
    /// The greatest number of bytes that come at once.
    piece: usize,
    /// How many messages are read, if no other follows one before.
    count: usize,
    /// Whether it is told how often the source was asked, and how often it was found at its end.
    is_asked: bool,
}

/// Writes what comes of a call: the messages, each with a semicolon behind it.
pub fn answer(alloc: Global, word: &str, rest: &str, came: &mut Text) -> Result<(), NoMemory> {
    match word {
        "cut" => cut(alloc, rest, came),
        "read" => read(alloc, rest, false, came),
        "asked" => read(alloc, rest, true, came),
        "long" => long(alloc, rest, came),
        _ => came.push_slice(b"no such call"),
    }
}

/// `cut BYTES`: the messages of a stream, uncut or cut, also behind every byte.
fn cut(alloc: Global, rest: &str, came: &mut Text) -> Result<(), NoMemory> {
    let bytes = bytes_of(alloc, rest)?;
    cut_bytes(alloc, bytes.as_slice(), came)
}

fn cut_bytes(alloc: Global, bytes: &[u8], came: &mut Text) -> Result<(), NoMemory> {
    read_in(alloc, bytes, WHOLE, came)?;
    for piece in [1, 2, 7] {
        cut_alike(alloc, bytes, piece, came)?;
    }
    Ok(())
}

/// Adds the messages of a stream in other pieces, where they are others.
fn cut_alike(alloc: Global, bytes: &[u8], piece: usize, came: &mut Text) -> Result<(), NoMemory> {
    let before = came.len();
    read_in(alloc, bytes, piece, came)?;
    if is_twice(came.as_slice(), before) {
        came.truncate(before);
    }
    Ok(())
}

/// Whether the text is so many bytes, and the same again.
fn is_twice(text: &[u8], count: usize) -> bool {
    match text.split_at_checked(count) {
        Some((first, then)) => first == then,
        None => false,
    }
}

fn read_in(alloc: Global, bytes: &[u8], piece: usize, came: &mut Text) -> Result<(), NoMemory> {
    let coming = Coming {
        failing: "-",
        piece,
        count: ALL,
        is_asked: false,
    };
    read_cut(alloc, bytes, &coming, came)
}

/// `read FAILING PIECE COUNT BYTES` and `asked FAILING PIECE COUNT BYTES`: the first messages of a stream; and how often the source was asked,
/// and found at its end.
fn read(alloc: Global, rest: &str, is_asked: bool, came: &mut Text) -> Result<(), NoMemory> {
    let (failing, rest) = parted(rest);
    let (piece, rest) = parted(rest);
    let (count, bytes) = parted(rest);
    let coming = Coming {
        failing,
        piece: piece.parse().unwrap_or(0),
        count: count.parse().unwrap_or(0),
        is_asked,
    };
    read_text(alloc, bytes, &coming, came)
}

fn read_text(
    alloc: Global,
    text: &str,
    coming: &Coming<'_>,
    came: &mut Text,
) -> Result<(), NoMemory> {
    let bytes = bytes_of(alloc, text)?;
    read_cut(alloc, bytes.as_slice(), coming, came)
}

/// `long PIECE BEFORE|COUNT|PART|BEHIND`: the messages of a stream with a part that comes often in its midst.
fn long(alloc: Global, rest: &str, came: &mut Text) -> Result<(), NoMemory> {
    let (piece, parts) = parted(rest);
    let mut bytes = Text::new(alloc);
    push_long(parts, &mut bytes)?;
    read_in(alloc, bytes.as_slice(), piece.parse().unwrap_or(0), came)
}

fn push_long(parts: &str, bytes: &mut Text) -> Result<(), NoMemory> {
    let (before, parts) = behind_bar(parts);
    let (count, parts) = behind_bar(parts);
    let (part, behind) = behind_bar(parts);
    push_read(before, bytes)?;
    for _ in 0..count.parse().unwrap_or(0_u32) {
        push_read(part, bytes)?;
    }
    push_read(behind, bytes)
}

fn behind_bar(text: &str) -> (&str, &str) {
    text.split_once('|').unwrap_or((text, ""))
}

fn read_cut(
    alloc: Global,
    bytes: &[u8],
    coming: &Coming<'_>,
    came: &mut Text,
) -> Result<(), NoMemory> {
    if coming.piece == 0 {
        return came.push_slice(b"no piece");
    }
    let mut source = source(alloc, bytes, coming.failing, coming.piece)?;
    read_source(alloc, &mut source, coming, came)
}

fn source(
    alloc: Global,
    bytes: &[u8],
    failing: &str,
    piece: usize,
) -> Result<MemorySource, NoMemory>
    requires { 0 < piece }
{
    let failing = numbers(alloc, failing)?;
    Ok(MemorySource::new(bytes.to_vec(alloc)?, failing, piece))
}

fn read_source(
    alloc: Global,
    source: &mut MemorySource,
    coming: &Coming<'_>,
    came: &mut Text,
) -> Result<(), NoMemory> {
    let mut incoming = Incoming::new(alloc)?;
    read_on(alloc, &mut incoming, source, coming.count, came)?;
    if coming.is_asked {
        push_asked(source, came)
    } else {
        Ok(())
    }
}

fn push_asked(source: &MemorySource, came: &mut Text) -> Result<(), NoMemory> {
    push_counted(b" asked ", source.calls(), came)?;
    push_counted(b", at its end ", source.end_count(), came)
}

fn read_on(
    alloc: Global,
    incoming: &mut Incoming,
    source: &mut MemorySource,
    count: usize,
    out: &mut Text,
) -> Result<(), NoMemory> {
    for _ in 0..count {
        if read_one(alloc, incoming, source, out)? {
            break;
        }
    }
    Ok(())
}

/// Adds the next message, and tells whether no other follows it.
fn read_one(
    alloc: Global,
    incoming: &mut Incoming,
    source: &mut MemorySource,
    out: &mut Text,
) -> Result<bool, NoMemory> {
    let message = incoming.next(alloc, source);
    tell(&message, out)
}

fn tell(message: &Message, out: &mut Text) -> Result<bool, NoMemory> {
    describe(message, out)?;
    out.push(b';')?;
    Ok(is_last(message))
}

/// Adds what a message is, a request's body between brackets.
fn describe(message: &Message, out: &mut Text) -> Result<(), NoMemory> {
    match message {
        Message::Request { verb, target, body } => describe_request(*verb, target, body, out),
        Message::Malformed(at) => push_counted(b"malformed ", *at, out),
        Message::NoLength => out.push_slice(b"no length"),
        Message::TooLarge => out.push_slice(b"too large"),
        Message::NoMemory => out.push_slice(b"no memory"),
        Message::End => out.push_slice(b"end"),
        Message::Long => out.push_slice(b"long"),
        Message::Failed => out.push_slice(b"failed"),
    }
}

fn describe_request(
    verb: Verb,
    target: &Text,
    body: &Text,
    out: &mut Text,
) -> Result<(), NoMemory> {
    out.push_slice(verb_text(verb))?;
    push_shown(target.as_slice(), out)?;
    out.push_slice(b" [")?;
    push_body(body.as_slice(), out)?;
    out.push(b']')
}

/// Adds a body, or of a long one in which one byte comes again and again how often it does.
fn push_body(body: &[u8], out: &mut Text) -> Result<(), NoMemory> {
    match body.first() {
        Some(first) if body.len() > 1_000 && is_all(body, *first) => {
            push_counted(b"", body.len() as u64, out)?;
            out.push_slice(b" times ")?;
            push_shown(&[*first], out)
        }
        _ => push_shown(body, out),
    }
}

fn is_all(bytes: &[u8], byte: u8) -> bool {
    for other in bytes {
        if *other != byte {
            return false;
        }
    }
    true
}

fn verb_text(verb: Verb) -> &'static [u8] {
    match verb {
        Verb::Get => b"get ",
        Verb::Post => b"post ",
        Verb::Other => b"other ",
    }
}

fn is_last(message: &Message) -> bool {
    matches!(
        message,
        Message::End | Message::Malformed(_) | Message::Long
    )
}
