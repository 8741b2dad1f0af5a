//! What the bytes at hand tell of the message that comes.

ghost use Rattle.std.specs.Prelude.{◌≡◌, ◌<◌, ◌≤◌, length, take, if◌then◌else◌};
ghost use Rattle.wire.specs.Framing.{is_good};
ghost use Rattle.wire.specs.Messages as messages;
ghost use Rattle.wire.specs.Incoming.{AwaitsHead};
ghost use Rattle.wire.specs.Looking.{Looks};

use crate::framing::{Found, Frame, Head, find_head};
use crate::limits::HEAD_BYTES;
use memchr::memchr;

/// What stands at the front of the bytes at hand, of which the first `looked` settle nothing.
pub(crate) fn look(held: &[u8], looked: usize) -> Front
    requires looked { looked ≤ length held.now }
    requires unsettled { AwaitsHead (take looked held.now) }
    ensures { Looks held.now result }
{
    if held.len() < HEAD_BYTES {
        look_at_part(held, looked)
    } else {
        look_at_window(held)
    }
}

/// The same of fewer bytes than a head may have. They are parsed anew only where a line feed has come.
fn look_at_part(held: &[u8], looked: usize) -> Front
    requires short { length held.now < HEAD_BYTES }
    requires looked { looked ≤ length held.now }
    requires unsettled { AwaitsHead (take looked held.now) }
    ensures { Looks held.now result }
{
    if memchr(b'\n', &held[looked..]).is_none() || is_blank(held) {
        return Front::Unfinished;
    }
    match find_head(held) {
        Found::Whole(head) => front_of(head),
        Found::NotYet => Front::Unfinished,
        Found::Never => Front::Malformed,
    }
}

/// The same of as many bytes as a head may have, or more.
fn look_at_window(held: &[u8]) -> Front
    requires { HEAD_BYTES ≤ length held.now }
    ensures { Looks held.now result }
{
    let window = &held[..HEAD_BYTES];
    if is_blank(window) {
        return Front::Blank;
    }
    match find_head(window) {
        Found::Whole(head) => front_of(head),
        Found::NotYet => Front::Malformed,
        Found::Never => Front::Malformed,
    }
}

/// What a head at the front means: only one that frames a body begins a message.
fn front_of(head: Head) -> Front
    ensures { result ≡ (if is_good head.frame then Front.Framed head else Front.Malformed) }
{
    match head.frame {
        Frame::Ill => Front::Malformed,
        _ => Front::Framed(head),
    }
}

/// What stands at the front of the bytes at hand.
#[derive(Drop)]
pub(crate) enum Front {
    /// A head that frames a body.
    Framed(Head),
    /// No such head, whatever follows.
    Malformed,
    /// A whole window of CR and LF.
    Blank,
    /// No whole head yet.
    Unfinished,
}

/// Whether all bytes are CR or LF.
pub(crate) fn is_blank(bytes: &[u8]) -> bool
    ensures { result ≡ messages.is_blank bytes.now }
{
    bytes.iter().all(|b| *b == b'\r' || *b == b'\n')
}
