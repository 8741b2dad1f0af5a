//! What passing a message's bytes gives: the texts of its target and body, where they are kept, and what is told of it.

ghost use Rattle.std.specs.Prelude.{◌≡◌, [], ◌++◌, IfOk, if◌then◌else◌, true};
ghost use Rattle.wire.specs.declared.passing.Passed.TheVariants as passes;
ghost use Rattle.wire.specs.Looking.{told_dropped, told_as};

use crate::framing::{Frame, Head};
use crate::messages::Message;
use fixed_units::{NoMemory, Text};
use std::alloc::Global;

/// What came of passing bytes of the stream.
#[derive(Drop)]
pub(crate) enum Passed {
    /// They were added to the text.
    Kept,
    /// They were dropped.
    Dropped,
    /// The stream ends before.
    End,
    /// As many bytes were taken as a stream may have.
    Long,
    /// The source failed.
    Failed,
}

/// The texts of a message.
#[derive(Drop)]
pub(crate) struct Texts {
    /// Whether there was memory for them, and use.
    pub(crate) kept: bool,
    target: Text,
    pub(crate) body: Text,
}

/// Texts for a message with this target, whose body is none yet.
pub(crate) fn texts_for(alloc: Global, frame: Frame, target: &[u8]) -> Texts
    ensures target { result.kept ≡ true → result.target ≡ target.now }
    ensures body { result.body ≡ [] }
{
    if let Frame::Body(count) = frame {
        if let Ok((target, body)) = room_for(alloc, target, count as usize) {
            return Texts {
                kept: true,
                target,
                body,
            };
        }
    }
    Texts {
        kept: false,
        target: Text::new(alloc),
        body: Text::new(alloc),
    }
}

/// The target of a request as a text, and a text with room for its body.
fn room_for(alloc: Global, target: &[u8], count: usize) -> Result<(Text, Text), NoMemory>
    ensures target { IfOk result (λ texts. texts.0 ≡ target.now) }
    ensures body { IfOk result (λ texts. texts.1 ≡ []) }
{
    let target = Vec::from_slice(alloc, target)?;
    let body = Vec::with_capacity(alloc, count)?;
    Ok((Text::from_vec(target), Text::from_vec(body)))
}

/// Adds bytes to a text that is kept, and tells whether it still is.
pub(crate) fn add(kept: bool, text: &mut Text, bytes: &[u8]) -> bool
    ensures kept { result ≡ true → kept ≡ true }
    ensures added { result ≡ true → text.new ≡ text.old ++ bytes.now }
{
    kept && text.push_slice(bytes).is_ok()
}

/// Bytes that were all passed, and kept or not.
pub(crate) fn passed_whole(kept: bool) -> Passed
    ensures { result ≡ (if kept then passes.Kept else passes.Dropped) }
{
    if kept { Passed::Kept } else { Passed::Dropped }
}

/// The message that is told of a head at this offset and of the body that it frames.
pub(crate) fn told(passed: Passed, head: Head, texts: Texts, begun: u64) -> Message
    ensures { result ≡ told_as passed head texts begun }
{
    match passed {
        Passed::Kept => match head.frame {
            Frame::Body(_) => Message::Request {
                verb: head.verb,
                target: texts.target,
                body: texts.body,
            },
            frame => told_without(frame),
        },
        Passed::Dropped => told_without(head.frame),
        Passed::End => Message::Malformed(begun),
        Passed::Long => Message::Long,
        Passed::Failed => Message::Failed,
    }
}

/// The message that is told of a frame whose body was dropped.
fn told_without(frame: Frame) -> Message
    ensures { result ≡ told_dropped frame }
{
    match frame {
        Frame::Body(_) => Message::NoMemory,
        Frame::TooLarge(_) => Message::TooLarge,
        Frame::NoLength => Message::NoLength,
        Frame::Ill => Message::NoLength,
    }
}
