//! What a stream is made of.

ghost use Rattle.std.specs.Prelude.{ℕ, List};
ghost use Rattle.wire.specs.Messages.{WholesAreUnique, MessagesAreUnique, ReadingIsUnique, KindsAreApart};

use fixed_units::Text;

/// What a request's method asks for.
#[derive(Clone, Copy, Debug, PartialEq, Eq)]
pub enum Verb {
    /// `GET`
    Get,
    /// `POST`
    Post,
    /// Any other method.
    Other,
}

/// The next message of a stream.
#[derive(Drop)]
pub enum Message {
    /// A request, whole.
    Request {
        /// Its method.
        verb: Verb,
        /// Its target as it stands, without decoding.
        target: Text,
        /// Its body.
        body: Text,
    },
    /// A POST stated no length, so that it has no body. The next message can be read.
    NoLength,
    /// A message was skipped whose body is longer than one that is taken. The next one can be read.
    TooLarge,
    /// A request was skipped for want of memory, and its body with it. The next message can be read.
    NoMemory,
    /// The stream is at its end, and nothing but CR and LF was left.
    End,
    /// No message stands at this offset, counted from the stream's start, or the stream ends within its body.
    Malformed(u64),
    /// 2^36 bytes were taken, and more was needed.
    Long,
    /// The source failed.
    Failed,
}

/// A stream is cut into messages in one way only, but for want of memory: a law, which does nothing.
pub fn messages_are_unique()
    ensures wholes { WholesAreUnique }
    ensures unique { MessagesAreUnique }
    ensures reading { ReadingIsUnique }
    ensures apart { (rest : List ℕ) → KindsAreApart rest }
{}
