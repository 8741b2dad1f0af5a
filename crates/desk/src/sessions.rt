//! A session: messages are read from a source one after another, and each is replied to on a sink. One body serves an office of one's own and
//! one behind a lock.

ghost use Rattle.std.specs.Prelude.{◌≡◌, ◌≢◌, ◌<◌, ◌≤◌, ℕ, List, Option, None, Some, IfSome, IfOk, IfErr, OnErr, if◌then◌else◌};
ghost use Rattle.desk.specs.Answering.{told_bytes};
ghost use Rattle.desk.specs.Asked.{AnswersAlone};
ghost use Rattle.desk.specs.Endings.{is_malformed};
ghost use Rattle.shared_office.specs.Passages.{Passes};
ghost use Rattle.desk.specs.Replying.{IsReplied};
ghost use Rattle.desk.specs.Sessions.{GoesOn, HasCause, IsEndOf, IsFinished, IsServed, IsServedBy, IsUnderWay};
ghost use Rattle.devices.specs.Faults.{Rose};
ghost use Rattle.devices.specs.Sinks.{AreWritten};
ghost use Rattle.register.specs.Registered.{NoneOut};
ghost use Rattle.wire.specs.Incoming.{taken};
ghost use Rattle.wire.specs.declared.limits.TheConstants.{STREAM_BYTES};
ghost use Rattle.wire.specs.declared.messages.Message.TheVariants as messages;
ghost use Rattle.wire.specs.declared.replies.TheConstants.{MALFORMED_REPLY};

use crate::answers::{Texts, Told};
use crate::asked::Asked;
use devices::{Disk, Sink, Source, put_all};
use http_api::{Reply, Router};
use office::Office;
use office::laws::an_office_stands_on_its_disk;
use std::alloc::Global;
use wire::{Incoming, MALFORMED_REPLY, Message, Verb};

/// How a session ended.
#[derive(Clone, Copy, Debug, PartialEq, Eq)]
pub enum SessionEnd {
    /// The input was read to its end, and every reply was written.
    End,
    /// The source failed.
    InputFault,
    /// The sink failed.
    OutputFault,
    /// No well framed message stands at this offset of the input, which was replied to.
    Malformed(u64),
    /// 2^36 bytes were taken, and more was needed.
    Long,
    /// There was no memory to begin.
    NoMemory,
}

/// Serves the messages of a source over an office that nobody else asks, until it ends. What is written is what the office replies to what is
/// read: each message is answered by the office as it then stood, and where the reply is that of want of memory its disk is as it was. Each
/// edit is in the journal before it is replied to, and a stop at any moment leaves the journal of the edits that were accepted up to some
/// point of the history, or of these and one more.
pub fn session_alone<D: Disk, S: Source, K: Sink>(
    alloc: Global,
    office: &mut Office<D>,
    source: &mut S,
    sink: &mut K,
) -> SessionEnd
    requires { NoneOut office.old.register }
    ensures served { IsServed office.old.register.history office.new.register.history result (S.left source.old) (S.left source.new) (K.written sink.old) (K.written sink.new) }
    ensures answered { IsServedBy (AnswersAlone D.Disk) office.old office.new result (S.left source.old) (S.left source.new) (K.written sink.old) (K.written sink.new) }
    ensures passed { Passes D.Disk office.old.register.history office.new.register.history office.old.disk office.new.disk }
    ensures disk_counted { D.faults office.old.disk ≤ D.faults office.new.disk }
    ensures input_counted { S.faults source.old ≤ S.faults source.new }
    ensures output_counted { K.faults sink.old ≤ K.faults sink.new }
    ensures cause { HasCause result (S.faults source.old) (S.faults source.new) (K.faults sink.old) (K.faults sink.new) }
    ensures unserved { result ≡ SessionEnd.NoMemory → (source.new ≡ source.old) × (sink.new ≡ sink.old) × (office.new ≡ office.old) }
{
    // this runs nothing: it tells the proof what passes until the first message
    stands_still(office);
    serve(alloc, office, source, sink)
}

/// Serves the messages of a source until it ends.
pub(crate) fn serve<A: Asked, S: Source, K: Sink>(
    alloc: Global,
    asked: &mut A,
    source: &mut S,
    sink: &mut K,
) -> SessionEnd
    requires { A.ready asked.old }
    ensures served { IsServedBy A.answers asked.old asked.new result (S.left source.old) (S.left source.new) (K.written sink.old) (K.written sink.new) }
    ensures ready { A.ready asked.new }
    ensures input_counted { S.faults source.old ≤ S.faults source.new }
    ensures output_counted { K.faults sink.old ≤ K.faults sink.new }
    ensures cause { HasCause result (S.faults source.old) (S.faults source.new) (K.faults sink.old) (K.faults sink.new) }
    ensures unserved { result ≡ SessionEnd.NoMemory → (source.new ≡ source.old) × (sink.new ≡ sink.old) × (asked.new ≡ asked.old) }
{
    let Ok(router) = Router::new(alloc) else {
        return SessionEnd::NoMemory;
    };
    let Ok(mut incoming) = Incoming::new(alloc) else {
        return SessionEnd::NoMemory;
    };
    let Ok(mut texts) = Texts::new(alloc) else {
        return SessionEnd::NoMemory;
    };
    loop {
        let end = serve_next(
            alloc,
            asked,
            &router,
            &mut incoming,
            &mut texts,
            source,
            sink,
        );
        if let Some(end) = end {
            return end;
        }
    }
}

/// Serves the next message; the end of the session, where that is one.
fn serve_next<A: Asked, S: Source, K: Sink>(
    alloc: Global,
    asked: &mut A,
    router: &Router,
    incoming: &mut Incoming,
    texts: &mut Texts,
    source: &mut S,
    sink: &mut K,
) -> Option<SessionEnd>
    requires ready { A.ready asked.old }
    requires limit { taken incoming.old ≤ STREAM_BYTES }
    ensures goes_on { (x : A) (left written : Option (List ℕ))
        → IsUnderWay A.answers x asked.old incoming.old left (S.left source.old) written (K.written sink.old)
        → GoesOn A.answers x asked.new result incoming.new left (S.left source.new) written (K.written sink.new) }
    ensures ready { A.ready asked.new }
    ensures limit { taken incoming.new ≤ STREAM_BYTES }
    ensures proceeds { result ≡ None → incoming.old.offset < incoming.new.offset }
    ensures input_counted { S.faults source.old ≤ S.faults source.new }
    ensures output_counted { K.faults sink.old ≤ K.faults sink.new }
    ensures cause { IfSome result (λ end. HasCause end (S.faults source.old) (S.faults source.new) (K.faults sink.old) (K.faults sink.new)) }
    ensures begun { result ≢ Some SessionEnd.NoMemory }
{
    let message = incoming.next(alloc, source);
    match reply_on(alloc, asked, router, message, texts) {
        Ok(told) => end_unless(put_all(sink, texts.bytes(told))),
        Err(end) => Some(finish(end, sink)),
    }
}

/// The end of a session, unless its reply was written.
fn end_unless(written: bool) -> Option<SessionEnd>
    ensures { result ≡ (if written then None else Some SessionEnd.OutputFault) }
{
    if written {
        None
    } else {
        Some(SessionEnd::OutputFault)
    }
}

/// Ends a session; bytes that are no message are replied to.
fn finish<K: Sink>(end: SessionEnd, sink: &mut K) -> SessionEnd
    ensures told { IsFinished end result (K.written sink.old) (K.written sink.new) }
    ensures counted { K.faults sink.old ≤ K.faults sink.new }
    ensures cause { (before now : ℕ) → HasCause end before now (K.faults sink.old) (K.faults sink.new)
        → HasCause result before now (K.faults sink.old) (K.faults sink.new) }
{
    match end {
        SessionEnd::Malformed(at) => end_malformed(at, sink),
        other => other,
    }
}

/// Replies to bytes that are no message, and ends the session.
fn end_malformed<K: Sink>(at: u64, sink: &mut K) -> SessionEnd
    ensures written { AreWritten (K.written sink.old) MALFORMED_REPLY.now (K.written sink.new) (is_malformed result) }
    ensures end { result ≡ (if is_malformed result then SessionEnd.Malformed at else SessionEnd.OutputFault) }
    ensures counted { K.faults sink.old ≤ K.faults sink.new }
    ensures cause { result ≡ SessionEnd.OutputFault → Rose (K.faults sink.old) (K.faults sink.new) }
{
    if put_all(sink, MALFORMED_REPLY) {
        SessionEnd::Malformed(at)
    } else {
        SessionEnd::OutputFault
    }
}

/// Replies to a message, in the texts; the end of the session, where the message is none that is replied to.
fn reply_on<A: Asked>(
    alloc: Global,
    asked: &mut A,
    router: &Router,
    message: Message,
    texts: &mut Texts,
) -> Result<Told, SessionEnd>
    requires { A.ready asked.old }
    ensures replied { IfOk result (λ told. IsReplied A.answers asked.old message (told_bytes told texts.new.reply) asked.new) }
    ensures ended { IfErr result (IsEndOf message) }
    ensures kept { OnErr result (asked.new ≡ asked.old) }
    ensures ready { A.ready asked.new }
{
    match message {
        Message::Request { verb, target, body } => {
            let told = reply_to(
                alloc,
                asked,
                router,
                verb,
                target.as_slice(),
                body.as_slice(),
                texts,
            );
            Ok(told)
        }
        Message::NoLength => Ok(texts.tell(&Reply::NoLength)),
        Message::TooLarge => Ok(texts.tell(&Reply::TooLarge)),
        Message::NoMemory => Ok(Told::NoMemory),
        Message::End => Err(SessionEnd::End),
        Message::Malformed(at) => Err(SessionEnd::Malformed(at)),
        Message::Long => Err(SessionEnd::Long),
        Message::Failed => Err(SessionEnd::InputFault),
    }
}

/// Answers a request, in the texts.
fn reply_to<A: Asked>(
    alloc: Global,
    asked: &mut A,
    router: &Router,
    verb: Verb,
    target: &[u8],
    body: &[u8],
    texts: &mut Texts,
) -> Told
    requires { A.ready asked.old }
    ensures replied { IsReplied A.answers asked.old (messages.Request verb target.now body.now) (told_bytes result texts.new.reply) asked.new }
    ensures ready { A.ready asked.new }
{
    match router.read(alloc, verb, target, body, &mut texts.scratch) {
        Ok(ask) => asked.answer(ask, texts),
        Err(denied) => texts.tell(&Reply::Denied(denied)),
    }
}

/// While nobody asks an office nothing passes in it: a law, which does nothing.
pub fn stands_still<D: Disk>(office: &Office<D>)
    ensures { Passes D.Disk office.now.register.history office.now.register.history office.now.disk office.now.disk }
{
    an_office_stands_on_its_disk(office);
}
