//! A reader that cuts a stream of bytes into messages.

ghost use Rattle.std.specs.Prelude.{◌≡◌, ◌⊎◌, ℕ, ◌+◌, ◌-◌, ◌<◌, ◌≤◌, List, [], ◌++◌, length, take, drop, slice_range, IfOk, true, false};
ghost use Rattle.wire.specs.Messages as messages;
ghost use Rattle.httparse.specs.Grammar.{RequestHead};
ghost use Rattle.devices.specs.Sources as sources;
ghost use Rattle.devices.specs.Sources.{IsTakenWithin, Takes, IsEndCounted};
ghost use Rattle.wire.specs.Framing.{body_length};
ghost use Rattle.wire.specs.Incoming.{Held, taken, IsNext, Answers, AwaitsHead, AwaitsBody, IsUnsettled, IsTakenAsNeeded, IsEndedAsNeeded, IsWithinLimit, KeepsBounds, Proceeds, HasCause};
ghost use Rattle.wire.specs.Looking.{IsFramedAt, IsBlankWindow, IsFilled, Keeps, KeepsEnds, HasFault, PassesBytesOf, PassesWholeOf, MovesBy, IsCaused, IsTakenToPass, IsTakenOrNeeded, IsEndedToPass, is_kept};

use crate::framing::{Head, length_of};
use crate::limits::{BLOCK_BYTES, HEAD_BYTES, STREAM_BYTES};
use crate::looking::{Front, is_blank, look};
use crate::messages::Message;
use crate::passing::{Passed, add, passed_whole, texts_for, told};
use devices::{Source, Took};
use fixed_units::{NoMemory, Text};
use std::alloc::Global;
use std::marker::Model;

/// A reader of messages. It holds what was taken from the source and not given yet. Contracts see those
/// bytes and the offset at which they begin.
#[derive(Drop)]
pub struct Incoming {
    block: Vec<u8>,
    start: usize,
    end: usize,
    offset: u64,
}

impl Model for Incoming {
    ghost use Rattle.std.specs.Prelude.{◌≡◌, ◌+◌, ◌-◌, ◌^◌, ◌≤◌, slice_range, vec_len};
    ghost use Rattle.wire.specs.Messages as messages;
    ghost use Rattle.wire.specs.Incoming.{Held, IsBlock};

    ghost Value = { Held };

    ghost view = { λ i. record { ahead = slice_range i.block.items i.start i.end; offset = i.offset } };

    ghost invariant = { λ i. IsBlock (vec_len i.block) i.start i.end i.offset };
}

impl Incoming {
    /// A reader at the start of a stream, with room for a block of it.
    pub fn new(alloc: Global) -> Result<Incoming, NoMemory>
        ensures { IfOk result (λ incoming. incoming ≡ record { ahead = []; offset = 0 }) }
    {
        Ok(Incoming {
            block: vec![in alloc; 0; BLOCK_BYTES]?,
            start: 0,
            end: 0,
            offset: 0,
        })
    }

    /// The next message of the stream, whose rest is what the reader holds and what the source has left.
    ///
    /// Bytes that are read ahead are kept for the next call. The source is asked only where the bytes at
    /// hand hold no whole message and none of their lines is at fault. Nothing follows `End`, `Malformed`,
    /// `Long` and `Failed`.
    pub fn next<S: Source>(&mut self, alloc: Global, source: &mut S) -> Message
        ensures answer { Answers self.old (S.left source.old) result self.new (S.left source.new) }
        ensures proceeds { Proceeds self.old result self.new }
        ensures block { length self.new.ahead ≤ BLOCK_BYTES }
        ensures limit { taken self.new ≤ STREAM_BYTES }
        ensures within { IsWithinLimit self.old (S.left source.old) (S.left source.new) }
        ensures counted { S.faults source.old ≤ S.faults source.new }
        ensures cause { HasCause (S.faults source.old) (S.faults source.new) result }
        ensures asked { (source.new ≡ source.old) ⊎ IsUnsettled self.old.ahead }
        ensures needed { IsTakenAsNeeded self.old (S.left source.old) (S.left source.new) }
        ensures ended { IsEndedAsNeeded self.old (S.left source.old) (S.ends source.old) (S.ends source.new) }
    {
        let mut looked = 0;
        loop {
            match look(self.held(), looked) {
                Front::Framed(head) => return self.give(alloc, head, source),
                Front::Malformed => return Message::Malformed(self.offset),
                Front::Blank => return self.skip_blank(source),
                Front::Unfinished => {}
            }
            looked = self.held().len();
            match self.fill(source) {
                Filled::More => {}
                Filled::End => return self.last(),
                Filled::Long => return Message::Long,
                Filled::Failed => return Message::Failed,
            }
        }
    }

    /// The bytes that were taken and not given yet.
    fn held(&self) -> &[u8]
        ensures held { result.now ≡ self.now.ahead }
        ensures block { length self.now.ahead ≤ BLOCK_BYTES }
        ensures limit { taken self.now ≤ STREAM_BYTES }
    {
        &self.block[self.start..self.end]
    }

    /// Gives the message whose head stands at the front.
    fn give<S: Source>(&mut self, alloc: Global, head: Head, source: &mut S) -> Message
        requires { (found : RequestHead) × IsFramedAt self.old.ahead head found }
        ensures answer { Answers self.old (S.left source.old) result self.new (S.left source.new) }
        ensures proceeds { Proceeds self.old result self.new }
        ensures bounds { KeepsBounds self.new (S.faults source.old) (S.faults source.new) }
        ensures within { IsWithinLimit self.old (S.left source.old) (S.left source.new) }
        ensures cause { HasCause (S.faults source.old) (S.faults source.new) result }
        ensures asked { (source.new ≡ source.old) ⊎ AwaitsBody self.old.ahead }
        ensures needed { IsTakenOrNeeded self.old (S.left source.old) (S.left source.new) }
        ensures ended { IsEndedAsNeeded self.old (S.left source.old) (S.ends source.old) (S.ends source.new) }
    {
        let begun = self.offset;
        let mut texts = texts_for(alloc, head.frame, head.target.of(self.held()));
        let passed = self.pass(head, texts.kept, &mut texts.body, source);
        told(passed, head, texts, begun)
    }

    /// Passes the head at the front, and the body that it frames, which is added to the text, or dropped where it is
    /// not to be kept or memory runs out.
    fn pass<S: Source>(
        &mut self,
        head: Head,
        keeps: bool,
        body: &mut Text,
        source: &mut S,
    ) -> Passed
        requires { (found : RequestHead) × IsFramedAt self.old.ahead head found }
        ensures passed { (found : RequestHead) → IsFramedAt self.old.ahead head found
            → PassesWholeOf found self.old (S.left source.old) body.old result body.new self.new (S.left source.new) }
        ensures moved { MovesBy (head.len + body_length head.frame) self.old result self.new }
        ensures kept { keeps ≡ false → is_kept result ≡ false }
        ensures bounds { KeepsBounds self.new (S.faults source.old) (S.faults source.new) }
        ensures within { IsWithinLimit self.old (S.left source.old) (S.left source.new) }
        ensures cause { IsCaused (S.faults source.old) (S.faults source.new) result }
        ensures asked { (source.new ≡ source.old) ⊎ AwaitsBody self.old.ahead }
        ensures needed { IsTakenOrNeeded self.old (S.left source.old) (S.left source.new) }
        ensures ended { IsEndedAsNeeded self.old (S.left source.old) (S.ends source.old) (S.ends source.new) }
    {
        self.skip(head.len);
        self.pass_bytes(length_of(head.frame), keeps, body, source)
    }

    /// Passes so many bytes, which are added to the text, or dropped where they are not to be kept or memory runs out.
    fn pass_bytes<S: Source>(
        &mut self,
        count: usize,
        keeps: bool,
        text: &mut Text,
        source: &mut S,
    ) -> Passed
        ensures passed { PassesBytesOf count self.old (S.left source.old) text.old result text.new self.new (S.left source.new) }
        ensures moved { MovesBy count self.old result self.new }
        ensures kept { keeps ≡ false → is_kept result ≡ false }
        ensures bounds { KeepsBounds self.new (S.faults source.old) (S.faults source.new) }
        ensures within { IsWithinLimit self.old (S.left source.old) (S.left source.new) }
        ensures cause { IsCaused (S.faults source.old) (S.faults source.new) result }
        ensures asked { (source.new ≡ source.old) ⊎ (length self.old.ahead < count) }
        ensures needed { IsTakenToPass count self.old (S.left source.old) (S.left source.new) }
        ensures ended { IsEndedToPass count self.old (S.left source.old) (S.ends source.old) (S.ends source.new) }
    {
        let mut kept = keeps;
        let mut missing = count;
        loop {
            let here = missing.min(self.held().len());
            kept = add(kept, text, &self.held()[..here]);
            self.skip(here);
            missing -= here;
            if missing == 0 {
                return passed_whole(kept);
            }
            match self.fill(source) {
                Filled::More => {}
                Filled::End => return Passed::End,
                Filled::Long => return Passed::Long,
                Filled::Failed => return Passed::Failed,
            }
        }
    }

    /// Skips so many of the bytes at hand.
    fn skip(&mut self, count: usize)
        requires { count ≤ length self.old.ahead }
        ensures { self.new ≡ record { ahead = drop count self.old.ahead; offset = self.old.offset + count } }
    {
        self.start += count;
        self.offset += count as u64;
    }

    /// The last message of a stream that is at its end.
    fn last(&self) -> Message
        requires { AwaitsHead self.now.ahead }
        ensures answer { IsNext self.now.ahead self.now.offset result self.now.ahead [] self.now.offset }
        ensures proceeds { Proceeds self.now result self.now }
        ensures cause { (before now : ℕ) → HasCause before now result }
    {
        if is_blank(self.held()) {
            Message::End
        } else {
            Message::Malformed(self.offset)
        }
    }

    /// The message behind a window of blank bytes: there is none, and a stream of more than that is malformed
    /// where the blank bytes begin.
    fn skip_blank<S: Source>(&mut self, source: &mut S) -> Message
        requires { IsBlankWindow self.old.ahead }
        ensures answer { Answers self.old (S.left source.old) result self.new (S.left source.new) }
        ensures proceeds { Proceeds self.old result self.new }
        ensures bounds { KeepsBounds self.new (S.faults source.old) (S.faults source.new) }
        ensures within { IsWithinLimit self.old (S.left source.old) (S.left source.new) }
        ensures cause { HasCause (S.faults source.old) (S.faults source.new) result }
        ensures asked { (source.new ≡ source.old) ⊎ (messages.is_blank self.old.ahead ≡ true) }
        ensures needed { IsTakenAsNeeded self.old (S.left source.old) (S.left source.new) }
        ensures ended { IsEndedAsNeeded self.old (S.left source.old) (S.ends source.old) (S.ends source.new) }
    {
        let begun = self.offset;
        while is_blank(self.held()) {
            self.skip_all();
            match self.fill(source) {
                Filled::More => {}
                Filled::End => return Message::End,
                Filled::Long => return Message::Long,
                Filled::Failed => return Message::Failed,
            }
        }
        Message::Malformed(begun)
    }

    /// Skips all bytes at hand.
    fn skip_all(&mut self)
        ensures { self.new ≡ record { ahead = []; offset = taken self.old } }
    {
        self.offset += (self.end - self.start) as u64;
        self.start = 0;
        self.end = 0;
    }

    /// Asks the source for more bytes, as many as there is room for.
    fn fill<S: Source>(&mut self, source: &mut S) -> Filled
        requires { length self.old.ahead < HEAD_BYTES }
        ensures filled { IsFilled self.old result self.new }
        ensures kept { Keeps self.old (S.left source.old) result self.new (S.left source.new) }
        ensures bounds { KeepsBounds self.new (S.faults source.old) (S.faults source.new) }
        ensures cause { HasFault (S.faults source.old) (S.faults source.new) result }
        ensures ended { KeepsEnds (S.ends source.old) (S.ends source.new) result }
    {
        let held = self.end - self.start;
        let left = STREAM_BYTES - self.offset - held as u64;
        if left == 0 {
            return Filled::Long;
        }
        self.start = make_room(&mut self.block, self.start, self.end);
        self.end = self.start + held;
        let room = (BLOCK_BYTES - self.end).min(left as usize);
        match take_behind(&mut self.block, self.end, room, source) {
            Took::Bytes(count) => {
                self.end += count;
                Filled::More
            }
            Took::End => Filled::End,
            Took::Failed => Filled::Failed,
        }
    }
}

/// Moves the bytes that are held to the block's front where little room is behind them, and tells where they
/// begin then.
fn make_room(block: &mut [u8], start: usize, end: usize) -> usize
    requires full { length block.old ≡ BLOCK_BYTES }
    requires ordered { start ≤ end }
    requires within { end ≤ BLOCK_BYTES }
    requires short { end - start < HEAD_BYTES }
    ensures room { result + (end - start) + HEAD_BYTES ≤ BLOCK_BYTES }
    ensures held { slice_range block.new result (result + (end - start)) ≡ slice_range block.old start end }
{
    if start < end && BLOCK_BYTES - end >= HEAD_BYTES {
        return start;
    }
    block.copy_within(start..end, 0);
    0
}

/// Takes bytes from the source into the room behind the first `end` bytes of the block.
fn take_behind<S: Source>(block: &mut [u8], end: usize, room: usize, source: &mut S) -> Took
    requires room { 0 < room }
    requires within { end + room ≤ length block.old }
    ensures front { take end block.new ≡ take end block.old }
    ensures within { IsTakenWithin room result }
    ensures taken { Takes (S.left source.old) (drop end block.new) (S.left source.new) result }
    ensures counted { S.faults source.old ≤ S.faults source.new }
    ensures cause { sources.HasCause (S.faults source.old) (S.faults source.new) result }
    ensures ended { IsEndCounted (S.ends source.old) (S.ends source.new) result }
{
    source.take(&mut block[end..end + room])
}

/// What came of asking the source.
#[derive(Drop)]
pub(crate) enum Filled {
    /// At least one byte more is at hand.
    More,
    /// The stream is at its end.
    End,
    /// As many bytes were taken as a stream may have.
    Long,
    /// The source failed.
    Failed,
}
