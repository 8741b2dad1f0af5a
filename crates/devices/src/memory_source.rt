//! A source in memory, which tells all that it has left, gives it in pieces and fails on command.
ghost use Rattle.std.specs.Prelude.{◌≡◌, ℕ, ◌<◌, ◌≤◌, length, drop, Some};
ghost use Rattle.devices.specs.Failures.{untouched};
ghost use Rattle.devices.specs.Memory.{Supply, TakesOnCommand};
ghost use Rattle.devices.specs.Sources.{IsTakenWithin, TakesFrom, HasCause, IsEndCounted};

use crate::{Failures, Source, Took};
use std::marker::Model;

/// Bytes that are read from memory.
#[derive(Drop)]
pub struct MemorySource {
    bytes: Vec<u8>,
    position: usize,
    piece: usize,
    ends: u64,
    failures: Failures,
}

impl Model for MemorySource {
    ghost Value = { Supply };

    ghost view = { λ s. record { left = drop s.position s.bytes.items; ends = s.ends; counts = s.failures } };

    ghost invariant = { λ s. (s.position ≤ length s.bytes.items) × (0 < s.piece) };
}

impl MemorySource {
    /// A source of these bytes. The calls with these numbers, counted from 1, fail; the others give at most
    /// `piece` bytes each.
    pub fn new(bytes: Vec<u8>, failing: Vec<u64>, piece: usize) -> Self
        requires { 0 < piece }
        ensures left { result.left ≡ bytes.items }
        ensures ends { result.ends ≡ 0 }
        ensures counts { result.counts ≡ untouched failing.items }
    {
        MemorySource {
            bytes,
            position: 0,
            piece,
            ends: 0,
            failures: Failures::new(failing),
        }
    }

    fn rest(&self) -> &[u8]
        ensures { result.now ≡ self.now.left }
    {
        &self.bytes[self.position..]
    }

    /// How often `take` was called.
    pub fn calls(&self) -> u64
        ensures { result ≡ self.now.counts.calls }
    {
        self.failures.calls()
    }

    /// How often it was found at its end.
    pub fn end_count(&self) -> u64
        ensures { result ≡ self.now.ends }
    {
        self.ends
    }

    /// How many faults there were.
    pub fn fault_count(&self) -> u64
        ensures { result ≡ self.now.counts.faults }
    {
        self.failures.faults()
    }
}

impl Source for MemorySource {
    ghost left = { λ s. Some s.left };

    ghost faults = { λ s. s.counts.faults };

    ghost ends = { λ s. s.ends };

    fn take(&mut self, into: &mut [u8]) -> Took
        requires { 0 < length into.old }
        ensures within { IsTakenWithin (length into.old) result }
        ensures taken { TakesFrom self.old.left into.new self.new.left result }
        ensures counted { self.old.counts.faults ≤ self.new.counts.faults }
        ensures cause { HasCause self.old.counts.faults self.new.counts.faults result }
        ensures ended { IsEndCounted self.old.ends self.new.ends result }
        ensures on_command { TakesOnCommand self.old.counts result self.new.counts }
    {
        if self.failures.fails_next() {
            return Took::Failed;
        }
        let rest = self.rest();
        if rest.is_empty() {
            self.ends = self.ends.saturating_add(1);
            return Took::End;
        }
        let count = self.piece.min(into.len()).min(rest.len());
        into[..count].copy_from_slice(&rest[..count]);
        self.position += count;
        Took::Bytes(count)
    }
}
