//! A sink in memory, which tells all that it was given, takes it in pieces and fails on command.
ghost use Rattle.std.specs.Prelude.{◌≡◌, ℕ, ◌<◌, ◌≤◌, length, [], Some};
ghost use Rattle.devices.specs.Failures.{untouched};
ghost use Rattle.devices.specs.Memory.{Store, PutsOnCommand};
ghost use Rattle.devices.specs.Sinks.{IsPutWithin, with_put, HasCause};

use crate::{Failures, Put, Sink};
use std::alloc::Global;
use std::marker::Model;

/// Bytes that are written to memory. Want of memory for them is a fault.
#[derive(Drop)]
pub struct MemorySink {
    bytes: Vec<u8>,
    piece: usize,
    failures: Failures,
}

impl Model for MemorySink {
    ghost Value = { Store };

    ghost view = { λ s. record { written = s.bytes.items; counts = s.failures } };

    ghost invariant = { λ s. 0 < s.piece };
}

impl MemorySink {
    /// An empty sink. The calls with these numbers, counted from 1, fail; the others take at most `piece`
    /// bytes each.
    pub fn new(alloc: Global, failing: Vec<u64>, piece: usize) -> Self
        requires { 0 < piece }
        ensures written { result.written ≡ [] }
        ensures counts { result.counts ≡ untouched failing.items }
    {
        MemorySink {
            bytes: Vec::new(alloc),
            piece,
            failures: Failures::new(failing),
        }
    }

    /// What was written.
    pub fn bytes(&self) -> &[u8]
        ensures { result.now ≡ self.now.written }
    {
        &self.bytes
    }

    /// How often `put` was called.
    pub fn calls(&self) -> u64
        ensures { result ≡ self.now.counts.calls }
    {
        self.failures.calls()
    }

    /// How many faults there were.
    pub fn fault_count(&self) -> u64
        ensures { result ≡ self.now.counts.faults }
    {
        self.failures.faults()
    }
}

impl Sink for MemorySink {
    ghost written = { λ s. Some s.written };

    ghost faults = { λ s. s.counts.faults };

    fn put(&mut self, bytes: &[u8]) -> Put
        requires { 0 < length bytes.now }
        ensures within { IsPutWithin (length bytes.now) result }
        ensures appended { self.new.written ≡ with_put self.old.written bytes.now result }
        ensures counted { self.old.counts.faults ≤ self.new.counts.faults }
        ensures cause { HasCause self.old.counts.faults self.new.counts.faults result }
        ensures on_command { PutsOnCommand self.old.counts result self.new.counts }
    {
        if self.failures.fails_next() {
            return Put::Failed;
        }
        let count = self.piece.min(bytes.len());
        if self.bytes.extend_from_slice(&bytes[..count]).is_err() {
            self.failures.count_fault();
            return Put::Failed;
        }
        Put::Bytes(count)
    }
}
