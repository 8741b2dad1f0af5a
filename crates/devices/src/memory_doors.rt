//! Doors in memory, which tell all of each connection, keep both of its ends, and fail on command.

ghost use Rattle.std.specs.Prelude.{◌≡◌, ℕ, ◌<◌, ◌≤◌, ◌++◌, ◌∷◌, [], true, false, length, vec_len, None, Some, IfSome, MatchOption, OnOk, OnErr};
ghost use Rattle.devices.specs.Doors.{HasCause, IsBack, IsNext, Stay, back_under, none_back};
ghost use Rattle.devices.specs.Failures.{untouched};
ghost use Rattle.devices.specs.Faults.{Rose};
ghost use Rattle.devices.specs.MemoryDoors.{IsFirst, ListensOnCommand, OpensOnCommand, all_told, given_at, taken_back_at, told_in_memory};

use crate::{DoorFailed, Doors, Failures, MemorySink, MemorySource, Next, Sink, Source};
use std::alloc::{AllocError, Global};
use std::collections::VecDeque;
use std::snapshot::Snapshot;

/// The two ends of a connection in memory.
#[derive(Drop)]
pub struct MemoryEnds {
    /// What comes in.
    pub input: MemorySource,
    /// What goes out.
    pub output: MemorySink,
}

// What is kept of a connection that was given: how its ends were then, and its ends once they are taken back.
#[derive(Drop)]
struct MemoryPlace {
    given: Snapshot<MemoryEnds>,
    back: Option<MemoryEnds>,
}

/// Connections in memory, which wait to be given in their order. Want of memory for the place of a connection is a fault,
/// and so is the wish for a connection where none waits.
#[derive(Drop)]
pub struct MemoryDoors {
    waiting: VecDeque<MemoryEnds>,
    places: Vec<MemoryPlace>,
    listening: bool,
    failures: Failures,
}

impl MemoryDoors {
    /// Doors at which no connection waits. The calls of `listen` and `next` with these numbers, counted from 1 over both,
    /// fail.
    pub fn new(alloc: Global, failing: Vec<u64>) -> Self
        ensures waiting { result.waiting.items ≡ [] }
        ensures places { result.places.items ≡ [] }
        ensures listening { result.listening ≡ false }
        ensures counts { result.failures ≡ untouched failing.items }
    {
        MemoryDoors {
            waiting: VecDeque::new(alloc),
            places: Vec::new(alloc),
            listening: false,
            failures: Failures::new(failing),
        }
    }

    /// Puts a connection behind those that wait.
    pub fn add(&mut self, ends: MemoryEnds) -> Result<(), AllocError>
        ensures waits { OnOk result (self.new.waiting.items ≡ self.old.waiting.items ++ ends ∷ []) }
        ensures same { OnErr result (self.new.waiting.items ≡ self.old.waiting.items) }
        ensures places { self.new.places ≡ self.old.places }
        ensures listening { self.new.listening ≡ self.old.listening }
        ensures counts { self.new.failures ≡ self.old.failures }
    {
        self.waiting.push_back(ends)?;
        Ok(())
    }

    /// The ends of the connection with this number, once it was taken back.
    pub fn ends(&self, number: u32) -> Option<&MemoryEnds>
        ensures { MatchOption result (back_under taken_back_at self.now.places.items number ≡ None) (λ ends. back_under taken_back_at self.now.places.items number ≡ Some (all_told ends.now)) }
    {
        let place = (number as usize).checked_sub(1)?;
        self.places.get(place)?.back.as_ref()
    }

    /// How many connections were given.
    pub fn given_count(&self) -> usize
        ensures { result ≡ length (told_in_memory self.now.places.items).given }
    {
        self.places.len()
    }

    /// How many faults there were.
    pub fn fault_count(&self) -> u64
        ensures { result ≡ self.now.failures.faults }
    {
        self.failures.faults()
    }

    // Gives the first of those that wait, and keeps a place for it.
    fn give(&mut self) -> Option<MemoryEnds>
        ensures given { MatchOption result
            ((self.new.waiting.items ≡ self.old.waiting.items) × (self.new.places.items ≡ self.old.places.items))
            (λ ends. (self.old.waiting.items ≡ ends ∷ self.new.waiting.items) × IsNext ⟦<MemorySource as Source>⟧ ⟦<MemorySink as Sink>⟧ (told_in_memory self.old.places.items) (Next.Open ends.input ends.output) (told_in_memory self.new.places.items)) }
        ensures listening { self.new.listening ≡ self.old.listening }
        ensures counts { self.new.failures ≡ self.old.failures }
    {
        self.places.reserve(1).ok()?;
        let ends = self.waiting.pop_front()?;
        self.places.push_reserved(MemoryPlace {
            given: Snapshot::of(&ends),
            back: None,
        });
        Some(ends)
    }
}

impl Doors for MemoryDoors {
    type In = MemorySource;

    type Out = MemorySink;

    type Back = MemoryEnds;

    ghost listens = { λ d. d.listening };

    ghost told = { λ d. told_in_memory d.places.items };

    ghost faults = { λ d. d.failures.faults };

    ghost ends = { all_told };

    ghost only_given = { λ d number behind. none_back given_at taken_back_at d.places.items number behind };

    fn listen(&mut self, _port: u16) -> Result<(), DoorFailed>
        ensures listens { OnOk result (self.new.listening ≡ true) }
        ensures same { OnErr result (self.new.listening ≡ self.old.listening) }
        ensures told { Stay (told_in_memory self.old.places.items) (told_in_memory self.new.places.items) }
        ensures counted { self.old.failures.faults ≤ self.new.failures.faults }
        ensures done { OnOk result (self.new.failures.faults ≡ self.old.failures.faults) }
        ensures cause { OnErr result (Rose self.old.failures.faults self.new.failures.faults) }
        ensures on_command { ListensOnCommand self.old.failures result self.new.failures }
        ensures waiting { self.new.waiting.items ≡ self.old.waiting.items }
    {
        if self.failures.fails_next() {
            return Err(DoorFailed);
        }
        self.listening = true;
        Ok(())
    }

    fn next(&mut self) -> Next<MemorySource, MemorySink>
        requires listens { self.old.listening ≡ true }
        requires few { length (told_in_memory self.old.places.items).given < 10000 }
        ensures given { IsNext ⟦<MemorySource as Source>⟧ ⟦<MemorySink as Sink>⟧ (told_in_memory self.old.places.items) result (told_in_memory self.new.places.items) }
        ensures listens { self.new.listening ≡ true }
        ensures counted { self.old.failures.faults ≤ self.new.failures.faults }
        ensures cause { HasCause self.old.failures.faults self.new.failures.faults result }
        ensures on_command { OpensOnCommand self.old.failures result self.new.failures }
        ensures first { IsFirst self.old.waiting.items result self.new.waiting.items }
    {
        if self.failures.fails_next() {
            return Next::Failed;
        }
        match self.give() {
            Some(ends) => Next::Open(ends.input, ends.output),
            None => {
                self.failures.count_fault();
                Next::Failed
            }
        }
    }

    fn finish(input: MemorySource, output: MemorySink) -> MemoryEnds
        ensures { result ≡ record { input = input; output = output } }
    {
        MemoryEnds { input, output }
    }

    fn take_back(&mut self, number: u32, back: MemoryEnds)
        requires first { 0 < number }
        requires given { number ≤ length (told_in_memory self.old.places.items).given }
        requires out { (told_in_memory self.old.places.items).back number ≡ None }
        ensures back { IsBack number (all_told back) (told_in_memory self.old.places.items) (told_in_memory self.new.places.items) }
        ensures listens { self.new.listening ≡ self.old.listening }
        ensures counts { self.new.failures ≡ self.old.failures }
        ensures waiting { self.new.waiting.items ≡ self.old.waiting.items }
    {
        self.places[number as usize - 1].back = Some(back);
    }
}
