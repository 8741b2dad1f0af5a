//! Failing on command: which calls of an object in memory are to fail, and how many calls and faults it had.
ghost use Rattle.std.specs.Prelude.{◌≡◌, ◌≤◌, ◌↔◌, if◌then◌else◌, IsTrue};
ghost use Rattle.devices.specs.Failures.{Counts, Fails, with_call, with_fault, without_faults, untouched};

use std::marker::Model;

/// The numbers of the calls that are to fail, counted from 1, with the calls and the faults so far.
/// Both counts stand still at the end of their type.
#[derive(Drop)]
pub struct Failures {
    failing: Vec<u64>,
    calls: u64,
    faults: u64,
}

impl Model for Failures {
    ghost Value = { Counts };

    ghost view = { λ f. record { failing = f.failing.items; calls = f.calls; faults = f.faults } };
}

impl Failures {
    /// No call so far, and these are to fail.
    pub fn new(failing: Vec<u64>) -> Self
        ensures { result ≡ untouched failing.items }
    {
        Failures {
            failing,
            calls: 0,
            faults: 0,
        }
    }

    /// Counts a call, and tells whether it is to fail. If so, that is a fault.
    pub fn fails_next(&mut self) -> bool
        ensures told { IsTrue result ↔ Fails self.old }
        ensures counted { self.new ≡ (if result then with_fault (with_call self.old) else with_call self.old) }
        ensures later { self.old.faults ≤ self.new.faults }
    {
        self.calls = self.calls.saturating_add(1);
        let fails = self.failing.contains(&self.calls);
        if fails {
            self.count_fault();
        }
        fails
    }

    /// Counts a fault that was not commanded, as want of memory.
    pub fn count_fault(&mut self)
        ensures counted { self.new ≡ with_fault self.old }
        ensures later { self.old.faults ≤ self.new.faults }
    {
        self.faults = self.faults.saturating_add(1);
    }

    /// Counts a fault if there was one.
    pub(crate) fn count_fault_if(&mut self, failed: bool)
        ensures { self.new ≡ (if failed then with_fault self.old else self.old) }
    {
        if failed {
            self.count_fault();
        }
    }

    /// Begins the count of faults anew. The calls go on being counted.
    pub(crate) fn forget_faults(&mut self)
        ensures { self.new ≡ without_faults self.old }
    {
        self.faults = 0;
    }

    /// How many calls there were.
    pub fn calls(&self) -> u64
        ensures { result ≡ self.now.calls }
    {
        self.calls
    }

    /// How many faults there were.
    pub fn faults(&self) -> u64
        ensures { result ≡ self.now.faults }
    {
        self.faults
    }
}
