//! What starts threads, or hands the work back.

ghost use Rattle.std.specs.Prelude.{◌≡◌, ◌≤◌, ℕ, false};
ghost use Rattle.devices.specs.Faults.{Rose};
ghost use Rattle.devices.specs.Started.{HasCause, IsStarted};

use std::thread;
use std::thread::{Promise, PromisedHandle, Threads};

/// Work that runs in a thread of its own, under a promise. Where a task is dropped its thread runs on, and nobody waits for it.
#[derive(Drop)]
pub struct Task<O: Drop, P: Promise<O>> {
    running: PromisedHandle<O, P>,
}

impl<O: Drop, P: Promise<O>> Task<O, P> {
    /// Waits for the end of the work, and gives its result, which meets the promise. It waits as long as the work runs.
    pub fn wait<R: Threads>(self, rt: &R) -> O
        ensures { P.kept_by self.running.promise result }
    {
        self.running.join(rt)
    }
}

/// What became of work that was to be started.
pub enum Started<O: Drop, P: Promise<O>, F> {
    /// It runs in a thread of its own.
    Running(Task<O, P>),
    /// It was not started and is handed back, to be called by whoever wanted it done.
    Back(F),
}

/// What lets threads start. Its count of faults is that of the threads that did not start.
pub trait Spawner {
    /// How many faults there were. The count never falls and stands still at the end of a `u64`.
    ghost faults: { Self → ℕ };

    /// Whether a thread may start. Where it may not, that is counted as a fault.
    fn lets(&mut self) -> bool
        ensures counted { faults self.old ≤ faults self.new }
        ensures cause { HasCause (faults self.old) (faults self.new) result };

    /// Counts a thread that the system refused.
    fn count_refusal(&mut self)
        ensures counted { faults self.old ≤ faults self.new }
        ensures cause { Rose (faults self.old) (faults self.new) };
}

/// Starts work in a thread of its own, which is to keep the promise. Where the spawner lets no thread start, or the system
/// refuses it, that is one fault of the spawner, and the very work is handed back.
pub fn start<
    S: Spawner,
    R: Threads,
    O: Send + Drop + 'static,
    P: Promise<O> + Drop,
    F: FnOnce() -> O + Send + 'static,
>(spawner: &mut S, rt: &R, promise: P, work: F) -> Started<O, P, F>
    requires runs { F.pre work }
    requires keeps { (output : O) → F.post work output → P.kept_by promise output }
    ensures { IsStarted promise work (S.faults spawner.old) (S.faults spawner.new) result }
{
    if !spawner.lets() {
        return Started::Back(work);
    }
    match thread::spawn_with(rt, promise, work) {
        Ok(running) => Started::Running(Task { running }),
        Err(refused) => {
            spawner.count_refusal();
            Started::Back(refused.value)
        }
    }
}

/// The system's threads. Its faults are the threads that the system refused.
#[derive(Drop)]
pub struct ThreadSpawner {
    faults: u64,
}

impl ThreadSpawner {
    /// A spawner with no fault so far.
    pub fn new() -> Self
        ensures { result.faults ≡ 0 }
    {
        ThreadSpawner { faults: 0 }
    }

    /// How many threads the system refused. The count stops at the end of a `u64`.
    pub fn fault_count(&self) -> u64
        ensures { result ≡ self.now.faults }
    {
        self.faults
    }
}

impl Spawner for ThreadSpawner {
    ghost faults = { λ s. s.faults };

    fn lets(&mut self) -> bool {
        true
    }

    fn count_refusal(&mut self) {
        self.faults = self.faults.saturating_add(1);
    }
}

/// Starts nothing: all work is handed back, and each time is a fault.
#[derive(Drop)]
pub struct HandsBack {
    faults: u64,
}

impl HandsBack {
    /// A spawner with no fault so far.
    pub fn new() -> Self
        ensures { result.faults ≡ 0 }
    {
        HandsBack { faults: 0 }
    }

    /// How often work was handed back. The count stops at the end of a `u64`.
    pub fn fault_count(&self) -> u64
        ensures { result ≡ self.now.faults }
    {
        self.faults
    }
}

impl Spawner for HandsBack {
    ghost faults = { λ s. s.faults };

    fn lets(&mut self) -> bool
        ensures counted { self.old.faults ≤ self.new.faults }
        ensures cause { HasCause self.old.faults self.new.faults result }
        ensures never { result ≡ false }
    {
        self.count_refusal();
        false
    }

    fn count_refusal(&mut self) {
        self.faults = self.faults.saturating_add(1);
    }
}
