//! What is done in one holding of the lock: the office is taken, one thing is done to it, and it is given back.

ghost use Rattle.std.specs.Prelude.{◌≡◌, ◌<◌, ◌^◌, [], List, length, Ok, IfOk};
ghost use Rattle.history.specs.Awaited.{pending_days};
ghost use Rattle.office.specs.Steps.{APublication};
ghost use Rattle.register.specs.Asked.{outcome_at};
ghost use Rattle.shared_office.specs.Finding.{IsLooked, published_by};
ghost use Rattle.shared_office.specs.Passing.{GoesOnce, IsOf, adding, fixed_in, history_in, telling_end};
ghost use Rattle.shared_office.specs.Working.{IsDrained, IsFound, IsTask};
ghost use Rattle.shared_office.specs.declared.entries.Entry.{Entry};
ghost use Rattle.turnstile.specs.Passes.{seen};

use crate::shared::{Found, Looked, Shared};
use devices::Disk;
use fixed_units::{Day, NoMemory, Site};
use recompute::{Done, Publish};
use std::sync::Wait;
use turnstile::{Kept, Pass, Turnstile};

/// Looks for what there is to do for a worker.
pub fn find<R: Wait, D: Disk>(
    rt: &R,
    lock: &Turnstile<Shared<D>>,
    pass: Pass<Shared<D>>,
) -> (Pass<Shared<D>>, Result<Found, NoMemory>)
    requires { IsOf lock.now pass }
    ensures pass { IsOf lock.now result.0 }
    ensures held { (from : List Entry) × GoesOnce pass result.0 (adding from []) × (task : IsTask lock.now (adding from [])) × IsFound task result.1 }
    ensures drained { result.1 ≡ Ok Found.Drained → IsDrained (fixed_in lock.now) (seen result.0) }
{
    let mut held = lock.enter(rt, pass);
    let found = held.value_mut().find();
    (lock.leave(held), found)
}

/// Looks for the first pending day after `last`, or of all, and tells how many days are pending.
pub fn look<R: Wait, D: Disk>(
    rt: &R,
    lock: &Turnstile<Shared<D>>,
    pass: Pass<Shared<D>>,
    last: Option<(Site, Day)>,
) -> (Pass<Shared<D>>, Result<Looked, NoMemory>)
    requires { IsOf lock.now pass }
    ensures pass { IsOf lock.now result.0 }
    ensures held { (from : List Entry) × GoesOnce pass result.0 (adding from []) × IfOk result.1 (IsLooked (history_in lock.now from) last) }
{
    let held = lock.enter(rt, pass);
    let looked = held.value().look(last);
    (lock.leave(held), looked)
}

/// Publishes a value where its day still awaits the job's edit, and tells how many days are pending then. The list then has fewer than
/// 2^64 entries, as it always has.
pub fn publish<R: Wait, D: Disk>(
    rt: &R,
    lock: &Turnstile<Shared<D>>,
    pass: Pass<Shared<D>>,
    done: Done,
) -> (Pass<Shared<D>>, Publish, u64)
    requires { IsOf lock.now pass }
    ensures pass { IsOf lock.now result.0 }
    ensures held { (from : List Entry) × GoesOnce pass result.0 (adding from (published_by result.1 done.job))
        × (task : IsTask lock.now (adding from (published_by result.1 done.job)))
        × (result.1 ≡ outcome_at (history_in lock.now from).events done.job) × (task.step ≡ APublication done.job result.1) }
    ensures pending { result.2 ≡ length (pending_days (history_in lock.now (seen result.0)).events) }
    ensures few { length (seen result.0) < 2 ^ 64 }
{
    let mut held = lock.enter(rt, pass);
    let told = held.value_mut().publish(done);
    let pending = held.value().office.pending();
    // this tells the proof that the entries of the list can be counted
    let _entries = held.value().events();
    (lock.leave(held), told, pending)
}

/// Tells that no further edit will be asked for, where that was not told yet.
pub fn end<R: Wait, D: Disk>(
    rt: &R,
    lock: &Turnstile<Shared<D>>,
    pass: Pass<Shared<D>>,
) -> Pass<Shared<D>>
    requires { IsOf lock.now pass }
    ensures pass { IsOf lock.now result }
    ensures held { (from : List Entry) × GoesOnce pass result (telling_end from) }
{
    let mut held = lock.enter(rt, pass);
    held.value_mut().end();
    lock.leave(held)
}
