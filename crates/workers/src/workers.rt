//! A worker's loop.

ghost use Rattle.std.specs.Prelude.{◌≡◌, ◌≤◌, ℕ, length};
ghost use Rattle.shared_office.specs.Passing.{IsOf, fixed_in};
ghost use Rattle.shared_office.specs.Working.{IsDrained};
ghost use Rattle.turnstile.specs.Passes.{seen};
ghost use Rattle.workers.specs.Work.{IsMore, IsWork};

use devices::{Disk, Gate};
use fixed_units::NoMemory;
use recompute::{Done, Publish};
use shared_office::holdings::{find, publish};
use shared_office::{Found, Shared, compute};
use std::sync::Wait;
use std::thread;
use std::time::{Clock, Duration};
use turnstile::{Pass, Turnstile};

/// How long a worker rests that found nothing to do, in milliseconds.
const REST_MILLIS: u64 = 2;

/// How a worker ended, with how many days it published.
#[derive(Clone, Copy, Debug, PartialEq, Eq)]
pub enum WorkerEnd {
    /// The end was told, and no day was pending.
    Drained(u64),
    /// There was no memory for a job.
    NoMemory(u64),
}

/// Claims days of the office behind a lock, passes the gate with each, computes it while the lock is free, and publishes it, until
/// the end was told and no day is pending, or there is no memory for a job. Where there is nothing to do for now it rests for two
/// milliseconds. The pass that comes back has the share of the given one.
pub fn worker<R: Wait + Clock, D: Disk, G: Gate>(
    rt: &R,
    lock: &Turnstile<Shared<D>>,
    given: Pass<Shared<D>>,
    gate: &G,
) -> (Pass<Shared<D>>, WorkerEnd)
    requires { IsOf lock.now given }
    ensures pass { IsOf lock.now result.0 }
    ensures worked { IsWork lock.now given result.0 result.1 }
    ensures drained { (count : ℕ) → result.1 ≡ WorkerEnd.Drained count → IsDrained (fixed_in lock.now) (seen result.0) }
{
    let mut pass = given;
    let mut published = 0;
    for _ in rt.forever() {
        let (next, found) = find(rt, lock, pass);
        match found {
            Ok(Found::Job(job)) => {
                gate.pass(job.site(), job.day());
                let (next, count) = publish_more(rt, lock, next, compute(job), published);
                pass = next;
                published = count;
            }
            Ok(Found::Nothing) => {
                thread::sleep(rt, Duration::from_millis(REST_MILLIS));
                pass = next;
            }
            Ok(Found::Drained) => return (next, WorkerEnd::Drained(published)),
            Err(NoMemory) => return (next, WorkerEnd::NoMemory(published)),
        }
    }
    unreachable!()
}

/// Publishes a day, and tells how many were published then.
fn publish_more<R: Wait, D: Disk>(
    rt: &R,
    lock: &Turnstile<Shared<D>>,
    pass: Pass<Shared<D>>,
    done: Done,
    published: u64,
) -> (Pass<Shared<D>>, u64)
    requires pass { IsOf lock.now pass }
    requires few { published ≤ length (seen pass) }
    ensures pass { IsOf lock.now result.0 }
    ensures held { IsMore lock.now pass published result.0 result.1 }
    ensures few { result.1 ≤ length (seen result.0) }
{
    let (back, told, _) = publish(rt, lock, pass, done);
    match told {
        Publish::Published => (back, published + 1),
        Publish::Settled | Publish::Superseded(_) | Publish::Foreign => (back, published),
    }
}
