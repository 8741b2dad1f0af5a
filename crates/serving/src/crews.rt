//! Workers beside sessions, each in a thread where one can be started.

ghost use Rattle.std.specs.Prelude.{◌≡◌, ◌+◌, ◌<◌, All, IfErr, IfOk, IfSome, vec_len};
ghost use Rattle.serving.specs.Crews.{AreJoined, IsCrew, IsDue, IsEmployed, IsJoined, IsOutcome, IsRoom, seen_before};
ghost use Rattle.shared_office.specs.Passing.{IsOf, PassTo};
ghost use Rattle.turnstile.specs.Passes.{seen, share, tally};
ghost use Rattle.workers.specs.Work.{IsWork};

use crate::sending::a_register_may_be_sent;
use devices::{Disk, Gate, Spawner, Started, Task, start};
use shared_office::Shared;
use std::alloc::Global;
use std::snapshot::Snapshot;
use std::sync::atomic::{AtomicBool, Ordering};
use std::sync::{Arc, Wait};
use std::thread::{Promise, Threads};
use std::time::Clock;
use turnstile::{Pass, Turnstile};
use workers::{WorkerEnd, worker};

/// What came of a worker's task.
#[derive(Drop)]
pub enum Outcome<D: Disk, G> {
    /// It worked to its end.
    Ended(Pass<Shared<D>>, WorkerEnd),
    /// It was handed back before it began, with its pass and its gate.
    Unstarted(Pass<Shared<D>>, G),
}

/// What a worker promises to come to: its work is that of this pass of this lock. It takes no bytes.
#[derive(Drop)]
pub struct Employed<D: Disk> {
    lock: Snapshot<Turnstile<Shared<D>>>,
    given: Snapshot<Pass<Shared<D>>>,
}

impl<D: Disk, G> Promise<Outcome<D, G>> for Employed<D> {
    ghost use Rattle.serving.specs.Crews.{IsOutcome};

    ghost kept_by = { λ p outcome. IsOutcome p.lock.value p.given.value outcome };
}

/// What a worker needs of its own: the lock, and the sign of being handed back, as its thread sees it and as it is set.
#[derive(Drop)]
struct Hand<D: Disk> {
    lock: Arc<Turnstile<Shared<D>>>,
    handed_back: Arc<AtomicBool>,
    sign: Arc<AtomicBool>,
}

/// Room for workers that are to be started.
#[derive(Drop)]
pub struct Room<D: Disk, G: Drop> {
    hands: Vec<Hand<D>>,
    tasks: Vec<Task<Outcome<D, G>, Employed<D>>>,
    kept: Vec<Outcome<D, G>>,
}

/// Workers that were to be started: those that run in threads, and those that were handed back, with the pass as it was when they were
/// started. It takes no bytes.
#[derive(Drop)]
pub struct Crew<D: Disk, G: Drop> {
    begun: Snapshot<Pass<Shared<D>>>,
    tasks: Vec<Task<Outcome<D, G>, Employed<D>>>,
    kept: Vec<Outcome<D, G>>,
}

/// What one worker needs of its own.
fn one_hand<D: Disk + Drop>(alloc: Global, lock: &Arc<Turnstile<Shared<D>>>) -> Option<Hand<D>>
    ensures { IfSome result (λ h. h.lock.value ≡ lock.now.value) }
{
    let sign = Arc::new(alloc, AtomicBool::new(false)).ok()?;
    let handed_back = sign.clone().ok()?;
    let lock = lock.clone().ok()?;
    Some(Hand {
        lock,
        handed_back,
        sign,
    })
}

/// What so many workers need of their own.
fn all_hands<D: Disk + Drop>(
    alloc: Global,
    lock: &Arc<Turnstile<Shared<D>>>,
    count: u32,
) -> Option<Vec<Hand<D>>>
    ensures { IfSome result (λ v. (vec_len v ≡ count) × All (λ h. h.lock.value ≡ lock.now.value) v.items) }
{
    let mut all = Vec::new(alloc);
    for _made in 0..count {
        let Some(one) = one_hand(alloc, lock) else {
            return None;
        };
        if all.push(one).is_err() {
            return None;
        }
    }
    Some(all)
}

impl<D: Disk + Drop, G: Drop> Room<D, G> {
    /// Room for so many workers. `None` where there is no memory for it.
    pub fn new(alloc: Global, lock: &Arc<Turnstile<Shared<D>>>, workers: u32) -> Option<Room<D, G>>
        ensures { IfSome result (IsRoom lock.now.value workers) }
    {
        let mut tasks = Vec::new(alloc);
        if tasks.reserve(workers as usize).is_err() {
            return None;
        }
        let mut kept = Vec::new(alloc);
        if kept.reserve(workers as usize).is_err() {
            return None;
        }
        let Some(hands) = all_hands(alloc, lock, workers) else {
            return None;
        };
        Some(Room { hands, tasks, kept })
    }
}

/// Works with a pass, unless the work was handed back before.
fn work_owned<R: Wait + Clock + Drop, D: Disk + Drop, G: Gate + Drop>(
    rt: R,
    lock: Arc<Turnstile<Shared<D>>>,
    pass: Pass<Shared<D>>,
    gate: G,
    handed_back: Arc<AtomicBool>,
) -> Outcome<D, G>
    requires { IsOf lock.value pass }
    ensures { IsOutcome lock.value pass result }
{
    if handed_back.load(Ordering::SeqCst) {
        return Outcome::Unstarted(pass, gate);
    }
    let (pass, end) = worker(&rt, &lock, pass, &gate);
    Outcome::Ended(pass, end)
}

/// Starts a worker in a thread. One that is handed back says so, and has not begun.
fn begin<
    R: Threads + Wait + Clock + Copy + Drop + Send + 'static,
    D: Disk + Drop + Send + 'static,
    G: Gate + Drop + Send + 'static,
    P: Spawner,
>(
    rt: R,
    hand: Hand<D>,
    pass: Pass<Shared<D>>,
    gate: G,
    spawner: &mut P,
) -> Result<Task<Outcome<D, G>, Employed<D>>, Outcome<D, G>>
    requires { IsOf hand.lock.value pass }
    ensures running { IfOk result (λ task. (task.running.promise.lock.value ≡ hand.lock.value) × (task.running.promise.given.value ≡ pass)) }
    ensures done { IfErr result (IsOutcome hand.lock.value pass) }
{
    let Hand {
        lock,
        handed_back,
        sign,
    } = hand;
    let promise = Employed {
        lock: Snapshot::of(&*lock),
        given: Snapshot::of(&pass),
    };
    // this runs nothing: it tells the proof that what the lock keeps may go to another thread
    a_register_may_be_sent();
    let work = move || -> Outcome<D, G>
        requires { IsOf lock.value pass }
        ensures { IsOutcome lock.value pass result }
    { work_owned(rt, lock, pass, gate, handed_back) };
    match start(spawner, &rt, promise, work) {
        Started::Running(task) => Ok(task),
        Started::Back(work) => {
            sign.store(true, Ordering::SeqCst);
            Err(work())
        }
    }
}

/// Starts the workers that there is room for, each with a pass that is split off. One that is handed back is kept.
pub fn start_workers<
    R: Threads + Wait + Clock + Copy + Drop + Send + 'static,
    D: Disk + Drop + Send + 'static,
    G: Gate + Drop + Send + 'static,
    P: Spawner,
>(
    rt: R,
    lock: &Turnstile<Shared<D>>,
    room: Room<D, G>,
    given: Pass<Shared<D>>,
    gate: &G,
    spawner: &mut P,
    workers: u32,
) -> (Pass<Shared<D>>, Crew<D, G>)
    requires pass { IsOf lock.now given }
    requires room { IsRoom lock.now workers room }
    requires share { workers < share given }
    ensures pass { IsOf lock.now result.0 }
    ensures crew { IsCrew lock.now workers result.1 }
    ensures begun { seen_before result.1 ≡ seen given }
    ensures share { share result.0 + workers ≡ share given }
    ensures same { (seen result.0 ≡ seen given) × (tally result.0 ≡ tally given) }
{
    let Room {
        hands,
        mut tasks,
        mut kept,
    } = room;
    let begun = Snapshot::of(&given);
    let mut pass = given;
    for hand in hands {
        let (mine, other) = lock.split(pass);
        pass = mine;
        match begin(rt, hand, other, gate.again(), spawner) {
            Ok(task) => tasks.push_reserved(task),
            Err(outcome) => kept.push_reserved(outcome),
        }
    }
    (pass, Crew { begun, tasks, kept })
}

/// What a worker came to: one that was handed back works now.
fn worked<R: Wait + Clock, D: Disk, G: Gate + Drop>(
    rt: &R,
    lock: &Turnstile<Shared<D>>,
    begun: &Snapshot<Pass<Shared<D>>>,
    outcome: Outcome<D, G>,
) -> (Pass<Shared<D>>, WorkerEnd)
    requires { IsDue lock.now (seen begun.now.value) outcome }
    ensures pass { IsOf lock.now result.0 }
    ensures worked { (given : PassTo D D.Disk) → IsOutcome lock.now given outcome → IsWork lock.now given result.0 result.1 }
{
    match outcome {
        Outcome::Ended(pass, end) => (pass, end),
        Outcome::Unstarted(pass, gate) => worker(rt, lock, pass, &gate),
    }
}

/// Ends a worker, and joins its pass.
fn end_and_join<R: Wait + Clock, D: Disk, G: Gate + Drop>(
    rt: &R,
    lock: &Turnstile<Shared<D>>,
    begun: &Snapshot<Pass<Shared<D>>>,
    pass: Pass<Shared<D>>,
    outcome: Outcome<D, G>,
) -> Pass<Shared<D>>
    requires pass { IsOf lock.now pass }
    requires outcome { IsDue lock.now (seen begun.now.value) outcome }
    ensures pass { IsOf lock.now result }
    ensures joined { IsJoined lock.now (seen begun.now.value) pass result }
{
    let (other, _) = worked(rt, lock, begun, outcome);
    lock.join(pass, other)
}

/// Works with the passes of the workers that were handed back, one after another, and joins them.
fn end_kept<R: Wait + Clock, D: Disk, G: Gate + Drop>(
    rt: &R,
    lock: &Turnstile<Shared<D>>,
    begun: &Snapshot<Pass<Shared<D>>>,
    given: Pass<Shared<D>>,
    kept: Vec<Outcome<D, G>>,
) -> Pass<Shared<D>>
    requires pass { IsOf lock.now given }
    requires kept { All (IsDue lock.now (seen begun.now.value)) kept.items }
    ensures pass { IsOf lock.now result }
    ensures joined { AreJoined lock.now (seen begun.now.value) given result (vec_len kept) }
{
    let mut pass = given;
    for outcome in kept {
        pass = end_and_join(rt, lock, begun, pass, outcome);
    }
    pass
}

/// Takes in the workers that run in threads, and joins their passes.
fn take_in<R: Threads + Wait + Clock, D: Disk, G: Gate + Drop>(
    rt: &R,
    lock: &Turnstile<Shared<D>>,
    begun: &Snapshot<Pass<Shared<D>>>,
    given: Pass<Shared<D>>,
    tasks: Vec<Task<Outcome<D, G>, Employed<D>>>,
) -> Pass<Shared<D>>
    requires pass { IsOf lock.now given }
    requires tasks { All (IsEmployed lock.now (seen begun.now.value)) tasks.items }
    ensures pass { IsOf lock.now result }
    ensures joined { AreJoined lock.now (seen begun.now.value) given result (vec_len tasks) }
{
    let mut pass = given;
    for task in tasks {
        pass = end_and_join(rt, lock, begun, pass, task.wait(rt));
    }
    pass
}

/// Ends the workers, and joins their passes: those that were handed back work one after another, and then the others are waited for. Each
/// ends where no further edit will be asked for, which has to be told before.
pub fn finish_workers<R: Threads + Wait + Clock, D: Disk, G: Gate + Drop>(
    rt: &R,
    lock: &Turnstile<Shared<D>>,
    pass: Pass<Shared<D>>,
    crew: Crew<D, G>,
    workers: u32,
) -> Pass<Shared<D>>
    requires pass { IsOf lock.now pass }
    requires crew { IsCrew lock.now workers crew }
    ensures pass { IsOf lock.now result }
    ensures joined { AreJoined lock.now (seen_before crew) pass result workers }
{
    let Crew { begun, tasks, kept } = crew;
    let pass = end_kept(rt, lock, &begun, pass, kept);
    take_in(rt, lock, &begun, pass, tasks)
}
