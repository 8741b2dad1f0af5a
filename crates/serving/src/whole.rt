//! Connections served beside workers, from the first to the last.

ghost use Rattle.std.specs.Prelude.{◌≡◌, ◌≢◌, ◌^◌, ◌+◌, ◌<◌, ◌≤◌, All, IfSome, [], false, if◌then◌else◌, length, true, vec_capacity, vec_len};
ghost use mathlib.Core.List.{IsPrefix};
ghost use Rattle.devices.specs.Faults.{Rose};
ghost use Rattle.serving.specs.Crews.{IsCrew, IsRoom, seen_before};
ghost use Rattle.serving.specs.Serving.{IsServeEnd, ServedBeside};
ghost use Rattle.shared_office.specs.Entries.{has_ended};
ghost use Rattle.shared_office.specs.Passing.{IsOf};
ghost use Rattle.turnstile.specs.Passes.{seen, share, tally};

use crate::accepting::take_connections;
use crate::connections::Connection;
use crate::crews::{Crew, Room, finish_workers, start_workers};
use crate::taking::take_in_all;
use devices::{Disk, Doors, Gate, Spawner};
use shared_office::Shared;
use shared_office::holdings::end;
use std::alloc::Global;
use std::sync::{Arc, Wait};
use std::thread::Threads;
use std::time::Clock;
use turnstile::{Pass, Turnstile};

/// How serving ended.
#[derive(Clone, Copy, Debug, PartialEq, Eq)]
pub enum ServeEnd {
    /// All connections were given and served.
    End,
    /// The doors failed before. Those that they had given were served.
    DoorFault,
    /// There was no memory to begin.
    NoMemory,
}

/// Takes so many connections from the doors and serves each, beside so many workers: each in a thread where one can be started. A connection
/// that is handed back is served at once, a worker that is handed back works at the end. Once all connections were taken back, also behind a
/// fault of the doors, it is told that no further edit will be asked for; then the workers publish what is pending, and end. The pass comes
/// back with the whole share, so nobody else has one then.
///
/// All memory for tasks is taken first: after `NoMemory` nothing was begun.
pub fn serve_all<
    R: Threads + Wait + Clock + Copy + Drop + Send + 'static,
    D: Disk + Drop + Send + 'static,
    L: Doors + Send + 'static,
    P: Spawner,
    G: Gate + Drop + Send + 'static,
>(
    rt: R,
    alloc: Global,
    lock: &Arc<Turnstile<Shared<D>>>,
    pass: Pass<Shared<D>>,
    doors: &mut L,
    spawner: &mut P,
    gate: &G,
    workers: u32,
    connections: u32,
) -> (Pass<Shared<D>>, ServeEnd)
    requires pass { IsOf lock.now.value pass }
    requires share { share pass ≡ 2 ^ 32 }
    requires open { has_ended (seen pass) ≡ false }
    requires connections { connections ≤ 10000 }
    requires workers { workers ≤ 16 }
    requires listens { L.listens doors.old ≡ true }
    requires none { (L.told doors.old).given ≡ [] }
    ensures pass { IsOf lock.now.value result.0 }
    ensures share { share result.0 ≡ 2 ^ 32 }
    ensures begins { IsPrefix (seen pass) (seen result.0) }
    ensures end { IsServeEnd result.1 connections (L.told doors.new).given (L.faults doors.old) (L.faults doors.new) }
    ensures listens { L.listens doors.new ≡ true }
    ensures served { result.1 ≢ ServeEnd.NoMemory → ServedBeside lock.now.value workers (seen pass) (seen result.0) (tally pass) (tally result.0) (L.told doors.new).given (L.told doors.new).back }
    ensures unserved { result.1 ≡ ServeEnd.NoMemory → (doors.new ≡ doors.old) × (spawner.new ≡ spawner.old) × (result.0 ≡ pass) }
{
    let Some(room) = Room::new(alloc, lock, workers) else {
        return (pass, ServeEnd::NoMemory);
    };
    let mut tasks = Vec::new(alloc);
    if tasks.reserve(connections as usize).is_err() {
        return (pass, ServeEnd::NoMemory);
    }
    let Some(locks) = copies(alloc, lock, connections) else {
        return (pass, ServeEnd::NoMemory);
    };
    let (pass, all) = serve_in_room::<R, D, L, P, G>(
        rt,
        alloc,
        lock,
        room,
        locks,
        tasks,
        pass,
        doors,
        spawner,
        gate,
        workers,
        connections,
    );
    (pass, serve_end(all))
}

/// The same, once there is room for all tasks, and whether all connections were given.
fn serve_in_room<
    R: Threads + Wait + Clock + Copy + Drop + Send + 'static,
    D: Disk + Drop + Send + 'static,
    L: Doors + Send + 'static,
    P: Spawner,
    G: Gate + Drop + Send + 'static,
>(
    rt: R,
    alloc: Global,
    lock: &Turnstile<Shared<D>>,
    room: Room<D, G>,
    locks: Vec<Arc<Turnstile<Shared<D>>>>,
    tasks: Vec<Connection<D, L>>,
    pass: Pass<Shared<D>>,
    doors: &mut L,
    spawner: &mut P,
    gate: &G,
    workers: u32,
    connections: u32,
) -> (Pass<Shared<D>>, bool)
    requires pass { IsOf lock.now pass }
    requires share { share pass ≡ 2 ^ 32 }
    requires open { has_ended (seen pass) ≡ false }
    requires connections { connections ≤ 10000 }
    requires workers { workers ≤ 16 }
    requires room { IsRoom lock.now workers room }
    requires locks { (vec_len locks ≡ connections) × All (λ l. l.value ≡ lock.now) locks.items }
    requires tasks { (tasks.items ≡ []) × (connections ≤ vec_capacity tasks) }
    requires listens { L.listens doors.old ≡ true }
    requires none { (L.told doors.old).given ≡ [] }
    ensures pass { IsOf lock.now result.0 }
    ensures share { share result.0 ≡ 2 ^ 32 }
    ensures begins { IsPrefix (seen pass) (seen result.0) }
    ensures all { result.1 ≡ true → (length (L.told doors.new).given ≡ connections) × (L.faults doors.new ≡ L.faults doors.old) }
    ensures failed { result.1 ≡ false → (length (L.told doors.new).given < connections) × Rose (L.faults doors.old) (L.faults doors.new) }
    ensures listens { L.listens doors.new ≡ true }
    ensures served { ServedBeside lock.now workers (seen pass) (seen result.0) (tally pass) (tally result.0) (L.told doors.new).given (L.told doors.new).back }
{
    let (pass, crew) = start_workers(rt, lock, room, pass, gate, spawner, workers);
    serve_beside::<R, D, L, P, G>(
        rt,
        alloc,
        lock,
        crew,
        locks,
        tasks,
        pass,
        doors,
        spawner,
        workers,
        connections,
    )
}

/// The same, once the workers were started.
fn serve_beside<
    R: Threads + Wait + Clock + Copy + Drop + Send + 'static,
    D: Disk + Drop + Send + 'static,
    L: Doors + Send + 'static,
    P: Spawner,
    G: Gate + Drop + Send + 'static,
>(
    rt: R,
    alloc: Global,
    lock: &Turnstile<Shared<D>>,
    crew: Crew<D, G>,
    locks: Vec<Arc<Turnstile<Shared<D>>>>,
    tasks: Vec<Connection<D, L>>,
    pass: Pass<Shared<D>>,
    doors: &mut L,
    spawner: &mut P,
    workers: u32,
    connections: u32,
) -> (Pass<Shared<D>>, bool)
    requires pass { IsOf lock.now pass }
    requires share { share pass + workers ≡ 2 ^ 32 }
    requires open { has_ended (seen pass) ≡ false }
    requires connections { connections ≤ 10000 }
    requires workers { workers ≤ 16 }
    requires crew { IsCrew lock.now workers crew }
    requires begun { seen_before crew ≡ seen pass }
    requires locks { (vec_len locks ≡ connections) × All (λ l. l.value ≡ lock.now) locks.items }
    requires tasks { (tasks.items ≡ []) × (connections ≤ vec_capacity tasks) }
    requires listens { L.listens doors.old ≡ true }
    requires none { (L.told doors.old).given ≡ [] }
    ensures pass { IsOf lock.now result.0 }
    ensures share { share result.0 ≡ 2 ^ 32 }
    ensures begins { IsPrefix (seen pass) (seen result.0) }
    ensures all { result.1 ≡ true → (length (L.told doors.new).given ≡ connections) × (L.faults doors.new ≡ L.faults doors.old) }
    ensures failed { result.1 ≡ false → (length (L.told doors.new).given < connections) × Rose (L.faults doors.old) (L.faults doors.new) }
    ensures listens { L.listens doors.new ≡ true }
    ensures served { ServedBeside lock.now workers (seen pass) (seen result.0) (tally pass) (tally result.0) (L.told doors.new).given (L.told doors.new).back }
{
    let mut locks = locks;
    let mut tasks = tasks;
    let (pass, all) = take_connections::<R, D, L, P>(
        rt,
        alloc,
        &mut locks,
        pass,
        doors,
        spawner,
        connections,
        &mut tasks,
    );
    let pass = take_in_all::<R, D, L>(&rt, lock, pass, doors, tasks);
    let pass = end(&rt, lock, pass);
    let mut pass = finish_workers(&rt, lock, pass, crew, workers);
    // with the whole share this tells the proof that each place stands in the tally once
    lock.glance(&mut pass);
    (pass, all)
}

/// The end, by whether all connections were given.
fn serve_end(all: bool) -> ServeEnd
    ensures end { result ≡ (if all then ServeEnd.End else ServeEnd.DoorFault) }
{
    if all {
        ServeEnd::End
    } else {
        ServeEnd::DoorFault
    }
}

/// So many hands on one lock.
fn copies<D: Disk + Drop>(
    alloc: Global,
    lock: &Arc<Turnstile<Shared<D>>>,
    count: u32,
) -> Option<Vec<Arc<Turnstile<Shared<D>>>>>
    ensures { IfSome result (λ v. (vec_len v ≡ count) × All (λ l. l.value ≡ lock.now.value) v.items) }
{
    let mut all = Vec::new(alloc);
    for _made in 0..count {
        let Ok(own) = lock.clone() else { return None };
        if all.push(own).is_err() {
            return None;
        }
    }
    Some(all)
}
