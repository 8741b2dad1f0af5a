//! `batch` with workers: the requests of an input are replied to while workers compute, over the journal under a name.

ghost use Rattle.std.specs.Prelude.{◌≡◌, ◌⊎◌, ◌^◌, ◌≤◌, ◌++◌, IfOk, List, ℕ};
ghost use mathlib.Core.List.{IsPrefix};
ghost use Rattle.commands.specs.Batch.{IsUnserved, SessionCause};
ghost use Rattle.commands.specs.Beside.{IsBeside, ServedBesideWorkers, ends_told};
ghost use Rattle.commands.specs.Opening.{LeadsTo, RunsOver};
ghost use Rattle.commands.specs.Worlds.{shelf, sink_told, source_told};
ghost use Rattle.desk.specs.Sessions.{HasCause};
ghost use Rattle.office.specs.Counting.{HasCounted};
ghost use Rattle.serving.specs.Crews.{IsRoom};
ghost use Rattle.shared_office.specs.Passages.{Passes};
ghost use Rattle.shared_office.specs.Passing.{IsOf};
ghost use Rattle.turnstile.specs.Passes.{seen, share, tally};

use crate::opening::{close_office, open_office};
use crate::sharing::{share_office, take_back};
use desk::{SessionEnd, session};
use devices::{Cabinet, Disk, Gate, Sink, Source, Spawner};
use journal::OpenFault;
use office::Office;
use serving::crews::{Room, finish_workers, start_workers};
use shared_office::{Shared, holdings};
use std::alloc::Global;
use std::sync::{Arc, Wait};
use std::thread::Threads;
use std::time::Clock;
use turnstile::{Pass, Turnstile};

/// Replies to the requests of the input beside so many workers, over the journal under a name. The journal is opened before the input is
/// read. At the input's end the workers publish what is pending, and end.
pub(crate) fn serve_beside<
    R: Threads + Wait + Clock + Copy + Drop + Send + 'static,
    C: Cabinet,
    S: Source,
    K: Sink,
    P: Spawner,
    G: Gate + Drop + Send + 'static,
>(
    rt: R,
    alloc: Global,
    cabinet: &mut C,
    name: &str,
    input: &mut S,
    output: &mut K,
    spawner: &mut P,
    gate: &G,
    workers: u32,
) -> Result<SessionEnd, OpenFault>
where
    C::Disk: Drop,
    requires { workers ≤ 16 }
    ensures over { RunsOver C.Disk.Disk name.now (LeadsTo C.Disk.Disk) (ServedBesideWorkers C.Disk.Disk workers
        (ends_told (source_told S.Source input.old) (sink_told K.Sink output.old)) (ends_told (source_told S.Source input.new) (sink_told K.Sink output.new)))
        result (shelf C.Cabinet cabinet.old) (shelf C.Cabinet cabinet.new) }
    ensures cause { IfOk result (SessionCause (source_told S.Source input.old) (source_told S.Source input.new)
        (sink_told K.Sink output.old) (sink_told K.Sink output.new)) }
    ensures unserved { IsUnserved result → (input.new ≡ input.old) × (output.new ≡ output.old) }
{
    let office = open_office(alloc, cabinet, name)?;
    let (office, end) = serve_shared(rt, alloc, office, input, output, spawner, gate, workers);
    close_office(cabinet, name, office);
    Ok(end)
}

/// Replies to the requests over an office, which is shared meanwhile.
fn serve_shared<
    R: Threads + Wait + Clock + Copy + Drop + Send + 'static,
    D: Disk + Drop + Send + 'static,
    S: Source,
    K: Sink,
    P: Spawner,
    G: Gate + Drop + Send + 'static,
>(
    rt: R,
    alloc: Global,
    office: Office<D>,
    input: &mut S,
    output: &mut K,
    spawner: &mut P,
    gate: &G,
    workers: u32,
) -> (Office<D>, SessionEnd)
    requires counted { HasCounted office.register.history (D.faults office.disk) }
    requires workers { workers ≤ 16 }
    ensures served { ServedBesideWorkers D.Disk workers
        (ends_told (source_told S.Source input.old) (sink_told K.Sink output.old)) (ends_told (source_told S.Source input.new) (sink_told K.Sink output.new))
        result.1 office.register.history result.0.register.history }
    ensures counted { HasCounted result.0.register.history (D.faults result.0.disk) }
    ensures passed { ∥ Passes D.Disk office.register.history result.0.register.history office.disk result.0.disk ∥₁ }
    ensures cause { HasCause result.1 (S.faults input.old) (S.faults input.new) (K.faults output.old) (K.faults output.new) }
    ensures unserved { result.1 ≡ SessionEnd.NoMemory → (input.new ≡ input.old) × (output.new ≡ output.old) }
{
    let (lock, pass) = match share_office(alloc, office) {
        Ok(shared) => shared,
        Err(office) => return (office, SessionEnd::NoMemory),
    };
    let (pass, end) = serve_behind(
        rt, alloc, &lock, pass, input, output, spawner, gate, workers,
    );
    (take_back(&lock, pass), end)
}

/// Replies to the requests over the office behind a lock, beside workers.
fn serve_behind<
    R: Threads + Wait + Clock + Copy + Drop + Send + 'static,
    D: Disk + Drop + Send + 'static,
    S: Source,
    K: Sink,
    P: Spawner,
    G: Gate + Drop + Send + 'static,
>(
    rt: R,
    alloc: Global,
    lock: &Arc<Turnstile<Shared<D>>>,
    pass: Pass<Shared<D>>,
    input: &mut S,
    output: &mut K,
    spawner: &mut P,
    gate: &G,
    workers: u32,
) -> (Pass<Shared<D>>, SessionEnd)
    requires pass { IsOf lock.now.value pass }
    requires share { share pass ≡ 2 ^ 32 }
    requires workers { workers ≤ 16 }
    ensures pass { IsOf lock.now.value result.0 }
    ensures share { share result.0 ≡ 2 ^ 32 }
    ensures begins { IsPrefix (seen pass) (seen result.0) }
    ensures beside { ((added : List ℕ) × (tally result.0 ≡ tally pass ++ added) × IsBeside lock.now.value workers (seen pass) (seen result.0) added
        (ends_told (source_told S.Source input.old) (sink_told K.Sink output.old)) (ends_told (source_told S.Source input.new) (sink_told K.Sink output.new)) result.1)
        ⊎ ((result.1 ≡ SessionEnd.NoMemory) × (result.0 ≡ pass)) }
    ensures cause { HasCause result.1 (S.faults input.old) (S.faults input.new) (K.faults output.old) (K.faults output.new) }
    ensures unserved { result.1 ≡ SessionEnd.NoMemory → (input.new ≡ input.old) × (output.new ≡ output.old) }
{
    match Room::new(alloc, lock, workers) {
        Some(room) => serve_in_room(
            rt, alloc, lock, room, pass, input, output, spawner, gate, workers,
        ),
        None => (pass, SessionEnd::NoMemory),
    }
}

/// The same, once there is room for the workers.
fn serve_in_room<
    R: Threads + Wait + Clock + Copy + Drop + Send + 'static,
    D: Disk + Drop + Send + 'static,
    S: Source,
    K: Sink,
    P: Spawner,
    G: Gate + Drop + Send + 'static,
>(
    rt: R,
    alloc: Global,
    lock: &Turnstile<Shared<D>>,
    room: Room<D, G>,
    pass: Pass<Shared<D>>,
    input: &mut S,
    output: &mut K,
    spawner: &mut P,
    gate: &G,
    workers: u32,
) -> (Pass<Shared<D>>, SessionEnd)
    requires pass { IsOf lock.now pass }
    requires share { share pass ≡ 2 ^ 32 }
    requires workers { workers ≤ 16 }
    requires room { IsRoom lock.now workers room }
    ensures pass { IsOf lock.now result.0 }
    ensures share { share result.0 ≡ 2 ^ 32 }
    ensures begins { IsPrefix (seen pass) (seen result.0) }
    ensures beside { (added : List ℕ) × (tally result.0 ≡ tally pass ++ added) × IsBeside lock.now workers (seen pass) (seen result.0) added
        (ends_told (source_told S.Source input.old) (sink_told K.Sink output.old)) (ends_told (source_told S.Source input.new) (sink_told K.Sink output.new)) result.1 }
    ensures cause { HasCause result.1 (S.faults input.old) (S.faults input.new) (K.faults output.old) (K.faults output.new) }
    ensures unserved { result.1 ≡ SessionEnd.NoMemory → (input.new ≡ input.old) × (output.new ≡ output.old) }
{
    let (pass, crew) = start_workers(rt, lock, room, pass, gate, spawner, workers);
    let (pass, end) = session(&rt, alloc, lock, pass, input, output);
    let pass = holdings::end(&rt, lock, pass);
    (finish_workers(&rt, lock, pass, crew, workers), end)
}
