//! `serve`: connections are served, each in a thread of its own, beside workers, over the journal under a name.

ghost use Rattle.std.specs.Prelude.{◌≡◌, ◌⊎◌, ◌^◌, ◌≤◌, [], false, Ok, IsErr};
ghost use mathlib.Core.List.{IsPrefix};
ghost use Rattle.commands.specs.Opening.{LeadsTo, RunsOver};
ghost use Rattle.commands.specs.Serving.{ServesBetween};
ghost use Rattle.commands.specs.Worlds.{doorway, shelf};
ghost use Rattle.office.specs.Counting.{HasCounted};
ghost use Rattle.serving.specs.Serving.{IsServeEnd, ServedBeside};
ghost use Rattle.shared_office.specs.Entries.{has_ended};
ghost use Rattle.shared_office.specs.Passages.{Passes};
ghost use Rattle.shared_office.specs.Passing.{IsOf};
ghost use Rattle.turnstile.specs.Passes.{seen, share, tally};

use crate::endings::Ending;
use crate::opening::{close_office, open_office};
use crate::sharing::{share_office, take_back};
use devices::{Cabinet, Disk, Doors, Gate, Spawner};
use journal::OpenFault;
use office::Office;
use serving::{ServeEnd, serve_all};
use shared_office::Shared;
use std::alloc::Global;
use std::sync::{Arc, Wait};
use std::thread::Threads;
use std::time::Clock;
use turnstile::{Pass, Turnstile};

impl From<ServeEnd> for Ending {
    ghost use Rattle.std.specs.Prelude.{◌≡◌};
    ghost use Rattle.commands.specs.Serving.{serving_ending};

    ghost from_gives = { λ end ending. ending ≡ serving_ending end };

    fn from(end: ServeEnd) -> Ending {
        match end {
            ServeEnd::End => Ending::Done,
            ServeEnd::DoorFault => Ending::DoorFault,
            ServeEnd::NoMemory => Ending::NoMemory,
        }
    }
}

impl From<Result<ServeEnd, OpenFault>> for Ending {
    ghost use Rattle.std.specs.Prelude.{◌≡◌};
    ghost use Rattle.commands.specs.Opening.{ending_over};
    ghost use Rattle.commands.specs.Serving.{serving_ending};

    ghost from_gives = { λ end ending. ending ≡ ending_over serving_ending end };

    fn from(end: Result<ServeEnd, OpenFault>) -> Ending {
        match end {
            Ok(end) => Ending::from(end),
            Err(why) => Ending::from(why),
        }
    }
}

/// How connections are to be served.
#[derive(Clone, Copy)]
pub(crate) struct ServeOptions {
    /// The port that is listened on.
    pub(crate) port: u16,
    /// How many workers are started.
    pub(crate) workers: u32,
    /// How many connections are served.
    pub(crate) connections: u32,
}

/// Serves connections over the journal under a name. The journal is opened before anybody is listened for.
pub(crate) fn serve_connections<
    R: Threads + Wait + Clock + Copy + Drop + Send + 'static,
    C: Cabinet,
    L: Doors + Send + 'static,
    P: Spawner,
    G: Gate + Drop + Send + 'static,
>(
    rt: R,
    alloc: Global,
    cabinet: &mut C,
    name: &str,
    doors: &mut L,
    spawner: &mut P,
    gate: &G,
    options: ServeOptions,
) -> Result<ServeEnd, OpenFault>
where
    C::Disk: Drop,
    requires some { 1 ≤ options.connections }
    requires connections { options.connections ≤ 10000 }
    requires workers { options.workers ≤ 16 }
    requires none { (L.told doors.old).given ≡ [] }
    ensures over { RunsOver C.Disk.Disk name.now (LeadsTo C.Disk.Disk) (ServesBetween C.Disk.Disk options.workers options.connections (doorway L.Doors doors.old) (doorway L.Doors doors.new))
        result (shelf C.Cabinet cabinet.old) (shelf C.Cabinet cabinet.new) }
    ensures unopened { IsErr result → (doors.new ≡ doors.old) × (spawner.new ≡ spawner.old) }
    ensures unserved { result ≡ Ok ServeEnd.NoMemory → spawner.new ≡ spawner.old }
{
    let office = open_office(alloc, cabinet, name)?;
    let (office, end) = serve_over(rt, alloc, office, doors, spawner, gate, options);
    close_office(cabinet, name, office);
    Ok(end)
}

/// Serves connections over an office, which is shared meanwhile.
fn serve_over<
    R: Threads + Wait + Clock + Copy + Drop + Send + 'static,
    D: Disk + Drop + Send + 'static,
    L: Doors + Send + 'static,
    P: Spawner,
    G: Gate + Drop + Send + 'static,
>(
    rt: R,
    alloc: Global,
    office: Office<D>,
    doors: &mut L,
    spawner: &mut P,
    gate: &G,
    options: ServeOptions,
) -> (Office<D>, ServeEnd)
    requires counted { HasCounted office.register.history (D.faults office.disk) }
    requires some { 1 ≤ options.connections }
    requires connections { options.connections ≤ 10000 }
    requires workers { options.workers ≤ 16 }
    requires none { (L.told doors.old).given ≡ [] }
    ensures served { ServesBetween D.Disk options.workers options.connections (doorway L.Doors doors.old) (doorway L.Doors doors.new) result.1
        office.register.history result.0.register.history }
    ensures counted { HasCounted result.0.register.history (D.faults result.0.disk) }
    ensures passed { ∥ Passes D.Disk office.register.history result.0.register.history office.disk result.0.disk ∥₁ }
    ensures unserved { result.1 ≡ ServeEnd.NoMemory → spawner.new ≡ spawner.old }
{
    let (lock, pass) = match share_office(alloc, office) {
        Ok(shared) => shared,
        Err(office) => return (office, ServeEnd::NoMemory),
    };
    let (pass, end) = serve_behind(rt, alloc, &lock, pass, doors, spawner, gate, options);
    (take_back(&lock, pass), end)
}

/// Listens, and serves connections over the office behind a lock.
fn serve_behind<
    R: Threads + Wait + Clock + Copy + Drop + Send + 'static,
    D: Disk + Drop + Send + 'static,
    L: Doors + Send + 'static,
    P: Spawner,
    G: Gate + Drop + Send + 'static,
>(
    rt: R,
    alloc: Global,
    lock: &Arc<Turnstile<Shared<D>>>,
    pass: Pass<Shared<D>>,
    doors: &mut L,
    spawner: &mut P,
    gate: &G,
    options: ServeOptions,
) -> (Pass<Shared<D>>, ServeEnd)
    requires pass { IsOf lock.now.value pass }
    requires share { share pass ≡ 2 ^ 32 }
    requires open { has_ended (seen pass) ≡ false }
    requires some { 1 ≤ options.connections }
    requires connections { options.connections ≤ 10000 }
    requires workers { options.workers ≤ 16 }
    requires none { (L.told doors.old).given ≡ [] }
    ensures pass { IsOf lock.now.value result.0 }
    ensures share { share result.0 ≡ 2 ^ 32 }
    ensures begins { IsPrefix (seen pass) (seen result.0) }
    ensures ends { IsServeEnd result.1 options.connections (L.told doors.new).given (L.faults doors.old) (L.faults doors.new) }
    ensures served { ServedBeside lock.now.value options.workers (seen pass) (seen result.0) (tally pass) (tally result.0)
        (L.told doors.new).given (L.told doors.new).back
        ⊎ (((result.1 ≡ ServeEnd.NoMemory) ⊎ ((result.1 ≡ ServeEnd.DoorFault) × (L.listens doors.new ≡ L.listens doors.old)))
        × ((L.told doors.new).given ≡ []) × (result.0 ≡ pass)) }
    ensures unserved { result.1 ≡ ServeEnd.NoMemory → ((L.told doors.new).given ≡ []) × (result.0 ≡ pass) × (spawner.new ≡ spawner.old) }
    ensures unlistened { L.listens doors.new ≡ false → ((L.told doors.new).given ≡ []) × (result.0 ≡ pass) }
{
    match doors.listen(options.port) {
        Ok(()) => serve_all(
            rt,
            alloc,
            lock,
            pass,
            doors,
            spawner,
            gate,
            options.workers,
            options.connections,
        ),
        Err(_) => (pass, ServeEnd::DoorFault),
    }
}
