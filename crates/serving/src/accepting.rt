//! Connections taken from the doors, each served by a pass that is split off.

ghost use Rattle.std.specs.Prelude.{◌≡◌, ◌+◌, ◌<◌, ◌≤◌, ℕ, All, List, [], false, true, vec_capacity, vec_len};
ghost use mathlib.Core.List.{IsPrefix};
ghost use Rattle.devices.specs.Doors.{ends_of};
ghost use Rattle.devices.specs.Faults.{Rose};
ghost use Rattle.serving.specs.Connections.{IsTasked};
ghost use Rattle.serving.specs.Taking.{AreTasked};
ghost use Rattle.shared_office.specs.Passing.{IsOf, Lock};
ghost use Rattle.shared_office.specs.declared.entries.Entry.{Entry};
ghost use Rattle.turnstile.specs.Passes.{seen, share, tally};

use crate::connections::{Connection, begin};
use devices::{Disk, Doors, Next, Spawner};
use shared_office::Shared;
use std::alloc::Global;
use std::sync::{Arc, Wait};
use std::thread::Threads;
use turnstile::{Pass, Turnstile};

/// Splits a pass off, behind a glance, and starts a connection with it.
fn begin_one<
    R: Threads + Wait + Copy + Drop + Send + 'static,
    D: Disk + Drop + Send + 'static,
    L: Doors + Send + 'static,
    P: Spawner,
>(
    rt: R,
    alloc: Global,
    lock: Arc<Turnstile<Shared<D>>>,
    given: Pass<Shared<D>>,
    input: L::In,
    output: L::Out,
    spawner: &mut P,
) -> (Pass<Shared<D>>, Connection<D, L>)
    requires pass { IsOf lock.value given }
    requires share { 2 ≤ share given }
    ensures pass { IsOf lock.value result.0 }
    ensures share { share result.0 + 1 ≡ share given }
    ensures tally { tally result.0 ≡ tally given }
    ensures begins { IsPrefix (seen given) (seen result.0) }
    ensures tasked { (start : List Entry) → IsPrefix start (seen given)
        → IsTasked (λ p. p.lock.value) (λ p. p.given.value) (λ p. ends_of L.In.Source L.Out.Sink p.input.value p.output.value) L.ends lock.value start (ends_of L.In.Source L.Out.Sink input output) result.1 }
{
    let mut pass = given;
    lock.glance(&mut pass);
    let (mine, other) = lock.split(pass);
    (
        mine,
        begin::<R, D, L, P>(rt, alloc, lock, other, input, output, spawner),
    )
}

/// Takes so many connections, as far as the doors give them, and whether they gave them all.
pub(crate) fn take_connections<
    R: Threads + Wait + Copy + Drop + Send + 'static,
    D: Disk + Drop + Send + 'static,
    L: Doors + Send + 'static,
    P: Spawner,
>(
    rt: R,
    alloc: Global,
    locks: &mut Vec<Arc<Turnstile<Shared<D>>>>,
    given: Pass<Shared<D>>,
    doors: &mut L,
    spawner: &mut P,
    connections: u32,
    tasks: &mut Vec<Connection<D, L>>,
) -> (Pass<Shared<D>>, bool)
    requires pass { (lock : Lock D D.Disk) × All (λ l. l.value ≡ lock) locks.old.items × IsOf lock given }
    requires locks { connections ≤ vec_len locks.old }
    requires share { connections < share given }
    requires few { connections ≤ 10000 }
    requires room { connections ≤ vec_capacity tasks.old }
    requires none { tasks.old.items ≡ [] }
    requires listens { L.listens doors.old ≡ true }
    requires closed { (L.told doors.old).given ≡ [] }
    ensures pass { (lock : Lock D D.Disk) → All (λ l. l.value ≡ lock) locks.old.items → IsOf lock given
        → IsOf lock result.0 × AreTasked (IsTasked (λ p. p.lock.value) (λ p. p.given.value) (λ p. ends_of L.In.Source L.Out.Sink p.input.value p.output.value) L.ends lock (seen given)) (L.told doors.new).given tasks.new.items }
    ensures share { share result.0 + vec_len tasks.new ≡ share given }
    ensures tally { tally result.0 ≡ tally given }
    ensures begins { IsPrefix (seen given) (seen result.0) }
    ensures back { (number : ℕ) → (L.told doors.new).back number ≡ (L.told doors.old).back number }
    ensures listens { L.listens doors.new ≡ true }
    ensures few { vec_len tasks.new ≤ connections }
    ensures all { result.1 ≡ true → (vec_len tasks.new ≡ connections) × (L.faults doors.new ≡ L.faults doors.old) }
    ensures failed { result.1 ≡ false → (vec_len tasks.new < connections) × Rose (L.faults doors.old) (L.faults doors.new) }
{
    let mut pass = given;
    for _ in 0..connections {
        let Next::Open(input, output) = doors.next() else {
            return (pass, false);
        };
        let Some(lock) = locks.pop() else {
            unreachable!()
        };
        let (mine, task) = begin_one::<R, D, L, P>(rt, alloc, lock, pass, input, output, spawner);
        pass = mine;
        tasks.push_reserved(task);
    }
    (pass, true)
}
