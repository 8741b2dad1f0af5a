//! Connections that are taken in.

ghost use Rattle.std.specs.Prelude.{◌≡◌, ◌+◌, ◌<◌, ◌≤◌, ◌++◌, ℕ, List, None, length, vec_len};
ghost use Rattle.std.specs.List.{concat};
ghost use mathlib.Core.List.{IsPrefix};
ghost use Rattle.devices.specs.Doors.{Ends, ends_of};
ghost use Rattle.serving.specs.Connections.{IsConnection, IsSplitOff, IsTasked};
ghost use Rattle.serving.specs.Taking.{AreServed, AreTasked, IsTaken};
ghost use Rattle.shared_office.specs.Passing.{IsOf, PassTo, fixed_in};
ghost use Rattle.shared_office.specs.declared.entries.Entry.{Entry};
ghost use Rattle.turnstile.specs.Passes.{seen, share, tally};

use crate::connections::Connection;
use devices::{Disk, Doors};
use shared_office::Shared;
use std::sync::Wait;
use std::thread::Threads;
use turnstile::{Pass, Turnstile};

/// Waits for the end of a connection.
fn wait_for<R: Threads + Wait, D: Disk, L: Doors>(
    rt: &R,
    lock: &Turnstile<Shared<D>>,
    task: Connection<D, L>,
) -> (Pass<Shared<D>>, L::Back)
    requires task { (start : List Entry) × (came : Ends) × IsTasked (λ p. p.lock.value) (λ p. p.given.value) (λ p. ends_of L.In.Source L.Out.Sink p.input.value p.output.value) L.ends lock.now start came task }
    ensures pass { IsOf lock.now result.0 }
    ensures ended { (start : List Entry) (came : Ends) → IsTasked (λ p. p.lock.value) (λ p. p.given.value) (λ p. ends_of L.In.Source L.Out.Sink p.input.value p.output.value) L.ends lock.now start came task
        → (given : PassTo D D.Disk) × IsSplitOff start given × IsConnection lock.now given came result.0 (L.ends result.1) }
{
    match task {
        Ok(task) => task.wait(rt),
        Err(done) => done,
    }
}

/// Takes in one connection: waits for its end, gives back what is left of it, and joins its pass.
fn take_in<R: Threads + Wait, D: Disk, L: Doors>(
    rt: &R,
    lock: &Turnstile<Shared<D>>,
    pass: Pass<Shared<D>>,
    doors: &mut L,
    number: u32,
    task: Connection<D, L>,
) -> Pass<Shared<D>>
    requires pass { IsOf lock.now pass }
    requires task { (start : List Entry) × (came : Ends) × IsTasked (λ p. p.lock.value) (λ p. p.given.value) (λ p. ends_of L.In.Source L.Out.Sink p.input.value p.output.value) L.ends lock.now start came task }
    requires first { 0 < number }
    requires given { number ≤ length (L.told doors.old).given }
    requires out { (L.told doors.old).back number ≡ None }
    ensures pass { IsOf lock.now result }
    ensures taken { (start : List Entry) (came : Ends) → IsTasked (λ p. p.lock.value) (λ p. p.given.value) (λ p. ends_of L.In.Source L.Out.Sink p.input.value p.output.value) L.ends lock.now start came task
        → IsTaken (fixed_in lock.now) start came number pass result (L.told doors.old) (L.told doors.new) }
    ensures listens { L.listens doors.new ≡ L.listens doors.old }
    ensures counted { L.faults doors.new ≡ L.faults doors.old }
{
    let (other, back) = wait_for::<R, D, L>(rt, lock, task);
    doors.take_back(number, back);
    lock.join(pass, other)
}

/// Takes in all connections, in the order in which they were given.
pub(crate) fn take_in_all<R: Threads + Wait, D: Disk, L: Doors>(
    rt: &R,
    lock: &Turnstile<Shared<D>>,
    given: Pass<Shared<D>>,
    doors: &mut L,
    tasks: Vec<Connection<D, L>>,
) -> Pass<Shared<D>>
    requires pass { IsOf lock.now given }
    requires count { vec_len tasks ≡ length (L.told doors.old).given }
    requires few { vec_len tasks ≤ 10000 }
    requires tasks { (start : List Entry) × AreTasked (IsTasked (λ p. p.lock.value) (λ p. p.given.value) (λ p. ends_of L.In.Source L.Out.Sink p.input.value p.output.value) L.ends lock.now start) (L.told doors.old).given tasks.items }
    requires out { (number : ℕ) → 0 < number → (L.told doors.old).back number ≡ None }
    ensures pass { IsOf lock.now result }
    ensures share { share result ≡ share given + vec_len tasks }
    ensures begins { IsPrefix (seen given) (seen result) }
    ensures given { (L.told doors.new).given ≡ (L.told doors.old).given }
    ensures listens { L.listens doors.new ≡ L.listens doors.old }
    ensures counted { L.faults doors.new ≡ L.faults doors.old }
    ensures taken { (start : List Entry) → AreTasked (IsTasked (λ p. p.lock.value) (λ p. p.given.value) (λ p. ends_of L.In.Source L.Out.Sink p.input.value p.output.value) L.ends lock.now start) (L.told doors.old).given tasks.items
        → (connections : List (List ℕ)) × (tally result ≡ tally given ++ concat connections)
        × AreServed (fixed_in lock.now) (length start) (seen result) (L.told doors.new).back 1 (L.told doors.new).given connections }
{
    let mut pass = given;
    let mut number = 1;
    for task in tasks {
        pass = take_in::<R, D, L>(rt, lock, pass, doors, number, task);
        number += 1;
    }
    pass
}
