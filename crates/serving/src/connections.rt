//! A connection served in a thread, or at once where none can be started.

ghost use Rattle.std.specs.Prelude.{◌≡◌, IfErr, IfOk};
ghost use Rattle.devices.specs.Doors.{ends_of};
ghost use Rattle.serving.specs.Connections.{IsConnection};
ghost use Rattle.shared_office.specs.Passing.{IsOf};

use crate::sending::a_register_may_be_sent;
use desk::session;
use devices::{Disk, Doors, Spawner, Started, Task, start};
use shared_office::Shared;
use std::alloc::Global;
use std::snapshot::Snapshot;
use std::sync::{Arc, Wait};
use std::thread::{Promise, Threads};
use turnstile::{Pass, Turnstile};

/// What a connection promises to come to: its session is that of this pass of this lock, over these ends. It takes no bytes.
#[derive(Drop)]
pub struct Connected<D: Disk, L: Doors> {
    lock: Snapshot<Turnstile<Shared<D>>>,
    given: Snapshot<Pass<Shared<D>>>,
    input: Snapshot<L::In>,
    output: Snapshot<L::Out>,
}

impl<D: Disk, L: Doors> Promise<(Pass<Shared<D>>, L::Back)> for Connected<D, L> {
    ghost use Rattle.devices.specs.Doors.{ends_of};
    ghost use Rattle.serving.specs.Connections.{IsConnection};

    ghost kept_by = { λ p r. IsConnection p.lock.value p.given.value (ends_of L.In.Source L.Out.Sink p.input.value p.output.value) r.0 (L.ends r.1) };
}

/// A connection that is served in a thread, or that was served at once.
pub type Connection<D, L> = Result<
    Task<(Pass<Shared<D>>, <L as Doors>::Back), Connected<D, L>>,
    (Pass<Shared<D>>, <L as Doors>::Back),
>;

/// Serves a connection, and ends it.
fn serve<R: Wait, D: Disk, L: Doors>(
    rt: &R,
    alloc: Global,
    lock: &Turnstile<Shared<D>>,
    pass: Pass<Shared<D>>,
    input: L::In,
    output: L::Out,
) -> (Pass<Shared<D>>, L::Back)
    requires { IsOf lock.now pass }
    ensures { IsConnection lock.now pass (ends_of L.In.Source L.Out.Sink input output) result.0 (L.ends result.1) }
{
    let mut input = input;
    let mut output = output;
    let (pass, _) = session(rt, alloc, lock, pass, &mut input, &mut output);
    (pass, L::finish(input, output))
}

/// The same, by what a thread has of its own.
fn serve_owned<R: Wait + Drop, D: Disk + Drop, L: Doors>(
    rt: R,
    alloc: Global,
    lock: Arc<Turnstile<Shared<D>>>,
    pass: Pass<Shared<D>>,
    input: L::In,
    output: L::Out,
) -> (Pass<Shared<D>>, L::Back)
    requires { IsOf lock.value pass }
    ensures { IsConnection lock.value pass (ends_of L.In.Source L.Out.Sink input output) result.0 (L.ends result.1) }
{
    serve::<R, D, L>(&rt, alloc, &lock, pass, input, output)
}

/// Starts a connection in a thread. One that is handed back is served at once.
pub(crate) fn begin<
    R: Threads + Wait + Copy + Drop + Send + 'static,
    D: Disk + Drop + Send + 'static,
    L: Doors + Send + 'static,
    P: Spawner,
>(
    rt: R,
    alloc: Global,
    lock: Arc<Turnstile<Shared<D>>>,
    pass: Pass<Shared<D>>,
    input: L::In,
    output: L::Out,
    spawner: &mut P,
) -> Connection<D, L>
    requires { IsOf lock.value pass }
    ensures running { IfOk result (λ task. (task.running.promise.lock.value ≡ lock.value) × (task.running.promise.given.value ≡ pass)
        × (task.running.promise.input.value ≡ input) × (task.running.promise.output.value ≡ output)) }
    ensures done { IfErr result (λ r. IsConnection lock.value pass (ends_of L.In.Source L.Out.Sink input output) r.0 (L.ends r.1)) }
{
    let promise = Connected::<D, L> {
        lock: Snapshot::of(&*lock),
        given: Snapshot::of(&pass),
        input: Snapshot::of(&input),
        output: Snapshot::of(&output),
    };
    // this runs nothing: it tells the proof that what the lock keeps may go to another thread
    a_register_may_be_sent();
    let work = move || -> (Pass<Shared<D>>, L::Back)
        requires { IsOf lock.value pass }
        ensures { IsConnection lock.value pass (ends_of L.In.Source L.Out.Sink input output) result.0 (L.ends result.1) }
    { serve_owned::<R, D, L>(rt, alloc, lock, pass, input, output) };
    match start(spawner, &rt, promise, work) {
        Started::Running(task) => Ok(task),
        Started::Back(work) => Err(work()),
    }
}
