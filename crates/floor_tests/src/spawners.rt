//! Work in a thread, and work that is handed back.

ghost use Rattle.std.specs.Prelude.{◌≡◌};

use devices::{HandsBack, Started, ThreadSpawner, start};
use std::thread::{Promise, Threads};

/// The promise that the result is this number.
#[derive(Drop)]
struct Gives(u64);

impl Promise<u64> for Gives {
    ghost use Rattle.std.specs.Prelude.{◌≡◌};

    ghost kept_by = { λ p output. output ≡ p.0 };
}

/// Whether a thread is started, and gives what it promised.
fn runs<R: Threads>(rt: &R) -> bool {
    let mut spawner = ThreadSpawner::new();
    let started = start(
        &mut spawner,
        rt,
        Gives(95),
        move || -> u64
            ensures { result ≡ 95 }
        { 95 },
    );
    match started {
        Started::Running(task) => task.wait(rt) == 95 && spawner.fault_count() == 0,
        Started::Back(_) => false,
    }
}

#[test]
fn work_in_a_thread(rt: HostRuntime) {
    assert!(rt; runs(&rt));
}

/// Whether work is handed back, and can be done then.
fn hands_back<R: Threads>(rt: &R) -> bool {
    let mut spawner = HandsBack::new();
    let started = start(
        &mut spawner,
        rt,
        Gives(95),
        move || -> u64
            ensures { result ≡ 95 }
        { 95 },
    );
    match started {
        Started::Running(_) => false,
        Started::Back(work) => work() == 95 && spawner.fault_count() == 1,
    }
}

#[test]
fn work_that_is_handed_back(rt: HostRuntime) {
    assert!(rt; hands_back(&rt));
}
