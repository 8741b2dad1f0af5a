//! Two parties that add numbers, in turn and in two threads.
ghost use Rattle.std.specs.Prelude.{◌≡◌, ◌^◌, IfOk};
ghost use Rattle.turnstile.specs.Passes.{share};
ghost use Rattle.floor_tests.specs.Numbered.{IsOf};

use crate::numbers::Numbers;
use std::snapshot::Snapshot;
use std::sync::{Arc, Wait};
use std::test::Fail;
use std::thread;
use std::thread::Promise;
use turnstile::{Pass, Turnstile};

/// A lock round no numbers, and the pass of the whole share.
fn lock(rt: &HostRuntime) -> Result<(Turnstile<Numbers>, Pass<Numbers>), Fail>
    ensures { IfOk result (λ r. IsOf r.0 r.1 × (share r.1 ≡ 2 ^ 32)) }
{
    match Turnstile::new(rt.alloc(), Numbers::new(rt.alloc())) {
        Ok(made) => Ok(made),
        Err(_) => Err("there is memory for a lock".into()),
    }
}

/// Adds a number in one holding.
fn add<R: Wait>(
    rt: &R,
    lock: &Turnstile<Numbers>,
    pass: Pass<Numbers>,
    number: u64,
) -> Pass<Numbers>
    requires { IsOf lock.now pass }
    ensures pass { IsOf lock.now result }
    ensures share { share result ≡ share pass }
{
    let mut held = lock.enter(rt, pass);
    let _ = held.value_mut().add(number);
    lock.leave(held)
}

/// Adds a thousand numbers, each in a holding of its own.
fn add_thousand<R: Wait>(
    rt: &R,
    lock: &Turnstile<Numbers>,
    given: Pass<Numbers>,
    first: u64,
) -> Pass<Numbers>
    requires { IsOf lock.now given }
    ensures pass { IsOf lock.now result }
    ensures share { share result ≡ share given }
{
    let mut pass = given;
    for count in 0..1_000_u64 {
        pass = add(rt, lock, pass, first.saturating_add(count));
    }
    pass
}

/// What a thread that adds numbers gives back.
#[derive(Drop)]
struct Added {
    lock: Snapshot<Turnstile<Numbers>>,
    given: Snapshot<Pass<Numbers>>,
}

impl Promise<Pass<Numbers>> for Added {
    ghost use Rattle.std.specs.Prelude.{◌≡◌};
    ghost use Rattle.turnstile.specs.Passes.{share};
    ghost use Rattle.floor_tests.specs.Numbered.{IsOf};

    ghost kept_by = { λ p back. IsOf p.lock.value back × (share back ≡ share p.given.value) };
}

/// Whether there are two thousand numbers, and those below a thousand stand in order, and the others.
fn are_two_thousand(numbers: &[u64]) -> bool {
    let (mut low, mut high) = (0_u64, 1_000_u64);
    for number in numbers {
        if *number == low && low < 1_000 {
            low = low.saturating_add(1);
        } else if *number == high {
            high = high.saturating_add(1);
        } else {
            return false;
        }
    }
    (low, high) == (1_000, 2_000)
}

#[test]
fn two_threads_add_a_thousand_numbers_each(rt: HostRuntime) -> Result<(), Fail> {
    let (lock, pass) = lock(&rt)?;
    let lock = Arc::new(rt.alloc(), lock)?;
    let (mine, other) = lock.split(pass);
    let there = lock.clone()?;
    let promise = Added {
        lock: Snapshot::of(&*lock),
        given: Snapshot::of(&other),
    };
    let task = thread::spawn_with(
        &rt,
        promise,
        move || -> Pass<Numbers>
            requires { IsOf there.value other }
            ensures { IsOf there.value result × (share result ≡ share other) }
        { add_thousand(&rt, &there, other, 1_000) },
    );
    let Ok(task) = task else {
        return Err("a thread is started".into());
    };
    let mine = add_thousand(&rt, &lock, mine, 0);
    let whole = lock.join(mine, task.join(&rt));
    let numbers = lock.close(whole);
    assert!(rt; are_two_thousand(&numbers.list));
    Ok(())
}

/// Whether so many numbers are seen.
fn sees(lock: &Turnstile<Numbers>, pass: &mut Pass<Numbers>, count: u64) -> bool
    requires { IsOf lock.now pass.old }
    ensures pass { IsOf lock.now pass.new }
    ensures share { share pass.new ≡ share pass.old }
{
    lock.glance(pass) == count
}

#[test]
fn what_one_adds_the_other_sees(rt: HostRuntime) -> Result<(), Fail> {
    let (lock, pass) = lock(&rt)?;
    let (one, mut other) = lock.split(pass);
    let none = sees(&lock, &mut other, 0);
    let one = add(&rt, &lock, one, 7);
    let seen = sees(&lock, &mut other, 1);
    let mut whole = lock.join(one, other);
    let seen_by_both = sees(&lock, &mut whole, 1);
    let numbers = lock.close(whole);
    assert!(rt; none && seen && seen_by_both && numbers.list.as_slice() == [7].as_slice());
    Ok(())
}

/// A pass that is dropped takes its share with it; the others go on.
#[test]
fn a_dropped_pass_hinders_nobody(rt: HostRuntime) -> Result<(), Fail> {
    let (lock, pass) = lock(&rt)?;
    let (one, other) = lock.split(pass);
    let other = add(&rt, &lock, other, 1);
    drop(other);
    let mut one = add(&rt, &lock, one, 2);
    assert!(rt; sees(&lock, &mut one, 2));
    Ok(())
}
