//! Two sessions of a shared office, one after another: the second sees what the first added.

ghost use Rattle.std.specs.Prelude.{◌≡◌, ◌^◌, IfSome};
ghost use Rattle.shared_office.specs.Passing.{IsOf};
ghost use Rattle.turnstile.specs.Passes.{share};

use crate::offices::rated_office;
use desk::{SessionEnd, session};
use devices::{Disk, MemorySink, MemorySource};
use shared_office::Shared;
use std::alloc::Global;
use std::sync::Wait;
use std::test::Fail;
use turnstile::{Pass, Turnstile};

/// Three readings, by which two days become pending.
const EDIT: &[u8] =
    b"POST /edits HTTP/1.1\r\nContent-Length: 170\r\n\r\n{\"kind\":\"PutReadings\",\"by\":\"AB\",\"ref\":\"a4\",\"site\":\"01646500\",\"readings\":[[\"2024-01-05T05:00:00Z\",\"1.00\"],[\"2024-01-05T17:00:00Z\",\"2.00\"],[\"2024-01-06T05:00:00Z\",\"1.00\"]]}";

/// The reply to them.
const ACCEPTED: &[u8] =
    b"HTTP/1.1 200 OK\r\nContent-Type: application/json\r\nContent-Length: 27\r\n\r\n{\"edit\":4,\"repeated\":false}";

/// One of these days.
const READING: &[u8] = b"GET /stations/01646500/days/2024-01-05 HTTP/1.1\r\n\r\n";

/// The reply to it, which names the edit.
const PENDING: &[u8] =
    b"HTTP/1.1 200 OK\r\nContent-Type: application/json\r\nContent-Length: 48\r\n\r\n{\"answer\":\"pending\",\"edit\":4,\"status\":\"working\"}";

/// The source of a session that asks so.
fn source_of(alloc: Global, asked: &[u8]) -> Option<MemorySource> {
    let bytes = asked.to_vec(alloc).ok()?;
    Some(MemorySource::new(bytes, Vec::new(alloc), 1_000))
}

/// A session that asks so, and whether so is replied. `None` where there is no memory for it.
fn session_of<R: Wait, D: Disk>(
    rt: &R,
    alloc: Global,
    lock: &Turnstile<Shared<D>>,
    pass: Pass<Shared<D>>,
    asked: &[u8],
    due: &[u8],
) -> Option<(Pass<Shared<D>>, bool)>
    requires { IsOf lock.now pass }
    ensures pass { IfSome result (λ r. IsOf lock.now r.0) }
    ensures share { IfSome result (λ r. share r.0 ≡ share pass) }
{
    let mut source = source_of(alloc, asked)?;
    let mut sink = MemorySink::new(alloc, Vec::new(alloc), 1_000);
    let (back, end) = session(rt, alloc, lock, pass, &mut source, &mut sink);
    Some((back, end == SessionEnd::End && sink.bytes() == due))
}

/// Whether an edit is accepted in one session, and a second one then reads it, over a pass that is split off what the first one came back with.
fn is_newer_seen<R: Wait, D: Disk>(
    rt: &R,
    alloc: Global,
    lock: &Turnstile<Shared<D>>,
    pass: Pass<Shared<D>>,
) -> Option<bool>
    requires pass { IsOf lock.now pass }
    requires share { share pass ≡ 2 ^ 32 }
{
    let (mine, one) = lock.split(pass);
    let (one, edited) = session_of(rt, alloc, lock, one, EDIT, ACCEPTED)?;
    let (_mine, two) = lock.split(lock.join(mine, one));
    let (_two, read) = session_of(rt, alloc, lock, two, READING, PENDING)?;
    Some(edited && read)
}

#[test]
fn newer_seen(rt: HostRuntime) -> Result<(), Fail> {
    let Some(shared) = rated_office(rt.alloc()) else {
        return Err("there is an office of three edits".into());
    };
    let Ok((lock, pass)) = Turnstile::new(rt.alloc(), shared) else {
        return Err("there is memory for a lock".into());
    };
    assert!(rt; is_newer_seen(&rt, rt.alloc(), &lock, pass) == Some(true));
    Ok(())
}
