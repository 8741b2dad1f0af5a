//! A client of this machine, and the program that serves it.

ghost use Rattle.std.specs.Prelude.{◌≡◌, []};

use crate::runs::{no_input, run, sink, words_of};
use crate::streams::{ACCEPTED, ANSWERS, ASKS, EDITS};
use devices::{Doors, LoopbackDoors, OpenGate, ThreadSpawner};
use fixed_units::NoMemory;
use std::alloc::Global;
use std::io::Write;
use std::net::{Shutdown, TcpListener, TcpStream};
use std::sync::Wait;
use std::test::Fail;
use std::thread::Threads;
use std::time::Clock;
use std::{io, thread};

/// How often a client asks for a connection.
const MOST_TRIES: u32 = 1_000_000;

/// A port that no one listens at. The system gives no client such a port as its own, so that none of them meets itself there.
fn free_port(rt: &HostRuntime) -> Option<u16> {
    for port in 20_000..21_000 {
        if TcpListener::bind(rt, ("127.0.0.1", port)).is_ok() {
            return Some(port);
        }
    }
    None
}

/// A connection to a port, as soon as someone listens there.
fn connect(rt: &HostRuntime, port: u16) -> Option<TcpStream> {
    for _try in 0..MOST_TRIES {
        if let Ok(client) = TcpStream::connect(rt, ("127.0.0.1", port)) {
            return Some(client);
        }
        thread::yield_now();
    }
    None
}

/// Asks, and gives what is replied until the connection ends.
fn exchange(alloc: Global, mut client: TcpStream) -> io::Result<String> {
    client.write_all(EDITS)?;
    client.write_all(ASKS)?;
    client.shutdown(Shutdown::Write)?;
    io::read_to_string(alloc, &client)
}

/// Whether a client at a port is told what an office of one thread tells.
fn is_told(rt: &HostRuntime, port: u16) -> bool {
    match connect(rt, port).map(|client| exchange(rt.alloc(), client)) {
        Some(Ok(told)) => told.as_bytes().strip_prefix(ACCEPTED) == Some(ANSWERS),
        _ => false,
    }
}

/// The words of a server of one connection at a port, without workers.
fn words_at(alloc: Global, port: u16) -> Result<Vec<String>, NoMemory> {
    let mut words = words_of(
        alloc,
        "serve --journal J --workers 0 --connections 1 --port",
    )?;
    words.push(format!(in alloc; "{port}")?)?;
    Ok(words)
}

/// Whether a run serves one connection of these doors, at a port, and ends well.
fn serves<R: Threads + Wait + Clock + Copy + Drop + Send + 'static, L: Doors + Send + 'static>(
    rt: R,
    alloc: Global,
    port: u16,
    doors: &mut L,
) -> bool
    requires { (L.told doors.old).given ≡ [] }
{
    let Ok(words) = words_at(alloc, port) else {
        return false;
    };
    let status = run(
        rt,
        alloc,
        &words,
        &mut no_input(alloc),
        &mut sink(alloc),
        doors,
        &mut ThreadSpawner::new(),
        &OpenGate,
    );
    status == Ok(0)
}

#[test]
fn loopback(rt: HostRuntime) -> Result<(), Fail> {
    let Some(port) = free_port(&rt) else {
        return Err("there is a port".into());
    };
    let (told, served) = thread::join(
        &rt,
        || is_told(&rt, port),
        || {
            let mut doors = LoopbackDoors::new(rt, rt.alloc());
            serves(rt, rt.alloc(), port, &mut doors) && doors.fault_count() == 0
        },
    );
    assert!(rt; told && served);
    Ok(())
}
