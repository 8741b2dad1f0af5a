//! A connection of this machine, and connections in memory.

use devices::{
    ClosedEnds, Doors, LoopbackDoors, MemoryDoors, MemoryEnds, MemorySink, MemorySource, Next, Put,
    Sink, Source, TcpSink, TcpSource, Took,
};
use std::alloc::{AllocError, Global};
use std::io;
use std::io::{Read, Write};
use std::net::{Shutdown, TcpStream};
use std::test::Fail;
use std::time::Duration;

/// Asks at a port, as a client that then has nothing more to say.
fn ask(rt: &HostRuntime, port: u16) -> io::Result<TcpStream> {
    let mut client = TcpStream::connect(rt, ("127.0.0.1", port))?;
    client.write_all(b"stage")?;
    client.shutdown(Shutdown::Write)?;
    Ok(client)
}

/// Whether a source gives these bytes and then nothing more; they come in one piece.
fn gives<S: Source>(source: &mut S, due: &[u8; 5]) -> bool {
    let mut room = [0; 5];
    source.take(&mut room) == Took::Bytes(5) && room == *due && source.take(&mut room) == Took::End
}

fn takes<K: Sink>(sink: &mut K, bytes: &[u8; 3]) -> bool {
    sink.put(bytes) == Put::Bytes(3)
}

/// Whether the client is told these bytes, and the connection is closed then.
fn is_told(client: &mut TcpStream, due: &[u8; 3]) -> bool {
    let mut room = [0; 3];
    client.read_exact(&mut room).is_ok() && room == *due && matches!(client.read(&mut room), Ok(0))
}

/// Serves a connection of this machine.
fn serves(mut input: TcpSource, mut output: TcpSink) -> Option<ClosedEnds> {
    let served = gives(&mut input, b"stage") && takes(&mut output, b"9.5");
    let closed = LoopbackDoors::finish(input, output);
    if served { Some(closed) } else { None }
}

/// Listens where the system chooses, and serves one client.
fn serves_one(rt: HostRuntime) -> bool {
    let mut doors = LoopbackDoors::new(rt, rt.alloc());
    if doors.listen(0).is_err() {
        return false;
    }
    let Some(mut client) = doors.port().and_then(|port| ask(&rt, port).ok()) else {
        return false;
    };
    let Next::Open(input, output) = doors.next() else {
        return false;
    };
    let Some(closed) = serves(input, output) else {
        return false;
    };
    let None = doors.closed(1) else {
        return false;
    };
    doors.take_back(1, closed);
    is_told(&mut client, b"9.5")
        && doors.fault_count() == 0
        && doors.closed(1)
            == Some(ClosedEnds {
                input_faults: 0,
                output_faults: 0,
            })
        && doors.closed(2).is_none()
}

#[test]
fn a_connection_of_this_machine(rt: HostRuntime) {
    assert!(rt; serves_one(rt));
}

/// Listens at a port where others listen already.
fn refuses_a_port_in_use(rt: HostRuntime) -> bool {
    let mut doors = LoopbackDoors::new(rt, rt.alloc());
    let mut late = LoopbackDoors::new(rt, rt.alloc());
    if doors.listen(0).is_err() {
        return false;
    }
    match doors.port() {
        Some(port) => late.listen(port).is_err() && late.fault_count() == 1,
        None => false,
    }
}

#[test]
fn a_port_in_use(rt: HostRuntime) {
    assert!(rt; refuses_a_port_in_use(rt));
}

/// Listens where the system chooses, at this machine's own address and no other of its addresses.
fn refuses_another_address(rt: HostRuntime) -> bool {
    let mut doors = LoopbackDoors::new(rt, rt.alloc());
    if doors.listen(0).is_err() {
        return false;
    }
    match doors.port() {
        Some(port) => TcpStream::connect(&rt, ("127.0.0.2", port)).is_err(),
        None => false,
    }
}

#[test]
fn another_address_of_this_machine(rt: HostRuntime) {
    assert!(rt; refuses_another_address(rt));
}

/// Whether a connection whose client says nothing has a fault of its input, and of that alone.
fn waits_in_vain(mut input: TcpSource, output: TcpSink) -> bool {
    let failed = input.take(&mut [0]) == Took::Failed;
    let closed = LoopbackDoors::finish(input, output);
    failed && closed.input_faults == 1 && closed.output_faults == 0
}

/// Listens with little patience, and gives a client that says nothing and then one that asks.
fn serves_behind_a_silent_one(rt: HostRuntime) -> bool {
    let mut doors = LoopbackDoors::with_patience(rt, rt.alloc(), Duration::from_millis(50));
    if doors.listen(0).is_err() {
        return false;
    }
    let Some(port) = doors.port() else {
        return false;
    };
    let Ok(_silent) = TcpStream::connect(&rt, ("127.0.0.1", port)) else {
        return false;
    };
    let Next::Open(input, output) = doors.next() else {
        return false;
    };
    let in_vain = waits_in_vain(input, output);
    let Ok(mut client) = ask(&rt, port) else {
        return false;
    };
    let Next::Open(input, output) = doors.next() else {
        return false;
    };
    in_vain
        && serves(input, output).is_some()
        && is_told(&mut client, b"9.5")
        && doors.fault_count() == 0
}

#[test]
fn a_client_that_says_nothing(rt: HostRuntime) {
    assert!(rt; serves_behind_a_silent_one(rt));
}

/// The two ends of a connection in memory, the second of whose reads is to fail.
fn ends(alloc: Global) -> Result<MemoryEnds, AllocError> {
    Ok(MemoryEnds {
        input: MemorySource::new(vec![in alloc; 57]?, vec![in alloc; 2]?, 1),
        output: MemorySink::new(alloc, Vec::new(alloc), 1),
    })
}

/// Doors in memory, whose second call is to fail.
fn doors(alloc: Global) -> Result<MemoryDoors, AllocError> {
    let mut doors = MemoryDoors::new(alloc, vec![in alloc; 2]?);
    doors.add(ends(alloc)?)?;
    Ok(doors)
}

/// Whether the one connection is given after a fault, is kept with its fault, and no other comes.
fn gives_one_back(mut doors: MemoryDoors) -> bool {
    if doors.listen(80).is_err() || doors.given_count() != 0 {
        return false;
    }
    let Next::Failed = doors.next() else {
        return false;
    };
    let Next::Open(mut input, output) = doors.next() else {
        return false;
    };
    let mut room = [0];
    let taken = input.take(&mut room) == Took::Bytes(1) && input.take(&mut room) == Took::Failed;
    let None = doors.ends(1) else {
        return false;
    };
    doors.take_back(1, MemoryDoors::finish(input, output));
    let kept = doors
        .ends(1)
        .is_some_and(|ends| ends.input.fault_count() == 1);
    taken && kept && doors.given_count() == 1 && doors.fault_count() == 1
}

#[test]
fn a_connection_in_memory(rt: HostRuntime) -> Result<(), Fail> {
    let doors = doors(rt.alloc())?;
    assert!(rt; gives_one_back(doors));
    Ok(())
}
