//! Adapters: TCP connections of this machine, which tell nothing of what comes and goes.

ghost use Rattle.std.specs.Prelude.{◌≡◌, ◌≤◌, ◌++◌, ◌∷◌, [], None, Some, IfSome, IfOk, MatchOption, is_some, option_map};
ghost use Rattle.devices.specs.Failures.{one_more};
ghost use Rattle.devices.specs.Doors.{ends_of, back_under, none_back};
ghost use Rattle.devices.specs.Loopback.{counts_told, told_by_counts, untold};

use crate::{DoorFailed, Doors, Next, ReaderSource, Sink, Source, WriterSink};
use std::alloc::Global;
use std::io::ErrorKind;
use std::net::{Ipv4Addr, TcpListener, TcpStream};
use std::time::Duration;
use std::{io, thread};

/// What comes in by a TCP connection.
pub type TcpSource = ReaderSource<TcpStream>;

/// What goes out by a TCP connection. No signal comes where the other side has closed it: that is a fault of the sink.
pub type TcpSink = WriterSink<TcpStream>;

// How many connections doors may give.
const MOST_CONNECTIONS: usize = 10_000;

// How long one read or one write may wait for the other side, unless it is said.
const PATIENCE_SECONDS: u64 = 300;

// How long to wait before the system is asked again for what it did not have.
const PAUSE_MILLISECONDS: u64 = 10;

// The system's numbers for: it has no descriptor free, a connection broke while it was set up, and there is no room for
// what is kept of a socket.
const ENFILE: i32 = 23;

const EPROTO: i32 = 71;

const ENOBUFS: i32 = 105;

/// The counts of faults of a connection that was closed.
#[derive(Clone, Copy, Debug, PartialEq, Eq, Drop)]
pub struct ClosedEnds {
    /// How many faults its source had.
    pub input_faults: u64,
    /// How many faults its sink had.
    pub output_faults: u64,
}

/// The doors of this machine, at 127.0.0.1. A read or a write of a connection that waits for longer than their patience,
/// which is five minutes unless it is said, is a fault of that end. A connection that the client gave up before it was
/// given is given on Linux, and its first read fails; another system may leave it out. While the system has no descriptor
/// or no memory for another connection, the doors wait for it.
#[derive(Drop)]
pub struct LoopbackDoors {
    rt: HostRuntime,
    listener: Option<TcpListener>,
    places: Vec<Option<ClosedEnds>>,
    faults: u64,
    patience: Duration,
}

impl LoopbackDoors {
    /// Doors that do not listen yet, with no fault so far. A read or a write of a connection waits for five minutes at most.
    pub fn new(rt: HostRuntime, alloc: Global) -> Self
        ensures listener { result.listener ≡ None }
        ensures places { result.places.items ≡ [] }
        ensures faults { result.faults ≡ 0 }
    {
        LoopbackDoors::with_patience(rt, alloc, Duration::from_secs(PATIENCE_SECONDS))
    }

    /// Doors that do not listen yet, with no fault so far. A read or a write of a connection waits for so long at most; of
    /// no time at all no connection could be set up, and none would be given.
    pub fn with_patience(rt: HostRuntime, alloc: Global, patience: Duration) -> Self
        ensures listener { result.listener ≡ None }
        ensures places { result.places.items ≡ [] }
        ensures faults { result.faults ≡ 0 }
    {
        LoopbackDoors {
            rt,
            listener: None,
            places: Vec::new(alloc),
            faults: 0,
            patience,
        }
    }

    /// The port at which they listen, where the system tells it. It is the system's choice where they listen at port 0.
    pub fn port(&self) -> Option<u16> {
        Some(self.listener.as_ref()?.local_addr().ok()?.port())
    }

    /// The counts of faults of the connection with this number, once it was taken back.
    pub fn closed(&self, number: u32) -> Option<ClosedEnds>
        ensures { MatchOption result (back_under (λ place. option_map counts_told place) self.now.places.items number ≡ None) (λ ends. back_under (λ place. option_map counts_told place) self.now.places.items number ≡ Some (counts_told ends)) }
    {
        let place = (number as usize).checked_sub(1)?;
        *self.places.get(place)?
    }

    /// How many faults there were. The count stops at the end of a `u64`.
    pub fn fault_count(&self) -> u64
        ensures { result ≡ self.now.faults }
    {
        self.faults
    }

    fn count_fault(&mut self)
        ensures faults { self.new.faults ≡ one_more self.old.faults }
        ensures later { self.old.faults ≤ self.new.faults }
        ensures listener { self.new.listener ≡ self.old.listener }
        ensures places { self.new.places ≡ self.old.places }
    {
        self.faults = self.faults.saturating_add(1);
    }

    // Makes room for every connection that may come, so that none is waited for in vain, and takes the port.
    fn bind(&mut self, port: u16) -> io::Result<TcpListener>
        ensures places { self.new.places.items ≡ self.old.places.items }
        ensures listener { self.new.listener ≡ self.old.listener }
        ensures faults { self.new.faults ≡ self.old.faults }
    {
        self.places.reserve(MOST_CONNECTIONS)?;
        TcpListener::bind(&self.rt, (Ipv4Addr::LOCALHOST, port))
    }

    // Waits for a connection, and keeps a place for it.
    fn open(&mut self) -> Option<(TcpSource, TcpSink)>
        ensures given { MatchOption result (self.new.places.items ≡ self.old.places.items) (λ ends. (self.new.places.items ≡ self.old.places.items ++ None ∷ []) × (ends_of ⟦<TcpSource as Source>⟧ ⟦<TcpSink as Sink>⟧ ends.0 ends.1 ≡ untold)) }
        ensures listener { self.new.listener ≡ self.old.listener }
        ensures faults { self.new.faults ≡ self.old.faults }
    {
        self.places.reserve(1).ok()?;
        let ends = accept(&self.rt, self.listener.as_ref()?, self.patience)?;
        self.places.push_reserved(None);
        Some(ends)
    }
}

impl Doors for LoopbackDoors {
    type In = TcpSource;

    type Out = TcpSink;

    type Back = ClosedEnds;

    ghost listens = { λ d. is_some d.listener };

    ghost told = { λ d. told_by_counts d.places.items };

    ghost faults = { λ d. d.faults };

    ghost ends = { counts_told };

    ghost only_given = { λ d number behind. none_back (λ _. untold) (λ place. option_map counts_told place) d.places.items number behind };

    fn listen(&mut self, port: u16) -> Result<(), DoorFailed> {
        match self.bind(port) {
            Ok(listener) => {
                self.listener = Some(listener);
                Ok(())
            }
            Err(_) => {
                self.count_fault();
                Err(DoorFailed)
            }
        }
    }

    fn next(&mut self) -> Next<TcpSource, TcpSink> {
        match self.open() {
            Some((input, output)) => Next::Open(input, output),
            None => {
                self.count_fault();
                Next::Failed
            }
        }
    }

    // Both ends are closed here.
    fn finish(input: TcpSource, output: TcpSink) -> ClosedEnds {
        ClosedEnds {
            input_faults: input.fault_count(),
            output_faults: output.fault_count(),
        }
    }

    fn take_back(&mut self, number: u32, back: ClosedEnds) {
        self.places[number as usize - 1] = Some(back);
    }
}

// Waits for a connection that can be had. One whose socket can't be set up is not waited for.
fn accept(
    rt: &HostRuntime,
    listener: &TcpListener,
    patience: Duration,
) -> Option<(TcpSource, TcpSink)>
    ensures { IfSome result (λ ends. ends_of ⟦<TcpSource as Source>⟧ ⟦<TcpSink as Sink>⟧ ends.0 ends.1 ≡ untold) }
{
    for _ in 0..u64::MAX {
        match listener.accept() {
            Ok((stream, _)) => {
                if let Ok(ends) = ends_over(rt, stream, patience) {
                    return Some(ends);
                }
            }
            Err(error) if passes(&error) => pause(rt),
            Err(_) => return None,
        }
    }
    None
}

fn pause(rt: &HostRuntime) {
    thread::sleep(rt, Duration::from_millis(PAUSE_MILLISECONDS));
}

// Whether an error of the system passes by itself: it has no descriptor or no memory now, or the client went away while
// the connection was set up.
fn passes(error: &io::Error) -> bool {
    match error.raw_os_error() {
        Some(number) => [
            libc::EMFILE,
            ENFILE,
            ENOBUFS,
            libc::ENOMEM,
            libc::ECONNABORTED,
            EPROTO,
        ]
        .contains(&number),
        None => false,
    }
}

// The two ends of a stream. The reads and writes of both are bounded, and a reply goes out at once.
fn ends_over(
    rt: &HostRuntime,
    stream: TcpStream,
    patience: Duration,
) -> io::Result<(TcpSource, TcpSink)>
    ensures { IfOk result (λ ends. ends_of ⟦<TcpSource as Source>⟧ ⟦<TcpSink as Sink>⟧ ends.0 ends.1 ≡ untold) }
{
    stream.set_read_timeout(Some(patience))?;
    stream.set_write_timeout(Some(patience))?;
    // Where it can't be set, a reply is late and no more.
    let _ = stream.set_nodelay(true);
    let other = second_handle(rt, &stream)?;
    Ok((ReaderSource::new(stream), WriterSink::new(other)))
}

// Another handle on a stream, as soon as the system has a descriptor for it.
fn second_handle(rt: &HostRuntime, stream: &TcpStream) -> io::Result<TcpStream> {
    for _ in 0..u64::MAX {
        match stream.try_clone() {
            Err(error) if passes(&error) => pause(rt),
            result => return result,
        }
    }
    Err(io::Error::from(ErrorKind::TimedOut))
}
