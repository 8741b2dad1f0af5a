//! What real streams do, and streams that falter.

ghost use Rattle.std.specs.Prelude.{◌≤◌, IfOk};

use devices::{
    Put, ReaderSource, Sink, Source, StderrSink, StdinSource, StdoutSink, Took, WriterSink,
};
use std::io;
use std::io::{ErrorKind, Read, Write};

// A stream that is interrupted, goes on, fails and goes on with nothing.
#[derive(Drop)]
struct Faltering {
    calls: u8,
}

impl Faltering {
    fn answer(&mut self, room: usize) -> io::Result<usize>
        ensures { IfOk result (λ count. count ≤ room) }
    {
        self.calls = self.calls.saturating_add(1);
        match self.calls {
            1 => Err(io::Error::from(ErrorKind::Interrupted)),
            2 => Ok(room.min(3)),
            3 => Err(io::Error::from(ErrorKind::BrokenPipe)),
            _ => Ok(0),
        }
    }
}

impl Read for Faltering {
    fn read(&mut self, buf: &mut [u8]) -> io::Result<usize> {
        self.answer(buf.len())
    }
}

impl Write for Faltering {
    fn write(&mut self, buf: &[u8]) -> io::Result<usize> {
        self.answer(buf.len())
    }

    fn flush(&mut self) -> io::Result<()> {
        Ok(())
    }
}

/// What a source gives in a room of 10 bytes.
fn taken<S: Source>(source: &mut S) -> Took {
    let mut room = [0; 10];
    source.take(&mut room)
}

fn is_at_its_end<S: Source>(source: &mut S) -> bool {
    matches!(taken(source), Took::End)
}

/// A test finds nothing on its standard input.
#[test]
fn standard_input(rt: HostRuntime) {
    let mut input = StdinSource::new(rt.stdin());
    let ended = is_at_its_end(&mut input);
    assert!(rt; ended && input.fault_count() == 0);
}

fn falters<S: Source>(input: &mut S) -> bool {
    matches!(taken(input), Took::Bytes(3))
        && matches!(taken(input), Took::Failed)
        && is_at_its_end(input)
}

#[test]
fn a_reader_that_falters(rt: HostRuntime) {
    let mut input = ReaderSource::new(Faltering { calls: 0 });
    let taken = falters(&mut input);
    assert!(rt; taken && input.fault_count() == 1);
}

/// What comes of putting bytes, where there are some.
fn put<K: Sink>(sink: &mut K, bytes: &[u8]) -> Option<Put> {
    if bytes.is_empty() {
        return None;
    }
    Some(sink.put(bytes))
}

fn takes_seven<K: Sink>(sink: &mut K, text: &[u8]) -> bool {
    matches!(put(sink, text), Some(Put::Bytes(7)))
}

#[test]
fn standard_output(rt: HostRuntime) {
    let mut output = StdoutSink::new(rt.stdout());
    let taken = takes_seven(&mut output, b"output\n");
    assert!(rt; taken && output.fault_count() == 0);
}

fn fails<K: Sink>(sink: &mut K) -> bool {
    matches!(put(sink, b"stage 9"), Some(Put::Failed))
}

fn falters_too<K: Sink>(sink: &mut K) -> bool {
    matches!(put(sink, b"stage 9"), Some(Put::Bytes(3))) && fails(sink) && fails(sink)
}

#[test]
fn a_writer_that_falters(rt: HostRuntime) {
    let mut output = WriterSink::new(Faltering { calls: 0 });
    let done = falters_too(&mut output);
    assert!(rt; done && output.fault_count() == 2);
}

#[test]
fn standard_error(rt: HostRuntime) {
    let mut faults = StderrSink::new(rt.stderr());
    let taken = takes_seven(&mut faults, b"faults\n");
    assert!(rt; taken && faults.fault_count() == 0);
}
