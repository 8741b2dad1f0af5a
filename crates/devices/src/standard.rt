//! Adapters: a reader as a source and a writer as a sink, which is how the standard streams are reached.
//! They tell of content what the reader or the writer tells. At the standard streams that is nothing, since
//! no clause can say what a terminal gives or takes.
ghost use Rattle.std.specs.Prelude.{◌≡◌, ◌≤◌, IfOk, length};
ghost use Rattle.std.specs.Io.KnownBytes.{ReadConsumes, WriteAppends};

use crate::{Put, Sink, Source, Took};
use std::fs::File;
use std::io;
use std::io::{ErrorKind, Read, Stderr, Stdin, Stdout, Write};
use std::os::fd::{AsRawFd, IntoRawFd};

/// A reader as a source, with its counts of faults and ends.
#[derive(Drop)]
pub struct ReaderSource<R> {
    reader: R,
    faults: u64,
    ends: u64,
}

/// A writer as a sink, with its count of faults. One with a buffer of its own would keep bytes back: the
/// standard streams have none.
#[derive(Drop)]
pub struct WriterSink<W> {
    writer: W,
    faults: u64,
}

/// The standard input.
pub type StdinSource = ReaderSource<Stdin>;

/// The standard output.
pub type StdoutSink = WriterSink<Stdout>;

/// The standard error.
pub type StderrSink = WriterSink<Stderr>;

/// Takes up the number of each standard stream that the program was started without, with a file that can be neither
/// read nor written, for as long as the program runs. So a missing stream fails where it is used, and no file that is
/// opened later becomes one. It is to be called before any file is opened.
pub fn take_up_missing_streams(rt: &HostRuntime) {
    for _ in 0..3 {
        // A file gets the lowest number that is free.
        match File::open(rt, "/") {
            Ok(folder) if folder.as_raw_fd() <= 2 => {
                let _number = folder.into_raw_fd();
            }
            _ => return,
        }
    }
}

impl<R: Read> ReaderSource<R> {
    /// A source that reads from this, with no fault so far.
    pub fn new(reader: R) -> Self
        ensures left { ⟦<ReaderSource<R> as Source>⟧.left result ≡ R.remaining reader }
        ensures faults { ⟦<ReaderSource<R> as Source>⟧.faults result ≡ 0 }
        ensures ends { ⟦<ReaderSource<R> as Source>⟧.ends result ≡ 0 }
    {
        ReaderSource {
            reader,
            faults: 0,
            ends: 0,
        }
    }

    /// How many faults there were.
    pub fn fault_count(&self) -> u64
        ensures { result ≡ ⟦<ReaderSource<R> as Source>⟧.faults self.now }
    {
        self.faults
    }
}

impl<R: Read> Source for ReaderSource<R> {
    ghost left = { λ s. R.remaining s.reader };

    ghost faults = { λ s. s.faults };

    ghost ends = { λ s. s.ends };

    fn take(&mut self, into: &mut [u8]) -> Took {
        match read_once(&mut self.reader, into) {
            Ok(0) => {
                self.ends = self.ends.saturating_add(1);
                Took::End
            }
            Ok(count) => Took::Bytes(count),
            Err(_) => {
                self.faults = self.faults.saturating_add(1);
                Took::Failed
            }
        }
    }
}

impl<W: Write> WriterSink<W> {
    /// A sink that writes to this, with no fault so far.
    pub fn new(writer: W) -> Self
        ensures written { ⟦<WriterSink<W> as Sink>⟧.written result ≡ W.contents writer }
        ensures faults { ⟦<WriterSink<W> as Sink>⟧.faults result ≡ 0 }
    {
        WriterSink { writer, faults: 0 }
    }

    /// How many faults there were.
    pub fn fault_count(&self) -> u64
        ensures { result ≡ ⟦<WriterSink<W> as Sink>⟧.faults self.now }
    {
        self.faults
    }
}

impl<W: Write> Sink for WriterSink<W> {
    ghost written = { λ s. W.contents s.writer };

    ghost faults = { λ s. s.faults };

    fn put(&mut self, bytes: &[u8]) -> Put {
        match write_once(&mut self.writer, bytes) {
            Ok(count) if count > 0 => Put::Bytes(count),
            // A write that took nothing would be tried for ever.
            _ => {
                self.faults = self.faults.saturating_add(1);
                Put::Failed
            }
        }
    }
}

// One read. A signal that came first is no fault: the read is begun again.
fn read_once<R: Read>(reader: &mut R, into: &mut [u8]) -> io::Result<usize>
    ensures within { IfOk result (λ count. count ≤ length into.new) }
    ensures bytes { ReadConsumes (R.remaining reader.old) (R.remaining reader.new) result into.new }
{
    'tries: for _ in 0..u64::MAX {
        match reader.read(into) {
            Err(error) if error.kind() == ErrorKind::Interrupted => {}
            result => return result,
        }
    }
    Err(io::Error::from(ErrorKind::Interrupted))
}

// One write. A signal that came first is no fault: the write is begun again.
fn write_once<W: Write>(writer: &mut W, bytes: &[u8]) -> io::Result<usize>
    ensures within { IfOk result (λ count. count ≤ length bytes.now) }
    ensures bytes { WriteAppends (W.contents writer.old) (W.contents writer.new) result bytes.now }
{
    'tries: for _ in 0..u64::MAX {
        match writer.write(bytes) {
            Err(error) if error.kind() == ErrorKind::Interrupted => {}
            result => return result,
        }
    }
    Err(io::Error::from(ErrorKind::Interrupted))
}
