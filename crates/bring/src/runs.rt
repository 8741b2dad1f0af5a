//! A run: a logger's file is read from a source, the requests go to one sink, and the list of the rows that are not taken to another.

ghost use Rattle.std.specs.Prelude.{◌≡◌, ◌<ℤ◌, pos, IfOk, IfErr, IfSome};
ghost use Rattle.devices.specs.Faults.{Rose};
ghost use Rattle.logger_files.specs.Bringing.{IsBrought};
ghost use Rattle.bring.specs.Runs as runs;
ghost use Rattle.bring.specs.Runs.{Ends, IsEndUnread, IsSilent, IsWrittenAs};

use devices::{Sink, Source, put_all};
use logger_files::{Brought, FileFault, Profile, bring};
use std::alloc::Global;
use whole_inputs::{NotRead, read_whole};

/// How many bytes a logger's file has at most.
pub const MOST_BYTES: usize = 67_108_864;

/// How a run ended.
#[derive(Clone, Copy, Debug, PartialEq, Eq)]
pub enum RunEnd {
    /// Every row was taken.
    AllTaken,
    /// Some rows were not, and the list of them was written.
    SomeLeft,
    /// The file could not be read.
    InputFault,
    /// The requests or the list could not be written.
    OutputFault,
    /// The file is longer than it may be.
    TooLong,
    /// The file has no line of names, or its names lack a column.
    Refused(FileFault),
    /// There was no memory.
    NoMemory,
}

impl From<NotRead> for RunEnd {
    ghost use Rattle.std.specs.Prelude.{◌≡◌};
    ghost use Rattle.bring.specs.Runs.{end_unread};

    ghost from_gives = { λ error end. end ≡ end_unread error };

    fn from(error: NotRead) -> RunEnd {
        match error {
            NotRead::Failed => RunEnd::InputFault,
            NotRead::TooLong => RunEnd::TooLong,
            NotRead::NoMemory => RunEnd::NoMemory,
        }
    }
}

/// How a run ends whose file makes no requests.
fn end_refused(fault: FileFault) -> RunEnd
    ensures { result ≡ runs.end_refused fault }
{
    match fault {
        FileFault::NoNames => RunEnd::Refused(FileFault::NoNames),
        FileFault::NoTimes => RunEnd::Refused(FileFault::NoTimes),
        FileFault::NoValues => RunEnd::Refused(FileFault::NoValues),
        FileFault::NoMemory => RunEnd::NoMemory,
    }
}

/// Reads a logger's file from a source to its end, and writes the requests on one sink and the list of the rows that are not taken on the
/// other. Nothing is written before all of it is judged.
pub fn bring_from<S: Source, K: Sink, L: Sink>(
    alloc: Global,
    profile: &Profile<'_>,
    source: &mut S,
    sink: &mut K,
    list: &mut L,
) -> RunEnd
    requires { pos 0 <ℤ profile.now.unit.divisor }
    ensures ends { Ends result profile.now (S.left source.old) (K.written sink.old) (K.written sink.new) (L.written list.old) (L.written list.new) }
    ensures silent { IsSilent result → (sink.new ≡ sink.old) × (list.new ≡ list.old) }
    ensures input_cause { result ≡ RunEnd.InputFault → Rose (S.faults source.old) (S.faults source.new) }
{
    match brought_of(alloc, profile, source) {
        Ok(brought) => write_both(&brought, sink, list),
        Err(end) => end,
    }
}

/// What is made of the file on a source.
fn brought_of<S: Source>(
    alloc: Global,
    profile: &Profile<'_>,
    source: &mut S,
) -> Result<Brought, RunEnd>
    requires { pos 0 <ℤ profile.now.unit.divisor }
    ensures brought { IfOk result (λ brought. IfSome (S.left source.old) (λ input. IsBrought profile.now input brought)) }
    ensures unread { IfErr result (λ end. IsEndUnread profile.now end (S.left source.old)) }
    ensures silent { IfErr result IsSilent }
    ensures cause { IfErr result (λ end. end ≡ RunEnd.InputFault → Rose (S.faults source.old) (S.faults source.new)) }
{
    let text = read_whole(alloc, source, MOST_BYTES)?;
    match bring(alloc, profile, text.as_slice()) {
        Ok(brought) => Ok(brought),
        Err(fault) => Err(end_refused(fault)),
    }
}

/// Writes the requests and the list, each on its sink.
fn write_both<K: Sink, L: Sink>(brought: &Brought, sink: &mut K, list: &mut L) -> RunEnd
    ensures { IsWrittenAs result brought.now (K.written sink.old) (K.written sink.new) (L.written list.old) (L.written list.new) }
{
    if !put_all(sink, brought.requests.as_slice()) {
        return RunEnd::OutputFault;
    }
    if !put_all(list, brought.left.as_slice()) {
        return RunEnd::OutputFault;
    }
    if brought.left.is_empty() {
        RunEnd::AllTaken
    } else {
        RunEnd::SomeLeft
    }
}
