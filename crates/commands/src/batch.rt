//! `batch`: the requests of an input are replied to, over the journal under a name.

ghost use Rattle.std.specs.Prelude.{◌≡◌, IfOk};
ghost use Rattle.commands.specs.Opening.{Carries, RunsOver};
ghost use Rattle.commands.specs.Batch.{IsUnserved, ServedBetween, SessionCause};
ghost use Rattle.commands.specs.Worlds.{shelf, sink_told, source_told};

use crate::endings::Ending;
use crate::opening::{close_office, open_office};
use desk::{SessionEnd, session_alone};
use devices::{Cabinet, Sink, Source};
use journal::OpenFault;
use std::alloc::Global;

impl From<SessionEnd> for Ending {
    ghost use Rattle.std.specs.Prelude.{◌≡◌};
    ghost use Rattle.commands.specs.Batch.{session_ending};

    ghost from_gives = { λ end ending. ending ≡ session_ending end };

    fn from(end: SessionEnd) -> Ending {
        match end {
            SessionEnd::End => Ending::Done,
            SessionEnd::InputFault => Ending::InputFault,
            SessionEnd::OutputFault => Ending::OutputFault,
            SessionEnd::NoMemory => Ending::NoMemory,
            SessionEnd::Malformed(at) => Ending::Malformed(at),
            SessionEnd::Long => Ending::TooLong,
        }
    }
}

impl From<Result<SessionEnd, OpenFault>> for Ending {
    ghost use Rattle.std.specs.Prelude.{◌≡◌};
    ghost use Rattle.commands.specs.Opening.{ending_over};
    ghost use Rattle.commands.specs.Batch.{session_ending};

    ghost from_gives = { λ end ending. ending ≡ ending_over session_ending end };

    fn from(end: Result<SessionEnd, OpenFault>) -> Ending {
        match end {
            Ok(end) => Ending::from(end),
            Err(why) => Ending::from(why),
        }
    }
}

/// Replies to the requests of the input, over the journal under a name. The journal is opened before the input is read.
pub(crate) fn serve_input<C: Cabinet, S: Source, K: Sink>(
    alloc: Global,
    cabinet: &mut C,
    name: &str,
    input: &mut S,
    output: &mut K,
) -> Result<SessionEnd, OpenFault>
    ensures over { RunsOver C.Disk.Disk name.now (Carries C.Disk.Disk) (ServedBetween (source_told S.Source input.old) (source_told S.Source input.new)
        (sink_told K.Sink output.old) (sink_told K.Sink output.new)) result
        (shelf C.Cabinet cabinet.old) (shelf C.Cabinet cabinet.new) }
    ensures cause { IfOk result (SessionCause (source_told S.Source input.old) (source_told S.Source input.new)
        (sink_told K.Sink output.old) (sink_told K.Sink output.new)) }
    ensures unserved { IsUnserved result → (input.new ≡ input.old) × (output.new ≡ output.old) }
{
    let mut office = open_office(alloc, cabinet, name)?;
    let end = session_alone(alloc, &mut office, input, output);
    close_office(cabinet, name, office);
    Ok(end)
}
