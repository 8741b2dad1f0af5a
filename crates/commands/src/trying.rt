//! The trial of a number: a made-up record is asked of an office over a disk in memory, and its figures are written.

ghost use Rattle.std.specs.Prelude.{◌≡◌};
ghost use Rattle.devices.specs.Faults.{Rose};
ghost use Rattle.commands.specs.Trying.{IsTried};

use crate::endings::Ending;
use devices::{Sink, put_all};
use std::alloc::Global;
use trial::run_trial;

/// How a trial ended.
#[derive(Clone, Copy, Debug, PartialEq, Eq)]
pub enum TrialEnd {
    /// Its text was written.
    Done,
    /// The sink failed.
    OutputFault,
    /// There was no memory for the trial.
    NoMemory,
}

impl From<TrialEnd> for Ending {
    ghost use Rattle.std.specs.Prelude.{◌≡◌};
    ghost use Rattle.commands.specs.Trying.{trial_ending};

    ghost from_gives = { λ end ending. ending ≡ trial_ending end };

    fn from(end: TrialEnd) -> Ending {
        match end {
            TrialEnd::Done => Ending::Done,
            TrialEnd::OutputFault => Ending::OutputFault,
            TrialEnd::NoMemory => Ending::NoMemory,
        }
    }
}

/// Runs the trial of a number, and writes its text. Nothing is written before the whole text is there.
pub(crate) fn write_trial<K: Sink>(alloc: Global, number: u32, sink: &mut K) -> TrialEnd
    ensures tried { IsTried number result (K.written sink.old) (K.written sink.new) }
    ensures cause { result ≡ TrialEnd.OutputFault → Rose (K.faults sink.old) (K.faults sink.new) }
    ensures unwritten { result ≡ TrialEnd.NoMemory → sink.new ≡ sink.old }
{
    let Ok(text) = run_trial(alloc, number) else {
        return TrialEnd::NoMemory;
    };
    if put_all(sink, text.as_slice()) {
        TrialEnd::Done
    } else {
        TrialEnd::OutputFault
    }
}
