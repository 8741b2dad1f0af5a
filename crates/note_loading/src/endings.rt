//! How the loading of measurement notes ends.

use fixed_units::NoMemory;
use midsection::NotesFault;
use whole_inputs::NotRead;

/// How the loading of measurement notes ended.
#[derive(Clone, Copy, Debug, PartialEq, Eq)]
pub enum NotesEnd {
    /// The office was asked the measurement, and each line was written.
    Done,
    /// The source failed.
    InputFault,
    /// The sink failed.
    OutputFault,
    /// The input is longer than notes may be.
    TooLong,
    /// The input is no measurement notes, by its first fault, which is not want of memory.
    Refused(NotesFault),
    /// There was no memory for the notes.
    NoMemory,
}

impl From<NotRead> for NotesEnd {
    ghost use Rattle.std.specs.Prelude.{◌≡◌};
    ghost use Rattle.note_loading.specs.Endings.{end_unread};

    ghost from_gives = { λ error end. end ≡ end_unread error };

    fn from(error: NotRead) -> NotesEnd {
        match error {
            NotRead::Failed => NotesEnd::InputFault,
            NotRead::TooLong => NotesEnd::TooLong,
            NotRead::NoMemory => NotesEnd::NoMemory,
        }
    }
}

impl From<NotesFault> for NotesEnd {
    ghost use Rattle.std.specs.Prelude.{◌≡◌};
    ghost use Rattle.note_loading.specs.Endings.{end_refused};

    ghost from_gives = { λ fault end. end ≡ end_refused fault };

    fn from(fault: NotesFault) -> NotesEnd {
        match fault {
            NotesFault::NoMemory => NotesEnd::NoMemory,
            fault => NotesEnd::Refused(fault),
        }
    }
}

impl From<NoMemory> for NotesEnd {
    ghost use Rattle.std.specs.Prelude.{◌≡◌};
    ghost use Rattle.note_loading.specs.declared.endings.NotesEnd.TheVariants as NotesEnds;

    ghost from_gives = { λ _ end. end ≡ NotesEnds.NoMemory };

    fn from(_error: NoMemory) -> NotesEnd {
        NotesEnd::NoMemory
    }
}
