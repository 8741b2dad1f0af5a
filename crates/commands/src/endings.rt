//! The status and the line with which the program ends.

ghost use Rattle.std.specs.Prelude.{◌≡◌, ◌≤◌, ◌++◌, ◌∷◌, [], false, decimal};
ghost use Rattle.commands.specs.Statuses.{IsReported, line_of, status_of, unit_code};
ghost use Rattle.commands.specs.Worlds.{sink_told};
ghost use Rattle.devices.specs.Faults.{Rose};
ghost use Rattle.devices.specs.Sinks.{AreWritten};

use devices::{Sink, put_all};
use midsection::NotesFault;
use rdb_records::UnitFault;

/// What a run comes to, whatever its command.
#[derive(Clone, Copy, Debug, PartialEq, Eq)]
pub enum Ending {
    /// What was asked is done.
    Done,
    /// The words are no command.
    Usage,
    /// The input failed.
    InputFault,
    /// The output failed.
    OutputFault,
    /// The cabinet or a disk failed while a journal was made or opened.
    DiskFault,
    /// What stands in the journal's place is no journal, or nothing does.
    NotAJournal,
    /// The journal is damaged at this offset.
    Damaged(u64),
    /// There was no memory.
    NoMemory,
    /// The doors failed.
    DoorFault,
    /// A journal stands there already.
    Exists,
    /// What stands at this offset of the input is no well framed request.
    Malformed(u64),
    /// The input is no document of stations.
    NotADocument,
    /// More of the input is needed than may be taken.
    TooLong,
    /// The input is no unit values of a site, by its first fault.
    UnitsRefused(UnitFault),
    /// The input is longer than unit values may be.
    UnitsTooLong,
    /// The input is no notes of a measurement, by its first fault.
    NotesRefused(NotesFault),
    /// The input is longer than the notes of a measurement may be.
    NotesTooLong,
    /// The journal to which another is copied is of the first format, where the number is 0, or its record of this number is not the other's.
    Differs(u64),
    /// A journal would be longer than one may be.
    JournalFull,
}

impl Ending {
    /// The status of the program, whose line is put.
    pub(crate) fn finish<E: Sink>(self, faults: &mut E) -> u8
        ensures status { result ≡ status_of self }
        ensures line { IsReported (line_of self) (sink_told E.Sink faults.old) (sink_told E.Sink faults.new) }
    {
        self.report(faults);
        self.status()
    }

    /// The status of the program.
    fn status(self) -> u8
        ensures { result ≡ status_of self }
    {
        match self {
            Ending::Done => 0,
            Ending::Usage => 1,
            Ending::InputFault => 2,
            Ending::OutputFault => 3,
            Ending::DiskFault => 4,
            Ending::NotAJournal | Ending::Damaged(_) => 5,
            Ending::NoMemory => 6,
            Ending::DoorFault => 7,
            Ending::Exists => 8,
            Ending::Malformed(_) | Ending::NotADocument => 9,
            Ending::TooLong => 10,
            Ending::Differs(_) => 11,
            Ending::JournalFull => 12,
            Ending::UnitsRefused(_) | Ending::UnitsTooLong => 13,
            Ending::NotesRefused(_) | Ending::NotesTooLong => 14,
        }
    }

    /// Puts the line of the ending; a sink that fails changes nothing.
    fn report<E: Sink>(self, faults: &mut E)
        ensures { IsReported (line_of self) (sink_told E.Sink faults.old) (sink_told E.Sink faults.new) }
    {
        match self {
            Ending::Done => {}
            Ending::Usage => say(
                faults,
                b"streamoffice: usage: init, batch, serve, stations or trial\n",
            ),
            Ending::InputFault => say(faults, b"streamoffice: input fault\n"),
            Ending::OutputFault => say(faults, b"streamoffice: output fault\n"),
            Ending::DiskFault => say(faults, b"streamoffice: disk fault\n"),
            Ending::NotAJournal => say(faults, b"streamoffice: not a journal\n"),
            Ending::Damaged(at) => say_offset(faults, b"streamoffice: damaged at ", at),
            Ending::NoMemory => say(faults, b"streamoffice: out of memory\n"),
            Ending::DoorFault => say(faults, b"streamoffice: door fault\n"),
            Ending::Exists => say(faults, b"streamoffice: journal exists\n"),
            Ending::Malformed(at) => say_offset(faults, b"streamoffice: malformed at ", at),
            Ending::NotADocument => say(faults, b"streamoffice: not a station document\n"),
            Ending::TooLong => say(faults, b"streamoffice: input too long\n"),
            Ending::UnitsRefused(fault) => say_units(faults, fault),
            Ending::UnitsTooLong => {
                say_code(faults, b"streamoffice: rdb ", "Long", b" at line ", 0);
            }
            Ending::NotesRefused(fault) => say_notes(faults, fault),
            Ending::NotesTooLong => say_code(faults, b"streamoffice: notes ", "Long", b" at ", 0),
            Ending::Differs(number) => {
                say_offset(faults, b"streamoffice: journals differ at ", number);
            }
            Ending::JournalFull => say(faults, b"streamoffice: journal full\n"),
        }
    }
}

/// Ends a run for whose words there was no memory: the status 6, whose line is put. Nothing else is done.
pub fn end_without_memory<E: Sink>(faults: &mut E) -> u8
    ensures status { result ≡ 6 }
    ensures line { IsReported (line_of Ending.NoMemory) (sink_told E.Sink faults.old) (sink_told E.Sink faults.new) }
{
    Ending::NoMemory.finish(faults)
}

/// Puts a line, or as much of it as the sink takes.
fn say<E: Sink>(faults: &mut E, line: &[u8])
    ensures { IsReported line.now (sink_told E.Sink faults.old) (sink_told E.Sink faults.new) }
{
    let _whole = put_all(faults, line);
}

/// Puts a line of words and an offset or a number, or as much of it as the sink takes.
fn say_offset<E: Sink>(faults: &mut E, words: &[u8], at: u64)
    ensures { IsReported (words.now ++ (decimal at ++ 10 ∷ [])) (sink_told E.Sink faults.old) (sink_told E.Sink faults.new) }
{
    let mut buffer = itoa::Buffer::new();
    let _whole = put_digits(faults, words, buffer.format(at).as_bytes());
}

/// Puts the line of what makes an input no unit values.
fn say_units<E: Sink>(faults: &mut E, fault: UnitFault)
    ensures { IsReported (line_of (Ending.UnitsRefused fault)) (sink_told E.Sink faults.old) (sink_told E.Sink faults.new) }
{
    say_code(
        faults,
        b"streamoffice: rdb ",
        unit_code(fault),
        b" at line ",
        fault.line(),
    );
}

/// Puts the line of what makes an input no notes.
fn say_notes<E: Sink>(faults: &mut E, fault: NotesFault)
    ensures { IsReported (line_of (Ending.NotesRefused fault)) (sink_told E.Sink faults.old) (sink_told E.Sink faults.new) }
{
    say_code(
        faults,
        b"streamoffice: notes ",
        fault.code(),
        b" at ",
        fault.record_number(),
    );
}

/// The code of what makes a text no unit values.
fn unit_code(fault: UnitFault) -> &'static str
    ensures { result.now ≡ unit_code fault }
{
    match fault {
        UnitFault::NoNames => "NoNames",
        UnitFault::NoColumn(_) => "NoColumn",
        UnitFault::Site(_) => "Site",
        UnitFault::Zone(_) => "Zone",
        UnitFault::Instant(_) => "Instant",
        UnitFault::Order(_) => "Order",
        UnitFault::Range(_) => "Range",
        UnitFault::NoMemory => "NoMemory",
    }
}

/// Puts a line of words, a code, further words and a number, or as much of it as the sink takes.
fn say_code<E: Sink>(faults: &mut E, kind: &[u8], code: &str, place: &[u8], at: u64)
    ensures { IsReported (kind.now ++ (code.now ++ (place.now ++ (decimal at ++ 10 ∷ [])))) (sink_told E.Sink faults.old) (sink_told E.Sink faults.new) }
{
    let mut buffer = itoa::Buffer::new();
    let _whole = put_code(
        faults,
        kind,
        code.as_bytes(),
        place,
        buffer.format(at).as_bytes(),
    );
}

/// Puts words, a code, further words, digits and the end of a line; whether the sink took them.
fn put_code<E: Sink>(faults: &mut E, kind: &[u8], code: &[u8], place: &[u8], digits: &[u8]) -> bool
    ensures written { AreWritten (E.written faults.old) (kind.now ++ (code.now ++ (place.now ++ (digits.now ++ 10 ∷ [])))) (E.written faults.new) result }
    ensures counted { E.faults faults.old ≤ E.faults faults.new }
    ensures cause { result ≡ false → Rose (E.faults faults.old) (E.faults faults.new) }
{
    if !put_all(faults, kind) {
        return false;
    }
    if !put_all(faults, code) {
        return false;
    }
    put_digits(faults, place, digits)
}

/// Puts words, digits and the end of a line; whether the sink took them.
fn put_digits<E: Sink>(faults: &mut E, words: &[u8], digits: &[u8]) -> bool
    ensures written { AreWritten (E.written faults.old) (words.now ++ (digits.now ++ 10 ∷ [])) (E.written faults.new) result }
    ensures counted { E.faults faults.old ≤ E.faults faults.new }
    ensures cause { result ≡ false → Rose (E.faults faults.old) (E.faults faults.new) }
{
    if !put_all(faults, words) {
        return false;
    }
    if !put_all(faults, digits) {
        return false;
    }
    put_all(faults, b"\n")
}
