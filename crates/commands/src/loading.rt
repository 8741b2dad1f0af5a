//! `stations`, `import` and `notes`: the stations of a document, the readings of a text of unit values or the measurement of notes are
//! asked of an office, over the journal under a name.

ghost use Rattle.std.specs.Prelude.{◌≡◌, IfOk, IsErr};
ghost use Rattle.command_words.specs.Commands.{import_asked, notes_asked};
ghost use Rattle.command_words.specs.Laws.{CanBeAsked};
ghost use Rattle.command_words.specs.Words.{Import, Notes};
ghost use Rattle.commands.specs.Loading.{CausedBetween, NotesLoaded, ReadingsLoaded, StationsLoaded, order_of, visit_of};
ghost use Rattle.commands.specs.Opening.{Carries, RunsOver};
ghost use Rattle.commands.specs.Worlds.{shelf, sink_told, source_told};
ghost use Rattle.edits.specs.Texts.{AreInitials, IsReference};
ghost use Rattle.note_loading.specs.Endings as notes;
ghost use Rattle.note_loading.specs.Visits.{IsVisit};
ghost use Rattle.reading_loading.specs.Loading as readings;
ghost use Rattle.reading_loading.specs.Puts.{IsPrefix};
ghost use Rattle.station_loading.specs.Loading as stations;

use crate::endings::Ending;
use crate::opening::{close_office, open_office};
use command_words::{ImportOrder, NotesOrder};
use devices::{Cabinet, Sink, Source};
use edits::{By, Ref};
use journal::OpenFault;
use note_loading::{NotesEnd, Visit, load_notes};
use reading_loading::{Prefix, ReadingOrder, ReadingsEnd, load_readings};
use station_loading::{LoadingEnd, load_stations};
use std::alloc::Global;

impl From<LoadingEnd> for Ending {
    ghost use Rattle.std.specs.Prelude.{◌≡◌};
    ghost use Rattle.commands.specs.Loading.{loading_ending};

    ghost from_gives = { λ end ending. ending ≡ loading_ending end };

    fn from(end: LoadingEnd) -> Ending {
        match end {
            LoadingEnd::Done => Ending::Done,
            LoadingEnd::InputFault => Ending::InputFault,
            LoadingEnd::OutputFault => Ending::OutputFault,
            LoadingEnd::NoMemory => Ending::NoMemory,
            LoadingEnd::NotADocument => Ending::NotADocument,
        }
    }
}

impl From<Result<LoadingEnd, OpenFault>> for Ending {
    ghost use Rattle.std.specs.Prelude.{◌≡◌};
    ghost use Rattle.commands.specs.Loading.{loading_ending};
    ghost use Rattle.commands.specs.Opening.{ending_over};

    ghost from_gives = { λ end ending. ending ≡ ending_over loading_ending end };

    fn from(end: Result<LoadingEnd, OpenFault>) -> Ending {
        match end {
            Ok(end) => Ending::from(end),
            Err(why) => Ending::from(why),
        }
    }
}

impl From<ReadingsEnd> for Ending {
    ghost use Rattle.std.specs.Prelude.{◌≡◌};
    ghost use Rattle.commands.specs.Loading.{readings_ending};

    ghost from_gives = { λ end ending. ending ≡ readings_ending end };

    fn from(end: ReadingsEnd) -> Ending {
        match end {
            ReadingsEnd::Done => Ending::Done,
            ReadingsEnd::InputFault => Ending::InputFault,
            ReadingsEnd::OutputFault => Ending::OutputFault,
            ReadingsEnd::TooLong => Ending::UnitsTooLong,
            ReadingsEnd::Refused(fault) => Ending::UnitsRefused(fault),
            ReadingsEnd::NoMemory => Ending::NoMemory,
        }
    }
}

impl From<Result<ReadingsEnd, OpenFault>> for Ending {
    ghost use Rattle.std.specs.Prelude.{◌≡◌};
    ghost use Rattle.commands.specs.Loading.{readings_ending};
    ghost use Rattle.commands.specs.Opening.{ending_over};

    ghost from_gives = { λ end ending. ending ≡ ending_over readings_ending end };

    fn from(end: Result<ReadingsEnd, OpenFault>) -> Ending {
        match end {
            Ok(end) => Ending::from(end),
            Err(why) => Ending::from(why),
        }
    }
}

impl From<NotesEnd> for Ending {
    ghost use Rattle.std.specs.Prelude.{◌≡◌};
    ghost use Rattle.commands.specs.Loading.{notes_ending};

    ghost from_gives = { λ end ending. ending ≡ notes_ending end };

    fn from(end: NotesEnd) -> Ending {
        match end {
            NotesEnd::Done => Ending::Done,
            NotesEnd::InputFault => Ending::InputFault,
            NotesEnd::OutputFault => Ending::OutputFault,
            NotesEnd::TooLong => Ending::NotesTooLong,
            NotesEnd::Refused(fault) => Ending::NotesRefused(fault),
            NotesEnd::NoMemory => Ending::NoMemory,
        }
    }
}

impl From<Result<NotesEnd, OpenFault>> for Ending {
    ghost use Rattle.std.specs.Prelude.{◌≡◌};
    ghost use Rattle.commands.specs.Loading.{notes_ending};
    ghost use Rattle.commands.specs.Opening.{ending_over};

    ghost from_gives = { λ end ending. ending ≡ ending_over notes_ending end };

    fn from(end: Result<NotesEnd, OpenFault>) -> Ending {
        match end {
            Ok(end) => Ending::from(end),
            Err(why) => Ending::from(why),
        }
    }
}

/// Adds the stations of the document on the input, over the journal under a name. The journal is opened before the input is read.
pub(crate) fn load_input<C: Cabinet, S: Source, K: Sink>(
    alloc: Global,
    cabinet: &mut C,
    name: &str,
    input: &mut S,
    output: &mut K,
) -> Result<LoadingEnd, OpenFault>
    ensures over { RunsOver C.Disk.Disk name.now (Carries C.Disk.Disk) (StationsLoaded (source_told S.Source input.old) (source_told S.Source input.new)
        (sink_told K.Sink output.old) (sink_told K.Sink output.new)) result
        (shelf C.Cabinet cabinet.old) (shelf C.Cabinet cabinet.new) }
    ensures cause { IfOk result (CausedBetween stations.LoadingCause (source_told S.Source input.old) (source_told S.Source input.new)
        (sink_told K.Sink output.old) (sink_told K.Sink output.new)) }
    ensures unopened { IsErr result → (input.new ≡ input.old) × (output.new ≡ output.old) }
    ensures unasked { IfOk result (λ end. stations.IsUnasked end → output.new ≡ output.old) }
{
    let mut office = open_office(alloc, cabinet, name)?;
    let end = load_stations(alloc, &mut office, input, output);
    close_office(cabinet, name, office);
    Ok(end)
}

/// Puts the readings of the text on the input, over the journal under a name. The journal is opened before the input is read.
pub(crate) fn import_input<C: Cabinet, S: Source, K: Sink>(
    alloc: Global,
    cabinet: &mut C,
    order: &ImportOrder<'_>,
    input: &mut S,
    output: &mut K,
) -> Result<ReadingsEnd, OpenFault>
    requires { CanBeAsked (Import (import_asked order.now)) }
    ensures over { RunsOver C.Disk.Disk order.now.journal.now (Carries C.Disk.Disk) (ReadingsLoaded (import_asked order.now) (source_told S.Source input.old) (source_told S.Source input.new)
        (sink_told K.Sink output.old) (sink_told K.Sink output.new)) result
        (shelf C.Cabinet cabinet.old) (shelf C.Cabinet cabinet.new) }
    ensures cause { IfOk result (CausedBetween readings.LoadingCause (source_told S.Source input.old) (source_told S.Source input.new)
        (sink_told K.Sink output.old) (sink_told K.Sink output.new)) }
    ensures unopened { IsErr result → (input.new ≡ input.old) × (output.new ≡ output.old) }
    ensures unasked { IfOk result (λ end. readings.IsUnasked end → output.new ≡ output.old) }
{
    let mut office = open_office(alloc, cabinet, order.journal)?;
    let asked = reading_order(order);
    let end = load_readings(alloc, &mut office, &asked, input, output);
    close_office(cabinet, order.journal, office);
    Ok(end)
}

/// Puts the measurement that the notes on the input tell of, over the journal under a name. The journal is opened before the input is read.
pub(crate) fn note_input<C: Cabinet, S: Source, K: Sink>(
    alloc: Global,
    cabinet: &mut C,
    order: &NotesOrder<'_>,
    input: &mut S,
    output: &mut K,
) -> Result<NotesEnd, OpenFault>
    requires { CanBeAsked (Notes (notes_asked order.now)) }
    ensures over { RunsOver C.Disk.Disk order.now.journal.now (Carries C.Disk.Disk) (NotesLoaded (notes_asked order.now) (source_told S.Source input.old) (source_told S.Source input.new)
        (sink_told K.Sink output.old) (sink_told K.Sink output.new)) result
        (shelf C.Cabinet cabinet.old) (shelf C.Cabinet cabinet.new) }
    ensures cause { IfOk result (CausedBetween notes.LoadingCause (source_told S.Source input.old) (source_told S.Source input.new)
        (sink_told K.Sink output.old) (sink_told K.Sink output.new)) }
    ensures unopened { IsErr result → (input.new ≡ input.old) × (output.new ≡ output.old) }
    ensures unasked { IfOk result (λ end. notes.IsUnasked end → output.new ≡ output.old) }
{
    let mut office = open_office(alloc, cabinet, order.journal)?;
    let end = load_notes(alloc, &mut office, visit_of(order), input, output);
    close_office(cabinet, order.journal, office);
    Ok(end)
}

/// The readings that an order of `import` asks.
fn reading_order<'a>(order: &ImportOrder<'a>) -> ReadingOrder<'a>
    requires by { AreInitials order.now.by.now }
    requires prefix { IsPrefix order.now.reference.now }
    ensures { result ≡ order_of (import_asked order.now) }
{
    let by = By::new(order.by.as_bytes()).unwrap();
    let prefix = Prefix::new(order.reference.as_bytes()).unwrap();
    ReadingOrder::new(order.site, order.column.as_bytes(), by, prefix)
}

/// The visit of which an order of `notes` tells.
fn visit_of(order: &NotesOrder<'_>) -> Visit
    requires by { AreInitials order.now.by.now }
    requires reference { IsReference order.now.reference.now }
    requires visit { IsVisit (visit_of (notes_asked order.now)) }
    ensures visit { result ≡ visit_of (notes_asked order.now) }
    ensures lawful { IsVisit result }
{
    Visit {
        by: By::new(order.by.as_bytes()).unwrap(),
        reference: Ref::new(order.reference.as_bytes()).unwrap(),
        site: order.site,
        number: order.number,
        at: order.at,
        gage: order.gage,
        grade: order.grade,
    }
}
