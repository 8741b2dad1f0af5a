//! A run: the rows are read from a source to its end, and the picture is written to a sink.

ghost use Rattle.std.specs.Prelude.{◌≡◌, IfOk, IfErr, IfSome};
ghost use Rattle.devices.specs.Faults.{Rose};
ghost use Rattle.draw.specs.Runs as runs;
ghost use Rattle.draw.specs.Runs.{Ends, IsEndUnread, IsPictureOf, IsSilent, IsUndrawn};

use crate::hydrograph::write_hydrograph;
use crate::rows::Why;
use crate::tables::{RowFault, Table, read_table};
use devices::{Sink, Source, put_all};
use fixed_units::{NoMemory, Text};
use std::alloc::Global;
use whole_inputs::{NotRead, read_whole};

/// How many bytes an input has at most.
pub const MOST_BYTES: usize = 67_108_864;

/// How a run ended.
#[derive(Clone, Copy)]
pub enum RunEnd {
    /// The picture was written.
    Drawn,
    /// The input could not be read.
    InputFault,
    /// The picture could not be written.
    OutputFault,
    /// The input is longer than it may be.
    TooLong,
    /// The input is no text in UTF-8.
    NoText,
    /// A line has a fault.
    Refused(RowFault),
    /// The rows have no two instants.
    Empty,
    /// There was no memory.
    NoMemory,
}

impl From<NotRead> for RunEnd {
    ghost use Rattle.std.specs.Prelude.{◌≡◌};
    ghost use Rattle.draw.specs.Runs.{end_unread};

    ghost from_gives = { λ error end. end ≡ end_unread error };

    fn from(error: NotRead) -> RunEnd {
        match error {
            NotRead::Failed => RunEnd::InputFault,
            NotRead::TooLong => RunEnd::TooLong,
            NotRead::NoMemory => RunEnd::NoMemory,
        }
    }
}

impl From<NoMemory> for RunEnd {
    ghost use Rattle.std.specs.Prelude.{◌≡◌};
    ghost use Rattle.draw.specs.declared.runs.RunEnd.TheVariants as ends;

    ghost from_gives = { λ _ end. end ≡ ends.NoMemory };

    fn from(_error: NoMemory) -> RunEnd {
        RunEnd::NoMemory
    }
}

/// How a run ends whose input has a fault.
fn end_refused(fault: RowFault) -> RunEnd
    ensures { result ≡ runs.end_refused fault }
{
    match fault.why {
        Why::NoMemory => RunEnd::NoMemory,
        _ => RunEnd::Refused(fault),
    }
}

/// Draws the hydrograph of the rows on a source to its end, on a sink. Nothing is written before all of it is drawn.
pub fn draw_from<S: Source, K: Sink>(alloc: Global, source: &mut S, sink: &mut K) -> RunEnd
    ensures ends { Ends result (S.left source.old) (K.written sink.old) (K.written sink.new) }
    ensures silent { IsSilent result → sink.new ≡ sink.old }
    ensures input_cause { result ≡ RunEnd.InputFault → Rose (S.faults source.old) (S.faults source.new) }
{
    match picture_on(alloc, source) {
        Ok(picture) => write_picture(&picture, sink),
        Err(end) => end,
    }
}

/// Writes a picture on a sink.
fn write_picture<K: Sink>(picture: &Text, sink: &mut K) -> RunEnd
    ensures { runs.IsWrittenAs result picture.now (K.written sink.old) (K.written sink.new) }
{
    if put_all(sink, picture.as_slice()) {
        RunEnd::Drawn
    } else {
        RunEnd::OutputFault
    }
}

/// The picture of the rows on a source.
fn picture_on<S: Source>(alloc: Global, source: &mut S) -> Result<Text, RunEnd>
    ensures drawn { IfOk result (λ picture. IfSome (S.left source.old) (λ input. IsPictureOf input picture)) }
    ensures undrawn { IfErr result (λ end. IsEndUnread end (S.left source.old)) }
    ensures silent { IfErr result IsSilent }
    ensures cause { IfErr result (λ end. end ≡ RunEnd.InputFault → Rose (S.faults source.old) (S.faults source.new)) }
{
    let input = read_whole(alloc, source, MOST_BYTES)?;
    picture_of(alloc, input.as_slice())
}

/// The picture of the rows of an input.
fn picture_of(alloc: Global, input: &[u8]) -> Result<Text, RunEnd>
    ensures drawn { IfOk result (IsPictureOf input.now) }
    ensures undrawn { IfErr result (IsUndrawn input.now) }
{
    match str::from_utf8(input) {
        Ok(text) => picture_of_text(alloc, text),
        Err(_) => Err(RunEnd::NoText),
    }
}

/// The picture of the rows of a text.
fn picture_of_text(alloc: Global, text: &str) -> Result<Text, RunEnd>
    ensures drawn { IfOk result (IsPictureOf text.now) }
    ensures undrawn { IfErr result (IsUndrawn text.now) }
{
    match read_table(alloc, text) {
        Ok(table) => picture_of_table(alloc, &table),
        Err(fault) => Err(end_refused(fault)),
    }
}

/// The picture of a table.
fn picture_of_table(alloc: Global, table: &Table) -> Result<Text, RunEnd>
    ensures drawn { IfOk result (runs.IsPicture table.now) }
    ensures undrawn { IfErr result (runs.IsNoPicture table.now) }
{
    let mut picture = Text::new(alloc);
    let drawn = write_hydrograph(alloc, table, &mut picture)?;
    if drawn {
        Ok(picture)
    } else {
        Err(RunEnd::Empty)
    }
}
