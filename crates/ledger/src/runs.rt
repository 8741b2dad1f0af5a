//! A run: a journal is read from a source, and its edits are written on a sink, each in the form that is asked for.

ghost use Rattle.std.specs.Prelude.{◌≡◌, ◌≢◌, ◌++◌, ◌<◌, ◌≤◌, ◌^◌, [], true, List, IfOk, IfErr, OnOk, Ok};
ghost use Rattle.devices.specs.Faults.{Rose};
ghost use Rattle.journal.specs.Reading.{HasRead};
ghost use Rattle.ledger.specs.Runs as runs;
ghost use Rattle.ledger.specs.Runs.{Ends, EndsBy, GoesOn, IsMeantAs, IsNoText, IsUnwritten, WritesEdit, edit_text};
ghost use Rattle.records.specs.Sheets.{Record};

use crate::choices::{Choice, Form};
use crate::held::HeldBytes;
use crate::lines::write_line;
use crate::requests::write_request;
use devices::{Disk, Sink, Source, put_all};
use edits::Edit;
use fixed_units::{NoMemory, Text};
use journal::{OpenFault, Opening};
use std::alloc::Global;
use whole_inputs::{NotRead, read_whole};

/// How many bytes a journal has at most.
pub const MOST_BYTES: usize = 536_870_912;

/// How a run ended.
#[derive(Clone, Copy, Debug, PartialEq, Eq)]
pub enum RunEnd {
    /// The journal was read to its end, and what was asked for was written.
    AllWritten,
    /// The journal could not be read.
    InputFault,
    /// The edits could not be written.
    OutputFault,
    /// The input is longer than a journal may be.
    TooLong,
    /// The input does not begin as a journal does.
    NotAJournal,
    /// The journal is damaged at this offset. What stands before it was written.
    Damaged(u64),
    /// The edit of this number is larger than a request takes. What stands before it was written.
    TooLarge(u64),
    /// The body of the edit of this number is not read as it. What stands before it was written.
    NotReadBack(u64),
    /// There was no memory.
    NoMemory,
}

impl From<NoMemory> for RunEnd {
    ghost use Rattle.std.specs.Prelude.{◌≡◌};
    ghost use Rattle.ledger.specs.declared.runs.RunEnd.TheVariants as ends;

    ghost from_gives = { λ _ end. end ≡ ends.NoMemory };

    fn from(_error: NoMemory) -> RunEnd {
        RunEnd::NoMemory
    }
}

/// Reads a journal from a source to its end, and writes its edits on a sink, of each that is chosen one text, in their order.
pub fn ledger_from<S: Source, K: Sink>(
    alloc: Global,
    form: Form,
    choice: &Choice,
    source: &mut S,
    sink: &mut K,
) -> RunEnd
    ensures ends { Ends result form choice.now (S.left source.old) (K.written sink.old) (K.written sink.new) }
    ensures input_cause { result ≡ RunEnd.InputFault → Rose (S.faults source.old) (S.faults source.new) }
    ensures output_cause { result ≡ RunEnd.OutputFault → Rose (K.faults sink.old) (K.faults sink.new) }
{
    match read_whole(alloc, source, MOST_BYTES) {
        Ok(text) => write_journal(alloc, form, choice, text, sink),
        Err(error) => end_unread(error),
    }
}

/// How a run ends whose input is not read.
fn end_unread(error: NotRead) -> RunEnd
    ensures { result ≡ runs.end_unread error }
{
    match error {
        NotRead::Failed => RunEnd::InputFault,
        NotRead::TooLong => RunEnd::TooLong,
        NotRead::NoMemory => RunEnd::NoMemory,
    }
}

/// Writes the edits of the journal that these bytes are.
fn write_journal<K: Sink>(
    alloc: Global,
    form: Form,
    choice: &Choice,
    text: Text,
    sink: &mut K,
) -> RunEnd
    ensures ends { EndsBy result form choice.now text (K.written sink.old) (K.written sink.new) }
    ensures input { result ≢ RunEnd.InputFault }
    ensures output_cause { result ≡ RunEnd.OutputFault → Rose (K.faults sink.old) (K.faults sink.new) }
{
    match journal::open(alloc, HeldBytes::new(text)) {
        Ok(opening) => write_opened(alloc, form, choice, opening, sink),
        Err(refused) => end_refused(refused.fault),
    }
}

/// How a run ends over bytes that are not opened, or not read on.
fn end_refused(fault: OpenFault) -> RunEnd
    ensures { result ≡ runs.end_refused fault }
{
    match fault {
        OpenFault::NotAJournal => RunEnd::NotAJournal,
        OpenFault::Damaged(at) => RunEnd::Damaged(at),
        OpenFault::Fault | OpenFault::NoMemory => RunEnd::NoMemory,
    }
}

/// Writes the edits of a journal that was opened.
fn write_opened<K: Sink>(
    alloc: Global,
    form: Form,
    choice: &Choice,
    opening: Opening<HeldBytes>,
    sink: &mut K,
) -> RunEnd
    requires { HasRead [] opening }
    ensures ends { EndsBy result form choice.now opening.ahead.disk.bytes (K.written sink.old) (K.written sink.new) }
    ensures input { result ≢ RunEnd.InputFault }
    ensures output_cause { result ≡ RunEnd.OutputFault → Rose (K.faults sink.old) (K.faults sink.new) }
{
    let mut opening = opening;
    match write_all(alloc, form, choice, &mut opening, sink) {
        Ok(()) => RunEnd::AllWritten,
        Err(end) => end,
    }
}

/// Writes the edits of a journal from its first record on.
fn write_all<K: Sink>(
    alloc: Global,
    form: Form,
    choice: &Choice,
    opening: &mut Opening<HeldBytes>,
    sink: &mut K,
) -> Result<(), RunEnd>
    requires { HasRead [] opening.old }
    ensures whole { OnOk result (EndsBy RunEnd.AllWritten form choice.now opening.old.ahead.disk.bytes (K.written sink.old) (K.written sink.new)) }
    ensures stopped { IfErr result (λ end. EndsBy end form choice.now opening.old.ahead.disk.bytes (K.written sink.old) (K.written sink.new)) }
    ensures input { IfErr result (λ end. end ≢ RunEnd.InputFault) }
    ensures output_cause { IfErr result (λ end. end ≡ RunEnd.OutputFault → Rose (K.faults sink.old) (K.faults sink.new)) }
{
    let mut number = 1;
    while write_next(alloc, form, choice, number, opening, sink)? {
        number += 1;
    }
    Ok(())
}

/// Writes the edit of the next record; `false` at the closed gate.
fn write_next<K: Sink>(
    alloc: Global,
    form: Form,
    choice: &Choice,
    number: u64,
    opening: &mut Opening<HeldBytes>,
    sink: &mut K,
) -> Result<bool, RunEnd>
    requires { (pieces : List Record) × HasRead pieces opening.old }
    ensures next { (pieces : List Record) → HasRead pieces opening.old → GoesOn form choice.now number pieces opening.new (K.written sink.old) (K.written sink.new) result }
    ensures moves { result ≡ Ok true → opening.old.gate < opening.new.gate }
    ensures within { result ≡ Ok true → opening.old.gate < 2 ^ 64 }
    ensures same { opening.new.ahead.disk.bytes ≡ opening.old.ahead.disk.bytes }
    ensures format { opening.new.format ≡ opening.old.format }
    ensures counted { K.faults sink.old ≤ K.faults sink.new }
    ensures output_cause { IfErr result (λ end. end ≡ RunEnd.OutputFault → Rose (K.faults sink.old) (K.faults sink.new)) }
{
    match opening.next(alloc) {
        Ok(Some(piece)) => {
            let _gate = opening.offset();
            write_edit(alloc, form, choice, number, piece.edit(), sink)?;
            Ok(true)
        }
        Ok(None) => Ok(false),
        Err(fault) => Err(end_refused(fault)),
    }
}

/// Writes an edit of that number, where it is chosen.
fn write_edit<K: Sink>(
    alloc: Global,
    form: Form,
    choice: &Choice,
    number: u64,
    edit: &Edit,
    sink: &mut K,
) -> Result<(), RunEnd>
    ensures written { OnOk result (WritesEdit form choice.now number edit.now (K.written sink.old) (K.written sink.new) true) }
    ensures unwritten { IfErr result (λ end. IsUnwritten end form choice.now number edit.now (K.written sink.old) (K.written sink.new)) }
    ensures counted { K.faults sink.old ≤ K.faults sink.new }
    ensures output_cause { IfErr result (λ end. end ≡ RunEnd.OutputFault → Rose (K.faults sink.old) (K.faults sink.new)) }
{
    if !choice.has(number, edit) {
        return Ok(());
    }
    let text = text_of(alloc, form, number, edit)?;
    if put_all(sink, text.as_slice()) {
        Ok(())
    } else {
        Err(RunEnd::OutputFault)
    }
}

/// An edit of that number in the form that is asked for.
fn text_of(alloc: Global, form: Form, number: u64, edit: &Edit) -> Result<Text, RunEnd>
    ensures text { IfOk result (λ text. text ≡ edit_text form number edit.now) }
    ensures meant { OnOk result (IsMeantAs form edit.now) }
    ensures none { IfErr result (λ end. IsNoText end number edit.now) }
{
    let mut text = Text::new(alloc);
    write_text(alloc, form, number, edit, &mut text)?;
    Ok(text)
}

/// Adds an edit of that number in the form that is asked for.
fn write_text(
    alloc: Global,
    form: Form,
    number: u64,
    edit: &Edit,
    out: &mut Text,
) -> Result<(), RunEnd>
    ensures text { OnOk result (out.new ≡ out.old ++ edit_text form number edit.now) }
    ensures meant { OnOk result (IsMeantAs form edit.now) }
    ensures none { IfErr result (λ end. IsNoText end number edit.now) }
{
    match form {
        Form::Edits => {
            write_line(number, edit, out)?;
            Ok(())
        }
        Form::Requests => write_request(alloc, number, edit, out),
    }
}
