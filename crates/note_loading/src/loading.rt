//! Measurement notes are loaded: their discharges are written, and an office is asked the measurement.

ghost use Rattle.std.specs.Prelude.{◌≡◌, ◌≤◌, ◌<◌, ◌+◌, length, IfOk, IfErr, false};
ghost use Rattle.shared_office.specs.Passages.{Passes};
ghost use Rattle.devices.specs.Faults.{Rose};
ghost use Rattle.fixed_units.specs.Quantities.{IsDischarge};
ghost use Rattle.note_loading.specs.Endings.{IsUnasked, LoadingCause};
ghost use Rattle.note_loading.specs.Loading.{AreTold, IsLoaded, IsReadAs, IsStatedAs, IsUnstated, IsUnread, most_bytes};
ghost use Rattle.note_loading.specs.Visits.{IsVisit};
ghost use Rattle.whole_inputs.specs.Inputs.{IsTakenWithin};

use crate::endings::NotesEnd;
use crate::figures::write_figures;
use crate::visits::{Visit, make_edit};
use desk::stands_still;
use devices::{Disk, Sink, Source, put_all};
use fixed_units::{Micro, Text};
use midsection::{read_notes, total};
use office::Office;
use std::alloc::Global;
use told_edits::tell_edit;
use whole_inputs::read_whole;

/// As many bytes as measurement notes may have.
pub const MOST_BYTES: usize = 1_048_576;

/// Reads measurement notes from a source, writes on the sink the line of each vertical, `VERTICAL` with its number from 1, `Q` with its
/// discharge in cubic feet per second and `SHARE` with its share of the total in percent, or a dash, and the line `TOTAL` with the total;
/// then asks the office to put the measurement of the visit with that total, and writes what became of it: `edit` with the number under
/// which it is in force, or `refused` with the refusal's code. Nothing is written or asked before the whole notes are read and computed,
/// and nothing is asked where the sink did not take all lines before.
pub fn load_notes<D: Disk, S: Source, K: Sink>(
    alloc: Global,
    office: &mut Office<D>,
    visit: Visit,
    source: &mut S,
    sink: &mut K,
) -> NotesEnd
    requires { IsVisit visit }
    ensures loaded { IsLoaded visit office.old.register.history office.new.register.history result (S.left source.old) (S.left source.new) (K.written sink.old) (K.written sink.new) }
    ensures passed { Passes D.Disk office.old.register.history office.new.register.history office.old.disk office.new.disk }
    ensures disk_counted { D.faults office.old.disk ≤ D.faults office.new.disk }
    ensures input_counted { S.faults source.old ≤ S.faults source.new }
    ensures output_counted { K.faults sink.old ≤ K.faults sink.new }
    ensures cause { LoadingCause result (S.faults source.old) (S.faults source.new) (K.faults sink.old) (K.faults sink.new) }
    ensures unasked { IsUnasked result → (office.new ≡ office.old) × (sink.new ≡ sink.old) }
{
    // this runs nothing: it tells the proof what passes where the office is asked nothing
    stands_still(office);
    let figures = match read_figures(alloc, source) {
        Ok(figures) => figures,
        Err(end) => return end,
    };
    if tell_figures(alloc, office, visit, &figures, sink) {
        NotesEnd::Done
    } else {
        NotesEnd::OutputFault
    }
}

/// What notes come to: the lines of their discharges, and the total.
#[derive(Drop)]
pub(crate) struct Figures {
    text: Text,
    total: Micro,
}

/// The figures of the notes on a source.
fn read_figures<S: Source>(alloc: Global, source: &mut S) -> Result<Figures, NotesEnd>
    ensures discharge { IfOk result (λ figures. IsDischarge figures.total) }
    ensures some { IfOk result (λ figures. 0 < length figures.text) }
    ensures read { IfOk result (λ figures. IsReadAs (S.left source.old) figures (S.left source.new)) }
    ensures unread { IfErr result (λ end. IsUnread (S.left source.old) end (S.left source.new)) }
    ensures unasked { IfErr result IsUnasked }
    ensures cause { IfErr result (λ end. end ≡ NotesEnd.InputFault → Rose (S.faults source.old) (S.faults source.new)) }
    ensures taken { IsTakenWithin (most_bytes + 1) (S.left source.old) (S.left source.new) }
    ensures counted { S.faults source.old ≤ S.faults source.new }
{
    let text = read_whole(alloc, source, MOST_BYTES)?;
    compute(alloc, text.as_slice())
}

/// The figures of the notes that a text states.
fn compute(alloc: Global, text: &[u8]) -> Result<Figures, NotesEnd>
    ensures discharge { IfOk result (λ figures. IsDischarge figures.total) }
    ensures some { IfOk result (λ figures. 0 < length figures.text) }
    ensures stated { IfOk result (IsStatedAs text.now) }
    ensures unstated { IfErr result (IsUnstated text.now) }
{
    let notes = read_notes(alloc, text)?;
    let text = write_figures(alloc, &notes)?;
    Ok(Figures {
        text,
        total: total(&notes),
    })
}

/// Writes the figures, asks the office the measurement and writes its line; `false` where the sink failed, before which the office was
/// asked nothing unless all figures were written.
fn tell_figures<D: Disk, K: Sink>(
    alloc: Global,
    office: &mut Office<D>,
    visit: Visit,
    figures: &Figures,
    sink: &mut K,
) -> bool
    requires visit { IsVisit visit }
    requires discharge { IsDischarge figures.now.total }
    requires some { 0 < length figures.now.text }
    ensures told { AreTold visit figures.now office.old.register.history result office.new.register.history (K.written sink.old) (K.written sink.new) }
    ensures passed { Passes D.Disk office.old.register.history office.new.register.history office.old.disk office.new.disk }
    ensures disk_counted { D.faults office.old.disk ≤ D.faults office.new.disk }
    ensures output_counted { K.faults sink.old ≤ K.faults sink.new }
    ensures cause { result ≡ false → Rose (K.faults sink.old) (K.faults sink.new) }
{
    // this runs nothing: it tells the proof what passes where the office is asked nothing
    stands_still(office);
    if !put_all(sink, figures.text.as_slice()) {
        return false;
    }
    let edit = make_edit(alloc, visit, figures.total);
    tell_edit(office, edit, b"\n", sink)
}
