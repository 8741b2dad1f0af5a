//! The stations of a document are added to an office, one behind another.

ghost use Rattle.std.specs.Prelude.{◌≡◌, ◌≤◌, ◌+◌, List, ℕ, IfOk, IfErr, true, false};
ghost use Rattle.shared_office.specs.Passages.{Passes};
ghost use Rattle.devices.specs.Faults.{Rose};
ghost use Rattle.devices.specs.Sinks.{AreWritten};
ghost use Rattle.station_documents.specs.Documents.{most_bytes};
ghost use Rattle.station_loading.specs.Lines.{end_of};
ghost use Rattle.station_loading.specs.Loading.{IsLoaded, IsReadAs, IsUnasked, LoadingCause, StatesNone, end_unstated};
ghost use Rattle.told_edits.specs.Lines.{IsSent};
ghost use Rattle.told_edits.specs.Telling.{AreTold};
ghost use Rattle.whole_inputs.specs.Inputs.{IsTakenWithin};

use crate::lines::site_end;
use desk::stands_still;
use devices::{Disk, Sink, Source};
use edits::Edit;
use office::Office;
use station_documents::{DocumentFault, MOST_BYTES, read_stations};
use std::alloc::Global;
use told_edits::tell_edit;
use whole_inputs::{NotRead, read_whole};

/// How the loading of a document ended.
#[derive(Clone, Copy, Debug, PartialEq, Eq)]
pub enum LoadingEnd {
    /// The office was asked every station, and each line was written.
    Done,
    /// The source failed.
    InputFault,
    /// The sink failed.
    OutputFault,
    /// The input is no document of stations.
    NotADocument,
    /// There was no memory for the document.
    NoMemory,
}

impl From<NotRead> for LoadingEnd {
    ghost use Rattle.std.specs.Prelude.{◌≡◌};
    ghost use Rattle.station_loading.specs.Loading.{end_unread};

    ghost from_gives = { λ error end. end ≡ end_unread error };

    fn from(error: NotRead) -> LoadingEnd {
        match error {
            NotRead::Failed => LoadingEnd::InputFault,
            NotRead::TooLong => LoadingEnd::NotADocument,
            NotRead::NoMemory => LoadingEnd::NoMemory,
        }
    }
}

/// Reads a document of stations from a source, and asks the office each of them, in order; one line on the sink tells what became of
/// it: `edit` with the number under which it is in force, or `refused` with the refusal's code, and the site's number. Nothing is asked
/// before the whole document is read, and no station behind a line that the sink did not take. Whatever is refused, the next station
/// is asked.
pub fn load_stations<D: Disk, S: Source, K: Sink>(
    alloc: Global,
    office: &mut Office<D>,
    source: &mut S,
    sink: &mut K,
) -> LoadingEnd
    ensures loaded { IsLoaded office.old.register.history office.new.register.history result (S.left source.old) (S.left source.new) (K.written sink.old) (K.written sink.new) }
    ensures passed { Passes D.Disk office.old.register.history office.new.register.history office.old.disk office.new.disk }
    ensures disk_counted { D.faults office.old.disk ≤ D.faults office.new.disk }
    ensures input_counted { S.faults source.old ≤ S.faults source.new }
    ensures output_counted { K.faults sink.old ≤ K.faults sink.new }
    ensures cause { LoadingCause result (S.faults source.old) (S.faults source.new) (K.faults sink.old) (K.faults sink.new) }
    ensures unasked { IsUnasked result → (office.new ≡ office.old) × (sink.new ≡ sink.old) }
{
    // this runs nothing: it tells the proof what passes where the office is asked nothing
    stands_still(office);
    let edits = match read_document(alloc, source) {
        Ok(edits) => edits,
        Err(end) => return end,
    };
    if add_stations(office, edits, sink) {
        LoadingEnd::Done
    } else {
        LoadingEnd::OutputFault
    }
}

/// The edits that the document on a source states.
fn read_document<S: Source>(alloc: Global, source: &mut S) -> Result<Vec<Edit>, LoadingEnd>
    ensures stated { IfOk result (λ edits. IsReadAs (S.left source.old) edits.items (S.left source.new)) }
    ensures unstated { IfErr result (λ end. IsUnasked end) }
    ensures none { IfErr result (λ end. end ≡ LoadingEnd.NotADocument → StatesNone (S.left source.old)) }
    ensures cause { IfErr result (λ end. end ≡ LoadingEnd.InputFault → Rose (S.faults source.old) (S.faults source.new)) }
    ensures taken { IsTakenWithin (most_bytes + 1) (S.left source.old) (S.left source.new) }
    ensures counted { S.faults source.old ≤ S.faults source.new }
{
    let text = read_whole(alloc, source, MOST_BYTES)?;
    match read_stations(alloc, text.as_slice()) {
        Ok(edits) => Ok(edits),
        Err(fault) => Err(end_unstated(fault)),
    }
}

/// How the loading of a text ends that states no stations, or for which there was no memory.
fn end_unstated(fault: DocumentFault) -> LoadingEnd
    ensures { result ≡ end_unstated fault }
{
    match fault {
        DocumentFault::NoDocument => LoadingEnd::NotADocument,
        DocumentFault::NoMemory => LoadingEnd::NoMemory,
    }
}

/// Asks the office each of these, one behind another, and writes a line of each; `false` where the sink failed, behind which none is
/// asked.
fn add_stations<D: Disk, K: Sink>(office: &mut Office<D>, edits: Vec<Edit>, sink: &mut K) -> bool
    ensures told { (written : List ℕ) × AreTold end_of result office.old.register.history edits.items office.new.register.history written × AreWritten (K.written sink.old) written (K.written sink.new) true }
    ensures passed { Passes D.Disk office.old.register.history office.new.register.history office.old.disk office.new.disk }
    ensures disk_counted { D.faults office.old.disk ≤ D.faults office.new.disk }
    ensures output_counted { K.faults sink.old ≤ K.faults sink.new }
    ensures cause { result ≡ false → Rose (K.faults sink.old) (K.faults sink.new) }
{
    // this runs nothing: it tells the proof what passes until the first is asked
    stands_still(office);
    for edit in edits {
        if !add_station(office, edit, sink) {
            return false;
        }
    }
    true
}

/// Asks the office an edit, and writes its line; whether the sink took it.
fn add_station<D: Disk, K: Sink>(office: &mut Office<D>, edit: Edit, sink: &mut K) -> bool
    ensures told { (line : List ℕ) × IsSent (end_of edit) office.old.register.history edit line office.new.register.history × AreWritten (K.written sink.old) line (K.written sink.new) result }
    ensures passed { Passes D.Disk office.old.register.history office.new.register.history office.old.disk office.new.disk }
    ensures disk_counted { D.faults office.old.disk ≤ D.faults office.new.disk }
    ensures output_counted { K.faults sink.old ≤ K.faults sink.new }
    ensures cause { result ≡ false → Rose (K.faults sink.old) (K.faults sink.new) }
{
    let end = site_end(edit.site);
    tell_edit(office, edit, end.as_slice(), sink)
}
