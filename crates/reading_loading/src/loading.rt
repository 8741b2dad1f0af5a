//! The readings of a text are put into an office, and what became of them is told.

ghost use Rattle.std.specs.Prelude.{◌≡◌, ◌≤◌, ◌<◌, ◌+◌, List, ℕ, All, IfOk, IfErr, length, true, false};
ghost use Rattle.std.specs.Fork.{slice_chunk};
ghost use Rattle.shared_office.specs.Passages.{Passes};
ghost use Rattle.devices.specs.Faults.{Rose};
ghost use Rattle.devices.specs.Sinks.{AreWritten};
ghost use Rattle.edits.specs.Lawful.{IsPutReading};
ghost use Rattle.edits.specs.declared.content.Edit.{Edit};
ghost use Rattle.readings.specs.Readings.{IsRising};
ghost use Rattle.reading_loading.specs.Lines.{line_end};
ghost use Rattle.reading_loading.specs.Loading.{ArePutAndTold, AreUnitsTold, IsLoaded, IsReadAs, IsUnasked, IsUnstated, LoadingCause};
ghost use Rattle.reading_loading.specs.Puts.{IsPut, put_count};
ghost use Rattle.reading_loading.specs.declared.limits.TheConstants.{MOST_BYTES, MOST_READINGS};
ghost use Rattle.told_edits.specs.Lines.{IsSent};
ghost use Rattle.whole_inputs.specs.Inputs.{IsTakenWithin};

use crate::chunks::{count_puts, put_at};
use crate::limits::MOST_BYTES;
use crate::lines::count_line;
use crate::orders::ReadingOrder;
use desk::stands_still;
use devices::{Disk, Sink, Source, put_all};
use fixed_units::Reading;
use office::Office;
use office_inputs::Refusal;
use rdb_records::{UnitFault, UnitList, read_units};
use std::alloc::Global;
use told_edits::{tell_edit, told_line};
use whole_inputs::{NotRead, read_whole};

/// How the loading of readings ended.
#[derive(Clone, Copy, Debug, PartialEq, Eq)]
pub enum ReadingsEnd {
    /// The office was asked to put every reading, and each line was written.
    Done,
    /// The source failed.
    InputFault,
    /// The sink failed.
    OutputFault,
    /// The text is longer than it may be.
    TooLong,
    /// The text states no readings of the site.
    Refused(UnitFault),
    /// There was no memory for the text or its readings.
    NoMemory,
}

impl From<NotRead> for ReadingsEnd {
    ghost use Rattle.std.specs.Prelude.{◌≡◌};
    ghost use Rattle.reading_loading.specs.Loading.{end_unread};

    ghost from_gives = { λ error end. end ≡ end_unread error };

    fn from(error: NotRead) -> ReadingsEnd {
        match error {
            NotRead::Failed => ReadingsEnd::InputFault,
            NotRead::TooLong => ReadingsEnd::TooLong,
            NotRead::NoMemory => ReadingsEnd::NoMemory,
        }
    }
}

impl From<UnitFault> for ReadingsEnd {
    ghost use Rattle.std.specs.Prelude.{◌≡◌};
    ghost use Rattle.reading_loading.specs.Loading.{end_unstated};

    ghost from_gives = { λ fault end. end ≡ end_unstated fault };

    fn from(fault: UnitFault) -> ReadingsEnd {
        match fault {
            UnitFault::NoMemory => ReadingsEnd::NoMemory,
            _ => ReadingsEnd::Refused(fault),
        }
    }
}

/// Reads a text of unit values from a source, and asks the office to put its readings, 100,000 by each edit and the rest by the last,
/// under references that are numbered from 1; one line on the sink tells what became of each edit: `edit` with the number under which it
/// is in force, or `refused` with the refusal's code; and a last line tells how many readings the text states, and how many of its rows
/// are skipped. Nothing is asked before the whole text is read, and no edit behind a line that the sink did not take. Whatever is
/// refused, the next edit is asked. A text without readings makes no edit.
pub fn load_readings<D: Disk, S: Source, K: Sink>(
    alloc: Global,
    office: &mut Office<D>,
    order: &ReadingOrder<'_>,
    source: &mut S,
    sink: &mut K,
) -> ReadingsEnd
    ensures loaded { IsLoaded order.now office.old.register.history office.new.register.history result (S.left source.old) (S.left source.new) (K.written sink.old) (K.written sink.new) }
    ensures passed { Passes D.Disk office.old.register.history office.new.register.history office.old.disk office.new.disk }
    ensures disk_counted { D.faults office.old.disk ≤ D.faults office.new.disk }
    ensures input_counted { S.faults source.old ≤ S.faults source.new }
    ensures output_counted { K.faults sink.old ≤ K.faults sink.new }
    ensures cause { LoadingCause result (S.faults source.old) (S.faults source.new) (K.faults sink.old) (K.faults sink.new) }
    ensures unasked { IsUnasked result → (office.new ≡ office.old) × (sink.new ≡ sink.old) }
{
    // this runs nothing: it tells the proof what passes where the office is asked nothing
    stands_still(office);
    let units = match read_text(alloc, order, source) {
        Ok(units) => units,
        Err(end) => return end,
    };
    if tell_units(alloc, office, order, units, sink) {
        ReadingsEnd::Done
    } else {
        ReadingsEnd::OutputFault
    }
}

/// The readings that the text on a source states. The text is given up before they are put.
fn read_text<S: Source>(
    alloc: Global,
    order: &ReadingOrder<'_>,
    source: &mut S,
) -> Result<UnitList, ReadingsEnd>
    ensures stated { IfOk result (λ units. IsReadAs order.now (S.left source.old) units (S.left source.new)) }
    ensures rising { IfOk result (λ units. IsRising units.readings) }
    ensures each { IfOk result (λ units. All IsPutReading units.readings) }
    ensures unasked { IfErr result (λ end. IsUnasked end) }
    ensures unstated { IfErr result (λ end. IsUnstated order.now end (S.left source.old) (S.left source.new)) }
    ensures cause { IfErr result (λ end. end ≡ ReadingsEnd.InputFault → Rose (S.faults source.old) (S.faults source.new)) }
    ensures taken { IsTakenWithin (MOST_BYTES + 1) (S.left source.old) (S.left source.new) }
    ensures counted { S.faults source.old ≤ S.faults source.new }
{
    let text = read_whole(alloc, source, MOST_BYTES)?;
    let units = read_units(alloc, text.as_slice(), order.site(), order.column())?;
    Ok(units)
}

/// Asks the office to put the readings, and writes the line of each edit, and behind them the one that counts; `false` where the sink
/// failed, behind which no edit is asked.
fn tell_units<D: Disk, K: Sink>(
    alloc: Global,
    office: &mut Office<D>,
    order: &ReadingOrder<'_>,
    units: UnitList,
    sink: &mut K,
) -> bool
    requires rising { IsRising units.readings }
    requires each { All IsPutReading units.readings }
    ensures told { (written : List ℕ) × AreUnitsTold result order.now units office.old.register.history office.new.register.history written × AreWritten (K.written sink.old) written (K.written sink.new) true }
    ensures passed { Passes D.Disk office.old.register.history office.new.register.history office.old.disk office.new.disk }
    ensures disk_counted { D.faults office.old.disk ≤ D.faults office.new.disk }
    ensures output_counted { K.faults sink.old ≤ K.faults sink.new }
    ensures cause { result ≡ false → Rose (K.faults sink.old) (K.faults sink.new) }
{
    if !tell_puts(alloc, office, order, units.readings.as_slice(), sink) {
        return false;
    }
    put_all(sink, count_line(&units).as_slice())
}

/// Asks the office to put the readings, and writes the line of each edit; `false` where the sink failed, behind which none is asked.
fn tell_puts<D: Disk, K: Sink>(
    alloc: Global,
    office: &mut Office<D>,
    order: &ReadingOrder<'_>,
    readings: &[Reading],
    sink: &mut K,
) -> bool
    requires rising { IsRising readings.now }
    requires each { All IsPutReading readings.now }
    ensures told { (written : List ℕ) × ArePutAndTold result order.now readings.now office.old.register.history office.new.register.history written × AreWritten (K.written sink.old) written (K.written sink.new) true }
    ensures passed { Passes D.Disk office.old.register.history office.new.register.history office.old.disk office.new.disk }
    ensures disk_counted { D.faults office.old.disk ≤ D.faults office.new.disk }
    ensures output_counted { K.faults sink.old ≤ K.faults sink.new }
    ensures cause { result ≡ false → Rose (K.faults sink.old) (K.faults sink.new) }
{
    // this runs nothing: it tells the proof what passes until the first is asked
    stands_still(office);
    for place in 0..count_puts(readings) {
        if !tell_put(alloc, office, order, readings, place, sink) {
            return false;
        }
    }
    true
}

/// Asks the office to put the readings of the chunk in that place, and writes the line; whether the sink took it. Where there is no
/// memory for the edit the office is not asked, and the line tells that.
fn tell_put<D: Disk, K: Sink>(
    alloc: Global,
    office: &mut Office<D>,
    order: &ReadingOrder<'_>,
    readings: &[Reading],
    place: usize,
    sink: &mut K,
) -> bool
    requires within { place < put_count (length readings.now) }
    requires rising { IsRising readings.now }
    requires each { All IsPutReading readings.now }
    ensures told { (edit : Edit) × (line : List ℕ) × IsPut order.now (place + 1) (slice_chunk readings.now MOST_READINGS place) edit × IsSent line_end office.old.register.history edit line office.new.register.history × AreWritten (K.written sink.old) line (K.written sink.new) result }
    ensures passed { Passes D.Disk office.old.register.history office.new.register.history office.old.disk office.new.disk }
    ensures disk_counted { D.faults office.old.disk ≤ D.faults office.new.disk }
    ensures output_counted { K.faults sink.old ≤ K.faults sink.new }
    ensures cause { result ≡ false → Rose (K.faults sink.old) (K.faults sink.new) }
{
    // this runs nothing: it tells the proof what passes where the office is not asked
    stands_still(office);
    match put_at(alloc, order, readings, place) {
        Ok(edit) => tell_edit(office, edit, b"\n", sink),
        Err(_) => put_all(sink, told_line(Err(Refusal::NoMemory), b"\n").as_slice()),
    }
}
