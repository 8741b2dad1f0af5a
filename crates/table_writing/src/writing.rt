//! Tables of an office, written behind turns of it.

ghost use Rattle.std.specs.Prelude.{◌≡◌, ◌≤◌};
ghost use Rattle.shared_office.specs.Passages.{Passes};
ghost use Rattle.history.specs.Accepted.{accepted};
ghost use Rattle.register.specs.Registered.{NoneOut};
ghost use Rattle.table_writing.specs.Ends.{IsPut, IsWrittenBehind, TableCause};
ghost use Rattle.table_writing.specs.Texts.{daily_output, water_output};
ghost use Rattle.water_year.specs.Rows.{IsWaterYear};

use crate::texts::{daily_text, water_text};
use crate::turns::make_turns;
use devices::{Disk, Sink, put_all};
use fixed_units::{Day, Site, Text};
use office::Office;
use std::alloc::Global;

/// How the writing of a table ended.
#[derive(Clone, Copy, Debug, PartialEq, Eq)]
pub enum TableEnd {
    /// The whole text was written.
    Done,
    /// The sink failed.
    OutputFault,
    /// There was no memory for a turn or for the text.
    NoMemory,
}

/// Writes the daily values of a site from one day to another, both included, as the office answers them behind so many turns, or behind
/// fewer where no day is pending any more: as RDB, a row for each day. Of a site that is not kept it writes the line `NO STATION`.
pub fn write_daily_values<D: Disk, K: Sink>(
    alloc: Global,
    office: &mut Office<D>,
    site: Site,
    from: Day,
    to: Day,
    turns: u32,
    sink: &mut K,
) -> TableEnd
    requires claims { NoneOut office.old.register }
    ensures written { IsWrittenBehind result turns (λ h. daily_output h.events site from to) office.old.register.history office.new.register.history (K.written sink.old) (K.written sink.new) }
    ensures records { accepted office.new.register.history.events ≡ accepted office.old.register.history.events }
    ensures passed { Passes D.Disk office.old.register.history office.new.register.history office.old.disk office.new.disk }
    ensures claims { NoneOut office.new.register }
    ensures disk { office.new.disk ≡ office.old.disk }
    ensures output_counted { K.faults sink.old ≤ K.faults sink.new }
    ensures cause { TableCause result (K.faults sink.old) (K.faults sink.new) }
    ensures unwritten { result ≡ TableEnd.NoMemory → sink.new ≡ sink.old }
{
    let Ok(()) = make_turns(office, turns) else {
        return TableEnd::NoMemory;
    };
    let Ok(text) = daily_text(alloc, office, site, from, to) else {
        return TableEnd::NoMemory;
    };
    write_text(&text, sink)
}

/// Writes the table of a water year of a site, from 1901 to 2099, as the office answers its days behind so many turns, or behind fewer
/// where no day is pending any more. Where a day of the year is pending, it writes the line `PENDING` with the first such day and the
/// edit that it awaits, and of a site that is not kept the line `NO STATION`.
pub fn write_water_year<D: Disk, K: Sink>(
    alloc: Global,
    office: &mut Office<D>,
    site: Site,
    year: u16,
    turns: u32,
    sink: &mut K,
) -> TableEnd
    requires claims { NoneOut office.old.register }
    requires year { IsWaterYear year }
    ensures written { IsWrittenBehind result turns (λ h. water_output h.events site year) office.old.register.history office.new.register.history (K.written sink.old) (K.written sink.new) }
    ensures records { accepted office.new.register.history.events ≡ accepted office.old.register.history.events }
    ensures passed { Passes D.Disk office.old.register.history office.new.register.history office.old.disk office.new.disk }
    ensures claims { NoneOut office.new.register }
    ensures disk { office.new.disk ≡ office.old.disk }
    ensures output_counted { K.faults sink.old ≤ K.faults sink.new }
    ensures cause { TableCause result (K.faults sink.old) (K.faults sink.new) }
    ensures unwritten { result ≡ TableEnd.NoMemory → sink.new ≡ sink.old }
{
    let Ok(()) = make_turns(office, turns) else {
        return TableEnd::NoMemory;
    };
    let Ok(text) = water_text(alloc, office, site, year) else {
        return TableEnd::NoMemory;
    };
    write_text(&text, sink)
}

/// Writes a whole text.
fn write_text<K: Sink>(text: &Text, sink: &mut K) -> TableEnd
    ensures written { IsPut result text.now (K.written sink.old) (K.written sink.new) }
    ensures counted { K.faults sink.old ≤ K.faults sink.new }
    ensures cause { TableCause result (K.faults sink.old) (K.faults sink.new) }
{
    if put_all(sink, text.as_slice()) {
        TableEnd::Done
    } else {
        TableEnd::OutputFault
    }
}
