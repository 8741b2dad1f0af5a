//! The series of a station: its three correction sets and its shifts, and each of them changed.

ghost use Rattle.std.specs.Prelude.{◌≡◌, ◌<◌, length, OnOk};
ghost use Rattle.curves.specs.Corrections.{entries_of, set_of, with_set_changed};
ghost use Rattle.curves.specs.Entries.{IsRising, put, stands_at, without};
ghost use Rattle.edits.specs.Lawful.{IsPutCurve, IsSetNumber};
ghost use Rattle.fixed_units.specs.Quantities.{IsStamp};
ghost use Rattle.station_inputs.specs.KeptStation.{IsStation};
ghost use Rattle.station_inputs.specs.Series.{IsOfStation, room_in};
ghost use Rattle.station_inputs.specs.Stations.{series_of, with_entry, without_entry};

use crate::stations::Station;
use curves::{CorrectionSets, Entry, Series};
use fixed_units::{NoMemory, Second};

/// A series of a station.
#[derive(Clone, Copy, Debug, PartialEq, Eq)]
pub enum StationSeries {
    /// The correction set of a number from 1 to 3.
    Correction(u8),
    /// The shifts.
    Shift,
}

impl Station {
    /// A series of the station.
    pub(crate) fn series(&self, which: StationSeries) -> &Series
        requires { IsOfStation which }
        ensures entries { result.now.entries ≡ series_of which self.now.station }
        ensures rising { IsRising result.now.entries }
    {
        match which {
            StationSeries::Correction(set) => self.corrections.set(set),
            StationSeries::Shift => self.shifts.series(),
        }
    }

    /// The entries of a series, rising by instant.
    pub(crate) fn entries(&self, which: StationSeries) -> &[Entry]
        requires { IsOfStation which }
        ensures entries { result.now ≡ series_of which self.now.station }
        ensures rising { IsRising result.now }
    {
        self.series(which).entries()
    }

    /// Whether an entry stands at an instant of a series.
    pub(crate) fn has_entry_at(&self, which: StationSeries, at: Second) -> bool
        requires { IsOfStation which }
        ensures { result ≡ stands_at at (series_of which self.now.station) }
    {
        self.series(which).stands_at(at)
    }

    /// Makes room for one entry more in a series. The station is as before, also after `NoMemory`.
    pub(crate) fn reserve_entry(&mut self, which: StationSeries) -> Result<(), NoMemory>
        requires { IsOfStation which }
        ensures station { self.new.station ≡ self.old.station }
        ensures room { OnOk result (0 < room_in which self.new.entry_room) }
        ensures kept { IsStation self.new.station }
    {
        match which {
            StationSeries::Correction(set) => reserve_correction(&mut self.corrections, set),
            StationSeries::Shift => self.shifts.series_mut().reserve(1),
        }
    }

    /// Puts an entry into a series, in place of the one at its instant. There is room for it, so no memory is taken.
    pub(crate) fn put_entry(&mut self, which: StationSeries, entry: Entry)
        requires series { IsOfStation which }
        requires room { 0 < room_in which self.old.entry_room }
        requires lawful { IsPutCurve entry.curve }
        requires stamp { IsStamp entry.at }
        ensures station { self.new.station ≡ with_entry which entry self.old.station }
        ensures kept { IsStation self.new.station }
    {
        match which {
            StationSeries::Correction(set) => put_correction(&mut self.corrections, set, entry),
            StationSeries::Shift => self.shifts.series_mut().put(entry),
        }
    }

    /// Takes the entry at an instant out of a series.
    pub(crate) fn drop_entry(&mut self, which: StationSeries, at: Second)
        requires { IsOfStation which }
        ensures station { self.new.station ≡ without_entry which at self.old.station }
        ensures kept { IsStation self.new.station }
    {
        match which {
            StationSeries::Correction(set) => drop_correction(&mut self.corrections, set, at),
            StationSeries::Shift => drop_from(self.shifts.series_mut(), at),
        }
    }
}

/// Makes room for one entry more in the correction set of a number.
fn reserve_correction(corrections: &mut CorrectionSets, set: u8) -> Result<(), NoMemory>
    requires { IsSetNumber set }
    ensures entries { entries_of corrections.new ≡ entries_of corrections.old }
    ensures room { OnOk result (0 < (set_of corrections.new set).spare) }
{
    corrections.set_mut(set).reserve(1)
}

/// Puts an entry into the correction set of a number.
fn put_correction(corrections: &mut CorrectionSets, set: u8, entry: Entry)
    requires set { IsSetNumber set }
    requires room { 0 < (set_of corrections.old set).spare }
    ensures { entries_of corrections.new ≡ with_set_changed set (put entry) (entries_of corrections.old) }
{
    corrections.set_mut(set).put(entry);
}

/// Takes the entry at an instant out of the correction set of a number.
fn drop_correction(corrections: &mut CorrectionSets, set: u8, at: Second)
    requires set { IsSetNumber set }
    requires rising { IsRising (set_of corrections.old set).entries }
    ensures { entries_of corrections.new ≡ with_set_changed set (without at) (entries_of corrections.old) }
{
    drop_from(corrections.set_mut(set), at);
}

/// Takes the entry at an instant out of a series, which stays where none stands there.
fn drop_from(series: &mut Series, at: Second)
    requires { IsRising series.old.entries }
    ensures { series.new.entries ≡ without at series.old.entries }
{
    let _found = series.take_out(at);
}
