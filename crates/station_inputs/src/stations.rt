//! A station that is kept: what is said of it, its corrections and shifts, its ratings, its measurements, its estimates, its
//! editions, and its readings.

ghost use Rattle.std.specs.Prelude.{◌≡◌, ◌≤◌, ◌+◌, length, IfOk, OnOk};
ghost use Rattle.std.specs.Arc.{arc_value};
ghost use Rattle.civil_days.specs.Starts.{IsZone};
ghost use Rattle.readings.specs.Readings.{put_all, with_flag, without_span, IsRising};
ghost use Rattle.fixed_units.specs.Quantities.{most_gap};
ghost use Rattle.edits.specs.Lawful.{ArePutReadings};
ghost use Rattle.station_inputs.specs.Stations.{new_station, described, with_readings};
ghost use Rattle.station_inputs.specs.KeptStation.{IsStation};

use crate::station_editions::Edition;
use civil_days::StationZone;
use curves::{CorrectionSets, Shifts};
use edits::{Estimate, Measurement, Name};
use fixed_units::{Flag, NoMemory, Reading, RoundingArray, Second, Site};
use ratings::Ratings;
use readings::Readings;
use rising::{Keyed, RisingList};
use std::alloc::Global;
use std::marker::Model;
use std::sync::Arc;

/// A station in force. Contracts see its state, and for how many more readings, entries of each series, ratings, periods,
/// measurements, estimates and editions there is room beside it.
pub struct Station {
    site: Site,
    name: Name,
    pub(crate) zone: Arc<StationZone>,
    pub(crate) gap: u32,
    pub(crate) stage_array: RoundingArray,
    pub(crate) discharge_array: RoundingArray,
    pub(crate) corrections: CorrectionSets,
    pub(crate) shifts: Shifts,
    pub(crate) ratings: Ratings,
    pub(crate) measurements: RisingList<Measurement>,
    pub(crate) estimates: RisingList<Estimate>,
    pub(crate) editions: RisingList<Edition>,
    pub(crate) readings: Readings,
}

impl Model for Station {
    ghost use Rattle.std.specs.Arc.{arc_value};
    ghost use Rattle.curves.specs.Corrections.{entries_of};
    ghost use Rattle.station_inputs.specs.KeptStation.{KeptStation, IsStation};
    ghost use Rattle.station_inputs.specs.Series.{room_of};

    ghost Value = { KeptStation };

    ghost view = { λ s. record {
      station = record { site = s.site; name = s.name; zone = arc_value s.zone; gap = s.gap; stage_array = s.stage_array; discharge_array = s.discharge_array; corrections = entries_of s.corrections; shifts = s.shifts.series.entries; ratings = s.ratings.ratings; measurements = s.measurements.list; estimates = s.estimates.list; editions = s.editions.list; readings = s.readings.list };
      spare = s.readings.spare;
      entry_room = room_of s.corrections s.shifts;
      rating_room = s.ratings.rating_room;
      period_room = s.ratings.period_room;
      measurement_room = s.measurements.spare;
      estimate_room = s.estimates.spare;
      edition_room = s.editions.spare;
    } };

    ghost invariant = { λ s. IsStation (record { site = s.site; name = s.name; zone = arc_value s.zone; gap = s.gap; stage_array = s.stage_array; discharge_array = s.discharge_array; corrections = entries_of s.corrections; shifts = s.shifts.series.entries; ratings = s.ratings.ratings; measurements = s.measurements.list; estimates = s.estimates.list; editions = s.editions.list; readings = s.readings.list }) };
}

/// By hand, so that a drop is one call wherever a station is dropped.
impl Drop for Station {
    fn drop(self) {
        let Station {
            site: _,
            name: _name,
            zone: _zone,
            gap: _,
            stage_array: _,
            discharge_array: _,
            corrections: _corrections,
            shifts: _shifts,
            ratings: _ratings,
            measurements: _measurements,
            estimates: _estimates,
            editions: _editions,
            readings: _readings,
        } = self;
    }
}

impl Keyed for Station {
    ghost use Rattle.fixed_units.specs.Quantities.{site_place};

    type Key = Site;

    ghost place = { λ s. site_place s.station.site };

    ghost number = { λ s. site_place s };

    fn key(&self) -> Site {
        self.site
    }

    fn is_before(&self, key: Site) -> bool {
        self.site.is_before(key)
    }

    fn is_at(&self, key: Site) -> bool {
        self.site.is_at(key)
    }
}

impl Station {
    /// The site.
    pub fn site(&self) -> Site
        ensures site { result ≡ self.now.station.site }
        ensures kept { IsStation self.now.station }
    {
        self.site
    }

    /// What the station is called: 1 to 60 characters from space to `~`.
    pub fn name(&self) -> &[u8]
        ensures { result.now ≡ self.now.station.name }
    {
        self.name.as_slice()
    }

    /// The text of its zone, as it was given.
    pub fn zone_text(&self) -> &[u8]
        ensures { result.now ≡ self.now.station.zone }
    {
        self.zone.text()
    }

    /// Its zone once more, for a station of the same zone text.
    pub fn share_zone(&self) -> Result<Arc<StationZone>, NoMemory>
        ensures { IfOk result (λ zone. arc_value zone ≡ self.now.station.zone) }
    {
        Ok(Arc::try_clone(&self.zone)?)
    }

    /// Its zone.
    pub fn zone(&self) -> &StationZone
        ensures { result.now ≡ self.now.station.zone }
    {
        &self.zone
    }

    /// The gap tolerance in minutes, 1 to 720.
    pub fn gap(&self) -> u32
        ensures { result ≡ self.now.station.gap }
    {
        self.gap
    }

    /// The rounding array for stages.
    pub fn stage_array(&self) -> &RoundingArray
        ensures { result.now ≡ self.now.station.stage_array }
    {
        &self.stage_array
    }

    /// The rounding array for discharges.
    pub fn discharge_array(&self) -> &RoundingArray
        ensures { result.now ≡ self.now.station.discharge_array }
    {
        &self.discharge_array
    }
}

impl Station {
    /// A station without corrections, shifts, ratings, measurements, estimates, editions and readings, which takes no memory of its own.
    pub fn new(
        alloc: Global,
        site: Site,
        name: Name,
        zone: Arc<StationZone>,
        gap: u32,
        stage_array: RoundingArray,
        discharge_array: RoundingArray,
    ) -> Station
        requires gap_low { 1 ≤ gap }
        requires gap_high { gap ≤ most_gap }
        requires zone { IsZone (arc_value zone) }
        ensures { result.station ≡ new_station site name (arc_value zone) gap stage_array discharge_array }
    {
        let _range = site.digits();
        Station {
            site,
            name,
            zone,
            gap,
            stage_array,
            discharge_array,
            corrections: CorrectionSets::new(alloc),
            shifts: Shifts::new(alloc),
            ratings: Ratings::new(alloc),
            measurements: RisingList::new(alloc),
            estimates: RisingList::new(alloc),
            editions: RisingList::new(alloc),
            readings: Readings::new(alloc),
        }
    }

    /// How many readings the station has, erroneous ones among them.
    pub fn count(&self) -> usize
        ensures { result ≡ length self.now.station.readings }
    {
        self.readings.len()
    }

    /// How many more readings the station would have with these put: those that stand at instants of no reading. It takes no memory.
    pub fn count_new(&self, readings: &[Reading]) -> usize
        requires { IsRising readings.now }
        ensures { length (put_all readings.now self.now.station.readings) ≡ length self.now.station.readings + result }
    {
        self.readings.count_new(readings)
    }

    /// Makes room for so many readings more. The station is as before, also after `NoMemory`.
    pub(crate) fn reserve(&mut self, count: usize) -> Result<(), NoMemory>
        ensures station { self.new.station ≡ self.old.station }
        ensures room { OnOk result (count ≤ self.new.spare) }
        ensures kept { IsStation self.new.station }
    {
        self.readings.reserve(count)
    }

    /// Puts readings, each in place of the one at its instant. There is room for all of them, so no memory is taken.
    pub(crate) fn put(&mut self, readings: &[Reading])
        requires room { length readings.now ≤ self.old.spare }
        requires lawful { ArePutReadings readings.now }
        ensures station { self.new.station ≡ with_readings (put_all readings.now) self.old.station }
        ensures kept { IsStation self.new.station }
    {
        self.readings.put_all(readings);
    }

    /// Takes out every reading from an instant to another, both included.
    pub(crate) fn drop_readings(&mut self, from: Second, to: Second)
        ensures station { self.new.station ≡ with_readings (without_span from to) self.old.station }
        ensures kept { IsStation self.new.station }
    {
        let _count = self.readings.drop_span(from, to);
    }

    /// Flags every reading from an instant to another, both included.
    pub(crate) fn flag_readings(&mut self, from: Second, to: Second, flag: Flag)
        ensures station { self.new.station ≡ with_readings (with_flag from to flag) self.old.station }
        ensures kept { IsStation self.new.station }
    {
        let _count = self.readings.flag_span(from, to, flag);
    }

    /// Describes the station anew: all else of it stays.
    pub(crate) fn describe(
        &mut self,
        name: Name,
        gap: u32,
        stage_array: RoundingArray,
        discharge_array: RoundingArray,
    )
        requires gap_low { 1 ≤ gap }
        requires gap_high { gap ≤ most_gap }
        ensures station { self.new.station ≡ described name gap stage_array discharge_array self.old.station }
        ensures spare { self.new.spare ≡ self.old.spare }
        ensures kept { IsStation self.new.station }
    {
        self.name = name;
        self.gap = gap;
        self.stage_array = stage_array;
        self.discharge_array = discharge_array;
    }
}
