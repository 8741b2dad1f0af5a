//! Which edits the inputs in force refuse.

ghost use Rattle.std.specs.Prelude.{◌≡◌, length, nat_le, None, Some, option_map, if◌then◌else◌};
ghost use Rattle.edits.specs.Lawful.{ArePutReadings, IsLawful};
ghost use Rattle.office_inputs.specs.Kept.{in_force};
ghost use Rattle.office_inputs.specs.Places.{IsPlaceOf};
ghost use Rattle.office_inputs.specs.Refusals.{limit_of, passed_limit, reading_count, refusal_by, refusal_for, refusal_of};
ghost use Rattle.office_inputs.specs.Stations.{place_of, station_of};
ghost use Rattle.office_inputs.specs.declared.refusals.Refusal.TheVariants as Refusal;
ghost use Rattle.office_inputs.specs.declared.refusals.Which.TheVariants as Which;
ghost use Rattle.readings.specs.Readings.{IsRising, put_all};
ghost use Rattle.rising.specs.Lists.{put};
ghost use Rattle.station_inputs.specs.Counts.{passed_count, passes};
ghost use Rattle.station_inputs.specs.KeptStation.{IsStation};
ghost use Rattle.station_inputs.specs.Obstacles.{obstacle};
ghost use Rattle.station_inputs.specs.Stations.{station_after, with_readings};

use crate::inputs::{Inputs, stations_keep_to_their_ranges};
use crate::places::Place;
use crate::refusals::{Refusal, Which};
use edits::{Edit, What};
use fixed_units::Reading;
use station_inputs::Station;

impl Inputs {
    /// Why the inputs in force refuse an edit, or `None` exactly where they do not: no station of the site, a station that is kept
    /// already, the first count that the edit would raise past its limit, or what of the station stands in its way: a rating that a
    /// period lacks, a rating that is there already, a period that it overlaps, or nothing where a drop would take something out or a
    /// flagging would flag it. It takes no memory.
    pub fn refusal(&self, edit: &Edit) -> Option<Refusal>
        ensures { result ≡ refusal_of self.now.limits (in_force self.now) edit.now }
    {
        self.refusal_at(self.place(edit.site), edit)
    }

    /// The same at the place of the edit's site. No station is looked up.
    pub fn refusal_at(&self, place: Place, edit: &Edit) -> Option<Refusal>
        requires { IsPlaceOf (in_force self.now) edit.now.site place }
        ensures { result ≡ refusal_of self.now.limits (in_force self.now) edit.now }
    {
        match self.station_at(place) {
            None => self.refusal_without(edit),
            Some(station) => {
                let _site = station.site();
                self.refusal_with(station, edit)
            }
        }
    }

    /// Why an edit of a site that is not kept is refused.
    fn refusal_without(&self, edit: &Edit) -> Option<Refusal>
        requires { station_of (in_force self.now) edit.now.site ≡ None }
        ensures { result ≡ refusal_of self.now.limits (in_force self.now) edit.now }
    {
        stations_keep_to_their_ranges(self);
        match &edit.what {
            What::AddStation { .. } => self.station_limit(),
            _ => Some(Refusal::NoStation),
        }
    }

    /// Why an edit of a station is refused.
    fn refusal_with(&self, station: &Station, edit: &Edit) -> Option<Refusal>
        requires found { station_of (in_force self.now) edit.now.site ≡ Some station.now.station }
        requires kept { IsStation station.now.station }
        ensures { result ≡ refusal_of self.now.limits (in_force self.now) edit.now }
    {
        stations_keep_to_their_ranges(self);
        match &edit.what {
            What::AddStation { .. } => Some(Refusal::StationExists),
            What::PutReadings { readings } => self.reading_limit(station, readings.as_slice()),
            what => refusal_by_station(station, what),
        }
    }

    /// Whether a station more would pass the limit.
    fn station_limit(&self) -> Option<Refusal>
        ensures { result ≡ (if nat_le self.now.limits.stations (length self.now.kept) then Some (Refusal.Limit Which.Stations) else None) }
    {
        if self.stations.len() >= self.limits.stations as usize {
            return Some(Refusal::Limit(Which::Stations));
        }
        None
    }

    /// The first limit that readings would pass at a station.
    fn reading_limit(&self, station: &Station, readings: &[Reading]) -> Option<Refusal>
        requires found { station_of (in_force self.now) station.now.station.site ≡ Some station.now.station }
        requires lawful { ArePutReadings readings.now }
        ensures { result ≡ option_map Refusal.Limit (passed_limit self.now.limits station.now.station.site (in_force self.now) (put place_of (with_readings (put_all readings.now) station.now.station) (in_force self.now))) }
    {
        stations_keep_to_their_ranges(self);
        if self.passes_readings(station, readings) {
            return Some(Refusal::Limit(Which::Readings));
        }
        if station.passes_a_day(readings, self.limits.day_readings) {
            return Some(Refusal::Limit(Which::DayReadings));
        }
        None
    }

    /// Whether readings would raise the readings of all stations past their limit: only those at instants of no reading do, and they
    /// are counted alone where there are more readings than may come.
    fn passes_readings(&self, station: &Station, readings: &[Reading]) -> bool
        requires found { station_of (in_force self.now) station.now.station.site ≡ Some station.now.station }
        requires rising { IsRising readings.now }
        ensures { result ≡ passes self.now.limits.readings (reading_count (in_force self.now)) (reading_count (put place_of (with_readings (put_all readings.now) station.now.station) (in_force self.now))) }
    {
        stations_keep_to_their_ranges(self);
        let _site = station.site();
        let free = self.limits.readings.saturating_sub(self.readings);
        readings.len() as u64 > free && station.count_new(readings) as u64 > free
    }
}

/// The limit of the first of a station's counts that an edit of it would raise past it, or else what of the station stands in its way.
fn refusal_by_station(station: &Station, what: &What) -> Option<Refusal>
    requires { IsLawful what.now }
    ensures { result ≡ refusal_by (option_map limit_of (passed_count station.now.station (station_after what.now station.now.station))) (option_map refusal_for (obstacle station.now.station what.now)) }
{
    match station.passed_count(what) {
        Some(counted) => Some(Refusal::Limit(counted.into())),
        None => Some(station.obstacle(what)?.into()),
    }
}
