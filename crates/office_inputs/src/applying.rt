//! The acceptance of an edit: what is in force changes, and no memory is taken.

ghost use Rattle.std.specs.Prelude.{◌≡◌, ◌+◌, ◌<◌, ◌≤◌, false, None, [], vec_len, vec_capacity};
ghost use Rattle.edits.specs.Lawful.{IsLawful};
ghost use Rattle.office_inputs.specs.Kept.{AreStations, HasRoom, HasRoomThere, IsStagedNew, IsStagedStation, in_force, kept_at, states_of, staged_part};
ghost use Rattle.office_inputs.specs.Places.{IsPlace, IsPlaceOf};
ghost use Rattle.office_inputs.specs.Refusals.{obstacle_of, reading_count, refusal_of};
ghost use Rattle.office_inputs.specs.Stations.{changed_at, place_of, station_of, stations_after};
ghost use Rattle.rising.specs.Lists.{put};
ghost use Rattle.station_inputs.specs.Counts.{passes};
ghost use Rattle.station_inputs.specs.Stations.{StationState, station_after};

use crate::inputs::Inputs;
use crate::places::Place;
use crate::staged::StagedEdit;
use edits::{Edit, What};
use fixed_units::Site;
use rising::put_in;
use station_inputs::{Staged, Station};
use std::mem;

impl Inputs {
    /// Accepts an edit for which room is made and that is not refused. It takes no memory.
    pub fn apply(&mut self, edit: &Edit)
        requires accepted { refusal_of self.old.limits (in_force self.old) edit.now ≡ None }
        requires room { HasRoom self.old edit.now }
        ensures stations { in_force self.new ≡ stations_after (in_force self.old) edit.now }
        ensures limits { self.new.limits ≡ self.old.limits }
    {
        let place = self.place(edit.site);
        self.apply_at(place, edit);
    }

    /// The same at the place of the edit's site. Nothing is looked up but where a new station belongs.
    pub fn apply_at(&mut self, place: Place, edit: &Edit)
        requires place { IsPlaceOf (in_force self.old) edit.now.site place }
        requires accepted { refusal_of self.old.limits (in_force self.old) edit.now ≡ None }
        requires room { HasRoom self.old edit.now }
        ensures stations { in_force self.new ≡ stations_after (in_force self.old) edit.now }
        ensures limits { self.new.limits ≡ self.old.limits }
    {
        match &edit.what {
            What::AddStation { .. } => self.add_staged(edit.site),
            what => self.change(place, what),
        }
    }

    /// Adds the station that is staged.
    fn add_staged(&mut self, site: Site)
        requires staged { IsStagedNew site self.old.staged }
        requires room { 0 < self.old.spare }
        requires absent { kept_at self.old.kept site ≡ None }
        ensures stations { (station : StationState) → IsStagedStation station self.old.staged → in_force self.new ≡ put place_of station (in_force self.old) }
        ensures limits { self.new.limits ≡ self.old.limits }
    {
        if let Some(station) = self.take_staged().into_station() {
            add_in(&mut self.stations, station);
        }
    }

    /// Makes an edit of the station at a place.
    fn change(&mut self, place: Place, what: &What)
        requires place { IsPlace (in_force self.old) place }
        requires lawful { IsLawful what.now }
        requires free { obstacle_of (station_of (in_force self.old) place.site) what.now ≡ None }
        requires room { HasRoomThere self.old.kept (staged_part self.old.staged) place.site what.now }
        requires counted { passes self.old.limits.readings (reading_count (in_force self.old)) (reading_count (changed_at place.site (station_after what.now) (in_force self.old))) ≡ false }
        ensures stations { in_force self.new ≡ changed_at place.site (station_after what.now) (in_force self.old) }
        ensures limits { self.new.limits ≡ self.old.limits }
    {
        let staged = self.take_staged().into_part();
        let (before, after) = change_in(&mut self.stations, place, what, staged);
        self.readings = self.readings - before as u64 + after as u64;
    }

    /// Takes what is staged.
    fn take_staged(&mut self) -> StagedEdit
        ensures staged { result ≡ self.old.staged }
        ensures kept { self.new.kept ≡ self.old.kept }
        ensures limits { self.new.limits ≡ self.old.limits }
        ensures spare { self.new.spare ≡ self.old.spare }
    {
        mem::replace(&mut self.staged, StagedEdit::Part(Staged::Nothing))
    }
}

/// Adds a station that is not kept yet and has no readings.
fn add_in(stations: &mut Vec<Station>, station: Station)
    requires kept { AreStations stations.old.items }
    requires room { vec_len stations.old < vec_capacity stations.old }
    requires absent { kept_at stations.old.items station.station.site ≡ None }
    requires empty { station.station.readings ≡ [] }
    ensures states { states_of stations.new.items ≡ put place_of station.station (states_of stations.old.items) }
    ensures count { reading_count (states_of stations.new.items) ≡ reading_count (states_of stations.old.items) }
    ensures kept { AreStations stations.new.items }
{
    let _site = station.site();
    put_in(stations, station);
}

/// Makes an edit of the station at a place, where its site is kept, and tells how many readings it had before and has then.
fn change_in(
    stations: &mut Vec<Station>,
    place: Place,
    what: &What,
    staged: Staged,
) -> (usize, usize)
    requires kept { AreStations stations.old.items }
    requires place { IsPlace (states_of stations.old.items) place }
    requires lawful { IsLawful what.now }
    requires free { obstacle_of (station_of (states_of stations.old.items) place.site) what.now ≡ None }
    requires room { HasRoomThere stations.old.items staged place.site what.now }
    ensures states { states_of stations.new.items ≡ changed_at place.site (station_after what.now) (states_of stations.old.items) }
    ensures count { reading_count (states_of stations.new.items) + result.0 ≡ reading_count (states_of stations.old.items) + result.1 }
    ensures within { result.0 ≤ reading_count (states_of stations.old.items) }
    ensures kept { AreStations stations.new.items }
{
    match place.index() {
        Some(index) => {
            let station = &mut stations[index];
            let before = station.count();
            station.apply(what, staged);
            (before, station.count())
        }
        None => (0, 0),
    }
}
