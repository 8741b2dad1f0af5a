//! Room for an edit, made before it is journaled, so that its acceptance takes no memory.

ghost use Rattle.std.specs.Prelude.{◌≡◌, ◌≤◌, ◌<◌, IfOk, OnOk, vec_len, vec_capacity};
ghost use Rattle.civil_days.specs.Starts.{IsZone};
ghost use Rattle.fixed_units.specs.Quantities.{most_gap};
ghost use Rattle.edits.specs.Lawful.{IsLawful};
ghost use Rattle.office_inputs.specs.Kept.{AreStations, HasRoom, HasRoomThere, IsStagedStation, in_force, states_of, staged_part};
ghost use Rattle.office_inputs.specs.Places.{IsPlace, IsPlaceOf};
ghost use Rattle.station_inputs.specs.Stations.{new_station};

use crate::inputs::Inputs;
use crate::places::Place;
use crate::staged::StagedEdit;
use crate::zones::zone_of;
use edits::{Edit, Name, What};
use fixed_units::{NoMemory, RoundingArray, Site};
use station_inputs::{Staged, Station};
use std::alloc::Global;

impl Inputs {
    /// Makes room for an edit. What is in force is as before, also after `NoMemory`.
    pub fn prepare(&mut self, edit: &Edit) -> Result<(), NoMemory>
        ensures stations { in_force self.new ≡ in_force self.old }
        ensures limits { self.new.limits ≡ self.old.limits }
        ensures room { OnOk result (HasRoom self.new edit.now) }
    {
        let place = self.place(edit.site);
        self.prepare_at(place, edit)
    }

    /// The same at the place of the edit's site, which stays that of the site. Nothing is looked up.
    pub fn prepare_at(&mut self, place: Place, edit: &Edit) -> Result<(), NoMemory>
        requires { IsPlaceOf (in_force self.old) edit.now.site place }
        ensures stations { in_force self.new ≡ in_force self.old }
        ensures limits { self.new.limits ≡ self.old.limits }
        ensures room { OnOk result (HasRoom self.new edit.now) }
    {
        match &edit.what {
            What::AddStation {
                name,
                zone,
                gap,
                stage_array,
                discharge_array,
            } => self.stage_station(edit.site, name, zone, *gap, *stage_array, *discharge_array),
            what => self.prepare_station(place, what),
        }
    }

    /// Stages a station, and makes room for it.
    fn stage_station(
        &mut self,
        site: Site,
        name: &Name,
        zone: &Name,
        gap: u32,
        stage_array: RoundingArray,
        discharge_array: RoundingArray,
    ) -> Result<(), NoMemory>
        requires zone { IsZone zone.now }
        requires gap_low { 1 ≤ gap }
        requires gap_high { gap ≤ most_gap }
        ensures stations { in_force self.new ≡ in_force self.old }
        ensures limits { self.new.limits ≡ self.old.limits }
        ensures staged { OnOk result (IsStagedStation (new_station site name.now zone.now gap stage_array discharge_array) self.new.staged) }
        ensures room { OnOk result (0 < self.new.spare) }
    {
        self.stations.reserve(1)?;
        let station = self.station_to_add(site, name, zone, gap, stage_array, discharge_array)?;
        self.stage(StagedEdit::Whole(station));
        Ok(())
    }

    /// The station that an edit adds.
    fn station_to_add(
        &self,
        site: Site,
        name: &Name,
        zone: &Name,
        gap: u32,
        stage_array: RoundingArray,
        discharge_array: RoundingArray,
    ) -> Result<Station, NoMemory>
        requires zone { IsZone zone.now }
        requires gap_low { 1 ≤ gap }
        requires gap_high { gap ≤ most_gap }
        ensures { IfOk result (λ station. station.station ≡ new_station site name.now zone.now gap stage_array discharge_array) }
    {
        let zone = zone_of(self.alloc, self.stations.as_slice(), zone)?;
        let name = name.copy(self.alloc)?;
        Ok(Station::new(
            self.alloc,
            site,
            name,
            zone,
            gap,
            stage_array,
            discharge_array,
        ))
    }

    /// Makes room for an edit of the station at a place, where its site is kept.
    fn prepare_station(&mut self, place: Place, what: &What) -> Result<(), NoMemory>
        requires place { IsPlace (in_force self.old) place }
        requires lawful { IsLawful what.now }
        ensures stations { in_force self.new ≡ in_force self.old }
        ensures limits { self.new.limits ≡ self.old.limits }
        ensures room { OnOk result (HasRoomThere self.new.kept (staged_part self.new.staged) place.site what.now) }
    {
        let staged = prepare_in(self.alloc, &mut self.stations, place, what)?;
        self.stage(StagedEdit::Part(staged));
        Ok(())
    }

    /// Stages this in the place of what was staged before.
    fn stage(&mut self, staged: StagedEdit)
        ensures staged { self.new.staged ≡ staged }
        ensures kept { self.new.kept ≡ self.old.kept }
        ensures limits { self.new.limits ≡ self.old.limits }
        ensures spare { self.new.spare ≡ self.old.spare }
    {
        self.staged = staged;
    }
}

/// Makes room for an edit of the station at a place among the stations that are kept, and gives what is staged for it.
fn prepare_in(
    alloc: Global,
    stations: &mut Vec<Station>,
    place: Place,
    what: &What,
) -> Result<Staged, NoMemory>
    requires stations { AreStations stations.old.items }
    requires place { IsPlace (states_of stations.old.items) place }
    requires lawful { IsLawful what.now }
    ensures states { states_of stations.new.items ≡ states_of stations.old.items }
    ensures kept { AreStations stations.new.items }
    ensures len { vec_len stations.new ≡ vec_len stations.old }
    ensures capacity { vec_capacity stations.new ≡ vec_capacity stations.old }
    ensures room { IfOk result (λ staged. HasRoomThere stations.new.items staged place.site what.now) }
{
    match place.index() {
        Some(index) => stations[index].prepare(alloc, what),
        None => Ok(Staged::Nothing),
    }
}
