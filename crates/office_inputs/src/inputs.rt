//! The inputs in force of all stations.

ghost use Rattle.std.specs.Prelude.{◌≡◌, ◌↔◌, ◌+◌, true, [], IfOk, None, option_map};
ghost use Rattle.day_inputs.specs.DayInputs.{AreInputs};
ghost use Rattle.office_inputs.specs.Changes.{keeps_day};
ghost use Rattle.office_inputs.specs.Kept.{AreStations, in_force};
ghost use Rattle.office_inputs.specs.Places.{IsPlace, IsPlaceOf};
ghost use Rattle.office_inputs.specs.Refusals.{refusal_of};
ghost use Rattle.office_inputs.specs.Measured.{measurement_at, shift_at, table_at};
ghost use Rattle.office_inputs.specs.Stations.{station_of, inputs_of_day};
ghost use Rattle.office_inputs.specs.Touched.{IsUsedSpan};

use crate::limits::Limits;
use crate::places::{Place, find_place, station_there};
use crate::staged::StagedEdit;
use chronicle::Steps;
use day_inputs::DayInputs;
use edits::{Edit, Measurement};
use fixed_units::{Day, Micro, NoMemory, Second, Site};
use ratings::Table;
use station_inputs::{Staged, Station};
use std::alloc::Global;
use std::marker::Model;
use std::sync::ledger::Ledger;

/// What is in force: the stations that are kept. Contracts see them as a list that rises by site, with the limits that they
/// keep to and the room that is made for an edit.
pub struct Inputs {
    pub(crate) alloc: Global,
    pub(crate) limits: Limits,
    pub(crate) stations: Vec<Station>,
    pub(crate) readings: u64,
    pub(crate) staged: StagedEdit,
}

impl Model for Inputs {
    ghost use Rattle.std.specs.Prelude.{◌≡◌, ◌-◌, vec_len, vec_capacity};
    ghost use Rattle.office_inputs.specs.Kept.{InForce, AreStations, states_of};
    ghost use Rattle.office_inputs.specs.Refusals.{reading_count};

    ghost Value = { InForce };

    ghost view = { λ i. record { limits = i.limits; kept = i.stations.items; spare = vec_capacity i.stations - vec_len i.stations; staged = i.staged } };

    ghost invariant = { λ i. AreStations i.stations.items × (i.readings ≡ reading_count (states_of i.stations.items)) };
}

/// By hand, so that a drop is one call wherever inputs are dropped.
impl Drop for Inputs {
    fn drop(self) {
        let Inputs {
            alloc: _,
            limits: _,
            stations: _stations,
            readings: _,
            staged: _staged,
        } = self;
    }
}

impl Inputs {
    /// No stations, which takes no memory.
    pub fn new(alloc: Global, limits: Limits) -> Inputs
        ensures limits { result.limits ≡ limits }
        ensures stations { in_force result ≡ [] }
    {
        Inputs {
            alloc,
            limits,
            stations: Vec::new(alloc),
            readings: 0,
            staged: StagedEdit::Part(Staged::Nothing),
        }
    }

    /// The numbers that the inputs keep to.
    pub fn limits(&self) -> Limits
        ensures { result ≡ self.now.limits }
    {
        self.limits
    }

    /// Where the station of a site stands, by a binary search. It is good for an edit of the site until the next edit is accepted, so
    /// that the station is looked up once for it.
    pub fn place(&self, site: Site) -> Place
        ensures { IsPlaceOf (in_force self.now) site result }
    {
        find_place(self.stations.as_slice(), site)
    }

    /// The station of a site, or `None` exactly where it is not kept.
    pub fn station(&self, site: Site) -> Option<&Station>
        ensures { option_map (λ s. s.now.station) result ≡ station_of (in_force self.now) site }
    {
        self.station_at(self.place(site))
    }

    /// The station at a place, or `None` exactly where its site is not kept. Nothing is looked up.
    pub fn station_at(&self, place: Place) -> Option<&Station>
        requires { IsPlace (in_force self.now) place }
        ensures { option_map (λ s. s.now.station) result ≡ station_of (in_force self.now) place.site }
    {
        station_there(self.stations.as_slice(), place)
    }

    /// The inputs of a day of a site: none where it is not kept.
    pub fn day_inputs(&self, site: Site, day: Day) -> Result<DayInputs, NoMemory>
        ensures inputs { IfOk result (λ inputs. inputs ≡ inputs_of_day (in_force self.now) site day) }
        ensures kept { IfOk result AreInputs }
    {
        match self.station(site) {
            Some(station) => station.day_inputs(self.alloc, day),
            None => Ok(DayInputs::Empty),
        }
    }

    /// Whether these are the inputs of a day of a site. It takes no memory.
    pub fn is_day_inputs(&self, site: Site, day: Day, other: &DayInputs) -> bool
        ensures { result ≡ true ↔ other.now ≡ inputs_of_day (in_force self.now) site day }
    {
        match self.station(site) {
            Some(station) => station.is_day_inputs(day, other),
            None => matches!(other, DayInputs::Empty),
        }
    }

    /// Whether the inputs of a day of the edit's site are equal before the edit and after it: one step, and no memory. For many days
    /// of one edit, the station is looked up once and asked itself.
    pub fn same_day_inputs<L: Ledger>(&self, edit: &Edit, day: Day, steps: &mut Steps<L>) -> bool
        requires { refusal_of self.now.limits (in_force self.now) edit.now ≡ None }
        ensures same { result ≡ keeps_day (in_force self.now) edit.now day }
        ensures step { steps.new ≡ steps.old + 1 }
    {
        let Some(station) = self.station(edit.site) else {
            steps.tick();
            return true;
        };
        station.same_day_inputs(&edit.what, day, steps)
    }

    /// The measurement of a number at a site, or `None` exactly where no such measurement stands. It takes no memory.
    pub fn measurement(&self, site: Site, number: u32) -> Option<&Measurement>
        ensures { option_map (λ m. m.now) result ≡ measurement_at (in_force self.now) site number }
    {
        self.station(site)?.measurement(number)
    }

    /// The shift at an instant and a stage of a site, in millionths of a foot: 0 where it is not kept. It takes no memory.
    pub fn shift(&self, site: Site, at: Second, stage: Micro) -> Micro
        ensures { result ≡ shift_at (in_force self.now) site at stage }
    {
        match self.station(site) {
            Some(station) => station.shift(at, stage),
            None => Micro::of_millionths(0),
        }
    }

    /// The table of the rating that is in force at an instant at a site, or `None` exactly where no period of the site is in force. It
    /// takes no memory.
    pub fn table_at(&self, site: Site, at: Second) -> Option<&Table>
        ensures { option_map (λ t. t.now) result ≡ table_at (in_force self.now) site at }
    {
        self.station(site)?.table_at(at)
    }

    /// The first and the last day of a site that have inputs, or `None` exactly where no day has. It takes no memory.
    pub fn used_span(&self, site: Site) -> Option<(Day, Day)>
        ensures { IsUsedSpan (in_force self.now) site result }
    {
        self.used_span_at(self.place(site))
    }

    /// The same of the site of a place. Nothing is looked up.
    pub fn used_span_at(&self, place: Place) -> Option<(Day, Day)>
        requires { IsPlace (in_force self.now) place }
        ensures { IsUsedSpan (in_force self.now) place.site result }
    {
        match self.station_at(place) {
            Some(station) => station.used_span(),
            None => None,
        }
    }
}

/// The stations that are kept rise by site, and each keeps to its ranges.
pub fn stations_keep_to_their_ranges(inputs: &Inputs)
    ensures { AreStations inputs.now.kept }
{
    let _ = &inputs.stations;
}
