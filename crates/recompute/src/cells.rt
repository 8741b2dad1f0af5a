//! The kept cells of all stations.

ghost use Rattle.std.specs.Prelude.{◌≡◌, true, false, not, ◌+◌, ◌<◌, ◌≤◌, [], None, Some, length, find, slice_get, ℤ, ◌<ℤ◌, All, AllPairs, count_by, is_none, IfSome, IsSome, OnOk};
ghost use Rattle.std.specs.List.{list_any};
ghost use Rattle.fixed_units.specs.Quantities.{SiteNumber, IsDay};
ghost use Rattle.rising.specs.Lists.{IsRising};
ghost use Rattle.day_cells.specs.KeptDays.{waiting_of};
ghost use Rattle.day_cells.specs.Sites.{station_rank};
ghost use Rattle.day_cells.specs.Spans.{IsSpan, days_of};
ghost use Rattle.recompute.specs.Cells.{HasRoom, SaysTheSame, Marks, TakesOut, Publishes, IsTold, awaited_in, is_day_of, value_in, span_in, waiting, is_behind, cell_count, cell_count_after, most_stations};

use crate::stations::{
    cells_at, count_after, first_in, first_pending, first_unclaimed, first_unclaimed_in,
    new_station, pending_at, place_of,
};
use daily_values::DayValue;
use day_cells::{DayCells, Span, Waiting};
use fixed_units::{Day, NoMemory, Site};
use std::alloc::Global;
use std::marker::Model;

/// The greatest number of stations that have cells.
const MOST_STATIONS: usize = 4_294_967_296;

/// The cells of all stations. Contracts see the stations in the order of their sites, each with its columns.
#[derive(Drop)]
pub struct Cells {
    alloc: Global,
    stations: Vec<DayCells>,
    /// How many days are pending.
    pending: u64,
    /// How many cells there are.
    cells: u64,
    /// No station before this place has a pending day.
    first: usize,
    /// No station before this place has a pending day whose claim is not out.
    unclaimed: usize,
    /// The value of a day that no edit changed.
    empty: DayValue,
}

impl Model for Cells {
    ghost use Rattle.std.specs.Prelude.{List};
    ghost use Rattle.day_cells.specs.KeptDays.{KeptDays};

    ghost Value = { List KeptDays };

    ghost use Rattle.recompute.specs.Cells.{KeepsCounts};

    ghost view = { λ c. c.stations.items };

    ghost invariant = { λ c. KeepsCounts c.stations.items c.pending c.cells c.first c.unclaimed c.empty };
}

impl Cells {
    /// No cells. It takes no memory.
    pub fn new(alloc: Global) -> Cells
        ensures { result ≡ [] }
    {
        Cells {
            alloc,
            stations: Vec::new(alloc),
            pending: 0,
            cells: 0,
            first: 0,
            unclaimed: 0,
            empty: DayValue::Empty,
        }
    }

    /// The edit that a day awaits, if it awaits one.
    pub fn awaited(&self, site: Site, day: Day) -> Option<u64>
        ensures { result ≡ awaited_in self.now site day }
    {
        match place_of(&self.stations, site) {
            Ok(place) => self.stations[place].awaited(day),
            Err(_) => None,
        }
    }

    /// The value of a day that was published last. A day that no edit changed is empty.
    pub fn value(&self, site: Site, day: Day) -> &DayValue
        ensures { result.now ≡ value_in self.now site day }
    {
        match place_of(&self.stations, site) {
            Ok(place) => self.stations[place].value(day, &self.empty),
            Err(_) => &self.empty,
        }
    }

    /// How many days are pending.
    pub fn pending(&self) -> u64
        ensures { result ≡ length (waiting self.now) }
    {
        self.pending
    }

    /// How many cells there are: of each station the days from the first to the last that was ever changed.
    pub fn cells(&self) -> u64
        ensures { result ≡ cell_count self.now }
    {
        self.cells
    }

    /// How many cells there would be after a mark of these days.
    pub fn cells_after(&self, site: Site, changed: &[Day]) -> u64
        ensures { result ≡ cell_count_after self.now site changed.now }
    {
        self.cells + count_after(self.span_of(site), changed) - self.count_of(site)
    }

    /// How many cells a station has.
    fn count_of(&self, site: Site) -> u64
        ensures value { result ≡ days_of (span_in self.now site) }
        ensures part { result ≤ cell_count self.now }
    {
        match place_of(&self.stations, site) {
            Ok(place) => cells_at(&self.stations, place),
            Err(_) => 0,
        }
    }

    /// The days of a station from the first to the last that was ever changed.
    fn span_of(&self, site: Site) -> Option<Span>
        ensures value { result ≡ span_in self.now site }
        ensures span { IfSome result IsSpan }
    {
        match place_of(&self.stations, site) {
            Ok(place) => self.stations[place].span(),
            Err(_) => None,
        }
    }

    /// The first pending day by site, then day, whose claim is not out.
    pub(crate) fn first_unclaimed(&self) -> Option<Waiting>
        ensures first { result ≡ find (λ w. not w.out) (waiting self.now) }
        ensures awaits { IfSome result (λ w. awaited_in self.now w.site w.day ≡ Some w.awaits) }
    {
        let (_, late) = self.stations.split_at(self.unclaimed);
        first_unclaimed_in(late)
    }

    /// The first pending day by site, then day, whether its claim is out or not.
    pub(crate) fn first(&self) -> Option<Waiting>
        ensures first { result ≡ slice_get (waiting self.now) 0 }
        ensures awaits { IfSome result (λ w. awaited_in self.now w.site w.day ≡ Some w.awaits) }
    {
        let (_, late) = self.stations.split_at(self.first);
        first_in(late)
    }

    /// The first pending day by site, then day, that comes after a day, which need not be kept.
    pub(crate) fn first_after(&self, site: Site, day: Day) -> Option<Waiting>
        ensures first { result ≡ find (is_behind site day) (waiting self.now) }
        ensures awaits { IfSome result (λ w. awaited_in self.now w.site w.day ≡ Some w.awaits) }
    {
        match place_of(&self.stations, site) {
            Ok(place) => match self.stations[place].first_after(day) {
                Some(waiting) => Some(waiting),
                None => first_in(&self.stations[place + 1..]),
            },
            Err(place) => first_in(&self.stations[place..]),
        }
    }

    /// Makes room for a mark of these days. After `NoMemory` the cells say the same as before.
    pub fn prepare(&mut self, site: Site, changed: &[Day]) -> Result<(), NoMemory>
        ensures same { SaysTheSame self.old self.new }
        ensures room { OnOk result (HasRoom self.new site changed.now) }
    {
        let Some(day) = changed.first() else {
            return Ok(());
        };
        match place_of(&self.stations, site) {
            Ok(place) => self.stations[place].prepare(self.alloc, changed),
            Err(place) => {
                if self.stations.len() >= MOST_STATIONS {
                    return Err(NoMemory);
                }
                let station = new_station(self.alloc, site, *day, changed)?;
                self.stations.insert(place, station)?;
                self.first = self.first.min(place);
                self.unclaimed = self.unclaimed.min(place);
                Ok(())
            }
        }
    }

    /// Makes each of these days await an edit, so that its claim is no longer out. There is room for them, so no memory
    /// is taken.
    pub fn mark(&mut self, site: Site, changed: &[Day], edit: u64)
        requires rising { AllPairs (λ a b. a <ℤ b) changed.now }
        requires room { HasRoom self.old site changed.now }
        requires edit { 1 ≤ edit }
        ensures marks { Marks self.old self.new site changed.now edit }
        ensures pending { length (waiting self.new) ≡ length (waiting self.old) + count_by (λ d. is_none (awaited_in self.old site d)) changed.now }
    {
        if let Ok(place) = place_of(&self.stations, site) {
            let pending = pending_at(&self.stations, place);
            let cells = cells_at(&self.stations, place);
            self.stations[place].mark(changed, edit);
            self.pending = self.pending - pending + pending_at(&self.stations, place);
            self.cells = self.cells - cells + cells_at(&self.stations, place);
            self.first = self.first.min(place);
            self.unclaimed = self.unclaimed.min(place);
        }
    }

    /// Takes the claim of a pending day out.
    pub(crate) fn take_out(&mut self, site: Site, day: Day)
        requires { IsSome (awaited_in self.old site day) }
        ensures { TakesOut self.old self.new site day }
    {
        if let Ok(place) = place_of(&self.stations, site) {
            self.stations[place].take_out(day);
            self.first = self.first.min(place);
            self.unclaimed = first_unclaimed(&self.stations, self.unclaimed.min(place));
        }
    }

    /// Publishes the value of a pending day: it awaits nothing, and its claim is no longer out. No memory is taken.
    pub(crate) fn put_value(&mut self, site: Site, day: Day, value: DayValue)
        requires { IsSome (awaited_in self.old site day) }
        ensures { Publishes self.old self.new site day value }
    {
        if let Ok(place) = place_of(&self.stations, site) {
            self.stations[place].publish(day, value);
            self.pending -= 1;
            self.first = first_pending(&self.stations, self.first.min(place));
            self.unclaimed = first_unclaimed(&self.stations, self.unclaimed.min(place));
        }
    }
}

/// The stations rise by site, and the pending days are just those days of the calendar that await an edit, each as it is told.
pub fn pending_days_stand_by_site(cells: &Cells)
    ensures rising { IsRising station_rank cells.now }
    ensures each { All (IsTold cells.now) (waiting cells.now) }
    ensures all { (site : SiteNumber) (day : ℤ) → IsDay day → IsSome (awaited_in cells.now site day) → list_any (λ w. is_day_of site day w.site w.day) (waiting cells.now) ≡ true }
{
    let _ = &cells.stations;
}
