//! The kept cells of a station.

ghost use Rattle.std.specs.Prelude.{◌≡◌, true, false, ◌&&◌, not, if◌then◌else◌, ◌+◌, ◌<◌, ◌≤◌, [], None, length, filter, find, count_by, slice_get, pos, ℤ, ◌+ℤ◌, ◌≤ℤ◌, ◌<ℤ◌, int_lt, AllPairs, IfSome, OnOk, OnErr};
ghost use Rattle.std.specs.Ordering.{int_eq};
ghost use Rattle.fixed_units.specs.Quantities.{first_day, last_day};
ghost use Rattle.fixed_units.specs.Calendar.{days_of_calendar};
ghost use Rattle.day_cells.specs.Days.{contains_day};
ghost use Rattle.day_cells.specs.Sites.{station_rank};
ghost use Rattle.day_cells.specs.Spans as spans;
ghost use Rattle.day_cells.specs.Spans.{IsSpan, with_days};
ghost use Rattle.day_cells.specs.KeptDays.{HasCell, HasRoom, SaysTheSame, Marks, TakesOut, Publishes, awaited_on, is_pending_on, value_on, waiting_of};

use crate::columns::{
    count_to, distance, first_pending, first_unclaimed, mark_at, place_of, room_behind, waiting_at,
    wide_start, widened,
};
use crate::sites::rank;
use crate::spans::{Span, with_day};
use crate::values::Values;
use crate::waiting::Waiting;
use daily_values::DayValue;
use fixed_units::{Day, NoMemory, Site};
use rising::Keyed;
use std::alloc::Global;
use std::marker::Model;

/// The cells of a station. Contracts see the columns and the span of the days that were ever changed.
#[derive(Drop)]
pub struct DayCells {
    site: Site,
    /// The day that the columns begin with.
    start: Day,
    /// The awaited edits, 0 where a day awaits none.
    awaits: Vec<u64>,
    /// Whether the claim of a day is out.
    claims: Vec<bool>,
    /// The values that were published last.
    values: Values,
    span: Option<Span>,
    /// How many days are pending.
    pending: usize,
    /// No day before this place is pending.
    first: usize,
    /// No pending day before this place has its claim not out.
    first_unclaimed: usize,
}

impl Model for DayCells {
    ghost use Rattle.day_cells.specs.KeptDays.{KeptDays, KeepsPlaces};

    ghost Value = { KeptDays };

    ghost view = { λ c. record { site = c.site; start = c.start; awaits = c.awaits.items; claims = c.claims.items; values = c.values; span = c.span } };

    ghost invariant = { λ c. KeepsPlaces (record { site = c.site; start = c.start; awaits = c.awaits.items; claims = c.claims.items; values = c.values; span = c.span }) c.pending c.first c.first_unclaimed };
}

impl DayCells {
    /// No cells yet, and room to be made from a day on. It takes no memory.
    pub fn new(alloc: Global, site: Site, day: Day) -> DayCells
        ensures { result ≡ record { site = site; start = day; awaits = []; claims = []; values = []; span = None } }
    {
        DayCells {
            site,
            start: day,
            awaits: Vec::new(alloc),
            claims: Vec::new(alloc),
            values: Values::new(alloc),
            span: None,
            pending: 0,
            first: 0,
            first_unclaimed: 0,
        }
    }

    /// The station.
    pub fn site(&self) -> Site
        ensures { result ≡ self.now.site }
    {
        self.site
    }

    /// The days from the first to the last that was ever changed.
    pub fn span(&self) -> Option<Span>
        ensures span { result ≡ self.now.span }
        ensures ordered { IfSome result IsSpan }
    {
        self.span
    }

    /// How many days are pending.
    pub fn pending(&self) -> usize
        ensures count { result ≡ length (waiting_of self.now) }
        ensures most { result ≤ days_of_calendar }
    {
        self.pending
    }

    /// The edit that a day awaits, if it awaits one.
    pub fn awaited(&self, day: Day) -> Option<u64>
        ensures { result ≡ awaited_on self.now day }
    {
        let place = place_of(self.start, &self.awaits, day)?;
        let edit = self.awaits[place];
        if edit == 0 { None } else { Some(edit) }
    }

    /// The value of a day that was published last, and else the empty one that is given.
    pub fn value<'a>(&'a self, day: Day, empty: &'a DayValue) -> &'a DayValue
        requires { empty.now ≡ DayValue.Empty }
        ensures { result.now ≡ value_on self.now day }
    {
        match place_of(self.start, &self.awaits, day) {
            Some(place) => self.values.get(place, empty),
            None => empty,
        }
    }

    /// The first pending day.
    pub fn first(&self) -> Option<Waiting>
        ensures { result ≡ slice_get (waiting_of self.now) 0 }
    {
        let place = first_pending(&self.awaits, self.first);
        waiting_at(self.site, self.start, &self.awaits, &self.claims, place)
    }

    /// The first pending day after a day.
    pub fn first_after(&self, day: Day) -> Option<Waiting>
        ensures { result ≡ find (λ w. int_lt day w.day) (waiting_of self.now) }
    {
        let behind = count_to(self.start, &self.awaits, day);
        let place = first_pending(&self.awaits, self.first.max(behind));
        waiting_at(self.site, self.start, &self.awaits, &self.claims, place)
    }

    /// The first pending day whose claim is not out.
    pub fn first_unclaimed(&self) -> Option<Waiting>
        ensures { result ≡ find (λ w. not w.out) (waiting_of self.now) }
    {
        let place = first_unclaimed(&self.awaits, &self.claims, self.first_unclaimed);
        waiting_at(self.site, self.start, &self.awaits, &self.claims, place)
    }

    /// Makes room for a mark of these days. After `NoMemory` all is as before.
    pub fn prepare(&mut self, alloc: Global, changed: &[Day]) -> Result<(), NoMemory>
        ensures same { SaysTheSame self.old self.new }
        ensures waiting { waiting_of self.new ≡ waiting_of self.old }
        ensures room { OnOk result (HasRoom self.new changed.now) }
        ensures kept { (day : ℤ) → HasCell self.old day → HasCell self.new day }
        ensures err { OnErr result (self.new ≡ self.old) }
    {
        let start = wide_start(self.start, &self.awaits, changed);
        let front = distance(start, self.start);
        let back = room_behind(self.start, &self.awaits, changed);
        if front + back == 0 {
            return Ok(());
        }
        let awaits = widened(alloc, &self.awaits, 0, front, back)?;
        let claims = widened(alloc, &self.claims, false, front, back)?;
        self.values.widen(alloc, front, back)?;
        self.start = start;
        self.awaits = awaits;
        self.claims = claims;
        self.first += front;
        self.first_unclaimed += front;
        Ok(())
    }

    /// Makes each of these days await an edit, so that its claim is no longer out. There is room for them.
    pub fn mark(&mut self, changed: &[Day], edit: u64)
        requires rising { AllPairs (λ a b. a <ℤ b) changed.now }
        requires room { HasRoom self.old changed.now }
        requires edit { 1 ≤ edit }
        ensures marks { Marks self.old self.new (contains_day changed.now) edit }
        ensures span { self.new.span ≡ with_days self.old.span changed.now }
        ensures count { length (waiting_of self.new) ≡ length (waiting_of self.old) + count_by (λ d. not (is_pending_on self.old d)) changed.now }
    {
        for day in changed {
            self.mark_day(*day, edit);
        }
    }

    /// Takes the claim of a pending day out.
    pub fn take_out(&mut self, day: Day)
        requires { is_pending_on self.old day ≡ true }
        ensures takes_out { TakesOut self.old self.new (λ other. int_eq day other) true }
        ensures count { length (waiting_of self.new) ≡ length (waiting_of self.old) }
    {
        if let Some(place) = place_of(self.start, &self.awaits, day) {
            self.claims[place] = true;
            self.first_unclaimed = first_unclaimed(
                &self.awaits,
                &self.claims,
                self.first_unclaimed,
            );
        }
    }

    /// Publishes the value of a pending day.
    pub fn publish(&mut self, day: Day, value: DayValue)
        requires { is_pending_on self.old day ≡ true }
        ensures publishes { Publishes self.old self.new (λ other. int_eq day other) value }
        ensures count { length (waiting_of self.new) + 1 ≡ length (waiting_of self.old) }
    {
        if let Some(place) = place_of(self.start, &self.awaits, day) {
            self.awaits[place] = 0;
            self.claims[place] = false;
            self.values.set(place, value);
            self.pending -= 1;
            self.first = first_pending(&self.awaits, self.first);
            self.first_unclaimed = first_unclaimed(
                &self.awaits,
                &self.claims,
                self.first_unclaimed,
            );
        }
    }

    /// Makes a day await an edit. There is room for it.
    fn mark_day(&mut self, day: Day, edit: u64)
        requires room { HasCell self.old day }
        requires edit { 1 ≤ edit }
        ensures marks { Marks self.old self.new (λ other. int_eq day other) edit }
        ensures span { self.new.span ≡ spans.with_day self.old.span day }
        ensures start { self.new.start ≡ self.old.start }
        ensures room { length self.new.awaits ≡ length self.old.awaits }
        ensures count { length (waiting_of self.new) ≡ length (waiting_of self.old) + (if is_pending_on self.old day then 0 else 1) }
    {
        if let Some(place) = place_of(self.start, &self.awaits, day) {
            self.pending += mark_at(&mut self.awaits, &mut self.claims, place, edit);
            self.first = self.first.min(place);
            self.first_unclaimed = self.first_unclaimed.min(place);
            self.span = with_day(self.span, day);
        }
    }
}

impl Keyed for DayCells {
    type Key = u64;

    ghost place = { station_rank };

    ghost number = { λ n. pos n };

    fn key(&self) -> u64 {
        rank(self.site)
    }

    fn is_before(&self, key: u64) -> bool {
        rank(self.site) < key
    }

    fn is_at(&self, key: u64) -> bool {
        rank(self.site) == key
    }
}
