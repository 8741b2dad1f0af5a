//! The days of a station: their windows and inputs, and what keeps them as they are.

ghost use Rattle.std.specs.Prelude.{◌≡◌, ◌↔◌, ◌&&◌, ◌||◌, ◌++◌, not, true, ℕ, ℤ, List, pos, ◌+ℤ◌, ◌≤ℤ◌, filter, is_some, is_none, IfOk, IfSome};
ghost use Rattle.std.specs.Ordering.{int_eq};
ghost use Rattle.civil_days.specs.Starts.{IsDayLength, IsIn};
ghost use Rattle.curves.specs.Bearing.{bears_at};
ghost use Rattle.curves.specs.Entries.{stands_at};
ghost use Rattle.curves.specs.Equality.{has_entry};
ghost use Rattle.fixed_units.specs.Quantities.{IsDay, IsStamp};
ghost use Rattle.readings.specs.Changes.{changed, IsRisingChange};
ghost use Rattle.readings.specs.Readings.{is_used};
ghost use Rattle.readings.specs.Window.{with_neighbours};
ghost use Rattle.day_inputs.specs.DayInputs.{AreInputs, window_ends};
ghost use Rattle.day_inputs.specs.Equality.{same_estimate, same_inputs};
ghost use Rattle.day_inputs.specs.declared.day_inputs.DayInputs.TheVariants as DayInputs;
ghost use Rattle.rising.specs.Lists as lists;
ghost use Rattle.station_inputs.specs.Held.{HasBounds, HasContents, HasSettings};
ghost use Rattle.station_inputs.specs.Series.{IsOfStation};
ghost use Rattle.ratings.specs.Numbered.{with_period, without_period};
ghost use Rattle.station_inputs.specs.Stations.{described, edition_day, estimated_discharge, with_editions, with_ratings, with_readings, with_entry, without_entry, station_day, station_window, day_start};
ghost use Rattle.station_inputs.specs.Touched.{has_inputs, has_used_reading, IsSpanOf, joined_spans};

use crate::series::StationSeries;
use crate::station_editions::Edition;
use crate::stations::Station;
use curves::{Entry, Series, is_found};
use day_inputs::{DayInputs, DayParts, Settings, has_rules, with_window};
use fixed_units::{Day, Micro, NoMemory, Reading, RoundingArray, Second};
use ratings::Period;
use readings::{Change, Window, window_is};
use std::alloc::Global;

impl Station {
    /// The day that a stamp is in.
    pub(crate) fn day_of(&self, at: Second) -> Day
        requires { IsStamp at }
        ensures holds { IsIn self.now.station.zone result at }
        ensures only { (day : ℤ) → IsDay day → IsIn self.now.station.zone day at → day ≡ result }
    {
        self.zone.day_of(at)
    }

    /// The day of the calendar that a stamp is in.
    pub fn day_on(&self, at: Second) -> Day
        requires { IsStamp at }
        ensures holds { IsIn self.now.station.zone result at }
        ensures day { IsDay result }
    {
        let day = self.day_of(at);
        let _number = day.get();
        day
    }

    /// When a day begins and when it ends.
    pub(crate) fn bounds(&self, day: Day) -> (Second, Second)
        ensures start { result.0 ≡ day_start self.now.station day }
        ensures end { result.1 ≡ day_start self.now.station (day +ℤ pos 1) }
        ensures length { IsDayLength result.0 result.1 }
    {
        self.zone.bounds(day)
    }

    /// The inputs of a day.
    pub fn day_inputs(&self, alloc: Global, day: Day) -> Result<DayInputs, NoMemory>
        ensures inputs { IfOk result (λ inputs. inputs ≡ station_day self.now.station day) }
        ensures kept { IfOk result AreInputs }
    {
        let (from, until) = self.bounds(day);
        let settings = Settings {
            gap: self.gap,
            stage_array: self.stage_array,
            discharge_array: self.discharge_array,
        };
        let window = self.readings.to_list(alloc, from, until, self.gap)?;
        with_window(
            alloc,
            settings,
            from,
            until,
            &self.corrections,
            &self.shifts,
            &self.ratings,
            window,
            self.estimated_discharge(day),
            self.least_cover(day),
        )
    }

    /// Whether these are the inputs of a day. It takes no memory, and stops at the first that differs.
    pub fn is_day_inputs(&self, day: Day, other: &DayInputs) -> bool
        ensures { result ≡ true ↔ other.now ≡ station_day self.now.station day }
    {
        match other {
            DayInputs::Empty => !self.is_filled(day),
            DayInputs::Day(parts) => self.has_parts(day, parts),
        }
    }

    /// Whether a day has these inputs: no day has any without a window and an estimate.
    fn has_parts(&self, day: Day, parts: &DayParts) -> bool
        ensures { result ≡ true ↔ DayInputs.Day parts.now ≡ station_day self.now.station day }
    {
        are_some(parts) && self.has_frame(day, parts) && self.has_contents(day, parts)
    }

    /// Whether a day's inputs have the settings of the station and the bounds of the day.
    fn has_frame(&self, day: Day, parts: &DayParts) -> bool
        ensures { result ≡ true ↔ HasSettings self.now.station parts.now × HasBounds self.now.station day parts.now }
    {
        self.has_settings(parts.gap, parts.stage_array, parts.discharge_array)
            && self.has_bounds(day, parts.from, parts.until)
    }

    /// Whether a day's inputs have the estimate and the window of the day, and the entries, the rating periods and the least cover that
    /// count for it.
    fn has_contents(&self, day: Day, parts: &DayParts) -> bool
        ensures { result ≡ true ↔ HasContents self.now.station day parts.now }
    {
        self.estimated_discharge(day) == parts.estimate
            && self.has_window(day, parts.window.as_slice())
            && has_rules(
                &self.corrections,
                &self.shifts,
                &self.ratings,
                self.least_cover(day),
                parts,
            )
    }

    /// Whether a day begins and ends there.
    fn has_bounds(&self, day: Day, from: Second, until: Second) -> bool
        ensures { result ≡ true ↔ (from ≡ day_start self.now.station day) × (until ≡ day_start self.now.station (day +ℤ pos 1)) }
    {
        self.bounds(day) == (from, until)
    }

    /// Whether the window of a day is this list.
    fn has_window(&self, day: Day, list: &[Reading]) -> bool
        ensures { result ≡ true ↔ list.now ≡ station_window self.now.station day }
    {
        let (from, until) = self.bounds(day);
        window_is(&self.readings.window(from, until, self.gap), list)
    }

    /// Whether a change of the readings keeps the inputs of a day.
    pub(crate) fn keeps_day_changed(&self, change: &Change<'_>, day: Day) -> bool
        requires { IsRisingChange change.now }
        ensures { result ≡ same_inputs (station_day self.now.station day) (station_day (with_readings (changed change.now) self.now.station) day) }
    {
        let (from, until) = self.bounds(day);
        !self.readings.alters_window(change, from, until, self.gap)
    }

    /// Whether it keeps the inputs of a day that this is estimated of some day then, or nothing: it is another day, or the same is
    /// estimated of it already.
    pub(crate) fn keeps_day_estimated(&self, own: Day, discharge: Option<Micro>, day: Day) -> bool
        ensures { result ≡ (not (int_eq own day) || same_estimate (estimated_discharge self.now.station day) discharge) }
    {
        own != day || self.estimated_discharge(day) == discharge
    }

    /// Whether describing the station anew keeps the inputs of a day.
    pub(crate) fn keeps_day_described(
        &self,
        gap: u32,
        stage_array: RoundingArray,
        discharge_array: RoundingArray,
        day: Day,
    ) -> bool
        ensures { (name : List ℕ) → result ≡ same_inputs (station_day self.now.station day) (station_day (described name gap stage_array discharge_array self.now.station) day) }
    {
        if self.has_settings(gap, stage_array, discharge_array) {
            return true;
        }
        !self.is_filled(day)
    }

    /// Whether an entry put into a series keeps the inputs of a day: the day has no window, or the entry does not bear on it, or
    /// stands there already.
    pub(crate) fn keeps_day_with_entry(&self, which: StationSeries, entry: &Entry, day: Day) -> bool
        requires { IsOfStation which }
        ensures { result ≡ same_inputs (station_day self.now.station day) (station_day (with_entry which entry.now self.now.station) day) }
    {
        match self.window_span(day) {
            Some(span) => stays_with(self.series(which), entry, span.0, span.1),
            None => true,
        }
    }

    /// Whether taking the entry at an instant out of a series keeps the inputs of a day: the day has no window, or no entry stands
    /// there that bears on it.
    pub(crate) fn keeps_day_without_entry(&self, which: StationSeries, at: Second, day: Day) -> bool
        requires { IsOfStation which }
        ensures { result ≡ same_inputs (station_day self.now.station day) (station_day (without_entry which at self.now.station) day) }
    {
        match self.window_span(day) {
            Some(span) => stays_without(self.series(which), at, span.0, span.1),
            None => true,
        }
    }

    /// Whether a period put in place of the one of its start keeps the inputs of a day: the day has no window, or the part of the
    /// period that meets it stays.
    pub(crate) fn keeps_day_with_period(&self, period: &Period, day: Day) -> bool
        ensures { result ≡ same_inputs (station_day self.now.station day) (station_day (with_ratings (with_period period.now) self.now.station) day) }
    {
        match self.window_span(day) {
            Some(span) => self.ratings.keeps_parts_with(period, span.0, span.1),
            None => true,
        }
    }

    /// Whether taking out the period that begins at an instant keeps the inputs of a day: the day has no window, or no period begins
    /// there that meets it.
    pub(crate) fn keeps_day_without_period(&self, from: Second, day: Day) -> bool
        ensures { result ≡ same_inputs (station_day self.now.station day) (station_day (with_ratings (without_period from) self.now.station) day) }
    {
        match self.window_span(day) {
            Some(span) => self.ratings.keeps_parts_without(from, span.0, span.1),
            None => true,
        }
    }

    /// Whether an edition put in place of the one of its day keeps the inputs of a day: the day has no window, or the least cover in
    /// force on it stays.
    pub(crate) fn keeps_day_with_edition(&self, edition: &Edition, day: Day) -> bool
        ensures { result ≡ same_inputs (station_day self.now.station day) (station_day (with_editions (lists.put edition_day edition.now) self.now.station) day) }
    {
        match self.window_span(day) {
            Some(_) => self.least_cover(day) == self.least_cover_with(edition, day),
            None => true,
        }
    }

    /// The instants of the first and the last reading of a day's window, or `None` exactly where it is empty.
    fn window_span(&self, day: Day) -> Option<(Second, Second)>
        ensures span { result ≡ window_ends (station_window self.now.station day) }
        ensures ordered { IfSome result (λ span. span.0 ≤ℤ span.1) }
    {
        let (from, until) = self.bounds(day);
        span_of(&self.readings.window(from, until, self.gap))
    }

    /// Whether the station has this gap tolerance and these arrays.
    fn has_settings(
        &self,
        gap: u32,
        stage_array: RoundingArray,
        discharge_array: RoundingArray,
    ) -> bool
        ensures { result ≡ true ↔ (self.now.station.gap ≡ gap) × (self.now.station.stage_array ≡ stage_array) × (self.now.station.discharge_array ≡ discharge_array) }
    {
        self.gap == gap
            && self.stage_array == stage_array
            && self.discharge_array == discharge_array
    }

    /// Whether a day has inputs: a reading of it is used, or its discharge is estimated.
    pub(crate) fn is_filled(&self, day: Day) -> bool
        ensures { result ≡ has_inputs (station_day self.now.station day) }
    {
        let (from, until) = self.bounds(day);
        self.readings.has_used(from, until) || self.estimated_discharge(day).is_some()
    }

    /// The first and the last day that have inputs, or `None` exactly where no day has.
    pub fn used_span(&self) -> Option<(Day, Day)>
        ensures { IsSpanOf (λ day. has_inputs (station_day self.now.station day)) result }
    {
        joined(self.read_span(), self.estimated_span())
    }

    /// The first and the last day of which a reading is used.
    fn read_span(&self) -> Option<(Day, Day)>
        ensures { IsSpanOf (λ day. has_used_reading self.now.station day) result }
    {
        match self.readings.used_ends() {
            Some((first, last)) => Some((self.day_on(first.at), self.day_on(last.at))),
            None => None,
        }
    }

    /// The first and the last day of which an estimate stands.
    fn estimated_span(&self) -> Option<(Day, Day)>
        ensures { IsSpanOf (λ day. is_some (estimated_discharge self.now.station day)) result }
    {
        let estimates = self.estimates.as_slice();
        match (estimates.first(), estimates.last()) {
            (Some(first), Some(last)) => Some((first.day, last.day)),
            _ => None,
        }
    }
}

/// The least and the greatest day of two spans.
fn joined(span: Option<(Day, Day)>, other: Option<(Day, Day)>) -> Option<(Day, Day)>
    ensures { result ≡ joined_spans span other }
{
    let (Some(one), Some(two)) = (span, other) else {
        return span.or(other);
    };
    Some((one.0.min(two.0), one.1.max(two.1)))
}

/// Whether a day's inputs have a window or an estimate.
fn are_some(parts: &DayParts) -> bool
    ensures { result ≡ not (is_none (window_ends parts.now.window) && is_none parts.now.estimate) }
{
    !parts.window.as_slice().is_empty() || parts.estimate.is_some()
}

/// The instants of the first and the last reading that a window lends, or `None` exactly where it is empty.
fn span_of(window: &Window<'_>) -> Option<(Second, Second)>
    ensures { result ≡ window_ends (with_neighbours window.now.before (filter is_used (window.now.left.now ++ window.now.right.now)) window.now.after) }
{
    let day = window.day();
    let first = day.first_used()?;
    let last = day.last_used()?;
    Some((
        window.before.unwrap_or(first).at,
        window.after.unwrap_or(last).at,
    ))
}

/// Whether an entry put into a series leaves those that bear on the time between two instants: it does not bear on it, or stands
/// there already.
fn stays_with(series: &Series, entry: &Entry, lo: Second, hi: Second) -> bool
    ensures { result ≡ (not (bears_at lo hi entry.now.at series.now.entries) || has_entry entry.now series.now.entries) }
{
    let around = series.around(entry.at);
    !around.bears(lo, hi) || is_found(entry, around.here)
}

/// Whether taking the entry at an instant out of a series leaves those that bear on the time between two instants: none stands
/// there, or it does not bear on it.
fn stays_without(series: &Series, at: Second, lo: Second, hi: Second) -> bool
    ensures { result ≡ (not (stands_at at series.now.entries) || not (bears_at lo hi at series.now.entries)) }
{
    let around = series.around(at);
    around.here.is_none() || !around.bears(lo, hi)
}
