//! The counts of one station that have limits, and what stands in the way of an edit.

ghost use Rattle.std.specs.Prelude.{◌≡◌, ◌&&◌, not, nat_le, ℤ, ◌+ℤ◌, pos, List, is_some, Some, None, if◌then◌else◌};
ghost use Rattle.curves.specs.Entries.{entry_of};
ghost use Rattle.curves.specs.declared.entries.Entry.{Entry};
ghost use Rattle.edits.specs.Lawful.{ArePutReadings, IsLawful};
ghost use Rattle.edits.specs.declared.measurements.Measurement.{Measurement};
ghost use Rattle.rating_tables.specs.Table.{Row};
ghost use Rattle.ratings.specs.Numbered.{period_from, rating_of, with_period, with_rating};
ghost use Rattle.ratings.specs.Periods.{overlap};
ghost use Rattle.readings.specs.Readings.{IsRising, put_all};
ghost use Rattle.readings.specs.Window.{of_day};
ghost use Rattle.rising.specs.Lists as lists;
ghost use Rattle.station_inputs.specs.Counts.{day_count, passed_count, passes, passes_a_day};
ghost use Rattle.station_inputs.specs.Obstacles.{obstacle, period_obstacle, rating_obstacle, unless_there};
ghost use Rattle.station_inputs.specs.Series.{IsOfStation};
ghost use Rattle.station_inputs.specs.Stations.{day_start, edition_day, measurement_of, number_of, station_after, with_editions, with_entry, with_measurements, with_ratings, with_readings};

use crate::obstacles::Obstacle;
use crate::series::StationSeries;
use crate::station_editions::Edition;
use crate::stations::Station;
use edits::{Measurement, What};
use fixed_units::{Day, Reading, Second};
use ratings::Period;
use rising::count_before;

/// How many ratings a station has at most.
pub const MOST_RATINGS: usize = 200;

/// How many entries a correction set, or the shifts, of a station has at most.
pub const MOST_ENTRIES: usize = 10_000;

/// How many periods a station has at most.
pub const MOST_PERIODS: usize = 1_000;

/// How many measurements a station has at most.
pub const MOST_MEASUREMENTS: usize = 10_000;

/// How many editions a station has at most.
pub const MOST_EDITIONS: usize = 100;

/// Which count of one station has a limit, in the order in which they are asked.
#[derive(Clone, Copy, Debug, PartialEq, Eq)]
pub enum Counted {
    /// The ratings.
    Ratings,
    /// The entries of a correction set, or of the shifts.
    Entries,
    /// The periods.
    Periods,
    /// The measurements.
    Measurements,
    /// The editions.
    Editions,
}

impl Station {
    /// The first count of the station alone that an edit of it would raise past its limit: a put in place of what stands there raises
    /// none. It takes no memory.
    pub fn passed_count(&self, what: &What) -> Option<Counted>
        requires { IsLawful what.now }
        ensures { result ≡ passed_count self.now.station (station_after what.now self.now.station) }
    {
        let _site = self.site();
        match what {
            What::AddRating { rating, .. } => self.rating_limit(*rating),
            What::PutCorrection { set, at, .. } => {
                self.entry_limit(StationSeries::Correction(*set), *at)
            }
            What::PutShift { at, .. } => self.entry_limit(StationSeries::Shift, *at),
            What::PutPeriod { period } => self.period_limit(period),
            What::PutMeasurement { measurement } => self.measurement_limit(measurement),
            What::SetEdition { day, least } => {
                let (day, least) = (*day, *least);
                self.edition_limit(&Edition { day, least })
            }
            What::AddStation { .. }
            | What::SetStation { .. }
            | What::PutReadings { .. }
            | What::DropReadings { .. }
            | What::FlagReadings { .. }
            | What::DropCorrection { .. }
            | What::DropShift { .. }
            | What::DropPeriod { .. }
            | What::PutEstimate { .. }
            | What::DropEstimate { .. }
            | What::DropMeasurement { .. }
            | What::Review { .. }
            | What::Decide { .. } => None,
        }
    }

    /// What of the station stands in the way of an edit of it, or `None` exactly where nothing does: that nothing stands where a drop
    /// would take something out or a flagging would flag it, that a rating of the number is there, that the rating of a period is not,
    /// or the first period of another start that shares an instant with it. It takes no memory.
    pub fn obstacle(&self, what: &What) -> Option<Obstacle>
        requires { IsLawful what.now }
        ensures { result ≡ obstacle self.now.station what.now }
    {
        match what {
            What::DropReadings { from, to } | What::FlagReadings { from, to, .. } => {
                unless_there(self.readings.count(*from, *to) > 0)
            }
            What::DropCorrection { set, at } => {
                unless_there(self.has_entry_at(StationSeries::Correction(*set), *at))
            }
            What::DropShift { at } => unless_there(self.has_entry_at(StationSeries::Shift, *at)),
            What::AddRating { rating, .. } => self.rating_obstacle(*rating),
            What::PutPeriod { period } => self.period_obstacle(period),
            What::DropPeriod { from } => unless_there(self.has_period_from(*from)),
            What::DropEstimate { day } => unless_there(self.estimated_discharge(*day).is_some()),
            What::DropMeasurement { number } => unless_there(self.has_measurement(*number)),
            What::AddStation { .. }
            | What::SetStation { .. }
            | What::PutReadings { .. }
            | What::PutCorrection { .. }
            | What::PutShift { .. }
            | What::PutEstimate { .. }
            | What::PutMeasurement { .. }
            | What::Review { .. }
            | What::Decide { .. }
            | What::SetEdition { .. } => None,
        }
    }

    /// Whether putting readings raises the readings of some local day past a limit: those that take another's place count once, and
    /// erroneous ones count. Of the days only those of the readings are looked at. It takes no memory.
    pub fn passes_a_day(&self, readings: &[Reading], limit: u32) -> bool
        requires { ArePutReadings readings.now }
        ensures { result ≡ passes_a_day limit self.now.station (with_readings (put_all readings.now) self.now.station) }
    {
        let _site = self.site();
        let mut rest = readings;
        while let Some(first) = rest.first() {
            let day = self.day_on(first.at);
            let (_, until) = self.bounds(day);
            let (part, later) = rest.split_at(count_before(rest, until));
            if self.passes_on(day, part, limit) {
                return true;
            }
            rest = later;
        }
        false
    }

    /// Whether putting readings of a day raises the readings of that day past a limit.
    fn passes_on(&self, day: Day, readings: &[Reading], limit: u32) -> bool
        requires rising { IsRising readings.now }
        requires within { of_day (day_start self.now.station day) (day_start self.now.station (day +ℤ pos 1)) readings.now ≡ readings.now }
        ensures { result ≡ passes limit (day_count self.now.station day) (day_count (with_readings (put_all readings.now) self.now.station) day) }
    {
        let (from, until) = self.bounds(day);
        let kept = self.readings.between(from, until);
        let free = (limit as usize).saturating_sub(kept.left.len() + kept.right.len());
        readings.len() > free && self.readings.count_new(readings) > free
    }
}

impl Station {
    /// Whether a rating of a number would raise their count past the limit: it raises nothing where one has the number.
    fn rating_limit(&self, rating: u32) -> Option<Counted>
        ensures { (table : List Row) → result ≡ passed_count self.now.station (with_ratings (with_rating (record { number = rating; rows = table })) self.now.station) }
    {
        let _site = self.site();
        let count = self.ratings.tables().len();
        let there = self.has_rating(rating);
        limited(Counted::Ratings, count, MOST_RATINGS, there)
    }

    /// Whether an entry put at an instant would raise its series past the limit: it raises nothing where one stands there.
    fn entry_limit(&self, which: StationSeries, at: Second) -> Option<Counted>
        requires { IsOfStation which }
        ensures { (entry : Entry) → entry.at ≡ at → result ≡ passed_count self.now.station (with_entry which entry self.now.station) }
    {
        let _site = self.site();
        let count = self.entries(which).len();
        let there = self.has_entry_at(which, at);
        limited(Counted::Entries, count, MOST_ENTRIES, there)
    }

    /// Whether a period would raise their count past the limit: it raises nothing where one begins at its start.
    fn period_limit(&self, period: &Period) -> Option<Counted>
        ensures { result ≡ passed_count self.now.station (with_ratings (with_period period.now) self.now.station) }
    {
        let _site = self.site();
        let count = self.ratings.periods().len();
        let there = self.has_period_from(period.from);
        limited(Counted::Periods, count, MOST_PERIODS, there)
    }

    /// Whether a measurement would raise their count past the limit: it raises nothing where one has its number.
    fn measurement_limit(&self, measurement: &Measurement) -> Option<Counted>
        ensures { result ≡ passed_count self.now.station (with_measurements (lists.put number_of measurement.now) self.now.station) }
    {
        let _site = self.site();
        let count = self.measurements.as_slice().len();
        let there = self.has_measurement(measurement.number);
        limited(Counted::Measurements, count, MOST_MEASUREMENTS, there)
    }

    /// Whether an edition would raise their count past the limit: it raises nothing where one is of its day.
    fn edition_limit(&self, edition: &Edition) -> Option<Counted>
        ensures { result ≡ passed_count self.now.station (with_editions (lists.put edition_day edition.now) self.now.station) }
    {
        let _site = self.site();
        let count = self.editions.as_slice().len();
        let there = self.has_edition(edition.day);
        limited(Counted::Editions, count, MOST_EDITIONS, there)
    }

    /// What stands in the way of a rating of a number: that one has it.
    fn rating_obstacle(&self, rating: u32) -> Option<Obstacle>
        ensures { result ≡ rating_obstacle (is_some (rating_of rating self.now.station.ratings.tables)) }
    {
        if self.has_rating(rating) {
            return Some(Obstacle::RatingExists);
        }
        None
    }

    /// What stands in the way of a period: that its rating is not there, or else the first period of another start that shares an
    /// instant with it.
    fn period_obstacle(&self, period: &Period) -> Option<Obstacle>
        ensures { result ≡ period_obstacle (is_some (rating_of period.now.rating self.now.station.ratings.tables)) (overlap period.now self.now.station.ratings.periods) }
    {
        if !self.has_rating(period.rating) {
            return Some(Obstacle::NoRating);
        }
        Some(Obstacle::PeriodOverlap(self.ratings.overlap(period)?))
    }

    /// Whether a rating of a number is there.
    fn has_rating(&self, rating: u32) -> bool
        ensures { result ≡ is_some (rating_of rating self.now.station.ratings.tables) }
    {
        self.ratings.rating(rating).is_some()
    }

    /// Whether a period begins at an instant.
    fn has_period_from(&self, from: Second) -> bool
        ensures { result ≡ is_some (period_from from self.now.station.ratings.periods) }
    {
        self.ratings.period_from(from).is_some()
    }

    /// Whether an edition of a day is there.
    fn has_edition(&self, day: Day) -> bool
        ensures { result ≡ is_some (lists.at edition_day day self.now.station.editions) }
    {
        self.editions.get(day).is_some()
    }

    /// Whether a measurement of a number is there.
    fn has_measurement(&self, number: u32) -> bool
        ensures { result ≡ is_some (measurement_of number self.now.station) }
    {
        self.measurement(number).is_some()
    }
}

/// The limit that one more would pass, where nothing stands in the place that it is put.
fn limited(which: Counted, count: usize, limit: usize, there: bool) -> Option<Counted>
    ensures { result ≡ (if not there && nat_le limit count then Some which else None) }
{
    if !there && count >= limit {
        Some(which)
    } else {
        None
    }
}

/// What stands in the way of a drop or a flagging: that nothing is there.
fn unless_there(there: bool) -> Option<Obstacle>
    ensures { result ≡ unless_there there }
{
    if there { None } else { Some(Obstacle::NoEntry) }
}
