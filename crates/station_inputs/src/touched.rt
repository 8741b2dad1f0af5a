//! What an edit touches of a station's days.

ghost use Rattle.std.specs.Prelude.{◌≡◌, option_map, pos, ◌-ℤ◌};
ghost use Rattle.civil_days.specs.Starts.{day_start_of};
ghost use Rattle.edits.specs.Lawful.{IsLawful};
ghost use Rattle.station_inputs.specs.Stations.{edition_after};
ghost use Rattle.station_inputs.specs.Touched.{about_dropped_period, about_edition, about_entry, about_period, between_readings, edition_end, later_end, period_end, says_from, says_until, touched_at};
ghost use Rattle.rising.specs.Ends.{first, last};

use crate::series::StationSeries;
use crate::stations::Station;
use civil_days::StationZone;
use curves::{Entry, Series};
use edits::What;
use fixed_units::{Day, LAST_STAMP, Reading, Second};
use ratings::Period;

/// What an edit touches.
#[derive(Clone, Copy, Debug, PartialEq, Eq)]
pub enum Touched {
    /// No day.
    Nothing,
    /// One day alone.
    One(Day),
    /// The time between two instants.
    Between {
        /// The first instant.
        first: Second,
        /// The last instant.
        last: Second,
        /// Whether only days among those that have inputs can change.
        cells_only: bool,
    },
    /// Every day that has inputs.
    Cells,
}

impl Station {
    /// What an edit touches of the station as it is before. It takes no memory. Nothing is looked up but where an entry or a period
    /// stands.
    pub fn touched(&self, what: &What) -> Touched
        requires { IsLawful what.now }
        ensures { result ≡ touched_at self.now.station what.now }
    {
        match what {
            What::SetStation { .. } => Touched::Cells,
            What::PutReadings { readings } => between_readings(readings.as_slice()),
            What::DropReadings { from, to } | What::FlagReadings { from, to, .. } => {
                between_ends(self.readings.span_ends(*from, *to))
            }
            What::PutCorrection { set, at, .. } | What::DropCorrection { set, at } => {
                about_entry(self.series(StationSeries::Correction(*set)), *at)
            }
            What::PutShift { at, .. } | What::DropShift { at } => {
                about_entry(self.series(StationSeries::Shift), *at)
            }
            What::PutPeriod { period } => {
                about_period(
                    period.from,
                    later_end(period, self.ratings.period_from(period.from)),
                )
            }
            What::DropPeriod { from } => about_dropped_period(self.ratings.period_from(*from)),
            What::PutEstimate { estimate } => Touched::One(estimate.day),
            What::DropEstimate { day } => Touched::One(*day),
            What::SetEdition { day, .. } => self.about_edition(*day),
            What::AddStation { .. }
            | What::AddRating { .. }
            | What::PutMeasurement { .. }
            | What::DropMeasurement { .. }
            | What::Review { .. }
            | What::Decide { .. } => Touched::Nothing,
        }
    }
}

impl Station {
    /// The time in which an edition of a day is in force: only days that have inputs can change.
    fn about_edition(&self, day: Day) -> Touched
        ensures { result ≡ about_edition self.now.station day }
    {
        Touched::Between {
            first: self.zone.day_start(day),
            last: self.edition_end(day),
            cells_only: true,
        }
    }

    /// The last second before the day of the next edition, or the last stamp where there is none.
    fn edition_end(&self, day: Day) -> Second
        ensures { result ≡ edition_end self.now.station (edition_after day self.now.station.editions) }
    {
        match self.edition_after(day) {
            Some(next) => second_before(&self.zone, next.day),
            None => Second::of_seconds(LAST_STAMP),
        }
    }
}

/// The last second before a day.
fn second_before(zone: &StationZone, day: Day) -> Second
    ensures { result ≡ day_start_of zone.now day -ℤ pos 1 }
{
    let _number = day.get();
    Second::of_seconds(zone.day_start(day).get() - 1)
}

/// The time between the first and the last of some readings.
fn between_readings(readings: &[Reading]) -> Touched
    ensures { result ≡ between_readings (first readings.now) (last readings.now) }
{
    match (readings.first().copied(), readings.last().copied()) {
        (Some(first), Some(last)) => between_ends(Some((first, last))),
        _ => Touched::Nothing,
    }
}

/// The time between two readings, if there are any.
fn between_ends(ends: Option<(Reading, Reading)>) -> Touched
    ensures { result ≡ between_readings (option_map (λ ends. ends.0) ends) (option_map (λ ends. ends.1) ends) }
{
    match ends {
        Some((first, last)) => Touched::Between {
            first: first.at,
            last: last.at,
            cells_only: false,
        },
        None => Touched::Nothing,
    }
}

/// The time in which the entry at an instant of a series has a say.
fn about_entry(series: &Series, at: Second) -> Touched
    ensures { result ≡ about_entry at series.now.entries }
{
    let around = series.around(at);
    Touched::Between {
        first: says_from(at, around.before),
        last: says_until(around.after),
        cells_only: true,
    }
}

/// From when on the entry at an instant has a say, where this one stands before it.
fn says_from(at: Second, before: Option<&Entry>) -> Second
    ensures { result ≡ says_from at (option_map (λ b. b.now) before.entry) }
{
    match before {
        Some(before) if before.prorate => before.at,
        _ => at,
    }
}

/// Until when an entry has a say, where this one stands after it.
fn says_until(next: Option<&Entry>) -> Second
    ensures { result ≡ says_until (option_map (λ n. n.now) next.entry) }
{
    match next {
        Some(next) => next.at,
        None => Second::of_seconds(LAST_STAMP),
    }
}

/// The time of the period that is taken out, if there is one.
fn about_dropped_period(kept: Option<Period>) -> Touched
    ensures { result ≡ about_dropped_period kept }
{
    match kept {
        Some(kept) => about_period(kept.from, period_end(&kept)),
        None => Touched::Nothing,
    }
}

/// The time from a period's start until an end: only days that have inputs can change.
fn about_period(from: Second, until: Second) -> Touched
    ensures { result ≡ about_period from until }
{
    Touched::Between {
        first: from,
        last: until,
        cells_only: true,
    }
}

/// The later of a period's end and that of the one in whose place it is put, if there is one.
fn later_end(period: &Period, kept: Option<Period>) -> Second
    ensures { result ≡ later_end period.now kept }
{
    let end = period_end(period);
    match kept {
        Some(kept) => end.max(period_end(&kept)),
        None => end,
    }
}

/// The end of a period, or the last stamp where it has none.
fn period_end(period: &Period) -> Second
    ensures { result ≡ period_end period.now }
{
    match period.until {
        Some(until) => until,
        None => Second::of_seconds(LAST_STAMP),
    }
}
