//! What came of a trial, counted over its office.

ghost use Rattle.std.specs.Prelude.{◌≡◌, ◌≤◌, ◌<◌, ◌*◌, ◌≤ℤ◌, pos, ◌+ℤ◌, []};
ghost use Rattle.fixed_units.specs.Quantities.{IsDay, first_day, most_discharge};
ghost use Rattle.history.specs.Awaited.{pending_days};
ghost use Rattle.trial.specs.Figures.{approved_of, kept_one, mean_on, means_of, over_stations};

use crate::means::mean_of_value;
use devices::Disk;
use fixed_units::{Day, Site};
use office::{Answer, Office};
use trial_orders::{STATIONS, site_of};

/// The first day whose mean is summed: 2023-01-05.
const FIRST_SUMMED: i32 = 19_362;

/// How many days' means are summed, the last of which is 2024-02-05.
const SUMMED_DAYS: u32 = 397;

/// How many of the stations of a trial are kept.
pub(crate) fn kept<D: Disk>(office: &Office<D>) -> u64
    ensures { result ≡ over_stations (kept_one office.now.register.history.events) }
{
    let mut count = 0;
    for station in 1..STATIONS + 1 {
        count += kept_one(office, site_of(station));
    }
    count
}

/// 1 where a site is kept, and else 0.
fn kept_one<D: Disk>(office: &Office<D>, site: Site) -> u64
    ensures kept { result ≡ kept_one office.now.register.history.events site }
    ensures few { result ≤ 1 }
{
    u64::from(office.station(site).is_some())
}

/// How many days of the stations of a trial are approved.
pub(crate) fn approved<D: Disk>(office: &Office<D>) -> u64
    ensures { result ≡ over_stations (approved_of office.now.register.history.events) }
{
    let mut count = 0;
    for station in 1..STATIONS + 1 {
        count += office.approved_days(site_of(station));
    }
    count
}

/// The sum of the mean discharges of the stations of a trial, in millionths of a cubic foot per second.
pub(crate) fn total<D: Disk>(office: &Office<D>) -> u64
    requires settled { pending_days office.now.register.history.events ≡ [] }
    ensures { result ≡ over_stations (means_of office.now.register.history.events) }
{
    let mut sum = 0;
    for station in 1..STATIONS + 1 {
        sum += means_of(office, site_of(station));
    }
    sum
}

/// The sum of the mean discharges of a site.
fn means_of<D: Disk>(office: &Office<D>, site: Site) -> u64
    requires settled { pending_days office.now.register.history.events ≡ [] }
    ensures means { result ≡ means_of office.now.register.history.events site }
    ensures few { result ≤ 397 * most_discharge }
{
    let mut sum = 0;
    for place in 0..SUMMED_DAYS {
        sum += mean_on(office, site, day_behind(FIRST_SUMMED, place));
    }
    sum
}

/// The mean discharge of a day of a site, or 0 where there is none.
fn mean_on<D: Disk>(office: &Office<D>, site: Site, day: Day) -> u64
    requires settled { pending_days office.now.register.history.events ≡ [] }
    requires day { IsDay day }
    ensures mean { result ≡ mean_on office.now.register.history.events site day }
    ensures few { result ≤ most_discharge }
{
    match office.answer(site, day) {
        Answer::Computed(value) => mean_of_value(value),
        Answer::NoStation => 0,
        Answer::Pending(_) => 0,
    }
}

/// The day that comes so many days behind another one.
fn day_behind(first: i32, place: u32) -> Day
    requires first { first_day ≤ℤ first }
    requires place { place < 397 }
    requires day { IsDay (first +ℤ pos place) }
    ensures value { result ≡ first +ℤ pos place }
    ensures day { IsDay result }
{
    Day::new(first + place as i32).unwrap()
}
