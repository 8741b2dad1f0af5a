//! The cells of the stations in the order of their sites.

ghost use Rattle.std.specs.Prelude.{◌≡◌, ◌+◌, ◌<◌, ◌≤◌, true, not, [], None, find, length, take, drop, slice_get, AllPairs, IfSome, IfOk, IfErr};
ghost use Rattle.std.specs.List.{HoldsAt};
ghost use Rattle.rising.specs.Lists.{IsRising, at, before, after};
ghost use Rattle.day_cells.specs.KeptDays.{HasRoom, SaysTheSame, waiting_of};
ghost use Rattle.fixed_units.specs.Calendar.{days_of_calendar};
ghost use Rattle.day_cells.specs.Spans as spans;
ghost use Rattle.day_cells.specs.Spans.{IsSpan, days_of};
ghost use Rattle.day_cells.specs.Sites.{station_rank};
ghost use Rattle.recompute.specs.Cells.{IsPlace, IsGap, NonePendingWithin, NoneUnclaimedWithin, waiting};

use day_cells::{DayCells, Span, Waiting, count_days, rank, with_day};
use fixed_units::{Day, NoMemory, Site};
use rising::count_before;
use std::alloc::Global;

/// The place of a station, or else where it belongs.
pub(crate) fn place_of(stations: &[DayCells], site: Site) -> Result<usize, usize>
    requires { IsRising station_rank stations.now }
    ensures found { IfOk result (IsPlace stations.now site) }
    ensures absent { IfErr result (IsGap stations.now site) }
{
    let key = rank(site);
    let place = count_before(stations, key);
    if place >= stations.len() {
        return Err(place);
    }
    if rank(stations[place].site()) != key {
        return Err(place);
    }
    Ok(place)
}

/// The first pending day of these stations.
pub(crate) fn first_in(stations: &[DayCells]) -> Option<Waiting>
    ensures { result ≡ slice_get (waiting stations.now) 0 }
{
    for station in stations {
        if let Some(waiting) = station.first() {
            return Some(waiting);
        }
    }
    None
}

/// The first pending day of these stations whose claim is not out.
pub(crate) fn first_unclaimed_in(stations: &[DayCells]) -> Option<Waiting>
    ensures { result ≡ find (λ w. not w.out) (waiting stations.now) }
{
    for station in stations {
        if let Some(waiting) = station.first_unclaimed() {
            return Some(waiting);
        }
    }
    None
}

/// The first station from a place on that has a pending day, or else the end.
pub(crate) fn first_pending(stations: &[DayCells], from: usize) -> usize
    requires { from ≤ length stations.now }
    ensures within { result ≤ length stations.now }
    ensures between { NonePendingWithin stations.now from result }
{
    let mut place = from;
    while place < stations.len() && stations[place].first().is_none() {
        place += 1;
    }
    place
}

/// The first station from a place on that has a pending day whose claim is not out, or else the end.
pub(crate) fn first_unclaimed(stations: &[DayCells], from: usize) -> usize
    requires { from ≤ length stations.now }
    ensures within { result ≤ length stations.now }
    ensures between { NoneUnclaimedWithin stations.now from result }
{
    let mut place = from;
    while place < stations.len() && stations[place].first_unclaimed().is_none() {
        place += 1;
    }
    place
}

/// How many days of the station in a place are pending.
pub(crate) fn pending_at(stations: &[DayCells], place: usize) -> u64
    requires { place < length stations.now }
    ensures count { HoldsAt (λ s. result ≡ length (waiting_of s)) stations.now place }
    ensures most { result ≤ days_of_calendar }
{
    stations[place].pending() as u64
}

/// How many cells the station in a place has.
pub(crate) fn cells_at(stations: &[DayCells], place: usize) -> u64
    requires { place < length stations.now }
    ensures count { HoldsAt (λ s. result ≡ days_of s.span) stations.now place }
    ensures most { result ≤ days_of_calendar }
{
    u64::from(count_days(stations[place].span()))
}

/// The span with these days in it too.
fn with_days(span: Option<Span>, days: &[Day]) -> Option<Span>
    requires { IfSome span IsSpan }
    ensures value { result ≡ spans.with_days span days.now }
    ensures span { IfSome result IsSpan }
{
    let mut wide = span;
    for day in days {
        wide = with_day(wide, *day);
    }
    wide
}

/// How many days the span with these days in it too has.
pub(crate) fn count_after(span: Option<Span>, days: &[Day]) -> u64
    requires { IfSome span IsSpan }
    ensures value { result ≡ days_of (spans.with_days span days.now) }
    ensures most { result ≤ days_of_calendar }
{
    u64::from(count_days(with_days(span, days)))
}

/// A station without a changed day that has room for a mark of these days.
pub(crate) fn new_station(
    alloc: Global,
    site: Site,
    first: Day,
    days: &[Day],
) -> Result<DayCells, NoMemory>
    ensures same { IfOk result (SaysTheSame (record { site = site; start = first; awaits = []; claims = []; values = []; span = None })) }
    ensures waiting { IfOk result (λ s. waiting_of s ≡ []) }
    ensures room { IfOk result (λ s. HasRoom s days.now) }
{
    let mut station = DayCells::new(alloc, site, first);
    match station.prepare(alloc, days) {
        Ok(()) => Ok(station),
        Err(NoMemory) => Err(NoMemory),
    }
}
