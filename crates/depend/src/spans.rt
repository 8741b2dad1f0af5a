//! Which days are compared for an edit: those of its interval, and at most one before them and one after them.

ghost use Rattle.std.specs.Prelude.{◌≡◌, ◌≢◌, ℕ, ℤ, Option, pos, ◌+ℤ◌, ◌-ℤ◌, ◌<ℤ◌, ◌≤ℤ◌};
ghost use Rattle.std.specs.Int.{int_max, int_min};
ghost use Rattle.civil_days.specs.Starts.{IsIn, IsZone, day_start_of};
ghost use Rattle.depend.specs.Compared.{AreCompared, IsAfter, IsCover};
ghost use Rattle.fixed_units.specs.Quantities.{IsDay, IsStamp, first_day, last_day, last_stamp};
ghost use Rattle.office_inputs.specs.Kept.{in_force};
ghost use Rattle.office_inputs.specs.Places.{IsPlace, IsPlaceOf};
ghost use Rattle.office_inputs.specs.Touched.{in_reach, is_between_filled, meets, touched_by, touched_of};
ghost use Rattle.office_inputs.specs.Stations.{station_of};
ghost use Rattle.edits.specs.declared.content.What.TheVariants.{SetEdition};
ghost use Rattle.station_inputs.specs.KeptStation.{IsStation};
ghost use Rattle.station_inputs.specs.Stations.{day_start, edition_after};
ghost use Rattle.station_inputs.specs.Touched.{edition_end};
ghost use Rattle.station_inputs.specs.declared.touched.Touched.TheVariants.{Between};

use civil_days::StationZone;
use edits::{Edit, What};
use fixed_units::{Day, FIRST_DAY, LAST_DAY, LAST_STAMP, Second};
use office_inputs::{Inputs, Place, Station, Touched, stations_keep_to_their_ranges};

/// The first and the last of the days that [`crate::reach`] compares for an edit, or `None` where its interval has no day: they
/// hold every day of the interval, and all but these two are of it.
pub fn compared_days(inputs: &Inputs, edit: &Edit) -> Option<(Day, Day)>
    ensures { AreCompared (in_reach (in_force inputs.now) edit.now.site (touched_of (in_force inputs.now) edit.now)) result }
{
    compared_days_at(inputs, inputs.place(edit.site), edit)
}

/// The same at the place of the edit's site. Nothing is looked up but where an entry or a period stands.
pub fn compared_days_at(inputs: &Inputs, place: Place, edit: &Edit) -> Option<(Day, Day)>
    requires { IsPlaceOf (in_force inputs.now) edit.now.site place }
    ensures { AreCompared (in_reach (in_force inputs.now) edit.now.site (touched_of (in_force inputs.now) edit.now)) result }
{
    match &edit.what {
        What::SetEdition { day, .. } => days_of_edition(inputs, place, *day),
        _ => days_touched(inputs, place, edit),
    }
}

/// The same of an edit of another kind: what these touch lies between stamps.
fn days_touched(inputs: &Inputs, place: Place, edit: &Edit) -> Option<(Day, Day)>
    requires place { IsPlaceOf (in_force inputs.now) edit.now.site place }
    requires other { (day : ℤ) (least : Option ℕ) → edit.now.what ≢ SetEdition day least }
    ensures { AreCompared (in_reach (in_force inputs.now) edit.now.site (touched_of (in_force inputs.now) edit.now)) result }
{
    stations_keep_to_their_ranges(inputs);
    match inputs.touched_at(place, edit) {
        Touched::Nothing => None,
        Touched::One(day) => Some(day_alone(day)),
        Touched::Between {
            first,
            last,
            cells_only,
        } => days_about(inputs, place, first, last, cells_only),
        Touched::Cells => used_days(inputs, place),
    }
}

/// The days of an edition of a day: of those on which it may be in force, and the one before them and behind them, those alone that lie
/// between days that have inputs.
fn days_of_edition(inputs: &Inputs, place: Place, day: Day) -> Option<(Day, Day)>
    requires place { IsPlace (in_force inputs.now) place }
    ensures { (least : Option ℕ) → AreCompared (in_reach (in_force inputs.now) place.site (touched_by (station_of (in_force inputs.now) place.site) (SetEdition day least))) result }
{
    let Some(station) = inputs.station_at(place) else {
        return None;
    };
    stations_keep_to_their_ranges(inputs);
    let near = edition_days(station, day);
    match used_days(inputs, place) {
        Some(used) => Some(common_days(near, used)),
        None => None,
    }
}

/// The day before that of an edition, and that of the next edition, or else the day behind the last stamp's.
fn edition_days(station: &Station, day: Day) -> (Day, Day)
    requires { IsStation station.now.station }
    ensures { IsCover (λ d. meets (day_start station.now.station day) (edition_end station.now.station (edition_after day station.now.station.editions)) (day_start station.now.station d) (day_start station.now.station (d +ℤ pos 1))) result.0 result.1 }
{
    let before = clipped(day.get() - 1);
    match station.edition_after(day) {
        Some(next) => (before, day_itself(next.day)),
        None => (before, day_behind_the_last_stamp(station.zone())),
    }
}

/// The day behind the one of the last stamp.
fn day_behind_the_last_stamp(zone: &StationZone) -> Day
    requires { IsZone zone.now }
    ensures { (own : ℤ) × IsIn zone.now own last_stamp × IsAfter own result }
{
    clipped(zone.day_of(Second::of_seconds(LAST_STAMP)).get() + 1)
}

/// A day, which is one of the calendar.
fn day_itself(day: Day) -> Day
    ensures value { result ≡ day }
    ensures range { IsDay day }
{
    let _number = day.get();
    day
}

/// The days from the one before the first instant's to the one after the last instant's, or of these those alone that lie
/// between days that have inputs.
fn days_about(
    inputs: &Inputs,
    place: Place,
    first: Second,
    last: Second,
    cells_only: bool,
) -> Option<(Day, Day)>
    requires place { IsPlace (in_force inputs.now) place }
    requires first { IsStamp first }
    requires last { IsStamp last }
    ensures { AreCompared (in_reach (in_force inputs.now) place.site (Between first last cells_only)) result }
{
    let Some(station) = inputs.station_at(place) else {
        return None;
    };
    stations_keep_to_their_ranges(inputs);
    let near = near_days(station.zone(), first, last);
    if !cells_only {
        return Some(near);
    }
    match used_days(inputs, place) {
        Some(used) => Some(common_days(near, used)),
        None => None,
    }
}

/// The days from the one before the first instant's to the one after the last instant's: a day lasts at least 20 hours, so each
/// other day lies farther than 720 minutes from the time between the two.
fn near_days(zone: &StationZone, first: Second, last: Second) -> (Day, Day)
    requires zone { IsZone zone.now }
    requires first { IsStamp first }
    requires last { IsStamp last }
    ensures { IsCover (λ day. meets first last (day_start_of zone.now day) (day_start_of zone.now (day +ℤ pos 1))) result.0 result.1 }
{
    let from = zone.day_of(first).get();
    let until = zone.day_of(last).get();
    (clipped(from - 1), clipped(until + 1))
}

/// The days from the first that has inputs to the last.
fn used_days(inputs: &Inputs, place: Place) -> Option<(Day, Day)>
    requires { IsPlace (in_force inputs.now) place }
    ensures { AreCompared (is_between_filled (in_force inputs.now) place.site) result }
{
    match inputs.used_span_at(place) {
        Some(span) => Some(days_of(span)),
        None => None,
    }
}

/// These two days.
fn days_of(span: (Day, Day)) -> (Day, Day)
    ensures value { result ≡ span }
    ensures first { IsDay span.0 }
    ensures last { IsDay span.1 }
{
    let _numbers = (span.0.get(), span.1.get());
    span
}

/// The days from this one to this one.
fn day_alone(day: Day) -> (Day, Day)
    ensures value { result ≡ (day, day) }
    ensures range { IsDay day }
{
    let _number = day.get();
    (day, day)
}

/// The days that both have from their first to their last.
fn common_days(days: (Day, Day), others: (Day, Day)) -> (Day, Day)
    ensures first { result.0 ≡ int_max days.0 others.0 }
    ensures last { result.1 ≡ int_min days.1 others.1 }
{
    (later(days.0, others.0), earlier(days.1, others.1))
}

/// The later of two days.
fn later(day: Day, other: Day) -> Day
    ensures { result ≡ int_max day other }
{
    if other < day { day } else { other }
}

/// The earlier of two days.
fn earlier(day: Day, other: Day) -> Day
    ensures { result ≡ int_min day other }
{
    if day < other { day } else { other }
}

/// The day of a number, or the end of the calendar that it lies beyond.
fn clipped(number: i32) -> Day
    ensures range { IsDay result }
    ensures inside { IsDay number → result ≡ number }
    ensures before { number <ℤ first_day → result ≡ first_day }
    ensures behind { last_day <ℤ number → result ≡ last_day }
{
    let nearest = if number < FIRST_DAY {
        FIRST_DAY
    } else if LAST_DAY < number {
        LAST_DAY
    } else {
        number
    };
    match Day::new(nearest) {
        Some(day) => day,
        None => unreachable!(),
    }
}
