//! The days that an edit changes.

ghost use Rattle.std.specs.Prelude.{◌≡◌, ◌≤◌, ◌+◌, ◌++◌, [], ◌∷◌, ◌<ℤ◌, not, None, AllPairs, filter, length, IfOk, OnOk};
ghost use Rattle.depend.specs.Compared.{days_within};
ghost use Rattle.edits.specs.Lawful.{IsLawful};
ghost use Rattle.fixed_units.specs.Quantities.{IsDay};
ghost use Rattle.office_inputs.specs.Changes.{changed_days};
ghost use Rattle.office_inputs.specs.Kept.{in_force};
ghost use Rattle.office_inputs.specs.Places.{IsPlaceOf};
ghost use Rattle.office_inputs.specs.Refusals.{refusal_of};
ghost use Rattle.office_inputs.specs.Touched.{interval};
ghost use Rattle.station_inputs.specs.Changes.{keeps_station_day};

use crate::days::DayList;
use crate::spans::compared_days_at;
use chronicle::Steps;
use edits::{Edit, What};
use fixed_units::{Day, NoMemory};
use office_inputs::{Inputs, Place, Station, stations_keep_to_their_ranges};
use std::alloc::Global;
use std::sync::ledger::Ledger;

/// The days that an edit changes, in order: of every day of the calendar those whose inputs differ before it and after it. The
/// days of its interval are compared, and at most two others.
///
/// # Errors
///
/// [`NoMemory`] where the list had no room.
pub fn reach<L: Ledger>(
    alloc: Global,
    inputs: &Inputs,
    edit: &Edit,
    steps: &mut Steps<L>,
) -> Result<DayList, NoMemory>
    requires { refusal_of inputs.now.limits (in_force inputs.now) edit.now ≡ None }
    ensures days { IfOk result (λ days. days ≡ changed_days (in_force inputs.now) edit.now) }
    ensures rising { IfOk result (λ days. AllPairs (λ a b. a <ℤ b) days) }
    ensures steps { steps.new ≤ steps.old + length (interval (in_force inputs.now) edit.now) + 9 }
{
    reach_at(alloc, inputs, inputs.place(edit.site), edit, steps)
}

/// The same at the place of the edit's site. Nothing is looked up but where an entry or a period stands.
///
/// # Errors
///
/// [`NoMemory`] where the list had no room.
pub fn reach_at<L: Ledger>(
    alloc: Global,
    inputs: &Inputs,
    place: Place,
    edit: &Edit,
    steps: &mut Steps<L>,
) -> Result<DayList, NoMemory>
    requires place { IsPlaceOf (in_force inputs.now) edit.now.site place }
    requires accepted { refusal_of inputs.now.limits (in_force inputs.now) edit.now ≡ None }
    ensures days { IfOk result (λ days. days ≡ changed_days (in_force inputs.now) edit.now) }
    ensures rising { IfOk result (λ days. AllPairs (λ a b. a <ℤ b) days) }
    ensures steps { steps.new ≤ steps.old + length (interval (in_force inputs.now) edit.now) + 9 }
{
    stations_keep_to_their_ranges(inputs);
    let Some(station) = inputs.station_at(place) else {
        return Ok(DayList::new(alloc));
    };
    match compared_days_at(inputs, place, edit) {
        Some(span) => changed_between(alloc, station, &edit.what, span, steps),
        None => Ok(DayList::new(alloc)),
    }
}

/// The days that an edit of a station changes, of those from the first of a span to its last: each is compared once.
fn changed_between<L: Ledger>(
    alloc: Global,
    station: &Station,
    what: &What,
    span: (Day, Day),
    steps: &mut Steps<L>,
) -> Result<DayList, NoMemory>
    requires { IsLawful what.now }
    ensures days { IfOk result (λ days. days ≡ filter (λ day. not (keeps_station_day station.now.station what.now day)) (days_within span.0 span.1)) }
    ensures steps { steps.new ≤ steps.old + length (days_within span.0 span.1) }
{
    let mut days = Vec::new(alloc);
    for number in span.0.get()..span.1.get() + 1 {
        add_changed(&mut days, station, what, number, steps)?;
    }
    Ok(DayList::from_vec(days))
}

/// Adds the day of a number where the edit changes it.
fn add_changed<L: Ledger>(
    days: &mut Vec<Day>,
    station: &Station,
    what: &What,
    number: i32,
    steps: &mut Steps<L>,
) -> Result<(), NoMemory>
    requires lawful { IsLawful what.now }
    requires day { IsDay number }
    ensures days { OnOk result (days.new.items ≡ days.old.items ++ filter (λ day. not (keeps_station_day station.now.station what.now day)) (number ∷ [])) }
    ensures step { steps.new ≡ steps.old + 1 }
{
    let Some(day) = Day::new(number) else {
        unreachable!();
    };
    if !station.same_day_inputs(what, day, steps) {
        days.push(day)?;
    }
    Ok(())
}
