//! The days that an edit changes, as every day of the calendar is compared by itself.

ghost use Rattle.std.specs.Prelude.{◌≡◌, [], true};
ghost use Rattle.office_inputs.specs.Kept.{in_force};
ghost use Rattle.office_inputs.specs.Stations.{stations_after};

use crate::inputs::accept;
use crate::sent::edit;
use crate::told::push_days;
use depend::DayList;
use depend::from_scratch::changed_days;
use edits::Edit;
use fixed_units::{NoMemory, Text};
use office_inputs::{Inputs, Limits};
use std::alloc::Global;

/// Those that it changes at a station that is added.
pub fn every_day(alloc: Global, put: &Edit, came: &mut Text) -> Result<(), NoMemory> {
    match edit(alloc, "add") {
        Some(added) => every_day_of(alloc, &added, put, came),
        None => Err(NoMemory),
    }
}

fn every_day_of(alloc: Global, added: &Edit, put: &Edit, came: &mut Text) -> Result<(), NoMemory> {
    match changed(alloc, added, put) {
        Some(days) => push_days(days.as_slice(), came),
        None => came.push_slice(b"refused"),
    }
}

fn changed(alloc: Global, added: &Edit, put: &Edit) -> Option<DayList> {
    let mut before = no_inputs(alloc);
    let mut after = no_inputs(alloc);
    changed_by_all(alloc, &mut before, &mut after, added, put)
}

/// What is in force in an office without a station.
fn no_inputs(alloc: Global) -> Inputs
    ensures { in_force result ≡ [] }
{
    Inputs::new(alloc, Limits::usual())
}

fn changed_by_all(
    alloc: Global,
    before: &mut Inputs,
    after: &mut Inputs,
    added: &Edit,
    put: &Edit,
) -> Option<DayList>
    requires { in_force before.old ≡ in_force after.old }
{
    if accept_each(before, after, added, put) {
        changed_days(alloc, before, after, put).ok()
    } else {
        None
    }
}

/// Accepts the station before, and the station and the edit after.
fn accept_each(before: &mut Inputs, after: &mut Inputs, added: &Edit, put: &Edit) -> bool
    requires { in_force before.old ≡ in_force after.old }
    ensures { result ≡ true → in_force after.new ≡ stations_after (in_force before.new) put.now }
{
    accept(before, added) && accept(after, added) && accept(after, put)
}
