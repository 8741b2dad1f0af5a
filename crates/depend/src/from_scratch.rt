//! The days that an edit changes, by comparing every day of the calendar: a plain and slow program, to compare [`crate::reach`]
//! with.

ghost use Rattle.std.specs.Prelude.{◌≡◌, ◌++◌, [], ◌∷◌, not, filter, IfOk, OnOk};
ghost use Rattle.day_inputs.specs.Equality.{same_inputs};
ghost use Rattle.fixed_units.specs.Quantities.{IsDay};
ghost use Rattle.office_inputs.specs.Changes.{changed_days};
ghost use Rattle.office_inputs.specs.Kept.{in_force};
ghost use Rattle.office_inputs.specs.Stations.{inputs_of_day, stations_after};

use crate::days::DayList;
use day_inputs::{DayInputs, are_same};
use edits::Edit;
use fixed_units::{Day, FIRST_DAY, LAST_DAY, NoMemory, Site};
use office_inputs::Inputs;
use std::alloc::Global;

/// The days that an edit changes: those whose inputs, built from the stations before the edit and from those after it, differ.
pub fn changed_days(
    alloc: Global,
    before: &Inputs,
    after: &Inputs,
    edit: &Edit,
) -> Result<DayList, NoMemory>
    requires { in_force after.now ≡ stations_after (in_force before.now) edit.now }
    ensures { IfOk result (λ days. days ≡ changed_days (in_force before.now) edit.now) }
{
    let mut days = Vec::new(alloc);
    for number in FIRST_DAY..LAST_DAY + 1 {
        add_different(&mut days, before, after, edit.site, number)?;
    }
    Ok(DayList::from_vec(days))
}

/// Adds the day of a number where its inputs differ.
fn add_different(
    days: &mut Vec<Day>,
    before: &Inputs,
    after: &Inputs,
    site: Site,
    number: i32,
) -> Result<(), NoMemory>
    requires { IsDay number }
    ensures { OnOk result (days.new.items ≡ days.old.items ++ filter (λ day. not (same_inputs (inputs_of_day (in_force before.now) site day) (inputs_of_day (in_force after.now) site day))) (number ∷ [])) }
{
    let Some(day) = Day::new(number) else {
        unreachable!();
    };
    if differs(before, after, site, day)? {
        days.push(day)?;
    }
    Ok(())
}

/// Whether a day's inputs before and after differ.
fn differs(before: &Inputs, after: &Inputs, site: Site, day: Day) -> Result<bool, NoMemory>
    ensures { IfOk result (λ differ. differ ≡ not (same_inputs (inputs_of_day (in_force before.now) site day) (inputs_of_day (in_force after.now) site day))) }
{
    let earlier = before.day_inputs(site, day)?;
    differs_from(&earlier, after, site, day)
}

/// Whether a day's inputs after differ from these.
fn differs_from(earlier: &DayInputs, after: &Inputs, site: Site, day: Day) -> Result<bool, NoMemory>
    ensures { IfOk result (λ differ. differ ≡ not (same_inputs earlier.now (inputs_of_day (in_force after.now) site day))) }
{
    let later = after.day_inputs(site, day)?;
    Ok(!are_same(earlier, &later))
}
