//! Acts on the statuses of days: reviews and decisions of a person, and what becomes of three days, 1970-01-02 to 1970-01-04. What may
//! be made is made as the edit 7.

ghost use Rattle.approval.specs.Kept.{HasRoom};

use crate::blocks::{Bench, play_on};
use crate::sent::{POTOMAC, day, edit, site};
use crate::told::{push_number_behind, push_refusal};
use approval::{Status, Statuses};
use civil_days::write_day;
use edits::Edit;
use fixed_units::{Day, NoMemory, Site, Text};
use office_inputs::Refusal;
use row_lines::{Ended, parted};
use std::alloc::Global;

/// Plays a block on days that are all worked.
pub fn play<'a>(alloc: Global, block: &'a str, came: &mut Text) -> Ended<'a> {
    let mut statuses = Statuses::new(alloc);
    play_on(alloc, &mut statuses, "", block, came)
}

impl Bench for Statuses {
    fn act(
        &mut self,
        alloc: Global,
        _book: &str,
        act: &str,
        came: &mut Text,
    ) -> Result<(), NoMemory> {
        let (word, rest) = parted(act);
        match word {
            "approver" => approver(self, rest, came),
            "locked" => locked(alloc, self, rest, came),
            "changing" => changing(alloc, self, rest, came),
            _ => send(alloc, self, act, None, came),
        }
    }
}

/// `approver DAY`: who approved it.
fn approver(statuses: &Statuses, text: &str, came: &mut Text) -> Result<(), NoMemory> {
    match (site(POTOMAC), day(text)) {
        (Some(site), Some(day)) => push_approver(statuses.status(site, day), came),
        _ => came.push_slice(b"not well formed"),
    }
}

fn push_approver(status: Status, came: &mut Text) -> Result<(), NoMemory> {
    match status {
        Status::Approved(by) => came.push_slice(by.as_slice()),
        _ => came.push_slice(b"none"),
    }
}

/// `locked DAY ..`: the first of some days that is locked.
fn locked(alloc: Global, statuses: &Statuses, text: &str, came: &mut Text) -> Result<(), NoMemory> {
    match (site(POTOMAC), days_of(alloc, text)) {
        (Some(site), Some(days)) => push_locked(statuses.locked(site, days.as_slice()), came),
        _ => came.push_slice(b"not well formed"),
    }
}

fn push_locked(first: Option<Day>, came: &mut Text) -> Result<(), NoMemory> {
    match first {
        Some(day) => write_day(day, came),
        None => came.push_slice(b"none"),
    }
}

/// The days of a text, of which there may be none.
fn days_of(alloc: Global, text: &str) -> Option<Vec<Day>> {
    let mut days = Vec::new(alloc);
    for part in text.split(' ') {
        if !part.is_empty() && !add_day(&mut days, part) {
            return None;
        }
    }
    Some(days)
}

fn add_day(days: &mut Vec<Day>, text: &str) -> bool {
    match day(text) {
        Some(day) => days.push(day).is_ok(),
        None => false,
    }
}

/// `changing DAY EDIT`: an edit that changes a day.
fn changing(
    alloc: Global,
    statuses: &mut Statuses,
    rest: &str,
    came: &mut Text,
) -> Result<(), NoMemory> {
    let (of, act) = parted(rest);
    match day(of) {
        Some(day) => send(alloc, statuses, act, Some(day), came),
        None => came.push_slice(b"not well formed"),
    }
}

fn send(
    alloc: Global,
    statuses: &mut Statuses,
    act: &str,
    changed: Option<Day>,
    came: &mut Text,
) -> Result<(), NoMemory> {
    match edit(alloc, act) {
        Some(edit) => say(statuses, &edit, changed, came),
        None => came.push_slice(b"not well formed"),
    }
}

/// What is said to an edit, which is made where nothing stands against it, and how the days stand then.
fn say(
    statuses: &mut Statuses,
    edit: &Edit,
    changed: Option<Day>,
    came: &mut Text,
) -> Result<(), NoMemory> {
    match statuses.objection(edit) {
        Some(objection) => push_refusal(Refusal::from(objection), came)?,
        None => make(statuses, edit, changed, came)?,
    }
    push_standings(statuses, came)
}

fn make(
    statuses: &mut Statuses,
    edit: &Edit,
    changed: Option<Day>,
    came: &mut Text,
) -> Result<(), NoMemory> {
    statuses.prepare(edit)?;
    apply(statuses, edit, changed);
    came.push_slice(b"made")
}

fn apply(statuses: &mut Statuses, edit: &Edit, changed: Option<Day>)
    requires { HasRoom statuses.old edit.now }
{
    match changed {
        Some(day) => statuses.apply(7, edit, &[day]),
        None => statuses.apply(7, edit, &[]),
    }
}

fn push_standings(statuses: &Statuses, came: &mut Text) -> Result<(), NoMemory> {
    let Some(site) = site(POTOMAC) else {
        return came.push_slice(b"no site");
    };
    push_standing(b": ", statuses, (site, 1), came)?;
    push_standing(b", ", statuses, (site, 2), came)?;
    push_standing(b", ", statuses, (site, 3), came)
}

/// Writes the status of the day of a number, by which edit it is approved, if it is, and whether it is locked.
fn push_standing(
    before: &[u8],
    statuses: &Statuses,
    (site, number): (Site, i32),
    came: &mut Text,
) -> Result<(), NoMemory> {
    let Some(day) = Day::new(number) else {
        return came.push_slice(b"no day");
    };
    came.push_slice(before)?;
    came.push_slice(statuses.status(site, day).name())?;
    push_approving_edit(statuses.approving_edit(site, day), came)?;
    if statuses.locked(site, &[day]) == Some(day) {
        return came.push_slice(b" locked");
    }
    Ok(())
}

fn push_approving_edit(edit: Option<u64>, came: &mut Text) -> Result<(), NoMemory> {
    match edit {
        Some(edit) => push_number_behind(b" by edit ", edit, came),
        None => Ok(()),
    }
}
