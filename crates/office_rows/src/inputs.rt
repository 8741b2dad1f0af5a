//! Acts on the inputs in force: edits, which are accepted where nothing refuses them, and what is asked about an edit before that.

ghost use Rattle.std.specs.Prelude.{◌≡◌, true, None};
ghost use Rattle.office_inputs.specs.Kept.{in_force};
ghost use Rattle.office_inputs.specs.Refusals.{refusal_of};
ghost use Rattle.office_inputs.specs.Stations.{stations_after};

use crate::blocks::{Bench, limits_of, play_on};
use crate::compared::every_day;
use crate::counted::{is_kept, reached};
use crate::many::send_many;
use crate::sent::{POTOMAC, day, edit, site};
use crate::told::{push_days, push_number_behind, push_refusal, push_span};
use depend::compared_days;
use edits::Edit;
use fixed_units::{Day, NoMemory, Text};
use office_inputs::{Inputs, Limits};
use row_lines::{Ended, parted};
use std::alloc::Global;

/// Plays a block on an office without a station.
pub fn play<'a>(alloc: Global, block: &'a str, came: &mut Text) -> Ended<'a> {
    match limits_of(block) {
        Some(limits) => play_under(alloc, limits, block, came),
        None => Ended::Otherwise(block),
    }
}

fn play_under<'a>(alloc: Global, limits: Limits, block: &'a str, came: &mut Text) -> Ended<'a> {
    let mut inputs = Inputs::new(alloc, limits);
    play_on(alloc, &mut inputs, "", block, came)
}

impl Bench for Inputs {
    fn act(
        &mut self,
        alloc: Global,
        _book: &str,
        act: &str,
        came: &mut Text,
    ) -> Result<(), NoMemory> {
        let (word, rest) = parted(act);
        match word {
            "used" | "station" | "limits" => ask(self, word, came),
            "compares" | "changes" | "every-day" => ask_of(alloc, self, word, rest, came),
            "keeps" => keeps(alloc, self, rest, came),
            "many" => send_many(alloc, self, rest, came),
            "prepare" => prepare(alloc, self, rest, came),
            _ => send(alloc, self, act, came),
        }
    }
}

/// An edit: why it is refused, or that it is accepted.
pub fn send(
    alloc: Global,
    inputs: &mut Inputs,
    act: &str,
    came: &mut Text,
) -> Result<(), NoMemory> {
    match edit(alloc, act) {
        Some(edit) => say(inputs, &edit, came),
        None => came.push_slice(b"not well formed"),
    }
}

fn say(inputs: &mut Inputs, edit: &Edit, came: &mut Text) -> Result<(), NoMemory> {
    if let Some(refusal) = inputs.refusal(edit) {
        return push_refusal(refusal, came);
    }
    push_accepted(accept(inputs, edit), came)
}

fn push_accepted(accepted: bool, came: &mut Text) -> Result<(), NoMemory> {
    if accepted {
        came.push_slice(b"accepted")
    } else {
        Err(NoMemory)
    }
}

/// Accepts an edit that is not refused, where there is memory for it.
pub fn accept(inputs: &mut Inputs, edit: &Edit) -> bool
    ensures { result ≡ true → in_force inputs.new ≡ stations_after (in_force inputs.old) edit.now }
{
    if inputs.refusal(edit).is_some() || inputs.prepare(edit).is_err() {
        return false;
    }
    inputs.apply(edit);
    true
}

/// `prepare EDIT`: makes room for it.
fn prepare(alloc: Global, inputs: &mut Inputs, act: &str, came: &mut Text) -> Result<(), NoMemory> {
    match edit(alloc, act) {
        Some(edit) => make_room(inputs, &edit, came),
        None => came.push_slice(b"not well formed"),
    }
}

fn make_room(inputs: &mut Inputs, edit: &Edit, came: &mut Text) -> Result<(), NoMemory> {
    inputs.prepare(edit)?;
    came.push_slice(b"done")
}

/// `used`: the first and the last day with inputs. `station`: its gap tolerance and its zone. `limits`: the six numbers.
fn ask(inputs: &Inputs, word: &str, came: &mut Text) -> Result<(), NoMemory> {
    match word {
        "used" => used(inputs, came),
        "station" => station(inputs, came),
        _ => push_limits(inputs.limits(), came),
    }
}

fn used(inputs: &Inputs, came: &mut Text) -> Result<(), NoMemory> {
    match site(POTOMAC) {
        Some(site) => push_span(inputs.used_span(site), came),
        None => came.push_slice(b"no site"),
    }
}

fn station(inputs: &Inputs, came: &mut Text) -> Result<(), NoMemory> {
    let Some(site) = site(POTOMAC) else {
        return came.push_slice(b"no site");
    };
    match inputs.station(site) {
        Some(station) => push_settings(station.gap(), station.zone_text(), came),
        None => came.push_slice(b"none"),
    }
}

fn push_settings(gap: u32, zone: &[u8], came: &mut Text) -> Result<(), NoMemory> {
    push_number_behind(b"gap ", u64::from(gap), came)?;
    came.push_slice(b" zone ")?;
    came.push_slice(zone)
}

fn push_limits(limits: Limits, came: &mut Text) -> Result<(), NoMemory> {
    push_number_behind(b"stations ", u64::from(limits.stations), came)?;
    push_number_behind(b" readings ", limits.readings, came)?;
    push_number_behind(b" day-readings ", u64::from(limits.day_readings), came)?;
    push_number_behind(b" cells ", limits.cells, came)?;
    push_number_behind(b" events ", limits.events, came)?;
    push_number_behind(b" bytes ", limits.journal_bytes, came)
}

/// `compares EDIT`, `changes EDIT`, `every-day EDIT`: the days that it is compared on, those that it changes, and those that it changes
/// at a station that is added, as every day of the calendar is compared by itself.
fn ask_of(
    alloc: Global,
    inputs: &Inputs,
    word: &str,
    act: &str,
    came: &mut Text,
) -> Result<(), NoMemory> {
    let Some(edit) = edit(alloc, act) else {
        return came.push_slice(b"not well formed");
    };
    match word {
        "compares" => push_span(compared_days(inputs, &edit), came),
        "changes" => changes(alloc, inputs, &edit, came),
        _ => every_day(alloc, &edit, came),
    }
}

/// The days that an edit changes, where nothing refuses it.
fn changes(alloc: Global, inputs: &Inputs, edit: &Edit, came: &mut Text) -> Result<(), NoMemory> {
    match inputs.refusal(edit) {
        Some(refusal) => push_refusal(refusal, came),
        None => push_changed(alloc, inputs, edit, came),
    }
}

fn push_changed(
    alloc: Global,
    inputs: &Inputs,
    edit: &Edit,
    came: &mut Text,
) -> Result<(), NoMemory>
    requires { refusal_of inputs.now.limits (in_force inputs.now) edit.now ≡ None }
{
    match reached(alloc, inputs, edit) {
        Ok(days) => push_days(days.as_slice(), came),
        Err(NoMemory) => Err(NoMemory),
    }
}

/// `keeps DAY EDIT`: whether the edit keeps the inputs of a day, as it is told before and found once the edit is accepted.
fn keeps(alloc: Global, inputs: &mut Inputs, rest: &str, came: &mut Text) -> Result<(), NoMemory> {
    let (of, act) = parted(rest);
    match (day(of), edit(alloc, act)) {
        (Some(day), Some(edit)) => keeps_day(inputs, &edit, day, came),
        _ => came.push_slice(b"not well formed"),
    }
}

fn keeps_day(inputs: &mut Inputs, edit: &Edit, day: Day, came: &mut Text) -> Result<(), NoMemory> {
    match inputs.refusal(edit) {
        Some(refusal) => push_refusal(refusal, came),
        None => push_told_and_found(inputs, edit, day, came),
    }
}

fn push_told_and_found(
    inputs: &mut Inputs,
    edit: &Edit,
    day: Day,
    came: &mut Text,
) -> Result<(), NoMemory>
    requires { refusal_of inputs.old.limits (in_force inputs.old) edit.now ≡ None }
{
    push_kept(b"told ", is_kept(inputs, edit, day), came)?;
    match stays(inputs, edit, day) {
        Some(kept) => push_kept(b", found ", kept, came),
        None => Err(NoMemory),
    }
}

fn push_kept(words: &[u8], kept: bool, came: &mut Text) -> Result<(), NoMemory> {
    came.push_slice(words)?;
    came.push_slice(if kept { b"kept" } else { b"changed" })
}

/// Whether the inputs of a day are those from before an edit, once it is accepted.
fn stays(inputs: &mut Inputs, edit: &Edit, day: Day) -> Option<bool> {
    let before = inputs.day_inputs(edit.site, day).ok()?;
    let accepted = accept(inputs, edit);
    let same = inputs.is_day_inputs(edit.site, day, &before);
    if accepted { Some(same) } else { None }
}
