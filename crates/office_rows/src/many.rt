//! Many edits of a kind, for what a station has only so many of.

use crate::inputs::accept;
use crate::sent::edit;
use civil_days::{write_day, write_instant};
use fixed_units::{Day, NoMemory, Second, Text};
use office_inputs::Inputs;
use row_lines::parted;
use std::alloc::Global;

/// `many COUNT shift`: so many shifts of a tenth of a foot, at the seconds from the beginning of 1970 on. `period` is of rating 1, from
/// each second until the next; `edition` is of 720 minutes from each day of 1970 on; `rate` and `measure` are of the numbers from 1 on.
/// How many of them are accepted.
pub fn send_many(
    alloc: Global,
    inputs: &mut Inputs,
    rest: &str,
    came: &mut Text,
) -> Result<(), NoMemory> {
    let (count, kind) = parted(rest);
    match count.parse() {
        Ok(count) => came.push_number(count_accepted(alloc, inputs, count, kind)?),
        Err(_) => came.push_slice(b"not well formed"),
    }
}

fn count_accepted(
    alloc: Global,
    inputs: &mut Inputs,
    count: u32,
    kind: &str,
) -> Result<u64, NoMemory> {
    let mut accepted = 0_u64;
    for place in 0..count {
        if send_nth(alloc, inputs, kind, place)? {
            accepted = accepted.saturating_add(1);
        }
    }
    Ok(accepted)
}

/// Whether one of many is accepted.
fn send_nth(alloc: Global, inputs: &mut Inputs, kind: &str, place: u32) -> Result<bool, NoMemory> {
    let mut act = Text::new(alloc);
    push_nth(kind, place, &mut act)?;
    Ok(is_accepted(alloc, inputs, act.as_slice()))
}

fn is_accepted(alloc: Global, inputs: &mut Inputs, act: &[u8]) -> bool {
    match edit(alloc, str::from_utf8(act).unwrap_or("")) {
        Some(edit) => accept(inputs, &edit),
        None => false,
    }
}

/// Spells one of many.
fn push_nth(kind: &str, place: u32, act: &mut Text) -> Result<(), NoMemory> {
    act.push_slice(kind.as_bytes())?;
    act.push_slice(b" ")?;
    match kind {
        "shift" => {
            push_second(place, act)?;
            act.push_slice(b" 0.1 held")
        }
        "period" => push_period(place, act),
        "edition" => push_edition(place, act),
        _ => act.push_number(u64::from(place).saturating_add(1)),
    }
}

fn push_period(place: u32, act: &mut Text) -> Result<(), NoMemory> {
    push_second(place, act)?;
    act.push_slice(b" ")?;
    push_second(place.saturating_add(1), act)?;
    act.push_slice(b" 1")
}

fn push_edition(place: u32, act: &mut Text) -> Result<(), NoMemory> {
    push_day(place, act)?;
    act.push_slice(b" 720")
}

/// Writes the day so many days after the beginning of 1970.
fn push_day(days: u32, act: &mut Text) -> Result<(), NoMemory> {
    match i32::try_from(days).ok().and_then(Day::new) {
        Some(day) => write_day(day, act),
        None => act.push_slice(b"-"),
    }
}

/// Writes the instant so many seconds after the beginning of 1970.
fn push_second(seconds: u32, act: &mut Text) -> Result<(), NoMemory> {
    match Second::new(i64::from(seconds)) {
        Some(at) => write_instant(at, act),
        None => act.push_slice(b"-"),
    }
}
