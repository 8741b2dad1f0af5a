//! Calls of `day_inputs`: inputs of days that are equal and that are not, and windows against lists that were kept.

use crate::day_given::inputs;
use crate::notation::{Stop, count, push_whether, three, told};
use crate::reading_lists::{reading, reading_list};
use day_inputs::{DayInputs, are_same, window_is};
use fixed_units::{NoMemory, Reading, Text};
use readings::Window;
use row_lines::parted;
use std::alloc::Global;

/// Writes what comes of a call.
pub fn answer(alloc: Global, word: &str, rest: &str, came: &mut Text) -> Result<(), NoMemory> {
    match word {
        "same" => told(same(alloc, rest, came), came),
        "window" => told(window(alloc, rest, came), came),
        _ => came.push_slice(b"no such call"),
    }
}

/// `same INPUTS | INPUTS`: whether the inputs of two days are equal.
fn same(alloc: Global, rest: &str, came: &mut Text) -> Result<(), Stop> {
    let Some((one, other)) = rest.split_once(" | ") else {
        return Err(Stop::NotWellFormed);
    };
    let one = inputs(alloc, one)?;
    same_as(alloc, &one, other, came)
}

fn same_as(alloc: Global, one: &DayInputs, other: &str, came: &mut Text) -> Result<(), Stop> {
    let other = inputs(alloc, other)?;
    Ok(push_whether(are_same(one, &other), came)?)
}

/// `window BEFORE AFTER CUT READINGS READINGS`: whether the window of the first readings, cut behind so many of them, between two neighbours,
/// is the list of the others.
fn window(alloc: Global, rest: &str, came: &mut Text) -> Result<(), Stop> {
    let (before, after, rest) = three(rest);
    let neighbours = (reading(0, before)?, reading(0, after)?);
    let (cut, inner, list) = three(rest);
    let inner = reading_list(alloc, 0, inner)?;
    window_cut(alloc, neighbours, inner.as_slice(), count(cut)?, list, came)
}

fn window_cut(
    alloc: Global,
    neighbours: (Reading, Reading),
    inner: &[Reading],
    cut: u32,
    list: &str,
    came: &mut Text,
) -> Result<(), Stop> {
    let cut = usize::try_from(cut).unwrap_or(usize::MAX);
    let Some((left, right)) = inner.split_at_checked(cut) else {
        return Err(Stop::NotWellFormed);
    };
    let window = Window {
        before: Some(neighbours.0),
        left,
        right,
        after: Some(neighbours.1),
    };
    let list = reading_list(alloc, 0, list)?;
    Ok(push_whether(window_is(&window, list.as_slice()), came)?)
}
