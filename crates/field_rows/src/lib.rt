//! Calls of the floors of numbers, days, field data and day values, by the words of rows.
#![tactic(auto)]

mod curve_points;
mod day_figures;
mod day_given;
mod day_needs;
mod day_rules;
mod day_sums;
mod days;
mod notation;
mod numbers;
mod periods;
mod ranges;
mod rated;
mod rating_parts;
mod reading_lists;
mod same_days;
mod section_notes;
mod series;
mod sheet_texts;
mod sites;
mod tables;
mod texts;
mod unit_records;
mod unit_values;
mod whole_days;
mod windows;

use fixed_units::{NoMemory, Text};
use std::alloc::Global;

/// Writes what comes of a call on a subject of this crate; whether it is one.
pub fn answer(
    alloc: Global,
    subject: &str,
    word: &str,
    rest: &str,
    came: &mut Text,
) -> Result<bool, NoMemory> {
    match subject {
        "numbers" => numbers::answer(word, rest, came)?,
        "texts" => texts::answer(alloc, word, rest, came)?,
        "days" => days::answer(alloc, word, rest, came)?,
        "day_inputs" => same_days::answer(alloc, word, rest, came)?,
        "day_values" => day_figures::answer(alloc, word, rest, came)?,
        "sheets" => sheet_texts::answer(alloc, word, rest, came)?,
        _ => return answer_of_a_station(alloc, subject, word, rest, came),
    }
    Ok(true)
}

/// Writes what comes of a call on what a station has.
fn answer_of_a_station(
    alloc: Global,
    subject: &str,
    word: &str,
    rest: &str,
    came: &mut Text,
) -> Result<bool, NoMemory> {
    match subject {
        "readings" => reading_lists::answer(alloc, word, rest, came)?,
        "curves" => curve_points::answer(alloc, word, rest, came)?,
        "tables" => tables::answer(alloc, word, rest, came)?,
        "notes" => section_notes::answer(alloc, word, rest, came)?,
        "ratings" => rated::answer(alloc, word, rest, came)?,
        "periods" => periods::answer(alloc, word, rest, came)?,
        "unit_records" => unit_records::answer(alloc, word, rest, came)?,
        "units" => unit_values::answer(alloc, word, rest, came)?,
        _ => return Ok(false),
    }
    Ok(true)
}
