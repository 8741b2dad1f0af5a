//! Calls of `daily_values`: what a day's value says.

use crate::day_given::{behind, inputs};
use crate::day_rules::{are_inputs, value_of};
use crate::day_sums;
use crate::notation::{Stop, push_next, push_quantity, push_whole, told};
use crate::whole_days::from_all;
use civil_days::write_instant;
use daily_values::{Counts, DayInputs, DayValue, Figures, Unit};
use fixed_units::{NoMemory, Text, write_micro};
use std::alloc::Global;

/// Writes what comes of `WORD+WORD.. INPUTS`: what each word asks of the value of the day, computed from its inputs or, with `from=all`, from
/// all readings of a station.
pub fn answer(alloc: Global, words: &str, rest: &str, came: &mut Text) -> Result<(), NoMemory> {
    let end = ask(alloc, words, rest, came);
    told(end, came)
}

fn ask(alloc: Global, words: &str, rest: &str, came: &mut Text) -> Result<(), Stop> {
    let value = value_in(alloc, rest)?;
    Ok(push_value(&value, words, came)?)
}

/// The value of a day.
pub fn value_in(alloc: Global, text: &str) -> Result<DayValue, Stop> {
    if behind(text, "from=", "inputs") == "all" {
        return from_all(alloc, text);
    }
    let inputs = inputs(alloc, text)?;
    value_if(&inputs)
}

fn value_if(inputs: &DayInputs) -> Result<DayValue, Stop> {
    if !are_inputs(inputs) {
        return Err(Stop::NotWellFormed);
    }
    Ok(value_of(inputs))
}

fn push_value(value: &DayValue, words: &str, came: &mut Text) -> Result<(), NoMemory> {
    match value {
        DayValue::Empty => came.push_slice(b"empty"),
        DayValue::Day(figures) => push_figures(figures, words, came),
    }
}

fn push_figures(figures: &Figures, words: &str, came: &mut Text) -> Result<(), NoMemory> {
    let mut between: &[u8] = b"";
    for word in words.split('+') {
        came.push_slice(between)?;
        push_figure(figures, word, came)?;
        between = b" ";
    }
    Ok(())
}

fn push_figure(figures: &Figures, word: &str, came: &mut Text) -> Result<(), NoMemory> {
    match word {
        "length" => push_whole(i128::from(figures.length()), came),
        "counts" => push_counts(figures.counts(), came),
        "estimate" => push_quantity(figures.estimate(), came),
        "max_stage" => push_extreme(figures.extremes().max_stage, came),
        "min_stage" => push_extreme(figures.extremes().min_stage, came),
        "max_discharge" => push_extreme(figures.extremes().max_discharge, came),
        "min_discharge" => push_extreme(figures.extremes().min_discharge, came),
        _ => day_sums::push_figure(figures, word, came),
    }
}

/// The readings, and of them those without a discharge: affected, without a rating, below and above it.
fn push_counts(counts: Counts, came: &mut Text) -> Result<(), NoMemory> {
    push_whole(i128::from(counts.readings), came)?;
    push_next(i128::from(counts.affected), came)?;
    push_next(i128::from(counts.no_rating), came)?;
    push_next(i128::from(counts.below), came)?;
    push_next(i128::from(counts.above), came)
}

/// An extreme: its instant, its stage, and its discharge if it has one; or that there is none.
fn push_extreme(extreme: Option<Unit>, came: &mut Text) -> Result<(), NoMemory> {
    match extreme {
        Some(unit) => push_unit(unit, came),
        None => came.push_slice(b"none"),
    }
}

fn push_unit(unit: Unit, came: &mut Text) -> Result<(), NoMemory> {
    write_instant(unit.at, came)?;
    came.push_slice(b" ")?;
    write_micro(unit.stage, came)?;
    came.push_slice(b" ")?;
    push_quantity(unit.discharge.ok(), came)
}
