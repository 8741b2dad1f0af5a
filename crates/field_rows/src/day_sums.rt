//! Calls of `daily_values`: the sums of a day and what is published of them.

use crate::day_needs;
use crate::notation::{push_next, push_published, push_whole, push_whole_if};
use daily_values::{Figures, Sum};
use fixed_units::{NoMemory, Published, Text};

/// Writes what a word asks of the sums of a day.
pub fn push_figure(figures: &Figures, word: &str, came: &mut Text) -> Result<(), NoMemory> {
    match word {
        "stage_covered" => push_whole(i128::from(figures.stage().covered), came),
        "discharge_covered" => push_whole(i128::from(figures.discharge().covered), came),
        "stage_sum" => push_sum(figures.stage(), came),
        "discharge_sum" => push_sum(figures.discharge(), came),
        "stage_units" => push_units(figures.stage_text(), came),
        "discharge_units" => push_units(figures.discharge_text(), came),
        "stage_text" => push_published(figures.stage_text(), came),
        "discharge_text" => push_published(figures.discharge_text(), came),
        _ => day_needs::push_figure(figures, word, came),
    }
}

/// The seconds that are covered, and twice the area.
fn push_sum(sum: Sum, came: &mut Text) -> Result<(), NoMemory> {
    push_whole(i128::from(sum.covered), came)?;
    push_next(sum.twice, came)
}

/// The units of a published value, without its point.
fn push_units(value: Option<Published>, came: &mut Text) -> Result<(), NoMemory> {
    push_whole_if(value.map(|value| value.units), came)
}
