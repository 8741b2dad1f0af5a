//! Calls of `daily_values`: what the means of a day need, and the mean that stands beside an estimate.

use crate::notation::{push_published, push_whole, push_whole_if};
use daily_values::Figures;
use fixed_units::{NoMemory, Text};

/// Writes what a word asks of the means of a day.
pub fn push_figure(figures: &Figures, word: &str, came: &mut Text) -> Result<(), NoMemory> {
    match word {
        "need" => push_whole(i128::from(figures.need()), came),
        "least" => push_whole_if(figures.least().map(i64::from), came),
        "mean_discharge" => push_published(figures.mean_discharge(), came),
        _ => came.push_slice(b"no such call"),
    }
}
