//! The value of a day from all readings of a station without corrections, shifts and ratings.
ghost use Rattle.std.specs.Prelude.{◌≡◌, ◌≤◌, ◌-ℤ◌, pos, All, IfSome};
ghost use Rattle.editions.specs.Covers.{IsLeastCover};
ghost use Rattle.fixed_units.specs.Quantities.{IsDischarge, IsStage, IsStamp};
ghost use Rattle.readings.specs.Readings.{IsRising};

use crate::day_given::{behind, frame_of};
use crate::day_rules::{are_rising, are_stages, are_stamps, is_estimate, is_least};
use crate::notation::Stop;
use crate::reading_lists::reading_list;
use curves::{CorrectionSets, Shifts};
use daily_values::{DayValue, from_scratch};
use day_inputs::Settings;
use fixed_units::{Micro, NoMemory, Reading, RoundingArray, Second};
use ratings::Ratings;
use std::alloc::Global;

/// The value of the day of a text.
pub fn from_all(alloc: Global, text: &str) -> Result<DayValue, Stop> {
    let frame = frame_of(text)?;
    let estimate: Option<Micro> = frame.estimate;
    let readings = reading_list(alloc, frame.from.get(), behind(text, "readings=", ""))?;
    from_readings(alloc, text, readings.as_slice(), estimate)
}

/// The value of the day of a text from these readings.
fn from_readings(
    alloc: Global,
    text: &str,
    readings: &[Reading],
    estimate: Option<Micro>,
) -> Result<DayValue, Stop> {
    let frame = frame_of(text)?;
    if !are_rising(readings) || !are_stages(readings) || !are_stamps(readings) {
        return Err(Stop::NotWellFormed);
    }
    if frame.gap < 1 || frame.gap > 720 || !is_estimate(estimate) || !is_least(frame.least) {
        return Err(Stop::NotWellFormed);
    }
    let length = frame.until.get() - frame.from.get();
    if length != 86_400 {
        return Err(Stop::NotWellFormed);
    }
    Ok(without_entries(
        alloc,
        frame.gap,
        frame.from,
        frame.until,
        readings,
        estimate,
        frame.least,
    )?)
}

fn without_entries(
    alloc: Global,
    gap: u32,
    from: Second,
    until: Second,
    readings: &[Reading],
    estimate: Option<Micro>,
    least: Option<u32>,
) -> Result<DayValue, NoMemory>
    requires gap_low { 1 ≤ gap }
    requires gap_high { gap ≤ 720 }
    requires length { until -ℤ from ≡ pos 86_400 }
    requires rising { IsRising readings.now }
    requires stamps { All (λ r. IsStamp r.at) readings.now }
    requires stages { All (λ r. IsStage r.raw) readings.now }
    requires estimate { IfSome estimate IsDischarge }
    requires least { IfSome least IsLeastCover }
{
    let corrections = CorrectionSets::new(alloc);
    let shifts = Shifts::new(alloc);
    let ratings = Ratings::new(alloc);
    let settings = Settings {
        gap,
        stage_array: RoundingArray::STAGES,
        discharge_array: RoundingArray::STAGES,
    };
    from_scratch::day_value(
        alloc,
        settings,
        from,
        until,
        &corrections,
        &shifts,
        &ratings,
        readings,
        estimate,
        least,
    )
}
