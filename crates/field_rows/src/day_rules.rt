//! Which inputs of a day may be computed, and the value that they have.
ghost use Rattle.std.specs.Prelude.{◌≡◌, ◌<◌, All, IfSome, IsTrue};
ghost use Rattle.curves.specs.Entries.{IsSeries};
ghost use Rattle.editions.specs.Covers.{IsLeastCover};
ghost use Rattle.fixed_units.specs.Quantities.{IsDischarge, IsStage, IsStamp};
ghost use Rattle.ratings.specs.Parts.{AreParts};
ghost use Rattle.readings.specs.Readings.{IsRising};
ghost use Rattle.day_inputs.specs.DayInputs.{AreInputs};

use crate::unit_values::{are_parts, is_series};
use chronicle::Steps;
use daily_values::{DayInputs, DayParts, DayValue, compute};
use editions::is_least_cover;
use fixed_units::{Micro, Reading, is_discharge, is_stage, is_stamp};
use std::marker::Brand;
use std::sync::ledger::{Blank, Ledger};

/// Whether each reading comes behind the one before.
pub fn are_rising(readings: &[Reading]) -> bool
    ensures { IsTrue result → IsRising readings.now }
{
    let mut rest = readings;
    while let [left, right, ..] = rest {
        if left.at.get() >= right.at.get() {
            return false;
        }
        rest = &rest[1..];
    }
    true
}

/// Whether each reading is a stage.
pub fn are_stages(readings: &[Reading]) -> bool
    ensures { IsTrue result → All (λ r. IsStage r.raw) readings.now }
{
    readings.iter().all(|r| is_stage(r.raw.get()))
}

/// Whether each reading has an instant that a stamp can say.
pub fn are_stamps(readings: &[Reading]) -> bool
    ensures { IsTrue result → All (λ r. IsStamp r.at) readings.now }
{
    readings.iter().all(|r| is_stamp(r.at.get()))
}

/// Whether an estimate is a discharge, if there is one.
pub fn is_estimate(estimate: Option<Micro>) -> bool
    ensures { IsTrue result → IfSome estimate IsDischarge }
{
    match estimate {
        Some(discharge) => is_discharge(discharge.get()),
        None => true,
    }
}

/// Whether a least cover is 1 to 1,440 minutes, if there is one.
pub fn is_least(least: Option<u32>) -> bool
    ensures { IsTrue result → IfSome least IsLeastCover }
{
    match least {
        Some(minutes) => is_least_cover(minutes),
        None => true,
    }
}

/// Whether a day's inputs keep to what they must.
pub fn are_inputs(inputs: &DayInputs) -> bool
    ensures { IsTrue result → AreInputs inputs.now }
{
    let DayInputs::Day(parts) = inputs else {
        return true;
    };
    let length = parts.until.get() - parts.from.get();
    if parts.gap < 1 || parts.gap > 720 || length < 72_000 || length > 100_800 {
        return false;
    }
    let window = parts.window.as_slice();
    if !are_rising(window) || !are_stages(window) {
        return false;
    }
    are_rules(parts)
}

fn are_rules(parts: &DayParts) -> bool
    ensures first { IsTrue result → IsSeries parts.now.first }
    ensures second { IsTrue result → IsSeries parts.now.second }
    ensures third { IsTrue result → IsSeries parts.now.third }
    ensures shifts { IsTrue result → IsSeries parts.now.shifts }
    ensures periods { IsTrue result → AreParts parts.now.periods }
    ensures estimate { IsTrue result → IfSome parts.now.estimate IsDischarge }
    ensures least { IsTrue result → IfSome parts.now.least IsLeastCover }
{
    is_series(parts.first.as_slice())
        && is_series(parts.second.as_slice())
        && is_series(parts.third.as_slice())
        && is_series(parts.shifts.as_slice())
        && are_parts(parts.periods.as_slice())
        && is_estimate(parts.estimate)
        && is_least(parts.least)
}

/// The value that the inputs of a day have.
pub fn value_of(inputs: &DayInputs) -> DayValue
    requires { AreInputs inputs.now }
{
    counted::<Brand>(inputs, Blank::new(1))
}

fn counted<L: Ledger>(inputs: &DayInputs, blank: Blank) -> DayValue
    requires inputs { AreInputs inputs.now }
    requires name { blank.name ≡ L.name }
    requires parts { blank.parts ≡ L.parts }
    requires some { 0 < blank.parts }
{
    let mut steps = Steps::<L>::new(blank);
    compute(inputs, &mut steps)
}
