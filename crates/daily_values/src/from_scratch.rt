//! The value of a day from a station's whole list of readings: a plain and slow program, one step after another,
//! to compare what is kept with.

ghost use Rattle.std.specs.List.{list_any};
ghost use Rattle.std.specs.Prelude.{◌≡◌, ◌*◌, ◌≤◌, ◌++◌, ◌&&◌, ℕ, pos, ◌-ℤ◌, ◌≤ℤ◌, ◌<ℤ◌, int_lt, map, sum_by, int_le, not, is_some, All, find, reverse, option_to_list, IfOk, IfSome, OnOk};
ghost use Rattle.editions.specs.Covers.{IsLeastCover};
ghost use Rattle.fixed_units.specs.Quantities.{IsDischarge, IsStage, IsStamp, most_discharge, most_gap};
ghost use Rattle.unit_discharge.specs.Unit.{most_corrected};
ghost use Rattle.curves.specs.Entries.{IsSeries};
ghost use Rattle.curves.specs.Corrections.{AreCorrections, entries_of};
ghost use Rattle.day_inputs.specs.declared.day_inputs.DayInputs.TheVariants.{Day};
ghost use Rattle.readings.specs.Readings as readings_of;
ghost use Rattle.readings.specs.Readings.{IsRising};
ghost use Rattle.readings.specs.Window as windows;
ghost use Rattle.day_inputs.specs.DayInputs as inputs;
ghost use Rattle.fixed_units.specs.Calendar.{shortest_day, longest_day};
ghost use Rattle.day_inputs.specs.DayInputs.{AreParts};
ghost use Rattle.daily_values.specs.DayValue as values;
ghost use Rattle.daily_values.specs.DayValue.{counts_of, extremes_of, own_units, pair_seconds, sum_of, twice_areas, value_of};
ghost use Rattle.daily_values.specs.Figures.{AreCounts, IsSumWithin, IsValueWithin};
ghost use Rattle.ratings.specs.Numbered.{AreRatings};

use crate::counts::{Counts, add_unit, is_within};
use crate::day_values::{DayValue, Figures};
use crate::extremes::{Extremes, Quantity, is_less};
use crate::sums::{
    Point, Sum, add_pair, day_length, discharge_point, seconds_between, stage_point,
};
use crate::totals::unit_of;
use curves::{CorrectionSets, Shifts};
use day_inputs::{DayInputs, DayParts, Settings, with_window};
use fixed_units::{Flag, Micro, NoMemory, Reading, Second};
use ratings::Ratings;
use std::alloc::Global;
use unit_discharge::Unit;

/// The value of the day from `from` until `until`, 20 to 28 hours later, of a station with a gap tolerance of 1 to 720
/// minutes, these rounding arrays, correction sets, shifts, ratings and readings at stamps, rising by instant, with this
/// estimate of its mean discharge, if one stands, and this least cover, if one is in force.
pub fn day_value(
    alloc: Global,
    settings: Settings,
    from: Second,
    until: Second,
    corrections: &CorrectionSets,
    shifts: &Shifts,
    ratings: &Ratings,
    readings: &[Reading],
    estimate: Option<Micro>,
    least: Option<u32>,
) -> Result<DayValue, NoMemory>
    requires gap_low { 1 ≤ settings.gap }
    requires gap_high { settings.gap ≤ most_gap }
    requires shortest { pos shortest_day ≤ℤ (until -ℤ from) }
    requires longest { (until -ℤ from) ≤ℤ pos longest_day }
    requires corrections { AreCorrections (entries_of corrections.now) }
    requires shifts { IsSeries shifts.now.series.entries }
    requires ratings { AreRatings ratings.now.ratings }
    requires rising { IsRising readings.now }
    requires stamps { All (λ r. IsStamp r.at) readings.now }
    requires stages { All (λ r. IsStage r.raw) readings.now }
    requires estimate { IfSome estimate IsDischarge }
    requires least { IfSome least IsLeastCover }
    ensures { IfOk result (λ v. v ≡ values.day_value (inputs.day_inputs settings.gap settings.stage_array settings.discharge_array from until (entries_of corrections.now) shifts.now.series.entries ratings.now.ratings readings.now estimate least)) }
{
    let window = window(alloc, settings.gap, from, until, readings)?;
    let inputs = with_window(
        alloc,
        settings,
        from,
        until,
        corrections,
        shifts,
        ratings,
        window,
        estimate,
        least,
    )?;
    match &inputs {
        DayInputs::Empty => Ok(DayValue::Empty),
        DayInputs::Day(parts) => value_of_parts(alloc, parts),
    }
}

/// The value of a day of these inputs.
fn value_of_parts(alloc: Global, parts: &DayParts) -> Result<DayValue, NoMemory>
    requires { AreParts parts.now }
    ensures { IfOk result (λ v. v ≡ values.day_value (Day parts.now)) }
{
    Ok(DayValue::Day(Figures::new(
        day_length(parts),
        count_units(parts),
        sum_stages(alloc, parts)?,
        sum_discharges(alloc, parts)?,
        find_extremes(parts),
        parts.estimate,
        parts.stage_array,
        parts.discharge_array,
        parts.least,
    )))
}

/// The sum for the stage.
fn sum_stages(alloc: Global, parts: &DayParts) -> Result<Sum, NoMemory>
    requires { AreParts parts.now }
    ensures sum { IfOk result (λ sum. sum ≡ sum_of values.stage_point parts.now) }
    ensures within { IfOk result (λ sum. IsSumWithin most_corrected most_corrected sum) }
{
    let points = stage_points(alloc, parts)?;
    let pairs = neighbours(alloc, &points)?;
    Ok(add_areas(parts, &pairs))
}

/// The sum for the discharge.
fn sum_discharges(alloc: Global, parts: &DayParts) -> Result<Sum, NoMemory>
    requires { AreParts parts.now }
    ensures sum { IfOk result (λ sum. sum ≡ sum_of values.discharge_point parts.now) }
    ensures within { IfOk result (λ sum. IsSumWithin 0 most_discharge sum) }
{
    let points = discharge_points(alloc, parts)?;
    let pairs = neighbours(alloc, &points)?;
    Ok(add_areas(parts, &pairs))
}

/// The greatest and the least stage and discharge.
fn find_extremes(parts: &DayParts) -> Extremes
    requires { AreParts parts.now }
    ensures { result ≡ extremes_of parts.now }
{
    Extremes {
        max_stage: find_greatest(parts, Quantity::Stage),
        min_stage: find_least(parts, Quantity::Stage),
        max_discharge: find_greatest(parts, Quantity::Discharge),
        min_discharge: find_least(parts, Quantity::Discharge),
    }
}

/// The first unit value of the day with a value that none exceeds.
fn find_greatest(parts: &DayParts, quantity: Quantity) -> Option<Unit>
    requires { AreParts parts.now }
    ensures { result ≡ values.greatest (value_of quantity) (own_units parts.now) }
{
    for reading in parts.window.as_slice() {
        let unit = unit_of(parts, reading);
        if is_greatest(parts, &unit, quantity) {
            return Some(unit);
        }
    }
    None
}

/// Whether a unit value is of the day and has a value that none exceeds.
fn is_greatest(parts: &DayParts, unit: &Unit, quantity: Quantity) -> bool
    requires { AreParts parts.now }
    ensures { result ≡ (values.is_of_day parts.now unit.now && (is_some (value_of quantity unit.now)
        && not (list_any (λ v. values.is_less (value_of quantity unit.now) (value_of quantity v)) (own_units parts.now)))) }
{
    is_within(parts, unit.at)
        && (quantity.value(unit).is_some() && !is_exceeded(parts, unit, quantity))
}

/// Whether the value of a unit value is exceeded.
fn is_exceeded(parts: &DayParts, unit: &Unit, quantity: Quantity) -> bool
    requires { AreParts parts.now }
    ensures { result ≡ list_any (λ v. values.is_less (value_of quantity unit.now) (value_of quantity v)) (own_units parts.now) }
{
    for reading in parts.window.as_slice() {
        let other = unit_of(parts, reading);
        if is_within(parts, other.at) && is_less(quantity.value(unit), quantity.value(&other)) {
            return true;
        }
    }
    false
}

/// The first unit value of the day with a value that exceeds none.
fn find_least(parts: &DayParts, quantity: Quantity) -> Option<Unit>
    requires { AreParts parts.now }
    ensures { result ≡ values.least (value_of quantity) (own_units parts.now) }
{
    for reading in parts.window.as_slice() {
        let unit = unit_of(parts, reading);
        if is_least(parts, &unit, quantity) {
            return Some(unit);
        }
    }
    None
}

/// Whether a unit value is of the day and has a value that exceeds none.
fn is_least(parts: &DayParts, unit: &Unit, quantity: Quantity) -> bool
    requires { AreParts parts.now }
    ensures { result ≡ (values.is_of_day parts.now unit.now && (is_some (value_of quantity unit.now)
        && not (list_any (λ v. values.is_less (value_of quantity v) (value_of quantity unit.now)) (own_units parts.now)))) }
{
    is_within(parts, unit.at) && (quantity.value(unit).is_some() && !exceeds(parts, unit, quantity))
}

/// Whether the value of a unit value exceeds another one.
fn exceeds(parts: &DayParts, unit: &Unit, quantity: Quantity) -> bool
    requires { AreParts parts.now }
    ensures { result ≡ list_any (λ v. values.is_less (value_of quantity v) (value_of quantity unit.now)) (own_units parts.now) }
{
    for reading in parts.window.as_slice() {
        let other = unit_of(parts, reading);
        if is_within(parts, other.at) && is_less(quantity.value(&other), quantity.value(unit)) {
            return true;
        }
    }
    false
}

/// The stages of the readings of a day's window.
fn stage_points(alloc: Global, parts: &DayParts) -> Result<Vec<Point>, NoMemory>
    requires { AreParts parts.now }
    ensures points { IfOk result (λ v. v.items ≡ map values.stage_point (values.units_of parts.now)) }
    ensures within { IfOk result (λ v. All (λ p. IsValueWithin most_corrected most_corrected p.1) v.items) }
{
    let mut points = Vec::new(alloc);
    for reading in parts.window.as_slice() {
        points.push(stage_of(parts, reading))?;
    }
    Ok(points)
}

/// The stage of a reading of the day at its instant.
fn stage_of(parts: &DayParts, reading: &Reading) -> Point
    requires parts { AreParts parts.now }
    requires stage { IsStage reading.now.raw }
    ensures point { result ≡ values.stage_point (values.unit_of parts.now reading.now) }
    ensures within { IsValueWithin most_corrected most_corrected result.1 }
{
    stage_point(&unit_of(parts, reading))
}

/// The discharges of the readings of a day's window.
fn discharge_points(alloc: Global, parts: &DayParts) -> Result<Vec<Point>, NoMemory>
    requires { AreParts parts.now }
    ensures points { IfOk result (λ v. v.items ≡ map values.discharge_point (values.units_of parts.now)) }
    ensures within { IfOk result (λ v. All (λ p. IsValueWithin 0 most_discharge p.1) v.items) }
{
    let mut points = Vec::new(alloc);
    for reading in parts.window.as_slice() {
        points.push(discharge_of(parts, reading))?;
    }
    Ok(points)
}

/// The discharge of a reading of the day at its instant, where it has one.
fn discharge_of(parts: &DayParts, reading: &Reading) -> Point
    requires parts { AreParts parts.now }
    requires stage { IsStage reading.now.raw }
    ensures point { result ≡ values.discharge_point (values.unit_of parts.now reading.now) }
    ensures within { IsValueWithin 0 most_discharge result.1 }
{
    discharge_point(&unit_of(parts, reading))
}

/// The window of the day: its used readings between the nearest used ones on either side that are near enough.
fn window(
    alloc: Global,
    gap: u32,
    from: Second,
    until: Second,
    readings: &[Reading],
) -> Result<Vec<Reading>, NoMemory>
    ensures { IfOk result (λ v. v.items ≡ windows.window from until (pos (60 * gap)) readings.now) }
{
    let day = inner(alloc, from, until, readings)?;
    if day.is_empty() {
        return Ok(day);
    }
    let mut window = Vec::new(alloc);
    push_some(&mut window, neighbour_before(gap, from, readings))?;
    window.extend_from_slice(&day)?;
    push_some(&mut window, neighbour_after(gap, until, readings))?;
    Ok(window)
}

/// The used readings of the day.
fn inner(
    alloc: Global,
    from: Second,
    until: Second,
    readings: &[Reading],
) -> Result<Vec<Reading>, NoMemory>
    ensures { IfOk result (λ v. v.items ≡ windows.inner from until readings.now) }
{
    let day = readings
        .iter()
        .copied()
        .filter(|r| is_inner(from, until, r))
        .collect(alloc)?;
    Ok(day)
}

/// The last used reading before the day, if it is near enough.
fn neighbour_before(gap: u32, from: Second, readings: &[Reading]) -> Option<Reading>
    ensures { result ≡ windows.neighbour_before from (pos (60 * gap)) readings.now }
{
    last_early(from, readings).filter(|r| is_near(gap, r.at, from))
}

/// The last used reading before the day.
fn last_early(from: Second, readings: &[Reading]) -> Option<Reading>
    ensures { result ≡ find (λ r. readings_of.is_used r && int_lt r.at from) (reverse readings.now) }
{
    readings.iter().rev().copied().find(|r| is_early(from, r))
}

/// The first used reading behind the day, if it is near enough.
fn neighbour_after(gap: u32, until: Second, readings: &[Reading]) -> Option<Reading>
    ensures { result ≡ windows.neighbour_after until (pos (60 * gap)) readings.now }
{
    first_late(until, readings).filter(|r| is_near(gap, until, r.at))
}

/// The first used reading behind the day.
fn first_late(until: Second, readings: &[Reading]) -> Option<Reading>
    ensures { result ≡ find (λ r. readings_of.is_used r && int_le until r.at) readings.now }
{
    readings.iter().copied().find(|r| is_late(until, r))
}

/// Whether a reading is used.
fn is_used(reading: &Reading) -> bool
    ensures { result ≡ readings_of.is_used reading.now }
{
    match reading.flag {
        Flag::Usable | Flag::Affected => true,
        Flag::Erroneous => false,
    }
}

/// Whether a reading is used and of the day.
fn is_inner(from: Second, until: Second, reading: &Reading) -> bool
    ensures { result ≡ (readings_of.is_used reading.now && (int_le from reading.now.at && int_lt reading.now.at until)) }
{
    let at = reading.at.get();
    is_used(reading) && (from.get() <= at && at < until.get())
}

/// Whether a reading is used and before the day.
fn is_early(from: Second, reading: &Reading) -> bool
    ensures { result ≡ (readings_of.is_used reading.now && int_lt reading.now.at from) }
{
    is_used(reading) && reading.at.get() < from.get()
}

/// Whether a reading is used and behind the day.
fn is_late(until: Second, reading: &Reading) -> bool
    ensures { result ≡ (readings_of.is_used reading.now && int_le until reading.now.at) }
{
    is_used(reading) && until.get() <= reading.at.get()
}

/// Whether one instant is at most so many minutes before another.
fn is_near(gap: u32, earlier: Second, later: Second) -> bool
    ensures { result ≡ int_le (later -ℤ earlier) (pos (60 * gap)) }
{
    later.get() - earlier.get() <= 60 * i64::from(gap)
}

/// Adds a reading, where there is one.
fn push_some(list: &mut Vec<Reading>, reading: Option<Reading>) -> Result<(), NoMemory>
    ensures { OnOk result (list.new.items ≡ list.old.items ++ option_to_list reading) }
{
    if let Some(reading) = reading {
        list.push(reading)?;
    }
    Ok(())
}

/// Each point with the one behind it.
fn neighbours(alloc: Global, points: &[Point]) -> Result<Vec<(Point, Point)>, NoMemory>
    ensures { IfOk result (λ v. v.items ≡ values.neighbours points.now) }
{
    let mut pairs = Vec::new(alloc);
    let mut rest = points;
    while let [left, right, ..] = rest {
        pairs.push((*left, *right))?;
        rest = &rest[1..];
    }
    Ok(pairs)
}

/// The sum over pairs of points of a day.
fn add_areas(parts: &DayParts, pairs: &[(Point, Point)]) -> Sum
    requires parts { AreParts parts.now }
    requires rising { All (λ p. p.0.0 <ℤ p.1.0) pairs.now }
    requires room { sum_by (pair_seconds parts.now) pairs.now ≤ longest_day }
    ensures twice { result.twice ≡ twice_areas parts.now pairs.now }
    ensures covered { result.covered ≡ sum_by (pair_seconds parts.now) pairs.now }
    ensures within { (below above : ℕ) → All (λ p. IsValueWithin below above p.0.1 × IsValueWithin below above p.1.1) pairs.now → IsSumWithin below above result }
{
    let mut sum = Sum::none();
    for pair in pairs {
        let seconds = seconds_between(parts, pair.0.0, pair.1.0);
        add_pair(&mut sum, parts, &pair.0, &pair.1, seconds);
    }
    sum
}

/// The counts of a day's readings.
fn count_units(parts: &DayParts) -> Counts
    requires { AreParts parts.now }
    ensures counts { result ≡ counts_of parts.now }
    ensures within { AreCounts (values.day_length parts.now) result }
{
    let mut counts = Counts::none();
    for reading in parts.window.as_slice() {
        counts = add_unit(counts, parts, &unit_of(parts, reading));
    }
    counts
}
