//! Sums over trapezoids between the values of neighbouring points of a day.

ghost use Rattle.std.specs.Prelude.{◌≡◌, ◌+◌, ◌*◌, ◌≤◌, ℕ, ℤ, pos, neg_ℤ, ◌+ℤ◌, ◌-ℤ◌, ◌≤ℤ◌, ◌<ℤ◌};
ghost use Rattle.std.specs.Int.{int_max, int_min};
ghost use Rattle.fixed_units.specs.Lines as lines;
ghost use Rattle.fixed_units.specs.Quantities.{IsWithin, most_millionths, most_seconds};
ghost use Rattle.fixed_units.specs.Calendar.{longest_day};
ghost use Rattle.day_inputs.specs.DayInputs.{AreParts};
ghost use Rattle.daily_values.specs.DayValue as values;
ghost use Rattle.daily_values.specs.DayValue.{discharge_point, pair_area, pair_seconds, stage_point};
ghost use Rattle.daily_values.specs.Figures.{IsAreaWithin, IsSumWithin, IsValueWithin};

use day_inputs::DayParts;
use fixed_units::{Micro, Second, line_at};
use unit_discharge::Unit;

/// An instant, and the value there, where there is one.
pub(crate) type Point = (Second, Option<Micro>);

/// Twice an area in millionths of a foot, or of a cubic foot per second, times seconds, and the seconds that it covers. Half
/// the one over the other is a mean.
#[derive(Clone, Copy, Debug, PartialEq, Eq)]
pub struct Sum {
    /// Twice the area: for each second that is covered at most 2.06 * 10^11 either way where stages are summed, and 0 to
    /// 2 * 10^13 where discharges are.
    pub twice: i128,
    /// How many seconds are covered, at most the 72,000 to 100,800 of the day.
    pub covered: u32,
}

impl Sum {
    ghost use Rattle.std.specs.Prelude.{◌≡◌, pos};

    /// The sum over no trapezoid.
    pub(crate) fn none() -> Sum
        ensures { result ≡ record { twice = pos 0; covered = 0 } }
    {
        Sum {
            twice: 0,
            covered: 0,
        }
    }
}

/// The stage of a unit value at its instant.
pub(crate) fn stage_point(unit: &Unit) -> Point
    ensures { result ≡ stage_point unit.now }
{
    (unit.at, Some(unit.stage))
}

/// The discharge of a unit value at its instant, where it has one.
pub(crate) fn discharge_point(unit: &Unit) -> Point
    ensures { result ≡ discharge_point unit.now }
{
    (unit.at, unit.discharge.ok())
}

/// Adds the area under the line between two points to a sum, cut to the day. Nothing comes to it where one of the two
/// values is missing.
#[inline(always)]
pub(crate) fn add_pair(sum: &mut Sum, parts: &DayParts, left: &Point, right: &Point, seconds: u32)
    requires parts { AreParts parts.now }
    requires rising { left.now.0 <ℤ right.now.0 }
    requires seconds { seconds ≡ values.seconds_between parts.now left.now.0 right.now.0 }
    requires room { sum.old.covered + pair_seconds parts.now (left.now, right.now) ≤ longest_day }
    requires fits { IsSumWithin most_millionths most_millionths sum.old }
    ensures twice { sum.new.twice ≡ sum.old.twice +ℤ pair_area parts.now (left.now, right.now) }
    ensures covered { sum.new.covered ≡ sum.old.covered + pair_seconds parts.now (left.now, right.now) }
    ensures fits { IsSumWithin most_millionths most_millionths sum.new }
    ensures within { (below above : ℕ) → IsValueWithin below above left.now.1 → IsValueWithin below above right.now.1 → IsSumWithin below above sum.old → IsSumWithin below above sum.new }
{
    let Some(from) = left.1 else {
        return;
    };
    let Some(to) = right.1 else {
        return;
    };
    let twice = twice_area(parts, &(left.0, from), &(right.0, to), seconds);
    sum.twice += twice;
    sum.covered += seconds;
}

/// How many seconds of the day lie between two instants that are near enough to each other.
pub(crate) fn seconds_between(parts: &DayParts, from: Second, to: Second) -> u32
    requires { AreParts parts.now }
    ensures { result ≡ values.seconds_between parts.now from to }
{
    if elapsed(from, to) > 60 * i64::from(parts.gap) {
        return 0;
    }
    positive_part(elapsed(left_end(parts, from), right_end(parts, to)))
}

/// How many seconds a day has.
pub(crate) fn day_length(parts: &DayParts) -> u32
    requires { AreParts parts.now }
    ensures { result ≡ values.day_length parts.now }
{
    positive_part(elapsed(parts.from, parts.until))
}

/// The first instant of the day behind another.
fn left_end(parts: &DayParts, at: Second) -> Second
    ensures { result ≡ int_max parts.now.from at }
{
    parts.from.max(at)
}

/// The last instant of the day before another.
fn right_end(parts: &DayParts, at: Second) -> Second
    ensures { result ≡ int_min parts.now.until at }
{
    parts.until.min(at)
}

/// How many seconds it is from one instant to another.
fn elapsed(from: Second, until: Second) -> i64
    ensures value { result ≡ until -ℤ from }
    ensures low { neg_ℤ (pos (2 * most_seconds)) ≤ℤ result }
    ensures high { result ≤ℤ pos (2 * most_seconds) }
{
    until.get() - from.get()
}

/// The number, or 0 where it is below 0.
fn positive_part(number: i64) -> u32
    requires { number ≤ℤ pos longest_day }
    ensures { result ≡ values.positive_part number }
{
    number.max(0) as u32
}

/// Twice the area under the line between two values at their instants that is cut to the day.
fn twice_area(
    parts: &DayParts,
    left: &(Second, Micro),
    right: &(Second, Micro),
    seconds: u32,
) -> i128
    requires parts { AreParts parts.now }
    requires rising { left.now.0 <ℤ right.now.0 }
    requires seconds { seconds ≡ values.seconds_between parts.now left.now.0 right.now.0 }
    ensures area { result ≡ values.twice_area parts.now left.now right.now }
    ensures fits { IsAreaWithin most_millionths most_millionths seconds result }
    ensures within { (below above : ℕ) → IsWithin (neg_ℤ (pos below)) (pos above) left.now.1 → IsWithin (neg_ℤ (pos below)) (pos above) right.now.1 → IsAreaWithin below above seconds result }
{
    if seconds == 0 {
        return 0;
    }
    let first = first_value(left, right, left_end(parts, left.0));
    let last = last_value(left, right, right_end(parts, right.0));
    i128::from(first.get() + last.get()) * i128::from(seconds)
}

/// The value at an instant on the line between two others at theirs, which at the first of them is its value. Only the lines
/// that the day cuts are read between their ends.
fn first_value(left: &(Second, Micro), right: &(Second, Micro), at: Second) -> Micro
    requires rising { left.now.0 <ℤ right.now.0 }
    requires from { left.now.0 ≤ℤ at }
    requires until { at ≤ℤ right.now.0 }
    ensures value { result ≡ lines.line_at left.now right.now at }
    ensures between { (least greatest : ℤ) → IsWithin least greatest left.now.1 → IsWithin least greatest right.now.1 → IsWithin least greatest result }
{
    if at == left.0 {
        left.1
    } else {
        value_between(*left, *right, at)
    }
}

/// The value at an instant on the line between two others at theirs, which at the last of them is its value.
fn last_value(left: &(Second, Micro), right: &(Second, Micro), at: Second) -> Micro
    requires rising { left.now.0 <ℤ right.now.0 }
    requires from { left.now.0 ≤ℤ at }
    requires until { at ≤ℤ right.now.0 }
    ensures value { result ≡ lines.line_at left.now right.now at }
    ensures between { (least greatest : ℤ) → IsWithin least greatest left.now.1 → IsWithin least greatest right.now.1 → IsWithin least greatest result }
{
    if at == right.0 {
        right.1
    } else {
        value_between(*left, *right, at)
    }
}

/// The value at an instant on the line between two others. They come by value, so that pairs that no day cuts need no place in memory.
#[inline(never)]
fn value_between(left: (Second, Micro), right: (Second, Micro), at: Second) -> Micro
    requires rising { left.0 <ℤ right.0 }
    requires from { left.0 ≤ℤ at }
    requires until { at ≤ℤ right.0 }
    ensures value { result ≡ lines.line_at left right at }
    ensures between { (least greatest : ℤ) → IsWithin least greatest left.1 → IsWithin least greatest right.1 → IsWithin least greatest result }
{
    line_at((left.0.get(), left.1), (right.0.get(), right.1), at.get())
}
