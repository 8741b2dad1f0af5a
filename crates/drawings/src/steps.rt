//! Round steps, and the range of one around two numbers.

ghost use Rattle.std.specs.Prelude.{◌≡◌, pos, ◌+ℤ◌, ◌-ℤ◌, ◌≤ℤ◌, ◌<ℤ◌, unwrap_or};
ghost use Rattle.fixed_units.specs.Quantities.{IsMicro, IsWithin};
ghost use Rattle.drawings.specs.Ranges.{above, first_step, floor_to, greatest_step, round_step};

use crate::ranges::Range;
use fixed_units::Micro;

/// The round steps: 1, 2 and 5 times each power of ten.
pub const STEPS: [i64; 51] = [
    1,
    2,
    5,
    10,
    20,
    50,
    100,
    200,
    500,
    1_000,
    2_000,
    5_000,
    10_000,
    20_000,
    50_000,
    100_000,
    200_000,
    500_000,
    1_000_000,
    2_000_000,
    5_000_000,
    10_000_000,
    20_000_000,
    50_000_000,
    100_000_000,
    200_000_000,
    500_000_000,
    1_000_000_000,
    2_000_000_000,
    5_000_000_000,
    10_000_000_000,
    20_000_000_000,
    50_000_000_000,
    100_000_000_000,
    200_000_000_000,
    500_000_000_000,
    1_000_000_000_000,
    2_000_000_000_000,
    5_000_000_000_000,
    10_000_000_000_000,
    20_000_000_000_000,
    50_000_000_000_000,
    100_000_000_000_000,
    200_000_000_000_000,
    500_000_000_000_000,
    1_000_000_000_000_000,
    2_000_000_000_000_000,
    5_000_000_000_000_000,
    10_000_000_000_000_000,
    20_000_000_000_000_000,
    50_000_000_000_000_000,
];

/// The greatest of them.
const GREATEST_STEP: i64 = 50_000_000_000_000_000;

/// The round range around two quantities: its ends are multiples of its step, which is the first of the round steps of which eight are no
/// less than what lies between the two.
pub fn round_range(least: Micro, greatest: Micro) -> Range
    requires { least ≤ℤ greatest }
    ensures step { result.step ≡ round_step (greatest -ℤ least) }
    ensures least { result.least ≡ floor_to result.step least }
    ensures greatest { result.greatest ≡ above result.step greatest }
    ensures low { result.least ≤ℤ least }
    ensures high { greatest <ℤ result.greatest }
{
    let step = round_step(length_of(least, greatest));
    range_from(
        floor_to(step, least.get()),
        above(step, greatest.get()),
        step,
    )
}

/// The range of these ends and that step.
fn range_from(least: i64, greatest: i64, step: i64) -> Range
    requires rises { least <ℤ greatest }
    requires positive { pos 0 <ℤ step }
    ensures least { result.least ≡ least }
    ensures greatest { result.greatest ≡ greatest }
    ensures step { result.step ≡ step }
{
    Range {
        least,
        greatest,
        step,
    }
}

/// The first of the round steps that is long enough.
fn round_step(length: i64) -> i64
    ensures value { result ≡ round_step length }
    ensures bounded { IsWithin (pos 1) greatest_step result }
{
    first_or_greatest(&STEPS, length)
}

/// The first of steps that is long enough, or else the greatest of all.
fn first_or_greatest(steps: &[i64], length: i64) -> i64
    ensures { result ≡ unwrap_or (first_step steps.now length) greatest_step }
{
    match first_step(steps, length) {
        Some(step) => step,
        None => GREATEST_STEP,
    }
}

/// The first of steps that is long enough.
fn first_step(steps: &[i64], length: i64) -> Option<i64>
    ensures { result ≡ first_step steps.now length }
{
    steps
        .iter()
        .copied()
        .find(|step| i128::from(length) <= 8 * i128::from(*step))
}

/// The multiple of a step at or below a number.
fn floor_to(step: i64, number: i64) -> i64
    requires step { IsWithin (pos 1) greatest_step step }
    requires number { IsMicro number }
    ensures value { result ≡ floor_to step number }
    ensures low { result ≤ℤ number }
    ensures high { number <ℤ (result +ℤ step) }
{
    number - number.rem_euclid(step)
}

/// The multiple of a step above a number.
fn above(step: i64, number: i64) -> i64
    requires step { IsWithin (pos 1) greatest_step step }
    requires number { IsMicro number }
    ensures value { result ≡ above step number }
    ensures high { number <ℤ result }
{
    floor_to(step, number) + step
}

/// How much more one quantity is than another.
fn length_of(least: Micro, greatest: Micro) -> i64
    ensures { result ≡ greatest -ℤ least }
{
    greatest.get() - least.get()
}
