//! Straight lines between two points, read at whole numbers.

ghost use Rattle.std.specs.Prelude.{◌≡◌, ◌*◌, ◌^◌, true, IfSome, ℤ, pos, neg_ℤ, ◌+ℤ◌, ◌-ℤ◌, ◌*ℤ◌, ◌≤ℤ◌, ◌<ℤ◌};
ghost use Rattle.fixed_units.specs.Lines.{line_at};
ghost use Rattle.fixed_units.specs.Rounding.{round};
ghost use Rattle.fixed_units.specs.Quantities.{IsMicro, IsWithin, most_millionths};

use crate::quantities::Micro;
use crate::rounding::{div_half_away, div_small};

/// The greatest rise and run of a line that is read by numbers of 64 bits: twice their product fits, with the run.
const MOST_SMALL: i64 = 2_147_483_648;

/// What the straight line from one point to another has at `x`, rounded once to a millionth, half away from zero. It
/// keeps to each range that has both its ends.
pub fn line_at(from: (i64, Micro), to: (i64, Micro), x: i64) -> Micro
    requires rising { from.0 <ℤ to.0 }
    requires first { from.0 ≤ℤ x }
    requires last { x ≤ℤ to.0 }
    ensures value { result ≡ line_at from to x }
    ensures between { (least greatest : ℤ) → IsWithin least greatest from.1 → IsWithin least greatest to.1 → IsWithin least greatest result }
{
    sum(from.1, to.1, risen(from, to, x))
}

/// A line meets the points that it is drawn through.
pub fn lines_meet_their_ends()
    ensures first { (p q : ℤ × ℤ) → p.0 <ℤ q.0 → line_at p q p.0 ≡ p.1 }
    ensures last { (p q : ℤ × ℤ) → p.0 <ℤ q.0 → line_at p q q.0 ≡ q.1 }
{}

/// How much the straight line from one point to another has risen at `x`, rounded. Most lines are short.
#[inline(always)]
fn risen(from: (i64, Micro), to: (i64, Micro), x: i64) -> i128
    requires rising { from.0 <ℤ to.0 }
    requires first { from.0 ≤ℤ x }
    requires last { x ≤ℤ to.0 }
    ensures { result ≡ round ((to.1 -ℤ from.1) *ℤ (x -ℤ from.0)) (to.0 -ℤ from.0) }
{
    match small_run(from.0, to.0) {
        Some(run) if has_small_rise(from.1, to.1) => i128::from(risen_little(
            to.1.get() - from.1.get(),
            x - from.0,
            run,
        )),
        _ => risen_far(from, to, x),
    }
}

/// A run, where it is small.
#[inline(always)]
fn small_run(from: i64, to: i64) -> Option<i64>
    requires { from <ℤ to }
    ensures run { IfSome result (λ run. run ≡ to -ℤ from) }
    ensures small { IfSome result (λ run. run ≤ℤ pos (2 ^ 31)) }
{
    let run = to.wrapping_sub(from);
    if 0 < run && run <= MOST_SMALL {
        Some(run)
    } else {
        None
    }
}

/// Whether a rise is small.
#[inline(always)]
fn has_small_rise(from: Micro, to: Micro) -> bool
    ensures low { result ≡ true → neg_ℤ (pos (2 ^ 31)) ≤ℤ (to -ℤ from) }
    ensures high { result ≡ true → (to -ℤ from) ≤ℤ pos (2 ^ 31) }
{
    let rise = to.get() - from.get();
    -MOST_SMALL <= rise && rise <= MOST_SMALL
}

/// The rounded part of a small rise that is gone with a part of a small run.
#[inline(always)]
fn risen_little(rise: i64, gone: i64, run: i64) -> i64
    requires low { neg_ℤ (pos (2 ^ 31)) ≤ℤ rise }
    requires high { rise ≤ℤ pos (2 ^ 31) }
    requires some { pos 0 ≤ℤ gone }
    requires part { gone ≤ℤ run }
    requires run { pos 0 <ℤ run }
    requires small { run ≤ℤ pos (2 ^ 31) }
    ensures { result ≡ round (rise *ℤ gone) run }
{
    div_small(rise * gone, run)
}

/// How much the straight line from one point to another has risen at `x`, rounded, however far they are from each other.
#[inline(never)]
fn risen_far(from: (i64, Micro), to: (i64, Micro), x: i64) -> i128
    requires rising { from.0 <ℤ to.0 }
    requires first { from.0 ≤ℤ x }
    requires last { x ≤ℤ to.0 }
    ensures { result ≡ round ((to.1 -ℤ from.1) *ℤ (x -ℤ from.0)) (to.0 -ℤ from.0) }
{
    let area = product(rise(from.1, to.1), difference(from.0, x));
    div_half_away(area, difference(from.0, to.0))
}

/// How much more one number is than another.
fn difference(from: i64, to: i64) -> i128
    ensures { result ≡ to -ℤ from }
{
    i128::from(to) - i128::from(from)
}

/// How much more one quantity is than another.
fn rise(from: Micro, to: Micro) -> i128
    ensures value { result ≡ to -ℤ from }
    ensures low { neg_ℤ (pos (2 * most_millionths)) ≤ℤ result }
    ensures high { result ≤ℤ pos (2 * most_millionths) }
{
    difference(from.get(), to.get())
}

/// The product of a rise and of what is gone of a run.
fn product(rise: i128, gone: i128) -> i128
    requires low { neg_ℤ (pos (2 * most_millionths)) ≤ℤ rise }
    requires high { rise ≤ℤ pos (2 * most_millionths) }
    requires some { pos 0 ≤ℤ gone }
    requires fits { gone ≤ℤ pos (2 ^ 64) }
    ensures value { result ≡ rise *ℤ gone }
    ensures low { neg_ℤ (pos (10 ^ 37)) ≤ℤ result }
    ensures high { result ≤ℤ pos (10 ^ 37) }
{
    rise * gone
}

/// A quantity and what it rises on the way to another one.
fn sum(from: Micro, to: Micro, risen: i128) -> Micro
    requires { IsMicro from → IsMicro to → IsMicro (from +ℤ risen) }
    ensures { result ≡ from +ℤ risen }
{
    let _to = to.get();
    quantity(i128::from(from.get()) + risen)
}

/// The quantity of that many millionths.
fn quantity(millionths: i128) -> Micro
    requires { IsMicro millionths }
    ensures { result ≡ millionths }
{
    Micro::of_millionths(millionths as i64)
}
