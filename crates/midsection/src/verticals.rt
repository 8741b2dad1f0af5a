//! The verticals of a measurement of discharge, and the mean velocity in each.

ghost use Rattle.std.specs.Prelude.{◌≡◌, pos, ◌+ℤ◌, ◌*ℤ◌};
ghost use Rattle.midsection.specs.Verticals as verticals;

use crate::fractions::Fraction;
use fixed_units::Micro;

/// The greatest distance, 100,000 feet, in millionths.
const MOST_DISTANCE: i64 = 100_000_000_000;

/// The greatest depth, 1,000 feet, in millionths.
const MOST_DEPTH: i64 = 1_000_000_000;

/// The greatest magnitude of a velocity, 100 feet per second, in millionths.
const MOST_VELOCITY: i64 = 100_000_000;

/// A vertical of a measurement of discharge: where it stands in the section, how deep the stream is there, and how fast it was measured to
/// flow at two, six and eight tenths of the depth.
#[derive(Clone, Copy, Debug, PartialEq, Eq)]
pub struct Vertical {
    /// The distance from the initial point, in millionths of a foot.
    pub distance: Micro,
    /// The depth of the stream, in millionths of a foot.
    pub depth: Micro,
    /// The velocity at two tenths of the depth below the surface, in millionths of a foot per second, if it was measured.
    pub v2: Option<Micro>,
    /// That at six tenths.
    pub v6: Option<Micro>,
    /// That at eight tenths.
    pub v8: Option<Micro>,
}

impl Vertical {
    /// Whether each number is in its range: the distance from 0 to 100,000 feet, the depth from 0 to 1,000, each velocity from -100 to
    /// 100 feet per second.
    pub(crate) fn is_in_range(&self) -> bool
        ensures { result ≡ verticals.is_in_range self.now }
    {
        is_distance(self.distance)
            && is_depth(self.depth)
            && is_velocity_or_none(self.v2)
            && is_velocity_or_none(self.v6)
            && is_velocity_or_none(self.v8)
    }

    /// The mean velocity: by one of the methods, or 0 where there is no depth and none was measured. `None` by any other.
    pub(crate) fn velocity(&self) -> Option<Fraction>
        ensures { result ≡ verticals.velocity_by_method self.now }
    {
        if self.depth.get() == 0 {
            no_velocity(self.v2, self.v6, self.v8)
        } else {
            mean_velocity(self.v2, self.v6, self.v8)
        }
    }
}

/// Whether that is a distance.
fn is_distance(distance: Micro) -> bool
    ensures { result ≡ verticals.is_distance distance }
{
    (0..=MOST_DISTANCE).contains(&distance.get())
}

/// Whether that is a depth.
fn is_depth(depth: Micro) -> bool
    ensures { result ≡ verticals.is_depth depth }
{
    (0..=MOST_DEPTH).contains(&depth.get())
}

/// Whether a velocity is in range, or was not measured.
fn is_velocity_or_none(velocity: Option<Micro>) -> bool
    ensures { result ≡ verticals.is_velocity_or_none velocity }
{
    match velocity {
        Some(velocity) => (-MOST_VELOCITY..=MOST_VELOCITY).contains(&velocity.get()),
        None => true,
    }
}

/// The velocity where there is no depth.
fn no_velocity(v2: Option<Micro>, v6: Option<Micro>, v8: Option<Micro>) -> Option<Fraction>
    ensures { result ≡ verticals.no_velocity v2 v6 v8 }
{
    match (v2, v6, v8) {
        (None, None, None) => Some(Fraction { num: 0, den: 1 }),
        _ => None,
    }
}

/// The mean velocity by the velocities that were measured.
fn mean_velocity(v2: Option<Micro>, v6: Option<Micro>, v8: Option<Micro>) -> Option<Fraction>
    ensures { result ≡ verticals.mean_velocity v2 v6 v8 }
{
    match (v2, v6, v8) {
        (None, Some(v6), None) => Some(Fraction {
            num: v6.get(),
            den: 1,
        }),
        (Some(v2), None, Some(v8)) => Some(Fraction {
            num: v2.get() + v8.get(),
            den: 2,
        }),
        (Some(v2), Some(v6), Some(v8)) => Some(Fraction {
            num: weighted(v2, v6, v8),
            den: 4,
        }),
        _ => None,
    }
}

/// Four times the mean of three velocities, of which the middle one counts twice.
fn weighted(v2: Micro, v6: Micro, v8: Micro) -> i64
    ensures { result ≡ v2 +ℤ pos 2 *ℤ v6 +ℤ v8 }
{
    let upper = v2.get();
    let middle = v6.get();
    let lower = v8.get();
    upper + 2 * middle + lower
}
