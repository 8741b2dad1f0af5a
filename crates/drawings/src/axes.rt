//! Axes: where a number stands along a line of the picture.

ghost use Rattle.std.specs.Prelude.{◌≡◌, pos, unsigned_abs, ◌≤ℤ◌, ◌<ℤ◌};
ghost use Rattle.fixed_units.specs.Lines.{line_at};

use fixed_units::rounding::round_is_rounded;
use fixed_units::{Micro, line_at};

/// An axis: the numbers from the least to the greatest stand along a line of the picture from one place to another, which may be the lesser
/// one.
#[derive(Clone, Copy)]
pub struct Axis {
    /// The number at the start.
    pub least: i64,
    /// The number at the end.
    pub greatest: i64,
    /// Where the axis starts, in units of the picture.
    pub start: u32,
    /// Where it ends.
    pub end: u32,
    ghost rises: { least <ℤ greatest },
}

impl Axis {
    ghost use Rattle.std.specs.Prelude.{IfSome};
    ghost use Rattle.drawings.specs.Axes.{IsPlace, place};

    /// The place of a number, in whole units of the picture, or `None` exactly where it is not on the axis.
    pub fn place(&self, number: i64) -> Option<u32>
        ensures value { result ≡ place self.now number }
        ensures near { IfSome result (λ p. IsPlace self.now number p) }
    {
        if number < self.least || self.greatest < number {
            return None;
        }
        Some(self.place_of_one(number))
    }

    /// The place of a number that is on the axis.
    fn place_of_one(&self, number: i64) -> u32
        requires low { self.now.least ≤ℤ number }
        requires high { number ≤ℤ self.now.greatest }
        ensures value { result ≡ unsigned_abs (line_at (self.now.least, pos self.now.start) (self.now.greatest, pos self.now.end) number) }
        ensures near { IsPlace self.now number result }
    {
        round_is_rounded();
        let start = Micro::of_millionths(i64::from(self.start));
        let end = Micro::of_millionths(i64::from(self.end));
        unsigned(line_at((self.least, start), (self.greatest, end), number))
    }
}

/// A number of units that is not below 0.
fn unsigned(units: Micro) -> u32
    requires low { pos 0 ≤ℤ units }
    requires high { units ≤ℤ pos 4_294_967_295 }
    ensures { result ≡ unsigned_abs units }
{
    units.get() as u32
}
