//! Points of two quantities each, as of a curve or a rating table: a search among those whose first quantities rise, and
//! the straight line between two.

ghost use Rattle.std.specs.Prelude.{◌≡◌, ◌≤◌, length, take, drop, ◌≤ℤ◌, ◌<ℤ◌};
ghost use Rattle.rising.specs.Lists.{IsRising, up_to, after};
ghost use Rattle.fixed_units.specs.Lines.{line_at};

use crate::lines::line_at;
use crate::quantities::Micro;

/// How many points stand up to a number.
pub fn count_to(points: &[(Micro, Micro)], x: Micro) -> usize
    requires { IsRising (λ p. p.0) points.now }
    ensures within { result ≤ length points.now }
    ensures front { take result points.now ≡ up_to (λ p. p.0) x points.now }
    ensures back { drop result points.now ≡ after (λ p. p.0) x points.now }
{
    points.partition_point(|p| p.0 <= x)
}

/// What the straight line from one point to another has at `x`, rounded once to a millionth, half away from zero.
pub fn line_between(from: (Micro, Micro), to: (Micro, Micro), x: Micro) -> Micro
    requires rising { from.0 <ℤ to.0 }
    requires first { from.0 ≤ℤ x }
    requires last { x ≤ℤ to.0 }
    ensures { result ≡ line_at from to x }
{
    line_at((from.0.get(), from.1), (to.0.get(), to.1), x.get())
}
