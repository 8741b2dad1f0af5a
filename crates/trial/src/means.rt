//! The mean discharge of a day, exact.

ghost use Rattle.std.specs.Prelude.{◌≡◌, ◌≤◌, ◌<◌, ◌*◌, ℤ, pos, ◌≤ℤ◌, unsigned_abs};
ghost use Rattle.fixed_units.specs.Calendar.{longest_day};
ghost use Rattle.fixed_units.specs.Quantities.{most_discharge};
ghost use Rattle.fixed_units.specs.Rounding.{round};
ghost use Rattle.trial.specs.Figures as means;

use daily_values::{DayValue, Figures, Sum};
use fixed_units::div_half_away;

/// The mean discharge of a value, in millionths of a cubic foot per second, or 0 where there is none.
pub(crate) fn mean_of_value(value: &DayValue) -> u64
    ensures mean { result ≡ means.mean_of_value value.now }
    ensures few { result ≤ most_discharge }
{
    match value {
        DayValue::Empty => 0,
        DayValue::Day(figures) => mean_of(figures),
    }
}

/// The mean discharge of a day's figures, half away from zero, or 0 where the discharges cover less than a mean needs.
fn mean_of(figures: &Figures) -> u64
    ensures mean { result ≡ means.mean_of figures.now }
    ensures few { result ≤ most_discharge }
{
    let sum = figures.discharge();
    if sum.covered < figures.need() {
        return 0;
    }
    rounded_mean(&sum)
}

/// Half the area of a sum of discharges over the seconds that it covers.
fn rounded_mean(sum: &Sum) -> u64
    requires some { 0 < sum.now.covered }
    requires few { sum.now.covered ≤ longest_day }
    requires low { pos 0 ≤ℤ sum.now.twice }
    requires high { sum.now.twice ≤ℤ pos (2 * most_discharge * sum.now.covered) }
    ensures mean { result ≡ unsigned_abs (round sum.now.twice (pos (2 * sum.now.covered))) }
    ensures few { result ≤ most_discharge }
{
    div_half_away(sum.twice, 2 * i128::from(sum.covered)).unsigned_abs() as u64
}
