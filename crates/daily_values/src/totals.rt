//! What is summed and counted along the unit values of a day.

ghost use Rattle.std.specs.Prelude.{◌≡◌, ◌∷◌, ◌≤◌, IfOk};
ghost use Rattle.fixed_units.specs.Quantities.{IsDischarge, IsStage, most_discharge};
ghost use Rattle.unit_discharge.specs.Unit.{IsCorrected, most_corrected};
ghost use Rattle.day_inputs.specs.DayInputs.{AreParts};
ghost use Rattle.daily_values.specs.DayValue as values;
ghost use Rattle.daily_values.specs.DayValue.{counts_of, day_length, discharge_point, extremes_of, stage_point, sum_of};
ghost use Rattle.daily_values.specs.Figures.{AreCounts, IsSumWithin};

use crate::counts::{Counts, add_unit};
use crate::extremes::{Extremes, add_extremes};
use crate::sums::{Sum, add_pair, discharge_point, seconds_between, stage_point};
use day_inputs::DayParts;
use fixed_units::Reading;
use unit_discharge::{Unit, unit};

/// The sums, counts and extremes of a day.
#[derive(Clone, Copy, Drop)]
pub(crate) struct Totals {
    /// The sum for the stage.
    pub(crate) stage: Sum,
    /// The sum for the discharge.
    pub(crate) discharge: Sum,
    /// The readings of the day.
    pub(crate) counts: Counts,
    /// The greatest and the least of them.
    pub(crate) extremes: Extremes,
}

/// The sums, counts and extremes of a day, of which each unit value is made once.
pub(crate) fn totals_of(parts: &DayParts) -> Totals
    requires { AreParts parts.now }
    ensures stage { result.stage ≡ sum_of stage_point parts.now }
    ensures discharge { result.discharge ≡ sum_of discharge_point parts.now }
    ensures counts { result.counts ≡ counts_of parts.now }
    ensures extremes { result.extremes ≡ extremes_of parts.now }
    ensures counts_within { AreCounts (day_length parts.now) result.counts }
    ensures stage_covered { result.stage.covered ≤ day_length parts.now }
    ensures discharge_covered { result.discharge.covered ≤ day_length parts.now }
    ensures stage_within { IsSumWithin most_corrected most_corrected result.stage }
    ensures discharge_within { IsSumWithin 0 most_discharge result.discharge }
{
    match parts.window.as_slice().split_first() {
        Some((first, rest)) => totals_along(parts, *first, rest),
        None => Totals {
            stage: Sum::none(),
            discharge: Sum::none(),
            counts: Counts::none(),
            extremes: Extremes::none(),
        },
    }
}

/// The sums, counts and extremes along the readings of a day's window, of which the first one is given.
fn totals_along(parts: &DayParts, first: Reading, rest: &[Reading]) -> Totals
    requires parts { AreParts parts.now }
    requires window { parts.now.window ≡ first ∷ rest.now }
    ensures stage { result.stage ≡ sum_of stage_point parts.now }
    ensures discharge { result.discharge ≡ sum_of discharge_point parts.now }
    ensures counts { result.counts ≡ counts_of parts.now }
    ensures extremes { result.extremes ≡ extremes_of parts.now }
    ensures counts_within { AreCounts (day_length parts.now) result.counts }
    ensures stage_covered { result.stage.covered ≤ day_length parts.now }
    ensures discharge_covered { result.discharge.covered ≤ day_length parts.now }
    ensures stage_within { IsSumWithin most_corrected most_corrected result.stage }
    ensures discharge_within { IsSumWithin 0 most_discharge result.discharge }
{
    let mut left = unit_of(parts, &first);
    let mut stage = Sum::none();
    let mut discharge = Sum::none();
    let mut counts = add_unit(Counts::none(), parts, &left);
    let mut extremes = Extremes::none();
    add_extremes(&mut extremes, parts, &left);
    for reading in rest {
        let right = unit_of(parts, reading);
        let seconds = seconds_between(parts, left.at, right.at);
        add_pair(
            &mut stage,
            parts,
            &stage_point(&left),
            &stage_point(&right),
            seconds,
        );
        add_pair(
            &mut discharge,
            parts,
            &discharge_point(&left),
            &discharge_point(&right),
            seconds,
        );
        counts = add_unit(counts, parts, &right);
        add_extremes(&mut extremes, parts, &right);
        left = right;
    }
    Totals {
        stage,
        discharge,
        counts,
        extremes,
    }
}

/// The unit value of a reading of the day.
#[inline(always)]
pub(crate) fn unit_of(parts: &DayParts, reading: &Reading) -> Unit
    requires parts { AreParts parts.now }
    requires stage { IsStage reading.now.raw }
    ensures unit { result ≡ values.unit_of parts.now reading.now }
    ensures range { IsCorrected result.stage }
    ensures discharge { IfOk result.discharge (λ q. IsDischarge q) }
{
    unit(
        parts.first.as_slice(),
        parts.second.as_slice(),
        parts.third.as_slice(),
        parts.shifts.as_slice(),
        parts.periods.as_slice(),
        *reading,
    )
}
