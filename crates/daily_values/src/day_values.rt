//! The value of a day.

ghost use Rattle.std.specs.Prelude.{◌≡◌, ◌+◌, ◌≤◌};
ghost use Rattle.fixed_units.specs.Calendar.{longest_day};
ghost use Rattle.fixed_units.specs.Quantities.{most_millionths};
ghost use Rattle.day_inputs.specs.DayInputs.{AreInputs, AreParts};
ghost use Rattle.daily_values.specs.DayValue.{day_value, discharge_point, stage_point, sum_of};
ghost use Rattle.daily_values.specs.DayValue as values;
ghost use Rattle.daily_values.specs.Figures.{IsSumWithin, mean};
ghost use Rattle.day_inputs.specs.declared.day_inputs.DayParts.{DayParts};

use crate::counts::Counts;
use crate::extremes::Extremes;
use crate::sums::{Sum, day_length};
use crate::totals::totals_of;
use chronicle::Steps;
use day_inputs::{DayInputs, DayParts};
use editions::need;
use fixed_units::{Micro, Published, RoundingArray, publish};
use std::marker::Model;
use std::sync::ledger::Ledger;

/// The figures of a day that has a window or an estimate.
#[derive(Clone, Copy, Debug, PartialEq, Eq)]
pub struct Figures {
    /// How many seconds the day has, 72,000 to 100,800.
    length: u32,
    /// The readings of the day, without those of its neighbours.
    counts: Counts,
    /// The sum for the stage, which covers at most the day.
    stage: Sum,
    /// The sum for the discharge, which covers at most the day.
    discharge: Sum,
    /// The greatest and the least stage and discharge of the day.
    extremes: Extremes,
    /// The mean discharge as a person estimates it, where an estimate stands.
    estimate: Option<Micro>,
    /// The rounding array for stages.
    stage_array: RoundingArray,
    /// The rounding array for discharges.
    discharge_array: RoundingArray,
    /// The least cover in minutes from which on a mean is published, 1 to 1,440; without one the whole day is needed.
    least: Option<u32>,
}

impl Model for Figures {
    ghost use Rattle.daily_values.specs.Figures.{DayFigures, AreFigures};

    ghost Value = { DayFigures };

    ghost view = { λ f. record { length = f.length; counts = f.counts; stage = f.stage; discharge = f.discharge; extremes = f.extremes; estimate = f.estimate; stage_array = f.stage_array; discharge_array = f.discharge_array; least = f.least } };

    ghost invariant = { λ f. AreFigures (record { length = f.length; counts = f.counts; stage = f.stage; discharge = f.discharge; extremes = f.extremes; estimate = f.estimate; stage_array = f.stage_array; discharge_array = f.discharge_array; least = f.least }) };

    ghost inverse = { λ f. record { length = f.length; counts = f.counts; stage = f.stage; discharge = f.discharge; extremes = f.extremes; estimate = f.estimate; stage_array = f.stage_array; discharge_array = f.discharge_array; least = f.least } };
}

/// The value of a day.
#[derive(Clone, Copy, Debug, PartialEq, Eq)]
pub enum DayValue {
    /// The day has no reading that is used, and no estimate.
    Empty,
    /// The day has figures.
    Day(Figures),
}

/// The value that the inputs of a day have. One call is one step, and takes no memory.
pub fn compute<L: Ledger>(inputs: &DayInputs, steps: &mut Steps<L>) -> DayValue
    requires { AreInputs inputs.now }
    ensures value { result ≡ day_value inputs.now }
    ensures steps { steps.new ≡ steps.old + 1 }
{
    steps.tick();
    match inputs {
        DayInputs::Empty => DayValue::Empty,
        DayInputs::Day(parts) => DayValue::Day(figures_of(parts)),
    }
}

/// The figures of a day of these inputs.
fn figures_of(parts: &DayParts) -> Figures
    requires { AreParts parts.now }
    ensures { result ≡ values.figures_of parts.now }
{
    let totals = totals_of(parts);
    Figures {
        length: day_length(parts),
        counts: totals.counts,
        stage: totals.stage,
        discharge: totals.discharge,
        extremes: totals.extremes,
        estimate: parts.estimate,
        stage_array: parts.stage_array,
        discharge_array: parts.discharge_array,
        least: parts.least,
    }
}

/// A day without inputs has no figures.
pub fn values_of_empty_inputs()
    ensures { day_value DayInputs.Empty ≡ DayValue.Empty }
{}

/// The trapezoids of a day overlap nowhere: those of its stages cover at most the seconds that the day has, and those of its
/// discharges at most what those of its stages do.
pub fn covers_at_most_the_day()
    ensures stage { (parts : DayParts) → AreInputs (DayInputs.Day parts) → (sum_of stage_point parts).covered ≤ values.day_length parts }
    ensures discharge { (parts : DayParts) → (sum_of discharge_point parts).covered ≤ (sum_of stage_point parts).covered }
{}

impl Figures {
    ghost use Rattle.std.specs.Prelude.{◌≡◌, ◌≤◌};
    ghost use Rattle.daily_values.specs.Figures.{mean_stage, mean_discharge, needed, published_discharge, AreFigures};

    /// The figures of a day of so many seconds with these counts, sums and extremes, this estimate and this least cover.
    pub(crate) fn new(
        length: u32,
        counts: Counts,
        stage: Sum,
        discharge: Sum,
        extremes: Extremes,
        estimate: Option<Micro>,
        stage_array: RoundingArray,
        discharge_array: RoundingArray,
        least: Option<u32>,
    ) -> Figures
        requires { AreFigures (record { length = length; counts = counts; stage = stage; discharge = discharge; extremes = extremes; estimate = estimate; stage_array = stage_array; discharge_array = discharge_array; least = least }) }
        ensures { result ≡ record { length = length; counts = counts; stage = stage; discharge = discharge; extremes = extremes; estimate = estimate; stage_array = stage_array; discharge_array = discharge_array; least = least } }
    {
        Figures {
            length,
            counts,
            stage,
            discharge,
            extremes,
            estimate,
            stage_array,
            discharge_array,
            least,
        }
    }

    /// How many seconds the day has, 72,000 to 100,800.
    pub fn length(&self) -> u32
        ensures { result ≡ self.now.length }
    {
        self.length
    }

    /// The used readings of the day, without those of its neighbours, and those of them that have no discharge.
    pub fn counts(&self) -> Counts
        ensures counts { result ≡ self.now.counts }
        ensures figures { AreFigures self.now }
    {
        self.counts
    }

    /// The sum for the stage.
    pub fn stage(&self) -> Sum
        ensures sum { result ≡ self.now.stage }
        ensures figures { AreFigures self.now }
    {
        self.stage
    }

    /// The sum for the discharge.
    pub fn discharge(&self) -> Sum
        ensures sum { result ≡ self.now.discharge }
        ensures figures { AreFigures self.now }
    {
        self.discharge
    }

    /// The unit values with the greatest and the least stage and discharge of the day.
    pub fn extremes(&self) -> Extremes
        ensures { result ≡ self.now.extremes }
    {
        self.extremes
    }

    /// The mean discharge as a person estimates it, in millionths of a cubic foot per second, where an estimate stands: 0 to
    /// 10,000,000 cubic feet per second.
    pub fn estimate(&self) -> Option<Micro>
        ensures estimate { result ≡ self.now.estimate }
        ensures figures { AreFigures self.now }
    {
        self.estimate
    }

    /// The least cover in minutes that is in force, 1 to 1,440, or `None` where the whole day is needed or the day has no window.
    pub fn least(&self) -> Option<u32>
        ensures least { result ≡ self.now.least }
        ensures figures { AreFigures self.now }
    {
        self.least
    }

    /// How many seconds of the day each mean needs to cover.
    pub fn need(&self) -> u32
        ensures need { result ≡ needed self.now }
        ensures some { 1 ≤ result }
    {
        need(self.length, self.least)
    }

    /// The published mean stage, exactly where the stages cover what a mean needs.
    pub fn stage_text(&self) -> Option<Published>
        ensures { result ≡ mean_stage self.now }
    {
        mean(&self.stage, self.need(), &self.stage_array)
    }

    /// The published discharge: the estimate where one stands, else the mean.
    pub fn discharge_text(&self) -> Option<Published>
        ensures { result ≡ published_discharge self.now }
    {
        match self.estimate {
            Some(estimate) => Some(publish(i128::from(estimate.get()), 1, &self.discharge_array)),
            None => self.mean_discharge(),
        }
    }

    /// The published mean of the discharges, exactly where they cover what a mean needs.
    pub fn mean_discharge(&self) -> Option<Published>
        ensures { result ≡ mean_discharge self.now }
    {
        mean(&self.discharge, self.need(), &self.discharge_array)
    }
}

/// The published mean of a sum, exactly where it covers at least the seconds that are needed.
fn mean(sum: &Sum, needed: u32, array: &RoundingArray) -> Option<Published>
    requires some { 1 ≤ needed }
    requires few { sum.now.covered ≤ longest_day }
    requires within { IsSumWithin most_millionths most_millionths sum.now }
    ensures { result ≡ mean array.now sum.now needed }
{
    if sum.covered < needed {
        return None;
    }
    Some(publish(sum.twice, 2 * i128::from(sum.covered), array))
}
