//! The greatest and the least stage and discharge of a day.

ghost use Rattle.std.specs.Prelude.{◌≡◌, if◌then◌else◌, List, [], ◌∷◌, ◌++◌, Some, None, is_some, filter};
ghost use Rattle.unit_discharge.specs.declared.unit_values.Unit.{Unit};
ghost use Rattle.daily_values.specs.DayValue as values;
ghost use Rattle.daily_values.specs.DayValue.{extremes_among, greatest, is_of_day, value_of};

use crate::counts::is_within;
use day_inputs::DayParts;
use fixed_units::Micro;
use unit_discharge::Unit;

/// The unit values with the greatest and the least stage and discharge among the used readings of a day, without those of its
/// neighbours: each whole, as a computation sheet shows it. Of equal ones the earliest counts.
#[derive(Clone, Copy, Debug, PartialEq, Eq)]
pub struct Extremes {
    /// The one with the greatest stage, or `None` exactly where the day has no used reading.
    pub max_stage: Option<Unit>,
    /// The one with the least stage.
    pub min_stage: Option<Unit>,
    /// The one with the greatest discharge, or `None` exactly where no used reading of the day has a discharge.
    pub max_discharge: Option<Unit>,
    /// The one with the least discharge.
    pub min_discharge: Option<Unit>,
}

impl Extremes {
    /// Those of no unit value.
    pub(crate) fn none() -> Extremes
        ensures { result ≡ extremes_among [] }
    {
        Extremes {
            max_stage: None,
            min_stage: None,
            max_discharge: None,
            min_discharge: None,
        }
    }

    /// Takes in one unit value more, behind those before it.
    #[inline(always)]
    fn add(&mut self, unit: &Unit)
        ensures { (units : List Unit) → self.old ≡ extremes_among units → self.new ≡ extremes_among (units ++ unit.now ∷ []) }
    {
        raise(&mut self.max_stage, unit, Quantity::Stage);
        lower(&mut self.min_stage, unit, Quantity::Stage);
        raise(&mut self.max_discharge, unit, Quantity::Discharge);
        lower(&mut self.min_discharge, unit, Quantity::Discharge);
    }
}

/// Takes a unit value more into the extremes, where it is of the day.
#[inline(always)]
pub(crate) fn add_extremes(extremes: &mut Extremes, parts: &DayParts, unit: &Unit)
    ensures { (units : List Unit) → extremes.old ≡ extremes_among (filter (is_of_day parts.now) units) → extremes.new ≡ extremes_among (filter (is_of_day parts.now) (units ++ unit.now ∷ [])) }
{
    if is_within(parts, unit.at) {
        extremes.add(unit);
    }
}

/// What is compared of unit values.
#[derive(Clone, Copy, Debug)]
pub(crate) enum Quantity {
    /// The stage, which each has.
    Stage,
    /// The discharge, which some have.
    Discharge,
}

impl Quantity {
    /// The value that a unit value has, if it has one.
    pub(crate) fn value(self, unit: &Unit) -> Option<Micro>
        ensures { result ≡ value_of self unit.now }
    {
        match self {
            Quantity::Stage => Some(unit.stage),
            Quantity::Discharge => unit.discharge.ok(),
        }
    }
}

/// Takes one unit value more into the greatest of those before it, where it is greater than all of them.
fn raise(most: &mut Option<Unit>, unit: &Unit, quantity: Quantity)
    ensures { (units : List Unit) → most.old ≡ greatest (value_of quantity) units → most.new ≡ greatest (value_of quantity) (units ++ unit.now ∷ []) }
{
    if is_greater(most, unit, quantity) {
        keep(most, unit);
    }
}

/// Takes one unit value more into the least of those before it, where it is less than all of them.
fn lower(least: &mut Option<Unit>, unit: &Unit, quantity: Quantity)
    ensures { (units : List Unit) → least.old ≡ values.least (value_of quantity) units → least.new ≡ values.least (value_of quantity) (units ++ unit.now ∷ []) }
{
    if is_lesser(least, unit, quantity) {
        keep(least, unit);
    }
}

/// Keeps a unit value in place of another one.
#[inline(never)]
fn keep(kept: &mut Option<Unit>, unit: &Unit)
    ensures { kept.new ≡ Some unit.now }
{
    *kept = Some(*unit);
}

/// Whether a unit value has a value that is greater than that of the greatest before it, if there is one.
fn is_greater(most: &Option<Unit>, unit: &Unit, quantity: Quantity) -> bool
    ensures { (units : List Unit) → most.now ≡ greatest (value_of quantity) units → (if result then Some unit.now else most.now) ≡ greatest (value_of quantity) (units ++ unit.now ∷ []) }
{
    match most {
        Some(kept) => is_less(quantity.value(kept), quantity.value(unit)),
        None => quantity.value(unit).is_some(),
    }
}

/// Whether a unit value has a value that is less than that of the least before it, if there is one.
fn is_lesser(least: &Option<Unit>, unit: &Unit, quantity: Quantity) -> bool
    ensures { (units : List Unit) → least.now ≡ values.least (value_of quantity) units → (if result then Some unit.now else least.now) ≡ values.least (value_of quantity) (units ++ unit.now ∷ []) }
{
    match least {
        Some(kept) => is_less(quantity.value(unit), quantity.value(kept)),
        None => quantity.value(unit).is_some(),
    }
}

/// Whether two values are there, and the one is less.
pub(crate) fn is_less(one: Option<Micro>, other: Option<Micro>) -> bool
    ensures { result ≡ values.is_less one other }
{
    match (one, other) {
        (Some(one), Some(other)) => one < other,
        _ => false,
    }
}
