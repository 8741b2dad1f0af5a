//! Whether the inputs of two days are equal.

ghost use Rattle.std.specs.Prelude.{◌≡◌, true, ◌↔◌};
ghost use Rattle.std.specs.Bool.{Decides};
ghost use Rattle.day_inputs.specs.Equality.{same_contents, same_inputs, same_members};
ghost use Rattle.day_inputs.specs.declared.day_inputs.DayInputs.{DayInputs};

use crate::day_inputs::{DayInputs, DayParts};

/// The inputs of two days are equal exactly where the test of the definitions says so.
pub fn equality_is_told()
    ensures { (p q : DayInputs) → Decides (same_inputs p q) (p ≡ q) }
{}

/// Whether the inputs of two days are equal. It takes no memory.
pub fn are_same(inputs: &DayInputs, others: &DayInputs) -> bool
    ensures same { result ≡ same_inputs inputs.now others.now }
    ensures equal { (result ≡ true) ↔ (inputs.now ≡ others.now) }
{
    match (inputs, others) {
        (DayInputs::Empty, DayInputs::Empty) => true,
        (DayInputs::Day(parts), DayInputs::Day(others)) => are_same_parts(parts, others),
        _ => false,
    }
}

/// Whether each member of two days' inputs is equal.
fn are_same_parts(parts: &DayParts, others: &DayParts) -> bool
    ensures { result ≡ same_members parts.now others.now }
{
    parts.gap == others.gap
        && parts.stage_array == others.stage_array
        && parts.discharge_array == others.discharge_array
        && parts.from == others.from
        && parts.until == others.until
        && are_same_contents(parts, others)
}

/// Whether the windows, the entries, the rating periods, the estimates and the least covers of two days are equal.
fn are_same_contents(parts: &DayParts, others: &DayParts) -> bool
    ensures { result ≡ same_contents parts.now others.now }
{
    readings::are_same(parts.window.as_slice(), others.window.as_slice())
        && curves::are_same(parts.first.as_slice(), others.first.as_slice())
        && curves::are_same(parts.second.as_slice(), others.second.as_slice())
        && curves::are_same(parts.third.as_slice(), others.third.as_slice())
        && curves::are_same(parts.shifts.as_slice(), others.shifts.as_slice())
        && ratings::are_same(parts.periods.as_slice(), others.periods.as_slice())
        && parts.estimate == others.estimate
        && parts.least == others.least
}
