//! The measurements and the estimates of a payload, read from left to right.

ghost use Rattle.std.specs.Prelude.{◌≡◌, option_map};
ghost use Rattle.records.specs.Drafts.{what_of};
ghost use Rattle.records.specs.Parsing.{grade_at, measurement_at, dropped_measurement_at, estimate_at, dropped_estimate_at};

use crate::drafts::Fields;
use crate::estimate_drafts::EstimateDraft;
use crate::measurement_drafts::MeasurementDraft;
use crate::parsing::{byte_of, day_of, i64_of, u32_of};
use edits::Grade;

/// The fields of a measurement that is put.
#[tactic(auto, unfolding(crate::specs::Parsing::measurement_at))]
pub(crate) fn measurement_of(bytes: &[u8]) -> Option<(Fields<'_>, &[u8])>
    ensures { option_map (λ x. (what_of x.0, x.1.now)) result ≡ measurement_at bytes.now }
{
    let (number, rest) = u32_of(bytes)?;
    let (at, rest) = i64_of(rest)?;
    let (gage, rest) = i64_of(rest)?;
    let (discharge, rest) = i64_of(rest)?;
    let (grade, rest) = grade_of(rest)?;
    let measurement = MeasurementDraft {
        number,
        at,
        gage,
        discharge,
        grade,
    };
    Some((Fields::Measurement(measurement), rest))
}

/// How good a measurement is.
#[tactic(auto, unfolding(crate::specs::Parsing::grade_at))]
fn grade_of(bytes: &[u8]) -> Option<(Grade, &[u8])>
    ensures { option_map (λ x. (x.0, x.1.now)) result ≡ grade_at bytes.now }
{
    let (number, rest) = byte_of(bytes)?;
    let grade = Grade::of_number(number)?;
    Some((grade, rest))
}

/// The fields of a measurement that is dropped.
#[tactic(auto, unfolding(crate::specs::Parsing::dropped_measurement_at))]
pub(crate) fn dropped_measurement_of(bytes: &[u8]) -> Option<(Fields<'_>, &[u8])>
    ensures { option_map (λ x. (what_of x.0, x.1.now)) result ≡ dropped_measurement_at bytes.now }
{
    let (number, rest) = u32_of(bytes)?;
    Some((Fields::DroppedMeasurement { number }, rest))
}

/// The fields of an estimate that is put.
#[tactic(auto, unfolding(crate::specs::Parsing::estimate_at))]
pub(crate) fn estimate_of(bytes: &[u8]) -> Option<(Fields<'_>, &[u8])>
    ensures { option_map (λ x. (what_of x.0, x.1.now)) result ≡ estimate_at bytes.now }
{
    let (day, rest) = day_of(bytes)?;
    let (discharge, rest) = i64_of(rest)?;
    Some((Fields::Estimate(EstimateDraft { day, discharge }), rest))
}

/// The fields of an estimate that is dropped.
#[tactic(auto, unfolding(crate::specs::Parsing::dropped_estimate_at))]
pub(crate) fn dropped_estimate_of(bytes: &[u8]) -> Option<(Fields<'_>, &[u8])>
    ensures { option_map (λ x. (what_of x.0, x.1.now)) result ≡ dropped_estimate_at bytes.now }
{
    let (day, rest) = day_of(bytes)?;
    Some((Fields::DroppedEstimate { day }, rest))
}
