//! The measurements of a payload that was read: their ranges, and the measurements that they make.

ghost use Rattle.std.specs.Prelude.{◌≡◌, ◌↔◌, true, IfSome, IfNone};
ghost use Rattle.edits.specs.Lawful.{IsPutMeasurement};
ghost use Rattle.edits.specs.declared.content.What.TheVariants.{PutMeasurement};
ghost use Rattle.records.specs.Drafts.{measured};

use edits::{Grade, Measurement, What, is_put_measurement};
use fixed_units::{Micro, Second};

/// A measurement as it stands in a payload: its number, its instant, its gage height and its discharge in millionths, and its
/// grade.
#[derive(Clone, Copy)]
pub(crate) struct MeasurementDraft {
    pub(crate) number: u32,
    pub(crate) at: i64,
    pub(crate) gage: i64,
    pub(crate) discharge: i64,
    pub(crate) grade: Grade,
}

/// Whether the measurement may be put.
pub(crate) fn is_measurement(draft: &MeasurementDraft) -> bool
    ensures { result ≡ true ↔ IsPutMeasurement (measured draft.now) }
{
    match measurement_from(draft) {
        Some(measurement) => is_put_measurement(&measurement),
        None => false,
    }
}

/// The measurement of these parts, or `None` only where it may not be put.
fn measurement_from(draft: &MeasurementDraft) -> Option<Measurement>
    ensures some { IfSome result (λ measurement. measurement ≡ measured draft.now) }
    ensures none { IfNone result (¬ IsPutMeasurement (measured draft.now)) }
{
    Some(Measurement {
        number: draft.number,
        at: Second::new(draft.at)?,
        gage: Micro::new(draft.gage)?,
        discharge: Micro::new(draft.discharge)?,
        grade: draft.grade,
    })
}

/// The put of the measurement.
pub(crate) fn put_measurement_from(draft: &MeasurementDraft) -> What
    requires { IsPutMeasurement (measured draft.now) }
    ensures { result ≡ PutMeasurement (measured draft.now) }
{
    What::PutMeasurement {
        measurement: measurement_from(draft).unwrap(),
    }
}
