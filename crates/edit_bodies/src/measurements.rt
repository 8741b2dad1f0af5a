//! The members of a field measurement.

ghost use Rattle.std.specs.Prelude.{◌≡◌, IfOk, IfSome, option_and_then};
ghost use Rattle.edit_bodies.specs.Answers.{IsTaken};
ghost use Rattle.edit_bodies.specs.Grammars.{discharge_of, grade_of, grade_of_text, kept_within, measurement_number_of, stage_of};
ghost use Rattle.edit_bodies.specs.Members.{member_text, required};
ghost use Rattle.edit_bodies.specs.Trees.{left};
ghost use Rattle.edits.specs.Lawful.{IsMeasurementNumber};
ghost use Rattle.fixed_units.specs.Quantities.{IsDischarge, IsStage};
ghost use Rattle.serde_json.specs.Find.{get_member};

use crate::faults::BodyFault;
use crate::grammars::{take_text, whole_in};
use crate::members::{Fields, Member, remove, value_at};
use crate::rows::{discharge_in, stage_in};
use edits::{Grade, is_measurement_number};
use fixed_units::Micro;

/// Takes out the number of a measurement.
pub(crate) fn take_measurement_number(fields: &mut Fields<'_>) -> Result<u32, BodyFault>
    ensures read { IsTaken (required Member.Number measurement_number_of) fields.old result fields.new }
    ensures number { IfOk result IsMeasurementNumber }
{
    let found = measurement_number_at(fields);
    remove(fields, Member::Number);
    found.ok_or(BodyFault::Body(Member::Number))
}

/// The number of a measurement that is there.
fn measurement_number_at(fields: &Fields<'_>) -> Option<u32>
    ensures value { result ≡ option_and_then measurement_number_of (get_member (member_text Member.Number) (left fields.now)) }
    ensures number { IfSome result IsMeasurementNumber }
{
    measurement_number_from(whole_in(value_at(fields, Member::Number)?)?)
}

/// The measurement of this number, or `None` exactly where there is none.
fn measurement_number_from(number: u64) -> Option<u32>
    ensures value { result ≡ kept_within 1 4_294_967_295 number }
    ensures number { IfSome result IsMeasurementNumber }
{
    let number = u32::try_from(number).ok()?;
    if is_measurement_number(number) {
        Some(number)
    } else {
        None
    }
}

/// Takes out the gage height of a measurement.
pub(crate) fn take_gage(fields: &mut Fields<'_>) -> Result<Micro, BodyFault>
    ensures read { IsTaken (required Member.Gage stage_of) fields.old result fields.new }
    ensures stage { IfOk result IsStage }
{
    let found = gage_at(fields);
    remove(fields, Member::Gage);
    found.ok_or(BodyFault::Body(Member::Gage))
}

/// The gage height that is there.
fn gage_at(fields: &Fields<'_>) -> Option<Micro>
    ensures value { result ≡ option_and_then stage_of (get_member (member_text Member.Gage) (left fields.now)) }
    ensures stage { IfSome result IsStage }
{
    stage_in(value_at(fields, Member::Gage)?)
}

/// Takes out the discharge of a measurement or of an estimate.
pub(crate) fn take_discharge(fields: &mut Fields<'_>) -> Result<Micro, BodyFault>
    ensures read { IsTaken (required Member.Discharge discharge_of) fields.old result fields.new }
    ensures discharge { IfOk result IsDischarge }
{
    let found = discharge_at(fields);
    remove(fields, Member::Discharge);
    found.ok_or(BodyFault::Body(Member::Discharge))
}

/// The discharge that is there.
fn discharge_at(fields: &Fields<'_>) -> Option<Micro>
    ensures value { result ≡ option_and_then discharge_of (get_member (member_text Member.Discharge) (left fields.now)) }
    ensures discharge { IfSome result IsDischarge }
{
    discharge_in(value_at(fields, Member::Discharge)?)
}

/// Takes out the grade of a measurement.
pub(crate) fn take_grade(fields: &mut Fields<'_>) -> Result<Grade, BodyFault>
    ensures { IsTaken (required Member.Grade grade_of) fields.old result fields.new }
{
    let text = take_text(fields, Member::Grade)?;
    grade_named(text.as_bytes()).ok_or(BodyFault::Body(Member::Grade))
}

/// The grade of that name, or `None` exactly where there is no such grade.
fn grade_named(text: &[u8]) -> Option<Grade>
    ensures { result ≡ grade_of_text text.now }
{
    if text == b"excellent".as_slice() {
        Some(Grade::Excellent)
    } else if text == b"good".as_slice() {
        Some(Grade::Good)
    } else if text == b"fair".as_slice() {
        Some(Grade::Fair)
    } else if text == b"poor".as_slice() {
        Some(Grade::Poor)
    } else {
        None
    }
}
