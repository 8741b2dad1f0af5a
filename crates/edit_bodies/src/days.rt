//! The days of edits.

ghost use Rattle.std.specs.Prelude.{◌≡◌};
ghost use Rattle.edit_bodies.specs.Answers.{IsTaken};
ghost use Rattle.edit_bodies.specs.Grammars.{day_of};
ghost use Rattle.edit_bodies.specs.Members.{required};

use crate::faults::BodyFault;
use crate::grammars::take_text;
use crate::members::{Fields, Member};
use civil_days::read_day;
use fixed_units::Day;

/// Takes out a day.
pub(crate) fn take_day(fields: &mut Fields<'_>, member: Member) -> Result<Day, BodyFault>
    ensures { IsTaken (required member day_of) fields.old result fields.new }
{
    let text = take_text(fields, member)?;
    read_day(text.as_bytes()).ok_or(BodyFault::Body(member))
}
