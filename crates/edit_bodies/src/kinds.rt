//! What an edit of each kind changes, by the members of its body.

ghost use Rattle.std.specs.Prelude.{IfOk};
ghost use Rattle.edit_bodies.specs.Answers.{IsTaken};
ghost use Rattle.edit_bodies.specs.Kinds.{kind_of, row};
ghost use Rattle.edits.specs.declared.kinds.Kind.TheVariants as Kind;
ghost use Rattle.edit_bodies.specs.Members.{required};
ghost use Rattle.edits.specs.Lawful.{IsLawful};

use crate::curve_points::take_points;
use crate::days::take_day;
use crate::faults::BodyFault;
use crate::grammars::{
    take_array, take_gap, take_instant, take_name, take_prorate, take_set, take_text, take_zone,
};
use crate::least_covers::take_least;
use crate::measurements::{take_discharge, take_gage, take_grade, take_measurement_number};
use crate::members::{Fields, Member};
use crate::periods::take_until;
use crate::rating_rows::{take_rating_number, take_table};
use crate::reading_rows::take_readings;
use crate::reviews::{take_decision, take_last_day};
use crate::spans::{take_flag, take_to};
use edits::{Estimate, Kind, Measurement, What};
use ratings::Period;
use std::alloc::Global;

/// Takes the kind out of the members.
pub(crate) fn take_kind(fields: &mut Fields<'_>) -> Result<Kind, BodyFault>
    ensures { IsTaken (required Member.Kind kind_of) fields.old result fields.new }
{
    let text = take_text(fields, Member::Kind)?;
    Kind::named(text.as_bytes()).ok_or(BodyFault::Body(Member::Kind))
}

/// What an edit of that kind changes, by its members, which are taken out.
pub(crate) fn take_what(
    alloc: Global,
    kind: Kind,
    fields: &mut Fields<'_>,
) -> Result<What, BodyFault>
    ensures read { IsTaken (row kind) fields.old result fields.new }
    ensures lawful { IfOk result IsLawful }
{
    match kind {
        Kind::AddStation => take_addition(alloc, fields),
        Kind::SetStation => take_setting(alloc, fields),
        Kind::PutReadings => take_put(alloc, fields),
        Kind::DropReadings => take_dropped_span(fields),
        Kind::FlagReadings => take_flagged_span(fields),
        Kind::PutCorrection => take_correction(fields),
        Kind::DropCorrection => take_dropped_correction(fields),
        Kind::PutShift => take_shift(fields),
        Kind::DropShift => take_dropped_shift(fields),
        Kind::AddRating => take_rating(alloc, fields),
        Kind::PutPeriod => take_period(fields),
        Kind::DropPeriod => take_dropped_period(fields),
        Kind::PutEstimate => take_estimate(fields),
        Kind::DropEstimate => take_dropped_estimate(fields),
        Kind::PutMeasurement => take_measurement(fields),
        Kind::DropMeasurement => take_dropped_measurement(fields),
        Kind::Review => take_review(fields),
        Kind::Decide => take_decided(fields),
        Kind::SetEdition => take_edition(fields),
    }
}

/// The addition of a station.
fn take_addition(alloc: Global, fields: &mut Fields<'_>) -> Result<What, BodyFault>
    ensures read { IsTaken (row Kind.AddStation) fields.old result fields.new }
    ensures lawful { IfOk result IsLawful }
{
    let name = take_name(alloc, fields)?;
    let zone = take_zone(alloc, fields)?;
    let gap = take_gap(fields)?;
    let stage_array = take_array(fields, Member::StageArray)?;
    let discharge_array = take_array(fields, Member::DischargeArray)?;
    Ok(What::AddStation {
        name,
        zone,
        gap,
        stage_array,
        discharge_array,
    })
}

/// The setting of a station.
fn take_setting(alloc: Global, fields: &mut Fields<'_>) -> Result<What, BodyFault>
    ensures read { IsTaken (row Kind.SetStation) fields.old result fields.new }
    ensures lawful { IfOk result IsLawful }
{
    let name = take_name(alloc, fields)?;
    let gap = take_gap(fields)?;
    let stage_array = take_array(fields, Member::StageArray)?;
    let discharge_array = take_array(fields, Member::DischargeArray)?;
    Ok(What::SetStation {
        name,
        gap,
        stage_array,
        discharge_array,
    })
}

/// The put of readings.
fn take_put(alloc: Global, fields: &mut Fields<'_>) -> Result<What, BodyFault>
    ensures read { IsTaken (row Kind.PutReadings) fields.old result fields.new }
    ensures lawful { IfOk result IsLawful }
{
    let readings = take_readings(alloc, fields)?;
    Ok(What::PutReadings { readings })
}

/// The drop of the readings of a span.
fn take_dropped_span(fields: &mut Fields<'_>) -> Result<What, BodyFault>
    ensures read { IsTaken (row Kind.DropReadings) fields.old result fields.new }
    ensures lawful { IfOk result IsLawful }
{
    let from = take_instant(fields, Member::From)?;
    let to = take_to(fields, from)?;
    Ok(What::DropReadings { from, to })
}

/// The flagging of the readings of a span.
fn take_flagged_span(fields: &mut Fields<'_>) -> Result<What, BodyFault>
    ensures read { IsTaken (row Kind.FlagReadings) fields.old result fields.new }
    ensures lawful { IfOk result IsLawful }
{
    let from = take_instant(fields, Member::From)?;
    let to = take_to(fields, from)?;
    let flag = take_flag(fields)?;
    Ok(What::FlagReadings { from, to, flag })
}

/// The put of an entry of a correction set.
fn take_correction(fields: &mut Fields<'_>) -> Result<What, BodyFault>
    ensures read { IsTaken (row Kind.PutCorrection) fields.old result fields.new }
    ensures lawful { IfOk result IsLawful }
{
    let set = take_set(fields)?;
    let at = take_instant(fields, Member::At)?;
    let curve = take_points(fields)?;
    let prorate = take_prorate(fields)?;
    Ok(What::PutCorrection {
        set,
        at,
        curve,
        prorate,
    })
}

/// The drop of an entry of a correction set.
fn take_dropped_correction(fields: &mut Fields<'_>) -> Result<What, BodyFault>
    ensures read { IsTaken (row Kind.DropCorrection) fields.old result fields.new }
    ensures lawful { IfOk result IsLawful }
{
    let set = take_set(fields)?;
    let at = take_instant(fields, Member::At)?;
    Ok(What::DropCorrection { set, at })
}

/// The put of an entry of the shifts.
fn take_shift(fields: &mut Fields<'_>) -> Result<What, BodyFault>
    ensures read { IsTaken (row Kind.PutShift) fields.old result fields.new }
    ensures lawful { IfOk result IsLawful }
{
    let at = take_instant(fields, Member::At)?;
    let curve = take_points(fields)?;
    let prorate = take_prorate(fields)?;
    Ok(What::PutShift { at, curve, prorate })
}

/// The drop of an entry of the shifts.
fn take_dropped_shift(fields: &mut Fields<'_>) -> Result<What, BodyFault>
    ensures read { IsTaken (row Kind.DropShift) fields.old result fields.new }
    ensures lawful { IfOk result IsLawful }
{
    let at = take_instant(fields, Member::At)?;
    Ok(What::DropShift { at })
}

/// The addition of a rating.
fn take_rating(alloc: Global, fields: &mut Fields<'_>) -> Result<What, BodyFault>
    ensures read { IsTaken (row Kind.AddRating) fields.old result fields.new }
    ensures lawful { IfOk result IsLawful }
{
    let rating = take_rating_number(fields)?;
    let table = take_table(alloc, fields)?;
    Ok(What::AddRating { rating, table })
}

/// The put of a period.
fn take_period(fields: &mut Fields<'_>) -> Result<What, BodyFault>
    ensures read { IsTaken (row Kind.PutPeriod) fields.old result fields.new }
    ensures lawful { IfOk result IsLawful }
{
    let rating = take_rating_number(fields)?;
    let from = take_instant(fields, Member::From)?;
    let until = take_until(fields, from)?;
    Ok(What::PutPeriod {
        period: Period {
            from,
            until,
            rating,
        },
    })
}

/// The drop of a period.
fn take_dropped_period(fields: &mut Fields<'_>) -> Result<What, BodyFault>
    ensures read { IsTaken (row Kind.DropPeriod) fields.old result fields.new }
    ensures lawful { IfOk result IsLawful }
{
    let from = take_instant(fields, Member::From)?;
    Ok(What::DropPeriod { from })
}

/// The put of an estimate.
fn take_estimate(fields: &mut Fields<'_>) -> Result<What, BodyFault>
    ensures read { IsTaken (row Kind.PutEstimate) fields.old result fields.new }
    ensures lawful { IfOk result IsLawful }
{
    let day = take_day(fields, Member::Day)?;
    let discharge = take_discharge(fields)?;
    Ok(What::PutEstimate {
        estimate: Estimate { day, discharge },
    })
}

/// The drop of an estimate.
fn take_dropped_estimate(fields: &mut Fields<'_>) -> Result<What, BodyFault>
    ensures read { IsTaken (row Kind.DropEstimate) fields.old result fields.new }
    ensures lawful { IfOk result IsLawful }
{
    let day = take_day(fields, Member::Day)?;
    Ok(What::DropEstimate { day })
}

/// The put of a field measurement.
fn take_measurement(fields: &mut Fields<'_>) -> Result<What, BodyFault>
    ensures read { IsTaken (row Kind.PutMeasurement) fields.old result fields.new }
    ensures lawful { IfOk result IsLawful }
{
    let number = take_measurement_number(fields)?;
    let at = take_instant(fields, Member::At)?;
    let gage = take_gage(fields)?;
    let discharge = take_discharge(fields)?;
    let grade = take_grade(fields)?;
    Ok(What::PutMeasurement {
        measurement: Measurement {
            number,
            at,
            gage,
            discharge,
            grade,
        },
    })
}

/// The drop of a field measurement.
fn take_dropped_measurement(fields: &mut Fields<'_>) -> Result<What, BodyFault>
    ensures read { IsTaken (row Kind.DropMeasurement) fields.old result fields.new }
    ensures lawful { IfOk result IsLawful }
{
    let number = take_measurement_number(fields)?;
    Ok(What::DropMeasurement { number })
}

/// The review of days.
fn take_review(fields: &mut Fields<'_>) -> Result<What, BodyFault>
    ensures read { IsTaken (row Kind.Review) fields.old result fields.new }
    ensures lawful { IfOk result IsLawful }
{
    let from = take_day(fields, Member::From)?;
    let to = take_last_day(fields, from)?;
    Ok(What::Review { from, to })
}

/// The decision on days.
fn take_decided(fields: &mut Fields<'_>) -> Result<What, BodyFault>
    ensures read { IsTaken (row Kind.Decide) fields.old result fields.new }
    ensures lawful { IfOk result IsLawful }
{
    let from = take_day(fields, Member::From)?;
    let to = take_last_day(fields, from)?;
    let decision = take_decision(fields)?;
    Ok(What::Decide { from, to, decision })
}

/// The setting of an edition.
fn take_edition(fields: &mut Fields<'_>) -> Result<What, BodyFault>
    ensures read { IsTaken (row Kind.SetEdition) fields.old result fields.new }
    ensures lawful { IfOk result IsLawful }
{
    let day = take_day(fields, Member::Day)?;
    let least = take_least(fields)?;
    Ok(What::SetEdition { day, least })
}
