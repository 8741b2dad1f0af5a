//! The figures of each kind of edit.

ghost use Rattle.std.specs.Prelude.{◌≡◌, ◌++◌, OnOk};
ghost use Rattle.edits.specs.declared.content.What.TheVariants as kinds;
ghost use Rattle.ledger.specs.Figures.{decision_text, figures_text, flag_text, grade_text, instant, optional, stated, whole};

use crate::figures::{Style, Value, write_each};
use curves::Curve;
use edit_bodies::Member;
use edits::{Decision, Estimate, Grade, Measurement, Name, What};
use fixed_units::{Day, Flag, NoMemory, RoundingArray, Second, Text};
use ratings::{Period, SharedTable};

/// Adds the figures of an edit behind others.
pub(crate) fn write_figures(style: Style, what: &What, out: &mut Text) -> Result<(), NoMemory>
    ensures { OnOk result (out.new ≡ out.old ++ figures_text style what.now) }
{
    match what {
        What::AddStation {
            name,
            zone,
            gap,
            stage_array,
            discharge_array,
        } => write_addition(style, name, zone, *gap, *stage_array, *discharge_array, out),
        What::SetStation {
            name,
            gap,
            stage_array,
            discharge_array,
        } => write_setting(style, name, *gap, *stage_array, *discharge_array, out),
        What::PutReadings { readings } => write_each(
            style,
            &[(Member::Readings, Value::Readings(readings.as_slice()))],
            out,
        ),
        What::DropReadings { from, to } => write_dropped_span(style, *from, *to, out),
        What::FlagReadings { from, to, flag } => write_flagged_span(style, *from, *to, *flag, out),
        What::PutCorrection {
            set,
            at,
            curve,
            prorate,
        } => write_correction(style, *set, *at, curve, *prorate, out),
        What::DropCorrection { set, at } => write_dropped_correction(style, *set, *at, out),
        What::PutShift { at, curve, prorate } => write_shift(style, *at, curve, *prorate, out),
        What::DropShift { at } => write_each(style, &[(Member::At, Value::Instant(*at))], out),
        What::AddRating { rating, table } => write_rating(style, *rating, table, out),
        What::PutPeriod { period } => write_period(style, period, out),
        What::DropPeriod { from } => {
            write_each(style, &[(Member::From, Value::Instant(*from))], out)
        }
        What::PutEstimate { estimate } => write_estimate(style, estimate, out),
        What::DropEstimate { day } => write_each(style, &[(Member::Day, Value::Day(*day))], out),
        What::PutMeasurement { measurement } => write_measurement(style, measurement, out),
        What::DropMeasurement { number } => {
            write_each(style, &[(Member::Number, Value::Whole(*number))], out)
        }
        What::Review { from, to } => write_review(style, *from, *to, out),
        What::Decide { from, to, decision } => write_decision(style, *from, *to, *decision, out),
        What::SetEdition { day, least } => write_edition(style, *day, *least, out),
    }
}

/// Adds the figures of a station that is added.
fn write_addition<'a>(
    style: Style,
    name: &'a Name,
    zone: &'a Name,
    gap: u32,
    stage_array: RoundingArray,
    discharge_array: RoundingArray,
    out: &mut Text,
) -> Result<(), NoMemory>
    ensures { OnOk result (out.new ≡ out.old ++ figures_text style (kinds.AddStation name.now zone.now gap stage_array discharge_array)) }
{
    write_each(
        style,
        &[
            (Member::Name, Value::Text(name.as_slice())),
            (Member::Zone, Value::Text(zone.as_slice())),
            (Member::Gap, Value::Whole(gap)),
            (Member::StageArray, Value::Array(stage_array)),
            (Member::DischargeArray, Value::Array(discharge_array)),
        ],
        out,
    )
}

/// Adds the figures of a station that is set.
fn write_setting(
    style: Style,
    name: &Name,
    gap: u32,
    stage_array: RoundingArray,
    discharge_array: RoundingArray,
    out: &mut Text,
) -> Result<(), NoMemory>
    ensures { OnOk result (out.new ≡ out.old ++ figures_text style (kinds.SetStation name.now gap stage_array discharge_array)) }
{
    write_each(
        style,
        &[
            (Member::Name, Value::Text(name.as_slice())),
            (Member::Gap, Value::Whole(gap)),
            (Member::StageArray, Value::Array(stage_array)),
            (Member::DischargeArray, Value::Array(discharge_array)),
        ],
        out,
    )
}

/// Adds the instants between which readings are taken out.
fn write_dropped_span(
    style: Style,
    from: Second,
    to: Second,
    out: &mut Text,
) -> Result<(), NoMemory>
    ensures { OnOk result (out.new ≡ out.old ++ figures_text style (kinds.DropReadings from to)) }
{
    write_each(
        style,
        &[
            (Member::From, Value::Instant(from)),
            (Member::To, Value::Instant(to)),
        ],
        out,
    )
}

/// Adds the instants between which readings are flagged, and the flag.
fn write_flagged_span(
    style: Style,
    from: Second,
    to: Second,
    flag: Flag,
    out: &mut Text,
) -> Result<(), NoMemory>
    ensures { OnOk result (out.new ≡ out.old ++ figures_text style (kinds.FlagReadings from to flag)) }
{
    write_each(
        style,
        &[
            (Member::From, Value::Instant(from)),
            (Member::To, Value::Instant(to)),
            (Member::Flag, Value::Word(flag_name(flag))),
        ],
        out,
    )
}

/// Adds the figures of a correction.
fn write_correction(
    style: Style,
    set: u8,
    at: Second,
    curve: &Curve,
    prorate: bool,
    out: &mut Text,
) -> Result<(), NoMemory>
    ensures { OnOk result (out.new ≡ out.old ++ figures_text style (kinds.PutCorrection set at curve.now prorate)) }
{
    write_each(
        style,
        &[
            (Member::Set, Value::Whole(u32::from(set))),
            (Member::At, Value::Instant(at)),
            (Member::Points, Value::Pairs(curve.points())),
            (Member::Prorate, Value::Mark(prorate)),
        ],
        out,
    )
}

/// Adds the set and the instant of a correction that is taken out.
fn write_dropped_correction(
    style: Style,
    set: u8,
    at: Second,
    out: &mut Text,
) -> Result<(), NoMemory>
    ensures { OnOk result (out.new ≡ out.old ++ figures_text style (kinds.DropCorrection set at)) }
{
    write_each(
        style,
        &[
            (Member::Set, Value::Whole(u32::from(set))),
            (Member::At, Value::Instant(at)),
        ],
        out,
    )
}

/// Adds the figures of a shift.
fn write_shift(
    style: Style,
    at: Second,
    curve: &Curve,
    prorate: bool,
    out: &mut Text,
) -> Result<(), NoMemory>
    ensures { OnOk result (out.new ≡ out.old ++ figures_text style (kinds.PutShift at curve.now prorate)) }
{
    write_each(
        style,
        &[
            (Member::At, Value::Instant(at)),
            (Member::Points, Value::Pairs(curve.points())),
            (Member::Prorate, Value::Mark(prorate)),
        ],
        out,
    )
}

/// Adds the number and the rows of a rating.
fn write_rating(
    style: Style,
    rating: u32,
    table: &SharedTable,
    out: &mut Text,
) -> Result<(), NoMemory>
    ensures { OnOk result (out.new ≡ out.old ++ figures_text style (kinds.AddRating rating table.now)) }
{
    write_each(
        style,
        &[
            (Member::Rating, Value::Whole(rating)),
            (Member::Rows, Value::Pairs(table.table().rows())),
        ],
        out,
    )
}

/// Adds the figures of a period.
fn write_period(style: Style, period: &Period, out: &mut Text) -> Result<(), NoMemory>
    ensures { OnOk result (out.new ≡ out.old ++ figures_text style (kinds.PutPeriod period.now)) }
{
    write_each(
        style,
        &[
            (Member::Rating, Value::Whole(period.rating)),
            (Member::From, Value::Instant(period.from)),
            (Member::Until, instant_or_nothing(period.until)),
        ],
        out,
    )
}

/// Adds the figures of an estimate.
fn write_estimate(style: Style, estimate: &Estimate, out: &mut Text) -> Result<(), NoMemory>
    ensures { OnOk result (out.new ≡ out.old ++ figures_text style (kinds.PutEstimate estimate.now)) }
{
    write_each(
        style,
        &[
            (Member::Day, Value::Day(estimate.day)),
            (Member::Discharge, Value::Quantity(estimate.discharge)),
        ],
        out,
    )
}

/// Adds the figures of a measurement.
fn write_measurement(
    style: Style,
    measurement: &Measurement,
    out: &mut Text,
) -> Result<(), NoMemory>
    ensures { OnOk result (out.new ≡ out.old ++ figures_text style (kinds.PutMeasurement measurement.now)) }
{
    write_each(
        style,
        &[
            (Member::Number, Value::Whole(measurement.number)),
            (Member::At, Value::Instant(measurement.at)),
            (Member::Gage, Value::Quantity(measurement.gage)),
            (Member::Discharge, Value::Quantity(measurement.discharge)),
            (Member::Grade, Value::Word(grade_name(measurement.grade))),
        ],
        out,
    )
}

/// Adds the days of a review.
fn write_review(style: Style, from: Day, to: Day, out: &mut Text) -> Result<(), NoMemory>
    ensures { OnOk result (out.new ≡ out.old ++ figures_text style (kinds.Review from to)) }
{
    write_each(
        style,
        &[
            (Member::From, Value::Day(from)),
            (Member::To, Value::Day(to)),
        ],
        out,
    )
}

/// Adds the days of a decision, and the decision.
fn write_decision(
    style: Style,
    from: Day,
    to: Day,
    decision: Decision,
    out: &mut Text,
) -> Result<(), NoMemory>
    ensures { OnOk result (out.new ≡ out.old ++ figures_text style (kinds.Decide from to decision)) }
{
    write_each(
        style,
        &[
            (Member::From, Value::Day(from)),
            (Member::To, Value::Day(to)),
            (Member::Decision, Value::Word(decision_name(decision))),
        ],
        out,
    )
}

/// Adds the day and the least cover of an edition.
fn write_edition(style: Style, day: Day, least: Option<u32>, out: &mut Text) -> Result<(), NoMemory>
    ensures { OnOk result (out.new ≡ out.old ++ figures_text style (kinds.SetEdition day least)) }
{
    write_each(
        style,
        &[
            (Member::Day, Value::Day(day)),
            (Member::Least, whole_or_nothing(least)),
        ],
        out,
    )
}

/// An instant, if there is one.
fn instant_or_nothing(at: Option<Second>) -> Value<'static>
    ensures { stated result ≡ optional instant at }
{
    match at {
        Some(at) => Value::Instant(at),
        None => Value::Nothing,
    }
}

/// A whole number, if there is one.
fn whole_or_nothing(number: Option<u32>) -> Value<'static>
    ensures { stated result ≡ optional whole number }
{
    match number {
        Some(number) => Value::Whole(number),
        None => Value::Nothing,
    }
}

/// The word of a flag.
fn flag_name(flag: Flag) -> &'static [u8]
    ensures { result.now ≡ flag_text flag }
{
    match flag {
        Flag::Usable => b"ok",
        Flag::Erroneous => b"erroneous",
        Flag::Affected => b"affected",
    }
}

/// The word of a grade.
fn grade_name(grade: Grade) -> &'static [u8]
    ensures { result.now ≡ grade_text grade }
{
    match grade {
        Grade::Excellent => b"excellent",
        Grade::Good => b"good",
        Grade::Fair => b"fair",
        Grade::Poor => b"poor",
    }
}

/// The word of a decision.
fn decision_name(decision: Decision) -> &'static [u8]
    ensures { result.now ≡ decision_text decision }
{
    match decision {
        Decision::Approve => b"approve",
        Decision::Rescind => b"rescind",
    }
}
