//! Edits as rows have them, written: each field of the edit once, in the order in which the notation is read.

use crate::edit_words::{decision_word, flag_word, grade_word, truth_word};
use civil_days::{write_day, write_instant};
use curves::Curve;
use edits::{Decision, Edit, Estimate, Measurement, Name, What};
use fixed_units::{Day, Flag, Micro, NoMemory, Reading, RoundingArray, Second, Text, write_micro};
use rating_tables::SharedTable;
use ratings::Period;
use site_texts::write_site;

/// Writes an edit.
pub fn push_edit(edit: &Edit, came: &mut Text) -> Result<(), NoMemory> {
    push_sender(edit, came)?;
    push_what(&edit.what, came)?;
    push_comment(edit.comment.as_slice(), came)
}

/// Writes a comment, where it is not empty.
fn push_comment(comment: &[u8], came: &mut Text) -> Result<(), NoMemory> {
    if comment.is_empty() {
        return Ok(());
    }
    push_word(b"#", came)?;
    push_word(comment, came)
}

/// Writes whose edit it is, under which reference and of which site.
pub fn push_sender(edit: &Edit, came: &mut Text) -> Result<(), NoMemory> {
    came.push_slice(edit.by.as_slice())?;
    push_word(edit.reference.as_slice(), came)?;
    came.push(b' ')?;
    write_site(edit.site, came)
}

fn push_what(what: &What, came: &mut Text) -> Result<(), NoMemory> {
    match what {
        What::AddStation {
            name,
            zone,
            gap,
            stage_array,
            discharge_array,
        } => push_addition(name, zone, *gap, (stage_array, discharge_array), came),
        What::SetStation {
            name,
            gap,
            stage_array,
            discharge_array,
        } => push_setting(name, *gap, (stage_array, discharge_array), came),
        What::PutReadings { readings } => push_put(readings.as_slice(), came),
        What::DropReadings { from, to } => push_span(b"DropReadings", *from, *to, came),
        What::FlagReadings { from, to, flag } => push_flagging(*from, *to, *flag, came),
        _ => push_entry(what, came),
    }
}

fn push_entry(what: &What, came: &mut Text) -> Result<(), NoMemory> {
    match what {
        What::PutCorrection {
            set,
            at,
            curve,
            prorate,
        } => push_correction(*set, *at, curve, *prorate, came),
        What::DropCorrection { set, at } => push_dropped_correction(*set, *at, came),
        What::PutShift { at, curve, prorate } => push_shift(*at, curve, *prorate, came),
        What::DropShift { at } => push_dropped(b"DropShift", *at, came),
        What::AddRating { rating, table } => push_rating(*rating, table, came),
        What::PutPeriod { period } => push_period(period, came),
        What::DropPeriod { from } => push_dropped(b"DropPeriod", *from, came),
        _ => push_day_change(what, came),
    }
}

fn push_day_change(what: &What, came: &mut Text) -> Result<(), NoMemory> {
    match what {
        What::PutEstimate { estimate } => push_estimate(estimate, came),
        What::DropEstimate { day } => push_dropped_estimate(*day, came),
        What::PutMeasurement { measurement } => push_measurement(measurement, came),
        What::DropMeasurement { number } => push_dropped_measurement(*number, came),
        What::Review { from, to } => push_days(b"Review", *from, *to, came),
        What::Decide { from, to, decision } => push_decision(*from, *to, *decision, came),
        What::SetEdition { day, least } => push_edition(*day, *least, came),
        _ => Ok(()),
    }
}

/// Writes a blank and a word.
pub fn push_word(word: &[u8], came: &mut Text) -> Result<(), NoMemory> {
    came.push(b' ')?;
    came.push_slice(word)
}

/// Writes a blank and a number.
pub fn push_count(number: u32, came: &mut Text) -> Result<(), NoMemory> {
    came.push(b' ')?;
    came.push_number(u64::from(number))
}

fn push_instant(at: Second, came: &mut Text) -> Result<(), NoMemory> {
    came.push(b' ')?;
    write_instant(at, came)
}

fn push_day(day: Day, came: &mut Text) -> Result<(), NoMemory> {
    came.push(b' ')?;
    write_day(day, came)
}

fn push_quantity(value: Micro, came: &mut Text) -> Result<(), NoMemory> {
    came.push(b' ')?;
    write_micro(value, came)
}

fn push_addition(
    name: &Name,
    zone: &Name,
    gap: u32,
    arrays: (&RoundingArray, &RoundingArray),
    came: &mut Text,
) -> Result<(), NoMemory> {
    push_word(b"AddStation", came)?;
    push_word(zone.as_slice(), came)?;
    push_settings(name, gap, arrays, came)
}

fn push_setting(
    name: &Name,
    gap: u32,
    arrays: (&RoundingArray, &RoundingArray),
    came: &mut Text,
) -> Result<(), NoMemory> {
    push_word(b"SetStation", came)?;
    push_settings(name, gap, arrays, came)
}

fn push_settings(
    name: &Name,
    gap: u32,
    arrays: (&RoundingArray, &RoundingArray),
    came: &mut Text,
) -> Result<(), NoMemory> {
    push_count(gap, came)?;
    push_word(&arrays.0.digits(), came)?;
    push_word(&arrays.1.digits(), came)?;
    push_word(name.as_slice(), came)
}

fn push_put(readings: &[Reading], came: &mut Text) -> Result<(), NoMemory> {
    push_word(b"PutReadings", came)?;
    for reading in readings {
        push_reading(reading, came)?;
    }
    Ok(())
}

fn push_reading(reading: &Reading, came: &mut Text) -> Result<(), NoMemory> {
    push_instant(reading.at, came)?;
    came.push(b',')?;
    write_micro(reading.raw, came)?;
    came.push(b',')?;
    came.push_slice(flag_word(reading.flag))
}

fn push_span(kind: &[u8], from: Second, to: Second, came: &mut Text) -> Result<(), NoMemory> {
    push_word(kind, came)?;
    push_instant(from, came)?;
    push_instant(to, came)
}

fn push_flagging(from: Second, to: Second, flag: Flag, came: &mut Text) -> Result<(), NoMemory> {
    push_span(b"FlagReadings", from, to, came)?;
    push_word(flag_word(flag), came)
}

fn push_correction(
    set: u8,
    at: Second,
    curve: &Curve,
    prorate: bool,
    came: &mut Text,
) -> Result<(), NoMemory> {
    push_word(b"PutCorrection", came)?;
    push_count(u32::from(set), came)?;
    push_curve(at, curve, prorate, came)
}

fn push_shift(at: Second, curve: &Curve, prorate: bool, came: &mut Text) -> Result<(), NoMemory> {
    push_word(b"PutShift", came)?;
    push_curve(at, curve, prorate, came)
}

fn push_curve(at: Second, curve: &Curve, prorate: bool, came: &mut Text) -> Result<(), NoMemory> {
    push_instant(at, came)?;
    push_word(truth_word(prorate), came)?;
    push_pairs(curve.points(), came)
}

fn push_pairs(pairs: &[(Micro, Micro)], came: &mut Text) -> Result<(), NoMemory> {
    for (first, second) in pairs {
        push_pair(*first, *second, came)?;
    }
    Ok(())
}

fn push_pair(first: Micro, second: Micro, came: &mut Text) -> Result<(), NoMemory> {
    push_quantity(first, came)?;
    came.push(b',')?;
    write_micro(second, came)
}

fn push_dropped_correction(set: u8, at: Second, came: &mut Text) -> Result<(), NoMemory> {
    push_word(b"DropCorrection", came)?;
    push_count(u32::from(set), came)?;
    push_instant(at, came)
}

fn push_dropped(kind: &[u8], at: Second, came: &mut Text) -> Result<(), NoMemory> {
    push_word(kind, came)?;
    push_instant(at, came)
}

fn push_rating(rating: u32, table: &SharedTable, came: &mut Text) -> Result<(), NoMemory> {
    push_word(b"AddRating", came)?;
    push_count(rating, came)?;
    push_pairs(table.table().rows(), came)
}

fn push_period(period: &Period, came: &mut Text) -> Result<(), NoMemory> {
    push_word(b"PutPeriod", came)?;
    push_count(period.rating, came)?;
    push_instant(period.from, came)?;
    match period.until {
        Some(until) => push_instant(until, came),
        None => push_word(b"null", came),
    }
}

fn push_estimate(estimate: &Estimate, came: &mut Text) -> Result<(), NoMemory> {
    push_word(b"PutEstimate", came)?;
    push_day(estimate.day, came)?;
    push_quantity(estimate.discharge, came)
}

fn push_dropped_estimate(day: Day, came: &mut Text) -> Result<(), NoMemory> {
    push_word(b"DropEstimate", came)?;
    push_day(day, came)
}

fn push_measurement(measurement: &Measurement, came: &mut Text) -> Result<(), NoMemory> {
    push_word(b"PutMeasurement", came)?;
    push_count(measurement.number, came)?;
    push_instant(measurement.at, came)?;
    push_quantity(measurement.gage, came)?;
    push_quantity(measurement.discharge, came)?;
    push_word(grade_word(measurement.grade), came)
}

fn push_dropped_measurement(number: u32, came: &mut Text) -> Result<(), NoMemory> {
    push_word(b"DropMeasurement", came)?;
    push_count(number, came)
}

fn push_days(kind: &[u8], from: Day, to: Day, came: &mut Text) -> Result<(), NoMemory> {
    push_word(kind, came)?;
    push_day(from, came)?;
    push_day(to, came)
}

fn push_edition(day: Day, least: Option<u32>, came: &mut Text) -> Result<(), NoMemory> {
    push_word(b"SetEdition", came)?;
    push_day(day, came)?;
    match least {
        Some(minutes) => push_count(minutes, came),
        None => push_word(b"-", came),
    }
}

fn push_decision(from: Day, to: Day, decision: Decision, came: &mut Text) -> Result<(), NoMemory> {
    push_days(b"Decide", from, to, came)?;
    push_word(decision_word(decision), came)
}
