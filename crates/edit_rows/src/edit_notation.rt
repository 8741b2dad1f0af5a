//! Edits as rows have them, read: `INITIALS REFERENCE SITE KIND FIELDS`, a field a word and a name last, and behind ` # ` the comment where
//! there is one. An instant is a stamp or `@` and its seconds, a quantity a decimal or `@` and its millionths; a reading, a point or a row
//! of a rating is one word, with commas.

use crate::edit_words::{decision_of, flag_of, grade_of, truth_of};
use civil_days::{read_day, read_instant};
use curves::Curve;
use edits::{By, Comment, Edit, EditFault, Estimate, Measurement, Name, Ref, What};
use fixed_units::{Micro, Reading, RoundingArray, Second, Text, read_decimal};
use rating_tables::{SharedTable, Table};
use ratings::Period;
use readings::ReadingList;
use row_lines::parted;
use site_texts::read_site;
use std::alloc::Global;

/// What making the edit of a text answers; `None` where a part of the text is none.
pub fn made(alloc: Global, text: &str) -> Option<Result<Edit, EditFault>> {
    match text.split_once(" # ") {
        Some((edit, comment)) => made_for(made_alone(alloc, edit)?, comment_of(alloc, comment)?),
        None => made_alone(alloc, text),
    }
}

/// The same with the comment.
fn made_for(made: Result<Edit, EditFault>, comment: Comment) -> Option<Result<Edit, EditFault>> {
    match made {
        Ok(edit) => Some(Ok(edit.with_comment(comment))),
        Err(fault) => Some(Err(fault)),
    }
}

fn comment_of(alloc: Global, text: &str) -> Option<Comment> {
    Comment::new(alloc, text.as_bytes()).ok()?
}

fn made_alone(alloc: Global, text: &str) -> Option<Result<Edit, EditFault>> {
    let (by, rest) = parted(text);
    let (reference, rest) = parted(rest);
    let (site, rest) = parted(rest);
    let by = By::new(by.as_bytes())?;
    let reference = Ref::new(reference.as_bytes())?;
    let site = read_site(site.as_bytes())?;
    Some(Edit::new(alloc, by, reference, site, what_of(alloc, rest)?))
}

/// The edit of a text, where it is one.
pub fn edit_of(alloc: Global, text: &str) -> Option<Edit> {
    made(alloc, text)?.ok()
}

fn what_of(alloc: Global, text: &str) -> Option<What> {
    let (kind, rest) = parted(text);
    match kind {
        "AddStation" => addition(alloc, rest),
        "SetStation" => setting(alloc, rest),
        "PutReadings" => put(alloc, rest),
        "DropReadings" => dropped_readings(rest),
        "FlagReadings" => flagging(rest),
        _ => entry(alloc, kind, rest),
    }
}

fn entry(alloc: Global, kind: &str, rest: &str) -> Option<What> {
    match kind {
        "PutCorrection" => correction(alloc, rest),
        "DropCorrection" => dropped_correction(rest),
        "PutShift" => shift(alloc, rest),
        "DropShift" => dropped_shift(rest),
        "AddRating" => rating(alloc, rest),
        "PutPeriod" => period(rest),
        "DropPeriod" => dropped_period(rest),
        _ => day_change(kind, rest),
    }
}

fn day_change(kind: &str, rest: &str) -> Option<What> {
    match kind {
        "PutEstimate" => estimate(rest),
        "DropEstimate" => dropped_estimate(rest),
        "PutMeasurement" => measurement(rest),
        "DropMeasurement" => dropped_measurement(rest),
        "Review" => review(rest),
        "Decide" => decision(rest),
        "SetEdition" => edition(rest),
        _ => None,
    }
}

/// The instant of a word.
pub fn instant_of(word: &str) -> Option<Second> {
    match word.strip_prefix('@') {
        Some(seconds) => Second::new(seconds.parse().ok()?),
        None => read_instant(word.as_bytes()),
    }
}

/// The quantity of a word.
pub fn quantity_of(word: &str) -> Option<Micro> {
    match word.strip_prefix('@') {
        Some(millionths) => Micro::new(millionths.parse().ok()?),
        None => read_decimal(word.as_bytes()).ok(),
    }
}

fn name_of(alloc: Global, text: &str) -> Option<Name> {
    Name::new(Text::from_vec(text.as_bytes().to_vec(alloc).ok()?))
}

/// What is set of a station beside its name.
#[derive(Clone, Copy)]
struct Settings {
    gap: u32,
    stages: RoundingArray,
    discharges: RoundingArray,
}

/// The settings at the front of a text.
fn settings_of(text: &str) -> Option<Settings> {
    let (gap, rest) = parted(text);
    let (stages, rest) = parted(rest);
    let (discharges, _) = parted(rest);
    Some(Settings {
        gap: gap.parse().ok()?,
        stages: RoundingArray::read(stages.as_bytes())?,
        discharges: RoundingArray::read(discharges.as_bytes())?,
    })
}

/// The name behind the settings.
fn name_behind(text: &str) -> &str {
    let (_, rest) = parted(text);
    let (_, rest) = parted(rest);
    let (_, name) = parted(rest);
    name
}

/// `AddStation ZONE GAP STAGES DISCHARGES NAME`.
fn addition(alloc: Global, text: &str) -> Option<What> {
    let (zone, rest) = parted(text);
    let settings = settings_of(rest)?;
    added(alloc, zone, settings, name_of(alloc, name_behind(rest))?)
}

fn added(alloc: Global, zone: &str, settings: Settings, name: Name) -> Option<What> {
    let zone = name_of(alloc, zone)?;
    Some(What::AddStation {
        name,
        zone,
        gap: settings.gap,
        stage_array: settings.stages,
        discharge_array: settings.discharges,
    })
}

/// `SetStation GAP STAGES DISCHARGES NAME`.
fn setting(alloc: Global, text: &str) -> Option<What> {
    let settings = settings_of(text)?;
    Some(What::SetStation {
        name: name_of(alloc, name_behind(text))?,
        gap: settings.gap,
        stage_array: settings.stages,
        discharge_array: settings.discharges,
    })
}

/// `PutReadings READING ..`.
fn put(alloc: Global, text: &str) -> Option<What> {
    let readings = ReadingList::from_vec(readings_of(alloc, text)?);
    Some(What::PutReadings { readings })
}

/// The readings of a text: each an instant, a stage and a flag.
pub fn readings_of(alloc: Global, text: &str) -> Option<Vec<Reading>> {
    let mut readings = Vec::new(alloc);
    push_readings(text, &mut readings)?;
    Some(readings)
}

fn push_readings(text: &str, readings: &mut Vec<Reading>) -> Option<()> {
    for word in text.split(' ') {
        if !word.is_empty() {
            push_reading(word, readings)?;
        }
    }
    Some(())
}

fn push_reading(word: &str, readings: &mut Vec<Reading>) -> Option<()> {
    let reading = reading_of(word)?;
    readings.push(reading).ok()
}

/// The reading of a word.
pub fn reading_of(word: &str) -> Option<Reading> {
    let (at, rest) = word.split_once(',')?;
    let (stage, flag) = rest.split_once(',')?;
    reading_by(at, stage, flag)
}

fn reading_by(at: &str, stage: &str, flag: &str) -> Option<Reading> {
    Some(Reading {
        at: instant_of(at)?,
        raw: quantity_of(stage)?,
        flag: flag_of(flag)?,
    })
}

/// `DropReadings FROM TO`.
fn dropped_readings(text: &str) -> Option<What> {
    let (from, to) = instants_of(text)?;
    Some(What::DropReadings { from, to })
}

/// `FlagReadings FROM TO FLAG`.
fn flagging(text: &str) -> Option<What> {
    let (span, flag) = text.rsplit_once(' ')?;
    let (from, to) = instants_of(span)?;
    let flag = flag_of(flag)?;
    Some(What::FlagReadings { from, to, flag })
}

/// Two instants.
pub fn instants_of(text: &str) -> Option<(Second, Second)> {
    let (from, to) = parted(text);
    Some((instant_of(from)?, instant_of(to)?))
}

/// The pairs of quantities of a text.
fn pairs_of(alloc: Global, text: &str) -> Option<Vec<(Micro, Micro)>> {
    let mut pairs = Vec::new(alloc);
    push_pairs(text, &mut pairs)?;
    Some(pairs)
}

fn push_pairs(text: &str, pairs: &mut Vec<(Micro, Micro)>) -> Option<()> {
    for word in text.split(' ') {
        push_pair(word, pairs)?;
    }
    Some(())
}

fn push_pair(word: &str, pairs: &mut Vec<(Micro, Micro)>) -> Option<()> {
    let pair = pair_of(word)?;
    pairs.push(pair).ok()
}

fn pair_of(word: &str) -> Option<(Micro, Micro)> {
    let (first, second) = word.split_once(',')?;
    Some((quantity_of(first)?, quantity_of(second)?))
}

/// The curve of the points of a text.
pub fn curve_of(alloc: Global, text: &str) -> Option<Curve> {
    let points = pairs_of(alloc, text)?;
    Curve::new(points.as_slice()).ok()
}

/// `PutCorrection SET AT PRORATE POINT ..`.
fn correction(alloc: Global, text: &str) -> Option<What> {
    let (set, rest) = parted(text);
    let (at, rest) = parted(rest);
    let (prorate, points) = parted(rest);
    Some(What::PutCorrection {
        set: set.parse().ok()?,
        at: instant_of(at)?,
        curve: curve_of(alloc, points)?,
        prorate: truth_of(prorate)?,
    })
}

/// `DropCorrection SET AT`.
fn dropped_correction(text: &str) -> Option<What> {
    let (set, at) = parted(text);
    Some(What::DropCorrection {
        set: set.parse().ok()?,
        at: instant_of(at)?,
    })
}

/// `PutShift AT PRORATE POINT ..`.
fn shift(alloc: Global, text: &str) -> Option<What> {
    let (at, rest) = parted(text);
    let (prorate, points) = parted(rest);
    Some(What::PutShift {
        at: instant_of(at)?,
        curve: curve_of(alloc, points)?,
        prorate: truth_of(prorate)?,
    })
}

/// `DropShift AT`.
fn dropped_shift(text: &str) -> Option<What> {
    let at = instant_of(text)?;
    Some(What::DropShift { at })
}

/// `AddRating NUMBER ROW ..`.
fn rating(alloc: Global, text: &str) -> Option<What> {
    let (rating, rows) = parted(text);
    Some(What::AddRating {
        rating: rating.parse().ok()?,
        table: table_of(alloc, rows)?,
    })
}

fn table_of(alloc: Global, text: &str) -> Option<SharedTable> {
    let table = Table::from_vec(pairs_of(alloc, text)?).ok()?;
    SharedTable::new(alloc, table).ok()
}

/// `PutPeriod NUMBER FROM UNTIL`, and `null` for no end.
fn period(text: &str) -> Option<What> {
    let (rating, rest) = parted(text);
    let (from, until) = parted(rest);
    let until = end_of(until)?;
    let period = Period::new(instant_of(from)?, until, rating.parse().ok()?)?;
    Some(What::PutPeriod { period })
}

fn end_of(word: &str) -> Option<Option<Second>> {
    match word {
        "null" => Some(None),
        _ => Some(Some(instant_of(word)?)),
    }
}

/// `DropPeriod FROM`.
fn dropped_period(text: &str) -> Option<What> {
    let from = instant_of(text)?;
    Some(What::DropPeriod { from })
}

/// `PutEstimate DAY DISCHARGE`.
fn estimate(text: &str) -> Option<What> {
    let estimate = estimate_of(text)?;
    Some(What::PutEstimate { estimate })
}

/// The estimate of a day and a discharge.
pub fn estimate_of(text: &str) -> Option<Estimate> {
    let (day, discharge) = parted(text);
    Some(Estimate {
        day: read_day(day.as_bytes())?,
        discharge: quantity_of(discharge)?,
    })
}

/// `DropEstimate DAY`.
fn dropped_estimate(text: &str) -> Option<What> {
    let day = read_day(text.as_bytes())?;
    Some(What::DropEstimate { day })
}

/// `PutMeasurement NUMBER AT GAGE DISCHARGE GRADE`.
fn measurement(text: &str) -> Option<What> {
    let (number, rest) = parted(text);
    let (at, rest) = parted(rest);
    let (gage, rest) = parted(rest);
    let (discharge, grade) = parted(rest);
    let measurement = Measurement {
        number: number.parse().ok()?,
        at: instant_of(at)?,
        gage: quantity_of(gage)?,
        discharge: quantity_of(discharge)?,
        grade: grade_of(grade)?,
    };
    Some(What::PutMeasurement { measurement })
}

/// `DropMeasurement NUMBER`.
fn dropped_measurement(text: &str) -> Option<What> {
    let number = text.parse().ok()?;
    Some(What::DropMeasurement { number })
}

/// `Review FROM TO`.
fn review(text: &str) -> Option<What> {
    let (from, to) = parted(text);
    Some(What::Review {
        from: read_day(from.as_bytes())?,
        to: read_day(to.as_bytes())?,
    })
}

/// `SetEdition DAY LEAST`: minutes, or a dash.
fn edition(text: &str) -> Option<What> {
    let (day, least) = parted(text);
    Some(What::SetEdition {
        day: read_day(day.as_bytes())?,
        least: least_of(least)?,
    })
}

/// The least cover of a word, or none of a dash.
fn least_of(word: &str) -> Option<Option<u32>> {
    match word {
        "-" => Some(None),
        minutes => Some(Some(minutes.parse().ok()?)),
    }
}

/// `Decide FROM TO DECISION`.
fn decision(text: &str) -> Option<What> {
    let (from, rest) = parted(text);
    let (to, decision) = parted(rest);
    Some(What::Decide {
        from: read_day(from.as_bytes())?,
        to: read_day(to.as_bytes())?,
        decision: decision_of(decision)?,
    })
}
