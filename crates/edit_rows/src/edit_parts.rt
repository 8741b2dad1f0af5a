//! Calls of `edits` on the parts of an edit: whether each may be one.

use crate::edit_bytes::{push_pieces, push_text};
use crate::edit_notation::{
    curve_of, estimate_of, instants_of, quantity_of, reading_of, readings_of,
};
use crate::edit_words::{grade_of, grade_word, push_two, truth_word};
use edits::{
    By, Comment, Grade, Name, Ref, are_put_readings, are_settings, is_comment, is_gap,
    is_measurement_number, is_name, is_put_curve, is_put_estimate, is_put_point, is_put_reading,
    is_rating_number, is_reading_count, is_reading_span, is_set_number, is_zone,
};
use fixed_units::{Micro, NoMemory, Text};
use std::alloc::Global;

/// Writes what comes of a call.
pub fn answer(alloc: Global, word: &str, rest: &str, came: &mut Text) -> Result<(), NoMemory> {
    match word {
        "text" => text(alloc, rest, came),
        "comment" => comment(alloc, rest, came),
        "gap" => push_gap(rest, came),
        "zone" => zone(alloc, rest, came),
        "count" => push_told(is_count(rest), came),
        "set" => push_told(is_set(rest), came),
        "numbers" => push_numbers(rest, came),
        "grade" => push_grade(grade_of(rest), came),
        _ => answer_of_values(alloc, word, rest, came),
    }
}

fn answer_of_values(
    alloc: Global,
    word: &str,
    rest: &str,
    came: &mut Text,
) -> Result<(), NoMemory> {
    match word {
        "graded" => push_graded(rest, came),
        "readings" => push_told(are_put(alloc, rest), came),
        "reading" => push_told(is_put(rest), came),
        "span" => push_told(is_span(rest), came),
        "estimate" => push_told(is_estimate(rest), came),
        "point" => point(alloc, rest, came),
        _ => came.push_slice(b"no such call"),
    }
}

fn push_told(told: Option<bool>, came: &mut Text) -> Result<(), NoMemory> {
    match told {
        Some(told) => came.push_slice(truth_word(told)),
        None => came.push_slice(b"not well formed"),
    }
}

/// `text TEXT`: whether it is one's initials, a reference, and a name by its test and as one.
fn text(alloc: Global, text: &str, came: &mut Text) -> Result<(), NoMemory> {
    let mut bytes = Text::new(alloc);
    push_text(text, &mut bytes)?;
    push_names(bytes.as_slice(), came)?;
    let named = Name::new(bytes).is_some();
    came.push(b' ')?;
    came.push_slice(truth_word(named))
}

fn push_names(bytes: &[u8], came: &mut Text) -> Result<(), NoMemory> {
    push_two(By::new(bytes).is_some(), Ref::new(bytes).is_some(), came)?;
    came.push(b' ')?;
    came.push_slice(truth_word(is_name(bytes)))
}

/// `comment BYTES`: whether they are a comment by its test, and as one.
fn comment(alloc: Global, text: &str, came: &mut Text) -> Result<(), NoMemory> {
    let mut bytes = Text::new(alloc);
    push_pieces(text, &mut bytes)?;
    let made = Comment::new(alloc, bytes.as_slice())?;
    push_two(is_comment(bytes.as_slice()), made.is_some(), came)
}

/// `gap MINUTES`: whether it is a gap tolerance, alone and among the settings of a station.
fn push_gap(text: &str, came: &mut Text) -> Result<(), NoMemory> {
    match text.parse() {
        Ok(gap) => push_two(is_gap(gap), is_set_with(gap), came),
        Err(_) => came.push_slice(b"not well formed"),
    }
}

fn is_set_with(gap: u32) -> bool {
    are_settings(b"POTOMAC", gap, b"9999999992", b"0222233332")
}

/// `zone TEXT`: whether it is a station's zone.
fn zone(alloc: Global, text: &str, came: &mut Text) -> Result<(), NoMemory> {
    let mut bytes = Text::new(alloc);
    push_text(text, &mut bytes)?;
    let told = is_zone(alloc, bytes.as_slice())?;
    came.push_slice(truth_word(told))
}

/// `count COUNT`: whether an edit may put so many readings.
fn is_count(text: &str) -> Option<bool> {
    Some(is_reading_count(text.parse().ok()?))
}

/// `set NUMBER`: whether it is that of a correction set.
fn is_set(text: &str) -> Option<bool> {
    Some(is_set_number(text.parse().ok()?))
}

/// `numbers NUMBER`: whether it is that of a rating, and of a measurement.
fn push_numbers(text: &str, came: &mut Text) -> Result<(), NoMemory> {
    match text.parse() {
        Ok(number) => push_two(
            is_rating_number(number),
            is_measurement_number(number),
            came,
        ),
        Err(_) => came.push_slice(b"not well formed"),
    }
}

/// `grade GRADE`: its number.
fn push_grade(grade: Option<Grade>, came: &mut Text) -> Result<(), NoMemory> {
    match grade {
        Some(grade) => came.push_number(u64::from(grade.number())),
        None => came.push_slice(b"not well formed"),
    }
}

/// `graded NUMBER`: the grade that has it.
fn push_graded(text: &str, came: &mut Text) -> Result<(), NoMemory> {
    match text.parse() {
        Ok(number) => came.push_slice(graded(number)),
        Err(_) => came.push_slice(b"not well formed"),
    }
}

fn graded(number: u8) -> &'static [u8] {
    match Grade::of_number(number) {
        Some(grade) => grade_word(grade),
        None => b"none",
    }
}

/// `readings READING ..`: whether an edit may put them.
fn are_put(alloc: Global, text: &str) -> Option<bool> {
    let readings = readings_of(alloc, text)?;
    Some(are_put_readings(readings.as_slice()))
}

/// `reading READING`: whether an edit may put it.
fn is_put(text: &str) -> Option<bool> {
    Some(is_put_reading(&reading_of(text)?))
}

/// `span FROM TO`: whether the readings of the span may be dropped.
fn is_span(text: &str) -> Option<bool> {
    let (from, to) = instants_of(text)?;
    Some(is_reading_span(from, to))
}

/// `estimate DAY DISCHARGE`: whether an edit may put it.
fn is_estimate(text: &str) -> Option<bool> {
    Some(is_put_estimate(&estimate_of(text)?))
}

/// `point STAGE,AMOUNT`: whether an edit may put it, and a curve of it alone.
fn point(alloc: Global, text: &str, came: &mut Text) -> Result<(), NoMemory> {
    push_told(is_point(text), came)?;
    came.push(b' ')?;
    push_told(is_curve(alloc, text), came)
}

fn is_point(text: &str) -> Option<bool> {
    let (stage, amount) = text.split_once(',')?;
    let place: (Micro, Micro) = (quantity_of(stage)?, quantity_of(amount)?);
    Some(is_put_point(&place))
}

fn is_curve(alloc: Global, text: &str) -> Option<bool> {
    Some(is_put_curve(&curve_of(alloc, text)?))
}
