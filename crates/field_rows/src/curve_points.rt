//! Calls of `curves` on one curve, and how rows write curves.

use crate::notation::{Stop, pairs, push_pairs, quantity, told};
use crate::series;
use curves::{Curve, CurveFault};
use fixed_units::{NoMemory, Text, write_micro};
use row_lines::parted;
use std::alloc::Global;

/// Writes what comes of a call.
pub fn answer(alloc: Global, word: &str, rest: &str, came: &mut Text) -> Result<(), NoMemory> {
    match word {
        "points" => told(points(alloc, rest, came), came),
        "value" => told(value(alloc, rest, came), came),
        _ => series::answer(alloc, word, rest, came),
    }
}

/// `points CURVE`: the points of the curve, or why there is none.
fn points(alloc: Global, text: &str, came: &mut Text) -> Result<(), Stop> {
    match curve_or_fault(alloc, text)? {
        Ok(curve) => Ok(push_pairs(curve.points(), came)?),
        Err(CurveFault::Count) => Ok(came.push_slice(b"count")?),
        Err(CurveFault::NotRising(place)) => Ok(push_not_rising(place, came)?),
    }
}

/// Writes that a stage is not above the one before.
pub fn push_not_rising(place: usize, came: &mut Text) -> Result<(), NoMemory> {
    came.push_slice(b"not rising ")?;
    push_place(place, came)
}

/// Writes a place in a list.
pub fn push_place(place: usize, came: &mut Text) -> Result<(), NoMemory> {
    match u64::try_from(place) {
        Ok(place) => came.push_number(place),
        Err(_) => came.push_slice(b"far"),
    }
}

/// What comes of points, each `STAGE:AMOUNT`, with commas between them.
fn curve_or_fault(alloc: Global, text: &str) -> Result<Result<Curve, CurveFault>, Stop> {
    let points = pairs(alloc, text)?;
    Ok(Curve::new(points.as_slice()))
}

/// A curve by its points.
pub fn curve(alloc: Global, text: &str) -> Result<Curve, Stop> {
    match curve_or_fault(alloc, text)? {
        Ok(curve) => Ok(curve),
        Err(_) => Err(Stop::NotWellFormed),
    }
}

/// `value CURVE STAGE`: the amount there.
fn value(alloc: Global, rest: &str, came: &mut Text) -> Result<(), Stop> {
    let (points, stage) = parted(rest);
    let curve = curve(alloc, points)?;
    Ok(write_micro(curve.value(quantity(stage)?), came)?)
}
