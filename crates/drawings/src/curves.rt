//! A curve of samples in the frame of two axes.

ghost use Rattle.std.specs.Prelude.{◌≡◌, ◌++◌, [], ◌-ℤ◌, All, length, take, IfOk, IfSome, OnOk, OnErr};
ghost use Rattle.drawings.specs.Columns.{path_text};
ghost use Rattle.drawings.specs.Curves.{HasPlaces, IsPointOf, drawn_at, is_joined, points_of, spot, with_point};

use crate::axes::Axis;
use crate::columns::{Point, write_path};
use fixed_units::{NoMemory, Text};
use std::alloc::Global;

/// A number that was read at an instant.
#[derive(Clone, Copy)]
pub struct Sample {
    /// The instant.
    pub at: i64,
    /// The number.
    pub value: i64,
}

/// Adds the path of a curve: each sample that has a place in the frame is at it, and a line joins two exactly where they are neighbours at
/// most the gap apart. Of those that are joined and stand one above another the first, the least, the greatest and the last are kept. A
/// part of the path may be added where memory runs out.
pub fn write_curve(
    alloc: Global,
    samples: &[Sample],
    gap: i64,
    times: &Axis,
    values: &Axis,
    out: &mut Text,
) -> Result<(), NoMemory>
    ensures ok { OnOk result (out.new ≡ out.old ++ path_text (points_of times.now values.now gap samples.now)) }
    ensures err { OnErr result (take (length out.old) out.new ≡ out.old) }
{
    let points = points_of(alloc, samples, gap, times, values)?;
    write_path(points.as_slice(), out)
}

/// The points of samples that have places in the frame: each lies inside the frame, at most half a unit from its exact place.
pub fn points_of(
    alloc: Global,
    samples: &[Sample],
    gap: i64,
    times: &Axis,
    values: &Axis,
) -> Result<Vec<Point>, NoMemory>
    ensures points { IfOk result (λ points. points.items ≡ points_of times.now values.now gap samples.now) }
    ensures places { IfOk result (λ points. All (IsPointOf times.now values.now samples.now) points.items) }
{
    let mut points = Vec::new(alloc);
    let mut before: Option<i64> = None;
    for sample in samples {
        let sample = *sample;
        let place = spot(times, values, &sample);
        add_point(is_joined(gap, before, sample.at), place, &mut points)?;
        before = drawn_at(sample.at, place);
    }
    Ok(points)
}

/// Adds the point of a sample, where it has a place.
fn add_point(
    joined: bool,
    place: Option<(u32, u32)>,
    points: &mut Vec<Point>,
) -> Result<(), NoMemory>
    ensures { OnOk result (points.new.items ≡ points.old.items ++ with_point joined place []) }
{
    if let Some((x, y)) = place {
        points.push(Point { x, y, joined })?;
    }
    Ok(())
}

/// The instant of a sample that the next one may be joined to: that of one that has a place.
fn drawn_at(at: i64, place: Option<(u32, u32)>) -> Option<i64>
    ensures { result ≡ drawn_at at place }
{
    match place {
        Some(_) => Some(at),
        None => None,
    }
}

/// The place of a sample in the frame of two axes, where both its numbers have one.
fn spot(times: &Axis, values: &Axis, sample: &Sample) -> Option<(u32, u32)>
    ensures spot { result ≡ spot times.now values.now sample.now }
    ensures places { IfSome result (HasPlaces times.now values.now sample.now) }
{
    let x = times.place(sample.at)?;
    let y = values.place(sample.value)?;
    Some((x, y))
}

/// Whether a sample is joined to the one right before it, if that is drawn.
fn is_joined(gap: i64, before: Option<i64>, at: i64) -> bool
    ensures { result ≡ is_joined gap before at }
{
    match before {
        Some(before) => difference(before, at) <= i128::from(gap),
        None => false,
    }
}

/// How much more one number is than another.
fn difference(from: i64, to: i64) -> i128
    ensures { result ≡ to -ℤ from }
{
    i128::from(to) - i128::from(from)
}
