//! The curve of the readings that are not erroneous, and the gaps in it.

ghost use Rattle.std.specs.Prelude.{◌≡◌, ◌++◌, ◌-ℤ◌, int_le, IfOk, OnOk};
ghost use Rattle.drawings.specs.declared.curves.Sample.{Sample};
ghost use Rattle.draw.specs.Curves as curves;
ghost use Rattle.draw.specs.Curves.{curve_text, gap_places, gap_seconds, gap_text, gaps_text, instants_places, sample_of, samples_of};

use crate::elements::{end_path, start_path};
use crate::frames::{Frame, Numbers};
use crate::marks::write_shade_at;
use crate::rows::Row;
use crate::spreads::usable_stage;
use drawings::{Axis, Sample, write_curve};
use fixed_units::{NoMemory, Text};
use std::alloc::Global;

/// The samples of the readings among rows that are not erroneous.
pub fn samples_of(alloc: Global, rows: &[Row]) -> Result<Vec<Sample>, NoMemory>
    ensures { IfOk result (λ samples. samples.items ≡ samples_of rows.now) }
{
    let mut samples = Vec::new(alloc);
    for row in rows {
        add_sample(row, &mut samples)?;
    }
    Ok(samples)
}

/// Adds the sample of a row, if it is such a reading.
fn add_sample(row: &Row, samples: &mut Vec<Sample>) -> Result<(), NoMemory>
    ensures { OnOk result (samples.new.items ≡ samples.old.items ++ sample_of row.now) }
{
    if let Row::Reading(reading) = row
        && let Some(stage) = usable_stage(reading)
    {
        samples.push(Sample {
            at: reading.at.get(),
            value: stage.get(),
        })?;
    }
    Ok(())
}

/// Adds the curve of samples: a line joins two exactly where they are neighbours at most the gap apart, which is told in minutes.
#[tactic(auto, unfolding(crate::specs::Curves::curve_text))]
pub fn write_stages(
    alloc: Global,
    samples: &[Sample],
    gap: u32,
    times: &Axis,
    frame: &Frame,
    out: &mut Text,
) -> Result<(), NoMemory>
    ensures { OnOk result (out.new ≡ out.old ++ curve_text times.now frame.now gap samples.now) }
{
    match &frame.numbers {
        Some(numbers) => write_stages_at(alloc, samples, gap, times, numbers, out),
        None => Ok(()),
    }
}

/// Adds the curve of samples over numbers.
fn write_stages_at(
    alloc: Global,
    samples: &[Sample],
    gap: u32,
    times: &Axis,
    numbers: &Numbers,
    out: &mut Text,
) -> Result<(), NoMemory>
    ensures { OnOk result (out.new ≡ out.old ++ curves.curve_text_at times.now numbers.now gap samples.now) }
{
    start_path(b"stage", out)?;
    write_curve(alloc, samples, gap_seconds(gap), times, &numbers.axis, out)?;
    end_path(out)
}

/// Adds an area wherever two neighbouring samples are further apart than the gap.
#[tactic(auto, unfolding(crate::specs::Curves::gaps_text))]
pub fn write_gaps(
    samples: &[Sample],
    gap: u32,
    times: &Axis,
    frame: &Frame,
    out: &mut Text,
) -> Result<(), NoMemory>
    ensures { OnOk result (out.new ≡ out.old ++ gaps_text gap times.now frame.now samples.now) }
{
    start_path(b"gap", out)?;
    write_each_gap(samples, gap, times, frame, out)?;
    end_path(out)
}

/// Adds those areas.
fn write_each_gap(
    samples: &[Sample],
    gap: u32,
    times: &Axis,
    frame: &Frame,
    out: &mut Text,
) -> Result<(), NoMemory>
    ensures { OnOk result (out.new ≡ out.old ++ curves.each_gap gap times.now frame.now samples.now) }
{
    for place in 0..samples.len() {
        write_gap(&samples[place..], gap, times, frame, out)?;
    }
    Ok(())
}

/// Adds the area between the first two samples, if they are further apart than the gap.
#[tactic(auto, unfolding(crate::specs::Curves::gap_text))]
fn write_gap(
    samples: &[Sample],
    gap: u32,
    times: &Axis,
    frame: &Frame,
    out: &mut Text,
) -> Result<(), NoMemory>
    ensures { OnOk result (out.new ≡ out.old ++ gap_text gap times.now frame.now samples.now) }
{
    match samples {
        [before, behind, ..] => {
            write_shade_at(gap_places(gap, before.at, behind.at, times), frame, out)
        }
        _ => Ok(()),
    }
}

/// Where the gap between two instants begins and ends, if there is one.
#[tactic(auto, unfolding(crate::specs::Curves::gap_places))]
fn gap_places(gap: u32, before: i64, at: i64, times: &Axis) -> Option<(u32, u32)>
    ensures { result ≡ gap_places times.now gap before at }
{
    if are_joined(gap, before, at) {
        None
    } else {
        instants_places(before, at, times)
    }
}

/// Where two instants stand, if both have a place.
fn instants_places(before: i64, at: i64, times: &Axis) -> Option<(u32, u32)>
    ensures { result ≡ instants_places times.now before at }
{
    let from = times.place(before)?;
    let to = times.place(at)?;
    Some((from, to))
}

/// Whether two instants are at most the gap apart.
fn are_joined(gap: u32, before: i64, at: i64) -> bool
    ensures { result ≡ int_le (at -ℤ before) (gap_seconds gap) }
{
    difference(before, at) <= i128::from(gap_seconds(gap))
}

/// The gap tolerance in seconds.
fn gap_seconds(minutes: u32) -> i64
    ensures { result ≡ gap_seconds minutes }
{
    i64::from(minutes) * 60
}

/// How much later one instant is than another.
fn difference(from: i64, to: i64) -> i128
    ensures { result ≡ to -ℤ from }
{
    i128::from(to) - i128::from(from)
}
