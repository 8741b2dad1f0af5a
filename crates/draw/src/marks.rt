//! What is drawn of rows over time: each kind of mark is one path.

ghost use Rattle.std.specs.Prelude.{◌≡◌, ◌++◌, OnOk};
ghost use Rattle.draw.specs.Marks as marks;
ghost use Rattle.draw.specs.Marks.{class_of, cross_at, day_places, day_text, is_shaded, level_at, mark_text, marks_text, mean_of, measured_of, measurement_text, reading_text, shade_at, tick_at, tick_top};

use crate::elements::{end_path, start_path, write_area, write_cross, write_level, write_tick};
use crate::frames::{Frame, height_of};
use crate::rows::{DayRow, MeasurementRow, Row, Status};
use crate::tables::Table;
use civil_days::StationZone;
use drawings::Axis;
use fixed_units::{Flag, Micro, NoMemory, Reading, Text};

/// A kind of mark.
#[derive(Clone, Copy)]
pub enum Mark {
    /// The mean stage of a day, a level line.
    MeanStage,
    /// The computed discharge of a day, a level line.
    Computed,
    /// The estimated discharge of a day, a level line.
    Estimated,
    /// A day in review, an area.
    Review,
    /// An approved day, an area.
    Approved,
    /// An affected reading, a tick at the upper side.
    Affected,
    /// An erroneous reading, a tick at the lower side.
    Erroneous,
    /// The stage of a measurement, a cross.
    MeasuredStage,
    /// The discharge of a measurement, a cross.
    MeasuredDischarge,
}

/// The class of the path of a kind of mark.
#[tactic(auto, unfolding(crate::specs::Marks::class_of))]
fn class_of(mark: Mark) -> &'static [u8]
    ensures { result.now ≡ class_of mark }
{
    match mark {
        Mark::MeanStage | Mark::Computed => b"daily",
        Mark::Estimated => b"estimated",
        Mark::Review => b"review",
        Mark::Approved => b"approved",
        Mark::Affected => b"affected",
        Mark::Erroneous => b"wrong",
        Mark::MeasuredStage | Mark::MeasuredDischarge => b"cross",
    }
}

/// Adds the path of a kind of mark: the marks of all rows that have one and stand in the frame, and no other.
#[tactic(auto, unfolding(crate::specs::Marks::marks_text))]
pub fn write_marks(
    mark: Mark,
    table: &Table,
    times: &Axis,
    frame: &Frame,
    out: &mut Text,
) -> Result<(), NoMemory>
    ensures { OnOk result (out.new ≡ out.old ++ marks_text mark table.now.station.zone times.now frame.now table.now.rows.items) }
{
    start_path(class_of(mark), out)?;
    write_each(mark, &table.station.zone, &table.rows, times, frame, out)?;
    end_path(out)
}

/// Adds those marks.
fn write_each(
    mark: Mark,
    zone: &StationZone,
    rows: &[Row],
    times: &Axis,
    frame: &Frame,
    out: &mut Text,
) -> Result<(), NoMemory>
    ensures { OnOk result (out.new ≡ out.old ++ marks.each_text mark zone.now times.now frame.now rows.now) }
{
    for row in rows {
        write_mark(mark, zone, row, times, frame, out)?;
    }
    Ok(())
}

/// Adds the mark of a row, if it has one.
#[tactic(auto, unfolding(crate::specs::Marks::mark_text))]
fn write_mark(
    mark: Mark,
    zone: &StationZone,
    row: &Row,
    times: &Axis,
    frame: &Frame,
    out: &mut Text,
) -> Result<(), NoMemory>
    ensures { OnOk result (out.new ≡ out.old ++ mark_text mark zone.now times.now frame.now row.now) }
{
    match row {
        Row::Reading(reading) => write_reading(mark, reading, times, frame, out),
        Row::Day(row) => write_day(mark, zone, row, times, frame, out),
        Row::Measurement(row) => write_measurement(mark, row, times, frame, out),
    }
}

/// Adds the tick of a reading.
fn write_reading(
    mark: Mark,
    reading: &Reading,
    times: &Axis,
    frame: &Frame,
    out: &mut Text,
) -> Result<(), NoMemory>
    ensures { OnOk result (out.new ≡ out.old ++ reading_text mark times.now frame.now reading.now) }
{
    write_tick_at(
        times.place(reading.at.get()),
        tick_top(mark, reading.flag, frame),
        out,
    )
}

/// Where the tick of a reading of a flag begins, if it has one.
fn tick_top(mark: Mark, flag: Flag, frame: &Frame) -> Option<u32>
    ensures { result ≡ tick_top mark flag frame.now }
{
    match mark {
        Mark::Affected => match flag {
            Flag::Affected => Some(frame.top),
            Flag::Usable | Flag::Erroneous => None,
        },
        Mark::Erroneous => match flag {
            Flag::Erroneous => Some(frame.bottom.saturating_sub(10)),
            Flag::Usable | Flag::Affected => None,
        },
        _ => None,
    }
}

/// Adds a tick, where there is a place for it.
fn write_tick_at(x: Option<u32>, y: Option<u32>, out: &mut Text) -> Result<(), NoMemory>
    ensures { OnOk result (out.new ≡ out.old ++ tick_at x y) }
{
    let Some(x) = x else {
        return Ok(());
    };
    let Some(y) = y else {
        return Ok(());
    };
    write_tick(x, y, out)
}

/// Adds the level line or the area of a day.
fn write_day(
    mark: Mark,
    zone: &StationZone,
    row: &DayRow,
    times: &Axis,
    frame: &Frame,
    out: &mut Text,
) -> Result<(), NoMemory>
    ensures { OnOk result (out.new ≡ out.old ++ day_text mark zone.now times.now frame.now row.now) }
{
    let places = day_places(zone, times, row);
    write_level_at(places, height_of(frame, mean_of(mark, row)), out)?;
    if is_shaded(mark, row.status) {
        write_shade_at(places, frame, out)
    } else {
        Ok(())
    }
}

/// Where a day begins and ends.
fn day_places(zone: &StationZone, times: &Axis, row: &DayRow) -> Option<(u32, u32)>
    ensures { result ≡ day_places zone.now times.now row.now.day }
{
    let (start, end) = zone.bounds(row.day);
    let from = times.place(start.get())?;
    let to = times.place(end.get())?;
    Some((from, to))
}

/// The number of a day that a level line stands at, if there is one.
fn mean_of(mark: Mark, row: &DayRow) -> Option<Micro>
    ensures { result ≡ mean_of mark row.now }
{
    match mark {
        Mark::MeanStage => row.stage,
        Mark::Computed if !row.estimated => row.discharge,
        Mark::Estimated if row.estimated => row.discharge,
        _ => None,
    }
}

/// Whether a day of a status has an area.
fn is_shaded(mark: Mark, status: Status) -> bool
    ensures { result ≡ is_shaded mark status }
{
    match mark {
        Mark::Review => matches!(status, Status::Review),
        Mark::Approved => matches!(status, Status::Approved),
        _ => false,
    }
}

/// Adds a level line, where there is a place for it.
fn write_level_at(
    across: Option<(u32, u32)>,
    height: Option<u32>,
    out: &mut Text,
) -> Result<(), NoMemory>
    ensures { OnOk result (out.new ≡ out.old ++ level_at across height) }
{
    let Some((from, to)) = across else {
        return Ok(());
    };
    let Some(y) = height else {
        return Ok(());
    };
    write_level(from, to, y, out)
}

/// Adds an area over a frame, where there is a place for it.
pub fn write_shade_at(
    across: Option<(u32, u32)>,
    frame: &Frame,
    out: &mut Text,
) -> Result<(), NoMemory>
    ensures { OnOk result (out.new ≡ out.old ++ shade_at frame.now across) }
{
    match across {
        Some((from, to)) => write_area(from, to, frame.top, frame.bottom, out),
        None => Ok(()),
    }
}

/// Adds the cross of a measurement.
fn write_measurement(
    mark: Mark,
    row: &MeasurementRow,
    times: &Axis,
    frame: &Frame,
    out: &mut Text,
) -> Result<(), NoMemory>
    ensures { OnOk result (out.new ≡ out.old ++ measurement_text mark times.now frame.now row.now) }
{
    write_cross_at(
        times.place(row.at.get()),
        height_of(frame, measured_of(mark, row)),
        out,
    )
}

/// The number of a measurement that a cross stands at, if there is one.
fn measured_of(mark: Mark, row: &MeasurementRow) -> Option<Micro>
    ensures { result ≡ measured_of mark row.now }
{
    match mark {
        Mark::MeasuredStage => Some(row.stage),
        Mark::MeasuredDischarge => Some(row.discharge),
        _ => None,
    }
}

/// Adds a cross, where there is a place for it.
fn write_cross_at(x: Option<u32>, y: Option<u32>, out: &mut Text) -> Result<(), NoMemory>
    ensures { OnOk result (out.new ≡ out.old ++ cross_at x y) }
{
    let Some(x) = x else {
        return Ok(());
    };
    let Some(y) = y else {
        return Ok(());
    };
    write_cross(x, y, out)
}
