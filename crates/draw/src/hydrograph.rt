//! A hydrograph: discharges above, stages below, over one axis of time.

ghost use Rattle.std.specs.Prelude.{◌≡◌, ◌++◌, IfOk, OnOk};
ghost use Rattle.draw.specs.Curves.{samples_of};
ghost use Rattle.draw.specs.Hydrographs.{IsDrawn, IsDrawnOver, IsOutcome, areas_text, flows_text, over_text, stages_text, title_text, under_text, zone_text};

use crate::curves::{samples_of, write_gaps, write_stages};
use crate::dates::write_dates;
use crate::elements::{end_label, start_label};
use crate::frames::{Frame, frame_of, time_axis, write_frame};
use crate::marks::{Mark, write_marks};
use crate::spreads::{Quantity, time_span};
use crate::style::{FLOW_BOTTOM, FLOW_TOP, HEAD, LEFT, RIGHT, STAGE_BOTTOM, STAGE_TOP, TAIL};
use crate::tables::{Station, Table};
use drawings::{Axis, Sample, write_escaped};
use fixed_units::{NoMemory, Text};
use site_texts::write_site;
use std::alloc::Global;

/// Adds the hydrograph of a table, or nothing where its rows have no two instants, which is answered by `false`.
pub fn write_hydrograph(alloc: Global, table: &Table, out: &mut Text) -> Result<bool, NoMemory>
    ensures { IfOk result (IsOutcome table.now out.old out.new) }
{
    let Some(times) = time_axis(time_span(&table.station.zone, &table.rows)) else {
        return Ok(false);
    };
    write_picture(alloc, table, &times, out)?;
    Ok(true)
}

/// Adds the hydrograph over an axis of time.
fn write_picture(alloc: Global, table: &Table, times: &Axis, out: &mut Text) -> Result<(), NoMemory>
    ensures { OnOk result (IsDrawnOver table.now times.now out.old out.new) }
{
    let flows = frame_of(Quantity::Discharge, &table.rows, FLOW_TOP, FLOW_BOTTOM);
    let stages = frame_of(Quantity::Stage, &table.rows, STAGE_TOP, STAGE_BOTTOM);
    let samples = samples_of(alloc, &table.rows)?;
    write_under(alloc, table, &samples, times, &stages, out)?;
    write_over(alloc, table, &samples, times, &flows, &stages, out)
}

/// Adds what lies below all lines: the title, the areas, and the lines of dates.
fn write_under(
    alloc: Global,
    table: &Table,
    samples: &[Sample],
    times: &Axis,
    stages: &Frame,
    out: &mut Text,
) -> Result<(), NoMemory>
    requires { samples.now ≡ samples_of table.now.rows.items }
    ensures { OnOk result (out.new ≡ out.old ++ under_text table.now times.now stages.now) }
{
    out.push_slice(HEAD)?;
    write_title(&table.station, out)?;
    write_areas(table, times, out)?;
    write_gaps(samples, table.station.gap, times, stages, out)?;
    write_dates(alloc, &table.station.zone, times, out)
}

/// Adds the title.
fn write_title(station: &Station, out: &mut Text) -> Result<(), NoMemory>
    ensures { OnOk result (out.new ≡ out.old ++ (title_text station.now ++ zone_text station.now)) }
{
    write_name(station, out)?;
    write_zone(station, out)
}

/// Adds the site and the name of a station.
#[tactic(auto, unfolding(crate::specs::Hydrographs::title_text))]
fn write_name(station: &Station, out: &mut Text) -> Result<(), NoMemory>
    ensures { OnOk result (out.new ≡ out.old ++ title_text station.now) }
{
    start_label(b"title", LEFT, 34, out)?;
    write_site(station.site, out)?;
    out.push(b' ')?;
    write_escaped(station.name.as_slice(), out)?;
    end_label(out)
}

/// Adds the zone of a station.
fn write_zone(station: &Station, out: &mut Text) -> Result<(), NoMemory>
    ensures { OnOk result (out.new ≡ out.old ++ zone_text station.now) }
{
    start_label(b"left", RIGHT, 74, out)?;
    out.push_slice(b"days of the zone ")?;
    write_escaped(station.zone.text(), out)?;
    end_label(out)
}

/// Adds the areas of days that are in review or approved.
#[tactic(auto, unfolding(crate::specs::Hydrographs::areas_text))]
fn write_areas(table: &Table, times: &Axis, out: &mut Text) -> Result<(), NoMemory>
    ensures { OnOk result (out.new ≡ out.old ++ areas_text table.now times.now) }
{
    let whole = Frame {
        top: FLOW_TOP,
        bottom: STAGE_BOTTOM,
        numbers: None,
    };
    write_marks(Mark::Review, table, times, &whole, out)?;
    write_marks(Mark::Approved, table, times, &whole, out)
}

/// Adds both frames and what is drawn in them, and the end of the picture.
fn write_over(
    alloc: Global,
    table: &Table,
    samples: &[Sample],
    times: &Axis,
    flows: &Frame,
    stages: &Frame,
    out: &mut Text,
) -> Result<(), NoMemory>
    requires { samples.now ≡ samples_of table.now.rows.items }
    ensures { OnOk result (out.new ≡ out.old ++ over_text table.now times.now flows.now stages.now) }
{
    write_flows(table, times, flows, out)?;
    write_frame(stages, b"Stage, feet", out)?;
    write_stages(alloc, samples, table.station.gap, times, stages, out)?;
    write_stage_marks(table, times, stages, out)?;
    out.push_slice(TAIL)
}

/// Adds the frame of discharges, the means of days and the measurements.
fn write_flows(table: &Table, times: &Axis, flows: &Frame, out: &mut Text) -> Result<(), NoMemory>
    ensures { OnOk result (out.new ≡ out.old ++ flows_text table.now times.now flows.now) }
{
    write_frame(flows, b"Discharge, cubic feet per second", out)?;
    write_marks(Mark::Computed, table, times, flows, out)?;
    write_marks(Mark::Estimated, table, times, flows, out)?;
    write_marks(Mark::MeasuredDischarge, table, times, flows, out)
}

/// Adds the ticks of readings, the mean stages of days and the measurements.
fn write_stage_marks(
    table: &Table,
    times: &Axis,
    stages: &Frame,
    out: &mut Text,
) -> Result<(), NoMemory>
    ensures { OnOk result (out.new ≡ out.old ++ stages_text table.now times.now stages.now) }
{
    write_marks(Mark::Affected, table, times, stages, out)?;
    write_marks(Mark::Erroneous, table, times, stages, out)?;
    write_marks(Mark::MeanStage, table, times, stages, out)?;
    write_marks(Mark::MeasuredStage, table, times, stages, out)
}
