//! The text of a primary computation sheet, line by line.

ghost use Rattle.std.specs.Prelude.{◌≡◌, ◌++◌, ◌∷◌, ◌+◌, ◌≤◌, [], codes, length, decimal, OnOk, IfOk};
ghost use Rattle.std.specs.List.{flat_map};
ghost use Rattle.sheets.specs.Sheets.{IsSheetSize, counts_lines, edition_line, ended, estimate_mark, extremes_lines, figures_lines, means_lines, missing_line, published_line, published_or_dash, sheet, state_line, title_line, unit_or_dash, value_lines};

use crate::parts::{write_count, write_published_or_dash, write_unit_or_dash};
use civil_days::write_day;
use daily_values::{Counts, DayValue, Extremes, Figures, Unit};
use fixed_units::{Day, NoMemory, Published, Site, Text};
use site_texts::write_site;
use std::alloc::Global;

/// The text of the primary computation sheet of a day of a site: what the day's value says, and whether the day is approved
/// or provisional. It has 1 to 2,400 bytes, all of them ASCII.
pub fn sheet_text(
    alloc: Global,
    site: Site,
    day: Day,
    value: &DayValue,
    approved: bool,
) -> Result<Text, NoMemory>
    ensures text { IfOk result (λ text. text ≡ sheet site day value.now approved) }
    ensures size { IfOk result (λ text. IsSheetSize (length text)) }
{
    let mut out = Text::new(alloc);
    write_title(site, day, &mut out)?;
    write_state(approved, &mut out)?;
    write_value(value, &mut out)?;
    Ok(out)
}

/// Adds the line of the site and the day.
#[tactic(auto, unfolding(crate::specs::Sheets::title_line))]
fn write_title(site: Site, day: Day, out: &mut Text) -> Result<(), NoMemory>
    ensures ok { OnOk result (out.new ≡ out.old ++ ended (title_line site day)) }
    ensures size { OnOk result (length (ended (title_line site day)) ≤ 47) }
{
    let _digits = site.digits();
    out.push_slice(b"PRIMARY COMPUTATION ")?;
    write_site(site, out)?;
    out.push(b' ')?;
    write_day(day, out)?;
    out.push(b'\n')
}

/// Adds the line of the state.
fn write_state(approved: bool, out: &mut Text) -> Result<(), NoMemory>
    ensures { OnOk result (out.new ≡ out.old ++ ended (state_line approved)) }
{
    if approved {
        out.push_slice(b"STATE A\n")
    } else {
        out.push_slice(b"STATE P\n")
    }
}

/// Adds the lines of a day's value.
fn write_value(value: &DayValue, out: &mut Text) -> Result<(), NoMemory>
    ensures ok { OnOk result (out.new ≡ out.old ++ flat_map ended (value_lines value.now)) }
    ensures size { OnOk result (length (flat_map ended (value_lines value.now)) ≤ 1700) }
{
    match value {
        DayValue::Empty => out.push_slice(b"EMPTY\n"),
        DayValue::Day(figures) => write_figures(figures, out),
    }
}

/// Adds the lines of a day with figures.
fn write_figures(figures: &Figures, out: &mut Text) -> Result<(), NoMemory>
    ensures ok { OnOk result (out.new ≡ out.old ++ flat_map ended (figures_lines figures.now)) }
    ensures size { OnOk result (length (flat_map ended (figures_lines figures.now)) ≤ 1700) }
{
    write_counts(figures.length(), figures.least(), &figures.counts(), out)?;
    write_means(figures, out)?;
    write_extremes(&figures.extremes(), out)?;
    write_published_line(figures.discharge_text(), figures.estimate().is_some(), out)
}

/// Adds the lines of the length, of the edition and of the readings.
#[tactic(auto, unfolding(crate::specs::Sheets::counts_lines))]
fn write_counts(
    seconds: u32,
    least: Option<u32>,
    counts: &Counts,
    out: &mut Text,
) -> Result<(), NoMemory>
    ensures ok { OnOk result (out.new ≡ out.old ++ flat_map ended (counts_lines seconds least counts.now)) }
    ensures size { OnOk result (length (flat_map ended (counts_lines seconds least counts.now)) ≤ 147) }
{
    write_count_line(b"LENGTH ", seconds, out)?;
    write_edition_line(least, out)?;
    write_count_line(b"READINGS ", counts.readings, out)?;
    write_missing_line(counts, out)
}

/// Adds the line of the edition that the means go by: the first, of the whole day, or the second, of a least cover.
fn write_edition_line(least: Option<u32>, out: &mut Text) -> Result<(), NoMemory>
    ensures ok { OnOk result (out.new ≡ out.old ++ ended (edition_line least)) }
    ensures size { OnOk result (length (ended (edition_line least)) ≤ 27) }
{
    match least {
        Some(minutes) => write_count_line(b"EDITION 2 LEAST ", minutes, out),
        None => out.push_slice(b"EDITION 1\n"),
    }
}

/// Adds the line of a number behind its name.
fn write_count_line(name: &[u8], count: u32, out: &mut Text) -> Result<(), NoMemory>
    ensures ok { OnOk result (out.new ≡ out.old ++ ended (name.now ++ decimal count)) }
    ensures size { OnOk result (length (decimal count) ≤ 10) }
{
    write_count(name, count, out)?;
    out.push(b'\n')
}

/// Adds the line of the readings that have no discharge.
#[tactic(auto, unfolding(crate::specs::Sheets::missing_line))]
fn write_missing_line(counts: &Counts, out: &mut Text) -> Result<(), NoMemory>
    ensures ok { OnOk result (out.new ≡ out.old ++ ended (missing_line counts.now)) }
    ensures size { OnOk result (length (ended (missing_line counts.now)) ≤ 82) }
{
    write_count(b"MISSING AFFECTED ", counts.affected, out)?;
    write_count(b" NORATING ", counts.no_rating, out)?;
    write_count(b" BELOW ", counts.below, out)?;
    write_count(b" ABOVE ", counts.above, out)?;
    out.push(b'\n')
}

/// Adds the lines of the means.
#[tactic(auto, unfolding(crate::specs::Sheets::means_lines))]
fn write_means(figures: &Figures, out: &mut Text) -> Result<(), NoMemory>
    ensures ok { OnOk result (out.new ≡ out.old ++ flat_map ended (means_lines figures.now)) }
    ensures size { OnOk result (length (flat_map ended (means_lines figures.now)) ≤ 572) }
{
    let stage = figures.stage_text();
    write_mean_line(b"STAGE ", stage, figures.stage().covered, out)?;
    let discharge = figures.mean_discharge();
    write_mean_line(b"DISCHARGE ", discharge, figures.discharge().covered, out)
}

/// Adds the line of a mean behind its name.
fn write_mean_line(
    name: &[u8],
    mean: Option<Published>,
    covered: u32,
    out: &mut Text,
) -> Result<(), NoMemory>
    ensures ok { OnOk result (out.new ≡ out.old ++ ended (name.now ++ published_or_dash mean ++ codes " COVERED " ++ decimal covered)) }
    ensures mean { OnOk result (length (published_or_dash mean) ≤ 258) }
    ensures covered { OnOk result (length (decimal covered) ≤ 10) }
{
    out.push_slice(name)?;
    write_published_or_dash(mean, out)?;
    write_count(b" COVERED ", covered, out)?;
    out.push(b'\n')
}

/// Adds the lines of the extremes.
#[tactic(auto, unfolding(crate::specs::Sheets::extremes_lines))]
fn write_extremes(extremes: &Extremes, out: &mut Text) -> Result<(), NoMemory>
    ensures ok { OnOk result (out.new ≡ out.old ++ flat_map ended (extremes_lines extremes.now)) }
    ensures size { OnOk result (length (flat_map ended (extremes_lines extremes.now)) ≤ 680) }
{
    write_extreme_line(b"MAX STAGE ", extremes.max_stage, out)?;
    write_extreme_line(b"MIN STAGE ", extremes.min_stage, out)?;
    write_extreme_line(b"MAX DISCHARGE ", extremes.max_discharge, out)?;
    write_extreme_line(b"MIN DISCHARGE ", extremes.min_discharge, out)
}

/// Adds the line of an extreme behind its name.
fn write_extreme_line(name: &[u8], extreme: Option<Unit>, out: &mut Text) -> Result<(), NoMemory>
    ensures ok { OnOk result (out.new ≡ out.old ++ ended (name.now ++ unit_or_dash extreme)) }
    ensures size { OnOk result (length (unit_or_dash extreme) ≤ 156) }
{
    out.push_slice(name)?;
    write_unit_or_dash(extreme, out)?;
    out.push(b'\n')
}

/// Adds the line of what is published.
#[tactic(auto, unfolding(crate::specs::Sheets::published_line))]
fn write_published_line(
    value: Option<Published>,
    estimated: bool,
    out: &mut Text,
) -> Result<(), NoMemory>
    ensures ok { OnOk result (out.new ≡ out.old ++ ended (published_line value estimated)) }
    ensures size { OnOk result (length (ended (published_line value estimated)) ≤ 271) }
{
    out.push_slice(b"PUBLISHED ")?;
    write_published_or_dash(value, out)?;
    write_estimate_mark(estimated, out)?;
    out.push(b'\n')
}

/// Adds the mark of an estimate, where one stands.
fn write_estimate_mark(estimated: bool, out: &mut Text) -> Result<(), NoMemory>
    ensures ok { OnOk result (out.new ≡ out.old ++ estimate_mark estimated) }
    ensures size { length (estimate_mark estimated) ≤ 2 }
{
    if estimated {
        out.push_slice(b" e")
    } else {
        Ok(())
    }
}
