//! The dates that are told below the frames: round ones, so many that their texts stand apart.

ghost use Rattle.std.specs.Prelude.{◌≡◌, ◌++◌, ◌<◌, ◌+ℤ◌, pos, OnOk};
ghost use Rattle.civil_days.specs.Texts.{day_text};
ghost use Rattle.fixed_units.specs.Quantities.{first_day};
ghost use Rattle.draw.specs.Dates as dates;
ghost use Rattle.draw.specs.Dates.{date_at, date_line, date_on, date_text, date_told, dates_text, is_fourth, is_quarter, is_tenth, is_told, is_twentieth};

use crate::elements::{end_label, end_path, start_label, start_path, write_upright};
use crate::style::{FLOW_BOTTOM, FLOW_TOP, STAGE_BOTTOM, STAGE_TOP};
use civil_days::{StationZone, write_day};
use drawings::Axis;
use fixed_units::{Day, FIRST_DAY, NoMemory, Text};
use std::alloc::Global;

/// How many days the calendar has.
const ALL_DAYS: u32 = 73_049;

/// Adds a line over both frames and a text below them for each round date that begins on an axis of time.
#[tactic(auto, unfolding(crate::specs::Dates::dates_text))]
pub fn write_dates(
    alloc: Global,
    zone: &StationZone,
    times: &Axis,
    out: &mut Text,
) -> Result<(), NoMemory>
    ensures { OnOk result (out.new ≡ out.old ++ dates_text zone.now times.now) }
{
    for place in 0..ALL_DAYS {
        write_date(alloc, zone, times, day_at(place), out)?;
    }
    Ok(())
}

/// The day at a place in the calendar.
fn day_at(place: u32) -> Day
    requires { place < 73_049 }
    ensures { result ≡ first_day +ℤ pos place }
{
    match Day::new(FIRST_DAY + place as i32) {
        Some(day) => day,
        None => unreachable!(),
    }
}

/// Adds the line and the text of a date, if it is told.
#[tactic(auto, unfolding(crate::specs::Dates::date_text))]
fn write_date(
    alloc: Global,
    zone: &StationZone,
    times: &Axis,
    day: Day,
    out: &mut Text,
) -> Result<(), NoMemory>
    ensures { OnOk result (out.new ≡ out.old ++ date_text zone.now times.now day) }
{
    let place = times.place(zone.day_start(day).get());
    write_date_on(alloc, day, place, seconds_of(times), out)
}

/// Adds the line and the text of a date, if it begins on the axis and is told.
#[tactic(auto, unfolding(crate::specs::Dates::date_on))]
fn write_date_on(
    alloc: Global,
    day: Day,
    place: Option<u32>,
    seconds: u64,
    out: &mut Text,
) -> Result<(), NoMemory>
    ensures { OnOk result (out.new ≡ out.old ++ date_on seconds day place) }
{
    match place {
        Some(x) => write_date_at(alloc, day, x, seconds, out),
        None => Ok(()),
    }
}

/// How long an axis of time is.
fn seconds_of(times: &Axis) -> u64
    ensures { result ≡ dates.seconds_of times.now }
{
    times.greatest.abs_diff(times.least)
}

/// Adds the line and the text of a date that begins at a place, if it is told.
fn write_date_at(
    alloc: Global,
    day: Day,
    x: u32,
    seconds: u64,
    out: &mut Text,
) -> Result<(), NoMemory>
    ensures { OnOk result (out.new ≡ out.old ++ date_at seconds x (day_text day)) }
{
    let mut text = Text::new(alloc);
    write_day(day, &mut text)?;
    write_told(text.as_slice(), x, seconds, out)
}

/// Adds the line and the text of a date, if it is told.
#[tactic(auto, unfolding(crate::specs::Dates::date_at))]
fn write_told(date: &[u8], x: u32, seconds: u64, out: &mut Text) -> Result<(), NoMemory>
    ensures { OnOk result (out.new ≡ out.old ++ date_at seconds x date.now) }
{
    if is_told(date, seconds) {
        write_label(date, x, out)
    } else {
        Ok(())
    }
}

/// Adds the line and the text of a date.
#[tactic(auto, unfolding(crate::specs::Dates::date_told))]
fn write_label(date: &[u8], x: u32, out: &mut Text) -> Result<(), NoMemory>
    ensures { OnOk result (out.new ≡ out.old ++ date_told x date.now) }
{
    write_line(x, out)?;
    start_label(b"under", x, u64::from(STAGE_BOTTOM) + 20, out)?;
    out.push_slice(date)?;
    end_label(out)
}

/// Adds a line over both frames.
#[tactic(auto, unfolding(crate::specs::Dates::date_line))]
fn write_line(x: u32, out: &mut Text) -> Result<(), NoMemory>
    ensures { OnOk result (out.new ≡ out.old ++ date_line x) }
{
    start_path(b"grid", out)?;
    write_upright(x, FLOW_TOP, FLOW_BOTTOM, out)?;
    write_upright(x, STAGE_TOP, STAGE_BOTTOM, out)?;
    end_path(out)
}

/// Whether a date is told on an axis of so many seconds.
#[tactic(auto, unfolding(crate::specs::Dates::is_told))]
fn is_told(date: &[u8], seconds: u64) -> bool
    ensures { result ≡ is_told seconds date.now }
{
    if seconds <= 1_036_800 {
        true
    } else if seconds <= 2_073_600 {
        is_fourth(date)
    } else if seconds <= 7_776_000 {
        is_tenth(date)
    } else if seconds <= 25_920_000 {
        ends_by(date, b"-01")
    } else if seconds <= 77_760_000 {
        is_quarter(date)
    } else if seconds <= 302_400_000 {
        ends_by(date, b"-01-01")
    } else if seconds <= 1_512_000_000 {
        ends_by(date, b"0-01-01") || ends_by(date, b"5-01-01")
    } else {
        is_twentieth(date)
    }
}

/// Whether a date ends by these bytes.
fn ends_by(date: &[u8], end: &[u8]) -> bool
    ensures { result ≡ dates.ends_by date.now end.now }
{
    date.ends_with(end)
}

/// Whether a date is the 1st, 5th, 9th and so on of a month.
fn is_fourth(date: &[u8]) -> bool
    ensures { result ≡ is_fourth date.now }
{
    ends_by(date, b"01")
        || ends_by(date, b"05")
        || ends_by(date, b"09")
        || ends_by(date, b"13")
        || ends_by(date, b"17")
        || ends_by(date, b"21")
        || ends_by(date, b"25")
}

/// Whether a date is the 1st, 11th or 21st of a month.
fn is_tenth(date: &[u8]) -> bool
    ensures { result ≡ is_tenth date.now }
{
    ends_by(date, b"01") || ends_by(date, b"11") || ends_by(date, b"21")
}

/// Whether a date is the first of a quarter.
fn is_quarter(date: &[u8]) -> bool
    ensures { result ≡ is_quarter date.now }
{
    ends_by(date, b"-01-01")
        || ends_by(date, b"-04-01")
        || ends_by(date, b"-07-01")
        || ends_by(date, b"-10-01")
}

/// Whether a date is the first of a twentieth year.
fn is_twentieth(date: &[u8]) -> bool
    ensures { result ≡ is_twentieth date.now }
{
    ends_by(date, b"00-01-01")
        || ends_by(date, b"20-01-01")
        || ends_by(date, b"40-01-01")
        || ends_by(date, b"60-01-01")
        || ends_by(date, b"80-01-01")
}
