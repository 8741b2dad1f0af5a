//! The frames of a picture: their axes, the lines of their grids, and the numbers beside them.

ghost use Rattle.std.specs.Prelude.{◌≡◌, ◌++◌, ◌≤◌, ◌<◌, ◌≤ℤ◌, IfSome, MatchOption, OnOk, None};
ghost use Rattle.draw.specs.Frames as frames;
ghost use Rattle.draw.specs.Frames.{IsFrame, IsNumbersOf, IsTimeAxis, amount, axis_name, frame_text, height_of, number_at, number_on, number_text, number_text_at, numbers_text, outline_text, shown};
ghost use Rattle.draw.specs.Spreads as spreads;

use crate::elements::{end_label, end_path, start_label, start_path, write_area, write_level};
use crate::rows::Row;
use crate::spreads::{Quantity, spread_of};
use crate::style::{LEFT, RIGHT};
use drawings::{Axis, Range, round_range};
use fixed_units::{Micro, NoMemory, Published, Second, Text, write_published};

/// The numbers of a frame: their range, and the axis on which they stand.
#[derive(Clone, Copy)]
pub struct Numbers {
    /// The range.
    pub range: Range,
    /// The axis.
    pub axis: Axis,
}

/// A frame of numbers over time.
#[derive(Clone, Copy)]
pub struct Frame {
    /// Its upper side.
    pub top: u32,
    /// Its lower side.
    pub bottom: u32,
    /// Its numbers, where there is any.
    pub numbers: Option<Numbers>,
}

/// The axis of time, from the first instant to the last one, if there are two.
pub fn time_axis(span: Option<(Second, Second)>) -> Option<Axis>
    ensures { MatchOption result (frames.IsNoSpan span) (IsTimeAxis span) }
{
    let (first, last) = span?;
    if first < last {
        Some(Axis {
            least: first.get(),
            greatest: last.get(),
            start: LEFT,
            end: RIGHT,
        })
    } else {
        None
    }
}

/// The frame of the numbers of rows.
pub fn frame_of(quantity: Quantity, rows: &[Row], top: u32, bottom: u32) -> Frame
    ensures { IsFrame (spreads.spread_of quantity rows.now) top bottom result }
{
    Frame {
        top,
        bottom,
        numbers: numbers_of(spread_of(quantity, rows), top, bottom),
    }
}

/// The numbers of a spread.
fn numbers_of(spread: Option<(Micro, Micro)>, top: u32, bottom: u32) -> Option<Numbers>
    requires { IfSome spread (λ ends. ends.0 ≤ℤ ends.1) }
    ensures { IsNumbersOf spread top bottom result }
{
    match spread {
        Some((least, greatest)) => {
            let range = round_range(least, greatest);
            Some(Numbers {
                range,
                axis: axis_of(&range, top, bottom),
            })
        }
        None => None,
    }
}

/// The axis of a range, upwards.
fn axis_of(range: &Range, top: u32, bottom: u32) -> Axis
    ensures least { result.least ≡ range.now.least }
    ensures greatest { result.greatest ≡ range.now.greatest }
    ensures start { result.start ≡ bottom }
    ensures end { result.end ≡ top }
{
    Axis {
        least: range.least,
        greatest: range.greatest,
        start: bottom,
        end: top,
    }
}

/// Where a number stands in a frame, if there is one.
pub fn height_of(frame: &Frame, number: Option<Micro>) -> Option<u32>
    ensures { result ≡ height_of frame.now number }
{
    match &frame.numbers {
        Some(numbers) => match number {
            Some(number) => numbers.axis.place(number.get()),
            None => None,
        },
        None => None,
    }
}

/// Adds a frame: the lines and the numbers of its grid, what the numbers are, and its outline.
#[tactic(auto, unfolding(crate::specs::Frames::frame_text))]
pub fn write_frame(frame: &Frame, name: &[u8], out: &mut Text) -> Result<(), NoMemory>
    ensures { OnOk result (out.new ≡ out.old ++ frame_text frame.now name.now) }
{
    write_numbers(frame, out)?;
    write_axis_name(frame, name, out)?;
    write_outline(frame, out)
}

/// Adds what the numbers of a frame are, above it.
#[tactic(auto, unfolding(crate::specs::Frames::axis_name))]
fn write_axis_name(frame: &Frame, name: &[u8], out: &mut Text) -> Result<(), NoMemory>
    ensures { OnOk result (out.new ≡ out.old ++ axis_name frame.now name.now) }
{
    let y = u64::from(frame.top.saturating_sub(10));
    start_label(b"axis", LEFT, y, out)?;
    out.push_slice(name)?;
    end_label(out)
}

/// Adds the outline of a frame.
#[tactic(auto, unfolding(crate::specs::Frames::outline_text))]
fn write_outline(frame: &Frame, out: &mut Text) -> Result<(), NoMemory>
    ensures { OnOk result (out.new ≡ out.old ++ outline_text frame.now) }
{
    start_path(b"frame", out)?;
    write_area(LEFT, RIGHT, frame.top, frame.bottom, out)?;
    end_path(out)
}

/// Adds a line and a number for each multiple of the step that a frame has.
#[tactic(auto, unfolding(crate::specs::Frames::numbers_text))]
fn write_numbers(frame: &Frame, out: &mut Text) -> Result<(), NoMemory>
    ensures { OnOk result (out.new ≡ out.old ++ numbers_text frame.now) }
{
    match &frame.numbers {
        Some(numbers) => write_each_number(numbers, out),
        None => Ok(()),
    }
}

/// Adds them, of which there are at most twelve.
fn write_each_number(numbers: &Numbers, out: &mut Text) -> Result<(), NoMemory>
    ensures { OnOk result (out.new ≡ out.old ++ frames.first_texts (number_text numbers.now) 12) }
{
    for place in 0..12 {
        write_number(numbers, place, out)?;
    }
    Ok(())
}

/// Adds the line and the number of a multiple of the step.
#[tactic(auto, unfolding(crate::specs::Frames::number_text))]
fn write_number(numbers: &Numbers, place: u32, out: &mut Text) -> Result<(), NoMemory>
    ensures { OnOk result (out.new ≡ out.old ++ number_text numbers.now place) }
{
    write_number_on(numbers, numbers.range.tick(place), out)
}

/// Adds the line and the number, if there is one.
#[tactic(auto, unfolding(crate::specs::Frames::number_on))]
fn write_number_on(numbers: &Numbers, number: Option<i64>, out: &mut Text) -> Result<(), NoMemory>
    ensures { OnOk result (out.new ≡ out.old ++ number_on numbers.now number) }
{
    match number {
        Some(number) => write_number_in(
            shown(number, numbers.range.step),
            numbers.axis.place(number),
            out,
        ),
        None => Ok(()),
    }
}

/// Adds the line of a number and the number, where there is a place for it.
#[tactic(auto, unfolding(crate::specs::Frames::number_at))]
fn write_number_in(number: Published, height: Option<u32>, out: &mut Text) -> Result<(), NoMemory>
    ensures { OnOk result (out.new ≡ out.old ++ number_at number height) }
{
    match height {
        Some(y) => write_number_at(number, y, out),
        None => Ok(()),
    }
}

/// Adds the line of a number that stands at a height, and the number.
#[tactic(auto, unfolding(crate::specs::Frames::number_text_at))]
fn write_number_at(number: Published, y: u32, out: &mut Text) -> Result<(), NoMemory>
    ensures { OnOk result (out.new ≡ out.old ++ number_text_at number y) }
{
    start_path(b"grid", out)?;
    write_level(LEFT, RIGHT, y, out)?;
    end_path(out)?;
    write_amount(number, y, out)
}

/// Adds a number beside its line.
#[tactic(auto, unfolding(crate::specs::Frames::amount))]
fn write_amount(number: Published, y: u32, out: &mut Text) -> Result<(), NoMemory>
    ensures { OnOk result (out.new ≡ out.old ++ amount number y) }
{
    start_label(b"left", LEFT - 8, u64::from(y) + 4, out)?;
    write_published(number, out)?;
    end_label(out)
}

/// A number of millionths with as many decimals as the step has.
#[tactic(auto, unfolding(crate::specs::Frames::shown))]
fn shown(number: i64, step: i64) -> Published
    ensures { result ≡ shown number step }
{
    if step.rem_euclid(1_000_000) == 0 {
        Published {
            units: number.div_euclid(1_000_000),
            places: 0,
        }
    } else if step.rem_euclid(10_000) == 0 {
        Published {
            units: number.div_euclid(10_000),
            places: 2,
        }
    } else {
        Published {
            units: number,
            places: 6,
        }
    }
}
