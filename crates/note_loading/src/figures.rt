//! The lines that tell the discharges of notes.

ghost use Rattle.std.specs.Prelude.{◌≡◌, ◌+◌, ◌<◌, ◌++◌, length, IfOk, OnOk};
ghost use Rattle.note_loading.specs.Figures as figures;
ghost use Rattle.note_loading.specs.Figures.{figures_text, line_at};

use fixed_units::{Micro, NoMemory, Text, write_hundredths, write_micro};
use midsection::{Notes, discharge, share, total};
use std::alloc::Global;

/// The lines of the verticals, and the line of the total.
pub(crate) fn write_figures(alloc: Global, notes: &Notes) -> Result<Text, NoMemory>
    ensures { IfOk result (λ text. text ≡ figures_text notes.now) }
{
    let mut text = Text::new(alloc);
    write_verticals(notes, &mut text)?;
    write_total(total(notes), &mut text)?;
    Ok(text)
}

/// Adds the lines of the verticals.
fn write_verticals(notes: &Notes, text: &mut Text) -> Result<(), NoMemory>
    ensures { OnOk result (text.new ≡ text.old ++ figures.verticals_text notes.now) }
{
    for place in 0..count(notes) {
        write_vertical(notes, place, text)?;
    }
    Ok(())
}

/// How many verticals notes have.
fn count(notes: &Notes) -> usize
    ensures { result ≡ length notes.now }
{
    notes.verticals().len()
}

/// Adds the line of the vertical at a place.
fn write_vertical(notes: &Notes, place: usize, text: &mut Text) -> Result<(), NoMemory>
    requires { place < length notes.now }
    ensures { OnOk result (text.new ≡ text.old ++ line_at notes.now place) }
{
    // the proof learns here how many verticals there may be
    let _verticals = notes.verticals();
    write_place(place as u64 + 1, text)?;
    write_discharge(discharge(notes, place), text)?;
    write_share(share(notes, place), text)
}

/// Adds the front of a line: the number of the vertical, from 1.
fn write_place(number: u64, text: &mut Text) -> Result<(), NoMemory>
    ensures { OnOk result (text.new ≡ text.old ++ figures.place_text number) }
{
    text.push_slice(b"VERTICAL ")?;
    text.push_number(number)
}

/// Adds the discharge of a vertical.
fn write_discharge(discharge: Micro, text: &mut Text) -> Result<(), NoMemory>
    ensures { OnOk result (text.new ≡ text.old ++ figures.discharge_text discharge) }
{
    text.push_slice(b" Q ")?;
    write_micro(discharge, text)
}

/// Adds the share of a vertical, and the end of its line.
fn write_share(share: Option<i64>, text: &mut Text) -> Result<(), NoMemory>
    ensures { OnOk result (text.new ≡ text.old ++ figures.share_end share) }
{
    text.push_slice(b" SHARE ")?;
    write_share_or_dash(share, text)?;
    text.push_slice(b"\n")
}

/// Adds a share with two decimals, or a dash where there is none.
fn write_share_or_dash(share: Option<i64>, text: &mut Text) -> Result<(), NoMemory>
    ensures { OnOk result (text.new ≡ text.old ++ figures.share_text share) }
{
    match share {
        Some(hundredths) => write_hundredths(hundredths, text),
        None => text.push_slice(b"-"),
    }
}

/// Adds the line of the total.
fn write_total(total: Micro, text: &mut Text) -> Result<(), NoMemory>
    ensures { OnOk result (text.new ≡ text.old ++ figures.total_line total) }
{
    text.push_slice(b"TOTAL ")?;
    write_micro(total, text)?;
    text.push_slice(b"\n")
}
