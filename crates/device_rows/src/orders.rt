//! What commands with many options ask, as words.

use crate::escapes::push_counted;
use crate::words::push_named;
use civil_days::{write_day, write_instant};
use command_words::{DailyOrder, ImportOrder, NotesOrder, WaterOrder};
use edits::Grade;
use fixed_units::{Day, Micro, NoMemory, Second, Site, Text, write_micro};
use site_texts::write_site;

pub fn push_import(order: &ImportOrder<'_>, came: &mut Text) -> Result<(), NoMemory> {
    push_begun(b"import ", order.journal, order.site, came)?;
    push_named(b" column ", order.column, came)?;
    push_named(b" by ", order.by, came)?;
    push_named(b" ref ", order.reference, came)
}

pub fn push_daily(order: &DailyOrder<'_>, came: &mut Text) -> Result<(), NoMemory> {
    push_begun(b"daily ", order.journal, order.site, came)?;
    push_day(b" from ", order.first, came)?;
    push_day(b" to ", order.last, came)?;
    push_counted(b" turns ", u64::from(order.turns), came)
}

pub fn push_water(order: &WaterOrder<'_>, came: &mut Text) -> Result<(), NoMemory> {
    push_begun(b"water ", order.journal, order.site, came)?;
    push_counted(b" year ", u64::from(order.year), came)?;
    push_counted(b" turns ", u64::from(order.turns), came)
}

pub fn push_notes(order: &NotesOrder<'_>, came: &mut Text) -> Result<(), NoMemory> {
    push_begun(b"notes ", order.journal, order.site, came)?;
    push_counted(b" number ", u64::from(order.number), came)?;
    push_measured(order.at, order.gage, order.grade, came)?;
    push_named(b" by ", order.by, came)?;
    push_named(b" ref ", order.reference, came)
}

fn push_begun(command: &[u8], journal: &str, site: Site, came: &mut Text) -> Result<(), NoMemory> {
    push_named(command, journal, came)?;
    came.push_slice(b" site ")?;
    write_site(site, came)
}

fn push_day(word: &[u8], day: Day, came: &mut Text) -> Result<(), NoMemory> {
    came.push_slice(word)?;
    write_day(day, came)
}

fn push_measured(at: Second, gage: Micro, grade: Grade, came: &mut Text) -> Result<(), NoMemory> {
    came.push_slice(b" at ")?;
    write_instant(at, came)?;
    came.push_slice(b" gage ")?;
    write_micro(gage, came)?;
    came.push_slice(grade_shown(grade))
}

fn grade_shown(grade: Grade) -> &'static [u8] {
    match grade {
        Grade::Excellent => b" excellent",
        Grade::Good => b" good",
        Grade::Fair => b" fair",
        Grade::Poor => b" poor",
    }
}
