//! The member `readings`: rows of an instant, a stage and a flag, which are readings that rise by instant.

ghost use Rattle.std.specs.Prelude.{◌≡◌, ◌++◌, ◌∷◌, [], true, Some, IfOk, IfSome, All, int_lt, option_and_then, option_map};
ghost use Rattle.edit_bodies.specs.Answers.{IsFound, IsTaken};
ghost use Rattle.edit_bodies.specs.Grammars.{are_put, are_rising, each_of, flag_of, flagged_of, instant_of, kept_if, reading_of, readings_of, stage_of};
ghost use Rattle.edit_bodies.specs.Members.{member_text, required};
ghost use Rattle.edit_bodies.specs.Trees.{data_of, items_stated, left, stated};
ghost use Rattle.edit_bodies.specs.UsualForm.{row_json, row_texts};
ghost use Rattle.edits.specs.Lawful.{ArePutReadings};
ghost use Rattle.fixed_units.specs.declared.readings.Flag.TheVariants.{Usable};
ghost use Rattle.serde_json.specs.Find.{get_member};

use crate::faults::BodyFault;
use crate::members::{Fields, Member, remove, value_at};
use crate::rows::{flag_named, items_in, stage_written, text_in};
use civil_days::read_instant;
use edits::is_reading_count;
use fixed_units::{Flag, NoMemory, Reading};
use json::Value;
use readings::ReadingList;
use std::alloc::Global;

/// The strings of a row.
#[derive(Clone, Copy, Drop)]
pub(crate) struct Row<'a> {
    /// The instant.
    pub(crate) at: &'a str,
    /// The stage.
    pub(crate) raw: &'a str,
    /// The flag, if there is one.
    pub(crate) flag: Option<&'a str>,
}

/// Takes out the readings that are put, which are not copied: an accepted edit keeps them as they are read.
pub(crate) fn take_readings(
    alloc: Global,
    fields: &mut Fields<'_>,
) -> Result<ReadingList, BodyFault>
    ensures read { IsTaken (required Member.Readings readings_of) fields.old result fields.new }
    ensures put { IfOk result ArePutReadings }
{
    let found = readings_at(alloc, fields);
    remove(fields, Member::Readings);
    found
}

/// The readings that are there.
fn readings_at(alloc: Global, fields: &Fields<'_>) -> Result<ReadingList, BodyFault>
    ensures found { IsFound Member.Readings (option_and_then readings_of (get_member (member_text Member.Readings) (left fields.now))) result }
    ensures put { IfOk result ArePutReadings }
{
    match value_at(fields, Member::Readings) {
        Some(rows) => readings_in(alloc, rows),
        None => Err(BodyFault::Body(Member::Readings)),
    }
}

/// The readings that the rows of an array state.
fn readings_in(alloc: Global, rows: &Value<'_>) -> Result<ReadingList, BodyFault>
    ensures found { IsFound Member.Readings (readings_of (stated rows.now)) result }
    ensures put { IfOk result ArePutReadings }
{
    let Some(items) = items_in(rows) else {
        return Err(BodyFault::Body(Member::Readings));
    };
    // before room is taken for them
    if !is_reading_count(items.len()) {
        return Err(BodyFault::Body(Member::Readings));
    }
    match rows_in(alloc, items) {
        Ok(Some(readings)) => list_from(readings).ok_or(BodyFault::Body(Member::Readings)),
        Ok(None) => Err(BodyFault::Body(Member::Readings)),
        Err(NoMemory) => Err(BodyFault::NoMemory),
    }
}

/// The list of these readings, or `None` exactly where they do not rise by instant or are not as many as one edit puts.
fn list_from(readings: Vec<Reading>) -> Option<ReadingList>
    ensures { result ≡ kept_if are_put readings.items }
{
    if are_put(readings.as_slice()) {
        Some(ReadingList::from_vec(readings))
    } else {
        None
    }
}

/// Whether the readings rise by instant and are as many as one edit puts.
fn are_put(readings: &[Reading]) -> bool
    ensures { result ≡ are_put readings.now }
{
    is_reading_count(readings.len()) && readings.is_sorted_by(is_earlier)
}

/// Whether a reading may be put behind these: it is later than the last of them, and one edit puts so many.
#[inline(always)]
pub(crate) fn may_follow(readings: &[Reading], reading: &Reading) -> bool
    requires { are_rising readings.now ≡ true }
    ensures { result ≡ are_put (readings.now ++ reading.now ∷ []) }
{
    is_reading_count(readings.len() + 1) && is_later(readings, reading)
}

/// Whether a reading is later than the last of these, if there is one.
#[inline(always)]
fn is_later(readings: &[Reading], reading: &Reading) -> bool
    requires { are_rising readings.now ≡ true }
    ensures { result ≡ are_rising (readings.now ++ reading.now ∷ []) }
{
    match readings.last() {
        Some(last) => is_earlier(last, reading),
        None => true,
    }
}

/// Whether a reading is before the next.
fn is_earlier(reading: &Reading, next: &Reading) -> bool
    ensures { result ≡ int_lt reading.now.at next.now.at }
{
    reading.at < next.at
}

/// The readings that the items state, in room for just as many, or `None` exactly where one of them states none.
fn rows_in(alloc: Global, items: &[Value<'_>]) -> Result<Option<Vec<Reading>>, NoMemory>
    ensures { IfOk result (λ found. option_map (λ readings. readings.items) found ≡ each_of reading_of (items_stated items.now)) }
{
    let mut readings = Vec::with_capacity(alloc, items.len())?;
    for item in items {
        let Some(reading) = reading_in(item) else {
            return Ok(None);
        };
        readings.push(reading)?;
    }
    Ok(Some(readings))
}

/// The reading that an item states: a row of two or three strings, and nothing else.
fn reading_in(item: &Value<'_>) -> Option<Reading>
    ensures { result ≡ reading_of (stated item.now) }
{
    match items_in(item)? {
        [at, raw] => usable_in(at, raw),
        [at, raw, flag] => flagged_in(at, raw, flag),
        _ => None,
    }
}

/// The usable reading that an instant and a stage state.
fn usable_in<'a>(at: &Value<'a>, raw: &Value<'a>) -> Option<Reading>
    ensures { result ≡ flagged_of (instant_of (stated at.now)) (stage_of (stated raw.now)) (Some Usable) }
{
    reading_of(&Row {
        at: text_in(at)?,
        raw: text_in(raw)?,
        flag: None,
    })
}

/// The reading that an instant, a stage and a flag state.
fn flagged_in<'a>(at: &Value<'a>, raw: &Value<'a>, flag: &Value<'a>) -> Option<Reading>
    ensures { result ≡ flagged_of (instant_of (stated at.now)) (stage_of (stated raw.now)) (flag_of (stated flag.now)) }
{
    reading_of(&Row {
        at: text_in(at)?,
        raw: text_in(raw)?,
        flag: Some(text_in(flag)?),
    })
}

/// The reading that a row states: an instant, a stage and a flag; without a flag it is usable.
#[inline(always)]
pub(crate) fn reading_of(row: &Row<'_>) -> Option<Reading>
    ensures { result ≡ reading_of (data_of (row_json (row_texts row.now))) }
{
    Some(Reading {
        at: read_instant(row.at.as_bytes())?,
        raw: stage_written(row.raw)?,
        flag: match row.flag {
            Some(flag) => flag_named(flag.as_bytes())?,
            None => Flag::Usable,
        },
    })
}
