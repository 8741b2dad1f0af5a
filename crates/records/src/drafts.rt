//! The parts of a payload that was read: their ranges, and the record that they make.

ghost use Rattle.std.specs.Prelude.{◌≡◌, ◌↔◌, true, IfOk, OnErr};
ghost use Rattle.edits.specs.Lawful.{IsLawful, AreSettings, IsStationZone};
ghost use Rattle.edits.specs.Texts.{AreInitials, IsComment, IsName, IsReference};
ghost use Rattle.edits.specs.declared.content.What.TheVariants.{AddStation, SetStation};
ghost use Rattle.fixed_units.specs.Quantities.{IsSite};
ghost use Rattle.fixed_units.specs.RoundingArray.{IsRoundingArray};
ghost use Rattle.records.specs.Drafts.{parts, what_of, AreLawful, HasParts};

use crate::edition_drafts::{edition_from, is_edition};
use crate::entry_drafts::{
    EntryDraft, correction_from, dropped_correction_from, dropped_shift_from, is_entry, shift_from,
};
use crate::estimate_drafts::{
    EstimateDraft, dropped_estimate_from, is_estimate, put_estimate_from,
};
use crate::measurement_drafts::{MeasurementDraft, is_measurement, put_measurement_from};
use crate::payloads::Record;
use crate::period_drafts::{PeriodDraft, dropped_period_from, is_period, put_period_from};
use crate::rating_drafts::{are_rating_rows, rating_from};
use crate::reading_drafts::{
    are_put_pieces, dropped_span_from, flagged_span_from, is_span, put_from,
};
use crate::review_drafts::{decided_from, is_review, review_from};
use crate::sheet_drafts::{has_sheets, sheets_from};
use edits::{
    By, Comment, Decision, Edit, Name, Ref, What, are_settings, is_comment, is_measurement_number,
    is_rating_number, is_set_number, is_zone,
};
use fixed_units::{Day, Flag, NoMemory, RoundingArray, Site, Text, is_stamp};
use std::alloc::Global;

/// The parts of a payload as they stand in its bytes, whatever their ranges.
#[derive(Drop)]
pub(crate) struct Draft<'a> {
    pub(crate) by: &'a [u8],
    pub(crate) reference: &'a [u8],
    pub(crate) digits: u8,
    pub(crate) value: u64,
    /// The comment, which is empty in the first format.
    pub(crate) comment: &'a [u8],
    pub(crate) fields: Fields<'a>,
    /// The bytes behind the fields: the sheets of an approval, and else none.
    pub(crate) behind: &'a [u8],
}

/// The fields of each kind of edit.
#[derive(Drop)]
pub(crate) enum Fields<'a> {
    /// A station that is added.
    Addition {
        name: &'a [u8],
        zone: &'a [u8],
        gap: u32,
        stage_array: &'a [u8],
        discharge_array: &'a [u8],
    },
    /// A station that is set.
    Setting {
        name: &'a [u8],
        gap: u32,
        stage_array: &'a [u8],
        discharge_array: &'a [u8],
    },
    /// Readings that are put: seventeen bytes for each, of which the last is a flag's number.
    Put(&'a [[u8; 17]]),
    /// A span of readings that is dropped.
    DroppedSpan {
        from: i64,
        to: i64,
    },
    /// A span of readings that is flagged.
    FlaggedSpan {
        from: i64,
        to: i64,
        flag: Flag,
    },
    /// An entry that is put into the correction set of a number.
    Correction {
        set: u8,
        entry: EntryDraft,
    },
    /// An entry that is dropped from the correction set of a number.
    DroppedCorrection {
        set: u8,
        at: i64,
    },
    /// An entry that is put into the shifts.
    Shift(EntryDraft),
    /// An entry that is dropped from the shifts.
    DroppedShift {
        at: i64,
    },
    /// A rating that is added: its number, and sixteen bytes for each row of its table.
    Rating {
        number: u32,
        rows: &'a [[u8; 16]],
    },
    /// A period that is put.
    Period(PeriodDraft),
    /// A period that is dropped.
    DroppedPeriod {
        from: i64,
    },
    /// An estimate that is put.
    Estimate(EstimateDraft),
    /// An estimate that is dropped.
    DroppedEstimate {
        day: i32,
    },
    /// A measurement that is put.
    Measurement(MeasurementDraft),
    /// A measurement that is dropped.
    DroppedMeasurement {
        number: u32,
    },
    /// A review of the days from one to another.
    Review {
        from: i32,
        to: i32,
    },
    /// A decision on the days from one to another.
    Decided {
        from: i32,
        to: i32,
        decision: Decision,
    },
    /// An edition that is set: its day, and its least cover where it has one.
    Edition {
        day: i32,
        least: Option<u32>,
    },
}

/// Whether each part keeps to its range, with the sheets that belong to them behind. `NoMemory` comes only where it is so.
pub(crate) fn is_lawful(alloc: Global, draft: &Draft<'_>) -> Result<bool, NoMemory>
    ensures told { IfOk result (λ lawful. lawful ≡ true ↔ AreLawful (parts draft.now)) }
    ensures memory { OnErr result (AreLawful (parts draft.now)) }
{
    if !is_sender(draft) || !is_comment(draft.comment) || !has_sheets(&draft.fields, draft.behind) {
        return Ok(false);
    }
    are_lawful(alloc, &draft.fields)
}

/// Whether initials, reference and site keep to their ranges.
fn is_sender(draft: &Draft<'_>) -> bool
    ensures { result ≡ true ↔ (AreInitials draft.now.by.now) × (IsReference draft.now.reference.now) × (IsSite (record { digits = draft.now.digits; value = draft.now.value })) }
{
    By::new(draft.by).is_some()
        && Ref::new(draft.reference).is_some()
        && Site::new(draft.digits, draft.value).is_some()
}

/// Whether the fields are those of a lawful edit. `NoMemory` comes only where they are.
fn are_lawful(alloc: Global, fields: &Fields<'_>) -> Result<bool, NoMemory>
    ensures told { IfOk result (λ lawful. lawful ≡ true ↔ IsLawful (what_of fields.now)) }
    ensures memory { OnErr result (IsLawful (what_of fields.now)) }
{
    match fields {
        Fields::Addition {
            name,
            zone,
            gap,
            stage_array,
            discharge_array,
        } => is_addition(alloc, name, zone, *gap, stage_array, discharge_array),
        Fields::Setting {
            name,
            gap,
            stage_array,
            discharge_array,
        } => Ok(are_settings(name, *gap, stage_array, discharge_array)),
        Fields::Put(pieces) => Ok(are_put_pieces(pieces)),
        Fields::DroppedSpan { from, to } => Ok(is_span(*from, *to)),
        Fields::FlaggedSpan { from, to, .. } => Ok(is_span(*from, *to)),
        Fields::Correction { set, entry } => Ok(is_set_number(*set) && is_entry(entry)),
        Fields::DroppedCorrection { set, at } => Ok(is_set_number(*set) && is_stamp(*at)),
        Fields::Shift(entry) => Ok(is_entry(entry)),
        Fields::DroppedShift { at } => Ok(is_stamp(*at)),
        Fields::Rating { number, rows } => Ok(is_rating_number(*number) && are_rating_rows(rows)),
        Fields::Period(period) => Ok(is_period(period)),
        Fields::DroppedPeriod { from } => Ok(is_stamp(*from)),
        Fields::Estimate(estimate) => Ok(is_estimate(estimate)),
        Fields::DroppedEstimate { day } => Ok(Day::new(*day).is_some()),
        Fields::Measurement(measurement) => Ok(is_measurement(measurement)),
        Fields::DroppedMeasurement { number } => Ok(is_measurement_number(*number)),
        Fields::Review { from, to } => Ok(is_review(*from, *to)),
        Fields::Decided { from, to, .. } => Ok(is_review(*from, *to)),
        Fields::Edition { day, least } => Ok(is_edition(*day, *least)),
    }
}

/// Whether a station of these parts may be added. `NoMemory` comes only where it may.
fn is_addition(
    alloc: Global,
    name: &[u8],
    zone: &[u8],
    gap: u32,
    stage_array: &[u8],
    discharge_array: &[u8],
) -> Result<bool, NoMemory>
    ensures told { IfOk result (λ lawful. lawful ≡ true ↔ AreSettings name.now gap stage_array.now discharge_array.now × IsStationZone zone.now) }
    ensures memory { OnErr result (AreSettings name.now gap stage_array.now discharge_array.now × IsStationZone zone.now) }
{
    if !are_settings(name, gap, stage_array, discharge_array) {
        return Ok(false);
    }
    is_zone(alloc, zone)
}

/// The record that the parts make.
pub(crate) fn record_from(alloc: Global, draft: &Draft<'_>) -> Result<Record, NoMemory>
    requires { AreLawful (parts draft.now) }
    ensures { IfOk result (λ piece. HasParts piece (parts draft.now)) }
{
    let what = what_from(alloc, &draft.fields)?;
    let sheets = sheets_from(alloc, &draft.fields, draft.behind)?;
    let comment = comment_from(alloc, draft.comment)?;
    let edit = Edit {
        by: By::new(draft.by).unwrap(),
        reference: Ref::new(draft.reference).unwrap(),
        site: Site::new(draft.digits, draft.value).unwrap(),
        comment,
        what,
    };
    Ok(Record::of(edit, sheets))
}

/// The comment of these bytes.
fn comment_from(alloc: Global, bytes: &[u8]) -> Result<Comment, NoMemory>
    requires { IsComment bytes.now }
    ensures { IfOk result (λ comment. comment ≡ bytes.now) }
{
    Ok(Comment::new(alloc, bytes)?.unwrap())
}

/// What an edit of these fields changes.
fn what_from(alloc: Global, fields: &Fields<'_>) -> Result<What, NoMemory>
    requires { IsLawful (what_of fields.now) }
    ensures { IfOk result (λ what. what ≡ what_of fields.now) }
{
    match fields {
        Fields::Addition {
            name,
            zone,
            gap,
            stage_array,
            discharge_array,
        } => addition_from(alloc, name, zone, *gap, stage_array, discharge_array),
        Fields::Setting {
            name,
            gap,
            stage_array,
            discharge_array,
        } => setting_from(alloc, name, *gap, stage_array, discharge_array),
        Fields::Put(pieces) => put_from(alloc, pieces),
        Fields::DroppedSpan { from, to } => Ok(dropped_span_from(*from, *to)),
        Fields::FlaggedSpan { from, to, flag } => Ok(flagged_span_from(*from, *to, *flag)),
        Fields::Correction { set, entry } => Ok(correction_from(*set, entry)),
        Fields::DroppedCorrection { set, at } => Ok(dropped_correction_from(*set, *at)),
        Fields::Shift(entry) => Ok(shift_from(entry)),
        Fields::DroppedShift { at } => Ok(dropped_shift_from(*at)),
        Fields::Rating { number, rows } => rating_from(alloc, *number, rows),
        Fields::Period(period) => Ok(put_period_from(period)),
        Fields::DroppedPeriod { from } => Ok(dropped_period_from(*from)),
        Fields::Estimate(estimate) => Ok(put_estimate_from(estimate)),
        Fields::DroppedEstimate { day } => Ok(dropped_estimate_from(*day)),
        Fields::Measurement(measurement) => Ok(put_measurement_from(measurement)),
        Fields::DroppedMeasurement { number } => Ok(What::DropMeasurement { number: *number }),
        Fields::Review { from, to } => Ok(review_from(*from, *to)),
        Fields::Decided { from, to, decision } => Ok(decided_from(*from, *to, *decision)),
        Fields::Edition { day, least } => Ok(edition_from(*day, *least)),
    }
}

/// The addition of a station of these parts.
fn addition_from(
    alloc: Global,
    name: &[u8],
    zone: &[u8],
    gap: u32,
    stage_array: &[u8],
    discharge_array: &[u8],
) -> Result<What, NoMemory>
    requires settings { AreSettings name.now gap stage_array.now discharge_array.now }
    requires zone { IsStationZone zone.now }
    ensures { IfOk result (λ what. what ≡ AddStation name.now zone.now gap stage_array.now discharge_array.now) }
{
    Ok(What::AddStation {
        name: name_from(alloc, name)?,
        zone: name_from(alloc, zone)?,
        gap,
        stage_array: array_from(stage_array),
        discharge_array: array_from(discharge_array),
    })
}

/// The setting of these parts of a station.
fn setting_from(
    alloc: Global,
    name: &[u8],
    gap: u32,
    stage_array: &[u8],
    discharge_array: &[u8],
) -> Result<What, NoMemory>
    requires { AreSettings name.now gap stage_array.now discharge_array.now }
    ensures { IfOk result (λ what. what ≡ SetStation name.now gap stage_array.now discharge_array.now) }
{
    Ok(What::SetStation {
        name: name_from(alloc, name)?,
        gap,
        stage_array: array_from(stage_array),
        discharge_array: array_from(discharge_array),
    })
}

fn name_from(alloc: Global, bytes: &[u8]) -> Result<Name, NoMemory>
    requires { IsName bytes.now }
    ensures { IfOk result (λ name. name ≡ bytes.now) }
{
    Ok(Name::new(text_from(alloc, bytes)?).unwrap())
}

/// The text of these bytes.
pub(crate) fn text_from(alloc: Global, bytes: &[u8]) -> Result<Text, NoMemory>
    ensures { IfOk result (λ text. text ≡ bytes.now) }
{
    let mut text = Text::new(alloc);
    text.push_slice(bytes)?;
    Ok(text)
}

fn array_from(bytes: &[u8]) -> RoundingArray
    requires { IsRoundingArray bytes.now }
    ensures { result ≡ bytes.now }
{
    RoundingArray::read(bytes).unwrap()
}
