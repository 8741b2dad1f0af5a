//! How many bytes records and their parts take.

ghost use Rattle.std.specs.Prelude.{◌≡◌, ◌≤◌, ◌*◌, length, flat_map, All, ℤ, Bool};
ghost use Rattle.edits.specs.Lawful.{IsLawful, most_reviewed_days};
ghost use Rattle.records.specs.Payloads.{comment_bytes, entry_bytes, least_bytes, period_bytes, fields, edit_bytes, sheet_bytes, payload, longest_fields, longest_payload};
ghost use Rattle.records.specs.Sheets.{IsSheet};

use crate::formats::Format;
use crate::laws::keeps_grammar;
use crate::payloads::Record;
use curves::Curve;
use edits::{Comment, Edit, What};
use fixed_units::Text;
use ratings::Period;

/// How many bytes the kind, the site and the lengths of the texts take.
const FRAME: usize = 12;

/// How many bytes a record takes as a payload of a format: at most 1,700,265, which 100,000 readings may take.
#[inline(always)]
pub fn record_len(piece: &Record, format: Format) -> usize
    ensures value { result ≡ length (payload format piece.now) }
    ensures longest { result ≤ longest_payload }
{
    // this runs nothing: it tells the proof that each record of the code is in the grammar
    keeps_grammar(piece, Format::Second);
    edit_len(piece.edit(), format) + sheets_len(piece.sheets().as_slice())
}

/// How many bytes sheets take, at most one for each of 366 days.
fn sheets_len(sheets: &[Text]) -> usize
    requires few { length sheets.now ≤ most_reviewed_days }
    requires each { All IsSheet sheets.now }
    ensures value { result ≡ length (flat_map sheet_bytes sheets.now) }
    ensures few { result ≤ 2_404 * length sheets.now }
{
    let mut len = 0;
    for sheet in sheets {
        len += 4 + sheet.len();
    }
    len
}

/// How many bytes an edit takes at the front of its record's payload of a format: at most 1,700,265, which 100,000 readings may take.
pub fn edit_len(edit: &Edit, format: Format) -> usize
    ensures value { result ≡ length (edit_bytes format edit.now) }
    ensures longest { result ≤ longest_payload }
{
    FRAME
        + edit.by.as_slice().len()
        + edit.reference.as_slice().len()
        + comment_len(&edit.comment, format)
        + fields_len(&edit.what)
}

/// How many bytes a comment takes in a format.
fn comment_len(comment: &Comment, format: Format) -> usize
    ensures value { result ≡ length (comment_bytes format comment.now) }
    ensures few { result ≤ 201 }
{
    match format {
        Format::First => 0,
        Format::Second => 1 + comment.as_slice().len(),
    }
}

/// How many bytes the fields of a kind take.
fn fields_len(what: &What) -> usize
    requires { IsLawful what.now }
    ensures value { result ≡ length (fields what.now) }
    ensures longest { result ≤ longest_fields }
{
    match what {
        What::AddStation { name, zone, .. } => 26 + name.as_slice().len() + zone.as_slice().len(),
        What::SetStation { name, .. } => 25 + name.as_slice().len(),
        What::PutReadings { readings } => 4 + 17 * readings.as_slice().len(),
        What::DropReadings { .. } => 16,
        What::FlagReadings { .. } => 17,
        What::PutCorrection { curve, .. } => 1 + entry_len(curve),
        What::DropCorrection { .. } => 9,
        What::PutShift { curve, .. } => entry_len(curve),
        What::DropShift { .. } => 8,
        What::AddRating { table, .. } => 8 + 16 * table.table().rows().len(),
        What::PutPeriod { period } => period_len(period),
        What::DropPeriod { .. } => 8,
        What::PutEstimate { .. } => 12,
        What::DropEstimate { .. } => 4,
        What::PutMeasurement { .. } => 29,
        What::DropMeasurement { .. } => 4,
        What::Review { .. } => 8,
        What::Decide { .. } => 9,
        What::SetEdition { least, .. } => 4 + least_len(*least),
    }
}

/// How many bytes a least cover takes, with what says whether it is there.
fn least_len(least: Option<u32>) -> usize
    ensures { result ≡ length (least_bytes least) }
{
    match least {
        Some(_) => 5,
        None => 1,
    }
}

/// How many bytes an entry with this curve takes.
fn entry_len(curve: &Curve) -> usize
    ensures value { (at : ℤ) (prorate : Bool) → result ≡ length (entry_bytes at curve.now prorate) }
    ensures few { result ≤ 58 }
{
    10 + 16 * curve.points().len()
}

/// How many bytes a period takes.
fn period_len(period: &Period) -> usize
    ensures { result ≡ length (period_bytes period.now) }
{
    match period.until {
        Some(_) => 21,
        None => 13,
    }
}
