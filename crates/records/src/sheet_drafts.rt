//! The sheets behind the fields of an approval: their count and their lengths, and the list that they make. They are tested where
//! they stand, and only those of an approval take memory.

ghost use Rattle.std.specs.Prelude.{◌≡◌, ◌↔◌, true, ℕ, List, length, option_map, flat_map, IfSome, IfNone, IfOk, All};
ghost use Rattle.records.specs.Drafts.{what_of, AreSheets, HasSheets};
ghost use Rattle.records.specs.Parsing.{sheet_at};
ghost use Rattle.records.specs.Payloads.{sheet_bytes};
ghost use Rattle.records.specs.Sheets.{IsSheet, AreSheetsOf};

use crate::drafts::{Fields, text_from};
use crate::parsing::{front_of, u32_of};
use crate::sheets::{SheetList, day_count, is_sheet_len};
use edits::Decision;
use fixed_units::NoMemory;
use std::alloc::Global;

/// Whether these bytes are the sheets of an edit of these fields.
pub(crate) fn has_sheets(fields: &Fields<'_>, bytes: &[u8]) -> bool
    ensures { result ≡ true ↔ HasSheets (what_of fields.now) bytes.now }
{
    match sheet_count(fields) {
        Some(count) => are_sheets(bytes, count),
        None => false,
    }
}

/// How many sheets an edit of these fields has: an approval one for each of its days, and no other edit any. `None` where its days
/// end so far before they begin that no sheets are its.
fn sheet_count(fields: &Fields<'_>) -> Option<usize>
    ensures count { IfSome result (λ count. (sheets : List (List ℕ)) → AreSheetsOf (what_of fields.now) sheets ↔ (length sheets ≡ count) × All IsSheet sheets) }
    ensures none { IfNone result ((sheets : List (List ℕ)) → ¬ AreSheetsOf (what_of fields.now) sheets) }
{
    match fields {
        Fields::Decided {
            from,
            to,
            decision: Decision::Approve,
        } => day_count(*from, *to),
        _ => Some(0),
    }
}

/// Whether these bytes are so many sheets, with nothing behind the last.
fn are_sheets(bytes: &[u8], count: usize) -> bool
    ensures { result ≡ true ↔ AreSheets count bytes.now }
{
    let mut rest = bytes;
    for _ in 0..count {
        let Some((_, behind)) = sheet_of(rest) else {
            return false;
        };
        rest = behind;
    }
    rest.is_empty()
}

/// A sheet: its length, and so many bytes.
#[tactic(auto, unfolding(crate::specs::Parsing::sheet_at))]
fn sheet_of(bytes: &[u8]) -> Option<(&[u8], &[u8])>
    ensures { option_map (λ x. (x.0.now, x.1.now)) result ≡ sheet_at bytes.now }
{
    let (count, rest) = u32_of(bytes)?;
    let count = count as usize;
    if is_sheet_len(count) {
        front_of(rest, count)
    } else {
        None
    }
}

/// The sheets of an edit of these fields, which these bytes are.
pub(crate) fn sheets_from(
    alloc: Global,
    fields: &Fields<'_>,
    bytes: &[u8],
) -> Result<SheetList, NoMemory>
    requires { HasSheets (what_of fields.now) bytes.now }
    ensures bytes { IfOk result (λ sheets. bytes.now ≡ flat_map sheet_bytes sheets) }
    ensures are { IfOk result (AreSheetsOf (what_of fields.now)) }
{
    list_from(alloc, bytes, sheet_count(fields).unwrap())
}

/// The sheets that these bytes are, so many.
fn list_from(alloc: Global, bytes: &[u8], count: usize) -> Result<SheetList, NoMemory>
    requires { AreSheets count bytes.now }
    ensures bytes { IfOk result (λ sheets. bytes.now ≡ flat_map sheet_bytes sheets) }
    ensures count { IfOk result (λ sheets. length sheets ≡ count) }
    ensures each { IfOk result (All IsSheet) }
{
    let mut texts = Vec::with_capacity(alloc, count)?;
    let mut rest = bytes;
    for _ in 0..count {
        let (sheet, behind) = sheet_of(rest).unwrap();
        texts.push(text_from(alloc, sheet)?)?;
        rest = behind;
    }
    Ok(SheetList::from_vec(texts))
}
