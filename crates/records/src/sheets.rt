//! The sheets of an approval.

ghost use Rattle.std.specs.Prelude.{◌≡◌, ◌↔◌, true, [], ◌∷◌, ◌++◌, length, ◌==◌, option_map, slice_get, IfSome, IfNone, OnOk, OnErr, All, nat_le, ◌&&◌, pos, ◌+ℤ◌, ◌-ℤ◌, ◌<ℤ◌};
ghost use Rattle.records.specs.Sheets.{most_sheet_bytes, IsSheet, AreSheetsOf, AreSheetsOfDays};

use edits::{Decision, What};
use fixed_units::{Day, NoMemory, Text};
use std::alloc::Global;
use std::marker::Model;

/// The texts of sheets, in the order of their days. Contracts see the list of them.
#[derive(Drop)]
pub struct SheetList {
    texts: Vec<Text>,
}

impl Model for SheetList {
    ghost use Rattle.std.specs.Prelude.{List, ℕ};

    ghost Value = { List (List ℕ) };

    ghost view = { λ s. s.texts.items };
}

impl SheetList {
    /// No sheets, which takes no memory.
    pub fn new(alloc: Global) -> SheetList
        ensures { result ≡ [] }
    {
        SheetList {
            texts: Vec::new(alloc),
        }
    }

    /// These sheets.
    pub fn from_vec(texts: Vec<Text>) -> SheetList
        ensures { result ≡ texts.items }
    {
        SheetList { texts }
    }

    /// Adds a sheet at the end. After `NoMemory` all is as before.
    pub fn push(&mut self, text: Text) -> Result<(), NoMemory>
        ensures ok { OnOk result (self.new ≡ self.old ++ text ∷ []) }
        ensures err { OnErr result (self.new ≡ self.old) }
    {
        self.texts.push(text)?;
        Ok(())
    }

    /// How many sheets there are.
    pub fn len(&self) -> usize
        ensures { result ≡ length self.now }
    {
        self.texts.len()
    }

    /// Whether there is no sheet.
    pub fn is_empty(&self) -> bool
        ensures { result ≡ (length self.now == 0) }
    {
        self.texts.is_empty()
    }

    /// The sheet in a place, counted from 0, or `None` exactly where there are no more than so many.
    pub fn get(&self, place: usize) -> Option<&[u8]>
        ensures { option_map (λ text. text.now) result ≡ slice_get self.now place }
    {
        let text = self.texts.get(place)?;
        Some(text.as_slice())
    }

    /// All sheets, lent.
    pub fn as_slice(&self) -> &[Text]
        ensures { result.now ≡ self.now }
    {
        self.texts.as_slice()
    }
}

/// Whether these are the sheets of an edit: one for each day of an approval, and none of any other edit.
pub fn are_sheets_of(what: &What, sheets: &SheetList) -> bool
    ensures { result ≡ true ↔ AreSheetsOf what.now sheets.now }
{
    match what {
        What::Decide {
            from,
            to,
            decision: Decision::Approve,
        } => are_day_sheets(*from, *to, sheets.as_slice()),
        _ => sheets.is_empty(),
    }
}

/// Whether these are sheets of the days from one to another, one for each.
fn are_day_sheets(from: Day, to: Day, sheets: &[Text]) -> bool
    ensures { result ≡ true ↔ AreSheetsOfDays from to sheets.now }
{
    day_count(from.get(), to.get()) == Some(sheets.len()) && are_sheets(sheets)
}

/// How many days there are from one to another, both included: 0 where the last is the day before the first, and `None` where it
/// stands further before.
pub(crate) fn day_count(from: i32, to: i32) -> Option<usize>
    ensures count { IfSome result (λ count. pos count ≡ (to -ℤ from) +ℤ pos 1) }
    ensures none { IfNone result (((to -ℤ from) +ℤ pos 1) <ℤ pos 0) }
{
    usize::try_from(i64::from(to) - i64::from(from) + 1).ok()
}

/// Whether each of these is a sheet.
fn are_sheets(texts: &[Text]) -> bool
    ensures { result ≡ true ↔ All IsSheet texts.now }
{
    texts.iter().all(is_sheet)
}

/// Whether the text is one of a sheet: 1 to 2,400 bytes.
fn is_sheet(text: &Text) -> bool
    ensures { result ≡ true ↔ IsSheet text.now }
{
    is_sheet_len(text.len())
}

/// Whether a sheet may have so many bytes: 1 to 2,400.
pub(crate) fn is_sheet_len(count: usize) -> bool
    ensures { result ≡ (nat_le 1 count && nat_le count most_sheet_bytes) }
{
    (1..=2_400).contains(&count)
}
