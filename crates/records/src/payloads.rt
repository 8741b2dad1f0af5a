//! What the journal keeps of an accepted edit, and why bytes are no record.

ghost use Rattle.std.specs.Prelude.{◌≡◌, ◌↔◌, IfSome, IsSome};
ghost use Rattle.records.specs.Sheets.{AreSheetsOf};

use crate::sheets::{SheetList, are_sheets_of};
use edits::Edit;
use std::marker::Model;
use thiserror::Error;

/// What the journal keeps of an accepted edit.
pub struct Record {
    edit: Edit,
    sheets: SheetList,
}

impl Model for Record {
    ghost use Rattle.edits.specs.contracts.content.Edit as one_edit;
    ghost use Rattle.records.specs.Sheets.{AreSheetsOf, Record};
    ghost use Rattle.std.specs.Coded.{codes};

    ghost Value = { Record };

    ghost coded = { Prim.hlevel (codes, one_edit.the_row.coded) };

    ghost view = { λ r. record { edit = r.edit; sheets = r.sheets } };

    ghost invariant = { λ r. AreSheetsOf r.edit.what r.sheets };
}

/// By hand, so that a drop is one call wherever a record is dropped.
impl Drop for Record {
    fn drop(self) {
        let Record {
            edit: _edit,
            sheets: _sheets,
        } = self;
    }
}

impl Record {
    /// The record of an edit and its sheets, or `None` exactly where they are not those that it has to have.
    pub fn new(edit: Edit, sheets: SheetList) -> Option<Record>
        ensures parts { IfSome result (λ piece. (piece.edit ≡ edit) × (piece.sheets ≡ sheets)) }
        ensures told { IsSome result ↔ AreSheetsOf edit.what sheets }
    {
        if are_sheets_of(&edit.what, &sheets) {
            Some(Record { edit, sheets })
        } else {
            None
        }
    }

    /// The record of an edit and its sheets.
    pub(crate) fn of(edit: Edit, sheets: SheetList) -> Record
        requires { AreSheetsOf edit.what sheets }
        ensures { result ≡ record { edit = edit; sheets = sheets } }
    {
        Record { edit, sheets }
    }

    /// The edit.
    pub fn edit(&self) -> &Edit
        ensures { result.now ≡ self.now.edit }
    {
        &self.edit
    }

    /// The edit, without its sheets.
    pub fn into_edit(self) -> Edit
        ensures { result ≡ self.edit }
    {
        let Record {
            edit,
            sheets: _sheets,
        } = self;
        edit
    }

    /// The sheets of an approval, one of 1 to 2,400 bytes for each day in order. Another edit has none.
    pub fn sheets(&self) -> &SheetList
        ensures sheets { result.now ≡ self.now.sheets }
        ensures lawful { AreSheetsOf self.now.edit.what self.now.sheets }
    {
        &self.sheets
    }
}

/// Why bytes are no record.
#[derive(Clone, Copy, Debug, PartialEq, Eq, Error)]
pub enum DecodeFault {
    /// The bytes are no payload of a record.
    #[error("the bytes are not the payload of a record")]
    NotARecord,
    /// There was no memory for the record.
    #[error("there is no memory for the record")]
    NoMemory,
}
