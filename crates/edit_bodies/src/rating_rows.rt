//! The members of a rating: its number, and its rows of a stage and a discharge, which are a table.

ghost use Rattle.std.specs.Prelude.{◌≡◌, IfOk, IfSome, option_and_then, option_map};
ghost use Rattle.edit_bodies.specs.Answers.{IsFound, IsTaken};
ghost use Rattle.edit_bodies.specs.Grammars.{each_of, kept_within, rating_number_of, rating_row_of, table_if, table_of};
ghost use Rattle.edit_bodies.specs.Members.{member_text, required};
ghost use Rattle.edit_bodies.specs.Trees.{items_stated, left, stated};
ghost use Rattle.edits.specs.Lawful.{IsRatingNumber};
ghost use Rattle.fixed_units.specs.Quantities.{most_rating_number};
ghost use Rattle.rating_tables.specs.Table.{IsRating};
ghost use Rattle.serde_json.specs.Find.{get_member};

use crate::faults::BodyFault;
use crate::grammars::whole_in;
use crate::members::{Fields, Member, remove, value_at};
use crate::rows::{both_in, discharge_in, items_in, stage_in};
use edits::is_rating_number;
use fixed_units::{Micro, NoMemory};
use json::Value;
use rating_tables::{MOST_ROWS, SharedTable, Table};
use std::alloc::Global;

/// Takes out the number of a rating.
pub(crate) fn take_rating_number(fields: &mut Fields<'_>) -> Result<u32, BodyFault>
    ensures read { IsTaken (required Member.Rating rating_number_of) fields.old result fields.new }
    ensures number { IfOk result IsRatingNumber }
{
    let found = rating_number_at(fields);
    remove(fields, Member::Rating);
    found.ok_or(BodyFault::Body(Member::Rating))
}

/// The number of a rating that is there.
fn rating_number_at(fields: &Fields<'_>) -> Option<u32>
    ensures value { result ≡ option_and_then rating_number_of (get_member (member_text Member.Rating) (left fields.now)) }
    ensures number { IfSome result IsRatingNumber }
{
    rating_number_from(whole_in(value_at(fields, Member::Rating)?)?)
}

/// The rating of this number, or `None` exactly where there is none.
pub fn rating_number_from(number: u64) -> Option<u32>
    ensures value { result ≡ kept_within 1 most_rating_number number }
    ensures number { IfSome result IsRatingNumber }
{
    let rating = u32::try_from(number).ok()?;
    if is_rating_number(rating) {
        Some(rating)
    } else {
        None
    }
}

/// Takes out the rows of a rating, which are not copied: they are the table's.
pub(crate) fn take_table(alloc: Global, fields: &mut Fields<'_>) -> Result<SharedTable, BodyFault>
    ensures read { IsTaken (required Member.Rows table_of) fields.old result fields.new }
    ensures rating { IfOk result IsRating }
{
    let found = table_at(alloc, fields);
    remove(fields, Member::Rows);
    match SharedTable::new(alloc, found?) {
        Ok(table) => Ok(table),
        Err(NoMemory) => Err(BodyFault::NoMemory),
    }
}

/// The table whose rows are there.
fn table_at(alloc: Global, fields: &Fields<'_>) -> Result<Table, BodyFault>
    ensures found { IsFound Member.Rows (option_and_then table_of (get_member (member_text Member.Rows) (left fields.now))) result }
    ensures rating { IfOk result IsRating }
{
    match value_at(fields, Member::Rows) {
        Some(rows) => table_in(alloc, rows),
        None => Err(BodyFault::Body(Member::Rows)),
    }
}

/// The table whose rows an array states.
fn table_in(alloc: Global, rows: &Value<'_>) -> Result<Table, BodyFault>
    ensures found { IsFound Member.Rows (table_of (stated rows.now)) result }
    ensures rating { IfOk result IsRating }
{
    let Some(items) = items_in(rows) else {
        return Err(BodyFault::Body(Member::Rows));
    };
    // before room is taken for them
    if MOST_ROWS < items.len() {
        return Err(BodyFault::Body(Member::Rows));
    }
    match rows_in(alloc, items) {
        Ok(Some(rows)) => table_from(rows).ok_or(BodyFault::Body(Member::Rows)),
        Ok(None) => Err(BodyFault::Body(Member::Rows)),
        Err(NoMemory) => Err(BodyFault::NoMemory),
    }
}

/// The table of these rows, or `None` exactly where they are none.
fn table_from(rows: Vec<(Micro, Micro)>) -> Option<Table>
    ensures { result ≡ table_if rows.items }
{
    Table::from_vec(rows).ok()
}

/// The rows that the items state, or `None` exactly where one of them is no row.
fn rows_in(alloc: Global, items: &[Value<'_>]) -> Result<Option<Vec<(Micro, Micro)>>, NoMemory>
    ensures { IfOk result (λ found. option_map (λ rows. rows.items) found ≡ each_of rating_row_of (items_stated items.now)) }
{
    let mut rows = Vec::with_capacity(alloc, items.len())?;
    for item in items {
        let Some(row) = row_in(item) else {
            return Ok(None);
        };
        rows.push(row)?;
    }
    Ok(Some(rows))
}

/// The row that an item states: a stage and a discharge, and nothing else.
fn row_in(item: &Value<'_>) -> Option<(Micro, Micro)>
    ensures { result ≡ rating_row_of (stated item.now) }
{
    let (stage, discharge) = both_in(item)?;
    stage_in(stage).zip(discharge_in(discharge))
}
