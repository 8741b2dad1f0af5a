//! A document of stations, read whole before anything is given of it.

ghost use Rattle.std.specs.Prelude.{◌≡◌, List, [], IfOk, Err, None, Some, codes, string_bytes};
ghost use Rattle.std.specs.BTreeMap.{keys};
ghost use Rattle.std.specs.List.{list_all};
ghost use Rattle.edits.specs.Texts.{AreInitials};
ghost use Rattle.edits.specs.declared.content.Edit.{Edit};
ghost use Rattle.station_documents.specs.Answers.{AreRead, IsFound, IsRead};
ghost use Rattle.station_documents.specs.Documents.{StatesDocument, StatesEach, StatesStations, StatesTable, is_document_key};
ghost use Rattle.station_documents.specs.Members.{HasText, all_keys};
ghost use Rattle.toml.specs.Data.{as_table};
ghost use Rattle.toml.specs.Parse.{parse_document};
ghost use Rattle.toml.specs.View.{items_view, table_view, view};

use crate::faults::DocumentFault;
use crate::members::{array_at, string_at};
use crate::stations::station_in;
use edits::{By, Edit};
use fixed_units::NoMemory;
use std::alloc::Global;
use toml::{Table, Value};

/// How many bytes a document of stations has at most.
pub const MOST_BYTES: usize = 4_194_304;

/// How many stations a document has at most.
const MOST_STATIONS: usize = 500;

/// The edits that add the stations of a document, in its order: each is made by the person whom the document names, under the
/// station's own reference. All of the document is tested before any edit is given.
///
/// # Errors
///
/// [`DocumentFault::NoDocument`] exactly where the bytes are no document of stations: where they are more than [`MOST_BYTES`], no
/// text in TOML, or a table that lacks one of `by` and `station` or has a further key, where one of the 1 to 500 stations is no
/// table of `site`, `ref`, `name`, `zone`, `gap`, `stage_array` and `discharge_array` alone, or where one of these is out of its
/// grammar. [`DocumentFault::NoMemory`] may come in place of each answer.
pub fn read_stations(alloc: Global, bytes: &[u8]) -> Result<Vec<Edit>, DocumentFault>
    ensures stations { IfOk result (λ edits. StatesStations bytes.now edits.items) }
    ensures none { result ≡ Err DocumentFault.NoDocument → (edits : List Edit) → ¬ StatesStations bytes.now edits }
{
    if MOST_BYTES < bytes.len() {
        return Err(DocumentFault::NoDocument);
    }
    let Ok(text) = str::from_utf8(bytes) else {
        return Err(DocumentFault::NoDocument);
    };
    let table = table_of(alloc, text)?;
    stations_in(alloc, &table)
}

/// The table that a text in TOML is.
fn table_of(alloc: Global, text: &str) -> Result<Table, DocumentFault>
    ensures table { IfOk result (λ table. parse_document text.now ≡ Some (table_view table)) }
    ensures none { result ≡ Err DocumentFault.NoDocument → parse_document text.now ≡ None }
{
    match toml::table_from_str(alloc, text) {
        Ok(table) => Ok(table),
        Err(error) => {
            if error.is_memory() {
                Err(DocumentFault::NoMemory)
            } else {
                Err(DocumentFault::NoDocument)
            }
        }
    }
}

/// The edits that add the stations of a document's table.
fn stations_in(alloc: Global, table: &Table) -> Result<Vec<Edit>, DocumentFault>
    ensures { AreRead (StatesDocument (table_view table.now)) result }
{
    if !has_document_keys_alone(table) {
        return Err(DocumentFault::NoDocument);
    }
    let Some(by) = by_in(table) else {
        return Err(DocumentFault::NoDocument);
    };
    let Some(stations) = array_at(table, "station") else {
        return Err(DocumentFault::NoDocument);
    };
    // before room is taken for them
    if !(1..=MOST_STATIONS).contains(&stations.len()) {
        return Err(DocumentFault::NoDocument);
    }
    each_station(alloc, &by, stations)
}

/// Whether each member of the table is one of a document.
fn has_document_keys_alone(table: &Table) -> bool
    ensures { result ≡ all_keys is_document_key (table_view table.now) }
{
    are_document_keys(table)
}

/// Whether each key of the table is one that a document has.
fn are_document_keys(table: &Table) -> bool
    ensures { result ≡ list_all (λ key. is_document_key (string_bytes key)) (keys table.now) }
{
    table.keys().all(|key| is_document_key(key.as_str()))
}

/// Whether a document has this key.
fn is_document_key(key: &str) -> bool
    ensures { result ≡ is_document_key key.now }
{
    key == "by" || key == "station"
}

/// The initials of the person who adds the stations.
fn by_in(table: &Table) -> Option<By>
    ensures { IsFound (HasText AreInitials (codes "by") (table_view table.now)) result }
{
    By::new(string_at(table, "by")?.as_bytes())
}

/// The edits by which a person adds these stations.
fn each_station(alloc: Global, by: &By, stations: &[Value]) -> Result<Vec<Edit>, DocumentFault>
    ensures { AreRead (StatesEach by.now (items_view stations.now)) result }
{
    let mut edits = room_for(alloc, stations.len())?;
    for station in stations {
        let edit = edit_of(alloc, by, station)?;
        let Ok(()) = edits.push(edit) else {
            return Err(DocumentFault::NoMemory);
        };
    }
    Ok(edits)
}

/// No edit, with room for so many.
fn room_for(alloc: Global, count: usize) -> Result<Vec<Edit>, NoMemory>
    ensures { IfOk result (λ edits. edits.items ≡ []) }
{
    Ok(Vec::with_capacity(alloc, count)?)
}

/// The edit by which a person adds a station, which is a table.
fn edit_of(alloc: Global, by: &By, station: &Value) -> Result<Edit, DocumentFault>
    ensures { IsRead (StatesTable by.now (as_table (view station.now))) result }
{
    match station.as_table() {
        Some(table) => station_in(alloc, by, table),
        None => Err(DocumentFault::NoDocument),
    }
}
