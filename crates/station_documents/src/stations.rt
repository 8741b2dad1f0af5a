//! The table of a station, read into the edit that adds it.

ghost use Rattle.std.specs.Prelude.{◌≡◌, codes, IfOk, option_and_then, string_bytes};
ghost use Rattle.std.specs.BTreeMap.{keys};
ghost use Rattle.std.specs.List.{list_all};
ghost use Rattle.edits.specs.Lawful.{IsStationZone};
ghost use Rattle.edits.specs.Texts.{IsName, IsReference};
ghost use Rattle.fixed_units.specs.RoundingArray.{IsRoundingArray};
ghost use Rattle.site_texts.specs.SiteText.{site_of_text};
ghost use Rattle.station_documents.specs.Answers.{IsFound, IsRead};
ghost use Rattle.station_documents.specs.Members.{HasText, all_keys, string_at};
ghost use Rattle.station_documents.specs.Stations.{HasGap, StatesAddition, StatesStation, is_station_key};
ghost use Rattle.toml.specs.View.{table_view};

use crate::faults::DocumentFault;
use crate::members::{string_at, whole_at};
use edits::{By, Edit, Name, Ref, What, is_gap, is_name, is_zone};
use fixed_units::{NoMemory, RoundingArray, Site, Text};
use site_texts::read_site;
use std::alloc::Global;
use toml::Table;

/// The edit by which a person adds the station of a table.
pub(crate) fn station_in(alloc: Global, by: &By, table: &Table) -> Result<Edit, DocumentFault>
    ensures { IsRead (StatesStation by.now (table_view table.now)) result }
{
    if !has_station_keys_alone(table) {
        return Err(DocumentFault::NoDocument);
    }
    let Some(reference) = reference_in(table) else {
        return Err(DocumentFault::NoDocument);
    };
    let Some(site) = site_in(table) else {
        return Err(DocumentFault::NoDocument);
    };
    let what = addition_in(alloc, table)?;
    Ok(Edit::of(by.copy(), reference, site, what))
}

/// Whether each member of the table is one of a station.
fn has_station_keys_alone(table: &Table) -> bool
    ensures { result ≡ all_keys is_station_key (table_view table.now) }
{
    are_station_keys(table)
}

/// Whether each key of the table is one that the table of a station has.
fn are_station_keys(table: &Table) -> bool
    ensures { result ≡ list_all (λ key. is_station_key (string_bytes key)) (keys table.now) }
{
    table.keys().all(|key| is_station_key(key.as_str()))
}

/// Whether the table of a station has this key.
fn is_station_key(key: &str) -> bool
    ensures { result ≡ is_station_key key.now }
{
    key == "site"
        || key == "ref"
        || key == "name"
        || key == "zone"
        || key == "gap"
        || key == "stage_array"
        || key == "discharge_array"
}

/// The reference under which the station is added.
fn reference_in(table: &Table) -> Option<Ref>
    ensures { IsFound (HasText IsReference (codes "ref") (table_view table.now)) result }
{
    Ref::new(string_at(table, "ref")?.as_bytes())
}

/// The site of the station.
fn site_in(table: &Table) -> Option<Site>
    ensures { result ≡ option_and_then site_of_text (string_at (codes "site") (table_view table.now)) }
{
    read_site(string_at(table, "site")?.as_bytes())
}

/// What an edit changes that adds the station.
fn addition_in(alloc: Global, table: &Table) -> Result<What, DocumentFault>
    ensures { IsRead (StatesAddition (table_view table.now)) result }
{
    let name = name_in(alloc, table)?;
    let zone = zone_in(alloc, table)?;
    let Some(gap) = gap_in(table) else {
        return Err(DocumentFault::NoDocument);
    };
    let Some(stage_array) = rounding_array_in(table, "stage_array") else {
        return Err(DocumentFault::NoDocument);
    };
    let Some(discharge_array) = rounding_array_in(table, "discharge_array") else {
        return Err(DocumentFault::NoDocument);
    };
    Ok(What::AddStation {
        name,
        zone,
        gap,
        stage_array,
        discharge_array,
    })
}

/// What the station is called.
fn name_in(alloc: Global, table: &Table) -> Result<Name, DocumentFault>
    ensures { IsRead (HasText IsName (codes "name") (table_view table.now)) result }
{
    let Some(text) = string_at(table, "name") else {
        return Err(DocumentFault::NoDocument);
    };
    if !is_name(text.as_bytes()) {
        return Err(DocumentFault::NoDocument);
    }
    Ok(name_of(alloc, text)?)
}

/// The text of the station's zone.
fn zone_in(alloc: Global, table: &Table) -> Result<Name, DocumentFault>
    ensures { IsRead (HasText IsStationZone (codes "zone") (table_view table.now)) result }
{
    let Some(text) = string_at(table, "zone") else {
        return Err(DocumentFault::NoDocument);
    };
    if !is_zone(alloc, text.as_bytes())? {
        return Err(DocumentFault::NoDocument);
    }
    Ok(name_of(alloc, text)?)
}

/// The name that a text is.
fn name_of(alloc: Global, text: &str) -> Result<Name, NoMemory>
    requires { IsName text.now }
    ensures { IfOk result (λ name. name ≡ text.now) }
{
    let mut own = Text::new(alloc);
    own.push_slice(text.as_bytes())?;
    Ok(Name::new(own).unwrap())
}

/// The gap tolerance of the station in minutes.
fn gap_in(table: &Table) -> Option<u32>
    ensures { IsFound (HasGap (table_view table.now)) result }
{
    let gap = u32::try_from(whole_at(table, "gap")?).ok()?;
    if is_gap(gap) { Some(gap) } else { None }
}

/// The rounding array at a key.
fn rounding_array_in(table: &Table, key: &str) -> Option<RoundingArray>
    ensures { IsFound (HasText IsRoundingArray key.now (table_view table.now)) result }
{
    RoundingArray::read(string_at(table, key)?.as_bytes())
}
