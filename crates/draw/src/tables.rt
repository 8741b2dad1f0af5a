//! The rows of a station's record that a picture is drawn from: a row a line, the station's first.

ghost use Rattle.std.specs.Prelude.{◌≡◌, ◌⊎◌, ◌+◌, ◌<◌, ◌++◌, ◌∷◌, [], IfOk, IfErr, OnOk, Ok, Err};
ghost use Rattle.std.specs.List.{list_all};
ghost use Rattle.std.specs.Str.Lines.{lines};
ghost use Rattle.civil_days.specs.Starts.{IsZone};
ghost use Rattle.draw.specs.Rows.{fields, texts};
ghost use Rattle.draw.specs.Tables as tables;
ghost use Rattle.draw.specs.Tables.{IsAdded, IsFaultOf, IsFaulty, IsNoStation, IsNoStationOf, IsStation, IsStationOf, IsTableOf, gap_in, in_order, is_name, is_shown, no_row, parts_in, put_after, row_behind, rows_from, site_in};

use crate::rows::{Row, Why, read_row, whole_in};
use civil_days::{StationZone, ZoneFault};
use fixed_units::{Day, MOST_GAP, NoMemory, Second, Site, Text};
use site_texts::read_site;
use std::alloc::Global;

/// The longest name of a station, in bytes.
const MOST_NAME: usize = 200;

impl From<NoMemory> for Why {
    ghost use Rattle.std.specs.Prelude.{◌≡◌};
    ghost use Rattle.draw.specs.declared.rows.Why.TheVariants as whys;

    ghost from_gives = { λ _ why. why ≡ whys.NoMemory };

    fn from(_error: NoMemory) -> Why {
        Why::NoMemory
    }
}

/// A fault and the line that has it, counted from 1.
#[derive(Clone, Copy)]
pub struct RowFault {
    /// What is wrong.
    pub why: Why,
    /// In which line.
    pub line: usize,
}

/// A station.
#[derive(Drop)]
pub struct Station {
    /// Its site.
    pub site: Site,
    /// Its name.
    pub name: Text,
    /// Its zone.
    pub zone: StationZone,
    /// The gap tolerance in minutes.
    pub gap: u32,
}

/// A station and its rows, in the order of their lines.
#[derive(Drop)]
pub struct Table {
    /// The station.
    pub station: Station,
    /// The rows.
    pub rows: Vec<Row>,
}

/// The last instant of a reading and the last date of a day among the rows before a line.
#[derive(Clone, Copy)]
pub struct Before {
    /// The instant of the last reading, if there is one.
    pub reading: Option<Second>,
    /// The date of the last day, if there is one.
    pub day: Option<Day>,
}

/// The station and the rows of a text: its first line is the station's, and each further one is a row.
///
/// # Errors
///
/// The first fault, lines in order, and the line that has it, or want of memory.
pub fn read_table(alloc: Global, text: &str) -> Result<Table, RowFault>
    ensures read { IfOk result (IsTableOf (lines text.now)) }
    ensures refused { IfErr result (λ fault. (fault.why ≡ Why.NoMemory) ⊎ IsFaultOf (lines text.now) fault) }
{
    match split_lines(alloc, text) {
        Ok(lines) => read_all(alloc, &lines),
        Err(_) => Err(RowFault {
            why: Why::NoMemory,
            line: 1,
        }),
    }
}

/// The station and the rows of lines.
fn read_all(alloc: Global, lines: &[&str]) -> Result<Table, RowFault>
    ensures read { IfOk result (IsTableOf (texts lines.now)) }
    ensures refused { IfErr result (λ fault. (fault.why ≡ Why.NoMemory) ⊎ IsFaultOf (texts lines.now) fault) }
{
    let [first, others @ ..] = lines else {
        return Err(RowFault {
            why: Why::Fields,
            line: 1,
        });
    };
    read_behind(alloc, first, others)
}

/// The station of the first line and the rows of those behind it.
fn read_behind(alloc: Global, first: &str, others: &[&str]) -> Result<Table, RowFault>
    ensures read { IfOk result (tables.IsTableBehind first.now (texts others.now)) }
    ensures refused { IfErr result (λ fault. (fault.why ≡ Why.NoMemory) ⊎ tables.IsFaultBehind first.now (texts others.now) fault) }
{
    match read_first(alloc, first) {
        Ok(station) => with_rows(alloc, station, others),
        Err(why) => Err(RowFault { why, line: 1 }),
    }
}

/// A station and the rows of the lines behind its own.
fn with_rows(alloc: Global, station: Station, others: &[&str]) -> Result<Table, RowFault>
    ensures station { IfOk result (λ table. table.station ≡ station) }
    ensures rows { IfOk result (λ table. rows_from 1 no_row (texts others.now) ≡ Ok table.rows.items) }
    ensures refused { IfErr result (λ fault. (fault.why ≡ Why.NoMemory) ⊎ rows_from 1 no_row (texts others.now) ≡ Err fault) }
{
    let rows = read_rows(alloc, others)?;
    Ok(Table { station, rows })
}

/// The lines of a text.
fn split_lines(alloc: Global, text: &str) -> Result<Vec<&str>, NoMemory>
    ensures { IfOk result (λ found. texts found.items ≡ lines text.now) }
{
    let found = text.lines().collect(alloc)?;
    Ok(found)
}

/// The fields of a line.
fn split_fields(alloc: Global, line: &str) -> Result<Vec<&str>, NoMemory>
    ensures { IfOk result (λ parts. texts parts.items ≡ fields line.now) }
{
    let parts = line.split('\t').collect(alloc)?;
    Ok(parts)
}

/// The station of the first line.
fn read_first(alloc: Global, line: &str) -> Result<Station, Why>
    ensures read { IfOk result (IsStation (fields line.now)) }
    ensures refused { IfErr result (λ why. (why ≡ Why.NoMemory) ⊎ IsNoStation (fields line.now) why) }
{
    let parts = split_fields(alloc, line)?;
    read_station(alloc, &parts)
}

/// The station of fields.
fn read_station(alloc: Global, fields: &[&str]) -> Result<Station, Why>
    ensures read { IfOk result (IsStation (texts fields.now)) }
    ensures refused { IfErr result (λ why. (why ≡ Why.NoMemory) ⊎ IsNoStation (texts fields.now) why) }
{
    let [kind, site, name, zone, gap] = fields else {
        return Err(Why::Fields);
    };
    station_of(alloc, kind, site, name, zone, gap)
}

/// The station that five fields write.
fn station_of(
    alloc: Global,
    kind: &str,
    site: &str,
    name: &str,
    zone: &str,
    gap: &str,
) -> Result<Station, Why>
    ensures read { IfOk result (IsStationOf kind.now site.now name.now zone.now gap.now) }
    ensures refused { IfErr result (λ why. (why ≡ Why.NoMemory) ⊎ IsNoStationOf kind.now site.now name.now zone.now gap.now why) }
{
    let (site, gap) = parts_in(kind, site, name, gap)?;
    let zone = zone_in(alloc, zone)?;
    let name = text_of(alloc, name)?;
    Ok(Station {
        site,
        name,
        zone,
        gap,
    })
}

/// The site and the gap tolerance of a station's fields, which have a name.
#[tactic(auto, unfolding(crate::specs::Tables::parts_in))]
fn parts_in(kind: &str, site: &str, name: &str, gap: &str) -> Result<(Site, u32), Why>
    ensures { result ≡ parts_in kind.now site.now name.now gap.now }
{
    if kind.as_bytes() != b"station".as_slice() {
        return Err(Why::Station);
    }
    let site = site_in(site)?;
    if !is_name(name.as_bytes()) {
        return Err(Why::Name);
    }
    let gap = gap_in(gap)?;
    Ok((site, gap))
}

/// The site that a field writes.
fn site_in(field: &str) -> Result<Site, Why>
    ensures { result ≡ site_in field.now }
{
    read_site(field.as_bytes()).ok_or(Why::Site)
}

/// Whether a field is a name: it is not too long, and has no control character.
#[tactic(auto, unfolding(crate::specs::Tables::is_name))]
fn is_name(field: &[u8]) -> bool
    ensures { result ≡ is_name field.now }
{
    field.len() <= MOST_NAME && are_shown(field)
}

/// Whether each byte is shown.
fn are_shown(field: &[u8]) -> bool
    ensures { result ≡ list_all is_shown field.now }
{
    field.iter().all(is_shown)
}

/// Whether a byte is no control character.
fn is_shown(byte: &u8) -> bool
    ensures { result ≡ is_shown byte.now }
{
    *byte >= 32 && *byte != 127
}

/// The gap tolerance in minutes that a field writes.
fn gap_in(field: &str) -> Result<u32, Why>
    ensures { result ≡ gap_in field.now }
{
    match whole_in(field) {
        Some(minutes) if 1 <= minutes && minutes <= MOST_GAP => Ok(minutes),
        _ => Err(Why::Gap),
    }
}

/// The zone that a field writes.
fn zone_in(alloc: Global, field: &str) -> Result<StationZone, Why>
    ensures read { IfOk result (λ zone. zone ≡ field.now) }
    ensures zone { IfOk result (λ _. IsZone field.now) }
    ensures refused { IfErr result (λ why. (why ≡ Why.NoMemory) ⊎ tables.IsNoZone field.now why) }
{
    match StationZone::read(alloc, field) {
        Ok(zone) => Ok(zone),
        Err(ZoneFault::BadZone) => Err(Why::Zone),
        Err(ZoneFault::NoMemory) => Err(Why::NoMemory),
    }
}

/// A text of these bytes.
fn text_of(alloc: Global, field: &str) -> Result<Text, NoMemory>
    ensures { IfOk result (λ text. text ≡ field.now) }
{
    let mut text = Text::new(alloc);
    text.push_slice(field.as_bytes())?;
    Ok(text)
}

/// The rows of the lines behind the station's.
fn read_rows(alloc: Global, lines: &[&str]) -> Result<Vec<Row>, RowFault>
    ensures read { IfOk result (λ rows. rows_from 1 no_row (texts lines.now) ≡ Ok rows.items) }
    ensures refused { IfErr result (λ fault. (fault.why ≡ Why.NoMemory) ⊎ rows_from 1 no_row (texts lines.now) ≡ Err fault) }
{
    let mut rows = Vec::new(alloc);
    let mut before = Before {
        reading: None,
        day: None,
    };
    let mut passed = 1;
    for line in lines {
        passed += 1;
        match add_row(alloc, &before, line, passed, &mut rows) {
            Ok(next) => before = next,
            Err(fault) => return Err(fault),
        }
    }
    Ok(rows)
}

/// Adds the row of a line that stands at a place behind others, and tells what is before the next one.
fn add_row(
    alloc: Global,
    before: &Before,
    line: &str,
    place: usize,
    rows: &mut Vec<Row>,
) -> Result<Before, RowFault>
    ensures added { IfOk result (λ next. IsAdded before.now line.now next rows.old.items rows.new.items) }
    ensures refused { IfErr result (λ fault. (fault.why ≡ Why.NoMemory) ⊎ IsFaulty before.now line.now place fault) }
{
    match next_row(alloc, before, line, rows) {
        Ok(next) => Ok(next),
        Err(why) => Err(RowFault { why, line: place }),
    }
}

/// Adds the row of a line behind others, and tells what is before the next one.
fn next_row(alloc: Global, before: &Before, line: &str, rows: &mut Vec<Row>) -> Result<Before, Why>
    ensures added { IfOk result (λ next. IsAdded before.now line.now next rows.old.items rows.new.items) }
    ensures refused { IfErr result (λ why. (why ≡ Why.NoMemory) ⊎ tables.row_on before.now line.now ≡ Err why) }
{
    match read_next(alloc, before, line) {
        Ok(row) => put_row(before, &row, rows),
        Err(why) => Err(why),
    }
}

/// Adds a row, and tells what is before the next one.
fn put_row(before: &Before, row: &Row, rows: &mut Vec<Row>) -> Result<Before, Why>
    ensures rows { IfOk result (λ _. rows.new.items ≡ rows.old.items ++ row.now ∷ []) }
    ensures next { IfOk result (λ next. next ≡ row_behind before.now row.now) }
    ensures refused { IfErr result (λ why. why ≡ Why.NoMemory) }
{
    push_row(row, rows)?;
    Ok(row_behind(before, row))
}

/// Adds a row.
fn push_row(row: &Row, rows: &mut Vec<Row>) -> Result<(), NoMemory>
    ensures { OnOk result (rows.new.items ≡ rows.old.items ++ row.now ∷ []) }
{
    match row {
        Row::Reading(reading) => rows.push(Row::Reading(*reading))?,
        Row::Day(row) => rows.push(Row::Day(*row))?,
        Row::Measurement(row) => rows.push(Row::Measurement(*row))?,
    }
    Ok(())
}

/// The row of a line behind others.
fn read_next(alloc: Global, before: &Before, line: &str) -> Result<Row, Why>
    ensures read { IfOk result (λ row. tables.row_on before.now line.now ≡ Ok row) }
    ensures refused { IfErr result (λ why. (why ≡ Why.NoMemory) ⊎ tables.row_on before.now line.now ≡ Err why) }
{
    let parts = split_fields(alloc, line)?;
    put_after(before, read_row(&parts))
}

/// A row that is after those of its kind before it.
fn put_after(before: &Before, row: Result<Row, Why>) -> Result<Row, Why>
    ensures { result ≡ put_after before.now row }
{
    let row = row?;
    if in_order(before, &row) {
        Ok(row)
    } else {
        Err(Why::Order)
    }
}

/// Whether a row is after those of its kind before it.
fn in_order(before: &Before, row: &Row) -> bool
    ensures { result ≡ in_order before.now row.now }
{
    match row {
        Row::Reading(reading) => match before.reading {
            Some(last) => last < reading.at,
            None => true,
        },
        Row::Day(row) => match before.day {
            Some(last) => last < row.day,
            None => true,
        },
        Row::Measurement(_) => true,
    }
}

/// What is before the line behind a row.
fn row_behind(before: &Before, row: &Row) -> Before
    ensures { result ≡ row_behind before.now row.now }
{
    match row {
        Row::Reading(reading) => Before {
            reading: Some(reading.at),
            day: before.day,
        },
        Row::Day(row) => Before {
            reading: before.reading,
            day: Some(row.day),
        },
        Row::Measurement(_) => Before {
            reading: before.reading,
            day: before.day,
        },
    }
}
