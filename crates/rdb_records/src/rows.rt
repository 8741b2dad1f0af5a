//! A row of unit values: what it states by itself, and its place behind the row before it.

ghost use Rattle.std.specs.Prelude.{◌≡◌, Ok, option_map, pos, neg_ℤ, IfSome};
ghost use Rattle.csv.specs.Records.{field_at};
ghost use Rattle.fixed_units.specs.Quantities.{IsWithin};
ghost use Rattle.rating_tables.specs.Lines.{IsKept};
ghost use Rattle.rating_tables.specs.Rdb.{fields, is_field};
ghost use Rattle.rdb_records.specs.Rows.{after_row, columns_of, instant_from, number_in, row_of, time_in, with_number, zone_in};
ghost use Rattle.rdb_records.specs.Times.{stamp_by};

use crate::faults::UnitFault;
use crate::fields::{find_column, find_field};
use crate::lines::Line;
use crate::times::{read_stamp, zone_hours};
use fixed_units::{Micro, Second, is_stage, read_decimal};

/// Where the columns stand that are read.
#[derive(Clone, Copy, Debug)]
pub(crate) struct Columns {
    /// The column `site_no`, the number of the site.
    pub site: usize,
    /// The column `datetime`, a local date and time.
    pub time: usize,
    /// The column `tz_cd`, the zone that tells it.
    pub zone: usize,
    /// The column of the values, stages in feet.
    pub value: usize,
}

/// What a row states.
#[derive(Clone, Copy, Debug)]
pub(crate) struct UnitRow {
    /// When its value was read.
    pub at: Second,
    /// The stage that its value is, or nothing where the value is no number and the row is skipped.
    pub stage: Option<Micro>,
}

/// The places of the columns in the line of their names, if all are there.
pub(crate) fn find_columns(names: &[u8], value: &[u8]) -> Option<Columns>
    requires { IsKept names.now }
    ensures { result ≡ columns_of value.now (fields names.now) }
{
    Some(Columns {
        site: find_column(names, b"site_no")?,
        time: find_column(names, b"datetime")?,
        zone: find_column(names, b"tz_cd")?,
        value: find_column(names, value)?,
    })
}

/// The row of a line of a site whose digits are given, behind the instant of the row before.
pub(crate) fn read_row(
    site: &[u8],
    columns: Columns,
    before: Option<Second>,
    line: &Line<'_>,
) -> Result<UnitRow, UnitFault>
    requires { IsKept line.now.bytes.now }
    ensures { result ≡ row_of site.now columns before (line.now.number, line.now.bytes.now) }
{
    let at = read_instant(site, columns, line)?;
    let at = put_after(line.number, before, at)?;
    let number = read_number(find_field(line.bytes, columns.value));
    make_row(line.number, at, number)
}

/// The instant of a row of the site.
fn read_instant(site: &[u8], columns: Columns, line: &Line<'_>) -> Result<Second, UnitFault>
    requires { IsKept line.now.bytes.now }
    ensures { let fields = fields line.now.bytes.now in
        result ≡ instant_from line.now.number (is_field site.now (field_at fields columns.site))
        (zone_in (field_at fields columns.zone)) (time_in (field_at fields columns.time)) }
{
    if !is_of_site(find_field(line.bytes, columns.site), site) {
        return Err(UnitFault::Site(line.number));
    }
    let Some(hours) = read_zone(find_field(line.bytes, columns.zone)) else {
        return Err(UnitFault::Zone(line.number));
    };
    let at = read_time(hours, find_field(line.bytes, columns.time));
    at.ok_or(UnitFault::Instant(line.number))
}

/// Whether there is a field that is the site's digits.
fn is_of_site(field: Option<&[u8]>, site: &[u8]) -> bool
    ensures { result ≡ is_field site.now (option_map (λ s. s.now) field.entry) }
{
    match field {
        Some(field) => field == site,
        None => false,
    }
}

/// The hours of the zone in a field, if there is one of the list.
fn read_zone(field: Option<&[u8]>) -> Option<i64>
    ensures value { result ≡ zone_in (option_map (λ s. s.now) field.entry) }
    ensures bound { IfSome result (λ hours. IsWithin (neg_ℤ (pos 10)) (pos 0) hours) }
{
    zone_hours(field?)
}

/// The stamp of the local time in a field, of a zone of those hours.
fn read_time(hours: i64, field: Option<&[u8]>) -> Option<Second>
    requires { IsWithin (neg_ℤ (pos 10)) (pos 0) hours }
    ensures { result ≡ stamp_by hours (time_in (option_map (λ s. s.now) field.entry)) }
{
    read_stamp(hours, field?)
}

/// An instant that is after that of the row before.
fn put_after(number: u64, before: Option<Second>, at: Second) -> Result<Second, UnitFault>
    ensures { result ≡ after_row number before (Ok at) }
{
    match before {
        Some(before) if at <= before => Err(UnitFault::Order(number)),
        _ => Ok(at),
    }
}

/// The number in a field, if there is one.
fn read_number(field: Option<&[u8]>) -> Option<Micro>
    ensures { result ≡ number_in (option_map (λ s. s.now) field.entry) }
{
    read_decimal(field?).ok()
}

/// A row of an instant and a number, which has to be a stage.
fn make_row(line: u64, at: Second, number: Option<Micro>) -> Result<UnitRow, UnitFault>
    ensures { result ≡ with_number line number (Ok at) }
{
    match number {
        Some(number) if !is_stage(number.get()) => Err(UnitFault::Range(line)),
        stage => Ok(UnitRow { at, stage }),
    }
}
