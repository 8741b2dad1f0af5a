//! The texts of tables, by what an office answers.

ghost use Rattle.std.specs.Prelude.{◌≡◌, All, map, IfOk};
ghost use Rattle.table_writing.specs.Counted.{IsCountedOrNone};
ghost use Rattle.table_writing.specs.Texts.{daily_output, first_pending, no_station, pending_line, water_output, year_by};
ghost use Rattle.water_year.specs.Rows.{AreRowsOf, IsWaterYear, days_of};
ghost use Rattle.water_year.specs.Tables.{year_of};
ghost use Rattle.water_year.specs.YearText as tables;

use crate::rows::rows_from;
use civil_days::write_day;
use devices::Disk;
use fixed_units::{Day, NoMemory, RoundingArray, Site, Text};
use office::Office;
use std::alloc::Global;
use water_year::{DailyRow, RowState, first_day, last_day, write_daily, write_year, year_table};

/// The text of the daily values of a site from one day to another.
pub(crate) fn daily_text<D: Disk>(
    alloc: Global,
    office: &Office<D>,
    site: Site,
    from: Day,
    to: Day,
) -> Result<Text, NoMemory>
    ensures { IfOk result (λ text. text ≡ daily_output office.now.register.history.events site from to) }
{
    if office.station(site).is_none() {
        return no_station(alloc);
    }
    let rows = rows_from(alloc, office, site, from, to)?;
    let mut text = Text::new(alloc);
    write_daily(rows.as_slice(), site, &mut text)?;
    Ok(text)
}

/// The text of the table of a water year of a site.
pub(crate) fn water_text<D: Disk>(
    alloc: Global,
    office: &Office<D>,
    site: Site,
    year: u16,
) -> Result<Text, NoMemory>
    requires { IsWaterYear year }
    ensures { IfOk result (λ text. text ≡ water_output office.now.register.history.events site year) }
{
    let Some(station) = office.station(site) else {
        return no_station(alloc);
    };
    let array = station.discharge_array();
    // the proof learns here what a rounding array keeps to
    let _digits = array.digits();
    let rows = rows_from(alloc, office, site, first_day(year), last_day(year))?;
    year_text(alloc, year, site, array, rows.as_slice())
}

/// The line in place of a table of a site that is not kept.
fn no_station(alloc: Global) -> Result<Text, NoMemory>
    ensures { IfOk result (λ text. text ≡ no_station) }
{
    let mut text = Text::new(alloc);
    text.push_slice(b"NO STATION\n")?;
    Ok(text)
}

/// The text of the table of a water year by a row of each of its days, or the line of the first one that is pending.
fn year_text(
    alloc: Global,
    year: u16,
    site: Site,
    array: &RoundingArray,
    rows: &[DailyRow],
) -> Result<Text, NoMemory>
    requires year { IsWaterYear year }
    requires days { map (λ row. row.day) rows.now ≡ days_of year }
    requires counted { All IsCountedOrNone rows.now }
    ensures { IfOk result (λ text. text ≡ year_by year site array.now rows.now) }
{
    match first_pending(rows) {
        Some(pending) => pending_text(alloc, pending),
        None => table_text(alloc, year, site, array, rows),
    }
}

/// The text of the table of a water year of which no day is pending.
fn table_text(
    alloc: Global,
    year: u16,
    site: Site,
    array: &RoundingArray,
    rows: &[DailyRow],
) -> Result<Text, NoMemory>
    requires year { IsWaterYear year }
    requires rows { AreRowsOf year rows.now }
    ensures { IfOk result (λ text. text ≡ tables.year_text year site array.now (year_of year rows.now)) }
{
    let table = year_table(year, rows, array);
    let mut text = Text::new(alloc);
    write_year(year, &table, site, array, &mut text)?;
    Ok(text)
}

/// The first day that awaits an edit, and that edit.
fn first_pending(rows: &[DailyRow]) -> Option<(Day, u64)>
    ensures { result ≡ first_pending rows.now }
{
    for row in rows {
        if let RowState::Pending(edit) = row.state {
            return Some((row.day, edit));
        }
    }
    None
}

/// The line of a day that awaits an edit.
fn pending_text(alloc: Global, pending: (Day, u64)) -> Result<Text, NoMemory>
    ensures { IfOk result (λ text. text ≡ pending_line pending) }
{
    let (day, edit) = pending;
    let mut text = Text::new(alloc);
    text.push_slice(b"PENDING ")?;
    write_day(day, &mut text)?;
    text.push(b' ')?;
    text.push_number(edit)?;
    text.push(b'\n')?;
    Ok(text)
}
