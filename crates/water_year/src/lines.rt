//! The text of the table of a water year.

ghost use Rattle.std.specs.Prelude.{◌≡◌, ◌<◌, [], ◌++◌, All, List, decimal, flat_map, zip, length, slice_index_or, take, pos, OnOk, OnErr};
ghost use Rattle.fixed_units.specs.Published.{published};
ghost use Rattle.fixed_units.specs.PublishedText.{micro_text, published_text};
ghost use Rattle.water_year.specs.Figures.{IsFigured};
ghost use Rattle.water_year.specs.Rows.{AreRowsOf, IsWaterYear};
ghost use Rattle.water_year.specs.Tables.{year_of};
ghost use Rattle.water_year.specs.YearText.{acre_feet, extremes_text, figures_text, month_line, month_names, state_line, sums_text, title_line, told_text, year_text};
ghost use Rattle.water_year.specs.declared.rows.DailyRow.{DailyRow};

use crate::tables::{Month, Year};
use fixed_units::{
    NoMemory, Published, RoundingArray, Site, Text, div_half_away, publish, write_published,
};
use site_texts::write_site;

/// Adds the text of the table of a water year of a site: a line of the year and the site, one of each month from October, one of the
/// year, and the state. Of a month of which no day is missing its line tells the total, the mean by the rounding array, the extremes, and
/// the volume in whole acre-feet; of any other how many days are missing. After `NoMemory` the text is as before.
pub fn write_year(
    year: u16,
    table: &Year,
    site: Site,
    array: &RoundingArray,
    out: &mut Text,
) -> Result<(), NoMemory>
    requires year { IsWaterYear year }
    requires table { (rows : List DailyRow) × AreRowsOf year rows × (table.now ≡ year_of year rows) }
    ensures ok { OnOk result (out.new ≡ out.old ++ year_text year site array.now table.now) }
    ensures err { OnErr result (out.new ≡ out.old) }
{
    let before = out.len();
    let written = write_lines(year, table, site, array, out);
    if written.is_err() {
        out.truncate(before);
    }
    written
}

/// Adds the lines of a table, of which a part may be added where memory runs out.
fn write_lines(
    year: u16,
    table: &Year,
    site: Site,
    array: &RoundingArray,
    out: &mut Text,
) -> Result<(), NoMemory>
    requires months { All IsFigured table.now.months }
    requires whole { IsFigured table.now.whole }
    ensures ok { OnOk result (out.new ≡ out.old ++ year_text year site array.now table.now) }
    ensures err { OnErr result (take (length out.old) out.new ≡ out.old) }
{
    write_title(year, site, out)?;
    write_months(&table.months, array, out)?;
    write_month(b"YEAR", &table.whole, array, out)?;
    write_state(table.approved, out)
}

/// Adds the line of the year and the site, of which a part may be added where memory runs out.
fn write_title(year: u16, site: Site, out: &mut Text) -> Result<(), NoMemory>
    ensures ok { OnOk result (out.new ≡ out.old ++ title_line year site) }
    ensures err { OnErr result (take (length out.old) out.new ≡ out.old) }
{
    out.push_slice(b"WATER YEAR ")?;
    out.push_number(u64::from(year))?;
    out.push(b' ')?;
    write_site(site, out)?;
    out.push(b'\n')
}

/// Adds the line of the state.
fn write_state(approved: bool, out: &mut Text) -> Result<(), NoMemory>
    ensures ok { OnOk result (out.new ≡ out.old ++ state_line approved) }
    ensures err { OnErr result (out.new ≡ out.old) }
{
    if approved {
        out.push_slice(b"STATE A\n")
    } else {
        out.push_slice(b"STATE P\n")
    }
}

/// Adds the lines of the months, of which a part may be added where memory runs out.
fn write_months(months: &[Month; 12], array: &RoundingArray, out: &mut Text) -> Result<(), NoMemory>
    requires { All IsFigured months.now }
    ensures ok { OnOk result (out.new ≡ out.old ++ flat_map (month_line array.now) (zip month_names months.now)) }
    ensures err { OnErr result (take (length out.old) out.new ≡ out.old) }
{
    for place in 0..12 {
        write_month(month_name(place), &months[place], array, out)?;
    }
    Ok(())
}

/// The name of the month at a place of a water year, counted from 0.
fn month_name(place: usize) -> &'static [u8]
    requires { place < 12 }
    ensures { result.now ≡ slice_index_or month_names place [] }
{
    match place {
        0 => b"OCT",
        1 => b"NOV",
        2 => b"DEC",
        3 => b"JAN",
        4 => b"FEB",
        5 => b"MAR",
        6 => b"APR",
        7 => b"MAY",
        8 => b"JUN",
        9 => b"JUL",
        10 => b"AUG",
        11 => b"SEP",
        _ => unreachable!(),
    }
}

/// Adds the line of a month behind its name, of which a part may be added where memory runs out.
fn write_month(
    name: &[u8],
    month: &Month,
    array: &RoundingArray,
    out: &mut Text,
) -> Result<(), NoMemory>
    requires { IsFigured month.now }
    ensures ok { OnOk result (out.new ≡ out.old ++ month_line array.now (name.now, month.now)) }
    ensures err { OnErr result (take (length out.old) out.new ≡ out.old) }
{
    write_counted(name, b" DAYS ", month.days, out)?;
    write_told(month, array, out)?;
    out.push(b'\n')
}

/// Adds what is told of a month, of which a part may be added where memory runs out.
fn write_told(month: &Month, array: &RoundingArray, out: &mut Text) -> Result<(), NoMemory>
    requires { IsFigured month.now }
    ensures ok { OnOk result (out.new ≡ out.old ++ told_text array.now month.now) }
    ensures err { OnErr result (take (length out.old) out.new ≡ out.old) }
{
    if month.missing == 0 {
        write_figures(month, array, out)
    } else {
        write_counted(b" MISSING", b" ", month.missing, out)
    }
}

/// Adds the figures of a month, of which a part may be added where memory runs out.
fn write_figures(month: &Month, array: &RoundingArray, out: &mut Text) -> Result<(), NoMemory>
    requires { IsFigured month.now }
    ensures ok { OnOk result (out.new ≡ out.old ++ figures_text array.now month.now) }
    ensures err { OnErr result (take (length out.old) out.new ≡ out.old) }
{
    write_sums(month, array, out)?;
    write_extremes(month, out)?;
    write_value(b" ACFT ", acre_feet(month), out)
}

/// Adds the total and the mean of a month, of which a part may be added where memory runs out.
fn write_sums(month: &Month, array: &RoundingArray, out: &mut Text) -> Result<(), NoMemory>
    requires { IsFigured month.now }
    ensures ok { OnOk result (out.new ≡ out.old ++ sums_text array.now month.now) }
    ensures err { OnErr result (take (length out.old) out.new ≡ out.old) }
{
    write_amount(b" TOTAL ", month.total, out)?;
    write_value(b" MEAN ", mean(month, array), out)
}

/// Adds the extremes of a month, of which a part may be added where memory runs out.
fn write_extremes(month: &Month, out: &mut Text) -> Result<(), NoMemory>
    requires { IsFigured month.now }
    ensures ok { OnOk result (out.new ≡ out.old ++ extremes_text month.now) }
    ensures err { OnErr result (take (length out.old) out.new ≡ out.old) }
{
    write_amount(b" MAX ", month.most, out)?;
    write_amount(b" MIN ", month.least, out)
}

/// Adds a name, some bytes and a number, of which a part may be added where memory runs out.
fn write_counted(name: &[u8], between: &[u8], number: u32, out: &mut Text) -> Result<(), NoMemory>
    ensures ok { OnOk result (out.new ≡ out.old ++ (name.now ++ (between.now ++ decimal number))) }
    ensures err { OnErr result (take (length out.old) out.new ≡ out.old) }
{
    out.push_slice(name)?;
    out.push_slice(between)?;
    out.push_number(u64::from(number))
}

/// Adds an amount of millionths with its six decimals behind its name, of which a part may be added where memory runs out.
fn write_amount(name: &[u8], millionths: i64, out: &mut Text) -> Result<(), NoMemory>
    ensures ok { OnOk result (out.new ≡ out.old ++ (name.now ++ micro_text millionths)) }
    ensures err { OnErr result (take (length out.old) out.new ≡ out.old) }
{
    write_value(
        name,
        Published {
            units: millionths,
            places: 6,
        },
        out,
    )
}

/// Adds a published value behind its name, of which a part may be added where memory runs out.
fn write_value(name: &[u8], value: Published, out: &mut Text) -> Result<(), NoMemory>
    ensures ok { OnOk result (out.new ≡ out.old ++ (name.now ++ published_text value)) }
    ensures err { OnErr result (take (length out.old) out.new ≡ out.old) }
{
    out.push_slice(name)?;
    write_published(value, out)
}

/// The mean of a month, published by the array: its total over its days, rounded once.
fn mean(month: &Month, array: &RoundingArray) -> Published
    requires { IsFigured month.now }
    ensures { result ≡ published array.now month.now.total (pos month.now.days) }
{
    publish(i128::from(month.total), i128::from(month.days), array)
}

/// The volume of a month in whole acre-feet, rounded once: its total, in millionths, times 240 / 121.
fn acre_feet(month: &Month) -> Published
    requires { IsFigured month.now }
    ensures { result ≡ record { units = acre_feet month.now.total; places = 0 } }
{
    Published {
        units: div_half_away(i128::from(month.total) * 240, 121_000_000) as i64,
        places: 0,
    }
}
