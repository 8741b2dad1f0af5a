//! The text of daily values.

ghost use Rattle.std.specs.Prelude.{◌≡◌, ◌++◌, codes, decimal, flat_map, length, take, OnOk, OnErr};
ghost use Rattle.civil_days.specs.Texts.{day_text};
ghost use Rattle.site_texts.specs.SiteText.{site_text};
ghost use Rattle.water_year.specs.DailyText.{code_text, daily_text, discharge_text, row_text, state_code};

use crate::rows::{DailyRow, RowState};
use civil_days::write_day;
use fixed_units::{Day, NoMemory, Site, Text, write_published};
use site_texts::write_site;

/// What stands before the rows.
const HEAD: &[u8] =
    b"# daily values\nagency_cd\tsite_no\tdatetime\tdischarge\tdischarge_cd\n5s\t15s\t20d\t14n\t10s\n";

/// Adds the text of the daily values of a site: a line of names, one of formats, and a row for each day, whose fields stand between tabs.
/// The code of a day is `PEND:` and the edit that it awaits, or else `A` where it is approved and `P` where it is provisional, with `:e`
/// behind it where the discharge is an estimate. After `NoMemory` the text is as before.
pub fn write_daily(rows: &[DailyRow], site: Site, out: &mut Text) -> Result<(), NoMemory>
    ensures ok { OnOk result (out.new ≡ out.old ++ daily_text site rows.now) }
    ensures err { OnErr result (out.new ≡ out.old) }
{
    let before = out.len();
    let written = write_rows(rows, site, out);
    if written.is_err() {
        out.truncate(before);
    }
    written
}

/// Adds the text, of which a part may be added where memory runs out.
fn write_rows(rows: &[DailyRow], site: Site, out: &mut Text) -> Result<(), NoMemory>
    ensures ok { OnOk result (out.new ≡ out.old ++ daily_text site rows.now) }
    ensures err { OnErr result (take (length out.old) out.new ≡ out.old) }
{
    out.push_slice(HEAD)?;
    for row in rows {
        write_row(row, site, out)?;
    }
    Ok(())
}

/// Adds the row of a day, of which a part may be added where memory runs out.
fn write_row(row: &DailyRow, site: Site, out: &mut Text) -> Result<(), NoMemory>
    ensures ok { OnOk result (out.new ≡ out.old ++ row_text site row.now) }
    ensures err { OnErr result (take (length out.old) out.new ≡ out.old) }
{
    write_front(row.day, site, out)?;
    write_back(row, out)
}

/// Adds the fields that say whose day it is, each with a tab behind it, of which a part may be added where memory runs out.
fn write_front(day: Day, site: Site, out: &mut Text) -> Result<(), NoMemory>
    ensures ok { OnOk result (out.new ≡ out.old ++ (codes "LOCAL\t" ++ site_text site ++ codes "\t" ++ day_text day ++ codes "\t")) }
    ensures err { OnErr result (take (length out.old) out.new ≡ out.old) }
{
    out.push_slice(b"LOCAL\t")?;
    write_site(site, out)?;
    out.push(b'\t')?;
    write_day(day, out)?;
    out.push(b'\t')
}

/// Adds the fields behind these, of which a part may be added where memory runs out.
fn write_back(row: &DailyRow, out: &mut Text) -> Result<(), NoMemory>
    ensures ok { OnOk result (out.new ≡ out.old ++ (discharge_text row.now.state ++ codes "\t" ++ code_text row.now.state row.now.approved row.now.estimated ++ codes "\n")) }
    ensures err { OnErr result (take (length out.old) out.new ≡ out.old) }
{
    write_discharge(row.state, out)?;
    out.push(b'\t')?;
    write_code(row, out)?;
    out.push(b'\n')
}

/// Adds the published discharge, where there is one.
fn write_discharge(state: RowState, out: &mut Text) -> Result<(), NoMemory>
    ensures ok { OnOk result (out.new ≡ out.old ++ discharge_text state) }
    ensures err { OnErr result (out.new ≡ out.old) }
{
    match state {
        RowState::Value(value) => write_published(value, out),
        RowState::Pending(_) | RowState::Absent => Ok(()),
    }
}

/// Adds the code of a day, of which a part may be added where memory runs out.
fn write_code(row: &DailyRow, out: &mut Text) -> Result<(), NoMemory>
    ensures ok { OnOk result (out.new ≡ out.old ++ code_text row.now.state row.now.approved row.now.estimated) }
    ensures err { OnErr result (take (length out.old) out.new ≡ out.old) }
{
    match row.state {
        RowState::Pending(edit) => {
            out.push_slice(b"PEND:")?;
            out.push_number(edit)
        }
        RowState::Value(_) | RowState::Absent => out.push_slice(state_code(
            row.approved,
            row.estimated,
        )),
    }
}

/// The code of a day that awaits nothing.
fn state_code(approved: bool, estimated: bool) -> &'static [u8]
    ensures { result.now ≡ state_code approved estimated }
{
    match (approved, estimated) {
        (true, true) => b"A:e",
        (true, false) => b"A",
        (false, true) => b"P:e",
        (false, false) => b"P",
    }
}
