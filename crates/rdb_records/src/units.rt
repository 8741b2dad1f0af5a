//! The readings that an RDB text of unit values states.

ghost use Rattle.std.specs.Prelude.{◌≡◌, ◌⊎◌, ◌+◌, ◌<◌, ◌^◌, [], ◌∷◌, ◌++◌, length, All, IfOk, IfErr, OnOk};
ghost use Rattle.rating_tables.specs.Lines.{kept_lines};
ghost use Rattle.readings.specs.Readings.{IsRising};
ghost use Rattle.rdb_records.specs.Units.{AreRead, HasFirstFault, IsRefused, IsStated, IsUnitReading, with_reading, with_skipped};

use crate::faults::UnitFault;
use crate::lines::{next_line, without_mark};
use crate::rows::{Columns, find_columns, read_row};
use fixed_units::{Flag, Micro, Reading, Second, Site};
use readings::ReadingList;
use site_texts::site_digits;
use std::alloc::Global;

/// The unit values of a text.
#[derive(Drop)]
pub struct UnitList {
    /// The readings, rising by instant, all of flag ok.
    pub readings: ReadingList,
    /// How many rows have a value that is no decimal of at most six places and at most 10,000,000 either way, and are skipped.
    pub skipped: u64,
}

/// The unit values of a site that an RDB text states in the named column.
///
/// The columns `site_no`, `datetime` and `tz_cd` have the site's number, a local date and time `YYYY-MM-DD HH:MM`, and
/// the zone that tells it, as the USGS gives them; the instant is the local time less the zone's offset. A value that is
/// no decimal of at most six places and at most 10,000,000 either way, or that its row does not reach, is skipped and counted. The text is read once and
/// not copied.
///
/// # Errors
///
/// The first fault with lines taken in order, and at one line in the order of [`UnitFault`]'s variants. A skipped row
/// is tested like the others, but for its value. `NoMemory` where a reading found no room.
pub fn read_units(
    alloc: Global,
    text: &[u8],
    site: Site,
    column: &[u8],
) -> Result<UnitList, UnitFault>
    ensures ok { IfOk result (λ list. IsStated site column.now text.now list) }
    ensures rising { IfOk result (λ list. IsRising list.readings) }
    ensures each { IfOk result (λ list. All IsUnitReading list.readings) }
    ensures err { IfErr result (λ fault. (fault ≡ UnitFault.NoMemory) ⊎ IsRefused site column.now text.now fault) }
{
    let text = without_mark(text);
    let Some(names) = next_line(text, 0) else {
        return Err(UnitFault::NoNames);
    };
    let Some(formats) = next_line(names.behind, names.number) else {
        return Err(UnitFault::NoNames);
    };
    let Some(columns) = find_columns(names.bytes, column) else {
        return Err(UnitFault::NoColumn(names.number));
    };
    let site = site_digits(site);
    read_rows(
        alloc,
        site.as_slice(),
        columns,
        formats.behind,
        formats.number,
    )
}

/// The unit values of the lines of a text behind so many lines.
fn read_rows(
    alloc: Global,
    site: &[u8],
    columns: Columns,
    text: &[u8],
    passed: u64,
) -> Result<UnitList, UnitFault>
    requires { passed + length text.now < 2 ^ 64 }
    ensures ok { IfOk result (AreRead site.now columns (kept_lines passed text.now)) }
    ensures err { IfErr result (λ fault. (fault ≡ UnitFault.NoMemory) ⊎ HasFirstFault site.now columns (kept_lines passed text.now) fault) }
{
    let mut found = Found {
        readings: Vec::new(alloc),
        skipped: 0,
    };
    let mut before = None;
    let mut rest = text;
    let mut number = passed;
    while let Some(line) = next_line(rest, number) {
        let row = read_row(site, columns, before, &line)?;
        found.add(row.at, row.stage)?;
        before = Some(row.at);
        rest = line.behind;
        number = line.number;
    }
    Ok(found.into_list())
}

/// What was found in rows: the readings, and how many rows were skipped.
#[derive(Drop)]
struct Found {
    readings: Vec<Reading>,
    skipped: u64,
}

impl Found {
    /// Adds the reading of a row, or counts the row where it has no stage.
    fn add(&mut self, at: Second, stage: Option<Micro>) -> Result<(), UnitFault>
        requires { self.old.skipped + 1 < 2 ^ 64 }
        ensures readings { OnOk result (self.new.readings.items ≡ self.old.readings.items ++ with_reading at stage []) }
        ensures skipped { OnOk result (self.new.skipped ≡ self.old.skipped + with_skipped stage 0) }
        ensures err { IfErr result (λ fault. fault ≡ UnitFault.NoMemory) }
    {
        let Some(raw) = stage else {
            self.skipped += 1;
            return Ok(());
        };
        self.put(Reading {
            at,
            raw,
            flag: Flag::Usable,
        })
    }

    /// Puts a reading behind the others.
    fn put(&mut self, reading: Reading) -> Result<(), UnitFault>
        ensures readings { OnOk result (self.new.readings.items ≡ self.old.readings.items ++ reading ∷ []) }
        ensures skipped { self.new.skipped ≡ self.old.skipped }
        ensures err { IfErr result (λ fault. fault ≡ UnitFault.NoMemory) }
    {
        if self.readings.push(reading).is_ok() {
            Ok(())
        } else {
            Err(UnitFault::NoMemory)
        }
    }

    /// What was found, as it is handed on.
    fn into_list(self) -> UnitList
        ensures readings { result.readings ≡ self.readings.items }
        ensures skipped { result.skipped ≡ self.skipped }
    {
        UnitList {
            readings: ReadingList::from_vec(self.readings),
            skipped: self.skipped,
        }
    }
}
