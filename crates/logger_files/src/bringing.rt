//! A logger's file becomes requests and a list of the rows that are not among them.

ghost use Rattle.std.specs.Prelude.{◌≡◌, ◌⊎◌, ◌+◌, [], ◌++◌, pos, ◌<ℤ◌, None, IfOk, IfErr, OnOk};
ghost use Rattle.rating_tables.specs.Lines.{lines_of};
ghost use Rattle.logger_files.specs.Bringing as bringing;
ghost use Rattle.logger_files.specs.Bringing.{AreFound, IsBrought, IsUnread, with_taken, with_told};
ghost use Rattle.logger_files.specs.Lines.{rows_from};
ghost use Rattle.logger_files.specs.Requests.{requests_text};
ghost use Rattle.logger_files.specs.Rows.{last_after, outcomes};

use crate::fields::find_column;
use crate::lines::{behind_lines, cut_line, without_mark};
use crate::profiles::Profile;
use crate::reasons::{FileFault, Reason, tell_line};
use crate::requests::write_requests;
use crate::rows::{Columns, judge_row};
use fixed_units::{NoMemory, Reading, Second, Text};
use std::alloc::Global;

/// What is made of a logger's file.
#[derive(Drop)]
pub struct Brought {
    /// The requests that put the readings of the rows that are taken, in order.
    pub requests: Text,
    /// A line for each row that is not taken, in order: its number, and why.
    pub left: Text,
}

/// Makes requests of the rows of a logger's file that state readings, and lines of all others. Each row, which is a line that is not empty
/// behind that of the names, is in exactly one of the two, in order; and equal files by one profile make equal requests.
///
/// # Errors
///
/// Where there is no line of names behind those that are skipped, where it lacks one of the two columns, and want of memory.
pub fn bring(alloc: Global, profile: &Profile<'_>, text: &[u8]) -> Result<Brought, FileFault>
    requires { pos 0 <ℤ profile.now.unit.divisor }
    ensures brought { IfOk result (IsBrought profile.now text.now) }
    ensures unread { IfErr result (λ fault. (fault ≡ FileFault.NoMemory) ⊎ IsUnread profile.now text.now fault) }
{
    let lines = behind_lines(without_mark(text), profile.skip);
    if lines.is_empty() {
        return Err(FileFault::NoNames);
    }
    let (names, rows) = cut_line(lines);
    let columns = find_columns(profile, names)?;
    let found = judge_rows(alloc, profile, columns, rows)?;
    make_requests(alloc, profile, found)
}

/// The places of the columns of times and of values.
fn find_columns(profile: &Profile<'_>, names: &[u8]) -> Result<Columns, FileFault>
    ensures { result ≡ bringing.columns_of profile.now names.now }
{
    let time = find_column(profile.separator, names, profile.time);
    let value = find_column(profile.separator, names, profile.value);
    Ok(Columns {
        time: time.ok_or(FileFault::NoTimes)?,
        value: value.ok_or(FileFault::NoValues)?,
    })
}

/// What is made of rows that were judged.
fn make_requests(alloc: Global, profile: &Profile<'_>, found: Found) -> Result<Brought, FileFault>
    ensures made { IfOk result (λ brought. (brought.requests ≡ requests_text profile.now.by profile.now.site found.readings.items) × (brought.left ≡ found.left)) }
    ensures err { IfErr result (λ fault. fault ≡ FileFault.NoMemory) }
{
    let requests = write_requests(alloc, &profile.by, profile.site, found.readings.as_slice())?;
    Ok(Brought {
        requests,
        left: found.left,
    })
}

/// Judges the rows of a text behind the names.
fn judge_rows(
    alloc: Global,
    profile: &Profile<'_>,
    columns: Columns,
    text: &[u8],
) -> Result<Found, NoMemory>
    requires { pos 0 <ℤ profile.now.unit.divisor }
    ensures { IfOk result (λ found. AreFound (outcomes profile.now columns None (rows_from (profile.now.skip + 1) (lines_of text.now))) found.readings.items found.left) }
{
    let mut found = Found {
        readings: Vec::new(alloc),
        left: Text::new(alloc),
    };
    let mut before = None;
    let mut rest = text;
    let mut number = u64::from(profile.skip) + 1;
    while !rest.is_empty() {
        let (line, behind) = cut_line(rest);
        rest = behind;
        number += 1;
        if line.is_empty() {
            continue;
        }
        let outcome = judge_row(profile, columns, before, line);
        found.add(number, outcome, &mut before)?;
    }
    Ok(found)
}

/// What was found in rows: the readings that are taken, and the lines that tell of others.
#[derive(Drop)]
struct Found {
    readings: Vec<Reading>,
    left: Text,
}

impl Found {
    /// Adds what the row of a line states, and keeps the instant of the reading that was taken last.
    fn add(
        &mut self,
        number: u64,
        outcome: Result<Reading, Reason>,
        before: &mut Option<Second>,
    ) -> Result<(), NoMemory>
        ensures readings { OnOk result (self.new.readings.items ≡ self.old.readings.items ++ with_taken outcome []) }
        ensures left { OnOk result (self.new.left ≡ self.old.left ++ with_told number outcome []) }
        ensures before { OnOk result (before.new ≡ last_after before.old outcome) }
    {
        match outcome {
            Ok(reading) => {
                *before = Some(reading.at);
                Ok(self.readings.push(reading)?)
            }
            Err(reason) => tell_line(number, reason, &mut self.left),
        }
    }
}
