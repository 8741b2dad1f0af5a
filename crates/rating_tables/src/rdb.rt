//! Ratings in RDB: texts of tab separated rows under a line of names and a line of formats.

ghost use Rattle.std.specs.Prelude.{◌≡◌, ◌⊎◌, ◌+◌, ◌<◌, ◌^◌, false, if◌then◌else◌, [], ◌∷◌, ◌++◌, length, unwrap_or, None, Ok, Err, IfOk, IfErr};
ghost use Rattle.std.specs.Result.{result_err};
ghost use Rattle.rating_tables.specs.Lines.{kept_lines};
ghost use Rattle.rating_tables.specs.Rdb as rdb;
ghost use Rattle.rating_tables.specs.Rdb.{AreRead, rdb_of, rows_of};
ghost use Rattle.rating_tables.specs.Table.{IsInOrder, IsRating, is_off_count};

use crate::rdb_lines::{next_line, without_mark};
use crate::rdb_rows::{Columns, find_columns, read_row};
use crate::table::{MOST_ROWS, Table, is_off_count};
use fixed_units::Micro;
use std::alloc::Global;
use thiserror::Error;

/// Why a text is no rating in RDB. Lines are counted from 1, those that are passed over too.
#[derive(Clone, Copy, Debug, PartialEq, Eq, Error)]
pub enum RdbFault {
    /// There is no line of names, or no line of formats.
    #[error("there is no line of names, or no line of formats")]
    NoNames,
    /// The line of names lacks INDEP or DEP.
    #[error("the names in line {0} lack INDEP or DEP")]
    NoColumn(u64),
    /// The row of that line lacks a number, or has one out of range.
    #[error("the row in line {0} lacks a number, or has one out of range")]
    Number(u64),
    /// The row of that line has a shift.
    #[error("the row in line {0} has a shift")]
    Shift(u64),
    /// The stage of that line's row does not rise, or its discharge falls.
    #[error("the stage in line {0} does not rise, or its discharge falls")]
    Order(u64),
    /// There are fewer than 2 rows, or more than 10,000.
    #[error("there are not 2 to 10,000 rows")]
    Count,
    /// There was no memory.
    #[error("there is no memory for the rows of a table")]
    NoMemory,
}

impl RdbFault {
    /// The line of the fault; 0 where it is none of a line.
    pub fn line(&self) -> u64
        ensures { result ≡ rdb.line_of self.now }
    {
        match self {
            RdbFault::NoColumn(line)
            | RdbFault::Number(line)
            | RdbFault::Shift(line)
            | RdbFault::Order(line) => *line,
            RdbFault::NoNames | RdbFault::Count | RdbFault::NoMemory => 0,
        }
    }
}

/// The rating that an RDB text states.
///
/// # Errors
///
/// The first fault with lines taken in order, and at one line in the order of [`RdbFault`]'s variants; `Count` comes
/// after all rows. `NoMemory` only where the text has no fault.
pub fn read_rdb(alloc: Global, text: &[u8]) -> Result<Table, RdbFault>
    ensures ok { IfOk result (λ table. rdb_of text.now ≡ Ok table) }
    ensures rating { IfOk result IsRating }
    ensures err { IfErr result (λ fault. fault ≡ unwrap_or (result_err (rdb_of text.now)) RdbFault.NoMemory) }
{
    let text = without_mark(text);
    let Some(names) = next_line(text, 0) else {
        return Err(RdbFault::NoNames);
    };
    let Some(formats) = next_line(names.behind, names.number) else {
        return Err(RdbFault::NoNames);
    };
    let Some(columns) = find_columns(names.bytes) else {
        return Err(RdbFault::NoColumn(names.number));
    };
    let rows = read_rows(alloc, columns, formats.behind, formats.number)?;
    make_table(rows)
}

/// The rows of the lines of a text behind so many lines.
fn read_rows(alloc: Global, columns: Columns, text: &[u8], passed: u64) -> Result<Rows, RdbFault>
    requires { passed + length text.now < 2 ^ 64 }
    ensures ok { IfOk result (λ rows. AreRead (rows_of columns None (kept_lines passed text.now)) rows.kept.items rows.count) }
    ensures err { IfErr result (λ fault. rows_of columns None (kept_lines passed text.now) ≡ Err fault) }
{
    let mut rows = Rows {
        kept: Vec::new(alloc),
        count: 0,
    };
    let mut before = None;
    let mut rest = text;
    let mut number = passed;
    while let Some(line) = next_line(rest, number) {
        let row = read_row(columns, before, &line)?;
        rows.add(&row);
        before = Some(row);
        rest = line.behind;
        number = line.number;
    }
    Ok(rows)
}

/// Rows that were read: how many, and those that were kept, which are all of them where there was memory and they are
/// no more than a table may have.
#[derive(Drop)]
struct Rows {
    kept: Vec<(Micro, Micro)>,
    count: usize,
}

impl Rows {
    /// Adds a row, and keeps it if all before it were kept.
    fn add(&mut self, row: &(Micro, Micro))
        requires { self.old.count + 1 < 2 ^ 64 }
        ensures count { self.new.count ≡ self.old.count + 1 }
        ensures kept { ((length self.old.kept.items ≡ self.old.count) × (self.new.kept.items ≡ self.old.kept.items ++ row.now ∷ []))
            ⊎ (self.new.kept.items ≡ self.old.kept.items) }
    {
        if self.kept.len() == self.count && self.count < MOST_ROWS {
            // Want of memory is told after the last row, which may be at fault.
            let _added = self.kept.push(*row);
        }
        self.count += 1;
    }
}

/// The table of rows that are in order, if they are as many as a table may have and were all kept.
fn make_table(rows: Rows) -> Result<Table, RdbFault>
    requires { length rows.kept.items ≡ rows.count → IsInOrder rows.kept.items }
    ensures ok { IfOk result (λ table. (is_off_count rows.count ≡ false) × (length rows.kept.items ≡ rows.count) × (table ≡ rows.kept.items)) }
    ensures err { IfErr result (λ fault. fault ≡ (if is_off_count rows.count then RdbFault.Count else RdbFault.NoMemory)) }
{
    if is_off_count(rows.count) {
        Err(RdbFault::Count)
    } else if rows.kept.len() == rows.count {
        Ok(Table::of_rows(rows.kept))
    } else {
        Err(RdbFault::NoMemory)
    }
}
