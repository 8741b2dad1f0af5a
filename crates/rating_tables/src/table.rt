//! A rating table, read by straight lines both ways.

ghost use Rattle.std.specs.Prelude.{◌≡◌, ◌↔◌, true, ◌+◌, ◌<◌, ◌≤◌, take, drop, length, slice_index, None, Some, unwrap_or, IfOk, IfErr, IfSome, ◌<ℤ◌, ◌≤ℤ◌, AllPairs};
ghost use Rattle.fixed_units.specs.Lines.{line_at};
ghost use Rattle.rating_tables.specs.RatedDischarge.{IsRated, IsStageOf};
ghost use Rattle.rating_tables.specs.declared.table.Rated.TheVariants.{Value};
ghost use Rattle.rating_tables.specs.Table as tables;
ghost use Rattle.rating_tables.specs.Table.{IsRating, IsRatingRow, IsTable, rows_upto, rows_above, rows_short, rows_reaching, fault_behind, order_fault, table_fault};

use fixed_units::points::{count_to, line_between};
use fixed_units::{Micro, is_discharge, is_stage};
use std::alloc::{AllocError, Global};
use std::marker::Model;
use thiserror::Error;

/// The least number of rows of a table.
pub const LEAST_ROWS: usize = 2;

/// The greatest number of rows of a table.
pub const MOST_ROWS: usize = 10_000;

/// How many bits stand behind the point of a number of rows for a millionth of a foot: so many that the greatest number of rows before
/// them still fits in 64 bits.
const FRACTION_BITS: u32 = 48;

/// Why rows are no table.
#[derive(Clone, Copy, Debug, PartialEq, Eq, Error)]
pub enum TableFault {
    /// There are fewer than 2 rows, or more than 10,000.
    #[error("there are not 2 to 10,000 rows")]
    Count,
    /// The stage of that row, counted from 0, is not above the one before.
    #[error("the stage of row {0}, counted from 0, is not above that of the row before")]
    NotRising(usize),
    /// The discharge of that row, counted from 0, is below the one before.
    #[error("the discharge of row {0}, counted from 0, is below that of the row before")]
    Falling(usize),
    /// There was no memory.
    #[error("there is no memory for the rows of a table")]
    NoMemory,
}

impl From<AllocError> for TableFault {
    ghost use Rattle.rating_tables.specs.declared.table.TableFault.TheVariants.{NoMemory};

    ghost from_gives = { λ e f. f ≡ NoMemory };

    fn from(_error: AllocError) -> TableFault {
        TableFault::NoMemory
    }
}

/// What a table says of a stage.
#[derive(Clone, Copy, Debug, PartialEq, Eq)]
pub enum Rated {
    /// The discharge, in millionths of a cubic foot per second.
    Value(Micro),
    /// The stage is below the first row's.
    Below,
    /// The stage is above the last row's.
    Above,
}

/// An expanded rating: 2 to 10,000 rows of a stage and a discharge, stages strictly rising and discharges never
/// falling. Contracts see the rows.
#[derive(Drop)]
pub struct Table {
    rows: Vec<(Micro, Micro)>,
    /// How many rows there would be for a millionth of a foot if all were as far apart, with `FRACTION_BITS` bits behind the point. It
    /// only says where the search for a stage begins.
    rows_per_millionth: u64,
}

impl Model for Table {
    ghost use Rattle.std.specs.Prelude.{List};
    ghost use Rattle.rating_tables.specs.Table.{Row, IsTable};

    ghost Value = { List Row };

    ghost view = { λ t. t.rows.items };

    ghost invariant = { λ t. IsTable t.rows.items };
}

impl Table {
    /// The table of these rows.
    ///
    /// # Errors
    ///
    /// `Count` outside 2 to 10,000 rows, otherwise the first row at fault. `NoMemory` only where no row is.
    pub fn new(alloc: Global, rows: &[(Micro, Micro)]) -> Result<Table, TableFault>
        ensures ok { IfOk result (λ table. (table ≡ rows.now) × (table_fault rows.now ≡ None)) }
        ensures err { IfErr result (λ fault. fault ≡ unwrap_or (table_fault rows.now) TableFault.NoMemory) }
    {
        if let Some(fault) = find_fault(rows) {
            return Err(fault);
        }
        Ok(Table::of_rows(Vec::from_slice(alloc, rows)?))
    }

    /// The table of these rows, which are not copied: it takes no memory.
    ///
    /// # Errors
    ///
    /// `Count` outside 2 to 10,000 rows, otherwise the first row at fault.
    pub fn from_vec(rows: Vec<(Micro, Micro)>) -> Result<Table, TableFault>
        ensures ok { IfOk result (λ table. (table ≡ rows.items) × (table_fault rows.items ≡ None)) }
        ensures err { IfErr result (λ fault. table_fault rows.items ≡ Some fault) }
    {
        match find_fault(rows.as_slice()) {
            Some(fault) => Err(fault),
            None => Ok(Table::of_rows(rows)),
        }
    }

    /// Whether each row has a stage and a discharge in range: at most 100,000 feet either way, and 0 to 10,000,000 cubic feet per second.
    pub fn is_rating(&self) -> bool
        ensures { result ≡ true ↔ IsRating self.now }
    {
        self.rows().iter().all(is_rating_row)
    }

    /// The table of rows that are one.
    pub(crate) fn of_rows(rows: Vec<(Micro, Micro)>) -> Table
        requires { IsTable rows.items }
        ensures { result ≡ rows.items }
    {
        let rows_per_millionth = even_rows_per_millionth(rows.as_slice());
        Table {
            rows,
            rows_per_millionth,
        }
    }

    /// The rows, in order.
    pub fn rows(&self) -> &[(Micro, Micro)]
        ensures rows { result.now ≡ self.now }
        ensures table { IsTable self.now }
    {
        self.rows.as_slice()
    }

    /// The rated discharge of a stage: on a row that row's discharge, between two rows the line's.
    pub fn rate(&self, stage: Micro) -> Rated
        ensures value { result ≡ tables.rated self.now stage }
        ensures cases { IsRated self.now stage result }
    {
        find_discharge(self.rows.as_slice(), self.rows_per_millionth, stage)
    }

    /// The stage of a discharge: that of the first row that has it, or the line's between two rows. `None` below the
    /// first row's discharge and above the last one's.
    pub fn stage_of(&self, discharge: Micro) -> Option<Micro>
        ensures value { result ≡ tables.stage_of self.now discharge }
        ensures cases { IsStageOf self.now discharge result }
    {
        find_stage(self.rows.as_slice(), discharge)
    }
}

/// Whether a row has a stage and a discharge in range.
pub fn is_rating_row(row: &(Micro, Micro)) -> bool
    ensures { result ≡ true ↔ IsRatingRow row.now }
{
    is_stage(row.0.get()) && is_discharge(row.1.get())
}

/// The rated discharge of a stage by the rows of a table. Most expanded ratings have a row at each step of some size, so the two rows are
/// looked at first between which the stage would lie then.
fn find_discharge(rows: &[(Micro, Micro)], rows_per_millionth: u64, stage: Micro) -> Rated
    requires { IsTable rows.now }
    ensures { result ≡ tables.rated rows.now stage }
{
    match discharge_behind(rows, even_place(rows, rows_per_millionth, stage), stage) {
        Some(discharge) => Rated::Value(discharge),
        None => search_discharge(rows, stage),
    }
}

/// How many rows there would be for a millionth of a foot: divided once, so that no rated stage needs a division to find its rows.
fn even_rows_per_millionth(rows: &[(Micro, Micro)]) -> u64
    requires { IsTable rows.now }
{
    let last = rows.len() - 1;
    let whole = rows[last].0.get() - rows[0].0.get();
    if whole <= 0 {
        return 0;
    }
    ((last as u64) << FRACTION_BITS) / whole as u64
}

/// Where the search for a stage begins. From the first row to the last of a rating with even steps it is the last row up to the stage or
/// the one before it; otherwise it is any place, which is tested.
#[inline(always)]
fn even_place(rows: &[(Micro, Micro)], rows_per_millionth: u64, stage: Micro) -> usize
    requires { IsTable rows.now }
{
    let gone = stage.get() - rows[0].0.get();
    if gone < 0 {
        return 0;
    }
    ((gone as u64).wrapping_mul(rows_per_millionth) >> FRACTION_BITS) as usize
}

/// The discharge of a stage by the row in a place and the one behind it, where it is on one of them or between them.
#[inline(always)]
fn discharge_behind(rows: &[(Micro, Micro)], place: usize, stage: Micro) -> Option<Micro>
    requires { IsTable rows.now }
    ensures { IfSome result (λ discharge. tables.rated rows.now stage ≡ Value discharge) }
{
    if rows.len() - 1 <= place {
        return None;
    }
    let row = rows[place];
    let next = rows[place + 1];
    if row.0 <= stage && stage <= next.0 {
        Some(line_between(row, next, stage))
    } else {
        None
    }
}

/// The rated discharge of a stage by a search among the rows of a table.
#[inline(never)]
fn search_discharge(rows: &[(Micro, Micro)], stage: Micro) -> Rated
    requires { IsTable rows.now }
    ensures { result ≡ tables.rated rows.now stage }
{
    let (reached, above) = rows.split_at(count_to(rows, stage));
    let Some(row) = reached.last() else {
        return Rated::Below;
    };
    if row.0 == stage {
        return Rated::Value(row.1);
    }
    match above.first() {
        Some(next) => Rated::Value(line_between(*row, *next, stage)),
        None => Rated::Above,
    }
}

/// The stage of a discharge by the rows of a table.
fn find_stage(rows: &[(Micro, Micro)], discharge: Micro) -> Option<Micro>
    requires { IsTable rows.now }
    ensures { result ≡ tables.stage_of rows.now discharge }
{
    let (short, reaching) = rows.split_at(count_short(rows, discharge));
    let next = reaching.first()?;
    if next.1 == discharge {
        return Some(next.0);
    }
    let row = short.last()?;
    Some(line_between(turned(*row), turned(*next), discharge))
}

/// How many rows have less than a discharge.
fn count_short(rows: &[(Micro, Micro)], discharge: Micro) -> usize
    requires { AllPairs (λ r s. r.1 ≤ℤ s.1) rows.now }
    ensures within { result ≤ length rows.now }
    ensures front { take result rows.now ≡ rows_short discharge rows.now }
    ensures back { drop result rows.now ≡ rows_reaching discharge rows.now }
{
    rows.partition_point(|row| row.1 < discharge)
}

/// A row the other way round.
fn turned(row: (Micro, Micro)) -> (Micro, Micro)
    ensures { result ≡ tables.turned row }
{
    (row.1, row.0)
}

/// The first fault of rows, if there is one.
fn find_fault(rows: &[(Micro, Micro)]) -> Option<TableFault>
    ensures { result ≡ table_fault rows.now }
{
    if is_off_count(rows.len()) {
        return Some(TableFault::Count);
    }
    find_order_fault(rows)
}

/// Whether a table may not have so many rows.
pub(crate) fn is_off_count(count: usize) -> bool
    ensures { result ≡ tables.is_off_count count }
{
    count < LEAST_ROWS || MOST_ROWS < count
}

/// The first row at fault against the one before it.
fn find_order_fault(rows: &[(Micro, Micro)]) -> Option<TableFault>
    ensures { result ≡ order_fault 0 rows.now }
{
    for i in 1..rows.len() {
        if let Some(fault) = find_fault_behind(i, rows[i - 1], rows[i]) {
            return Some(fault);
        }
    }
    None
}

/// What is wrong with the row at `i` behind another.
fn find_fault_behind(i: usize, row: (Micro, Micro), next: (Micro, Micro)) -> Option<TableFault>
    ensures { result ≡ fault_behind i row next }
{
    if next.0 <= row.0 {
        Some(TableFault::NotRising(i))
    } else if next.1 < row.1 {
        Some(TableFault::Falling(i))
    } else {
        None
    }
}
