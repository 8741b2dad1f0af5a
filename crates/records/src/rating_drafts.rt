//! The rows of a rating in a payload that was read, each sixteen bytes: their ranges and their order, and the rating that they
//! make. They are tested where they stand, and only those of a rating take memory.

ghost use Rattle.std.specs.Prelude.{◌≡◌, ◌↔◌, true, ◌&&◌, int_lt, int_le, IfOk, ◌≤◌, All};
ghost use Rattle.edits.specs.declared.content.What.TheVariants.{AddRating};
ghost use Rattle.rating_tables.specs.declared.table.TheConstants.{LEAST_ROWS, MOST_ROWS};
ghost use Rattle.rating_tables.specs.Table.{IsInOrder, IsRating, IsRatingRow};
ghost use Rattle.records.specs.Parsing.{row_in, rows_in};

use edits::What;
use fixed_units::{Micro, NoMemory, is_discharge, is_stage};
use rating_tables::{LEAST_ROWS, MOST_ROWS, SharedTable, Table};
use std::alloc::Global;

/// Whether these are the rows of a rating.
pub(crate) fn are_rating_rows(rows: &[[u8; 16]]) -> bool
    ensures { result ≡ true ↔ IsRating (rows_in rows.now) }
{
    is_count(rows.len()) && are_in_range(rows) && are_in_order(rows)
}

/// Whether a table may have so many rows.
fn is_count(count: usize) -> bool
    ensures { result ≡ true ↔ (LEAST_ROWS ≤ count) × (count ≤ MOST_ROWS) }
{
    (LEAST_ROWS..=MOST_ROWS).contains(&count)
}

/// Whether each row has a stage and a discharge in range.
fn are_in_range(rows: &[[u8; 16]]) -> bool
    ensures { result ≡ true ↔ All (λ row. IsRatingRow (row_in row)) rows.now }
{
    rows.iter().all(is_in_range)
}

/// Whether the row has a stage and a discharge in range.
fn is_in_range(row: &[u8; 16]) -> bool
    ensures { result ≡ true ↔ IsRatingRow (row_in row.now) }
{
    let (stage, discharge) = quantities(row);
    is_stage(stage) && is_discharge(discharge)
}

/// Whether the stages strictly rise and the discharges never fall.
fn are_in_order(rows: &[[u8; 16]]) -> bool
    ensures { result ≡ true ↔ IsInOrder (rows_in rows.now) }
{
    rows.is_sorted_by(is_behind)
}

/// Whether the stage rises from a row to the next, and the discharge does not fall.
fn is_behind(row: &[u8; 16], next: &[u8; 16]) -> bool
    ensures { result ≡ (int_lt (row_in row.now).0 (row_in next.now).0 && int_le (row_in row.now).1 (row_in next.now).1) }
{
    let (stage, discharge) = quantities(row);
    let (next_stage, next_discharge) = quantities(next);
    stage < next_stage && discharge <= next_discharge
}

/// The stage and the discharge of a row in millionths, whatever their ranges.
#[tactic(auto, unfolding(crate::specs::Parsing::row_in))]
fn quantities(row: &[u8; 16]) -> (i64, i64)
    ensures { result ≡ row_in row.now }
{
    let (numbers, _) = row.as_chunks::<8>();
    (
        i64::from_le_bytes(numbers[0]),
        i64::from_le_bytes(numbers[1]),
    )
}

/// The rating of a number and these rows.
pub(crate) fn rating_from(alloc: Global, number: u32, rows: &[[u8; 16]]) -> Result<What, NoMemory>
    requires { IsRating (rows_in rows.now) }
    ensures { IfOk result (λ what. what ≡ AddRating number (rows_in rows.now)) }
{
    Ok(What::AddRating {
        rating: number,
        table: table_from(alloc, rows)?,
    })
}

/// The table of these rows.
fn table_from(alloc: Global, rows: &[[u8; 16]]) -> Result<SharedTable, NoMemory>
    requires { IsRating (rows_in rows.now) }
    ensures { IfOk result (λ table. table ≡ rows_in rows.now) }
{
    let mut kept = Vec::with_capacity(alloc, rows.len())?;
    for row in rows {
        kept.push(row_from(row))?;
    }
    match Table::from_vec(kept) {
        Ok(table) => SharedTable::new(alloc, table),
        Err(_) => unreachable!(),
    }
}

/// The stage and the discharge of a row.
fn row_from(row: &[u8; 16]) -> (Micro, Micro)
    requires { IsRatingRow (row_in row.now) }
    ensures { result ≡ row_in row.now }
{
    let (stage, discharge) = quantities(row);
    (Micro::of_millionths(stage), Micro::of_millionths(discharge))
}
