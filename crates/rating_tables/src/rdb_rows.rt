//! A row of an RDB text: its columns, its numbers and its place behind the row before it.

ghost use Rattle.std.specs.Prelude.{◌≡◌, ◌+◌, ◌<◌, ◌≤◌, length, Some, pos, neg_ℤ, ◌^◌, option_map, reverse};
ghost use Rattle.std.specs.Result.{result_ok};
ghost use Rattle.fixed_units.specs.Decimals.{decimal_of};
ghost use Rattle.rating_tables.specs.Lines.{IsKept};
ghost use Rattle.rating_tables.specs.Rdb.{columns_of, fields, field_in, trimmed, skip_spaces, stage_in, discharge_in, shift_in, shift_text, row_from, row_of, behind, next_row};

use crate::rdb::RdbFault;
use crate::rdb_fields::{find_column, find_field};
use crate::rdb_lines::Line;
use fixed_units::{Micro, is_amount, is_discharge, is_stage, read_decimal};

/// Where the columns stand that are read.
#[derive(Clone, Copy, Debug)]
pub(crate) struct Columns {
    /// The column INDEP, a stage in feet.
    pub stage: usize,
    /// The column DEP, a discharge in cubic feet per second.
    pub discharge: usize,
    /// The column SHIFT, if there is one.
    pub shift: Option<usize>,
}

/// The places of the columns in the line of their names, if the two that are needed are there.
pub(crate) fn find_columns(names: &[u8]) -> Option<Columns>
    requires { IsKept names.now }
    ensures { result ≡ columns_of (fields names.now) }
{
    let stage = find_column(names, b"INDEP")?;
    let discharge = find_column(names, b"DEP")?;
    Some(Columns {
        stage,
        discharge,
        shift: find_column(names, b"SHIFT"),
    })
}

/// The row of a line, behind the row before it.
pub(crate) fn read_row(
    columns: Columns,
    before: Option<(Micro, Micro)>,
    line: &Line<'_>,
) -> Result<(Micro, Micro), RdbFault>
    requires { IsKept line.now.bytes.now }
    ensures { result ≡ next_row columns before (line.now.number, line.now.bytes.now) }
{
    let row = read_numbers(columns, line)?;
    put_behind(line.number, before, row)
}

/// The row of a line.
fn read_numbers(columns: Columns, line: &Line<'_>) -> Result<(Micro, Micro), RdbFault>
    requires { IsKept line.now.bytes.now }
    ensures { result ≡ row_of columns line.now.number (fields line.now.bytes.now) }
{
    let stage = read_stage(find_field(line.bytes, columns.stage));
    let discharge = read_discharge(find_field(line.bytes, columns.discharge));
    let shift = read_shift(find_field_in(line.bytes, columns.shift));
    make_row(line.number, stage, discharge, shift)
}

/// The field of a line at a place, if there is such a place and a field there.
fn find_field_in(line: &[u8], place: Option<usize>) -> Option<&[u8]>
    requires { IsKept line.now }
    ensures { option_map (λ s. s.now) result ≡ field_in place (fields line.now) }
{
    find_field(line, place?)
}

/// A row of three numbers, of which the shift has to be 0.
fn make_row(
    number: u64,
    stage: Option<Micro>,
    discharge: Option<Micro>,
    shift: Option<Micro>,
) -> Result<(Micro, Micro), RdbFault>
    ensures { result ≡ row_from number stage discharge shift }
{
    let (Some(stage), Some(discharge), Some(shift)) = (stage, discharge, shift) else {
        return Err(RdbFault::Number(number));
    };
    if shift.get() == 0 {
        Ok((stage, discharge))
    } else {
        Err(RdbFault::Shift(number))
    }
}

/// A row behind another one, above which its stage has to rise and below which its discharge may not fall.
fn put_behind(
    number: u64,
    before: Option<(Micro, Micro)>,
    row: (Micro, Micro),
) -> Result<(Micro, Micro), RdbFault>
    ensures { result ≡ behind number before row }
{
    match before {
        Some(before) => {
            if before.0 < row.0 && before.1 <= row.1 {
                Ok(row)
            } else {
                Err(RdbFault::Order(number))
            }
        }
        None => Ok(row),
    }
}

/// The stage of a field, if it has one.
fn read_stage(field: Option<&[u8]>) -> Option<Micro>
    ensures { result ≡ stage_in (option_map (λ s. s.now) field.entry) }
{
    let stage = read_quantity(trim_spaces(field?))?;
    is_stage(stage.get()).then_some(stage)
}

/// The discharge of a field, if it has one.
fn read_discharge(field: Option<&[u8]>) -> Option<Micro>
    ensures { result ≡ discharge_in (option_map (λ s. s.now) field.entry) }
{
    let discharge = read_quantity(trim_spaces(field?))?;
    is_discharge(discharge.get()).then_some(discharge)
}

/// The shift of a field, if it has one: 0 where it is empty, or where there is no field.
fn read_shift(field: Option<&[u8]>) -> Option<Micro>
    ensures { result ≡ shift_in (option_map (λ s. s.now) field.entry) }
{
    match field {
        Some(field) => read_shift_text(trim_spaces(field)),
        None => Micro::new(0),
    }
}

/// The shift of a text, 0 where it is empty.
fn read_shift_text(text: &[u8]) -> Option<Micro>
    ensures { result ≡ shift_text text.now }
{
    if text.is_empty() {
        return Micro::new(0);
    }
    let shift = read_quantity(text)?;
    is_amount(shift.get()).then_some(shift)
}

/// The quantity that a text states, if it states one.
fn read_quantity(text: &[u8]) -> Option<Micro>
    ensures { result ≡ result_ok (decimal_of text.now) }
{
    read_decimal(text).ok()
}

/// A field without the spaces at both its ends.
fn trim_spaces(field: &[u8]) -> &[u8]
    ensures { result.now ≡ trimmed field.now }
{
    without_trailing(without_leading(field))
}

/// A field without the spaces at its start.
fn without_leading(field: &[u8]) -> &[u8]
    ensures { result.now ≡ skip_spaces field.now }
{
    let mut rest = field;
    while let [b' ', behind @ ..] = rest {
        rest = behind;
    }
    rest
}

/// A field without the spaces at its end.
fn without_trailing(field: &[u8]) -> &[u8]
    ensures { result.now ≡ reverse (skip_spaces (reverse field.now)) }
{
    let mut rest = field;
    while let [front @ .., b' '] = rest {
        rest = front;
    }
    rest
}
