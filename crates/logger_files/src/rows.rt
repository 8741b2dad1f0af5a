//! What a row of a logger's file states: a reading, or why none is taken of it.

ghost use Rattle.std.specs.Prelude.{◌≡◌, Ok, option_map, pos, ◌<ℤ◌};
ghost use Rattle.csv.specs.Records.{field_at};
ghost use Rattle.fixed_units.specs.Decimals.{decimal_of};
ghost use Rattle.logger_files.specs.Fields.{fields};
ghost use Rattle.logger_files.specs.Rows as rows;
ghost use Rattle.logger_files.specs.Rows.{outcome_of, reading_from, stage_from, stage_in, time_in};

use crate::fields::{find_field, is_listed};
use crate::profiles::Profile;
use crate::reasons::Reason;
use crate::times::read_stamp;
use crate::values::{Unit, stage_of};
use fixed_units::{Bad, Flag, Micro, Reading, Second, read_decimal};

/// Where the two columns stand that are read.
#[derive(Clone, Copy, Debug)]
pub struct Columns {
    /// The column of the times.
    pub time: usize,
    /// The column of the values.
    pub value: usize,
}

/// What a line states behind the reading that was taken before it.
pub(crate) fn judge_row(
    profile: &Profile<'_>,
    columns: Columns,
    before: Option<Second>,
    line: &[u8],
) -> Result<Reading, Reason>
    requires { pos 0 <ℤ profile.now.unit.divisor }
    ensures { result ≡ outcome_of profile.now columns before line.now }
{
    let reading = read_row(profile, columns, line)?;
    put_after(before, reading)
}

/// The reading of a line.
fn read_row(profile: &Profile<'_>, columns: Columns, line: &[u8]) -> Result<Reading, Reason>
    requires { pos 0 <ℤ profile.now.unit.divisor }
    ensures { result ≡ reading_from (time_in profile.now (field_at (fields profile.now.separator line.now) columns.time)) (stage_in profile.now (field_at (fields profile.now.separator line.now) columns.value)) }
{
    let at = read_time(profile, find_field(profile.separator, line, columns.time))?;
    let raw = read_stage(profile, find_field(profile.separator, line, columns.value))?;
    Ok(Reading {
        at,
        raw,
        flag: Flag::Usable,
    })
}

/// The instant in a field.
fn read_time(profile: &Profile<'_>, field: Option<&[u8]>) -> Result<Second, Reason>
    ensures { result ≡ time_in profile.now (option_map (λ s. s.now) field.entry) }
{
    match field {
        Some(field) => read_stamp(profile.date, profile.clock, field).ok_or(Reason::Time),
        None => Err(Reason::NoTime),
    }
}

/// The stage in a field.
fn read_stage(profile: &Profile<'_>, field: Option<&[u8]>) -> Result<Micro, Reason>
    requires { pos 0 <ℤ profile.now.unit.divisor }
    ensures { result ≡ stage_in profile.now (option_map (λ s. s.now) field.entry) }
{
    let Some(field) = field else {
        return Err(Reason::NoField);
    };
    if is_listed(profile.separator, profile.none, field) {
        return Err(Reason::NoValue);
    }
    read_number(profile.unit, field)
}

/// The stage that a text states.
fn read_number(unit: Unit, text: &[u8]) -> Result<Micro, Reason>
    requires { pos 0 <ℤ unit.divisor }
    ensures { result ≡ stage_from unit (decimal_of text.now) }
{
    match read_decimal(text) {
        Ok(number) => stage_of(unit, number).ok_or(Reason::Range),
        Err(fault) => Err(reason_of(fault)),
    }
}

/// The reason for which a text is no quantity.
fn reason_of(fault: Bad) -> Reason
    ensures { result ≡ rows.reason_of fault }
{
    match fault {
        Bad::NotANumber => Reason::NoNumber,
        Bad::TooManyDecimals => Reason::Decimals,
        Bad::OutOfRange => Reason::Range,
    }
}

/// A reading that is after the one that was taken before it.
fn put_after(before: Option<Second>, reading: Reading) -> Result<Reading, Reason>
    ensures { result ≡ rows.put_after before (Ok reading) }
{
    match before {
        Some(before) if reading.at <= before => Err(Reason::Order),
        _ => Ok(reading),
    }
}
