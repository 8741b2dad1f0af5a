//! A record of measurement notes: its fields, and the vertical that they state.

ghost use Rattle.std.specs.Prelude.{◌≡◌, option_map};
ghost use Rattle.std.specs.Result.{result_ok};
ghost use Rattle.csv.specs.Records.{fields_of};
ghost use Rattle.fixed_units.specs.Decimals.{decimal_of};
ghost use Rattle.midsection.specs.Reading as reading;

use crate::faults::NotesFault;
use crate::verticals::Vertical;
use csv::ByteRecord;
use fixed_units::{Micro, read_decimal};

/// How many fields a record has.
const FIELDS: usize = 5;

/// Whether a record names the fields.
pub(crate) fn are_names(row: &ByteRecord) -> bool
    ensures { result ≡ reading.are_names (fields_of row.now) }
{
    row.len() == FIELDS
        && is_field(b"distance", row.get(0))
        && is_field(b"depth", row.get(1))
        && is_field(b"v2", row.get(2))
        && is_field(b"v6", row.get(3))
        && is_field(b"v8", row.get(4))
}

/// Whether there is a field that is this text.
fn is_field(text: &[u8], field: Option<&[u8]>) -> bool
    ensures { result ≡ reading.is_field text.now (option_map (λ s. s.now) field.entry) }
{
    match field {
        Some(field) => field == text,
        None => false,
    }
}

/// The vertical of a record of that number, behind one at a distance.
pub(crate) fn read_vertical(
    number: u64,
    before: Option<Micro>,
    row: &ByteRecord,
) -> Result<Vertical, NotesFault>
    ensures { result ≡ reading.next_vertical number before (fields_of row.now) }
{
    test(number, before, vertical_in(row))
}

/// The vertical of a record, where nothing is wrong with it.
fn test(
    number: u64,
    before: Option<Micro>,
    vertical: Option<Vertical>,
) -> Result<Vertical, NotesFault>
    ensures { result ≡ reading.tested number before vertical }
{
    let Some(vertical) = vertical else {
        return Err(NotesFault::Number(number));
    };
    if !vertical.is_in_range() {
        Err(NotesFault::Range(number))
    } else if !is_above(before, vertical.distance) {
        Err(NotesFault::Order(number))
    } else if vertical.velocity().is_none() {
        Err(NotesFault::Method(number))
    } else {
        Ok(vertical)
    }
}

/// Whether a distance is above the one before it.
fn is_above(before: Option<Micro>, distance: Micro) -> bool
    ensures { result ≡ reading.is_above before distance }
{
    match before {
        Some(before) => before < distance,
        None => true,
    }
}

/// The vertical that the fields of a record state, if each is what it has to be.
fn vertical_in(row: &ByteRecord) -> Option<Vertical>
    ensures { result ≡ reading.vertical_in (fields_of row.now) }
{
    if row.len() != FIELDS {
        return None;
    }
    Some(Vertical {
        distance: read_number(row.get(0))?,
        depth: read_number(row.get(1))?,
        v2: read_velocity(row.get(2))?,
        v6: read_velocity(row.get(3))?,
        v8: read_velocity(row.get(4))?,
    })
}

/// The number that a field states, if it states one.
fn read_number(field: Option<&[u8]>) -> Option<Micro>
    ensures { result ≡ reading.number_in (option_map (λ s. s.now) field.entry) }
{
    read_decimal(field?).ok()
}

/// The velocity of a field: none was measured where it is empty.
fn read_velocity(field: Option<&[u8]>) -> Option<Option<Micro>>
    ensures { result ≡ reading.velocity_in (option_map (λ s. s.now) field.entry) }
{
    let text = field?;
    if text.is_empty() {
        return Some(None);
    }
    Some(Some(read_decimal(text).ok()?))
}
