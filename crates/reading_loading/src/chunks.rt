//! The edits that put the readings of a list, 100,000 each and the last one the rest.

ghost use Rattle.std.specs.Prelude.{◌≡◌, ◌+◌, ◌*◌, ◌<◌, All, IfOk, length};
ghost use Rattle.std.specs.Fork.{slice_chunk};
ghost use Rattle.edits.specs.Lawful.{ArePutReadings, IsPutReading};
ghost use Rattle.readings.specs.Readings.{IsRising};
ghost use Rattle.reading_loading.specs.Puts.{IsPut, put_count};
ghost use Rattle.reading_loading.specs.declared.limits.TheConstants.{MOST_READINGS};

use crate::limits::MOST_READINGS;
use crate::orders::ReadingOrder;
use edits::{Edit, What};
use fixed_units::{NoMemory, Reading};
use readings::ReadingList;
use std::alloc::Global;

/// How many edits put so many readings.
pub(crate) fn count_puts(readings: &[Reading]) -> usize
    ensures { result ≡ put_count (length readings.now) }
{
    readings.len().div_ceil(MOST_READINGS)
}

/// The edit that puts the readings of the chunk in that place, counted from 0.
pub(crate) fn put_at(
    alloc: Global,
    order: &ReadingOrder<'_>,
    readings: &[Reading],
    place: usize,
) -> Result<Edit, NoMemory>
    requires within { place < put_count (length readings.now) }
    requires rising { IsRising readings.now }
    requires each { All IsPutReading readings.now }
    ensures { IfOk result (IsPut order.now (place + 1) (slice_chunk readings.now MOST_READINGS place)) }
{
    let readings = copied(alloc, chunk_at(readings, place))?;
    Ok(put_of(order, place as u64 + 1, readings))
}

/// The edit that puts these readings under the reference of that number.
fn put_of(order: &ReadingOrder<'_>, number: u64, readings: ReadingList) -> Edit
    requires few { number < 1_000_000_000 }
    requires lawful { ArePutReadings readings }
    ensures { IsPut order.now number readings result }
{
    Edit::of(
        order.by(),
        order.reference(number),
        order.site(),
        What::PutReadings { readings },
    )
}

/// The chunk of the readings in that place.
fn chunk_at(readings: &[Reading], place: usize) -> &[Reading]
    requires { place * MOST_READINGS < length readings.now }
    ensures { result.now ≡ slice_chunk readings.now MOST_READINGS place }
{
    let rest = &readings[place * MOST_READINGS..];
    &rest[..rest.len().min(MOST_READINGS)]
}

/// A copy of the readings.
fn copied(alloc: Global, readings: &[Reading]) -> Result<ReadingList, NoMemory>
    ensures { IfOk result (λ list. list ≡ readings.now) }
{
    Ok(ReadingList::from_vec(readings.to_vec(alloc)?))
}
