//! Offices that are shared in tests, opened from journals in memory.

use devices::MemoryDisk;
use office::Office;
use office_inputs::Limits;
use shared_office::Shared;
use std::alloc::{AllocError, Global};

/// The record of a station's addition: 01646500, with its zone, gap tolerance and rounding arrays.
const STATION: &[u8] =
    b"7\0\0\0\x01\x02AB\x02a1\x08\xa4\x1f\x19\0\0\0\0\0\x07POTOMAC\x06-05:00\xd0\x02\0\099999999920222233332";

/// The record of its rating 1: 10 at 1.00, and 30 at 2.00.
const RATING: &[u8] =
    b"8\0\0\0\n\x02AB\x02a2\x08\xa4\x1f\x19\0\0\0\0\0\x01\0\0\0\x02\0\0\0@B\x0f\0\0\0\0\0\x80\x96\x98\0\0\0\0\0\x80\x84\x1e\0\0\0\0\0\x80\xc3\xc9\x01\0\0\0\0";

/// The record of that rating's period, from 2023-01-01 on.
const PERIOD: &[u8] =
    b"\x1d\0\0\0\x0b\x02AB\x02a3\x08\xa4\x1f\x19\0\0\0\0\0\x01\0\0\0\0\xcd\xb0c\0\0\0\0\0";

/// The record of three readings: 1.00 at 2024-01-05T05:00:00Z, 2.00 at 17:00:00Z, and 1.00 at 2024-01-06T05:00:00Z.
const READINGS: &[u8] =
    b"G\0\0\0\x03\x02AB\x02a4\x08\xa4\x1f\x19\0\0\0\0\0\x03\0\0\0\xd0\x8c\x97e\0\0\0\0@B\x0f\0\0\0\0\0\0\x905\x98e\0\0\0\0\x80\x84\x1e\0\0\0\0\0\0P\xde\x98e\0\0\0\0@B\x0f\0\0\0\0\0\0";

/// The journal of these records.
fn journal(alloc: Global, records: &[&[u8]]) -> Result<Vec<u8>, AllocError> {
    let mut bytes = b"STREAMOFFICE-J1\n".to_vec(alloc)?;
    for record in records {
        bytes.push(1)?;
        bytes.extend_from_slice(record)?;
    }
    bytes.push(0)?;
    Ok(bytes)
}

/// The office that goes on from the journal of these records, shared.
fn shared_office(alloc: Global, records: &[&[u8]]) -> Option<Shared<MemoryDisk>> {
    let disk = MemoryDisk::new(alloc, journal(alloc, records).ok()?, Vec::new(alloc)).ok()?;
    let Ok(office) = Office::open(alloc, disk, Limits::usual()) else {
        return None;
    };
    Shared::new(office).ok()
}

/// An office without an edit.
pub fn new_office(alloc: Global) -> Option<Shared<MemoryDisk>> {
    shared_office(alloc, &[])
}

/// An office of three edits, a station with a rating and its period: no day is pending.
pub fn rated_office(alloc: Global) -> Option<Shared<MemoryDisk>> {
    shared_office(alloc, &[STATION, RATING, PERIOD])
}

/// The same with three readings as its fourth edit: two days are pending.
pub fn pending_office(alloc: Global) -> Option<Shared<MemoryDisk>> {
    shared_office(alloc, &[STATION, RATING, PERIOD, READINGS])
}
