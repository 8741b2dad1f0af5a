//! Measurement notes as comma separated text.

ghost use Rattle.std.specs.Prelude.{◌≡◌, ◌≢◌, ◌⊎◌, ◌+◌, ◌<◌, ◌^◌, ◌++◌, ◌∷◌, [], Ok, Err, Some, IfOk, IfErr};
ghost use Rattle.csv.specs.Records.{fields_of};
ghost use Rattle.midsection.specs.Reading.{are_names, next_vertical, notes_of, records_of, verticals_in};
ghost use Rattle.midsection.specs.Steps.{AddsNames, AddsVertical, IsFresh};

use crate::faults::NotesFault;
use crate::notes::Notes;
use crate::records::{are_names, read_vertical};
use crate::verticals::Vertical;
use csv::{ByteRecord, Reader, ReaderBuilder};
use fixed_units::Micro;
use std::alloc::Global;

/// The measurement notes that a text states: comma separated records, of which the first is `distance,depth,v2,v6,v8` and each further one
/// a vertical. A velocity that was not measured is empty.
///
/// # Errors
///
/// The first fault with records taken in order, and at one record in the order of [`NotesFault`]'s variants; `Count` comes after all
/// records, and `Total` after `Count`. Want of memory may be told in place of any.
pub fn read_notes(alloc: Global, text: &[u8]) -> Result<Notes, NotesFault>
    ensures ok { IfOk result (λ notes. notes_of text.now ≡ Ok notes) }
    ensures err { IfErr result (λ fault. (fault ≡ NotesFault.NoMemory) ⊎ (notes_of text.now ≡ Err fault)) }
{
    let verticals = read_verticals(alloc, text)?;
    Notes::of_verticals(verticals)
}

/// The verticals of the records of a text.
fn read_verticals(alloc: Global, text: &[u8]) -> Result<Vec<Vertical>, NotesFault>
    ensures ok { IfOk result (λ verticals. verticals_in (records_of text.now) ≡ Ok verticals.items) }
    ensures err { IfErr result (λ fault. (fault ≡ NotesFault.NoMemory) ⊎ (verticals_in (records_of text.now) ≡ Err fault)) }
{
    let mut read = Verticals::new(alloc);
    for row in reader(alloc, text).into_byte_records() {
        read.add(&row?)?;
    }
    read.finish()
}

/// A reader of the records of a text, of any length each and without names.
fn reader(alloc: Global, text: &[u8]) -> Reader<&[u8]>
    ensures { IsFresh result text.now }
{
    ReaderBuilder::new()
        .has_headers(false)
        .flexible(true)
        .from_reader(alloc, text)
}

/// The verticals that were read so far.
#[derive(Drop)]
struct Verticals {
    kept: Vec<Vertical>,
    /// The distance of the last one.
    before: Option<Micro>,
    /// How many records were read, that of the names included.
    count: u64,
}

impl Verticals {
    /// None.
    fn new(alloc: Global) -> Verticals
        ensures kept { result.kept.items ≡ [] }
        ensures count { result.count ≡ 0 }
    {
        Verticals {
            kept: Vec::new(alloc),
            before: None,
            count: 0,
        }
    }

    /// Adds the vertical of the next record, of which the first names the fields.
    fn add(&mut self, row: &ByteRecord) -> Result<(), NotesFault>
        requires { self.old.count + 1 < 2 ^ 64 }
        ensures count { self.new.count ≡ self.old.count + 1 }
        ensures names { self.old.count ≡ 0 → AddsNames self.old.kept.items (fields_of row.now) result self.new.before self.new.kept.items }
        ensures vertical { self.old.count ≢ 0 → AddsVertical (self.old.count + 1) self.old.before self.old.kept.items (fields_of row.now) result self.new.before self.new.kept.items }
    {
        self.count += 1;
        if self.count == 1 {
            self.add_names(row)
        } else {
            self.add_vertical(row)
        }
    }

    /// Tests the record of the names.
    fn add_names(&mut self, row: &ByteRecord) -> Result<(), NotesFault>
        ensures count { self.new.count ≡ self.old.count }
        ensures names { AddsNames self.old.kept.items (fields_of row.now) result self.new.before self.new.kept.items }
    {
        if !are_names(row) {
            return Err(NotesFault::Header);
        }
        self.before = None;
        Ok(())
    }

    /// Adds the vertical of the record that was counted last.
    fn add_vertical(&mut self, row: &ByteRecord) -> Result<(), NotesFault>
        ensures count { self.new.count ≡ self.old.count }
        ensures vertical { AddsVertical self.old.count self.old.before self.old.kept.items (fields_of row.now) result self.new.before self.new.kept.items }
    {
        let vertical = read_vertical(self.count, self.before, row)?;
        self.before = Some(vertical.distance);
        if self.kept.push(vertical).is_err() {
            return Err(NotesFault::NoMemory);
        }
        Ok(())
    }

    /// The verticals of all records.
    fn finish(self) -> Result<Vec<Vertical>, NotesFault>
        ensures ok { IfOk result (λ verticals. (self.count ≢ 0) × (verticals.items ≡ self.kept.items)) }
        ensures err { IfErr result (λ fault. (self.count ≡ 0) × (fault ≡ NotesFault.Header)) }
    {
        if self.count == 0 {
            return Err(NotesFault::Header);
        }
        Ok(self.kept)
    }
}
