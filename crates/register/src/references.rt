//! Where the accepted edits stand that references name.

ghost use Rattle.std.specs.Prelude.{ℕ, List, ◌≡◌, ◌<◌, ◌^◌, true, false, if◌then◌else◌, ◌==◌, Some, None, [], IfSome, OnOk, OnErr};
ghost use Rattle.register.specs.References.{IsPlacedFor, has_reference, hash_of, is_free_in, place_at};

use fixed_units::NoMemory;
use records::Record;
use std::alloc::Global;
use std::collections::HashMap;
use std::hash::{FoldHasher, Hasher};
use std::marker::Model;

/// The places of accepted edits by keys of their references, which are their hashes and where those are taken the numbers after them:
/// the references themselves stand in the records. Contracts see each key with the place that is kept under it.
#[derive(Drop)]
pub struct References {
    places: HashMap<u32, u32>,
}

impl Model for References {
    ghost use Rattle.std.specs.Prelude.{List, map};
    ghost use Rattle.register.specs.References.{Placed};

    ghost Value = { List Placed };

    ghost view = { λ r. map (λ e. record { key = e.0; place = e.1 }) r.places.entries };
}

impl References {
    /// No reference, which takes no memory.
    pub fn new(alloc: Global) -> References
        ensures { result ≡ [] }
    {
        References {
            places: HashMap::new(alloc),
        }
    }

    /// A place whose record, among those of the accepted edits, has a reference; `None` only where no place that is kept for the
    /// reference has such a record. The keys of the reference are gone over, as far as each keeps a place.
    pub fn place(&self, reference: &[u8], pieces: &[Record]) -> Option<u64>
        ensures found { IfSome result (λ place. has_reference pieces.now reference.now place ≡ true) }
        ensures absent { result ≡ None → (place : ℕ) → IsPlacedFor self.now reference.now place → has_reference pieces.now reference.now place ≡ false }
    {
        let hash = hash_of(reference);
        for turn in 0..u32::MAX {
            let place = self.at(hash.wrapping_add(turn))?;
            if has_reference(pieces, reference, place) {
                return Some(place);
            }
        }
        None
    }

    /// Keeps a place for a reference, under its first key that keeps no other place. After `NoMemory`, as for a place of more than 32
    /// bits, all is as before.
    pub fn put(&mut self, reference: &[u8], place: u64) -> Result<(), NoMemory>
        ensures placed { OnOk result (IsPlacedFor self.new reference.now place) }
        ensures others { OnOk result ((other : List ℕ) (its : ℕ) → IsPlacedFor self.old other its → IsPlacedFor self.new other its) }
        ensures err { OnErr result (self.new ≡ self.old) }
    {
        let hash = hash_of(reference);
        for turn in 0..u32::MAX {
            let key = hash.wrapping_add(turn);
            if self.is_free(key, place) {
                return self.keep(key, place);
            }
        }
        Err(NoMemory)
    }

    /// The place that is kept under a key.
    fn at(&self, key: u32) -> Option<u64>
        ensures { result ≡ place_at self.now key }
    {
        let place = self.places.get(&key).copied()?;
        Some(place as u64)
    }

    /// Whether no place is kept under a key but this one.
    fn is_free(&self, key: u32, place: u64) -> bool
        ensures { result ≡ is_free_in self.now key place }
    {
        match self.at(key) {
            Some(kept) => kept == place,
            None => true,
        }
    }

    /// Keeps a place under a key. After `NoMemory` all is as before.
    fn keep(&mut self, key: u32, place: u64) -> Result<(), NoMemory>
        ensures places { OnOk result ((other : ℕ) → place_at self.new other ≡ (if key == other then Some place else place_at self.old other)) }
        ensures err { OnErr result (self.new ≡ self.old) }
    {
        let Ok(place) = u32::try_from(place) else {
            return Err(NoMemory);
        };
        match self.places.insert(key, place) {
            Ok(_) => Ok(()),
            Err(_) => Err(NoMemory),
        }
    }
}

/// The hash of a reference.
fn hash_of(reference: &[u8]) -> u32
    ensures { result ≡ hash_of reference.now }
{
    let mut hasher = FoldHasher::default();
    hasher.write(reference);
    (hasher.finish() >> 32) as u32
}

/// Whether the record at a place has a reference.
fn has_reference(pieces: &[Record], reference: &[u8], place: u64) -> bool
    ensures { result ≡ has_reference pieces.now reference.now place }
{
    match pieces.get(place as usize) {
        Some(piece) => piece.edit().reference.as_slice() == reference,
        None => false,
    }
}
