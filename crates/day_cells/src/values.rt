//! The values that were published last of days that follow each other.

ghost use Rattle.std.specs.Prelude.{◌≡◌, ◌+◌, ◌<◌, ◌≤◌, [], ◌++◌, length, replicate, slice_index_or, set, OnOk, OnErr, IfOk, vec_len, vec_capacity};
ghost use Rattle.daily_values.specs.declared.day_values.DayValue.TheVariants.{Empty};

use crate::columns::widened;
use daily_values::DayValue;
use fixed_units::NoMemory;
use std::alloc::Global;
use std::marker::Model;

/// The values of days that follow each other, the empty one where nothing was published. Contracts see the list.
///
/// A value is some hundred times as large as its place, and most days of a long record await their first computation when an office
/// opens. So the values stand in the order in which their days were first published, and the memory beyond them is not touched.
#[derive(Drop)]
pub struct Values {
    /// For each day the place of its value, counted from 1, and 0 where nothing was published.
    places: Vec<u32>,
    /// The values that were published, with room for one of each day.
    published: Vec<DayValue>,
}

impl Model for Values {
    ghost use Rattle.std.specs.Prelude.{List, vec_capacity};
    ghost use Rattle.daily_values.specs.declared.day_values.DayValue.{DayValue};
    ghost use Rattle.day_cells.specs.Values.{values_in, KeepsValues};

    ghost Value = { List DayValue };

    ghost view = { λ v. values_in v.published.items v.places.items };

    ghost invariant = { λ v. KeepsValues v.places.items v.published.items (vec_capacity v.published) };
}

impl Values {
    /// The values of no day. It takes no memory.
    pub fn new(alloc: Global) -> Values
        ensures { result ≡ [] }
    {
        Values {
            places: Vec::new(alloc),
            published: Vec::new(alloc),
        }
    }

    /// The value of the day in a place, and the empty one that is given where nothing was published.
    pub fn get<'a>(&'a self, day: usize, empty: &'a DayValue) -> &'a DayValue
        requires within { day < length self.now }
        requires empty { empty.now ≡ DayValue.Empty }
        ensures { result.now ≡ slice_index_or self.now day Empty }
    {
        let place = self.places[day] as usize;
        if place == 0 {
            empty
        } else {
            &self.published[place - 1]
        }
    }

    /// Publishes the value of the day in a place. It takes no memory.
    pub fn set(&mut self, day: usize, value: DayValue)
        requires { day < length self.old }
        ensures { self.new ≡ set self.old day value }
    {
        let place = self.places[day] as usize;
        if place == 0 {
            self.published.push_reserved(value);
            self.places[day] = self.published.len() as u32;
        } else {
            self.published[place - 1] = value;
        }
    }

    /// Makes room for so many days more in front and behind, of which nothing was published. After `NoMemory` all is as before.
    pub fn widen(&mut self, alloc: Global, front: usize, back: usize) -> Result<(), NoMemory>
        requires { front + length self.old + back < 4_294_967_296 }
        ensures ok { OnOk result (self.new ≡ (replicate front Empty ++ self.old) ++ replicate back Empty) }
        ensures err { OnErr result (self.new ≡ self.old) }
    {
        let places = widened(alloc, &self.places, 0, front, back)?;
        let published = with_room(alloc, &self.published, places.len())?;
        self.places = places;
        self.published = published;
        Ok(())
    }
}

/// These values, with room for so many.
fn with_room(alloc: Global, published: &[DayValue], count: usize) -> Result<Vec<DayValue>, NoMemory>
    ensures items { IfOk result (λ room. room.items ≡ published.now) }
    ensures room { IfOk result (λ room. count ≤ vec_capacity room) }
{
    let mut room = Vec::with_capacity(alloc, count)?;
    room.extend_from_slice(published)?;
    Ok(room)
}
