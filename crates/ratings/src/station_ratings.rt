//! The ratings of a station under their numbers, and the periods in which they are in force.

ghost use Rattle.std.specs.Prelude.{◌≡◌, ◌≢◌, ◌<◌, ◌≤◌, ◌≤ℤ◌, [], None, All, IsSome, IfOk, OnOk, OnErr, option_map};
ghost use Rattle.fixed_units.specs.Quantities.{IsStamp};
ghost use Rattle.rising.specs.Lists as lists;
ghost use Rattle.rating_tables.specs.Table.{IsRating};
ghost use Rattle.ratings.specs.Numbered.{AreRatings, period_from, rating_of, rows_in_force, with_rating, with_period, without_period};
ghost use Rattle.ratings.specs.PartEquality.{same_parts};
ghost use Rattle.ratings.specs.Parts as cut;
ghost use Rattle.ratings.specs.Parts.{AreParts};
ghost use Rattle.ratings.specs.Periods.{begin, overlap};

use crate::cutting::{are_cut, cut_all, table_of};
use crate::parts::PartList;
use crate::period::{Period, PeriodPart};
use crate::period_changes::{meets, stays_in_place};
use crate::periods::Periods;
use fixed_units::{NoMemory, Second};
use rating_tables::{SharedTable, Table};
use rising::{Keyed, NoEntry, RisingList};
use std::alloc::Global;
use std::marker::Model;

/// A table under a number. Contracts see the number and the rows.
#[derive(Drop)]
pub struct Rating {
    pub(crate) number: u32,
    pub(crate) table: SharedTable,
}

impl Model for Rating {
    ghost use Rattle.ratings.specs.Numbered.{Numbered};

    ghost Value = { Numbered };

    ghost view = { λ r. record { number = r.number; rows = r.table } };
}

impl Keyed for Rating {
    ghost use Rattle.std.specs.Prelude.{pos};

    type Key = u32;

    ghost place = { λ r. pos r.number };

    ghost number = { λ n. pos n };

    fn key(&self) -> u32 {
        self.number
    }

    fn is_before(&self, key: u32) -> bool {
        self.number < key
    }

    fn is_at(&self, key: u32) -> bool {
        self.number == key
    }
}

impl Rating {
    /// The number.
    pub fn number(&self) -> u32
        ensures { result ≡ self.now.number }
    {
        self.number
    }

    /// The table.
    pub fn table(&self) -> &Table
        ensures { result.now ≡ self.now.rows }
    {
        self.table.table()
    }
}

/// The ratings of a station and the periods in which they are in force, at most one at an instant, each of a rating that is
/// there. Contracts see them, and for how many more of both there is room.
#[derive(Drop)]
pub struct Ratings {
    tables: RisingList<Rating>,
    periods: Periods,
}

impl Model for Ratings {
    ghost use Rattle.ratings.specs.Numbered.{KeptRatings, AreRatings};

    ghost Value = { KeptRatings };

    ghost view = { λ r. record {
      ratings = record { tables = r.tables.list; periods = r.periods.list };
      rating_room = r.tables.spare;
      period_room = r.periods.spare;
    } };

    ghost invariant = { λ r. AreRatings (record { tables = r.tables.list; periods = r.periods.list }) };
}

impl Ratings {
    /// No ratings and no periods, which takes no memory.
    pub fn new(alloc: Global) -> Ratings
        ensures { result.ratings ≡ record { tables = []; periods = [] } }
    {
        Ratings {
            tables: RisingList::new(alloc),
            periods: Periods::new(alloc),
        }
    }

    /// The parts of the periods that are in force at some instant from `lo` to `hi`, each cut to the time from `lo` until right
    /// behind `hi`, with the table of its rating.
    pub fn parts(&self, alloc: Global, lo: Second, hi: Second) -> Result<PartList, NoMemory>
        requires { IsStamp hi }
        ensures list { IfOk result (λ list. list ≡ cut.parts lo hi self.now.ratings.tables self.now.ratings.periods) }
        ensures parts { IfOk result (λ list. lo ≤ℤ hi → AreParts list) }
    {
        cut_all(alloc, &self.tables, self.periods.meeting(lo, hi), lo, hi)
    }

    /// Whether a list is the one that [`Ratings::parts`] gives. It takes no memory.
    pub fn has_parts(&self, lo: Second, hi: Second, parts: &[PeriodPart]) -> bool
        ensures { result ≡ same_parts parts.now (cut.parts lo hi self.now.ratings.tables self.now.ratings.periods) }
    {
        are_cut(&self.tables, self.periods.meeting(lo, hi), lo, hi, parts)
    }

    /// The table of the rating that is in force at an instant.
    pub fn table_at(&self, at: Second) -> Option<&Table>
        ensures { option_map (λ t. t.now) result ≡ rows_in_force at self.now.ratings }
    {
        let period = self.periods.at(at)?;
        Some(table_of(&self.tables, period.rating).table())
    }

    /// Whether the parts of the time from `lo` to `hi` stay as they are with a period put in place of the one of its start. It takes
    /// no memory.
    pub fn keeps_parts_with(&self, period: &Period, lo: Second, hi: Second) -> bool
        ensures { result ≡ same_parts (cut.parts lo hi self.now.ratings.tables self.now.ratings.periods)
            (cut.parts lo hi self.now.ratings.tables (with_period period.now self.now.ratings).periods) }
    {
        match self.periods.starting_at(period.from) {
            Some(kept) => stays_in_place(&kept, period, lo, hi),
            None => !meets(period, lo, hi),
        }
    }

    /// Whether the parts of the time from `lo` to `hi` stay as they are without the period that begins at an instant. It takes no
    /// memory.
    pub fn keeps_parts_without(&self, from: Second, lo: Second, hi: Second) -> bool
        ensures { result ≡ same_parts (cut.parts lo hi self.now.ratings.tables self.now.ratings.periods)
            (cut.parts lo hi self.now.ratings.tables (without_period from self.now.ratings).periods) }
    {
        match self.periods.starting_at(from) {
            Some(kept) => !meets(&kept, lo, hi),
            None => true,
        }
    }

    /// The period that begins at an instant, if there is one.
    pub fn period_from(&self, from: Second) -> Option<Period>
        ensures { result ≡ period_from from self.now.ratings.periods }
    {
        self.periods.starting_at(from)
    }

    /// The ratings, rising by number.
    pub fn tables(&self) -> &[Rating]
        ensures tables { result.now ≡ self.now.ratings.tables }
        ensures kept { AreRatings self.now.ratings }
    {
        self.tables.as_slice()
    }

    /// The periods, rising by their starts.
    pub fn periods(&self) -> &[Period]
        ensures periods { result.now ≡ self.now.ratings.periods }
        ensures kept { AreRatings self.now.ratings }
    {
        self.periods.as_slice()
    }

    /// The rating of a number, if there is one.
    pub fn rating(&self, number: u32) -> Option<&Rating>
        ensures { option_map (λ r. r.now) result ≡ rating_of number self.now.ratings.tables }
    {
        self.tables.get(number)
    }
}

impl Ratings {
    /// Makes room for one more rating. After `NoMemory` all is as before.
    pub fn reserve_rating(&mut self) -> Result<(), NoMemory>
        ensures ratings { self.new.ratings ≡ self.old.ratings }
        ensures room { OnOk result (1 ≤ self.new.rating_room) }
        ensures kept { self.old.rating_room ≤ self.new.rating_room }
        ensures period_room { self.new.period_room ≡ self.old.period_room }
        ensures err { OnErr result (self.new ≡ self.old) }
    {
        self.tables.reserve(1)?;
        Ok(())
    }

    /// Makes room for one more period. After `NoMemory` all is as before.
    pub fn reserve_period(&mut self) -> Result<(), NoMemory>
        ensures ratings { self.new.ratings ≡ self.old.ratings }
        ensures room { OnOk result (1 ≤ self.new.period_room) }
        ensures kept { self.old.period_room ≤ self.new.period_room }
        ensures rating_room { self.new.rating_room ≡ self.old.rating_room }
        ensures err { OnErr result (self.new ≡ self.old) }
    {
        self.periods.reserve(1)
    }

    /// Adds a rating under a number that none has. There is room for it, so no memory is taken.
    pub fn add(&mut self, number: u32, table: SharedTable)
        requires room { 0 < self.old.rating_room }
        requires rating { IsRating table }
        requires absent { rating_of number self.old.ratings.tables ≡ None }
        ensures ratings { self.new.ratings ≡ with_rating (record { number = number; rows = table }) self.old.ratings }
        ensures period_room { self.new.period_room ≡ self.old.period_room }
    {
        self.tables.put(Rating { number, table });
    }

    /// Puts a period of a rating that is there in its place, instead of the one of its start. There is room for it, so no memory
    /// is taken.
    pub fn put_period(&mut self, period: Period)
        requires room { 0 < self.old.period_room }
        requires known { IsSome (rating_of period.rating self.old.ratings.tables) }
        requires apart { overlap period self.old.ratings.periods ≡ None }
        ensures ratings { self.new.ratings ≡ with_period period self.old.ratings }
        ensures rating_room { self.new.rating_room ≡ self.old.rating_room }
    {
        // The proof learns here that the period ends after it begins.
        let _from = period.from;
        self.periods.put(period);
    }

    /// The earliest start of a kept period of another start that shares an instant with this one.
    pub fn overlap(&self, period: &Period) -> Option<Second>
        ensures { result ≡ overlap period.now self.now.ratings.periods }
    {
        self.periods.overlap(period)
    }

    /// Takes out the period that begins at an instant.
    ///
    /// # Errors
    ///
    /// `NoEntry` exactly where none begins there; all is then as before.
    pub fn drop_period(&mut self, from: Second) -> Result<(), NoEntry>
        ensures ok { OnOk result (IsSome (lists.at begin from self.old.ratings.periods)) }
        ensures ratings { self.new.ratings ≡ without_period from self.old.ratings }
        ensures err { OnErr result (All (λ p. p.from ≢ from) self.old.ratings.periods) }
        ensures unchanged { OnErr result (self.new ≡ self.old) }
        ensures rating_room { self.new.rating_room ≡ self.old.rating_room }
        ensures period_room { self.old.period_room ≤ self.new.period_room }
    {
        self.periods.take_out(from)
    }
}
