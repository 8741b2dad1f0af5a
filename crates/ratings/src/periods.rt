//! The periods of a station, of which at most one is in force at an instant.

ghost use Rattle.std.specs.Prelude.{◌≡◌, ◌≢◌, ◌+◌, ◌<◌, ◌≤◌, [], length, filter, drop, not, None, All, OnOk, OnErr, IsOk, IsSome, ◌↔◌};
ghost use Rattle.rising.specs.Lists as lists;
ghost use Rattle.ratings.specs.Periods as periods;
ghost use Rattle.ratings.specs.Periods.{AreApart, begin, overlap, in_force, stands_in_the_way};
ghost use Rattle.ratings.specs.Parts.{meets};

use crate::period::Period;
use fixed_units::{NoMemory, Second};
use rising::{NoEntry, RisingList, count_to};
use std::alloc::Global;
use std::marker::Model;

/// Periods, rising by their starts, of which no two share an instant. Contracts see the list, and for how many more
/// there is room.
#[derive(Drop)]
pub struct Periods {
    list: RisingList<Period>,
}

impl Model for Periods {
    ghost use Rattle.rising.specs.Lists.{Kept};
    ghost use Rattle.ratings.specs.Periods.{AreApart};
    ghost use Rattle.ratings.specs.Spans.{Span};

    ghost Value = { Kept Span };

    ghost view = { λ p. p.list };

    ghost invariant = { λ p. AreApart p.list.list };
}

impl Periods {
    /// No periods, which takes no memory.
    pub fn new(alloc: Global) -> Periods
        ensures { result.list ≡ [] }
    {
        Periods {
            list: RisingList::new(alloc),
        }
    }

    /// Makes room for so many more periods. After `NoMemory` all is as before.
    pub fn reserve(&mut self, n: usize) -> Result<(), NoMemory>
        ensures ok { IsOk result ↔ (n ≤ self.new.spare) }
        ensures list { self.new.list ≡ self.old.list }
        ensures room { self.old.spare ≤ self.new.spare }
        ensures err { OnErr result (self.new ≡ self.old) }
    {
        self.list.reserve(n)?;
        Ok(())
    }

    /// The periods, in order.
    pub fn as_slice(&self) -> &[Period]
        ensures list { result.now ≡ self.now.list }
        ensures apart { AreApart self.now.list }
    {
        self.list.as_slice()
    }

    /// The earliest start of a kept period of another start that shares an instant with this one. Periods that
    /// touch share none.
    pub fn overlap(&self, period: &Period) -> Option<Second>
        ensures { result ≡ overlap period.now self.now.list }
    {
        let kept = self.list.as_slice();
        let found = kept.iter().find(|kept| is_in_the_way(kept, period))?;
        Some(found.from)
    }

    /// Puts a period in its place, instead of the one of its start.
    pub fn put(&mut self, period: Period)
        requires room { 0 < self.old.spare }
        requires apart { overlap period self.old.list ≡ None }
        ensures list { self.new.list ≡ lists.put begin period self.old.list }
        ensures spare { self.old.spare ≤ self.new.spare + 1 }
        ensures room { length self.new.list + self.new.spare ≡ length self.old.list + self.old.spare }
    {
        // The proof learns here that the period ends after it begins.
        let _from = period.from;
        self.list.put(period);
    }

    /// Takes out the period that begins at an instant.
    ///
    /// # Errors
    ///
    /// `NoEntry` exactly where none begins there; all is then as before.
    pub fn take_out(&mut self, from: Second) -> Result<(), NoEntry>
        ensures ok { OnOk result (IsSome (lists.at begin from self.old.list)) }
        ensures list { self.new.list ≡ lists.without begin from self.old.list }
        ensures err { OnErr result (All (λ p. p.from ≢ from) self.old.list) }
        ensures unchanged { OnErr result (self.new ≡ self.old) }
        ensures spare { self.old.spare ≤ self.new.spare }
        ensures room { length self.new.list + self.new.spare ≡ length self.old.list + self.old.spare }
    {
        match self.list.take_out(from) {
            Some(_taken) => Ok(()),
            None => Err(NoEntry),
        }
    }

    /// The period that begins at an instant.
    pub fn starting_at(&self, from: Second) -> Option<Period>
        ensures { result ≡ lists.at begin from self.now.list }
    {
        self.list.get(from).copied()
    }

    /// The period that is in force at an instant.
    pub fn at(&self, at: Second) -> Option<Period>
        ensures { result ≡ in_force at self.now.list }
    {
        let list = self.list.as_slice();
        let (begun, _later) = list.split_at(count_to(list, at));
        let last = begun.last()?;
        if is_before_end(at, last.until) {
            Some(*last)
        } else {
            None
        }
    }

    /// The periods that are in force at some instant from `lo` to `hi`, in order.
    pub fn meeting(&self, lo: Second, hi: Second) -> &[Period]
        ensures { result.now ≡ filter (meets lo hi) self.now.list }
    {
        let list = self.list.as_slice();
        let (begun, _later) = list.split_at(count_to(list, hi));
        let (_ended, met) = begun.split_at(count_ended(begun, lo));
        met
    }
}

/// How many periods have ended at an instant: those in front.
fn count_ended(list: &[Period], at: Second) -> usize
    requires { AreApart list.now }
    ensures within { result ≤ length list.now }
    ensures back { drop result list.now ≡ filter (λ p. periods.is_before_end at p.until) list.now }
{
    list.partition_point(|period| has_ended(period, at))
}

/// Whether a period has ended at an instant.
fn has_ended(period: &Period, at: Second) -> bool
    ensures { result ≡ not (periods.is_before_end at period.now.until) }
{
    !is_before_end(at, period.until)
}

/// Whether a kept period has another start than one, and shares an instant with it.
fn is_in_the_way(kept: &Period, period: &Period) -> bool
    ensures { result ≡ stands_in_the_way period.now kept.now }
{
    kept.from != period.from
        && is_before_end(kept.from, period.until)
        && is_before_end(period.from, kept.until)
}

/// Whether an instant is before an end, if there is one.
pub(crate) fn is_before_end(at: Second, until: Option<Second>) -> bool
    ensures { result ≡ periods.is_before_end at until }
{
    match until {
        Some(until) => at < until,
        None => true,
    }
}
