//! The kept list of readings: what is put, dropped, flagged and counted.

ghost use Rattle.std.specs.Prelude.{◌≡◌, ◌+◌, ◌-◌, ◌^◌, ◌<◌, ◌≤◌, true, false, [], ◌++◌, length, take, drop, map, find, reverse, is_some, option_map, OnOk, OnErr, IsOk};
ghost use Rattle.gapcol.specs.Lists.{with_spare};
ghost use Rattle.rising.specs.Ends.{first, last};
ghost use Rattle.readings.specs.Halves.{joined};
ghost use Rattle.readings.specs.Readings.{IsRising, before_instant, after_instant, put, put_all, in_span, without_span, with_flag, flagged_where, is_used};
ghost use Rattle.readings.specs.Window.{of_day};

use crate::halves::Halves;
use fixed_units::{Flag, NoMemory, Reading, Second};
use gapcol::Column;
use std::alloc::Global;
use std::fmt;
use std::marker::Model;

/// The readings of a station, rising by instant. Contracts see the list, and how many more have room beside it.
#[derive(Drop)]
pub struct Readings {
    kept: Column<Reading>,
}

impl Model for Readings {
    ghost use Rattle.fixed_units.specs.declared.readings.Reading.{Reading};
    ghost use Rattle.rising.specs.Lists.{Kept};
    ghost use Rattle.readings.specs.Readings.{IsRising};

    ghost Value = { Kept Reading };

    ghost view = { λ r. record { list = r.kept.list; spare = r.kept.spare } };

    ghost invariant = { λ r. IsRising r.kept.list };
}

impl fmt::Debug for Readings {
    fn fmt<W: fmt::Write>(&self, f: &mut fmt::Formatter<W>) -> Result<(), fmt::Error> {
        self.halves().fmt(f)
    }
}

impl Readings {
    /// No readings, which takes no memory.
    pub fn new(alloc: Global) -> Readings
        ensures { result.list ≡ [] }
    {
        Readings {
            kept: Column::new(alloc),
        }
    }

    /// Makes room for so many readings more. Where there is room for them already it succeeds, and after `NoMemory` all
    /// is as before.
    pub fn reserve(&mut self, count: usize) -> Result<(), NoMemory>
        ensures list { self.new.list ≡ self.old.list }
        ensures room { OnOk result (count ≤ self.new.spare) }
        ensures kept { self.old.spare ≤ self.new.spare }
        ensures succeeds { count ≤ self.old.spare → IsOk result }
        ensures err { OnErr result (self.new ≡ self.old) }
    {
        match self.kept.reserve(count) {
            Ok(()) => Ok(()),
            Err(gapcol::NoMemory) => Err(NoMemory),
        }
    }

    /// How many readings there are.
    pub fn len(&self) -> usize
        ensures { result ≡ length self.now.list }
    {
        self.kept.len()
    }

    /// All readings, lent.
    pub(crate) fn halves(&self) -> Halves<'_>
        ensures list { joined result ≡ self.now.list }
        ensures rising { IsRising (joined result) }
        ensures range { length self.now.list < 2 ^ 63 }
    {
        self.behind(0)
    }

    /// The readings from a place on, lent.
    fn behind(&self, from: usize) -> Halves<'_>
        requires { from ≤ length self.now.list }
        ensures list { joined result ≡ drop from self.now.list }
        ensures rising { IsRising (joined result) }
        ensures range { length self.now.list < 2 ^ 63 }
    {
        let (left, right) = self.kept.parts(from, self.kept.len());
        Halves { left, right }
    }

    /// Puts each of these readings in its place, instead of the one at its instant. They rise by instant, and there is room
    /// for them, so no memory is taken.
    pub fn put_all(&mut self, list: &[Reading])
        requires rising { IsRising list.now }
        requires room { length list.now ≤ self.old.spare }
        ensures list { self.new.list ≡ put_all list.now self.old.list }
        ensures room { length self.new.list + self.new.spare ≡ length self.old.list + self.old.spare }
    {
        if self.ends_before(list) {
            self.kept.append(list);
            return;
        }
        let mut from = 0;
        for reading in list {
            from = self.put_from(from, *reading);
        }
    }

    /// Whether each of these readings, which rise, stands behind all that are kept, as those of a logger mostly do.
    fn ends_before(&self, list: &[Reading]) -> bool
        requires { IsRising list.now }
        ensures { result ≡ true → put_all list.now self.now.list ≡ self.now.list ++ list.now }
    {
        match (self.halves().last(), list.first()) {
            (Some(last), Some(first)) => last.at < first.at,
            _ => true,
        }
    }

    /// Puts a reading that stands after those before the place `from`, and says behind which place each later one stands.
    fn put_from(&mut self, from: usize, reading: Reading) -> usize
        requires room { 0 < self.old.spare }
        requires passed { from ≤ length (before_instant reading.at self.old.list) }
        ensures list { self.new.list ≡ put reading self.old.list }
        ensures room { length self.new.list + self.new.spare ≡ length self.old.list + self.old.spare }
        ensures spare { self.old.spare ≤ self.new.spare + 1 }
        ensures next { result ≡ length (before_instant reading.at self.old.list) + 1 }
    {
        let place = from + self.behind(from).count_before(reading.at);
        if self.stands_in(place, reading.at) {
            self.kept.set(place, reading);
        } else {
            self.kept.insert(place, reading);
        }
        place + 1
    }

    /// Whether the reading in the place where an instant belongs stands at it.
    fn stands_in(&self, place: usize, at: Second) -> bool
        requires { place ≡ length (before_instant at self.now.list) }
        ensures within { result ≡ true → place < length self.now.list }
        ensures here { result ≡ true → drop (place + 1) self.now.list ≡ after_instant at self.now.list }
        ensures elsewhere { result ≡ false → drop place self.now.list ≡ after_instant at self.now.list }
    {
        place < self.kept.len() && self.kept.get(place).at == at
    }

    /// Takes out the readings from an instant to another, both included, and says how many they were. Their room stays.
    pub fn drop_span(&mut self, from: Second, to: Second) -> u64
        ensures list { self.new.list ≡ without_span from to self.old.list }
        ensures count { result ≡ length (in_span from to self.old.list) }
        ensures room { length self.new.list + self.new.spare ≡ length self.old.list + self.old.spare }
    {
        let (first, end) = self.places(from, to);
        remove_run(&mut self.kept, first, end);
        (end - first) as u64
    }

    /// Flags the readings from an instant to another, both included, and says how many they are.
    pub fn flag_span(&mut self, from: Second, to: Second, flag: Flag) -> u64
        ensures list { self.new.list ≡ with_flag from to flag self.old.list }
        ensures count { result ≡ length (in_span from to self.old.list) }
        ensures spare { self.new.spare ≡ self.old.spare }
    {
        let (first, end) = self.places(from, to);
        flag_run(&mut self.kept, first, end, flag);
        (end - first) as u64
    }

    /// The place of the first reading of a span, and the place behind its last.
    fn places(&self, from: Second, to: Second) -> (usize, usize)
        ensures first { result.0 ≡ length (before_instant from self.now.list) }
        ensures end { result.1 ≡ result.0 + length (in_span from to self.now.list) }
        ensures within { result.1 ≤ length self.now.list }
    {
        let all = self.halves();
        let first = all.count_before(from);
        let (_early, rest) = all.split_at(first);
        (first, first + rest.count_to(to))
    }

    /// How many readings stand from an instant to another, both included.
    pub fn count(&self, from: Second, to: Second) -> u64
        ensures { result ≡ length (in_span from to self.now.list) }
    {
        self.halves().span(from, to).len() as u64
    }

    /// The first and the last of the readings from an instant to another, both included.
    pub fn span_ends(&self, from: Second, to: Second) -> Option<(Reading, Reading)>
        ensures first { option_map (λ ends. ends.0) result ≡ first (in_span from to self.now.list) }
        ensures last { option_map (λ ends. ends.1) result ≡ last (in_span from to self.now.list) }
    {
        let span = self.halves().span(from, to);
        let first = span.first()?;
        let last = span.last()?;
        Some((first, last))
    }

    /// The first and the last reading that is used.
    pub fn used_ends(&self) -> Option<(Reading, Reading)>
        ensures first { option_map (λ ends. ends.0) result ≡ find is_used self.now.list }
        ensures last { option_map (λ ends. ends.1) result ≡ find is_used (reverse self.now.list) }
    {
        let all = self.halves();
        let first = all.first_used()?;
        let last = all.last_used()?;
        Some((first, last))
    }

    /// The readings from an instant on and before another: none where that one is no later.
    pub fn between(&self, a: Second, b: Second) -> Halves<'_>
        ensures { result.left.now ++ result.right.now ≡ of_day a b self.now.list }
    {
        self.halves().between(a, b)
    }

    /// Whether a reading from an instant on and before another is used.
    pub fn has_used(&self, a: Second, b: Second) -> bool
        ensures { result ≡ is_some (find is_used (of_day a b self.now.list)) }
    {
        self.between(a, b).first_used().is_some()
    }

    /// How many of these readings stand at instants of no reading. They rise by instant, and each is searched behind the one before.
    pub fn count_new(&self, list: &[Reading]) -> usize
        requires { IsRising list.now }
        ensures { length (put_all list.now self.now.list) ≡ length self.now.list + result }
    {
        if self.ends_before(list) {
            return list.len();
        }
        let mut rest = self.halves();
        let mut count = 0;
        for reading in list {
            (_, rest) = rest.split_at_key(reading.at);
            if !rest.begins_at(reading.at) {
                count += 1;
            }
        }
        count
    }
}

/// Takes out the readings in the places from `first` on and before `end`.
fn remove_run(kept: &mut Column<Reading>, first: usize, end: usize)
    requires order { first ≤ end }
    requires within { end ≤ length kept.old.list }
    ensures { kept.new ≡ with_spare (take first kept.old.list ++ drop end kept.old.list) (kept.old.spare + (end - first)) }
{
    for _ in first..end {
        kept.remove(first);
    }
}

/// Flags the readings in the places from `first` on and before `end`.
fn flag_run(kept: &mut Column<Reading>, first: usize, end: usize, flag: Flag)
    requires order { first ≤ end }
    requires within { end ≤ length kept.old.list }
    ensures { kept.new ≡ with_spare (take first kept.old.list ++ (map (flagged_where true flag) (take (end - first) (drop first kept.old.list)) ++ drop end kept.old.list)) kept.old.spare }
{
    for place in first..end {
        let reading = kept.get(place);
        kept.set(place, Reading { flag, ..reading });
    }
}
