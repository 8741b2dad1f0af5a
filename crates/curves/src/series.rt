//! A kept series: entries that rise by instant, with room for more.

ghost use Rattle.std.specs.Prelude.{◌≡◌, ◌+◌, ◌<◌, ◌≤◌, [], length, is_ok, IsOk, IfOk, OnOk, OnErr, option_map, slice_range};
ghost use Rattle.curves.specs.Entries.{IsRising, entry_after, entry_at, entry_before, series_value, stands_at, without, put};
ghost use Rattle.curves.specs.Bearing.{bearing};

use crate::around::Around;
use crate::entries::{Entry, bearing, value_of};
use crate::entry_list::EntryList;
use fixed_units::{Micro, NoMemory, Second};
use rising::{NoEntry, RisingList};
use std::alloc::Global;
use std::marker::Model;

/// The entries of a correction set or of the shifts, rising by instant. Contracts see the list of entries and for how
/// many more there is room.
#[derive(Drop)]
pub struct Series {
    list: RisingList<Entry>,
}

impl Model for Series {
    ghost use Rattle.curves.specs.Series.{Contents};

    ghost Value = { Contents };

    ghost view = { λ s. record { entries = s.list.list; spare = s.list.spare } };
}

impl Series {
    /// No entries and no room, which takes no memory.
    pub fn new(alloc: Global) -> Series
        ensures entries { result.entries ≡ [] }
        ensures spare { result.spare ≡ 0 }
    {
        Series {
            list: RisingList::new(alloc),
        }
    }

    /// Makes room for so many more entries. Where there is room for them already it succeeds, and after `NoMemory`
    /// the room is as before.
    pub fn reserve(&mut self, n: usize) -> Result<(), NoMemory>
        ensures entries { self.new.entries ≡ self.old.entries }
        ensures ok { OnOk result (n ≤ self.new.spare) }
        ensures kept { self.old.spare ≤ self.new.spare }
        ensures succeeds { n ≤ self.old.spare → IsOk result }
        ensures err { OnErr result (self.new ≡ self.old) }
    {
        self.list.reserve(n)?;
        Ok(())
    }

    /// For how many more entries there is room.
    pub fn spare(&self) -> usize
        ensures { result ≡ self.now.spare }
    {
        self.list.spare()
    }

    /// Puts an entry in its place, instead of the one at its instant, where there is room for one more.
    pub fn put(&mut self, entry: Entry)
        requires { 0 < self.old.spare }
        ensures entries { self.new.entries ≡ put entry self.old.entries }
        ensures spare { self.old.spare ≤ self.new.spare + 1 }
        ensures room { length self.new.entries + self.new.spare ≡ length self.old.entries + self.old.spare }
    {
        self.list.put(entry);
    }

    /// Takes out the entry at an instant. `NoEntry` exactly where none stands there, and then all is as before.
    pub fn take_out(&mut self, at: Second) -> Result<(), NoEntry>
        ensures found { is_ok result ≡ stands_at at self.old.entries }
        ensures ok { OnOk result (self.new.entries ≡ without at self.old.entries) }
        ensures err { OnErr result (self.new.entries ≡ self.old.entries) }
        ensures spare { self.old.spare ≤ self.new.spare }
        ensures room { length self.new.entries + self.new.spare ≡ length self.old.entries + self.old.spare }
    {
        let Some(_entry) = self.list.take_out(at) else {
            return Err(NoEntry);
        };
        Ok(())
    }

    /// The amount in force at an instant for a stage, as [`value_of`] says.
    pub fn value(&self, at: Second, stage: Micro) -> Micro
        ensures { result ≡ series_value self.now.entries at stage }
    {
        value_of(self.list.as_slice(), at, stage)
    }

    /// The first place of the entries that bear on the instants from `lo` to `hi`, and the place after the last one:
    /// each entry that stands at most at `hi` and whose next one, if there is one, stands after `lo`; and each that
    /// directly follows such an entry that prorates.
    pub fn bearing(&self, lo: Second, hi: Second) -> (usize, usize)
        ensures ordered { result.0 ≤ result.1 }
        ensures within { result.1 ≤ length self.now.entries }
        ensures run { slice_range self.now.entries result.0 result.1 ≡ bearing lo hi self.now.entries }
    {
        bearing(self.list.as_slice(), lo, hi)
    }

    /// The entries that bear on the instants from `lo` to `hi`, as [`Series::bearing`] says.
    pub fn bearing_entries(&self, lo: Second, hi: Second) -> &[Entry]
        ensures { result.now ≡ bearing lo hi self.now.entries }
    {
        let entries = self.list.as_slice();
        let (start, end) = bearing(entries, lo, hi);
        &entries[start..end]
    }

    /// A copy of them.
    pub fn bearing_list(&self, alloc: Global, lo: Second, hi: Second) -> Result<EntryList, NoMemory>
        ensures { IfOk result (λ list. list ≡ bearing lo hi self.now.entries) }
    {
        let mut entries = Vec::new(alloc);
        entries.extend_from_slice(self.bearing_entries(lo, hi))?;
        Ok(EntryList::from_vec(entries))
    }

    /// The entries about an instant, by one search.
    pub fn around(&self, at: Second) -> Around<'_>
        ensures at { result.at ≡ at }
        ensures before { option_map (λ e. e.now) result.before ≡ entry_before at self.now.entries }
        ensures here { option_map (λ e. e.now) result.here ≡ entry_at at self.now.entries }
        ensures after { option_map (λ e. e.now) result.after ≡ entry_after at self.now.entries }
    {
        let parts = self.list.parts(at);
        Around {
            at,
            before: parts.before.last(),
            here: parts.here,
            after: parts.after.first(),
        }
    }

    /// Whether an entry stands at an instant.
    pub fn stands_at(&self, at: Second) -> bool
        ensures { result ≡ stands_at at self.now.entries }
    {
        self.around(at).here.is_some()
    }

    /// The entries, in order.
    pub fn entries(&self) -> &[Entry]
        ensures entries { result.now ≡ self.now.entries }
        ensures rising { IsRising self.now.entries }
    {
        self.list.as_slice()
    }
}
