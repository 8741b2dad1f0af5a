//! The column itself. A contract sees its list, and for how many more values there is room.
ghost use Rattle.std.specs.Prelude.{◌≡◌, ◌+◌, ◌-◌, ◌*◌, ◌^◌, ◌<◌, ◌≤◌, max, [], ◌∷◌, ◌++◌, length, take, drop, slice_get, slice_set, slice_range, OnOk, OnErr, IsOk};
ghost use Rattle.std.specs.Mem.{type_size};
ghost use Rattle.gapcol.specs.Lists.{with_spare};

use crate::gap::Gap;
use std::alloc::{AllocError, Global};
use std::marker::Model;
use std::mem::replace;
use thiserror::Error;

/// There was no memory for a column's room, or no block is as large.
#[derive(Clone, Copy, Debug, PartialEq, Eq, Error)]
#[error("there is no memory for a column")]
pub struct NoMemory;

impl From<AllocError> for NoMemory {
    fn from(_error: AllocError) -> NoMemory {
        NoMemory
    }
}

/// How many places the next block has: twice those of this one, or as many as are needed where that is more.
fn grown(needed: usize, capacity: usize) -> usize
    requires { capacity < 2 ^ 63 }
    ensures { result ≡ max (2 * capacity) needed }
{
    if needed < 2 * capacity {
        2 * capacity
    } else {
        needed
    }
}

/// A list of plain values in one block of memory, with its room in a gap between them. The gap moves to where values come and
/// go, which costs a copy of each value between its old place and its new one.
pub struct Column<T: Copy> {
    gap: Gap<T>,
}

impl<T: Copy> Model for Column<T> {
    ghost use Rattle.std.specs.Prelude.{◌-◌};
    ghost use Rattle.gapcol.specs.Lists.{Roomy, with_spare, roomy_code};

    ghost Value = { Roomy T };

    ghost coded = { roomy_code T.code };

    ghost use Rattle.gapcol.specs.Gaps.{gap_list, gap_room, IsGap};

    ghost view = { λ c. with_spare (gap_list c.gap) (gap_room c.gap) };

    ghost invariant = { λ c. IsGap c.gap };
}

impl<T: Copy> Column<T> {
    /// No values and no room, which takes no memory.
    pub fn new(alloc: Global) -> Column<T>
        ensures { result ≡ with_spare [] 0 }
    {
        Column {
            gap: Gap::new(alloc),
        }
    }

    /// How many values there are.
    pub fn len(&self) -> usize
        ensures value { result ≡ length self.now.list }
        ensures range { result + self.now.spare < 2 ^ 63 }
    {
        self.gap.len
    }

    /// For how many more values there is room.
    pub fn spare(&self) -> usize
        ensures value { result ≡ self.now.spare }
        ensures range { length self.now.list + result < 2 ^ 63 }
    {
        self.gap.capacity - self.gap.len
    }

    /// Makes room for so many more values. The only call that takes memory, and it takes none where there is room for them
    /// already; else the block is doubled, or made as large as is needed where that is more, and every value is copied. After `NoMemory` all is as before.
    pub fn reserve(&mut self, n: usize) -> Result<(), NoMemory>
        ensures list { self.new.list ≡ self.old.list }
        ensures room { OnOk result (n ≤ self.new.spare) }
        ensures kept { n ≤ self.old.spare → IsOk result × (self.new ≡ self.old) }
        ensures grown { OnOk result (self.old.spare < n → length self.new.list + self.new.spare ≡ max (2 * (length self.old.list + self.old.spare)) (length self.old.list + n)) }
        ensures fits { OnOk result (self.old.spare < n → n * type_size T.row < 2 ^ 63) }
        ensures err { OnErr result (self.new ≡ self.old) }
    {
        let len = self.gap.len;
        if n <= self.gap.capacity - len {
            return Ok(());
        }
        if n > usize::MAX / 2 {
            return Err(NoMemory);
        }
        let wide = self.gap.copied(grown(len + n, self.gap.capacity))?;
        replace(&mut self.gap, wide).free();
        Ok(())
    }

    /// Puts a value before the one at `at`, or behind the last one. Takes no memory.
    pub fn insert(&mut self, at: usize, value: T)
        requires within { at ≤ length self.old.list }
        requires room { 0 < self.old.spare }
        ensures { self.new ≡ with_spare (take at self.old.list ++ value ∷ drop at self.old.list) (self.old.spare - 1) }
    {
        self.gap.move_to(at);
        self.gap.put_front(value);
    }

    /// Puts values behind the last one, each copied once. Takes no memory.
    pub fn append(&mut self, values: &[T])
        requires room { length values.now ≤ self.old.spare }
        ensures { self.new ≡ with_spare (self.old.list ++ values.now) (self.old.spare - length values.now) }
    {
        self.gap.append(values);
    }

    /// Takes out the value at `at`. Its place is room again.
    pub fn remove(&mut self, at: usize) -> T
        requires { at < length self.old.list }
        ensures value { slice_get self.old.list at ≡ Some result }
        ensures rest { self.new ≡ with_spare (take at self.old.list ++ drop (at + 1) self.old.list) (self.old.spare + 1) }
    {
        self.gap.move_to(at);
        self.gap.take_back()
    }

    /// The value at `at`.
    pub fn get(&self, at: usize) -> T
        requires { at < length self.now.list }
        ensures { slice_get self.now.list at ≡ Some result }
    {
        self.gap.get(at)
    }

    /// Writes over the value at `at`.
    pub fn set(&mut self, at: usize, value: T)
        requires { at < length self.old.list }
        ensures { self.new ≡ with_spare (slice_set self.old.list at value) self.old.spare }
    {
        self.gap.set(at, value);
    }

    /// The values from `from` on and before `to`: those that lie before the gap, and those behind it. They are lent, and nothing
    /// is copied or moved.
    pub fn parts(&self, from: usize, to: usize) -> (&[T], &[T])
        requires order { from ≤ to }
        requires within { to ≤ length self.now.list }
        ensures { result.0.now ++ result.1.now ≡ slice_range self.now.list from to }
    {
        self.gap.parts(from, to)
    }
}

impl<T: Copy> Drop for Column<T> {
    fn drop(self) {
        let Column { gap } = self;
        gap.free();
    }
}
