//! The block behind a column, and the steps that keep it filled but for one gap. No raw pointer is read or written here.
ghost use Rattle.std.specs.Prelude.{◌≡◌, ◌+◌, ◌*◌, ◌^◌, ◌<◌, ◌≤◌, [], ◌∷◌, ◌++◌, length, take, drop, slice_get, slice_set, slice_range, IfOk};
ghost use Rattle.std.specs.Mem.{type_size};
ghost use Rattle.gapcol.specs.Gaps.{gap_front, gap_back, gap_list, IsGap, IsPlace, Becomes};

use crate::cells::{Base, Cells, Deed, allocate, deallocate, nowhere};
use std::alloc::{AllocError, Global};
use std::mem::size_of;
use std_alloc::room::may_hold;

/// The place from `from` to `to` that is nearest to `at`.
fn nearest(at: usize, from: usize, to: usize) -> usize
    requires { from ≤ to }
    ensures range { (from ≤ result) × (result ≤ to) }
    ensures below { from < result → result ≤ at }
    ensures above { result < to → at ≤ result }
{
    if at < from {
        from
    } else if to < at {
        to
    } else {
        at
    }
}

/// The first `front` values lie at the start of the block, the others at its end, and the gap is between them. Where its places
/// take no bytes there is no block, and no deed.
pub struct Gap<T> {
    base: Base<T>,
    pub(crate) capacity: usize,
    pub(crate) len: usize,
    front: usize,
    cells: Cells<T>,
    deed: Option<Deed<T, Global>>,
    alloc: Global,
}

impl<T> Gap<T> {
    /// No places.
    pub(crate) fn new(alloc: Global) -> Gap<T>
        ensures { IsGap result × (gap_list result ≡ []) × (result.capacity ≡ 0) }
    {
        let (base, cells) = nowhere(0);
        Gap {
            base,
            capacity: 0,
            len: 0,
            front: 0,
            cells,
            deed: None,
            alloc,
        }
    }

    /// A gap of so many places and nothing else. A block of no bytes is never asked for.
    pub(crate) fn with_capacity(alloc: Global, capacity: usize) -> Result<Gap<T>, AllocError>
        ensures made { IfOk result (λ g. IsGap g × (gap_front g ≡ []) × (gap_back g ≡ []) × (g.capacity ≡ capacity)) }
        ensures small { IfOk result (λ g. capacity * type_size T.row < 2 ^ 63) }
    {
        if !may_hold::<T>(capacity) {
            return Err(AllocError);
        }
        if capacity * size_of::<T>() == 0 {
            let (base, cells) = nowhere(capacity);
            return Ok(Gap {
                base,
                capacity,
                len: 0,
                front: 0,
                cells,
                deed: None,
                alloc,
            });
        }
        let (base, cells, deed) = allocate(&alloc, capacity)?;
        Ok(Gap {
            base,
            capacity,
            len: 0,
            front: 0,
            cells,
            deed: Some(deed),
            alloc,
        })
    }

    /// Gives the block back, if there is one.
    pub(crate) fn free(self)
        requires { IsGap self }
    {
        let Gap {
            base,
            capacity,
            len: _,
            front: _,
            cells,
            deed,
            alloc,
        } = self;
        if let Some(deed) = deed {
            deallocate(&alloc, base, capacity, cells, deed);
        }
    }

    /// Where the value at `index` lies.
    fn place(&self, index: usize) -> usize
        requires { IsGap self.now × (index < self.now.len) }
        ensures { IsPlace self.now index result }
    {
        if index < self.front {
            index
        } else {
            index + (self.capacity - self.len)
        }
    }

    /// Puts a value at the start of the gap.
    pub(crate) fn put_front(&mut self, item: T)
        requires { IsGap self.old × (self.old.len < self.old.capacity) }
        ensures { Becomes self.old self.new (gap_front self.old ++ item ∷ []) (gap_back self.old) }
    {
        self.cells.write(self.base, self.front, item);
        self.front += 1;
        self.len += 1;
    }

    /// Puts a value at the end of the gap.
    fn put_back(&mut self, item: T)
        requires { IsGap self.old × (self.old.len < self.old.capacity) }
        ensures { Becomes self.old self.new (gap_front self.old) (item ∷ gap_back self.old) }
    {
        let end = self.front + (self.capacity - self.len);
        self.cells.write(self.base, end - 1, item);
        self.len += 1;
    }

    /// Takes the last value before the gap.
    fn take_front(&mut self) -> T
        requires { IsGap self.old × (0 < self.old.front) }
        ensures gap { Becomes self.old self.new (gap_front self.new) (gap_back self.old) }
        ensures item { gap_front self.old ≡ gap_front self.new ++ result ∷ [] }
    {
        self.front -= 1;
        self.len -= 1;
        self.cells.read(self.base, self.front)
    }

    /// Takes the first value behind the gap.
    pub(crate) fn take_back(&mut self) -> T
        requires { IsGap self.old × (self.old.front < self.old.len) }
        ensures gap { Becomes self.old self.new (gap_front self.old) (gap_back self.new) }
        ensures item { gap_back self.old ≡ result ∷ gap_back self.new }
    {
        let end = self.front + (self.capacity - self.len);
        self.len -= 1;
        self.cells.read(self.base, end)
    }

    /// Moves the gap to before the value at `at`, or behind the last one.
    pub(crate) fn move_to(&mut self, at: usize)
        requires { IsGap self.old × (at ≤ self.old.len) }
        ensures { Becomes self.old self.new (take at (gap_list self.old)) (drop at (gap_list self.old)) }
    {
        while at < self.front {
            let item = self.take_front();
            self.put_back(item);
        }
        while self.front < at {
            let item = self.take_back();
            self.put_front(item);
        }
    }
}

impl<T: Copy> Gap<T> {
    /// The value at `index`.
    pub(crate) fn get(&self, index: usize) -> T
        requires { IsGap self.now × (index < self.now.len) }
        ensures { slice_get (gap_list self.now) index ≡ Some result }
    {
        let place = self.place(index);
        let one = self.cells.slice(self.base, place, 1);
        one[0]
    }

    /// Writes over the value at `index`.
    pub(crate) fn set(&mut self, index: usize, item: T)
        requires { IsGap self.old × (index < self.old.len) }
        ensures { IsGap self.new × (self.new.capacity ≡ self.old.capacity) × (gap_list self.new ≡ slice_set (gap_list self.old) index item) }
    {
        let place = self.place(index);
        let _old = self.cells.read(self.base, place);
        self.cells.write(self.base, place, item);
    }

    /// Puts values behind the last one. Where the next one goes is kept in a local variable: the fields would be written and read again for
    /// each of them.
    pub(crate) fn append(&mut self, items: &[T])
        requires { IsGap self.old × (self.old.len + length items.now ≤ self.old.capacity) }
        ensures { Becomes self.old self.new (gap_list self.old ++ items.now) [] }
    {
        self.move_to(self.len);
        let mut place = self.front;
        for item in items {
            self.cells.write(self.base, place, *item);
            place += 1;
        }
        self.front = place;
        self.len = place;
    }

    /// The values from `from` on and before `to`, cut where the gap is.
    pub(crate) fn parts(&self, from: usize, to: usize) -> (&[T], &[T])
        requires { IsGap self.now × (from ≤ to) × (to ≤ self.now.len) }
        ensures { result.0.now ++ result.1.now ≡ slice_range (gap_list self.now) from to }
    {
        let middle = nearest(self.front, from, to);
        let gap = self.capacity - self.len;
        (
            self.cells.slice(self.base, from, middle - from),
            self.cells.slice(self.base, middle + gap, to - middle),
        )
    }

    /// The same values in a block of so many places, with the gap behind the last.
    pub(crate) fn copied(&self, capacity: usize) -> Result<Gap<T>, AllocError>
        requires { IsGap self.now × (self.now.len ≤ capacity) }
        ensures made { IfOk result (λ g. IsGap g × (g.capacity ≡ capacity) × (gap_list g ≡ gap_list self.now)) }
        ensures small { IfOk result (λ g. capacity * type_size T.row < 2 ^ 63) }
    {
        let mut wide = Gap::with_capacity(self.alloc, capacity)?;
        let (front, back) = self.parts(0, self.len);
        wide.append(front);
        wide.append(back);
        Ok(wide)
    }
}
