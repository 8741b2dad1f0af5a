//! Raw memory: where a block lies, its places, each empty or with a value in it, and the right to free it. No other file has
//! a raw pointer.
ghost use Rattle.std.specs.Prelude.{◌≡◌, ℕ, ◌+◌, ◌*◌, ◌^◌, ◌<◌, ◌≤◌, List, Option, Some, None, map, length, take, drop, replicate, get_or, slice_set, IfOk, ⊤};
ghost use Rattle.std.specs.Mem.{type_size};
ghost use Rattle.std.specs.Vec.Ownership.{FitsInBlock};
ghost use base.Fml.{ftrue};
ghost use denote.RawPtr.{Ptr};
ghost use Rattle.gapcol.specs.Places.{IsFilled, IsRun};
ghost use Rattle.gapcol.specs.Memory.{cells_owned, cells_lent, deed_owned};

use std::alloc::{AllocError, Allocator};
use std::marker::{Model, PhantomData, Send, Sync};
use std::mem::{align_of, size_of};
use std::slice;

/// Where the places begin. It owns nothing.
pub struct Base<T> {
    ptr: *mut T,
}

impl<T> Clone for Base<T> {
    ghost is_clone = { λ x y. y ≡ x };

    ghost is_infallible = { λ _. ⊤ };

    fn clone(&self) -> Result<Base<T>, AllocError> {
        Ok(*self)
    }
}

impl<T> Copy for Base<T> {}

unsafe impl<T> Send for Base<T> {}

unsafe impl<T> Sync for Base<T> {}

/// The places themselves, one behind the other. It takes no space: what it owns lies at the base. Let go, its values are
/// forgotten; the block isn't, since a deed can't be let go.
#[derive(Drop)]
pub struct Cells<T> {
    kind: PhantomData<*const T>,
    ghost at: { Ptr },
    ghost slots: { List (Option T) },
}

impl<T> Model for Cells<T> {
    ghost also_owns = { λ c. cells_owned T.row c.at c.slots };

    ghost also_shares = { λ c _ κ. cells_lent T.row c.at c.slots κ };
}

unsafe impl<T: Send> Send for Cells<T> {}

unsafe impl<T: Sync> Sync for Cells<T> {}

/// The right to give a block of `len` places back to the allocator that it is of. It takes no space.
pub struct Deed<T, A: Allocator> {
    kind: PhantomData<*const (T, A)>,
    ghost at: { Ptr },
    ghost len: { ℕ },
    ghost alloc: { A },
}

impl<T, A: Allocator> Model for Deed<T, A> {
    ghost also_owns = { λ d. deed_owned T.row (A.dealloc_token d.alloc) d.at d.len };

    ghost also_shares = { λ _ _ _. ftrue };
}

unsafe impl<T, A: Allocator + Send> Send for Deed<T, A> {}

// A lent deed frees nothing.
unsafe impl<T, A: Allocator> Sync for Deed<T, A> {}

/// A block of `len` empty places, which take a byte at least.
pub(crate) fn allocate<T, A: Allocator>(
    alloc: &A,
    len: usize,
) -> Result<(Base<T>, Cells<T>, Deed<T, A>), AllocError>
    requires { FitsInBlock T.row len × (0 < len * type_size T.row) }
    ensures { IfOk result (λ r. (r.1.at ≡ r.0.ptr) × (r.1.slots ≡ replicate len None) × (r.2.at ≡ r.0.ptr) × (r.2.len ≡ len) × (r.2.alloc ≡ alloc.now)) }
{
    let bytes = len * size_of::<T>();
    match alloc.allocate(bytes, align_of::<T>()) {
        Ok(block) => {
            let base = Base {
                ptr: block as *mut T,
            };
            let cells = Cells { kind: PhantomData };
            let deed = Deed { kind: PhantomData };
            Ok((base, cells, deed))
        }
        Err(refused) => Err(refused),
    }
}

/// Frees a block. What stands in its places is forgotten.
pub(crate) fn deallocate<T, A: Allocator>(
    alloc: &A,
    base: Base<T>,
    len: usize,
    cells: Cells<T>,
    deed: Deed<T, A>,
)
    requires { (cells.at ≡ base.ptr) × (length cells.slots ≡ len) × (deed.at ≡ base.ptr) × (deed.len ≡ len) × (deed.alloc ≡ alloc.now) }
{
    let Base { ptr } = base;
    let Cells { kind: _ } = cells;
    let Deed { kind: _ } = deed;
    let bytes = len * size_of::<T>();
    unsafe { alloc.deallocate(ptr as *mut u8, bytes, align_of::<T>()) }
}

/// Places that take no bytes lie anywhere, and no block has to be asked for.
pub(crate) fn nowhere<T>(len: usize) -> (Base<T>, Cells<T>)
    requires { len * type_size T.row ≡ 0 }
    ensures { (result.1.at ≡ result.0.ptr) × (result.1.slots ≡ replicate len None) }
{
    let mut here = 0u8;
    let base = Base {
        ptr: &raw mut here as *mut T,
    };
    (base, Cells { kind: PhantomData })
}

impl<T> Cells<T> {
    /// Fills an empty place.
    pub(crate) fn write(&mut self, base: Base<T>, index: usize, item: T)
        requires { (base.ptr ≡ self.old.at) × (index < length self.old.slots) × (get_or self.old.slots index None ≡ None) }
        ensures { (self.new.at ≡ self.old.at) × (self.new.slots ≡ slice_set self.old.slots index (Some item)) }
    {
        unsafe { base.ptr.add(index).write(item) }
    }

    /// Empties a filled place.
    pub(crate) fn read(&mut self, base: Base<T>, index: usize) -> T
        requires { (base.ptr ≡ self.old.at) × IsFilled self.old.slots index }
        ensures value { get_or self.old.slots index None ≡ Some result }
        ensures slots { (self.new.at ≡ self.old.at) × (self.new.slots ≡ slice_set self.old.slots index None) }
    {
        unsafe { base.ptr.add(index).read() }
    }

    /// The `len` filled places from `from` on, lent.
    pub(crate) fn slice(&self, base: Base<T>, from: usize, len: usize) -> &[T]
        requires { (base.ptr ≡ self.now.at) × IsRun self.now.slots from len }
        ensures { take len (drop from self.now.slots) ≡ map Some result.now }
    {
        unsafe { slice::from_raw_parts(base.ptr.add(from), len) }
    }
}
