//! A block of memory as a row of cells, each empty or with a value.

ghost use Rattle.std.specs.Prelude.{◌≡◌, ℕ, ◌<◌, List, Option, Some, None, length, replicate, get_or, slice_set, IfOk, ⊤};
ghost use Rattle.std.specs.Vec.Ownership.{FitsInBlock};
ghost use base.Fml.{ftrue};
ghost use denote.RawPtr.{Ptr};
ghost use Rattle.pct_stack.specs.Cells.{IsFilled};
ghost use Rattle.pct_stack.specs.Ownership.{block_owns, block_lent, right_owns};

use std::alloc::{AllocError, Allocator};
use std::marker::{Model, PhantomData, Send, Sync};
use std::mem::{align_of, size_of};

/// The address of the first cell. It owns nothing.
pub struct BlockStart<T> {
    ptr: *mut T,
}

impl<T> Clone for BlockStart<T> {
    ghost is_clone = { λ x y. y ≡ x };

    ghost is_infallible = { λ _. ⊤ };

    fn clone(&self) -> Result<BlockStart<T>, AllocError> {
        Ok(*self)
    }
}

impl<T> Copy for BlockStart<T> {}

unsafe impl<T> Send for BlockStart<T> {}

unsafe impl<T> Sync for BlockStart<T> {}

/// The owner of the cells from `at` on. It has no bytes: who has it keeps the address beside it.
pub struct Cells<T> {
    mark: PhantomData<*const T>,
    ghost at: { Ptr },
    ghost values: { List (Option T) },
}

impl<T> Model for Cells<T> {
    ghost also_owns = { λ c. block_owns T.row c.at c.values };

    ghost also_shares = { λ c _ κ. block_lent T.row c.at c.values κ };
}

unsafe impl<T: Send> Send for Cells<T> {}

unsafe impl<T: Sync> Sync for Cells<T> {}

/// The right to give the block of `len` cells at `at` back to `alloc`. It has no bytes.
pub struct FreeRight<T, A: Allocator> {
    mark: PhantomData<*const (T, A)>,
    ghost at: { Ptr },
    ghost len: { ℕ },
    ghost alloc: { A },
}

impl<T, A: Allocator> Model for FreeRight<T, A> {
    ghost also_owns = { λ d. right_owns T.row (A.dealloc_token d.alloc) d.at d.len };

    ghost also_shares = { λ _ _ _. ftrue };
}

unsafe impl<T, A: Allocator + Send> Send for FreeRight<T, A> {}

// A `&` to it holds nothing.
unsafe impl<T, A: Allocator> Sync for FreeRight<T, A> {}

/// A block of `len` empty cells.
pub(crate) fn allocate<T, A: Allocator>(
    alloc: &A,
    len: usize,
) -> Result<(BlockStart<T>, Cells<T>, FreeRight<T, A>), AllocError>
    requires { FitsInBlock T.row len }
    ensures { IfOk result (λ r. (r.1.at ≡ r.0.ptr) × (r.1.values ≡ replicate len None) × (r.2.at ≡ r.0.ptr) × (r.2.len ≡ len) × (r.2.alloc ≡ alloc.now)) }
{
    match alloc.allocate(len * size_of::<T>(), align_of::<T>()) {
        Ok(block) => {
            let start = BlockStart {
                ptr: block as *mut T,
            };
            Ok((
                start,
                Cells { mark: PhantomData },
                FreeRight { mark: PhantomData },
            ))
        }
        Err(error) => Err(error),
    }
}

/// Frees a block. The values in its cells are forgotten.
pub(crate) fn deallocate<T, A: Allocator>(
    alloc: &A,
    start: BlockStart<T>,
    len: usize,
    cells: Cells<T>,
    right: FreeRight<T, A>,
)
    requires { (cells.at ≡ start.ptr) × (length cells.values ≡ len) × (right.at ≡ start.ptr) × (right.len ≡ len) × (right.alloc ≡ alloc.now) }
{
    let Cells { mark: _ } = cells;
    let FreeRight { mark: _ } = right;
    unsafe {
        alloc.deallocate(start.ptr as *mut u8, len * size_of::<T>(), align_of::<T>());
    }
}

impl<T> Cells<T> {
    /// Puts a value into a cell. A value that was there is forgotten.
    #[inline(always)]
    pub(crate) fn write(&mut self, start: BlockStart<T>, index: usize, value: T)
        requires { (start.ptr ≡ self.old.at) × (index < length self.old.values) }
        ensures { (self.new.at ≡ self.old.at) × (self.new.values ≡ slice_set self.old.values index (Some value)) }
    {
        unsafe { start.ptr.add(index).write(value) }
    }

    /// The value of a cell that has one.
    #[inline(always)]
    pub(crate) fn get(&self, start: BlockStart<T>, index: usize) -> &T
        requires { (start.ptr ≡ self.now.at) × IsFilled self.now.values index }
        ensures { get_or self.now.values index None ≡ Some result.now }
    {
        unsafe { &*start.ptr.add(index) }
    }
}
