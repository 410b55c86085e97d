//! The block of a `Vec`, separated from the `Vec`: where it begins, and the right to read and free
//! it.

ghost use Rattle.std.specs.Prelude.{◌≡◌, ℕ, List, ◌<◌, ◌≤◌, length, ⊤};
ghost use Rattle.std.specs.Vec.{vec_ptr, vec_capacity, vec_allocator};
ghost use Rattle.std.specs.Vec.Ownership.{vec_owns, vec_shares};
ghost use base.Fml.{ftrue};
ghost use denote.RawPtr.{Ptr};

use std::alloc::{AllocError, Allocator};
use std::marker::{Model, Move, Owns, PhantomData, Send, Sync};
use std::mem::{ManuallyDrop, align_of, size_of};
use std::slice;

/// The address of a block. It owns nothing.
pub(crate) struct Base<T> {
    pub(crate) ptr: *const T,
}

impl<T> Clone for Base<T> {
    ghost is_clone = { λ x y. y ≡ x };

    ghost is_infallible = { λ _. ⊤ };

    fn clone(&self) -> Result<Base<T>, AllocError> {
        Ok(*self)
    }
}

impl<T> Copy for Base<T> {}

unsafe impl<T> Send for Base<T> {}

unsafe impl<T> Sync for Base<T> {}

/// The owner of the block at `at`, which has `cap` places, of which the first hold `items`, and the
/// right to free it. It takes no bytes. If `cap` is 0 there is no block.
pub(crate) struct Deed<T, A: Allocator> {
    mark: PhantomData<*const (T, A)>,
    pub(crate) ghost at: { Ptr },
    pub(crate) ghost cap: { ℕ },
    pub(crate) ghost items: { List T },
    pub(crate) ghost alloc: { A },
    ghost fit: { length items ≤ cap },
}

impl<T, A: Allocator> Model for Deed<T, A> {
    ghost also_owns = { λ d.
        vec_owns (A.dealloc_token d.alloc) T.row d.at (length d.items) d.cap d.items };

    ghost also_shares = { λ d _ κ. vec_shares T.row d.at (length d.items) d.cap d.items κ };
}

unsafe impl<T: Send, A: Allocator + Send> Send for Deed<T, A> {}

unsafe impl<T: Sync, A: Allocator> Sync for Deed<T, A> {}

/// The bits of a value whose memory has another owner now. It owns nothing.
struct Husk<V> {
    _value: V,
}

impl<V> Owns for Husk<V> {
    ghost Value = { Unit {0} };

    ghost shr_at = { λ _ _ _. ftrue };
}

impl<V> Move for Husk<V> {
    ghost own_val = { λ _ _. ftrue };
}

// The block, and what is left of the `Vec`.
fn part<T, A: Allocator>(vec: Vec<T, A>) -> (Deed<T, A>, Husk<Vec<T, A>>)
    ensures at { result.0.at ≡ vec_ptr vec }
    ensures cap { result.0.cap ≡ vec_capacity vec }
    ensures items { result.0.items ≡ vec.items }
    ensures alloc { result.0.alloc ≡ vec_allocator vec }
{
    (Deed { mark: PhantomData }, Husk { _value: vec })
}

impl<T, A: Allocator> Deed<T, A> {
    /// The block of a `Vec`, which is consumed.
    pub(crate) fn of(vec: Vec<T, A>) -> Deed<T, A>
        ensures at { result.at ≡ vec_ptr vec }
        ensures cap { result.cap ≡ vec_capacity vec }
        ensures items { result.items ≡ vec.items }
        ensures alloc { result.alloc ≡ vec_allocator vec }
    {
        let (deed, husk) = part(vec);
        let _forgotten = unsafe { ManuallyDrop::new_unchecked(husk) };
        deed
    }

    /// The items.
    pub(crate) fn read(&self, base: Base<T>, len: usize) -> &[T]
        requires at { base.ptr ≡ self.now.at }
        requires len { len ≡ length self.now.items }
        ensures { result.now ≡ self.now.items }
    {
        unsafe { slice::from_raw_parts(base.ptr, len) }
    }

    /// Frees the block. The items are not dropped.
    pub(crate) fn free(self, alloc: &A, base: Base<T>, cap: usize)
        requires block { 0 < cap }
        requires at { base.ptr ≡ self.at }
        requires cap { cap ≡ self.cap }
        requires alloc { alloc.now ≡ self.alloc }
    {
        let Deed { mark: _ } = self;
        unsafe {
            alloc.deallocate(base.ptr as *mut u8, cap * size_of::<T>(), align_of::<T>());
        }
    }
}
