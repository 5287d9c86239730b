//! A box as its raw pointer.
ghost use Rattle.std.specs.Prelude.{◌≡◌};
ghost use Rattle.std_alloc.specs.Box.Ownership.{box_owns};

use std::alloc::Allocator;
use std::marker::Model;

/// A box that was taken apart: it owns the value at `pointer`, and the right to free its block.
pub(crate) struct LooseBox<T, A: Allocator> {
    pub(crate) pointer: *mut T,
    pub(crate) alloc: A,
    pub(crate) ghost value: { T },
}

impl<T, A: Allocator> Model for LooseBox<T, A> {
    ghost also_owns = { λ l. box_owns (A.dealloc_token l.alloc) T.row l.pointer l.value };
}

impl<T: Drop, A: Allocator> LooseBox<T, A> {
    /// Takes a box apart. The value stays where it lies.
    pub(crate) fn from_box(value: Box<T, A>) -> LooseBox<T, A>
        ensures { (result.value ≡ value.value) }
    {
        let (pointer, alloc) = Box::into_raw_with_allocator(value);
        LooseBox { pointer, alloc }
    }
}

impl<T, A: Allocator> LooseBox<T, A> {
    /// Makes the box again.
    pub(crate) fn into_box(self) -> Box<T, A>
        ensures { result.value ≡ self.value }
    {
        let LooseBox { pointer, alloc } = self;
        unsafe { Box::from_raw(alloc, pointer) }
    }
}
