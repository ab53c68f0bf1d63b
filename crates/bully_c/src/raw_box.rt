//! A box as its pointer, for what C holds.
ghost use Rattle.std.specs.Prelude.{◌≡◌, Option, None, Some, MatchOption};
ghost use Rattle.bully_c.specs.Ownership.{raw_box_owns};

use std::alloc::Global;
use std::marker::Model;
use std::ptr::null_mut;

/// A box as its pointer, which it owns, or null if there is none. To let it go without [`RawBox::into_box`] is to lose
/// the box.
pub struct RawBox<T> {
    pub at: *mut T,
    /// What lies there; none if the pointer is null.
    pub ghost value: { Option T },
}

impl<T> Model for RawBox<T> {
    ghost also_owns = { λ l. raw_box_owns T.row l.at l.value };
}

impl<T> RawBox<T> {
    /// Null.
    pub fn none() -> RawBox<T>
        ensures { result.value ≡ None }
    {
        RawBox { at: null_mut() }
    }

    /// The box as its pointer.
    pub fn of(value: Box<T>) -> RawBox<T>
    where
        T: Drop,
        ensures { result.value ≡ Some value.value }
    {
        RawBox {
            at: Box::into_raw(value),
        }
    }

    /// The box again; none of null. Its block goes back to the heap of C, of which there is one.
    pub fn into_box(self, alloc: Global) -> Option<Box<T>>
        ensures { MatchOption result (self.value ≡ None) (λ b. self.value ≡ Some b.value) }
    {
        let RawBox { at } = self;
        if at.is_null() {
            return None;
        }
        Some(unsafe { Box::from_raw(alloc, at) })
    }
}
