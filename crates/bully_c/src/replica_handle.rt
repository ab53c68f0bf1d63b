//! What C holds of a replica.
ghost use Rattle.std.specs.Prelude.{◌≡◌, Option, None, Some, MatchOption};
ghost use Rattle.bully_replica.specs.RowReplica.{RowReplicaState};

use crate::raw_box::RawBox;
use bully_replica::RowReplica;
use std::alloc::Global;
use std::marker::Model;

/// A pointer to what is kept of a replica, which the handle owns, or null if the handle is closed.
#[repr(C)]
pub struct ReplicaHandle {
    at: *mut u8,
    pub ghost value: { Option RowReplicaState },
}

impl Model for ReplicaHandle {
    ghost use Rattle.std.specs.Prelude.{Option};
    ghost use Rattle.bully_c.specs.Ownership.{raw_box_owns};
    ghost use Rattle.bully_replica.specs.contracts.row_replica.RowReplica.{the_row};

    ghost also_owns = { λ h. raw_box_owns the_row h.at h.value };
}

impl ReplicaHandle {
    // Puts `with` in the place of what the handle has.
    fn swap(&mut self, with: RawBox<RowReplica>) -> RawBox<RowReplica>
        ensures now { self.new.value ≡ with.value }
        ensures before { result.value ≡ self.old.value }
    {
        let RawBox { at } = with;
        let before = self.at as *mut RowReplica;
        self.at = at as *mut u8;
        RawBox { at: before }
    }

    /// Takes what the handle has, and leaves it closed.
    pub fn take(&mut self, alloc: Global) -> Option<Box<RowReplica>>
        ensures taken { MatchOption result (self.old.value ≡ None) (λ held. self.old.value ≡ Some held.value) }
        ensures closed { self.new.value ≡ None }
    {
        self.swap(RawBox::none()).into_box(alloc)
    }

    /// Puts this in, and drops what was there.
    pub fn put(&mut self, alloc: Global, held: Box<RowReplica>)
        ensures { self.new.value ≡ Some held.value }
    {
        drop(self.swap(RawBox::of(held)).into_box(alloc));
    }
}
