//! What C holds of an agent.
ghost use Rattle.std.specs.Prelude.{◌≡◌, Option, None, Some, MatchOption};
ghost use Rattle.bully_c.specs.declared.held_agent.HeldAgent.{HeldAgent};

use crate::held_agent::HeldAgent;
use crate::raw_box::RawBox;
use std::alloc::Global;
use std::marker::Model;

/// A pointer to what is kept of an agent, which the handle owns, or null if the handle is closed.
#[repr(C)]
pub struct AgentHandle {
    at: *mut u8,
    pub ghost value: { Option HeldAgent },
}

impl Model for AgentHandle {
    ghost use Rattle.std.specs.Prelude.{Option};
    ghost use Rattle.bully_c.specs.Ownership.{raw_box_owns};
    ghost use Rattle.bully_c.specs.contracts.held_agent.HeldAgent.{the_row};

    ghost also_owns = { λ h. raw_box_owns the_row h.at h.value };
}

impl AgentHandle {
    // Puts `with` in the place of what the handle has.
    fn swap(&mut self, with: RawBox<HeldAgent>) -> RawBox<HeldAgent>
        ensures now { self.new.value ≡ with.value }
        ensures before { result.value ≡ self.old.value }
    {
        let RawBox { at } = with;
        let before = self.at as *mut HeldAgent;
        self.at = at as *mut u8;
        RawBox { at: before }
    }

    /// Takes what the handle has, and leaves it closed.
    pub fn take(&mut self, alloc: Global) -> Option<Box<HeldAgent>>
        ensures taken { MatchOption result (self.old.value ≡ None) (λ held. self.old.value ≡ Some held.value) }
        ensures closed { self.new.value ≡ None }
    {
        self.swap(RawBox::none()).into_box(alloc)
    }

    /// Puts this in, and drops what was there.
    pub fn put(&mut self, alloc: Global, held: Box<HeldAgent>)
        ensures { self.new.value ≡ Some held.value }
    {
        drop(self.swap(RawBox::of(held)).into_box(alloc));
    }
}
