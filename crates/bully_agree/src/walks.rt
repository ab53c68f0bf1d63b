ghost use Rattle.std.specs.Prelude.{◌≡◌, ◌↔◌, None, Some, IfOk, IfErr, IsOk};
ghost use Rattle.bully_agree.specs.View.{IsViewed, ViewAgrees, view_of};
ghost use Rattle.bully_world.specs.State.{IsApplied, cause_in, first_state, world_of};
ghost use Rattle.bully_world.specs.World.{first_world};

use crate::views::View;
use crate::views::making::view;
use bully_base::{OutOfMemory, Setup};
use bully_calls::Answer;
use bully_world::{Event, Refused, World};
use std::alloc::Global;
use std::marker::Model;

/// A world that is taken on event by event, from the first one. A lawful list of as many events as it counts leads to
/// it, since the type of its world keeps that.
#[derive(Drop, Debug)]
pub struct Walk {
    world: World,
    alloc: Global, // which its world was made with
}

impl Model for Walk {
    ghost use Rattle.bully_world.specs.State.{WorldState};

    ghost Value = { WorldState };

    ghost view = { λ w. w.world };
}

impl Walk {
    /// A walk before any event. It reserves all memory that its events will need. Refused where an allocation fails.
    pub fn new(alloc: Global, setup: Setup) -> Result<Walk, OutOfMemory>
        ensures state { IfOk result (λ w. w ≡ first_state setup) }
        ensures first { IfOk result (λ w. world_of w ≡ first_world setup) }
    {
        Ok(Walk {
            world: World::new(alloc, setup)?,
            alloc,
        })
    }

    /// Takes the world on by the event, as [`World::apply`] does: the answer, or the first refusal, and then nothing
    /// has changed. It takes no memory.
    // (inlined, as `World::apply` is)
    #[inline(always)]
    pub fn apply(&mut self, event: &Event) -> Result<Answer, Refused>
        ensures applied { IfOk result (IsApplied self.old event.now self.new) }
        ensures exact { IsOk result ↔ (cause_in self.old event.now ≡ None) }
        ensures why { IfErr result (λ why. cause_in self.old event.now ≡ Some why) }
        ensures unchanged { IfErr result (λ _. self.new ≡ self.old) }
    {
        self.world.apply(event)
    }

    /// The world as it is now. It takes no memory.
    pub fn world(&self) -> &World
        ensures world { result.now ≡ self.now }
    {
        &self.world
    }

    /// The view of the world as it is now, with the allocator that the walk was made with. Refused where an allocation
    /// fails.
    pub fn view(&self) -> Result<View, OutOfMemory>
        ensures view { IfOk result (λ v. v ≡ view_of self.now.setup self.now.events (world_of self.now)) }
        ensures agrees { IfOk result ViewAgrees }
        ensures viewed { IfOk result IsViewed }
    {
        view(self.alloc, &self.world)
    }
}
