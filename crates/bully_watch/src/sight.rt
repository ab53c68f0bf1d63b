//! What an observer reads of the copy of the world that is shown.
ghost use Rattle.std.specs.Prelude.{◌≡◌, ◌≤◌, ◌<◌, IfOk, MatchOption};
ghost use Rattle.bully_agree.specs.View.{view_of};
ghost use Rattle.bully_watch.specs.Sight.{glance_in, IsLeaderIn};
ghost use Rattle.bully_world.specs.State.{WorldState, world_of};

use crate::glance::{Glance, Leader};
use bully_agree::{View, leader, view};
use bully_base::{Node, OutOfMemory};
use bully_world::World;
use std::alloc::Global;

/// What is read.
pub trait Sight {
    /// What comes of it.
    type Seen;

    ghost use Rattle.bully_world.specs.State.{WorldState};

    // What comes of reading a world.
    ghost sees: { Self → WorldState → Self.Seen → Type 0 };

    fn read(&self, world: &World) -> Self::Seen
        ensures { sees self.now world.now result };
}

/// The view of the world, in this memory.
#[derive(Clone, Copy)]
pub struct WholeView {
    pub alloc: Global,
}

impl Sight for WholeView {
    type Seen = Result<View, OutOfMemory>;

    ghost use Rattle.std.specs.Prelude.{◌≡◌, IfOk};
    ghost use Rattle.bully_agree.specs.View.{view_of};
    ghost use Rattle.bully_world.specs.State.{world_of};

    ghost sees = { λ _ w seen. IfOk seen (λ v. v ≡ view_of w.setup w.events (world_of w)) };

    fn read(&self, world: &World) -> Result<View, OutOfMemory> {
        view(self.alloc, world)
    }
}

/// A glance at this node; none where the group has no such node.
#[derive(Clone, Copy)]
pub struct OfNode {
    pub node: Node,
}

impl Sight for OfNode {
    type Seen = Option<Glance>;

    ghost use Rattle.std.specs.Prelude.{◌≡◌, ◌≤◌, ◌<◌, MatchOption};
    ghost use Rattle.bully_watch.specs.Sight.{glance_in};

    ghost sees = { λ s w seen. MatchOption seen (w.setup.nodes < s.node) (λ g. (s.node ≤ w.setup.nodes)
        × (g ≡ glance_in w s.node)) };

    fn read(&self, world: &World) -> Option<Glance> {
        if self.node.number() > world.setup().nodes() {
            return None;
        }
        let vector = world.vector(self.node);
        Some(Glance {
            events: world.events(),
            status: vector.status(),
            coordinator: vector.coordinator(),
        })
    }
}

/// Who leads.
#[derive(Clone, Copy)]
pub struct OfLeader;

impl Sight for OfLeader {
    type Seen = Leader;

    ghost use Rattle.bully_watch.specs.Sight.{IsLeaderIn};

    ghost sees = { λ _. IsLeaderIn };

    fn read(&self, world: &World) -> Leader {
        Leader {
            events: world.events(),
            node: leader(world),
        }
    }
}
