ghost use Rattle.std.specs.Prelude.{◌≡◌, ◌≤◌, IfSome, IfNone};
ghost use Rattle.bully_agree.specs.Leader.{IsLeader, NobodyNormal};
ghost use Rattle.bully_base.specs.declared.node.Status.TheVariants.{Normal};
ghost use Rattle.bully_world.specs.State.{IsReached, world_of};
ghost use Rattle.bully_world.specs.World.{vector};

use bully_base::{Node, Status};
use bully_world::World;

/// Who leads: the coordinator that all Normal nodes have, by the law of agreement; none where no node is Normal.
/// Takes no memory.
pub fn leader(world: &World) -> Option<Node>
    ensures leader { IsLeader (world_of world.now) result }
{
    world.vector(first_normal(world)?).coordinator()
}

/// The lowest node that is Normal; none where none is. Every world is reached by a lawful list.
pub(crate) fn first_normal(world: &World) -> Option<Node>
    ensures within { IfSome result (λ i. i ≤ world.now.setup.nodes) }
    ensures normal { IfSome result (λ i. (vector (world_of world.now) i).status ≡ Normal) }
    ensures none { IfNone result (NobodyNormal (world_of world.now)) }
    ensures reached { IsReached world.now }
{
    for before in 0..world.setup().nodes() {
        let node = Node::new(before + 1).unwrap();
        if world.vector(node).status() == Status::Normal {
            return Some(node);
        }
    }
    None
}
