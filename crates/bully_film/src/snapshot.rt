//! How a node stands in a world.
ghost use Rattle.std.specs.Prelude.{◌≡◌, ◌≤◌, [], IfOk, vec_capacity};
ghost use Rattle.bully_film.specs.Scene.{snapshot, snapshots_of, unseen};
ghost use Rattle.bully_world.specs.State.{world_of};

use bully_base::{Node, OutOfMemory, Status};
use bully_calls::PendingCall;
use bully_world::World;
use std::alloc::Global;

/// A node as the world shows it: its status, its coordinator, and the call in its slot.
#[derive(Clone, Copy)]
pub struct NodeSnapshot {
    pub status: Status,
    pub coordinator: Option<Node>,
    pub call: Option<PendingCall>,
}

/// What the world shows of the node; nothing but that it is down where the group doesn't have it.
// (out of line: so what it answers is copied as a whole, and not field by field)
#[inline(never)]
pub fn snapshot_of(world: &World, node: Node) -> NodeSnapshot
    ensures { result ≡ snapshot (world_of world.now) node }
{
    if node.number() > world.setup().nodes() {
        return unseen();
    }
    let vector = world.vector(node);
    NodeSnapshot {
        status: vector.status(),
        coordinator: vector.coordinator(),
        call: world.slot(node).pending(world.generation(node)),
    }
}

/// What the world shows of a node, where it shows this of another one, which is mostly the same.
#[inline(always)]
pub fn snapshot_beside(world: &World, node: Node, known: Node, shown: &NodeSnapshot) -> NodeSnapshot
    requires { shown.now ≡ snapshot (world_of world.now) known }
    ensures { result ≡ snapshot (world_of world.now) node }
{
    if node == known {
        return *shown;
    }
    snapshot_of(world, node)
}

/// What is seen of a node that a group doesn't have.
pub fn unseen() -> NodeSnapshot
    ensures { result ≡ unseen }
{
    NodeSnapshot {
        status: Status::Down,
        coordinator: None,
        call: None,
    }
}

/// How the nodes of the world stand, from node 1 on. Refused where an allocation fails.
pub fn snapshots(alloc: Global, world: &World) -> Result<Vec<NodeSnapshot>, OutOfMemory>
    ensures { IfOk result (λ v. v.items ≡ snapshots_of (world_of world.now) 1 world.now.setup.nodes) }
{
    let mut snapshots = Vec::with_capacity(alloc, usize::from(world.setup().nodes()))?;
    push_snapshots(&mut snapshots, world);
    Ok(snapshots)
}

// Appends how each node stands, for which there is room.
fn push_snapshots(snapshots: &mut Vec<NodeSnapshot>, world: &World)
    requires empty { snapshots.old.items ≡ [] }
    requires room { world.now.setup.nodes ≤ vec_capacity snapshots.old }
    ensures { snapshots.new.items ≡ snapshots_of (world_of world.now) 1 world.now.setup.nodes }
{
    for before in 0..world.setup().nodes() {
        let node = Node::new(before + 1).unwrap();
        let NodeSnapshot {
            status,
            coordinator,
            call,
        } = snapshot_of(world, node);
        snapshots.push_reserved(NodeSnapshot {
            status,
            coordinator,
            call,
        });
    }
}
