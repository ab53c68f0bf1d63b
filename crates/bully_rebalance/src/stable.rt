ghost use Rattle.std.specs.Prelude.{◌↔◌, ◌≤◌, IsTrue};
ghost use Rattle.bully_rebalance.specs.Stable.{AllStable, IsStable, IsServed, OwnersAreLive, IsStableIn};
ghost use Rattle.bully_world.specs.State.{world_of};
ghost use Rattle.bully_world.specs.World.{vector};

use bully_base::{Node, NodeSet, Status};
use bully_replica::Replica;
use bully_table::Table;
use bully_world::World;

/// Whether the group is stable among the live nodes, for this offset: these nodes are Normal under the highest of them,
/// all others are Down, and, if any node is live, the log's last plan is at or after the offset and gives partitions to
/// live nodes alone. The rule: docs/REBALANCING.md.
pub fn is_stable(replica: &Replica, live: &NodeSet, offset: u32) -> bool
    ensures { IsTrue result ↔ IsStable replica.now live.now offset }
{
    all_stable(replica.world(), live) && (live.is_empty() || is_served(replica, live, offset))
}

// Whether the last plan is at or after this offset, and its owners are live.
fn is_served(replica: &Replica, live: &NodeSet, offset: u32) -> bool
    ensures { IsTrue result ↔ IsServed replica.now.last live.now offset }
{
    match replica.last_table() {
        Some(table) => offset < replica.token() && are_live(table, live),
        None => false,
    }
}

fn are_live(table: &Table, live: &NodeSet) -> bool
    ensures { IsTrue result ↔ OwnersAreLive table.now live.now }
{
    for partition in 0..table.len() {
        if !live.has(table.owner(partition)) {
            return false;
        }
    }
    true
}

fn all_stable(world: &World, live: &NodeSet) -> bool
    ensures { IsTrue result ↔ AllStable (world_of world.now) world.now.setup live.now }
{
    for before in 0..world.setup().nodes() {
        let node = Node::new(before + 1).unwrap();
        if !is_stable_in(world, live, node) {
            return false;
        }
    }
    true
}

fn is_stable_in(world: &World, live: &NodeSet, node: Node) -> bool
    requires { node ≤ world.now.setup.nodes }
    ensures { IsTrue result ↔ IsStableIn live.now node (vector (world_of world.now) node) }
{
    let vector = world.vector(node);
    if live.has(node) {
        vector.status() == Status::Normal && vector.coordinator() == live.highest()
    } else {
        vector.status() == Status::Down
    }
}
