ghost use Rattle.std.specs.Prelude.{◌≡◌, ◌≤◌, List, ℕ, Option, map, length, IfOk};
ghost use Rattle.std.specs.Option.{option_copied};
ghost use Rattle.bully_agree.specs.NodeViews.{IsNormalTask, kept_by, kept_of, shown_with};
ghost use Rattle.bully_agree.specs.View.{nothing_shown, shown_of};
ghost use Rattle.bully_base.specs.Places.{at_node};
ghost use Rattle.bully_world.specs.State.{world_of};

use crate::leading::first_normal;
use bully_base::{Node, OutOfMemory, Status};
use bully_handlers::Vector;
use bully_table::{Table, copied};
use bully_world::World;
use std::alloc::Global;
use std::marker::Model;

/// What is kept of one node.
#[derive(Drop, Debug)]
pub struct KeptNode {
    pub status: Status,
    pub coordinator: Option<Node>,
    pub task: Option<Table>, // its own; none where it is Normal
}

/// What is shown of all nodes. All that are Normal have one task, by the law of agreement, which is kept once: so a
/// view costs no copy of a table for each of them.
#[derive(Drop, Debug)]
pub(super) struct NodeViews {
    normal: Option<Table>, // the task of the Normal nodes
    nodes: Vec<KeptNode>,
}

impl Model for NodeViews {
    ghost use Rattle.std.specs.Prelude.{List, map};
    ghost use Rattle.bully_agree.specs.View.{NodeView};
    ghost use Rattle.bully_agree.specs.NodeViews.{shown_with};

    ghost Value = { List NodeView };

    ghost view = { λ v. map (shown_with v.normal) v.nodes.items };
}

impl NodeViews {
    /// What is shown of all nodes of the world. Refused where an allocation fails.
    pub(super) fn of(alloc: Global, world: &World) -> Result<NodeViews, OutOfMemory>
        ensures { IfOk result (λ nodes. nodes ≡ map shown_of (world_of world.now).states) }
    {
        Ok(NodeViews {
            normal: copied(normal_task(world))?,
            nodes: kept_nodes(alloc, world)?,
        })
    }

    /// The node's status. The node has a place.
    pub(super) fn status(&self, node: Node) -> Status
        requires { node ≤ length self.now }
        ensures { result ≡ (at_node nothing_shown self.now node).status }
    {
        kept(&self.nodes, node).status
    }

    /// The node's coordinator. The node has a place.
    pub(super) fn coordinator(&self, node: Node) -> Option<Node>
        requires { node ≤ length self.now }
        ensures { result ≡ (at_node nothing_shown self.now node).coordinator }
    {
        kept(&self.nodes, node).coordinator
    }

    /// The node's task. The node has a place.
    pub(super) fn task(&self, node: Node) -> Option<&Table>
        requires { node ≤ length self.now }
        ensures { option_copied result ≡ (at_node nothing_shown self.now node).task }
    {
        let kept = kept(&self.nodes, node);
        match kept.status {
            Status::Normal => self.normal.as_ref(),
            _ => kept.task.as_ref(),
        }
    }
}

// What is kept of the node.
fn kept(nodes: &[KeptNode], node: Node) -> &KeptNode
    requires { node ≤ length nodes.now }
    ensures { (normal : Option (List ℕ))
        → shown_with normal result.now ≡ at_node nothing_shown (map (shown_with normal) nodes.now) node }
{
    &nodes[usize::from(node.number() - 1)]
}

// The task that all Normal nodes have; none where no node is Normal.
fn normal_task(world: &World) -> Option<&Table>
    ensures { IsNormalTask (world_of world.now) (option_copied result) }
{
    world.vector(first_normal(world)?).task()
}

// What is kept of all nodes.
fn kept_nodes(alloc: Global, world: &World) -> Result<Vec<KeptNode>, OutOfMemory>
    ensures { IfOk result (λ nodes. nodes.items ≡ map kept_of (world_of world.now).states) }
{
    let mut nodes = Vec::with_capacity(alloc, usize::from(world.setup().nodes()))?;
    for before in 0..world.setup().nodes() {
        let node = Node::new(before + 1).unwrap();
        nodes.push(kept_by(world.vector(node))?)?;
    }
    Ok(nodes)
}

// What is kept of a node with this vector.
fn kept_by(vector: &Vector) -> Result<KeptNode, OutOfMemory>
    ensures { IfOk result (λ k. k ≡ kept_by vector.now.vector) }
{
    let status = vector.status();
    Ok(KeptNode {
        status,
        coordinator: vector.coordinator(),
        task: match status {
            Status::Normal => None,
            _ => copied(vector.task())?,
        },
    })
}
