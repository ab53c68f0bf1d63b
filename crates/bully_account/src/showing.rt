ghost use Rattle.std.specs.Prelude.{◌≡◌, ◌≤◌, [], IfOk, OnOk};
ghost use Rattle.bully_account.specs.NodeSummary.{Shows, ShowsAll, shown_in};

use crate::{EventKind, possible_now};
use bully_base::{Node, NodeSet, OutOfMemory, Status};
use bully_calls::PendingCall;
use bully_steps::{Point, Want};
use bully_trace::offer_of;
use bully_world::World;
use std::alloc::Global;

/// What a sheet shows of a node: its vector but for the task, its generation, its point with what that offers, and the
/// call in its slot.
#[derive(Clone, Copy)]
pub struct NodeSummary {
    pub status: Status,
    pub coordinator: Option<Node>,
    pub halter: Option<Node>,
    pub up: NodeSet,
    /// How often the node was halted or crashed.
    pub generation: u32,
    pub point: Point,
    pub offer: Want,
    pub call: Option<PendingCall>,
}

/// What a sheet tells of a node: what is shown of it, and the kinds of event that nothing refuses now, in the order of
/// the profile's table of rows.
#[derive(Drop)]
pub struct NodeSheet {
    pub shown: NodeSummary,
    pub possible: Vec<EventKind>,
}

/// What the world has of each node, from node 1 on. Refused where an allocation fails.
pub fn node_sheets(alloc: Global, world: &World) -> Result<Vec<NodeSheet>, OutOfMemory>
    ensures { IfOk result (λ sheets. ShowsAll world.now sheets.items) }
{
    let mut sheets = Vec::with_capacity(alloc, usize::from(world.setup().nodes()))?;
    push_sheets(alloc, &mut sheets, world)?;
    Ok(sheets)
}

// Appends what the world has of each node.
fn push_sheets(alloc: Global, sheets: &mut Vec<NodeSheet>, world: &World) -> Result<(), OutOfMemory>
    requires { sheets.old.items ≡ [] }
    ensures { OnOk result (ShowsAll world.now sheets.new.items) }
{
    for before in 0..world.setup().nodes() {
        let node = Node::new(before + 1).unwrap();
        sheets.push(node_sheet(alloc, world, node)?)?;
    }
    Ok(())
}

/// What the world has of the node, which is at most the setup's last. Refused where an allocation fails.
pub fn node_sheet(alloc: Global, world: &World, node: Node) -> Result<NodeSheet, OutOfMemory>
    requires { node ≤ world.now.setup.nodes }
    ensures { IfOk result (Shows world.now node) }
{
    let possible = possible_now(alloc, world, node)?;
    let shown = shown_of(world, node);
    Ok(NodeSheet { shown, possible })
}

/// What is shown of the node, which is at most the setup's last.
pub fn shown_of(world: &World, node: Node) -> NodeSummary
    requires { node ≤ world.now.setup.nodes }
    ensures { result ≡ shown_in world.now node }
{
    let vector = world.vector(node);
    NodeSummary {
        status: vector.status(),
        coordinator: vector.coordinator(),
        halter: vector.halter(),
        up: *vector.up(),
        generation: world.generation(node),
        point: world.point(node),
        offer: offer_of(world, node),
        call: world.slot(node).pending(world.generation(node)),
    }
}
