//! What a row changed of what its nodes show.
ghost use Rattle.std.specs.Prelude.{◌≡◌, ◌||◌, IfSome, None, is_some, nat_le};
ghost use Rattle.bully_world.specs.State.{world_of};
ghost use Rattle.bully_world.specs.World.{vector};

use bully_base::{Node, OutOfMemory, Status};
use bully_calls::{Call, CallKind, EventKind, NodeEventKind};
use bully_handlers::Vector;
use bully_table::{Table, copied};
use bully_trace::same_task;
use bully_world::World;

/// What a node showed before a row: its status, its coordinator, and its task, where the row may change that.
#[derive(Drop)]
pub struct Seen {
    pub node: Node,
    status: Status,
    coordinator: Option<Node>,
    task: Option<Option<Table>>,
}

/// What the nodes that an event may change show before it: the one that it names, and of a run the callee, too.
#[derive(Drop)]
pub struct SeenBefore {
    named: Option<Seen>,
    callee: Option<Seen>,
}

/// Which nodes an event changed.
#[derive(Clone, Copy)]
pub struct Changed {
    pub named: Option<Node>,
    pub callee: Option<Node>,
}

impl Changed {
    /// No node.
    pub fn none() -> Changed
        ensures named { result.named ≡ None }
        ensures callee { result.callee ≡ None }
    {
        Changed {
            named: None,
            callee: None,
        }
    }

    /// Whether there is one.
    pub fn is_any(self) -> bool
        ensures { result ≡ (is_some self.named || is_some self.callee) }
    {
        self.named.is_some() || self.callee.is_some()
    }
}

impl SeenBefore {
    /// What is seen before an event of this kind that names this node. Refused where an allocation fails.
    pub fn of(world: &World, kind: EventKind, node: Node) -> Result<SeenBefore, OutOfMemory> {
        let callee = match call_that_runs(world, kind, node) {
            Some(call) => Seen::of(world, call.callee, call.kind == CallKind::Ready)?,
            None => None,
        };
        Ok(SeenBefore {
            named: Seen::of(world, node, may_change_task(kind))?,
            callee,
        })
    }

    /// Which of the nodes show something else now.
    pub fn changed(&self, world: &World) -> Changed {
        Changed {
            named: changed_node(&self.named, world),
            callee: changed_node(&self.callee, world),
        }
    }
}

/// The vector of the node; none of one that the group doesn't have.
pub fn vector_of(world: &World, node: Node) -> Option<&Vector>
    ensures test { is_some result ≡ nat_le node world.now.setup.nodes }
    ensures vector { IfSome result (λ shown. shown.now.vector ≡ vector (world_of world.now) node) }
{
    if node.number() > world.setup().nodes() {
        return None;
    }
    Some(world.vector(node))
}

// The call that an event of this kind at the node lets run.
fn call_that_runs(world: &World, kind: EventKind, node: Node) -> Option<Call> {
    if kind != EventKind::Node(NodeEventKind::Run) || node.number() > world.setup().nodes() {
        return None;
    }
    world.slot(node).call()
}

// Whether an event of this kind may change the task of the node that it names.
fn may_change_task(kind: EventKind) -> bool {
    match kind {
        EventKind::Plan
        | EventKind::Node(NodeEventKind::Crash)
        | EventKind::Node(NodeEventKind::Recover) => true,
        EventKind::Node(_) => false,
    }
}

// The node, if it shows something else now.
fn changed_node(seen: &Option<Seen>, world: &World) -> Option<Node> {
    match seen {
        Some(seen) if seen.is_changed(world) => Some(seen.node),
        _ => None,
    }
}

impl Seen {
    // What the node shows, with its task if that may change; none of a node that the group doesn't have. Refused where
    // an allocation fails.
    fn of(world: &World, node: Node, with_task: bool) -> Result<Option<Seen>, OutOfMemory> {
        let Some(vector) = vector_of(world, node) else {
            return Ok(None);
        };
        let task = if with_task {
            Some(copied(vector.task())?)
        } else {
            None
        };
        Ok(Some(Seen {
            node,
            status: vector.status(),
            coordinator: vector.coordinator(),
            task,
        }))
    }

    // Whether the node shows something else now.
    fn is_changed(&self, world: &World) -> bool {
        let Some(vector) = vector_of(world, self.node) else {
            return false;
        };
        let keeps_task = match &self.task {
            Some(task) => same_task(task.as_ref(), vector.task()),
            None => true,
        };
        vector.status() != self.status || vector.coordinator() != self.coordinator || !keeps_task
    }
}
