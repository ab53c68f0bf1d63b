//! Which nodes an event takes to another point.

ghost use Rattle.std.specs.Prelude.{◌≡◌, ◌≤◌, Some, false};
ghost use Rattle.bully_calls.specs.Events.{node_of};
ghost use Rattle.bully_account.specs.Moving.{cuts_by, cuts_off, holds_no_orphan, moves_in, own_move};
ghost use Rattle.bully_account.specs.Remembered.{moved_by};
ghost use Rattle.bully_world.specs.Cause.{is_idle};
ghost use Rattle.bully_world.specs.State.{is_halt, world_of};
ghost use Rattle.bully_world.specs.World.{pending, point};

use bully_base::Node;
use bully_calls::{Call, CallKind};
use bully_steps::Point;
use bully_trace::call_at;
use bully_world::{Event, World};

/// Which nodes an event takes to another point, where nothing refuses it. A call takes its caller on where it returns,
/// and not before.
#[derive(Clone, Copy)]
pub struct Moves {
    /// Its own node; none where that is seen after it alone: a check or a timeout may leave an idle node idle.
    pub own: Option<bool>,
    /// The callee of a Halt that runs.
    pub callee: bool,
}

/// Which nodes the event takes to another point, where nothing refuses it in this world.
// (by the kind: a point has room for a set of nodes, so no row copies one that needn't)
pub fn moves_by(world: &World, event: &Event) -> Moves
    ensures { node_of event.now ≤ world.now.setup.nodes → result ≡ moves_in (world_of world.now) event.now }
{
    if event.node().number() > world.setup().nodes() {
        return no_moves();
    }
    let own = own_move(world, event);
    let callee = cuts_off(world, event);
    Moves { own, callee }
}

/// Where no node gets to another point.
pub fn no_moves() -> Moves
    ensures own { result.own ≡ Some false }
    ensures callee { result.callee ≡ false }
{
    Moves {
        own: Some(false),
        callee: false,
    }
}

/// Whether the event took its own node to another point, by what was told before it, and the world after it: where
/// none was told, it did if the node isn't idle now.
pub fn has_moved(own: Option<bool>, world: &World, node: Node) -> bool
    ensures { result ≡ moved_by own (world_of world.now) node }
{
    match own {
        Some(moved) => moved,
        None => !is_idle(world, node),
    }
}

// Whether the event takes its own node to another point.
fn own_move(world: &World, event: &Event) -> Option<bool>
    requires { node_of event.now ≤ world.now.setup.nodes }
    ensures { result ≡ own_move (world_of world.now) event.now }
{
    match event {
        Event::Recover(_) | Event::Move(_) | Event::Plan(_, _) => Some(true),
        Event::Crash(node) => Some(!is_idle(world, *node)),
        Event::Check(_) | Event::Timeout(_) => None,
        Event::Return(node) => Some(holds_no_orphan(world, *node)),
        Event::Start(_) | Event::Run(_) | Event::Lose(_) | Event::Drop(_) => Some(false),
    }
}

// Whether the slot of the node holds no orphan.
fn holds_no_orphan(world: &World, node: Node) -> bool
    requires { node ≤ world.now.setup.nodes }
    ensures { result ≡ holds_no_orphan (pending (world_of world.now) node) }
{
    !world.slot(node).is_orphan(world.generation(node))
}

// Whether the event is the run of a Halt that cuts a procedure off.
fn cuts_off(world: &World, event: &Event) -> bool
    requires { node_of event.now ≤ world.now.setup.nodes }
    ensures { result ≡ cuts_off (world_of world.now) event.now }
{
    match event {
        Event::Run(caller) => cuts_by(world, call_at(world, *caller)),
        _ => false,
    }
}

// Whether the call is a Halt, and its callee isn't idle.
fn cuts_by(world: &World, call: Option<Call>) -> bool
    ensures { result ≡ cuts_by (world_of world.now) call }
{
    match call {
        Some(call) => is_halt(call.kind) && !is_idle(world, call.callee),
        None => false,
    }
}

/// Whether it is a Halt.
pub fn is_halt(kind: CallKind) -> bool
    ensures { result ≡ is_halt kind }
{
    matches!(kind, CallKind::Halt)
}

/// Whether no procedure runs at the node.
// (out of line: else each caller would have room for a point, and clear it)
#[inline(never)]
pub fn is_idle(world: &World, node: Node) -> bool
    ensures { result ≡ is_idle (point (world_of world.now) node) }
{
    if node.number() > world.setup().nodes() {
        return true;
    }
    matches!(world.point(node), Point::Idle)
}
