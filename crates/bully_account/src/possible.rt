ghost use Rattle.std.specs.Prelude.{◌≡◌, ◌↔◌, ◌≤◌, true, filter, IfOk};
ghost use Rattle.bully_calls.specs.Events.{every_event_kind};
ghost use Rattle.bully_account.specs.Possible.{ArePossible, IsPossible, passes};

use bully_base::{Node, OutOfMemory};
use bully_calls::{EVERY_EVENT_KIND, EventKind};
use bully_trace::reached;
use bully_world::{Event, World};
use std::alloc::Global;

/// The kinds of event of the node that nothing refuses now, in the order of the profile's table of rows. A plan is
/// among them where some table can be planned. The node is at most the setup's last. Refused where an allocation fails.
pub fn possible_now(alloc: Global, world: &World, node: Node) -> Result<Vec<EventKind>, OutOfMemory>
    requires { node ≤ world.now.setup.nodes }
    ensures { IfOk result (λ event_kinds. ArePossible world.now node event_kinds.items) }
{
    let can_plan = can_plan(alloc, world, node)?;
    event_kinds_passing(alloc, world, node, can_plan)
}

// The kinds of event that pass, in their order.
fn event_kinds_passing(
    alloc: Global,
    world: &World,
    node: Node,
    can_plan: bool,
) -> Result<Vec<EventKind>, OutOfMemory>
    ensures { IfOk result (λ event_kinds.
        event_kinds.items ≡ filter (passes world.now node can_plan) every_event_kind) }
{
    EVERY_EVENT_KIND
        .iter()
        .copied()
        .filter(|event_kind| passes(world, node, *event_kind, can_plan))
        .collect(alloc)
}

// Whether nothing refuses the event of this kind; whether a plan is possible is told.
fn passes(world: &World, node: Node, event_kind: EventKind, can_plan: bool) -> bool
    ensures { result ≡ passes world.now node can_plan event_kind }
{
    match event_kind.event(node) {
        Some(event) => world.cause(&event).is_none(),
        None => can_plan,
    }
}

// Whether nothing refuses a plan of the node: that with the table which the rule of plans gives, if the node is
// Planning. Any other table is refused no less.
fn can_plan(alloc: Global, world: &World, node: Node) -> Result<bool, OutOfMemory>
    requires { node ≤ world.now.setup.nodes }
    ensures { IfOk result (λ can. (can ≡ true) ↔ IsPossible world.now node EventKind.Plan) }
{
    reached(world);
    let mut procedure = world.procedure(node);
    procedure.prepare(alloc, None)?;
    let planner = procedure.node();
    match procedure.table() {
        Some(table) => {
            let event = Event::Plan(planner, table.copy()?);
            Ok(world.cause(&event).is_none())
        }
        None => Ok(false),
    }
}
