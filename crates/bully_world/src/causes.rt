ghost use Rattle.std.specs.Prelude.{◌≡◌, ◌+◌, ◌≤◌, ◌<◌, ◌==◌, ◌&&◌, ℕ, length, not, true, false, Some, None, IfSome};
ghost use Rattle.std.specs.Prelude.{if◌then◌else◌};
ghost use Rattle.bully_base.specs.NodeSet.{with_node, IsFallingBelow};
ghost use Rattle.bully_base.specs.Setup.{IsSetup};
ghost use Rattle.bully_table.specs.Balance.{is_balanced};
ghost use Rattle.bully_calls.specs.Pending.{is_sent, is_failed};
ghost use Rattle.bully_steps.specs.Point.{offered, IsPointOf};
ghost use Rattle.bully_calls.specs.Events.{node_of};
ghost use Rattle.bully_world.specs.Cause.{refuses, first_of, later_refusals, cause, is_idle, is_call, is_move, is_plan};
ghost use Rattle.bully_world.specs.Cause.{in_phase, is_pending, is_live_in, callee_is_down, IsToldByNode};
ghost use Rattle.bully_world.specs.NodeInvariant.{NodeInvariant, WorldInvariant};
ghost use Rattle.bully_world.specs.State.{node_state_of, world_in};
ghost use Rattle.bully_world.specs.World.{World, node_state};

use crate::node_state::NodeState;
use bully_base::{Node, Setup};
use bully_calls::{Event, Phase, Refused};
use bully_steps::{PointKind, StoredPoint, Want};
use bully_table::Table;

/// Where the node's state stands in a list of all nodes' states.
pub fn place_of(node: Node) -> usize
    ensures { result + 1 ≡ node }
{
    usize::from(node.number() - 1)
}

/// Whether there is no room for so many events more, one at least, after so many.
// (inlined, as `World::cause` is)
#[inline(always)]
pub fn is_full_for(setup: &Setup, events: u32, count: u32) -> bool
    requires { 0 < count }
    ensures full { result ≡ true → setup.now.events_max < events + count }
    ensures room { result ≡ false → events + count ≤ setup.now.events_max }
    ensures within { IsSetup setup.now }
{
    setup.events_max().saturating_sub(events) < count
}

/// Why the event is refused with so many events applied, the first that holds; none where it isn't.
// (inlined, as `World::cause` is)
#[inline(always)]
pub fn cause_of(setup: &Setup, events: u32, states: &[NodeState], event: &Event) -> Option<Refused>
    requires { WorldInvariant setup.now (world_in states.now) }
    ensures { result ≡ cause setup.now (world_in states.now) events event.now }
{
    if is_full_for(setup, events, 1) {
        return Some(Refused::Full);
    }
    let node = event.node();
    if node.number() > setup.nodes() {
        return Some(Refused::BadNode);
    }
    let named = &states[place_of(node)];
    let is_down = named.is_down();
    match event {
        Event::Recover(_) => refused_if(!is_down, Refused::IsUp),
        _ if is_down => Some(Refused::IsDown),
        _ => later_cause(setup, states, named, event),
    }
}

// The same of a node that is up, from the refusals after IsUp on. `named` is the state of the event's node.
#[inline(always)]
fn later_cause(
    setup: &Setup,
    states: &[NodeState],
    named: &NodeState,
    event: &Event,
) -> Option<Refused>
    requires fits { WorldInvariant setup.now (world_in states.now) }
    requires node { node_of event.now ≤ setup.now.nodes }
    requires named { node_state (world_in states.now) (node_of event.now) ≡ node_state_of named.now }
    ensures { (count : ℕ) → result ≡ first_of (refuses setup.now (world_in states.now) count event.now) later_refusals }
{
    match event {
        Event::Run(_) => run_cause(states, named),
        Event::Lose(_) => lose_cause(states, named),
        _ => own_cause(setup, named, event),
    }
}

/// Why an event of a node that is up is refused, as far as `named`, the state of that node, tells it: the first refusal
/// after IsUp that holds. Of a Run and of a Lose no node's state alone tells it.
// (inlined, as `World::cause` is)
#[inline(always)]
pub fn own_cause(setup: &Setup, named: &NodeState, event: &Event) -> Option<Refused>
    requires own { IsToldByNode event.now }
    requires fits { NodeInvariant setup.now (node_of event.now) (node_state_of named.now) }
    requires node { node_of event.now ≤ setup.now.nodes }
    ensures { (w : World) (count : ℕ) → node_state w (node_of event.now) ≡ node_state_of named.now
        → result ≡ first_of (refuses setup.now w count event.now) later_refusals }
{
    match event {
        Event::Recover(_) | Event::Crash(_) => None,
        Event::Check(_) => refused_if(!is_idle(named.stored_point()), Refused::Busy),
        Event::Timeout(_) => refused_if(!is_idle(named.stored_point()), Refused::Busy),
        Event::Start(node) => step_cause(named, offers_call(named.offer(setup, *node))),
        Event::Move(node) => step_cause(named, offers_move(named.offer(setup, *node))),
        Event::Plan(node, table) => plan_cause(setup, named, *node, table),
        Event::Return(_) => { refused_if(!has_come(named), Refused::NoCall) }
        Event::Drop(_) => drop_cause(named),
        Event::Run(_) => unreachable!(),
        Event::Lose(_) => unreachable!(),
    }
}

fn is_idle(stored_point: &StoredPoint) -> bool
    ensures { result ≡ is_idle stored_point.now }
{
    matches!(stored_point.kind(), PointKind::Idle)
}

fn offers_call(want: Want) -> bool
    ensures { result ≡ is_call want }
{
    matches!(want, Want::Start(_))
}

fn offers_move(want: Want) -> bool
    ensures { result ≡ is_move want }
{
    matches!(want, Want::Move)
}

fn offers_plan(want: Want) -> bool
    ensures { result ≡ is_plan want }
{
    matches!(want, Want::Plan)
}

// The state's call was sent and didn't run yet.
fn is_sent(node_state: &NodeState) -> bool
    ensures { result ≡ in_phase is_sent (node_state_of node_state.now).pending }
{
    matches!(node_state.slot().phase(), Some(Phase::Sent))
}

// The state's call was sent or ran.
fn is_unfailed(node_state: &NodeState) -> bool
    ensures { result ≡ in_phase (λ f. not (is_failed f)) (node_state_of node_state.now).pending }
{
    matches!(node_state.slot().phase(), Some(Phase::Sent | Phase::Ran(_)))
}

// The state's call ran or failed.
fn has_come(node_state: &NodeState) -> bool
    ensures { result ≡ in_phase (λ f. not (is_sent f)) (node_state_of node_state.now).pending }
{
    matches!(
        node_state.slot().phase(),
        Some(Phase::Ran(_) | Phase::Failed)
    )
}

// The refusal, where it holds.
fn refused_if(holds: bool, refused: Refused) -> Option<Refused>
    ensures { result ≡ (if holds then Some refused else None) }
{
    if holds { Some(refused) } else { None }
}

// Why a Start, a Move or a Plan is refused, where the point offers it or not.
fn step_cause(node_state: &NodeState, offered: bool) -> Option<Refused>
    ensures { result ≡ (if not offered then Some Refused.NoStep else
        if is_pending (node_state_of node_state.now).pending then Some Refused.SlotBusy else None) }
{
    if !offered {
        return Some(Refused::NoStep);
    }
    refused_if(node_state.slot().call().is_some(), Refused::SlotBusy)
}

// Why a Plan with this table is refused. The node's up set has lower nodes alone.
#[inline(always)]
fn plan_cause(setup: &Setup, node_state: &NodeState, node: Node, table: &Table) -> Option<Refused>
    requires point { IsPointOf setup.now node node_state.now.point }
    requires node { node ≤ setup.now.nodes }
    requires up { IsFallingBelow node node_state.now.vector.vector.up }
    ensures { result ≡ (if not (is_plan
        (offered setup.now node_state.now.vector.vector.coordinator node_state.now.point)) then Some Refused.NoStep
        else if is_pending (node_state_of node_state.now).pending then Some Refused.SlotBusy
        else if not ((length table.now == setup.now.partitions) && is_balanced setup.now table.now
        (with_node node node_state.now.vector.vector.up)) then Some Refused.BadTable else None) }
{
    let cause = step_cause(node_state, offers_plan(node_state.offer(setup, node)));
    if cause.is_some() {
        return cause;
    }
    refused_if(
        !accepts_table(setup, node_state, node, table),
        Refused::BadTable,
    )
}

// The table has the setup's partitions, and is balanced over the node and its up set, which has lower nodes alone.
#[inline(always)]
fn accepts_table(setup: &Setup, node_state: &NodeState, node: Node, table: &Table) -> bool
    requires node { node ≤ setup.now.nodes }
    requires up { IsFallingBelow node node_state.now.vector.vector.up }
    ensures { result ≡ (length table.now == setup.now.partitions)
        && is_balanced setup.now table.now (with_node node node_state.now.vector.vector.up) }
{
    let mut planned = *node_state.vector().up();
    planned.insert(node);
    let is_whole = table.len() == usize::from(setup.partitions());
    is_whole && table.is_balanced_in(setup, &planned)
}

// Whether the callee of the state's call is Down; not so where there is no call.
fn callee_down(states: &[NodeState], node_state: &NodeState) -> bool
    requires { IfSome node_state.now.slot.content (λ p. (0 < p.call.callee) × (p.call.callee ≤ length states.now)) }
    ensures { result ≡ callee_is_down (world_in states.now) (node_state_of node_state.now).pending }
{
    match node_state.slot().call() {
        Some(call) => states[place_of(call.callee)].is_down(),
        None => false,
    }
}

// Why a Run of the state's call is refused.
fn run_cause(states: &[NodeState], node_state: &NodeState) -> Option<Refused>
    requires { IfSome node_state.now.slot.content (λ p. (0 < p.call.callee) × (p.call.callee ≤ length states.now)) }
    ensures { result ≡ (if not (in_phase is_sent (node_state_of node_state.now).pending) then Some Refused.NoCall
        else if callee_is_down (world_in states.now) (node_state_of node_state.now).pending then Some Refused.CalleeDown
        else None) }
{
    if !is_sent(node_state) {
        return Some(Refused::NoCall);
    }
    refused_if(callee_down(states, node_state), Refused::CalleeDown)
}

// Why a loss of the state's call is refused.
fn lose_cause(states: &[NodeState], node_state: &NodeState) -> Option<Refused>
    requires { IfSome node_state.now.slot.content (λ p. (0 < p.call.callee) × (p.call.callee ≤ length states.now)) }
    ensures { result ≡ (if not (in_phase (λ f. not (is_failed f)) (node_state_of node_state.now).pending)
        then Some Refused.NoCall
        else if not (callee_is_down (world_in states.now) (node_state_of node_state.now).pending)
        then Some Refused.CalleeUp else None) }
{
    if !is_unfailed(node_state) {
        return Some(Refused::NoCall);
    }
    refused_if(!callee_down(states, node_state), Refused::CalleeUp)
}

// Why a Drop of the state's call is refused.
fn drop_cause(node_state: &NodeState) -> Option<Refused>
    ensures { result ≡ (if not (is_pending (node_state_of node_state.now).pending) then Some Refused.NoCall
        else if is_live_in (node_state_of node_state.now).pending then Some Refused.NotOrphan else None) }
{
    let slot = node_state.slot();
    if slot.call().is_none() {
        return Some(Refused::NoCall);
    }
    refused_if(!slot.is_orphan(node_state.generation()), Refused::NotOrphan)
}
