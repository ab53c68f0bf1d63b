//! Requests that come to a node.
ghost use Rattle.std.specs.Prelude.{◌≡◌, ◌↔◌, ◌+◌, ◌<◌, ◌^◌, IsTrue, IfSome, IfNone};
ghost use Rattle.std.specs.Option.{option_copied};
ghost use Rattle.bully_handlers.specs.Handler.{reply};
ghost use Rattle.bully_calls.specs.declared.event.Event.{Event};
ghost use Rattle.bully_world.specs.NodeInvariant.{SuitsCallee, SuitsTable};
ghost use Rattle.bully_world.specs.StateAfter.{heard_state};
ghost use Rattle.bully_agent.specs.Agent.{IsAgentOf};
ghost use Rattle.bully_agent.specs.Calls.{IsRequested, SuitsNode, CanServe, RefusesRequest};
ghost use Rattle.bully_agent.specs.Part.{FollowsAt, IsRefusedAt};

use bully_base::{Node, Setup};
use bully_calls::{Answer, CallKind, Request};
use bully_table::Table;
use bully_world::{NodeState, Refused, is_full_for};

/// Why the request is refused at the node, whose agent told so many events; none where it isn't.
pub fn request_cause(
    setup: &Setup,
    node: Node,
    events: u32,
    node_state: &NodeState,
    request: &Request,
) -> Option<Refused>
    ensures why { IfSome result (IsRefusedAt (IsRequested node request.now) setup.now node events node_state.now
        (Event.Run request.now.caller)) }
    ensures refusal { IfSome result (RefusesRequest setup.now node events node_state.now request.now) }
    ensures can { IfNone result (CanServe setup.now node events node_state.now request.now) }
    ensures small { IfNone result (events + 1 < 2 ^ 32) }
{
    if is_full_for(setup, events, 1) {
        return Some(Refused::Full);
    }
    if request.caller.number() > setup.nodes() {
        return Some(Refused::BadNode);
    }
    if !suits_node(setup, node, request) {
        return Some(Refused::NoCall);
    }
    if node_state.is_down() {
        return Some(Refused::CalleeDown);
    }
    None
}

/// The request runs at the node, where nothing refuses it.
pub fn serve_request(
    setup: &Setup,
    node: Node,
    events: u32,
    node_state: &mut NodeState,
    request: &Request,
) -> Answer
    requires is { IsAgentOf setup.now node events node_state.old }
    requires can { CanServe setup.now node events node_state.old request.now }
    requires small { events + 1 < 2 ^ 32 }
    ensures after { node_state.new ≡ heard_state request.now.caller request.now.call request.now.table node_state.old }
    ensures answer { result ≡ reply request.now.call.kind node_state.old.vector.vector }
    ensures is { IsAgentOf setup.now node (events + 1) node_state.new }
    ensures follows { FollowsAt (IsRequested node request.now) setup.now node node_state.old
        (Event.Run request.now.caller) result node_state.new }
{
    node_state.hear(request.caller, request.call, table_of(request))
}

// The table that the request carries.
fn table_of(request: &Request) -> Option<&Table>
    ensures { option_copied result ≡ request.now.table }
{
    request.table.as_ref()
}

// Whether the request may come to the node.
fn suits_node(setup: &Setup, node: Node, request: &Request) -> bool
    ensures { IsTrue result ↔ SuitsNode setup.now node request.now }
{
    let kind = request.call.kind;
    request.call.callee == node
        && may_call(request.caller, kind, node)
        && suits_table(setup, kind, table_of(request))
}

// Whether the caller makes such a call to this callee: what changes the callee goes to a lower node.
fn may_call(caller: Node, kind: CallKind, callee: Node) -> bool
    ensures { IsTrue result ↔ SuitsCallee caller kind callee }
{
    match kind {
        CallKind::AreYouUp | CallKind::AreYouNormal => callee != caller,
        CallKind::Halt | CallKind::NewCoordinator | CallKind::Ready => callee.number()
            < caller.number(),
    }
}

// Whether the call carries what it should: a Ready a table of the setup's partitions, and the others none.
fn suits_table(setup: &Setup, kind: CallKind, table: Option<&Table>) -> bool
    ensures { IsTrue result ↔ SuitsTable setup.now kind (option_copied table.entry) }
{
    match table {
        Some(table) => kind == CallKind::Ready && table.len() == usize::from(setup.partitions()),
        None => kind != CallKind::Ready,
    }
}
