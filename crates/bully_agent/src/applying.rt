//! The events that a node takes by itself.
ghost use Rattle.std.specs.Prelude.{◌≡◌, ◌+◌, ◌<◌, ◌^◌, Some, None, IfOk, IfErr, OnOk, if◌then◌else◌};
ghost use Rattle.bully_calls.specs.Events.{kind_of, node_of};
ghost use Rattle.bully_world.specs.StateAfter.{node_after, node_answer};
ghost use Rattle.bully_agent.specs.Agent.{IsAgentOf, IsAlone};
ghost use Rattle.bully_agent.specs.Part.{Always, CauseAt, FollowsAt, IsRefusedAt};

use bully_base::Setup;
use bully_calls::Answer;
use bully_world::{Event, NodeState, Refused, is_full_for, own_cause};

/// Why such an event is refused, with so many events told; none where it isn't. `node_state` is that of the event's
/// node.
// (inlined, as `Agent::apply_event` is)
#[inline(always)]
pub fn alone_cause(
    setup: &Setup,
    events: u32,
    node_state: &NodeState,
    event: &Event,
) -> Option<Refused>
    requires own { IsAlone (kind_of event.now) }
    requires is { IsAgentOf setup.now (node_of event.now) events node_state.now }
    ensures cause { CauseAt Always setup.now (node_of event.now) events node_state.now event.now result }
    ensures room { result ≡ None → events < setup.now.events_max }
    ensures small { result ≡ None → events + 1 < 2 ^ 32 }
{
    if is_full_for(setup, events, 1) {
        return Some(Refused::Full);
    }
    let is_down = node_state.is_down();
    match event {
        Event::Recover(_) => recover_cause(is_down),
        _ if is_down => Some(Refused::IsDown),
        _ => own_cause(setup, node_state, event),
    }
}

// Why the recovery of a node is refused.
fn recover_cause(is_down: bool) -> Option<Refused>
    ensures { result ≡ (if is_down then None else Some Refused.IsUp) }
{
    if is_down { None } else { Some(Refused::IsUp) }
}

/// Such an event is taken, where nothing refuses it. `node_state` is that of the event's node, which told so many
/// events.
// (inlined, as `Agent::apply_event` is)
#[inline(always)]
pub fn apply_alone(
    setup: &Setup,
    events: u32,
    node_state: &mut NodeState,
    event: &Event,
) -> Result<Answer, Refused>
    requires own { IsAlone (kind_of event.now) }
    requires is { IsAgentOf setup.now (node_of event.now) events node_state.old }
    ensures after { OnOk result (node_state.new ≡ node_after setup.now event.now node_state.old) }
    ensures answer { IfOk result (λ answer. answer ≡ node_answer event.now node_state.old) }
    ensures room { OnOk result (events < setup.now.events_max) }
    ensures small { OnOk result (events + 1 < 2 ^ 32) }
    ensures is { OnOk result (IsAgentOf setup.now (node_of event.now) (events + 1) node_state.new) }
    ensures follows { IfOk result (λ answer.
        FollowsAt Always setup.now (node_of event.now) node_state.old event.now answer node_state.new) }
    ensures why { IfErr result (IsRefusedAt Always setup.now (node_of event.now) events node_state.old event.now) }
    ensures unchanged { IfErr result (λ _. node_state.new ≡ node_state.old) }
{
    match alone_cause(setup, events, node_state, event) {
        Some(why) => Err(why),
        None => Ok(node_state.apply(setup, event)),
    }
}
