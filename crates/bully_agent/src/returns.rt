//! A node's call that comes back with a reply, or that fails.
ghost use Rattle.std.specs.Prelude.{◌≡◌, ◌+◌, ◌<◌, true};
ghost use Rattle.bully_calls.specs.declared.call.Phase.{Phase};
ghost use Rattle.bully_calls.specs.Pending.{is_sent};
ghost use Rattle.bully_calls.specs.Slot.{holds_call};
ghost use Rattle.bully_world.specs.StateAfter.{phased_state};
ghost use Rattle.bully_calls.specs.declared.event.Event.{Event};
ghost use Rattle.bully_agent.specs.Agent.{IsAgentOf};
ghost use Rattle.bully_agent.specs.Calls.{CanReturn, CalleeIsDown, HasRun, returned_by, returned_answer};
ghost use Rattle.bully_agent.specs.Part.{Always, FollowsAt};

use bully_base::{Node, Setup};
use bully_calls::Answer;
use bully_world::NodeState;

/// The node's call was answered so, and returns. The agent told so many events.
pub fn return_reply(
    setup: &Setup,
    node: Node,
    events: u32,
    node_state: &mut NodeState,
    answer: Answer,
) -> Answer
    requires is { IsAgentOf setup.now node events node_state.old }
    requires room { events < setup.now.events_max }
    requires can { CanReturn node_state.old.slot answer }
    ensures after { node_state.new ≡ returned_by setup.now node (Phase.Ran answer) node_state.old }
    ensures answer { result ≡ returned_answer node (Phase.Ran answer) node_state.old }
    ensures is { IsAgentOf setup.now node (events + 1) node_state.new }
    ensures follows { FollowsAt (HasRun node answer) setup.now node node_state.old
        (Event.Return node) result node_state.new }
{
    node_state.ran(answer);
    node_state.take_back(setup, node)
}

/// The node's call failed, and returns. The agent told so many events.
pub fn return_failure(setup: &Setup, node: Node, events: u32, node_state: &mut NodeState) -> Answer
    requires is { IsAgentOf setup.now node events node_state.old }
    requires room { events + 1 < setup.now.events_max }
    requires sent { holds_call is_sent node_state.old.slot ≡ true }
    ensures after { node_state.new ≡ returned_by setup.now node Phase.Failed node_state.old }
    ensures answer { result ≡ returned_answer node Phase.Failed node_state.old }
    ensures is { IsAgentOf setup.now node (events + 2) node_state.new }
    ensures loses { FollowsAt (CalleeIsDown node_state.old.slot) setup.now node node_state.old
        (Event.Lose node) Answer.Done (phased_state Phase.Failed node_state.old) }
    ensures follows { FollowsAt Always setup.now node (phased_state Phase.Failed node_state.old)
        (Event.Return node) result node_state.new }
{
    node_state.lose();
    node_state.take_back(setup, node)
}
