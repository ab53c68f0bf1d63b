ghost use Rattle.std.specs.Prelude.{◌≡◌, ◌≢◌, ◌+◌, ◌<◌, ◌≤◌, length, IfSome, Some, slice_index_or, slice_set};
ghost use Rattle.bully_handlers.specs.Handler.{reply};
ghost use Rattle.bully_world.specs.State.{empty_state, kept_of};
ghost use Rattle.bully_world.specs.StateAfter.{CanApply, CanExchange, CanRun, callee_state_after, phased_state};
ghost use Rattle.bully_world.specs.StateAfter.{state_after, state_after_run, answer_after, run_answer};
ghost use Rattle.bully_calls.specs.Events.{node_of};
ghost use Rattle.bully_world.specs.Waiting.{sent_in, IsWaiting, with_sent, without_sent};

use crate::causes::place_of;
use crate::node_state::NodeState;
use bully_base::{Node, Setup};
use bully_calls::{Answer, Event, Phase, Waiting};

/// An event that nothing refuses is applied, and the map of the waiting callers goes with it.
// (inlined, as `World::apply_allowed` is)
#[inline(always)]
pub fn apply_event(
    setup: &Setup,
    states: &mut [NodeState],
    waiting: &mut Waiting,
    event: &Event,
) -> Answer
    requires can { CanApply setup.now states.old event.now }
    requires node { node_of event.now ≤ length states.old }
    requires sent { IfSome (sent_in (kept_of (state_after setup.now states.old event.now) (node_of event.now))) (λ j.
        (0 < j) × (j ≤ length states.old)) }
    requires waiting { IsWaiting states.old waiting.old }
    ensures after { states.new ≡ state_after setup.now states.old event.now }
    ensures answer { result ≡ answer_after states.old event.now }
    ensures waiting { IsWaiting states.new waiting.new }
{
    let node = event.node();
    let place = place_of(node);
    let before = states[place].sent_to();
    let answer = apply_to_states(setup, states, place, event);
    let after = states[place].sent_to();
    update_waiting(waiting, node, before, after);
    answer
}

// The caller's sent call went to `before`, and goes to `after` now.
// (inlined, as `apply_event` is)
#[inline(always)]
fn update_waiting(waiting: &mut Waiting, caller: Node, before: Option<Node>, after: Option<Node>)
    requires before { IfSome before (λ j. j ≤ length waiting.old) }
    requires after { IfSome after (λ j. j ≤ length waiting.old) }
    ensures { waiting.new ≡ with_sent caller after (without_sent caller before waiting.old) }
{
    if let Some(callee) = before {
        waiting.remove(callee, caller);
    }
    if let Some(callee) = after {
        waiting.add(callee, caller);
    }
}

// An event that nothing refuses is applied; the state of its node stands at `here`.
#[inline(always)]
fn apply_to_states(setup: &Setup, states: &mut [NodeState], here: usize, event: &Event) -> Answer
    requires can { CanApply setup.now states.old event.now }
    requires here { here + 1 ≡ node_of event.now }
    ensures after { states.new ≡ state_after setup.now states.old event.now }
    ensures answer { result ≡ answer_after states.old event.now }
{
    match event {
        Event::Run(node) => run_call(states, *node, here),
        _ => {
            let node_state = &mut states[here];
            node_state.apply(setup, event)
        }
    }
}

// The call of this caller, whose state stands at `here`, runs at its callee.
// (inlined, as `apply_event` is)
#[inline(always)]
fn run_call(states: &mut [NodeState], caller: Node, here: usize) -> Answer
    requires can { CanRun states.old caller }
    requires here { here + 1 ≡ caller }
    ensures after { states.new ≡ state_after_run states.old caller (kept_of states.old caller).slot.content }
    ensures answer { result ≡ run_answer states.old (kept_of states.old caller).slot.content }
{
    let call = states[here].slot().call().unwrap();
    run_between(states, caller, here, place_of(call.callee))
}

// The call in the slot of the node whose state stands at `here` runs at the node whose state stands at `there`.
// (inlined, as `apply_event` is)
#[inline(always)]
fn run_between(states: &mut [NodeState], caller: Node, here: usize, there: usize) -> Answer
    requires here { here < length states.old }
    requires there { there < length states.old }
    requires apart { here ≢ there }
    requires can { CanExchange (slice_index_or states.old here (empty_state 0))
        (slice_index_or states.old there (empty_state 0)) }
    ensures answer { IfSome (slice_index_or states.old here (empty_state 0)).slot.content (λ p.
        result ≡ reply p.call.kind (slice_index_or states.old there (empty_state 0)).vector.vector) }
    ensures after { IfSome (slice_index_or states.old here (empty_state 0)).slot.content (λ p. states.new
        ≡ slice_set (slice_set states.old here (phased_state (Phase.Ran result) (slice_index_or states.old here
        (empty_state 0)))) there (callee_state_after caller p (slice_index_or states.old there (empty_state 0)))) }
{
    if there < here {
        let (lower, upper) = states.split_at_mut(here);
        exchange(&mut upper[0], &mut lower[there], caller)
    } else {
        let (lower, upper) = states.split_at_mut(there);
        exchange(&mut lower[here], &mut upper[0], caller)
    }
}

// The call in the slot of `calling` runs at `called`, and the answer is kept in the slot.
#[inline(always)]
fn exchange(calling: &mut NodeState, called: &mut NodeState, caller: Node) -> Answer
    requires { CanExchange calling.old called.old }
    ensures calling { calling.new ≡ phased_state (Phase.Ran result) calling.old }
    ensures called { IfSome calling.old.slot.content (λ p. called.new ≡ callee_state_after caller p called.old) }
    ensures answer { IfSome calling.old.slot.content (λ p. result ≡ reply p.call.kind called.old.vector.vector) }
{
    let answer = called.receive(caller, calling.slot());
    calling.ran(answer);
    answer
}
