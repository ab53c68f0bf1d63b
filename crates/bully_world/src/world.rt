ghost use Rattle.std.specs.Prelude.{◌≡◌, ◌↔◌, ◌≤◌, ◌<◌, IfOk, IfErr, IfSome, IfNone, IsOk, length, true, false, None};
ghost use Rattle.std.specs.Prelude.{Some};
ghost use Rattle.bully_world.specs.State.{state_at, world_of, cause_in, waits_for, first_state, new_states};
ghost use Rattle.bully_world.specs.State.{node_state_of, IsApplied, IsFull, NobodyWaits, NobodyWaitsBelow, IsKept};
ghost use Rattle.bully_world.specs.State.{IsReached};
ghost use Rattle.bully_world.specs.NodeInvariant.{NodeInvariant};
ghost use Rattle.bully_world.specs.Place.{place_at};
ghost use Rattle.bully_world.specs.World.{first_world};

use crate::causes::{cause_of, is_full_for, place_of};
use crate::node_state::NodeState;
use crate::steps::apply_event;
use bully_base::{Node, OutOfMemory, Setup};
use bully_calls::{Answer, Event, EventKind, Refused, Slot, Waiting, Whose};
use bully_handlers::Vector;
use bully_steps::Point;
use std::alloc::Global;
use std::marker::Model;

/// The group under events. Its type keeps that a lawful list of events leads to it.
#[derive(Drop, Debug)]
pub struct World {
    setup: Setup,
    events: u32,
    states: Vec<NodeState>,
    waiting: Waiting, // for each callee, the callers with a sent call to it
}

impl Model for World {
    ghost use Rattle.bully_world.specs.State.{WorldState, IsWorld};
    ghost use Rattle.bully_world.specs.Waiting.{IsWaiting};

    ghost Value = { WorldState };

    ghost view = { λ w. record { setup = w.setup; events = w.events; states = w.states.items } };

    ghost invariant = { λ w. IsWorld (record { setup = w.setup; events = w.events; states = w.states.items })
        × IsWaiting w.states.items w.waiting };
}

impl World {
    /// The world before any event. It reserves all memory that it will need. Refused where an allocation fails.
    pub fn new(alloc: Global, setup: Setup) -> Result<World, OutOfMemory>
        ensures state { IfOk result (λ w. w ≡ first_state setup) }
        ensures first { IfOk result (λ w. world_of w ≡ first_world setup) }
    {
        Ok(World {
            setup,
            events: 0,
            states: reserve(alloc, &setup)?,
            waiting: Waiting::new(alloc, setup)?,
        })
    }

    /// What the group was set up with.
    pub fn setup(&self) -> &Setup
        ensures setup { result.now ≡ self.now.setup }
        ensures reached { IsReached self.now }
    {
        &self.setup
    }

    /// How many events were applied.
    pub fn events(&self) -> u32
        ensures events { result ≡ self.now.events }
        ensures reached { IsReached self.now }
    {
        self.events
    }

    /// Whether as many events as the setup bounds were applied, so that every event is refused as Full.
    pub fn is_full(&self) -> bool
        ensures full { result ≡ true → IsFull self.now }
        ensures room { result ≡ false → self.now.events < self.now.setup.events_max }
        ensures reached { IsReached self.now }
    {
        is_full_for(&self.setup, self.events, 1)
    }

    /// Why `apply` would refuse the event, the first refusal that holds; none where it wouldn't.
    // (inlined with what it calls, so that an event that was just read or made stays in registers)
    #[inline(always)]
    pub fn cause(&self, event: &Event) -> Option<Refused>
        ensures { result ≡ cause_in self.now event.now }
    {
        cause_of(&self.setup, self.events, self.states.as_slice(), event)
    }

    /// Applies the event and answers it. Refused with its cause, and then nothing changes.
    /// The refusals come in the one order of [`Refused`]. Takes no memory.
    // (inlined, as `cause` is)
    #[inline(always)]
    pub fn apply(&mut self, event: &Event) -> Result<Answer, Refused>
        ensures applied { IfOk result (IsApplied self.old event.now self.new) }
        ensures exact { IsOk result ↔ (cause_in self.old event.now ≡ None) }
        ensures why { IfErr result (λ why. cause_in self.old event.now ≡ Some why) }
        ensures unchanged { IfErr result (λ _. self.new ≡ self.old) }
    {
        if let Some(why) = self.cause(event) {
            return Err(why);
        }
        Ok(self.apply_allowed(event))
    }

    /// Applies the event, which `cause` doesn't refuse, and answers it. Takes no memory.
    // (inlined, as `cause` is)
    #[inline(always)]
    pub fn apply_allowed(&mut self, event: &Event) -> Answer
        requires { cause_in self.old event.now ≡ None }
        ensures applied { IsApplied self.old event.now self.new result }
    {
        let answer = apply_event(
            &self.setup,
            self.states.as_mut_slice(),
            &mut self.waiting,
            event,
        );
        self.events += 1;
        answer
    }

    /// The node's vector; its task, if any, has the setup's partitions. The node is at most the setup's last.
    pub fn vector(&self, node: Node) -> &Vector
        requires { node ≤ self.now.setup.nodes }
        ensures vector { result.now ≡ (state_at self.now node).vector }
        ensures task { IfSome result.now.vector.task (λ t. length t ≡ self.now.setup.partitions) }
    {
        self.node_state(node).vector()
    }

    /// Where the node's procedure stands. The node is at most the setup's last.
    pub fn point(&self, node: Node) -> Point
        requires { node ≤ self.now.setup.nodes }
        ensures { result ≡ (state_at self.now node).point }
    {
        self.node_state(node).point()
    }

    /// The node's call slot. A call in it is tagged with the node as its caller. The node is at most the setup's
    /// last.
    pub fn slot(&self, node: Node) -> &Slot
        requires { node ≤ self.now.setup.nodes }
        ensures slot { result.now ≡ (state_at self.now node).slot }
        ensures tag { IfSome result.now.content (λ p. p.tag.caller ≡ node) }
    {
        self.node_state(node).slot()
    }

    /// How often the node was stopped or crashed. The node is at most the setup's last.
    pub fn generation(&self, node: Node) -> u32
        requires { node ≤ self.now.setup.nodes }
        ensures { result ≡ (state_at self.now node).generation }
    {
        self.node_state(node).generation()
    }

    /// The lowest caller with a sent call to this node; none where no call waits for it.
    pub fn waiting_for(&self, callee: Node) -> Option<Node>
        ensures waits { IfSome result (λ caller. waits_for self.now caller callee ≡ true) }
        ensures lowest { IfSome result (NobodyWaitsBelow self.now callee) }
        ensures none { IfNone result (NobodyWaits self.now callee) }
    {
        if callee.number() > self.setup.nodes() {
            return None;
        }
        self.waiting.lowest(callee)
    }

    /// The node at which an event of this kind, of this node, takes place, and the only one whose vector it may change:
    /// the callee of the node's call, where the event is the callee's, and else the node itself, which is at most the
    /// setup's last.
    pub fn place_at(&self, node: Node, kind: EventKind) -> Node
        requires { node ≤ self.now.setup.nodes }
        ensures place { result ≡ place_at (world_of self.now) node kind }
        ensures within { result ≤ self.now.setup.nodes }
    {
        match (kind.whose(), self.node_state(node).slot().call()) {
            (Whose::Callee, Some(call)) => call.callee,
            _ => node,
        }
    }

    /// What is kept of the node. The node is at most the setup's last.
    pub(crate) fn node_state(&self, node: Node) -> &NodeState
        requires { node ≤ self.now.setup.nodes }
        ensures node_state { result.now ≡ state_at self.now node }
        ensures kept { IsKept self.now.setup self.now.events node result.now }
        ensures fits { NodeInvariant self.now.setup node (node_state_of result.now) }
    {
        &self.states[place_of(node)]
    }
}

// The states of a new group.
fn reserve(alloc: Global, setup: &Setup) -> Result<Vec<NodeState>, OutOfMemory>
    ensures { IfOk result (λ states. states.items ≡ new_states setup.now) }
{
    let mut states = Vec::with_capacity(alloc, usize::from(setup.nodes()))?;
    for _ in 0..setup.nodes() {
        states.push(NodeState::new(alloc, setup)?)?;
    }
    Ok(states)
}
