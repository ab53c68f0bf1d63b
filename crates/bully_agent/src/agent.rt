ghost use Rattle.std.specs.Prelude.{◌≡◌, ◌≤◌, ◌<◌, ◌+◌, ◌↔◌, true, false, None, length, IfOk, IfErr, IfSome, IsTrue};
ghost use Rattle.std.specs.Option.{option_copied};
ghost use Rattle.bully_world.specs.NodeInvariant.{WorldInvariant};
ghost use Rattle.bully_world.specs.World.{World, node_state, first_world};
ghost use Rattle.bully_base.specs.NodeSet.{with_node};
ghost use Rattle.bully_table.specs.Planning.{planned};
ghost use Rattle.bully_calls.specs.declared.kind.EventKind.{EventKind};
ghost use Rattle.bully_calls.specs.Events.{event_at, kind_of, node_of};
ghost use Rattle.bully_agent.specs.Agent.{IsAlone, IsRefused, IsTaken, PartOf, down_node_state, new_agent};
ghost use Rattle.bully_agent.specs.Agent.{number_after, wanted};
ghost use Rattle.bully_agent.specs.Calls.{GivesOut, IsAwaited, IsDue, IsFailed, IsReplyTo, IsRequested, IsReturned};
ghost use Rattle.bully_agent.specs.Calls.{IsServed, RefusesFailure, RefusesReply, RefusesRequest, TellsRun, request_of};
ghost use Rattle.bully_agent.specs.Part.{Always};

use crate::applying::apply_alone;
use crate::due::can_return;
use crate::requests::{request_cause, serve_request};
use crate::returns::{return_failure, return_reply};
use bully_base::{Node, OutOfMemory, Setup};
use bully_calls::{NodeEventKind, Reply, Request, Slot};
use bully_handlers::Vector;
use bully_steps::{Point, Want, planned_table};
use bully_table::{Table, copied};
use bully_world::{AppliedStep, Event, NodeState, Refused, is_full_for};
use std::alloc::{AllocError, Global};
use std::marker::Model;

/// One node on its own.
///
/// Each call that changes it is refused and changes nothing, or is an event of the group, which it tells for the log.
/// Its contract says so for every world that the agent may be a part of. Some calls have a premise that the agent can't
/// see: the program that carries requests and replies must keep it (docs/NODE.md).
#[derive(Drop, Debug)]
pub struct Agent {
    setup: Setup,
    node: Node,
    events: u32, // how many its calls told
    number: u32, // of its last call
    node_state: NodeState,
}

impl Model for Agent {
    ghost use Rattle.bully_agent.specs.Agent.{AgentState, IsAgentOf};

    ghost Value = { AgentState };

    ghost view = { λ a.
        record { setup = a.setup; node = a.node; events = a.events; number = a.number; node_state = a.node_state } };

    ghost invariant = { λ a. IsAgentOf a.setup a.node a.events a.node_state };
}

/// A request that ran.
#[derive(Drop)]
pub struct Served {
    /// The run, for the log.
    pub event: Event,
    /// What the caller is told.
    pub reply: Reply,
}

/// A call that failed and returned.
#[derive(Drop)]
pub struct FailedCall {
    /// The loss, for the log.
    pub lost: Event,
    /// The return, after it.
    pub returned: AppliedStep,
}

impl Agent {
    /// The agent of a node, which is at most the setup's last, while the node is Down. The node's log has so many
    /// events, none at first; and it has kept this task, if any, which has the setup's partitions. It reserves room for
    /// a task and for a call's table, so that no call which changes it takes memory. Refused where an allocation fails.
    pub fn new(
        alloc: Global,
        setup: &Setup,
        node: Node,
        events: u32,
        task: Option<&Table>,
    ) -> Result<Agent, OutOfMemory>
        requires node { node ≤ setup.now.nodes }
        requires task { IfSome (option_copied task) (λ t. length t ≡ setup.now.partitions) }
        ensures state { IfOk result (λ a. a ≡ new_agent setup.now node events (option_copied task.entry)) }
        ensures first { IfOk result (λ a. option_copied task.entry ≡ None → PartOf a (first_world setup.now)) }
        ensures part { IfOk result (λ a. (w : World) → WorldInvariant setup.now w
            → node_state w node ≡ down_node_state (option_copied task.entry) → PartOf a w) }
    {
        // `number` also shows the proof that this is a node.
        let _number = node.number();
        Ok(Agent {
            setup: *setup,
            node,
            events,
            number: events,
            node_state: NodeState::restored(alloc, setup, task)?,
        })
    }

    /// What the group was set up with. Every agent is a part of some world: alone, with all others Down.
    pub fn setup(&self) -> &Setup
        ensures setup { result.now ≡ self.now.setup }
        ensures part { (w : World) × PartOf self.now w }
    {
        &self.setup
    }

    /// The node. It is at most the setup's last.
    pub fn node(&self) -> Node
        ensures node { result ≡ self.now.node }
        ensures within { result ≤ self.now.setup.nodes }
    {
        self.node
    }

    /// How many events its calls told, with those before it was made.
    pub fn events(&self) -> u32
        ensures { result ≡ self.now.events }
    {
        self.events
    }

    /// The number of its last call: a later one has a higher number.
    pub fn number(&self) -> u32
        ensures { result ≡ self.now.number }
    {
        self.number
    }

    /// The node's vector. A task has the setup's partitions.
    pub fn vector(&self) -> &Vector
        ensures vector { result.now ≡ self.now.node_state.vector }
        ensures task { IfSome result.now.vector.task (λ t. length t ≡ self.now.setup.partitions) }
    {
        self.node_state.vector()
    }

    /// Where its procedure stands.
    pub fn point(&self) -> Point
        ensures { result ≡ self.now.node_state.point }
    {
        self.node_state.point()
    }

    /// Its call slot.
    pub fn slot(&self) -> &Slot
        ensures { result.now ≡ self.now.node_state.slot }
    {
        self.node_state.slot()
    }

    /// How often the node was stopped or crashed since the agent was made.
    pub fn generation(&self) -> u32
        ensures { result ≡ self.now.node_state.generation }
    {
        self.node_state.generation()
    }

    /// What the node wants to do next: to await where a call is in its slot, else what its point offers.
    pub fn wants(&self) -> Want
        ensures { result ≡ wanted self.now }
    {
        if self.node_state.slot().call().is_some() {
            return Want::Await;
        }
        self.node_state.offer(&self.setup, self.node)
    }

    /// The request of the node's call, while that is under way: to be sent to its callee, once. Only a Ready takes
    /// memory, for its table; refused where an allocation fails.
    pub fn request(&self) -> Result<Option<Request>, OutOfMemory>
        ensures request { IfOk result (λ request. request ≡ request_of self.now) }
        ensures requested { IfOk result (GivesOut self.now) }
    {
        let slot = self.node_state.slot();
        let Some(call) = slot.call() else {
            return Ok(None);
        };
        if !slot.is_sent() {
            return Ok(None);
        }
        Ok(Some(Request {
            caller: self.node,
            number: self.number,
            call,
            table: copied(slot.table())?,
        }))
    }

    /// The planned table over the node and its up set, from the old one, which has the setup's partitions: what
    /// [`Agent::plan`] takes at Planning. Refused where an allocation fails.
    pub fn prepare(&self, alloc: Global, old: Option<&Table>) -> Result<Table, OutOfMemory>
        requires { IfSome (option_copied old) (λ t. length t ≡ self.now.setup.partitions) }
        ensures { IfOk result (λ table. table ≡ planned self.now.setup (option_copied old.entry)
            (with_node self.now.node self.now.node_state.vector.vector.up)) }
    {
        let up = self.node_state.vector().up();
        match planned_table(alloc, &self.setup, self.node, up, old) {
            Ok(table) => Ok(table),
            Err(_) => Err(AllocError), // never `NoMember`: the node is a member
        }
    }

    /// The node takes the event of this kind by itself: any but a Run, which is [`Agent::serve`], a Lose and a Return,
    /// which are [`Agent::failed`] and [`Agent::replied`]. If a process dies, its agent takes no Crash: a process that
    /// sees the death logs the Crash. Once a Start is taken, [`Agent::request`] has what is to be sent. What each does:
    /// docs/ALGORITHM.md. Refused as
    ///
    /// - `Full`; `IsDown`, but a Recover as `IsUp`;
    /// - a Check and a Timeout as `Busy`;
    /// - a Start and a Move as `NoStep`, `SlotBusy`;
    /// - a Drop as `NoCall`, `NotOrphan`.
    pub fn apply(&mut self, kind: NodeEventKind) -> Result<AppliedStep, Refused>
        requires alone { IsAlone (EventKind.Node kind) }
        ensures taken { IfOk result (IsTaken self.old (event_at kind self.old.node) self.new) }
        ensures why { IfErr result (IsRefused Always self.old (event_at kind self.old.node)) }
        ensures unchanged { IfErr result (λ _. self.new ≡ self.old) }
    {
        self.apply_event(kind.event(self.node))
    }

    /// The node has planned this table. Refused as `Full`, `IsDown`, `NoStep`, `SlotBusy`, `BadTable`.
    pub fn plan(&mut self, table: Table) -> Result<AppliedStep, Refused>
        ensures taken { IfOk result (IsTaken self.old (Event.Plan self.old.node table) self.new) }
        ensures why { IfErr result (IsRefused Always self.old (Event.Plan self.old.node table)) }
        ensures unchanged { IfErr result (λ _. self.new ≡ self.old) }
    {
        self.apply_event(Event::Plan(self.node, table))
    }

    /// The request runs at the node. Refused as `Full`; `BadNode`, where its caller is above the setup's last node;
    /// `NoCall`, where no node makes such a call to this one; `CalleeDown`.
    ///
    /// Premise: the request is the caller's call, which was sent and didn't run yet. What [`Agent::request`] of the
    /// caller gives out is that, until the call runs or is over.
    pub fn serve(&mut self, request: &Request) -> Result<Served, Refused>
        ensures served { IfOk result (IsServed self.old request.now self.new) }
        ensures told { IfOk result (λ served. TellsRun self.old request.now served.reply) }
        ensures due { IfOk result (λ served. IsReplyTo request.now served.reply) }
        ensures why { IfErr result
            (IsRefused (IsRequested self.old.node request.now) self.old (Event.Run request.now.caller)) }
        ensures refusal { IfErr result
            (RefusesRequest self.old.setup self.old.node self.old.events self.old.node_state request.now) }
        ensures unchanged { IfErr result (λ _. self.new ≡ self.old) }
    {
        let cause = request_cause(
            &self.setup,
            self.node,
            self.events,
            &self.node_state,
            request,
        );
        if let Some(why) = cause {
            return Err(why);
        }
        let answer = serve_request(
            &self.setup,
            self.node,
            self.events,
            &mut self.node_state,
            request,
        );
        self.events += 1;
        Ok(Served {
            event: Event::Run(request.caller),
            reply: Reply {
                caller: request.caller,
                number: request.number,
                answer,
            },
        })
    }

    /// The node's call returns with this reply. Refused as `Full`; `NoCall`, where it is no reply to the call that the
    /// node has under way.
    ///
    /// Premise: the call ran at its callee and was answered so. The reply of [`Agent::serve`] of the callee tells that.
    pub fn replied(&mut self, reply: Reply) -> Result<AppliedStep, Refused>
        ensures returned { IfOk result (IsReturned self.old reply self.new) }
        ensures why { IfErr result (RefusesReply self.old reply) }
        ensures unchanged { IfErr result (λ _. self.new ≡ self.old) }
    {
        let told = reply.answer;
        if self.is_full_for(1) {
            return Err(Refused::Full);
        }
        if !self.is_due(reply) {
            return Err(Refused::NoCall);
        }
        let answer = return_reply(
            &self.setup,
            self.node,
            self.events,
            &mut self.node_state,
            told,
        );
        self.events += 1;
        Ok(AppliedStep {
            event: Event::Return(self.node),
            answer,
        })
    }

    /// The node's call of this number failed, and returns: two events. Refused as `Full`, where there isn't room for
    /// both; `NoCall`, where the node has no such call under way.
    ///
    /// Premise: the callee is Down.
    pub fn failed(&mut self, number: u32) -> Result<FailedCall, Refused>
        ensures failed { IfOk result (IsFailed self.old number self.new) }
        ensures why { IfErr result (RefusesFailure self.old number) }
        ensures unchanged { IfErr result (λ _. self.new ≡ self.old) }
    {
        if self.is_full_for(2) {
            return Err(Refused::Full);
        }
        if !self.awaits(number) {
            return Err(Refused::NoCall);
        }
        let answer = return_failure(&self.setup, self.node, self.events, &mut self.node_state);
        self.events += 2;
        Ok(FailedCall {
            lost: Event::Lose(self.node),
            returned: AppliedStep {
                event: Event::Return(self.node),
                answer,
            },
        })
    }

    // An event that the node takes by itself.
    // (inlined with what it calls, so that a call for an event that is known has what that needs, and no more)
    #[inline(always)]
    fn apply_event(&mut self, event: Event) -> Result<AppliedStep, Refused>
        requires alone { IsAlone (kind_of event) }
        requires named { node_of event ≡ self.old.node }
        ensures taken { IfOk result (IsTaken self.old event self.new) }
        ensures why { IfErr result (IsRefused Always self.old event) }
        ensures unchanged { IfErr result (λ _. self.new ≡ self.old) }
    {
        let answer = apply_alone(&self.setup, self.events, &mut self.node_state, &event)?;
        self.number = number_after(&event, self.events, self.number);
        self.events += 1;
        Ok(AppliedStep { event, answer })
    }

    // Whether there is no room for so many events more, one at least.
    fn is_full_for(&self, count: u32) -> bool
        requires { 0 < count }
        ensures full { result ≡ true → self.now.setup.events_max < self.now.events + count }
        ensures room { result ≡ false → self.now.events + count ≤ self.now.setup.events_max }
    {
        is_full_for(&self.setup, self.events, count)
    }

    // Whether the reply is one to the call that the node has under way.
    fn is_due(&self, reply: Reply) -> bool
        ensures { IsTrue result ↔ IsDue self.now reply }
    {
        reply.caller == self.node
            && reply.number == self.number
            && can_return(self.node_state.slot(), reply.answer)
    }

    // Whether the node has its call of this number under way.
    fn awaits(&self, number: u32) -> bool
        ensures { IsTrue result ↔ IsAwaited self.now number }
    {
        number == self.number && self.node_state.slot().is_sent()
    }
}

// The number of a node's last call after the event: a call has the number of events told before its start.
fn number_after(event: &Event, events: u32, number: u32) -> u32
    ensures { result ≡ number_after event.now events number }
{
    match event {
        Event::Start(_) => events,
        _ => number,
    }
}
