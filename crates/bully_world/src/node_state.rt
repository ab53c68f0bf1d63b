ghost use Rattle.std.specs.Prelude.{◌≡◌, ◌≢◌, ◌⊎◌, ◌↔◌, ◌+◌, ◌<◌, ◌≤◌, ◌^◌, ℕ, length, not, IfOk, IfSome, IsSome};
ghost use Rattle.std.specs.Prelude.{IsTrue, None};
ghost use Rattle.std.specs.Option.{option_copied};
ghost use Rattle.bully_base.specs.declared.TheConstants.{NODES_MAX};
ghost use Rattle.bully_calls.specs.Pending.{is_sent, is_failed};
ghost use Rattle.bully_calls.specs.Slot.{CarriesFor, holds_call, outcome_in};
ghost use Rattle.bully_handlers.specs.Handler.{reply};
ghost use Rattle.bully_steps.specs.NextPoint.{next_vector};
ghost use Rattle.bully_steps.specs.Point.{offered, IsPointOf};
ghost use Rattle.bully_calls.specs.Events.{node_of};
ghost use Rattle.bully_world.specs.State.{empty_state};
ghost use Rattle.bully_world.specs.Step.{carried};
ghost use Rattle.bully_world.specs.Waiting.{sent_in};
ghost use Rattle.bully_world.specs.StateAfter.{with_vector, with_content, down_state, halted_number, recovered_state};
ghost use Rattle.bully_world.specs.StateAfter.{crashed_state, opened_state, phased_state, callee_state_after};
ghost use Rattle.bully_world.specs.StateAfter.{heard_state, proceeded_state, node_after_return, return_answer};
ghost use Rattle.bully_world.specs.StateAfter.{planned_state, started_state, node_after, node_answer, MayApply};

use bully_base::{Node, OutOfMemory, Setup, Status};
use bully_calls::{Answer, Call, CallKind, Event, Outcome, Phase, Slot, Tag};
use bully_handlers::Vector;
use bully_steps::{Point, PointKind, StoredPoint, Want};
use bully_table::Table;
use std::alloc::Global;
use std::marker::Model;

/// What is kept of one node.
#[derive(Drop, Debug)]
pub struct NodeState {
    vector: Vector,
    stored_point: StoredPoint,
    slot: Slot,
    generation: u32,
}

impl Model for NodeState {
    ghost use Rattle.bully_world.specs.State.{StoredNode};

    ghost Value = { StoredNode };

    ghost view = { λ m.
        record { vector = m.vector; point = m.stored_point; slot = m.slot; generation = m.generation } };
}

impl NodeState {
    /// A node before any event. Refused where an allocation fails.
    pub fn new(alloc: Global, setup: &Setup) -> Result<NodeState, OutOfMemory>
        ensures { IfOk result (λ m. m ≡ empty_state setup.now.partitions) }
    {
        Ok(NodeState {
            vector: Vector::new(alloc, *setup)?,
            stored_point: StoredPoint::idle(),
            slot: Slot::new(alloc, *setup)?,
            generation: 0,
        })
    }

    /// A node that is Down and has kept this task, if any; that has the setup's partitions. Refused where an allocation
    /// fails.
    pub fn restored(
        alloc: Global,
        setup: &Setup,
        task: Option<&Table>,
    ) -> Result<NodeState, OutOfMemory>
        requires { IfSome (option_copied task) (λ t. length t ≡ setup.now.partitions) }
        ensures { IfOk result (λ m. m ≡ down_state setup.now.partitions (option_copied task.entry)) }
    {
        let mut node_state = NodeState::new(alloc, setup)?;
        if let Some(task) = task {
            node_state.vector.plan(task);
        }
        Ok(node_state)
    }

    /// The node's vector.
    pub fn vector(&self) -> &Vector
        ensures { result.now ≡ self.now.vector }
    {
        &self.vector
    }

    /// Where its procedure stands.
    pub fn point(&self) -> Point
        ensures { result ≡ self.now.point }
    {
        self.stored_point.point()
    }

    /// The same, where it is kept.
    pub fn stored_point(&self) -> &StoredPoint
        ensures { result.now ≡ self.now.point }
    {
        &self.stored_point
    }

    /// Its call slot.
    pub fn slot(&self) -> &Slot
        ensures { result.now ≡ self.now.slot }
    {
        &self.slot
    }

    /// How often it was stopped or crashed.
    pub fn generation(&self) -> u32
        ensures { result ≡ self.now.generation }
    {
        self.generation
    }

    /// Whether the node is Down.
    pub fn is_down(&self) -> bool
        ensures { IsTrue result ↔ (self.now.vector.vector.status ≡ Status.Down) }
    {
        self.vector.status() == Status::Down
    }

    /// The node to which its call was sent, where it didn't run yet.
    pub fn sent_to(&self) -> Option<Node>
        ensures { result ≡ sent_in self.now }
    {
        match (self.slot.call(), self.slot.phase()) {
            (Some(call), Some(Phase::Sent)) => Some(call.callee),
            _ => None,
        }
    }

    /// What the node's point offers.
    // (inlined, as `World::apply_allowed` is)
    #[inline(always)]
    pub fn offer(&self, setup: &Setup, node: Node) -> Want
        requires { IsPointOf setup.now node self.now.point }
        ensures { result ≡ offered setup.now self.now.vector.vector.coordinator self.now.point }
    {
        self.stored_point
            .offers(setup, node, self.vector.coordinator())
    }

    /// The node recovers. Its task stays as it is where the setup keeps.
    pub fn recover(&mut self, setup: &Setup, node: Node)
        ensures { self.new ≡ recovered_state setup.now node self.old }
    {
        self.vector.recover(setup.keeps());
        self.stored_point.begin_election(node);
    }

    /// The node crashes: its vector, point and slot are emptied. Its task stays as it is where the setup keeps.
    pub fn crash(&mut self, setup: &Setup)
        requires { self.old.generation + 1 < 2 ^ 32 }
        ensures { self.new ≡ crashed_state setup.now self.old }
    {
        self.vector.crash(setup.keeps());
        self.stored_point.stop();
        self.discard();
        self.generation += 1;
    }

    /// The node starts this call. A Ready carries its task.
    // (inlined, as `World::apply_allowed` is)
    #[inline(always)]
    pub fn start(&mut self, node: Node, call: Call)
        requires empty { self.old.slot.content ≡ None }
        requires carries { CarriesFor call (carried call.kind self.old.vector.vector) self.old.slot.room }
        ensures { self.new ≡ opened_state node call self.old }
    {
        let tag = Tag {
            caller: node,
            generation: self.generation,
        };
        self.slot.open(tag, call, table_of(&self.vector, call.kind));
    }

    /// The node's call ran and was answered so.
    pub fn ran(&mut self, answer: Answer)
        requires sent { IsTrue (holds_call is_sent self.old.slot) }
        requires replied { (answer ≡ Answer.Yes) ⊎ (answer ≡ Answer.No) }
        ensures { self.new ≡ phased_state (Phase.Ran answer) self.old }
    {
        self.slot.ran(answer);
    }

    /// The node's call failed.
    pub fn lose(&mut self)
        requires { IsTrue (holds_call (λ f. not (is_failed f)) self.old.slot) }
        ensures { self.new ≡ phased_state Phase.Failed self.old }
    {
        self.slot.fail();
    }

    /// The call in the caller's slot runs at this node, which isn't Down. A Halt stops its procedure.
    pub fn receive(&mut self, caller: Node, slot: &Slot) -> Answer
        requires up { self.old.vector.vector.status ≢ Status.Down }
        requires room { self.old.generation + 1 < 2 ^ 32 }
        requires content { IsSome slot.now.content }
        requires carries { IfSome slot.now.content (λ p. CarriesFor p.call p.table self.old.vector.room) }
        ensures after { IfSome slot.now.content (λ p. self.new ≡ callee_state_after caller p self.old) }
        ensures answer { IfSome slot.now.content (λ p. result ≡ reply p.call.kind self.old.vector.vector) }
    {
        self.hear(caller, slot.call().unwrap(), slot.table())
    }

    /// The call, with the table that a Ready carries, runs at this node, which isn't Down. A Halt stops its procedure.
    pub fn hear(&mut self, caller: Node, call: Call, table: Option<&Table>) -> Answer
        requires up { self.old.vector.vector.status ≢ Status.Down }
        requires room { self.old.generation + 1 < 2 ^ 32 }
        requires carries { CarriesFor call (option_copied table) self.old.vector.room }
        ensures after { self.new ≡ heard_state caller call (option_copied table.entry) self.old }
        ensures answer { result ≡ reply call.kind self.old.vector.vector }
    {
        match call.kind {
            CallKind::AreYouUp => self.vector.are_you_up(),
            CallKind::AreYouNormal => self.vector.are_you_normal(),
            CallKind::Halt => {
                self.stored_point.stop();
                self.generation += 1;
                self.vector.halt(caller)
            }
            CallKind::NewCoordinator => self.vector.new_coordinator(caller),
            CallKind::Ready => self.vector.ready(caller, table.unwrap()),
        }
    }

    /// The node's call returns: an orphan's outcome is discarded, a live one's moves the point.
    // (inlined, as `World::apply_allowed` is)
    #[inline(always)]
    pub fn take_back(&mut self, setup: &Setup, node: Node) -> Answer
        requires at { IsPointOf setup.now node self.old.point }
        requires came { IsSome (outcome_in self.old.slot) }
        ensures after { self.new ≡ node_after_return setup.now node self.old self.old.slot.content }
        ensures answer { result ≡ return_answer self.old.generation self.old.slot.content }
    {
        if self.slot.is_orphan(self.generation) {
            return self.discard();
        }
        let outcome = self.slot.take();
        self.proceed(setup, node, outcome);
        match outcome {
            Outcome::Yes => Answer::Yes,
            Outcome::No => Answer::No,
            Outcome::Failed => Answer::Failed,
            Outcome::Started | Outcome::Moved | Outcome::Planned => unreachable!(),
        }
    }

    /// The node's call, if any, is taken out of its slot, in whatever phase, and comes to nothing.
    // (inlined, as `World::apply_allowed` is)
    #[inline(always)]
    pub fn discard(&mut self) -> Answer
        ensures after { self.new ≡ with_content None self.old }
        ensures answer { result ≡ Answer.Discarded }
    {
        self.slot.clear();
        Answer::Discarded
    }

    /// The node goes on by this outcome: its vector and its point change as the profile says.
    // (inlined, as `World::apply_allowed` is)
    #[inline(always)]
    pub fn proceed(&mut self, setup: &Setup, node: Node, outcome: Outcome)
        requires { IsPointOf setup.now node self.old.point }
        ensures { self.new ≡ proceeded_state setup.now node outcome self.old }
    {
        match outcome {
            Outcome::Moved => self.move_vector(node),
            Outcome::Yes => self.join_halted(),
            _ => {}
        }
        self.stored_point
            .advance(setup, node, self.vector.up(), outcome);
    }

    // The node's vector, where its procedure moves without a call.
    fn move_vector(&mut self, node: Node)
        ensures { self.new
            ≡ with_vector (next_vector node self.old.point Outcome.Moved self.old.vector.vector) self.old }
    {
        match self.stored_point.kind() {
            PointKind::Asking(_) => self.vector.become_candidate(node),
            PointKind::Halting(0) => self.vector.become_coordinator(node),
            PointKind::Readying => {
                if self.stored_point.left().is_empty() {
                    self.vector.finish();
                }
            }
            _ => {}
        }
    }

    // The node's vector, where its call was answered Yes: a halted node joins its up set.
    fn join_halted(&mut self)
        requires small { halted_number self.old.point ≤ NODES_MAX }
        ensures { (node : ℕ)
            → self.new ≡ with_vector (next_vector node self.old.point Outcome.Yes self.old.vector.vector) self.old }
    {
        if let PointKind::Halting(number) = self.stored_point.kind() {
            if let Some(callee) = Node::new(number) {
                self.vector.add_up(callee);
            }
        }
    }

    /// An event of this node, other than a Run, that nothing refuses.
    // (inlined, as `World::apply_allowed` is)
    #[inline(always)]
    pub fn apply(&mut self, setup: &Setup, event: &Event) -> Answer
        requires at { IsPointOf setup.now (node_of event.now) self.old.point }
        requires room { self.old.generation + 1 < 2 ^ 32 }
        requires may { MayApply setup.now event.now self.old }
        ensures after { self.new ≡ node_after setup.now event.now self.old }
        ensures answer { result ≡ node_answer event.now self.old }
    {
        let status = self.vector.status();
        let coordinator = self.vector.coordinator();
        match event {
            Event::Recover(node) => self.recover(setup, *node),
            Event::Crash(_) => self.crash(setup),
            Event::Check(node) => {
                self.stored_point
                    .begin_check(setup, *node, status, coordinator);
            }
            Event::Timeout(node) => self.stored_point.begin_timeout(*node, status, coordinator),
            Event::Start(node) => self.start_offered(setup, *node),
            Event::Run(_) => unreachable!(),
            Event::Lose(_) => self.lose(),
            Event::Return(node) => return self.take_back(setup, *node),
            Event::Drop(_) => return self.discard(),
            Event::Move(node) => self.proceed(setup, *node, Outcome::Moved),
            Event::Plan(_, table) => self.plan(table),
        }
        Answer::Done
    }

    // The node starts the call that its point offers.
    // (inlined, as `World::apply_allowed` is)
    #[inline(always)]
    fn start_offered(&mut self, setup: &Setup, node: Node)
        requires at { IsPointOf setup.now node self.old.point }
        requires may { MayApply setup.now (Event.Start node) self.old }
        ensures { self.new ≡ started_state setup.now node self.old }
    {
        match self.offer(setup, node) {
            Want::Start(call) => self.start(node, call),
            _ => unreachable!(),
        }
    }

    /// The node has planned this table.
    // (inlined, as `World::apply_allowed` is)
    #[inline(always)]
    pub fn plan(&mut self, table: &Table)
        requires { length table.now ≡ self.old.vector.room }
        ensures { self.new ≡ planned_state table.now self.old }
    {
        self.vector.plan(table);
        self.stored_point.begin_readying(self.vector.up());
    }
}

// The table that a call of this kind carries from a node with this vector.
fn table_of(vector: &Vector, kind: CallKind) -> Option<&Table>
    ensures { option_copied result ≡ carried kind vector.now.vector }
{
    match kind {
        CallKind::Ready => vector.task(),
        _ => None,
    }
}
