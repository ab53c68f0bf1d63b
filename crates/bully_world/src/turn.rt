ghost use Rattle.std.specs.Prelude.{◌≡◌, ◌≤◌, ℕ, List, true, IsSome, bytes_eq};
ghost use Rattle.std.specs.Option.{option_copied};
ghost use Rattle.bully_calls.specs.Slot.{pending_in};
ghost use Rattle.bully_steps.specs.ProcedureState.{HasSameNode, want_of, up_at, coordinator_at};
ghost use Rattle.bully_steps.specs.Procedure.{state_of};
ghost use Rattle.bully_steps.specs.PointKind.{point_at, nodes_in};
ghost use Rattle.bully_world.specs.Cause.{is_live_in};
ghost use Rattle.bully_world.specs.Turn.{event_with, kind_of_step, procedure_by, procedure_in, is_in_step, agree};
ghost use Rattle.bully_world.specs.Turn.{same_point, same_set, same_node, turn, turn_of_call, turn_of_want, has_table};
ghost use Rattle.bully_world.specs.declared.turn.StepKind.{StepKind};

use crate::World;
use crate::node_state::NodeState;
use bully_base::{Node, NodeSet, Status};
use bully_calls::{Event, EventKind, NodeEventKind, Phase, Slot};
use bully_steps::{PointKind, Procedure, Want};
use bully_table::Table;

/// A step of a node by its procedure, which the turn rule offers.
#[derive(Clone, Copy)]
pub enum StepKind {
    /// Its call is started.
    Start,
    /// Its call failed, since the callee is Down.
    Lose,
    /// Its call returns.
    Return,
    /// Its call, an orphan, is taken out.
    Drop,
    /// Its procedure moves.
    Move,
    /// Its table becomes its task.
    Plan,
}

impl StepKind {
    /// What the event of such a step is.
    pub fn kind(self) -> EventKind
        ensures { result ≡ kind_of_step self }
    {
        let kind = match self {
            StepKind::Start => NodeEventKind::Start,
            StepKind::Lose => NodeEventKind::Lose,
            StepKind::Return => NodeEventKind::Return,
            StepKind::Drop => NodeEventKind::Drop,
            StepKind::Move => NodeEventKind::Move,
            StepKind::Plan => return EventKind::Plan,
        };
        EventKind::Node(kind)
    }

    /// The event of such a step of the node. A plan has the table, and the others have none.
    pub fn event(self, node: Node, table: Option<Table>) -> Event
        requires { self ≡ StepKind.Plan → IsSome table }
        ensures { result ≡ event_with (kind_of_step self) node table }
    {
        match self.kind() {
            EventKind::Node(kind) => kind.event(node),
            EventKind::Plan => Event::Plan(node, table.unwrap()),
        }
    }
}

/// What the turn rule says. The rule: docs/ALGORITHM.md.
#[derive(Clone, Copy)]
pub enum Next {
    /// The procedure isn't in step with the world.
    Resync,
    /// There is nothing that it can do now.
    Rest,
    /// It can take this step.
    Take(StepKind),
}

impl World {
    /// The procedure that the world shows of the node, which is at most the setup's last. It awaits exactly where
    /// the node's slot holds a live call; at Planning it has no table.
    pub fn procedure(&self, node: Node) -> Procedure
        requires { node ≤ self.now.setup.nodes }
        ensures state { state_of result ≡ procedure_in self.now node }
        ensures in_step { is_in_step self.now (state_of result) ≡ true }
    {
        let mut procedure = Procedure::idle_in(self.setup(), node, 0);
        self.resync(&mut procedure);
        procedure
    }

    /// Gives the procedure, whose setup is the world's, up for the one that the world shows of its node.
    #[inline(never)]
    pub fn resync(&self, procedure: &mut Procedure)
        requires { (state_of procedure.old).setup ≡ self.now.setup }
        ensures state { state_of procedure.new ≡ procedure_in self.now (state_of procedure.old).node }
        ensures in_step { is_in_step self.now (state_of procedure.new) ≡ true }
        ensures same_node { HasSameNode (state_of procedure.old) (state_of procedure.new) }
    {
        let node_state = self.node_state(procedure.node());
        let vector = node_state.vector();
        let generation = node_state.generation();
        procedure.restart(
            generation,
            node_state.stored_point(),
            vector.up(),
            vector.coordinator(),
            holds_live_call(node_state.slot(), generation),
        );
    }

    /// What the turn rule says of the procedure, whose setup is the world's. Resync where it isn't in step. Where
    /// its node's slot is full, Return for a call that ran or failed, Lose for a sent one whose callee is Down, and
    /// Drop for a sent orphan whose callee isn't. Where the slot is empty, what the procedure wants, Plan only with
    /// its table. Else Rest.
    pub fn next(&self, procedure: &Procedure) -> Next
        requires { (state_of procedure.now).setup ≡ self.now.setup }
        ensures { result ≡ turn self.now (state_of procedure.now) }
    {
        let node = procedure.node();
        let node_state = self.node_state(node);
        if !agrees_with(procedure, node_state) {
            return Next::Resync;
        }
        let slot = node_state.slot();
        match (slot.call(), slot.phase()) {
            (Some(call), Some(phase)) => {
                let callee_is_down = self.vector(call.callee).status() == Status::Down;
                next_of_call(
                    callee_is_down,
                    holds_live_call(slot, node_state.generation()),
                    phase,
                )
            }
            _ => next_of_want(procedure),
        }
    }
}

// Whether the slot holds a call of this generation of its caller.
fn holds_live_call(slot: &Slot, generation: u32) -> bool
    ensures { result ≡ is_live_in (pending_in generation slot.now) }
{
    slot.call().is_some() && !slot.is_orphan(generation)
}

// What the turn rule says of a call in this phase.
fn next_of_call(callee_is_down: bool, is_live: bool, phase: Phase) -> Next
    ensures { result ≡ turn_of_call callee_is_down is_live phase }
{
    match phase {
        Phase::Sent if callee_is_down => Next::Take(StepKind::Lose),
        Phase::Sent if is_live => Next::Rest,
        Phase::Sent => Next::Take(StepKind::Drop),
        Phase::Ran(_) | Phase::Failed => Next::Take(StepKind::Return),
    }
}

// What the turn rule says where the slot is empty.
fn next_of_want(procedure: &Procedure) -> Next
    ensures { result ≡ turn_of_want (has_table (state_of procedure.now)) (want_of (state_of procedure.now)) }
{
    match procedure.want() {
        Want::Nothing | Want::Await => Next::Rest,
        Want::Start(_) => Next::Take(StepKind::Start),
        Want::Move => Next::Take(StepKind::Move),
        Want::Plan => match procedure.table() {
            Some(_) => Next::Take(StepKind::Plan),
            None => Next::Rest,
        },
    }
}

// Whether the procedure agrees with what is kept of its node on generation, point and call, and on the up set or the
// coordinator that is held at the point.
fn agrees_with(procedure: &Procedure, node_state: &NodeState) -> bool
    ensures { result ≡ agree (state_of procedure.now)
        (procedure_by (state_of procedure.now).setup (state_of procedure.now).node node_state.now) }
{
    let stored_point = node_state.stored_point();
    let kind = stored_point.kind();
    let vector = node_state.vector();
    procedure.generation() == node_state.generation()
        && is_same_point(
            &procedure.kind(),
            procedure.left(),
            &kind,
            stored_point.left(),
        )
        && procedure.awaits() == holds_live_call(node_state.slot(), node_state.generation())
        && is_same_set(procedure.up(), up_at(&kind, vector.up()))
        && is_same_node(
            procedure.coordinator(),
            coordinator_at(&kind, vector.coordinator()),
        )
}

// The up set, where a procedure holds it at a point of this kind.
fn up_at<'a>(kind: &PointKind, up: &'a NodeSet) -> Option<&'a NodeSet>
    ensures { (left : List ℕ) → option_copied result ≡ up_at (point_at kind.now left) up.now }
{
    match kind {
        PointKind::Halting(_) | PointKind::Announcing | PointKind::Planning => Some(up),
        _ => None,
    }
}

// The coordinator, where a procedure holds it at a point of this kind.
fn coordinator_at(kind: &PointKind, coordinator: Option<Node>) -> Option<Node>
    ensures { (left : List ℕ) → result ≡ coordinator_at (point_at kind.now left) coordinator }
{
    match kind {
        PointKind::Inquiring => coordinator,
        _ => None,
    }
}

// Whether the points of these kinds are the same, with the same nodes left.
fn is_same_point(
    kind: &PointKind,
    left: Option<&NodeSet>,
    shown: &PointKind,
    shown_left: &NodeSet,
) -> bool
    ensures { result
        ≡ same_point (point_at kind.now (nodes_in (option_copied left.entry))) (point_at shown.now shown_left.now) }
{
    match (kind, shown) {
        (PointKind::Asking(next), PointKind::Asking(other)) => next == other,
        (PointKind::Halting(next), PointKind::Halting(other)) => next == other,
        (PointKind::Announcing, PointKind::Announcing) => is_left(left, shown_left),
        (PointKind::Readying, PointKind::Readying) => is_left(left, shown_left),
        (PointKind::Checking(callee), PointKind::Checking(other)) => callee == other,
        (PointKind::Idle, PointKind::Idle) => true,
        (PointKind::Planning, PointKind::Planning) => true,
        (PointKind::Inquiring, PointKind::Inquiring) => true,
        _ => false,
    }
}

// Whether these nodes are left, nobody without a set.
fn is_left(left: Option<&NodeSet>, shown: &NodeSet) -> bool
    ensures { result ≡ bytes_eq (nodes_in (option_copied left.entry)) shown.now }
{
    match left {
        Some(nodes) => are_same_nodes(nodes, shown),
        None => shown.is_empty(),
    }
}

// Whether both hold a set, and the same, or neither does.
fn is_same_set(up: Option<&NodeSet>, shown: Option<&NodeSet>) -> bool
    ensures { result ≡ same_set (option_copied up.entry) (option_copied shown.entry) }
{
    match (up, shown) {
        (Some(up), Some(shown)) => are_same_nodes(up, shown),
        (None, None) => true,
        _ => false,
    }
}

// Whether the sets have the same members.
fn are_same_nodes(set: &NodeSet, other: &NodeSet) -> bool
    ensures { result ≡ bytes_eq set.now other.now }
{
    set.len() == other.len() && set == other
}

fn is_same_node(coordinator: Option<Node>, shown: Option<Node>) -> bool
    ensures { result ≡ same_node coordinator shown }
{
    coordinator == shown
}
