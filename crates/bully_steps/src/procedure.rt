ghost use Rattle.std.specs.Prelude.{◌≡◌, ◌≤◌, [], None, Some, true, false, option_map};
ghost use Rattle.std.specs.Option.{option_copied};
ghost use Rattle.bully_base.specs.NodeSet.{IsFallingBelow};
ghost use Rattle.bully_steps.specs.ProcedureState.{IsProcedureState, IsCall, SuitsInquiry, CanResume, procedure_state};
ghost use Rattle.bully_steps.specs.ProcedureState.{want_of, next_of, resumed, resumed_point, resumed_up};
ghost use Rattle.bully_steps.specs.ProcedureState.{is_started as started};
ghost use Rattle.bully_steps.specs.Point.{offered, IsPointOf};
ghost use Rattle.bully_steps.specs.PointKind.{kind_of, left_at, point_at, nodes_in};
ghost use Rattle.bully_steps.specs.Procedure.{state_of};

use crate::point_kind::{leave_answered, nodes_in};
use crate::states::{
    Announced, Announcing, Asked, Asking, Begins, Checked, Checking, Halted, Halting, Identity,
    Idle, Inquired, Inquiring, Planned, Planning, Readied, Readying,
};
use crate::{Point, PointKind, StoredPoint, Want};
use bully_base::{Node, NodeSet, Setup};
use bully_calls::Outcome;
use bully_table::Table;

/// The procedure of a node, as a value that is resumed: a state of the 1982 paper's procedures, as
/// docs/ALGORITHM.md has them, with what it holds there and no more.
#[derive(Drop, Debug)]
pub enum Procedure {
    Idle(Idle),
    Asking(Asking),
    Halting(Halting),
    Announcing(Announcing),
    Planning(Planning),
    Planned(Planned),
    Readying(Readying),
    Checking(Checking),
    Inquiring(Inquiring),
}

impl Procedure {
    /// No procedure runs at the node, which is at most the setup's last, in this of its generations. It is for a
    /// caller's own loop, as [`Procedure::at`] and [`Procedure::resume`] are: the program's own turns go on where a
    /// procedure lies.
    pub fn idle(setup: Setup, node: Node, generation: u32) -> Procedure
        requires { node ≤ setup.nodes }
        ensures { state_of result ≡ procedure_state setup node generation Point.Idle [] None false }
    {
        Procedure::idle_in(&setup, node, generation)
    }

    /// [`Procedure::idle`], with the setup by reference.
    #[inline(never)]
    pub fn idle_in(setup: &Setup, node: Node, generation: u32) -> Procedure
        requires { node ≤ setup.now.nodes }
        ensures { state_of result ≡ procedure_state setup.now node generation Point.Idle [] None false }
    {
        Procedure::Idle(Idle {
            identity: Identity::new(setup, node, generation),
            awaits: false,
        })
    }

    /// The procedure of the node, which is at most the setup's last, at this point; at Planning without a table.
    /// `up` has only lower nodes. It awaits a call only where the point offers one, and at Inquiring the
    /// coordinator is another node of the setup. What the point doesn't hold is passed over.
    pub fn at(
        setup: Setup,
        node: Node,
        generation: u32,
        point: Point,
        up: &NodeSet,
        coordinator: Option<Node>,
        awaits: bool,
    ) -> Procedure
        requires node { node ≤ setup.nodes }
        requires up { IsFallingBelow node up.now }
        requires point { IsPointOf setup node point }
        requires inquiry { SuitsInquiry setup node coordinator point }
        requires call { awaits ≡ true → IsCall (offered setup coordinator point) }
        ensures { state_of result ≡ procedure_state setup node generation point up.now coordinator awaits }
    {
        Procedure::at_in(&setup, node, generation, point, up, coordinator, awaits)
    }

    /// [`Procedure::at`], with the setup by reference.
    pub fn at_in(
        setup: &Setup,
        node: Node,
        generation: u32,
        point: Point,
        up: &NodeSet,
        coordinator: Option<Node>,
        awaits: bool,
    ) -> Procedure
        requires node { node ≤ setup.now.nodes }
        requires up { IsFallingBelow node up.now }
        requires point { IsPointOf setup.now node point }
        requires inquiry { SuitsInquiry setup.now node coordinator point }
        requires call { awaits ≡ true → IsCall (offered setup.now coordinator point) }
        ensures { state_of result ≡ procedure_state setup.now node generation point up.now coordinator awaits }
    {
        let mut procedure = Procedure::idle_in(setup, node, generation);
        procedure.go_to(
            point.kind(),
            &nodes_in(point.left()),
            up,
            coordinator,
            awaits,
        );
        procedure
    }

    /// The setup of the node's group.
    pub fn setup(&self) -> &Setup
        ensures setup { result.now ≡ (state_of self.now).setup }
        ensures state { IsProcedureState (state_of self.now) }
    {
        &self.identity().setup
    }

    /// The node, which is one of the setup's.
    pub fn node(&self) -> Node
        ensures node { result ≡ (state_of self.now).node }
        ensures state { IsProcedureState (state_of self.now) }
    {
        self.identity().node
    }

    /// The generation of the node at which the procedure started.
    pub fn generation(&self) -> u32
        ensures { result ≡ (state_of self.now).generation }
    {
        self.identity().generation
    }

    /// Where it stands.
    pub fn point(&self) -> Point
        ensures { result ≡ (state_of self.now).point }
    {
        self.kind().point(&nodes_in(self.left()))
    }

    /// The kind of the point where it stands.
    pub fn kind(&self) -> PointKind
        ensures { result ≡ kind_of (state_of self.now).point }
    {
        match self {
            Procedure::Idle(_) => PointKind::Idle,
            Procedure::Asking(asking) => PointKind::Asking(asking.held.next),
            Procedure::Halting(halting) => PointKind::Halting(halting.held.next),
            Procedure::Announcing(_) => PointKind::Announcing,
            Procedure::Planning(_) | Procedure::Planned(_) => PointKind::Planning,
            Procedure::Readying(_) => PointKind::Readying,
            Procedure::Checking(checking) => PointKind::Checking(checking.held.callee),
            Procedure::Inquiring(_) => PointKind::Inquiring,
        }
    }

    /// The nodes that are left, at Announcing and Readying; none elsewhere.
    pub fn left(&self) -> Option<&NodeSet>
        ensures left { option_copied result ≡ left_at (state_of self.now).point }
        ensures point { (state_of self.now).point
            ≡ point_at (kind_of (state_of self.now).point) (nodes_in (option_copied result)) }
    {
        match self {
            Procedure::Announcing(announcing) => Some(&announcing.held.rest),
            Procedure::Readying(readying) => Some(&readying.held.rest),
            _ => None,
        }
    }

    /// The lower nodes that are up, at Halting, Announcing and Planning.
    pub fn up(&self) -> Option<&NodeSet>
        ensures { option_copied result ≡ (state_of self.now).up }
    {
        match self {
            Procedure::Halting(halting) => Some(&halting.held.up),
            Procedure::Announcing(announcing) => Some(&announcing.held.up),
            Procedure::Planning(planning) => Some(&planning.up),
            Procedure::Planned(planned) => Some(&planned.up),
            _ => None,
        }
    }

    /// Whom the node inquires of, at Inquiring.
    pub fn coordinator(&self) -> Option<Node>
        ensures { result ≡ (state_of self.now).coordinator }
    {
        match self {
            Procedure::Inquiring(inquiring) => Some(inquiring.held.coordinator),
            _ => None,
        }
    }

    /// The planned table, at Planning once it is prepared.
    pub fn table(&self) -> Option<&Table>
        ensures { option_copied result ≡ (state_of self.now).table }
    {
        match self {
            Procedure::Planned(planned) => Some(&planned.table),
            _ => None,
        }
    }

    /// Whether its call is under way.
    pub fn awaits(&self) -> bool
        ensures { result ≡ (state_of self.now).awaits }
    {
        match self {
            Procedure::Asking(asking) => asking.awaits,
            Procedure::Halting(halting) => halting.awaits,
            Procedure::Announcing(announcing) => announcing.awaits,
            Procedure::Readying(readying) => readying.awaits,
            Procedure::Checking(checking) => checking.awaits,
            Procedure::Inquiring(inquiring) => inquiring.awaits,
            Procedure::Idle(_) | Procedure::Planning(_) | Procedure::Planned(_) => false,
        }
    }

    /// What the procedure wants: to await its call where one is under way, else what its point offers.
    pub fn want(&self) -> Want
        ensures { result ≡ want_of (state_of self.now) }
    {
        if self.awaits() {
            Want::Await
        } else {
            self.kind()
                .offers(self.left(), self.setup(), self.node(), self.coordinator())
        }
    }

    /// The procedure that goes on by the outcome, one that its want can have: a call is started, moves and plans
    /// are done, and a call under way is answered or fails; No comes at Checking alone. It is for a caller's own loop.
    pub fn resume(self, outcome: Outcome) -> Procedure
        requires { CanResume (state_of self) outcome }
        ensures state { state_of result ≡ resumed (state_of self) outcome }
        ensures point { next_of (state_of self) outcome ≡ Some (state_of result).point }
    {
        let mut procedure = self;
        procedure.advance(outcome);
        procedure
    }

    /// [`Procedure::resume`], where the procedure lies.
    pub fn advance(&mut self, outcome: Outcome)
        requires { CanResume (state_of self.old) outcome }
        ensures state { state_of self.new ≡ resumed (state_of self.old) outcome }
        ensures point { next_of (state_of self.old) outcome ≡ Some (state_of self.new).point }
    {
        if !self.stay(outcome) {
            self.change(outcome);
        }
    }

    // Goes on by the outcome, where that leads to a point of the same state, and tells whether it does. Whose procedure
    // it is stays where it lies, and no set is copied.
    fn stay(&mut self, outcome: Outcome) -> bool
        requires { CanResume (state_of self.old) outcome }
        ensures stays { result ≡ true → state_of self.new ≡ resumed (state_of self.old) outcome }
        ensures same { result ≡ false → state_of self.new ≡ state_of self.old }
        ensures point { next_of (state_of self.old) outcome ≡ Some (resumed_point (state_of self.old) outcome) }
    {
        let next = self
            .kind()
            .next(self.left(), self.setup(), self.node(), outcome)
            .unwrap();
        let awaits = is_started(outcome);
        match (self, next) {
            (Procedure::Asking(asking), PointKind::Asking(number)) => {
                asking.held.next = number;
                asking.awaits = awaits;
                true
            }
            (Procedure::Halting(halting), PointKind::Halting(number)) => {
                halting.halt_next(number, outcome);
                true
            }
            (Procedure::Announcing(announcing), PointKind::Announcing) => {
                leave_answered(&mut announcing.held.rest, outcome);
                announcing.awaits = awaits;
                true
            }
            (Procedure::Readying(readying), PointKind::Readying) => {
                leave_answered(&mut readying.held.rest, outcome);
                readying.awaits = awaits;
                true
            }
            (Procedure::Checking(checking), PointKind::Checking(callee)) => {
                checking.held.callee = callee;
                checking.awaits = awaits;
                true
            }
            (Procedure::Inquiring(inquiring), PointKind::Inquiring) => {
                inquiring.awaits = awaits;
                true
            }
            _ => false,
        }
    }

    // Goes on by the outcome, to whichever state.
    #[inline(never)]
    fn change(&mut self, outcome: Outcome)
        requires { CanResume (state_of self.old) outcome }
        ensures { state_of self.new ≡ resumed (state_of self.old) outcome }
    {
        let next = self
            .kind()
            .next(self.left(), self.setup(), self.node(), outcome)
            .unwrap();
        match next {
            PointKind::Idle => Idle::begin(self),
            _ => self.change_to(next, outcome),
        }
    }

    // Goes on by the outcome, to the point of this kind.
    // (apart, so that a procedure that ends copies no set)
    #[inline(never)]
    fn change_to(&mut self, next: PointKind, outcome: Outcome)
        requires state { IsProcedureState (state_of self.old) }
        requires can { CanResume (state_of self.old) outcome }
        requires next { option_map kind_of (next_of (state_of self.old) outcome) ≡ Some next }
        ensures { state_of self.new ≡ resumed (state_of self.old) outcome }
    {
        let up = self.up_after(outcome);
        let mut left = nodes_in(self.left());
        self.kind().change_left(&mut left, &up, outcome);
        let coordinator = self.coordinator();
        self.go_to(next, &left, &up, coordinator, is_started(outcome));
    }

    /// Becomes the procedure of its node that [`Procedure::at`] makes at this stored point, in this of the node's
    /// generations; what that asks of its arguments must hold here, too.
    pub fn restart(
        &mut self,
        generation: u32,
        stored_point: &StoredPoint,
        up: &NodeSet,
        coordinator: Option<Node>,
        awaits: bool,
    )
        requires up { IsFallingBelow (state_of self.old).node up.now }
        requires point { IsPointOf (state_of self.old).setup (state_of self.old).node stored_point.now }
        requires inquiry { SuitsInquiry (state_of self.old).setup
            (state_of self.old).node coordinator stored_point.now }
        requires call { awaits ≡ true → IsCall (offered (state_of self.old).setup coordinator stored_point.now) }
        ensures { state_of self.new ≡ procedure_state (state_of self.old).setup
            (state_of self.old).node generation stored_point.now up.now coordinator awaits }
    {
        self.set_generation(generation);
        self.go_to(
            stored_point.kind(),
            stored_point.left(),
            up,
            coordinator,
            awaits,
        );
    }

    // Becomes the same in this of the node's generations.
    fn set_generation(&mut self, generation: u32)
        ensures { state_of self.new ≡ record (state_of self.old) { generation = generation } }
    {
        match self {
            Procedure::Idle(idle) => idle.identity.generation = generation,
            Procedure::Asking(asking) => asking.identity.generation = generation,
            Procedure::Halting(halting) => halting.identity.generation = generation,
            Procedure::Announcing(announcing) => announcing.identity.generation = generation,
            Procedure::Planning(planning) => planning.identity.generation = generation,
            Procedure::Planned(planned) => planned.identity.generation = generation,
            Procedure::Readying(readying) => readying.identity.generation = generation,
            Procedure::Checking(checking) => checking.identity.generation = generation,
            Procedure::Inquiring(inquiring) => inquiring.identity.generation = generation,
        }
    }

    // Goes to the point of this kind with these nodes left, with this up set and this coordinator. Whose procedure it
    // is stays.
    fn go_to(
        &mut self,
        kind: PointKind,
        left: &NodeSet,
        up: &NodeSet,
        coordinator: Option<Node>,
        awaits: bool,
    )
        requires up { IsFallingBelow (state_of self.old).node up.now }
        requires point { IsPointOf (state_of self.old).setup (state_of self.old).node (point_at kind left.now) }
        requires inquiry { SuitsInquiry (state_of self.old).setup (state_of self.old).node coordinator
            (point_at kind left.now) }
        requires call { awaits ≡ true
            → IsCall (offered (state_of self.old).setup coordinator (point_at kind left.now)) }
        ensures { state_of self.new ≡ procedure_state (state_of self.old).setup (state_of self.old).node
            (state_of self.old).generation (point_at kind left.now) up.now coordinator awaits }
    {
        match kind {
            PointKind::Idle => Idle::begin(self),
            PointKind::Asking(next) => Asked { next }.begin(self, awaits),
            PointKind::Halting(next) => Halted { next, up: *up }.begin(self, awaits),
            PointKind::Announcing => Announced {
                rest: *left,
                up: *up,
            }
            .begin(self, awaits),
            PointKind::Planning => Planning::begin(self, up),
            PointKind::Readying => Readied { rest: *left }.begin(self, awaits),
            PointKind::Checking(callee) => Checked { callee }.begin(self, awaits),
            PointKind::Inquiring => {
                let coordinator = coordinator.unwrap();
                Inquired { coordinator }.begin(self, awaits)
            }
        }
    }

    // The up set that goes with the point to which the outcome leads: a node that answered its halt joins it.
    fn up_after(&self, outcome: Outcome) -> NodeSet
        requires { CanResume (state_of self.now) outcome }
        ensures { result ≡ resumed_up (state_of self.now) outcome }
    {
        match self {
            Procedure::Halting(halting) if outcome == Outcome::Yes => halting.joined(),
            _ => nodes_in(self.up()),
        }
    }

    // Whose procedure it is.
    pub(crate) fn identity(&self) -> &Identity
        ensures setup { result.now.setup ≡ (state_of self.now).setup }
        ensures node { result.now.node ≡ (state_of self.now).node }
        ensures generation { result.now.generation ≡ (state_of self.now).generation }
        ensures state { IsProcedureState (state_of self.now) }
    {
        match self {
            Procedure::Idle(idle) => &idle.identity,
            Procedure::Asking(asking) => &asking.identity,
            Procedure::Halting(halting) => &halting.identity,
            Procedure::Announcing(announcing) => &announcing.identity,
            Procedure::Planning(planning) => &planning.identity,
            Procedure::Planned(planned) => &planned.identity,
            Procedure::Readying(readying) => &readying.identity,
            Procedure::Checking(checking) => &checking.identity,
            Procedure::Inquiring(inquiring) => &inquiring.identity,
        }
    }
}

// A call is under way from its start on.
fn is_started(outcome: Outcome) -> bool
    ensures { result ≡ started outcome }
{
    matches!(outcome, Outcome::Started)
}
