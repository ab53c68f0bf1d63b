ghost use Rattle.std.specs.Prelude.{◌≡◌};
ghost use Rattle.std.specs.Option.{option_copied};
ghost use Rattle.bully_steps.specs.NextPoint.{next_point, election, checked, timed_out};
ghost use Rattle.bully_steps.specs.Point.{offered, IsPointOf};
ghost use Rattle.bully_steps.specs.PointKind.{kind_of, point_at, nodes_in};

use crate::PointKind;
use crate::point_kind::{check_kind, election_kind, nodes_in, timeout_kind};
use bully_base::{Node, NodeSet, Setup, Status};
use bully_calls::{Call, Outcome};

/// Where a node's procedure stands. `Asking` above the last node, `Halting(0)`, and `Announcing` and
/// `Readying` of no node have no call left.
#[derive(Clone, Copy, PartialEq, Eq, Debug)]
pub enum Point {
    /// No procedure runs.
    Idle,
    /// Asks the higher nodes whether they are up; this one is next.
    Asking(u16),
    /// Halts the lower nodes; this one is next.
    Halting(u16),
    /// Announces itself to these nodes.
    Announcing(NodeSet),
    /// Plans the task's new table.
    Planning,
    /// Readies these nodes with the new table.
    Readying(NodeSet),
    /// Checks whether the other nodes are normal; this one is next.
    Checking(Node),
    /// Asks its coordinator whether it is up.
    Inquiring,
}

/// What a point offers, or what a procedure wants.
#[derive(Clone, Copy, PartialEq, Eq)]
pub enum Want {
    /// Nothing: no procedure runs.
    Nothing,
    /// To start this call.
    Start(Call),
    /// To move on.
    Move,
    /// To plan the task's new table.
    Plan,
    /// Its call is under way.
    Await,
}

impl Point {
    /// Its kind.
    pub fn kind(&self) -> PointKind
        ensures { result ≡ kind_of self.now }
    {
        match self {
            Point::Idle => PointKind::Idle,
            Point::Asking(number) => PointKind::Asking(*number),
            Point::Halting(number) => PointKind::Halting(*number),
            Point::Announcing(_) => PointKind::Announcing,
            Point::Planning => PointKind::Planning,
            Point::Readying(_) => PointKind::Readying,
            Point::Checking(callee) => PointKind::Checking(*callee),
            Point::Inquiring => PointKind::Inquiring,
        }
    }

    /// The nodes that it has left, where it keeps them.
    pub(crate) fn left(&self) -> Option<&NodeSet>
        ensures { self.now ≡ point_at (kind_of self.now) (nodes_in (option_copied result)) }
    {
        match self {
            Point::Announcing(left) | Point::Readying(left) => Some(left),
            _ => None,
        }
    }

    /// What the point offers at a node that has this coordinator. The rule: docs/ALGORITHM.md.
    pub fn offers(&self, setup: &Setup, node: Node, coordinator: Option<Node>) -> Want
        requires { IsPointOf setup.now node self.now }
        ensures { result ≡ offered setup.now coordinator self.now }
    {
        self.kind().offers(self.left(), setup, node, coordinator)
    }

    /// The point that follows this one at the node, whose up set is `up`, by the outcome. `Started` keeps a point
    /// that offers a call. None for each outcome that docs/ALGORITHM.md doesn't list at the point.
    pub fn next(self, setup: Setup, node: Node, up: &NodeSet, outcome: Outcome) -> Option<Point>
        ensures { result ≡ next_point setup node up.now self outcome }
    {
        self.next_in(&setup, node, up, outcome)
    }

    /// [`Point::next`], with point and setup by reference.
    pub fn next_in(
        &self,
        setup: &Setup,
        node: Node,
        up: &NodeSet,
        outcome: Outcome,
    ) -> Option<Point>
        ensures { result ≡ next_point setup.now node up.now self.now outcome }
    {
        let kind = self.kind();
        let next = kind.next(self.left(), setup, node, outcome)?;
        let mut left = nodes_in(self.left());
        kind.change_left(&mut left, up, outcome);
        Some(next.point(&left))
    }
}

/// Where Check leads an idle node: to ask the others where it is Normal, its own coordinator and not alone.
pub fn begin_check(setup: Setup, node: Node, status: Status, coordinator: Option<Node>) -> Point
    ensures { result ≡ checked setup node status coordinator }
{
    check_kind(&setup, node, status, coordinator).point(&NodeSet::new())
}

/// Where Timeout leads an idle node: to an election, or to ask its coordinator where that is another node.
pub fn begin_timeout(_setup: Setup, node: Node, status: Status, coordinator: Option<Node>) -> Point
    ensures { result ≡ timed_out node status coordinator }
{
    timeout_kind(node, status, coordinator).point(&NodeSet::new())
}

/// Where a recovery leads the node: to an election.
pub fn begin_recovery(
    _setup: Setup,
    node: Node,
    _status: Status,
    _coordinator: Option<Node>,
) -> Point
    ensures { result ≡ election node }
{
    election_kind(node).point(&NodeSet::new())
}
