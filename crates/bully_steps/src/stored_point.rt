ghost use Rattle.std.specs.Prelude.{◌≡◌, unwrap_or};
ghost use Rattle.bully_steps.specs.declared.point.Point.{Point as AnyPoint};
ghost use Rattle.bully_steps.specs.NextPoint.{next_point, election, checked, timed_out};
ghost use Rattle.bully_steps.specs.Point.{offered, IsPointOf};
ghost use Rattle.bully_steps.specs.PointKind.{kind_of, point_at};

use crate::point_kind::{check_kind, election_kind, timeout_kind};
use crate::{Point, PointKind, Want};
use bully_base::{Node, NodeSet, Setup, Status};
use bully_calls::Outcome;
use std::marker::Model;

/// Where a node's procedure stands, kept to be changed where it lies, so that a step copies no set of nodes. Contracts
/// see it as the [`Point`] that it is.
#[derive(Drop, Debug)]
pub struct StoredPoint {
    kind: PointKind,
    left: NodeSet, // of no meaning where points of this kind have no nodes left
}

impl Model for StoredPoint {
    ghost use Rattle.bully_steps.specs.declared.point.Point.{Point};
    ghost use Rattle.bully_steps.specs.PointKind.{point_at};

    ghost Value = { Point };

    ghost view = { λ s. point_at s.kind s.left };
}

impl StoredPoint {
    /// No procedure runs.
    pub fn idle() -> StoredPoint
        ensures { result ≡ AnyPoint.Idle }
    {
        StoredPoint {
            kind: PointKind::Idle,
            left: NodeSet::new(),
        }
    }

    /// The point.
    pub fn point(&self) -> Point
        ensures { result ≡ self.now }
    {
        self.kind.point(&self.left)
    }

    /// The point's kind.
    pub fn kind(&self) -> PointKind
        ensures { result ≡ kind_of self.now }
    {
        self.kind
    }

    /// The nodes that the point has left; of no meaning where points of its kind have none.
    pub fn left(&self) -> &NodeSet
        ensures { self.now ≡ point_at (kind_of self.now) result.now }
    {
        &self.left
    }

    /// What the point offers at a node that has this coordinator. The rule: docs/ALGORITHM.md.
    // (inlined, so that a point that was just read stays in registers)
    #[inline(always)]
    pub fn offers(&self, setup: &Setup, node: Node, coordinator: Option<Node>) -> Want
        requires { IsPointOf setup.now node self.now }
        ensures { result ≡ offered setup.now coordinator self.now }
    {
        self.kind.offers(Some(&self.left), setup, node, coordinator)
    }

    /// Goes on by the outcome at the node, whose up set is `up`: to the point that [`Point::next`] tells; it stays
    /// where that tells none.
    // (inlined, as `offers` is)
    #[inline(always)]
    pub fn advance(&mut self, setup: &Setup, node: Node, up: &NodeSet, outcome: Outcome)
        ensures { self.new ≡ unwrap_or (next_point setup.now node up.now self.old outcome) self.old }
    {
        if let Some(next) = self.kind.next(Some(&self.left), setup, node, outcome) {
            self.kind.change_left(&mut self.left, up, outcome);
            self.kind = next;
        }
    }

    /// The procedure ends, or is stopped.
    pub fn stop(&mut self)
        ensures { self.new ≡ AnyPoint.Idle }
    {
        self.kind = PointKind::Idle;
    }

    /// Starts a check at an idle node, as `begin_check` tells.
    pub fn begin_check(
        &mut self,
        setup: &Setup,
        node: Node,
        status: Status,
        coordinator: Option<Node>,
    )
        ensures { self.new ≡ checked setup.now node status coordinator }
    {
        self.kind = check_kind(setup, node, status, coordinator);
    }

    /// Goes where a timeout leads an idle node, as `begin_timeout` tells.
    pub fn begin_timeout(&mut self, node: Node, status: Status, coordinator: Option<Node>)
        ensures { self.new ≡ timed_out node status coordinator }
    {
        self.kind = timeout_kind(node, status, coordinator);
    }

    /// Starts an election of the node, as a recovery does.
    pub fn begin_election(&mut self, node: Node)
        ensures { self.new ≡ election node }
    {
        self.kind = election_kind(node);
    }

    /// Readies the nodes of the up set, after a plan.
    pub fn begin_readying(&mut self, up: &NodeSet)
        ensures { self.new ≡ AnyPoint.Readying up.now }
    {
        self.kind = PointKind::Readying;
        self.left = *up;
    }
}
