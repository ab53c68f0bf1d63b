ghost use Rattle.std.specs.Prelude.{◌≡◌, ◌<◌, ◌≤◌, ◌+◌, ℕ, List, Some, None, nat_le, unwrap_or, option_map};
ghost use Rattle.std.specs.Prelude.{if◌then◌else◌};
ghost use Rattle.std.specs.Option.{option_copied};
ghost use Rattle.bully_base.specs.NodeSet.{highest_of};
ghost use Rattle.bully_base.specs.Setup.{Setup as SetupState};
ghost use Rattle.bully_base.specs.declared.TheConstants.{NODES_MAX};
ghost use Rattle.bully_steps.specs.declared.point.Point.{Point as AnyPoint};
ghost use Rattle.bully_steps.specs.NextPoint.{next_point, election, checked, timed_out, checking_from};
ghost use Rattle.bully_steps.specs.Point.{offered, start, IsPointOf};
ghost use Rattle.bully_steps.specs.PointKind.{kind_of, point_at, nodes_in, left_behind, left_after};

use crate::{Point, Want};
use bully_base::{Node, NodeSet, Setup, Status};
use bully_calls::{Call, CallKind, Outcome};

/// The kind of a [`Point`]: a point without the nodes that `Announcing` and `Readying` have left.
#[derive(Clone, Copy, Debug)]
pub enum PointKind {
    /// No procedure runs.
    Idle,
    /// Asks the higher nodes whether they are up; this one is next.
    Asking(u16),
    /// Halts the lower nodes; this one is next.
    Halting(u16),
    /// Announces itself to the nodes that are left.
    Announcing,
    /// Plans the task's new table.
    Planning,
    /// Readies the nodes that are left with the new table.
    Readying,
    /// Checks whether the other nodes are normal; this one is next.
    Checking(Node),
    /// Asks its coordinator whether it is up.
    Inquiring,
}

impl PointKind {
    /// The point of this kind with these nodes left.
    pub fn point(&self, left: &NodeSet) -> Point
        ensures { result ≡ point_at self.now left.now }
    {
        match self {
            PointKind::Idle => Point::Idle,
            PointKind::Asking(number) => Point::Asking(*number),
            PointKind::Halting(number) => Point::Halting(*number),
            PointKind::Announcing => Point::Announcing(*left),
            PointKind::Planning => Point::Planning,
            PointKind::Readying => Point::Readying(*left),
            PointKind::Checking(callee) => Point::Checking(*callee),
            PointKind::Inquiring => Point::Inquiring,
        }
    }

    /// What a point of this kind offers at a node that has this coordinator, with these nodes left; nobody without a
    /// set. The rule: docs/ALGORITHM.md.
    // (inlined, so that a point that was just read stays in registers)
    #[inline(always)]
    pub fn offers(
        &self,
        left: Option<&NodeSet>,
        setup: &Setup,
        node: Node,
        coordinator: Option<Node>,
    ) -> Want
        requires { IsPointOf setup.now node (point_at self.now (nodes_in (option_copied left))) }
        ensures { result ≡ offered setup.now coordinator (point_at self.now (nodes_in (option_copied left.entry))) }
    {
        match self {
            PointKind::Idle => Want::Nothing,
            PointKind::Asking(number) => {
                start_or_move(next_asked(setup, *number), CallKind::AreYouUp)
            }
            PointKind::Halting(number) => start_or_move(Node::new(*number), CallKind::Halt),
            PointKind::Announcing => start_or_move(highest_in(left), CallKind::NewCoordinator),
            PointKind::Planning => Want::Plan,
            PointKind::Readying => start_or_move(highest_in(left), CallKind::Ready),
            PointKind::Checking(callee) => start_or_move(Some(*callee), CallKind::AreYouNormal),
            PointKind::Inquiring => match coordinator {
                Some(callee) => start_or_move(Some(callee), CallKind::AreYouUp),
                None => Want::Nothing,
            },
        }
    }

    /// The kind of the point that follows one of this kind with these nodes left, nobody without a set, by the outcome.
    /// `Started` keeps a point that offers a call. None for each outcome that docs/ALGORITHM.md doesn't list at the
    /// point.
    // (inlined, as `offers` is)
    #[inline(always)]
    pub fn next(
        &self,
        left: Option<&NodeSet>,
        setup: &Setup,
        node: Node,
        outcome: Outcome,
    ) -> Option<PointKind>
        ensures { (up : List ℕ) → result ≡ option_map kind_of
            (next_point setup.now node up (point_at self.now (nodes_in (option_copied left.entry))) outcome) }
    {
        match self {
            PointKind::Idle => None,
            PointKind::Asking(number) => after_asking(setup, node, *number, outcome),
            PointKind::Halting(number) => after_halting(*number, outcome),
            PointKind::Announcing => after_announcing(node, left, outcome),
            PointKind::Planning => match outcome {
                Outcome::Planned => Some(PointKind::Readying),
                _ => None,
            },
            PointKind::Readying => after_readying(node, left, outcome),
            PointKind::Checking(callee) => after_checking(setup, node, *callee, outcome),
            PointKind::Inquiring => match outcome {
                Outcome::Started => Some(PointKind::Inquiring),
                Outcome::Yes => Some(PointKind::Idle),
                Outcome::Failed => Some(election_kind(node)),
                _ => None,
            },
        }
    }

    /// Changes the nodes that a point of this kind has left to those after it, where the outcome leads on from it. An
    /// announcement and a task's new table go to the whole up set, the highest node first.
    // (inlined, as `offers` is)
    #[inline(always)]
    pub fn change_left(&self, left: &mut NodeSet, up: &NodeSet, outcome: Outcome)
        ensures { left.new ≡ left_after self.now outcome up.now left.old }
    {
        match self {
            PointKind::Announcing | PointKind::Readying => leave_answered(left, outcome),
            PointKind::Halting(_) => {
                if outcome == Outcome::Moved {
                    *left = *up;
                }
            }
            PointKind::Planning => *left = *up,
            PointKind::Idle | PointKind::Asking(_) => {}
            PointKind::Checking(_) | PointKind::Inquiring => {}
        }
    }
}

/// Where Check leads an idle node: to ask the others where it is Normal, its own coordinator and not alone.
pub(crate) fn check_kind(
    setup: &Setup,
    node: Node,
    status: Status,
    coordinator: Option<Node>,
) -> PointKind
    ensures { (left : List ℕ) → point_at result left ≡ checked setup.now node status coordinator }
{
    let leads = status == Status::Normal && coordinator == Some(node);
    if leads && setup.nodes() > 1 {
        checking_at(setup, node, 1)
    } else {
        PointKind::Idle
    }
}

/// Where Timeout leads an idle node: to an election, or to ask its coordinator where that is another node.
pub(crate) fn timeout_kind(node: Node, status: Status, coordinator: Option<Node>) -> PointKind
    ensures { (left : List ℕ) → point_at result left ≡ timed_out node status coordinator }
{
    match status {
        Status::Down => PointKind::Idle,
        Status::Election => election_kind(node),
        Status::Reorganization | Status::Normal => match coordinator {
            Some(other) if other != node => PointKind::Inquiring,
            _ => PointKind::Idle,
        },
    }
}

/// Where an election of the node starts.
pub(crate) fn election_kind(node: Node) -> PointKind
    ensures election { (left : List ℕ) → point_at result left ≡ election node }
    ensures kind { result ≡ kind_of (election node) }
{
    PointKind::Asking(node.number() + 1)
}

/// Takes the highest node out, where its call came to the outcome Yes.
pub(crate) fn leave_answered(left: &mut NodeSet, outcome: Outcome)
    ensures { left.new ≡ left_behind outcome left.old }
{
    if outcome == Outcome::Yes {
        if let Some(node) = left.highest() {
            left.remove(node);
        }
    }
}

/// The nodes of the set; nobody without one.
pub(crate) fn nodes_in(nodes: Option<&NodeSet>) -> NodeSet
    ensures { result ≡ nodes_in (option_copied nodes.entry) }
{
    match nodes {
        Some(nodes) => *nodes,
        None => NodeSet::new(),
    }
}

// The highest node of the set, if there is one.
fn highest_in(left: Option<&NodeSet>) -> Option<Node>
    ensures { result ≡ highest_of (nodes_in (option_copied left.entry)) }
{
    match left {
        Some(nodes) => nodes.highest(),
        None => None,
    }
}

// The call of this kind to the callee, or a move where there is none left.
fn start_or_move(callee: Option<Node>, kind: CallKind) -> Want
    ensures { result ≡ unwrap_or (option_map (λ k. start k kind) callee) Want.Move }
{
    match callee {
        Some(callee) => Want::Start(Call { callee, kind }),
        None => Want::Move,
    }
}

// The node of this number, where the setup has one.
fn next_asked(setup: &Setup, number: u16) -> Option<Node>
    requires { 0 < number }
    ensures { result ≡ (if nat_le number setup.now.nodes then Some number else None) }
{
    if number <= setup.nodes() {
        Node::new(number)
    } else {
        None
    }
}

// The check of the node goes on at this number, or after it where it is the node's own; it ends above the last.
fn checking_at(setup: &Setup, node: Node, number: u16) -> PointKind
    requires positive { 0 < number }
    requires small { number ≤ NODES_MAX + 1 }
    ensures point { (left : List ℕ) → point_at result left ≡ checking_from setup.now node number }
    ensures kind { result ≡ kind_of (checking_from setup.now node number) }
{
    let other = if number == node.number() {
        number + 1
    } else {
        number
    };
    match next_asked(setup, other) {
        Some(callee) => PointKind::Checking(callee),
        None => PointKind::Idle,
    }
}

fn after_asking(setup: &Setup, node: Node, number: u16, outcome: Outcome) -> Option<PointKind>
    ensures { (up : List ℕ)
        → result ≡ option_map kind_of (next_point setup.now node up (AnyPoint.Asking number) outcome) }
{
    let calls = number <= setup.nodes();
    match outcome {
        Outcome::Started if calls => Some(PointKind::Asking(number)),
        Outcome::Yes if calls => Some(PointKind::Idle),
        Outcome::Failed if calls => Some(PointKind::Asking(number + 1)),
        Outcome::Moved if !calls => Some(PointKind::Halting(node.number() - 1)),
        _ => None,
    }
}

fn after_halting(number: u16, outcome: Outcome) -> Option<PointKind>
    ensures { (setup : SetupState) (node : ℕ) (up : List ℕ)
        → result ≡ option_map kind_of (next_point setup node up (AnyPoint.Halting number) outcome) }
{
    let calls = number > 0;
    match outcome {
        Outcome::Started if calls => Some(PointKind::Halting(number)),
        Outcome::Yes | Outcome::Failed if calls => Some(PointKind::Halting(number - 1)),
        Outcome::Moved if !calls => Some(PointKind::Announcing),
        _ => None,
    }
}

fn after_announcing(node: Node, left: Option<&NodeSet>, outcome: Outcome) -> Option<PointKind>
    ensures { (setup : SetupState) (up : List ℕ) → result ≡ option_map kind_of
        (next_point setup node up (AnyPoint.Announcing (nodes_in (option_copied left.entry))) outcome) }
{
    let calls = highest_in(left).is_some();
    match outcome {
        Outcome::Started | Outcome::Yes if calls => Some(PointKind::Announcing),
        Outcome::Failed if calls => Some(election_kind(node)),
        Outcome::Moved if !calls => Some(PointKind::Planning),
        _ => None,
    }
}

fn after_readying(node: Node, left: Option<&NodeSet>, outcome: Outcome) -> Option<PointKind>
    ensures { (setup : SetupState) (up : List ℕ) → result ≡ option_map kind_of
        (next_point setup node up (AnyPoint.Readying (nodes_in (option_copied left.entry))) outcome) }
{
    let calls = highest_in(left).is_some();
    match outcome {
        Outcome::Started | Outcome::Yes if calls => Some(PointKind::Readying),
        Outcome::Failed if calls => Some(election_kind(node)),
        Outcome::Moved if !calls => Some(PointKind::Idle),
        _ => None,
    }
}

fn after_checking(setup: &Setup, node: Node, callee: Node, outcome: Outcome) -> Option<PointKind>
    ensures { (up : List ℕ)
        → result ≡ option_map kind_of (next_point setup.now node up (AnyPoint.Checking callee) outcome) }
{
    match outcome {
        Outcome::Started => Some(PointKind::Checking(callee)),
        Outcome::Yes | Outcome::Failed => Some(checking_at(setup, node, callee.number() + 1)),
        Outcome::No => Some(election_kind(node)),
        _ => None,
    }
}
