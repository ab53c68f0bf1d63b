//! What is coming for a member's group, and whom that affects.
ghost use Rattle.std.specs.Prelude.{◌≡◌, ◌+◌, ◌↔◌, ℕ, List, Contains, IfOk};
ghost use Rattle.std.specs.Option.{option_copied};
ghost use Rattle.bully_base.specs.NodeSet.{IsFallingBelow};
ghost use Rattle.bully_member.specs.Member.{AreNodes, IsForeseen, admitted_among, asks_for_change, coming_by};
ghost use Rattle.bully_member.specs.Member.{is_admitted};
ghost use Rattle.bully_member.specs.Member.{IsAffected, is_affected, is_in_group, is_under_way, live_of, replica_of};
ghost use Rattle.bully_member.specs.declared.values.Lease.{Lease as LeaseState};
ghost use Rattle.bully_rebalance.specs.Rebalancing.{is_member};

use super::Member;
use crate::values::Lease;
use bully_base::{Node, NodeSet, OutOfMemory};
use bully_rebalance::{coming_table, losers};
use bully_table::Table;
use std::alloc::Global;

// Among whom the group is stable, or is to be rebalanced; the table of the rebalance that would be appended now; and
// whom a change affects.
#[derive(Drop)]
pub(super) struct Outlook {
    pub group: NodeSet,
    pub coming: Option<Table>,
    pub affected: NodeSet,
}

impl Member {
    // By these leases.
    pub(super) fn outlook(
        &self,
        alloc: Global,
        now: u64,
        leases: &[Lease],
        has_request: bool,
    ) -> Result<Outlook, OutOfMemory>
        requires { AreNodes self.now.learned leases.now }
        ensures group { IfOk result (λ o. o.group ≡ admitted_among self.now now leases.now) }
        ensures foreseen { IfOk result (λ o. IsForeseen (replica_of self.now) self.now.terms leases.now has_request
            o.group o.coming o.affected) }
    {
        let group = self.admitted_among(now, leases);
        let coming = self.coming_table(alloc, has_request, &group)?;
        let affected = self.affected_by(coming.as_ref(), live_of(leases));
        Ok(Outlook {
            group,
            coming,
            affected,
        })
    }

    // The table that is coming, if there is one.
    fn coming_table(
        &self,
        alloc: Global,
        has_request: bool,
        group: &NodeSet,
    ) -> Result<Option<Table>, OutOfMemory>
        requires { IsFallingBelow ((replica_of self.now).world.setup.nodes + 1) group.now }
        ensures { IfOk result (λ coming.
            coming ≡ coming_by (replica_of self.now) self.now.terms has_request group.now) }
    {
        if !self.terms.is_cooperative || self.closes(has_request) || group.is_empty() {
            return Ok(None);
        }
        let old = self.terms.old.as_ref();
        let table = coming_table(alloc, self.learned.replica(), group, old)?;
        Ok(Some(table))
    }

    // Whom a change affects, if this table is coming, and these nodes are live.
    fn affected_by(&self, coming: Option<&Table>, live: NodeSet) -> NodeSet
        ensures { (leases : List LeaseState) → live ≡ live_of leases → (i : ℕ) → Contains result i
            ↔ IsAffected self.now.terms.is_cooperative (replica_of self.now) leases (option_copied coming.entry) i }
    {
        if !self.terms.is_cooperative {
            return live;
        }
        match self.learned.replica().last_table() {
            Some(table) => losers(table, coming),
            None => NodeSet::new(),
        }
    }

    /// Which nodes of the group are live, as the last snapshot found.
    pub fn live(&self) -> NodeSet
        ensures { result ≡ live_of self.now.leases }
    {
        live_of(&self.leases)
    }

    /// Among which nodes the group is stable, or is to be rebalanced if it is cooperative: the live ones that were
    /// admitted when the last snapshot was read. Admitted are those that are up in the log, and those whose session has
    /// stayed long enough, and all while a change is under way, except those that leave.
    pub fn group(&self) -> &NodeSet
        ensures { result.now ≡ self.now.group }
    {
        &self.group
    }

    /// Whether a change of the log affects this node, as the last snapshot found: in an eager group each live node, in
    /// a cooperative one each that loses a partition by the coming table. The member of an affected node must promise
    /// the end of the log before the change. (A member that ends affects all.)
    pub fn is_affected(&self, node: Node) -> bool
        ensures { result ≡ is_affected self.now node }
    {
        has(&self.affected, node)
    }

    // Whether the node was admitted when the last snapshot was read.
    pub(super) fn is_in_group(&self, node: Node) -> bool
        ensures { result ≡ is_in_group self.now node }
    {
        has(&self.group, node)
    }

    // The nodes of those of these leases that are admitted now.
    fn admitted_among(&self, now: u64, leases: &[Lease]) -> NodeSet
        ensures { result ≡ admitted_among self.now now leases.now }
    {
        let is_under_way = self.is_under_way(leases);
        let mut group = NodeSet::new();
        for lease in leases {
            if self.is_admitted(now, is_under_way, lease) {
                group.insert(lease.node);
            }
        }
        group
    }

    // Whether a lease is admitted, if a change is under way or isn't.
    fn is_admitted(&self, now: u64, is_under_way: bool, lease: &Lease) -> bool
        ensures { result ≡ is_admitted self.now now is_under_way lease.now }
    {
        !lease.is_leaving
            && (!self.is_down(lease.node) || self.stay_left(now, lease.node) == 0 || is_under_way)
    }

    // Whether a change is under way, as far as these leases show: a node that is up in the log has promised its end.
    // Then all members admit the same nodes, whatever each remembers of them.
    fn is_under_way(&self, leases: &[Lease]) -> bool
        ensures { result ≡ is_under_way self.now leases.now }
    {
        leases.iter().any(|lease| self.asks_for_change(lease))
    }

    fn asks_for_change(&self, lease: &Lease) -> bool
        ensures { result ≡ asks_for_change self.now lease.now }
    {
        !self.is_down(lease.node) && lease.promise == self.here()
    }
}

// The nodes of these leases.
fn live_of(leases: &[Lease]) -> NodeSet
    ensures { result ≡ live_of leases.now }
{
    let mut live = NodeSet::new();
    for lease in leases {
        live.insert(lease.node);
    }
    live
}

// Whether the node is one of these.
pub(super) fn has(nodes: &NodeSet, node: Node) -> bool
    ensures { result ≡ is_member nodes.now node }
{
    nodes.has(node)
}
