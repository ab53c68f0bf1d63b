//! What a member's node owns, and which events rebalance its group.
ghost use Rattle.std.specs.Prelude.{◌≡◌, ◌↔◌, ◌+◌, ◌<◌, ◌≤◌, IfErr, IfOk, List, All, length};
ghost use Rattle.bully_calls.specs.declared.event.Event.{Event as EventState};
ghost use Rattle.bully_member.specs.Activities.{busy};
ghost use Rattle.bully_member.specs.Member.{owned_of, offset_of, replica_of};
ghost use Rattle.bully_member.specs.Rebalance.{rebalance, rebalanced_nodes};
ghost use Rattle.bully_replica.specs.Replica.{IsLogOf};
ghost use Rattle.bully_rebalance.specs.Owning.{owned_by};
ghost use Rattle.bully_rebalance.specs.Rebalancing.{Rebalances, table_before};
ghost use Rattle.bully_rebalance.specs.declared.rebalancing.RebalanceFault.{RebalanceFault as FaultState};

use super::Member;
use super::rules::offset_in;
use crate::activities::busy;
use crate::values::Lease;
use bully_base::{NodeSet, OutOfMemory};
use bully_rebalance::{Owned, Partitions, RebalanceFault, owned, rebalance};
use bully_world::Event;
use std::alloc::Global;

impl Member {
    /// What its node owns, by a plan after all that its session has promised: the token and the partitions. None if it
    /// owns nothing. Refused if an allocation fails.
    pub fn owned(&self, alloc: Global) -> Result<Option<Owned>, OutOfMemory>
        ensures { IfOk result (λ owned. owned ≡ owned_by (replica_of self.now) self.now.terms.node self.now.promised) }
    {
        owned(
            alloc,
            self.learned.replica(),
            self.terms.node,
            self.promised,
        )
    }

    /// The partitions on which it works, in rising order: what a promise that it asks for now keeps. Refused if an
    /// allocation fails.
    pub fn works(&self, alloc: Global) -> Result<Partitions, OutOfMemory>
        ensures { IfOk result (λ works. works ≡ busy self.now.works) }
    {
        Ok(Partitions::from_vec(busy(alloc, &self.works)?))
    }

    /// What the holder of this lease owns, by a plan after what its session has promised in this epoch: the token and
    /// the partitions. Its process may work on these; in a cooperative group also on what its promise keeps. None if it
    /// owns nothing. Refused if an allocation fails. The node is one of the group's.
    pub fn owned_of(&self, alloc: Global, lease: &Lease) -> Result<Option<Owned>, OutOfMemory>
        requires { lease.now.node ≤ (replica_of self.now).world.setup.nodes }
        ensures { IfOk result (λ owned. owned ≡ owned_of self.now lease.now) }
    {
        let offset = offset_in(self.terms.epoch, lease.promise);
        owned(alloc, self.learned.replica(), lease.node, offset)
    }

    /// What an `Append` appends: the events that rebalance the group, as [`rebalance`] gives them, among the live
    /// nodes, or in a cooperative group among those that are admitted; if the member ends, among none. Refused as
    /// [`rebalance`] is.
    pub fn rebalance(&self, alloc: Global) -> Result<Vec<Event>, RebalanceFault>
        ensures events { IfOk result (λ events. events.items ≡ rebalance self.now) }
        ensures rebalances { IfOk result (λ events. (log : List EventState) → IsLogOf (replica_of self.now) log
            → Rebalances (replica_of self.now).world.setup log
            (table_before (replica_of self.now).last self.now.terms.old) (rebalanced_nodes self.now) events.items) }
        ensures room { IfOk result (λ events. offset_of self.now + length events.items
            ≤ (replica_of self.now).world.setup.events_max) }
        ensures full { IfErr result (λ fault. (fault ≡ FaultState.Full)
            ↔ ((replica_of self.now).world.setup.events_max < offset_of self.now + length (rebalance self.now))) }
    {
        rebalance(
            alloc,
            self.learned.replica(),
            &self.rebalanced_nodes(),
            self.terms.old.as_ref(),
        )
    }

    // Among which nodes it rebalances the group.
    fn rebalanced_nodes(&self) -> NodeSet
        ensures rebalanced_nodes { result ≡ rebalanced_nodes self.now }
        ensures nodes { All (λ m. m ≤ (replica_of self.now).world.setup.nodes) result }
    {
        match self.ending {
            None if self.terms.is_cooperative => self.group,
            None => self.live(),
            Some(_) => NodeSet::new(),
        }
    }
}
