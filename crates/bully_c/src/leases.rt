//! Leases, as C has them.
ghost use Rattle.std.specs.Prelude.{◌≡◌, ◌↔◌, ◌<◌, ◌≤◌, All, IfErr, IfOk, IfSome, IsTrue};
ghost use Rattle.bully_c.specs.Leases.{AreKept, AreLeases, RefusesLeases, lease_given, leases_given};
ghost use Rattle.bully_member.specs.declared.values.Lease.{Lease as LeaseState};

use crate::status::{BAD_KEPT, BAD_NODE, OUT_OF_MEMORY};
use bully_base::Node;
use bully_member::{Lease, Promise, SessionId};
use bully_rebalance::Partitions;
use std::alloc::Global;

/// Who holds the lease of a node: the session, its promise, how many partitions that keeps, and whether it leaves (not
/// 0: yes).
#[repr(C)]
#[derive(Clone, Copy)]
pub struct CLease {
    pub process: u64,
    pub number: u64,
    pub epoch: u32,
    pub offset: u32,
    pub node: u16,
    pub kept_count: u16,
    pub is_leaving: u32,
}

/// The leases, which are of nodes up to this one. Each keeps as many of these partitions as it says, after those of the
/// leases before it. Refused, in this order, if one is of another node, if all keep more or fewer partitions than there
/// are, and if an allocation fails.
pub fn leases_of(alloc: Global, last: u16, told: &[CLease], kept: &[u16]) -> Result<Vec<Lease>, u32>
    ensures ok { IfOk result (λ found. found.items ≡ leases_given told.now kept.now) }
    ensures nodes { IfOk result (λ found. All (λ (p : LeaseState). (0 < p.node) × (p.node ≤ last)) found.items) }
    ensures are { IfOk result (λ _. AreLeases last told.now) }
    ensures kept { IfOk result (λ _. AreKept told.now kept.now) }
    ensures err { IfErr result (RefusesLeases last told.now kept.now) }
{
    if !are_leases(last, told) {
        return Err(BAD_NODE);
    }
    if !are_kept(told, kept) {
        return Err(BAD_KEPT);
    }
    match found_leases(alloc, told, kept) {
        Some(found) => Ok(found),
        None => Err(OUT_OF_MEMORY),
    }
}

// Whether each is of a node up to this one.
fn are_leases(last: u16, told: &[CLease]) -> bool
    ensures { IsTrue result ↔ AreLeases last told.now }
{
    for lease in told {
        if lease.node == 0 || lease.node > last {
            return false;
        }
    }
    true
}

// Whether they keep as many partitions as there are.
fn are_kept(told: &[CLease], kept: &[u16]) -> bool
    ensures { IsTrue result ↔ AreKept told.now kept.now }
{
    let mut left = kept;
    for lease in told {
        let count = usize::from(lease.kept_count);
        if left.len() < count {
            return false;
        }
        left = &left[count..];
    }
    left.is_empty()
}

// The leases. None if one is of no node, if they keep more partitions than there are, or if an allocation fails.
fn found_leases(alloc: Global, told: &[CLease], kept: &[u16]) -> Option<Vec<Lease>>
    ensures { IfSome result (λ found. found.items ≡ leases_given told.now kept.now) }
{
    let mut found = Vec::new(alloc);
    let mut left = kept;
    for lease in told {
        let count = usize::from(lease.kept_count);
        if left.len() < count {
            return None;
        }
        let lease = lease_of(alloc, lease, &left[..count])?;
        let Ok(_) = found.push(lease) else {
            return None;
        };
        left = &left[count..];
    }
    Some(found)
}

// The lease, which keeps these partitions. None if it is of no node, or if an allocation fails.
fn lease_of(alloc: Global, told: &CLease, kept: &[u16]) -> Option<Lease>
    ensures { IfSome result (λ lease. lease ≡ lease_given told.now kept.now) }
{
    let node = Node::new(told.node)?;
    let mut partitions = Vec::new(alloc);
    let Ok(_) = partitions.extend_from_slice(kept) else {
        return None;
    };
    Some(lease_at(node, told, Partitions::from_vec(partitions)))
}

/// The lease, whose node this is, and which keeps these partitions.
pub fn lease_at(node: Node, told: &CLease, kept: Partitions) -> Lease
    requires { node ≡ told.now.node }
    ensures { result ≡ lease_given told.now kept }
{
    Lease {
        node,
        session: SessionId {
            process: told.process,
            number: told.number,
        },
        promise: Promise {
            epoch: told.epoch,
            offset: told.offset,
        },
        kept,
        is_leaving: told.is_leaving != 0,
    }
}
