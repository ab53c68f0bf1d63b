//! Which events rebalance a group, and on what a node's process may work then.

use super::replicas::replica_of;
use super::{set_of, setup};
use crate::tests::scripts::ALL_UP;
use bully_base::{Node, Setup};
use bully_rebalance::{
    Keeper, Partitions, RebalanceFault, coming_table, is_stable, leaves, leaves_all, left_of,
    may_work, owned, rebalance,
};
use bully_replica::Replica;
use bully_table::Table;
use bully_world::Event;
use std::alloc::Global;

/// A rebalanced group: how many events rebalance it, the last plan's token then, and on what a node's process may work
/// after the log to which these events are appended.
struct Settled {
    events: usize,
    token: u32,
    node: u16,
    partitions: &'static [u16],
}

/// A log, which nodes are live, and what comes of that.
const SETTLED: [(&str, &[u16], Settled); 4] = [
    (
        "bully,1,3,3\n",
        &[1, 2, 3],
        Settled {
            events: 26,
            token: 19,
            node: 2,
            partitions: &[1],
        },
    ),
    (
        ALL_UP,
        &[1, 2],
        Settled {
            events: 20,
            token: 42,
            node: 1,
            partitions: &[0, 2],
        },
    ),
    (
        ALL_UP,
        &[1, 2],
        Settled {
            events: 20,
            token: 42,
            node: 3,
            partitions: &[],
        },
    ),
    (
        ALL_UP,
        &[],
        Settled {
            events: 3,
            token: 19,
            node: 1,
            partitions: &[],
        },
    ),
];

fn learns_all(replica: &mut Replica, events: &[Event]) -> bool {
    for event in events {
        if replica.learn(event).is_err() {
            return false;
        }
    }
    true
}

// Whether the node's process may work on these partitions by this token, or on nothing if there are none.
fn owns(alloc: Global, replica: &Replica, place: u32, want: &Settled) -> bool {
    let Some(node) = Node::new(want.node) else {
        return false;
    };
    if replica.world().setup().nodes() < node.number() {
        return false;
    }
    match owned(alloc, replica, node, place) {
        Ok(Some(owned)) => owned.token == want.token
            && owned.partitions.as_slice() == want.partitions
            && may_work(replica, node, place) == Some(want.token),
        Ok(None) => want.partitions.is_empty() && may_work(replica, node, place).is_none(),
        Err(_) => false,
    }
}

// Whether this many events rebalance the group of this log, and this comes of them.
fn is_settled(alloc: Global, text: &str, numbers: &[u16], want: &Settled) -> bool {
    let Some(mut replica) = replica_of(alloc, text) else {
        return false;
    };
    let live = set_of(numbers);
    if !replica.world().setup().has_all(&live) {
        return false;
    }
    let place = replica.events();
    match rebalance(alloc, &replica, &live, None) {
        Ok(events) => events.len() == want.events
            && learns_all(&mut replica, &events)
            && is_stable(&replica, &live, place)
            && replica.token() == want.token
            && owns(alloc, &replica, place, want),
        Err(_) => false,
    }
}

#[test]
fn groups_that_rebalance(rt: HostRuntime) {
    for (text, numbers, want) in SETTLED.iter() {
        assert!(rt;
            is_settled(rt.alloc(), *text, *numbers, want),
            "{text}{numbers:?}"
        );
    }
}

// Why nothing rebalances an empty log of this setup among three nodes.
fn fault_of(alloc: Global, setup: Setup) -> Option<RebalanceFault> {
    let live = set_of(&[1, 2, 3]);
    if !setup.has_all(&live) {
        return None;
    }
    match Replica::new(alloc, setup) {
        Ok(replica) => rebalance(alloc, &replica, &live, None).err(),
        Err(_) => None,
    }
}

#[test]
fn a_log_without_room(rt: HostRuntime) {
    assert_eq!(rt;
        fault_of(rt.alloc(), setup(&rt, 3, 3, 25)),
        Some(RebalanceFault::Full)
    );
    assert_eq!(rt; fault_of(rt.alloc(), setup(&rt, 3, 3, 26)), None);
}

// Whether one of the events plans this table.
fn plans(events: &[Event], want: &Table) -> bool {
    for event in events {
        if let Event::Plan(_, table) = event {
            return *table == *want;
        }
    }
    false
}

// Whether the rebalance of an empty log among three nodes keeps to this old table.
fn keeps_to(alloc: Global, setup: Setup, text: &str) -> bool {
    let live = set_of(&[1, 2, 3]);
    if !setup.has_all(&live) {
        return false;
    }
    let Ok(old) = Table::read(alloc, setup, text) else {
        return false;
    };
    let Ok(replica) = Replica::new(alloc, setup) else {
        return false;
    };
    match rebalance(alloc, &replica, &live, Some(&old)) {
        Ok(events) => plans(&events, &old),
        Err(_) => false,
    }
}

#[test]
fn a_table_of_the_epoch_before(rt: HostRuntime) {
    assert!(rt; keeps_to(rt.alloc(), setup(&rt, 3, 3, 26), "3 1 2"));
    assert!(rt; !keeps_to(rt.alloc(), setup(&rt, 3, 3, 26), "3 1 1"));
}

// The coming table of a rebalance of this log among these nodes.
fn table_of(alloc: Global, text: &str, numbers: &[u16]) -> Option<Table> {
    let replica = replica_of(alloc, text)?;
    let live = set_of(numbers);
    if live.is_empty() || !replica.world().setup().has_all(&live) {
        return None;
    }
    coming_table(alloc, &replica, &live, None).ok()
}

/// Three nodes own a partition each, and node 3 dies: which of these partitions the coming table leaves node 1.
const LEFT: [(&[u16], &[u16]); 4] = [(&[], &[]), (&[0], &[0]), (&[0, 1, 2], &[0, 2]), (&[1], &[])];

// Whether that table leaves node 1 exactly these of the partitions, and all only if these are all.
fn is_left(alloc: Global, kept: &[u16], want: &[u16]) -> Option<bool> {
    let table = table_of(alloc, ALL_UP, &[1, 2])?;
    let node = Node::new(1)?;
    let partitions = Partitions::from_vec(Vec::from_slice(alloc, kept).ok()?);
    let keepers = [Keeper { node, partitions }];
    let left = left_of(alloc, &table, node, kept).ok()?;
    let are_all = left.len() == kept.len();
    Some(
        left.as_slice() == want
            && leaves(&table, node, kept) == are_all
            && leaves_all(&table, &keepers) == are_all,
    )
}

#[test]
fn what_a_rebalance_leaves(rt: HostRuntime) {
    for (kept, want) in LEFT.iter() {
        assert_eq!(rt; is_left(rt.alloc(), *kept, *want), Some(true));
    }
}
