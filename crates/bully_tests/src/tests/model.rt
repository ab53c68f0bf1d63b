//! The worked cases, with the values that this project's profile gives.

mod choices;
mod configurations;
mod full_size;
mod plans;
mod preparing;
mod rebalancing;
mod replicas;
mod runs;
mod streams;
mod traces;
mod worlds;

use bully_base::{EVENTS_MAX, Node, NodeSet, Setup, SetupFault};
use std::process::Abort;

fn setup(rt: &impl Abort, nodes: u16, partitions: u16, events_max: u32) -> Setup {
    Setup::new(nodes, partitions, events_max).expect(rt, "a setup")
}

fn node(rt: &impl Abort, number: u16) -> Node {
    Node::new(number).expect(rt, "a node")
}

// The nodes of these numbers, as far as there are such.
fn set_of(numbers: &[u16]) -> NodeSet {
    let mut nodes = NodeSet::new();
    for number in numbers {
        if let Some(node) = Node::new(*number) {
            nodes.insert(node);
        }
    }
    nodes
}

/// The numbers of nodes, and whether a group of three nodes has all of them.
const MEMBERS: [(&[u16], bool); 8] = [
    (&[], true),
    (&[1, 2], true),
    (&[3], true),
    (&[1, 3], true),
    (&[3, 4], false),
    (&[4], false),
    (&[1, 64], false),
    (&[3, 1024], false),
];

#[test]
fn nodes_that_a_group_has(rt: HostRuntime) {
    let group = setup(&rt, 3, 1, 1);
    for (numbers, has) in MEMBERS.iter() {
        assert!(rt; group.has_all(&set_of(*numbers)) == *has, "{numbers:?}");
    }
}

// The node's number, where there is a node.
fn number_of(node: Option<Node>) -> Option<u16> {
    match node {
        Some(node) => Some(node.number()),
        None => None,
    }
}

// The setup with this bound on events, if there is such a one.
fn bounded(setup: &Setup, events_max: u32) -> Setup {
    if 0 < events_max && events_max <= EVENTS_MAX {
        setup.with_events_max(events_max)
    } else {
        *setup
    }
}

/// The numbers of a setup, and why it is refused.
const SETUPS: [(u16, u16, u32, Option<SetupFault>); 9] = [
    (64, 256, 1_000_000, None),
    (1024, 4096, 1_000_000, None),
    (65, 0, 0, Some(SetupFault::BadPartitions)),
    (1025, 0, 0, Some(SetupFault::BadNodes)),
    (1, 257, 1, None),
    (1, 4097, 1, Some(SetupFault::BadPartitions)),
    (1, 1, 0, Some(SetupFault::BadLimit)),
    (0, 1, 1, Some(SetupFault::BadNodes)),
    (1, 1, 1_000_001, Some(SetupFault::BadLimit)),
];

#[test]
fn setups_by_numbers(rt: HostRuntime) {
    for (nodes, partitions, events_max, fault) in SETUPS.iter() {
        let refused = Setup::new(*nodes, *partitions, *events_max).err();
        assert!(rt; refused == *fault, "{nodes} {partitions} {events_max}");
    }
}

/// The numbers and the weights of a setup, and why it is refused.
const WEIGHTED: [(u16, u16, u32, &[u16], Option<SetupFault>); 16] = [
    (1, 1, 1, &[1000], None),
    (1, 1, 1, &[1001], Some(SetupFault::BadWeights)),
    (1, 1, 1, &[0], Some(SetupFault::BadWeights)),
    (1, 1, 1, &[65535], Some(SetupFault::BadWeights)),
    (2, 2, 2, &[1], Some(SetupFault::BadWeights)),
    (2, 2, 2, &[1, 0], Some(SetupFault::BadWeights)),
    (2, 2, 2, &[1, 1, 1], Some(SetupFault::BadWeights)),
    (1, 1, 1, &[], Some(SetupFault::BadWeights)),
    (3, 4096, 1_000_000, &[1, 1000, 1], None),
    (64, 1, 1, &[7; 64], None),
    (64, 1, 1, &[7; 65], Some(SetupFault::BadWeights)),
    (1024, 1, 1, &[7; 1024], None),
    (1025, 0, 0, &[0], Some(SetupFault::BadNodes)),
    (0, 0, 0, &[], Some(SetupFault::BadNodes)),
    (1, 4097, 0, &[0], Some(SetupFault::BadPartitions)),
    (1, 1, 0, &[0], Some(SetupFault::BadLimit)),
];

// The same, whether tasks are kept or not.
#[test]
fn setups_by_weights(rt: HostRuntime) {
    for (nodes, partitions, events_max, weights, fault) in WEIGHTED.iter() {
        let cleared = Setup::weighted(*nodes, *partitions, *events_max, *weights, false).err();
        let kept = Setup::weighted(*nodes, *partitions, *events_max, *weights, true).err();
        assert!(rt;
            cleared == *fault && kept == *fault,
            "{nodes} {partitions} {events_max} {weights:?}"
        );
    }
}

// What the node of this number weighs, if the group has it.
fn weight_of(setup: &Setup, number: u16) -> Option<u16> {
    let node = Node::new(number)?;
    if setup.nodes() < node.number() {
        return None;
    }
    Some(setup.weight(node))
}

// Whether there is a setup, and it tells 3 nodes, 7 partitions and 9 events, these weights of the first four nodes, and
// this of what is kept.
fn is_told(setup: Result<Setup, SetupFault>, weights: [Option<u16>; 4], keeps: bool) -> bool {
    let Ok(setup) = setup else {
        return false;
    };
    let told = [
        weight_of(&setup, 1),
        weight_of(&setup, 2),
        weight_of(&setup, 3),
        weight_of(&setup, 4),
    ];
    setup.nodes() == 3
        && setup.partitions() == 7
        && setup.events_max() == 9
        && told == weights
        && setup.keeps() == keeps
}

#[test]
fn what_setups_tell(rt: HostRuntime) {
    let heavy = Setup::weighted(3, 7, 9, &[1, 1000, 2], true);
    assert!(rt; is_told(heavy, [Some(1), Some(1000), Some(2), None], true));
    assert!(rt;
        is_told(
            Setup::new(3, 7, 9),
            [Some(1), Some(1), Some(1), None],
            false
        )
    );
}

/// The weights of two nodes, whether tasks are kept, and whether this is what a setup of three numbers is.
const EVEN: [(&[u16], bool, bool); 4] = [
    (&[1, 1], false, true),
    (&[1, 1], true, false),
    (&[1, 2], false, false),
    (&[2, 2], false, false),
];

// Whether the setup of these weights is that of three numbers, and says so, or neither.
fn is_even(weights: &[u16], keeps: bool, even: bool) -> bool {
    match Setup::weighted(2, 5, 9, weights, keeps) {
        Ok(setup) => (Setup::new(2, 5, 9) == Ok(setup)) == even && setup.is_even() == even,
        Err(_) => false,
    }
}

#[test]
fn even_setups(rt: HostRuntime) {
    for (weights, keeps, even) in EVEN.iter() {
        assert!(rt; is_even(*weights, *keeps, *even), "{weights:?} {keeps}");
    }
}
