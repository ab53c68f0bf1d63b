use super::texts::{Version, trace_of};
use super::trying::{Outcome, Text, Trial};
use crate::simulate::learning::header_of;
use bully_base::{Node, NodeSet};
use bully_rebalance::{owned, rebalance};
use bully_replica::{Replica, RowReplica};
use bully_rows::RowReader;
use bully_world::Event;
use std::alloc::Global;
use std::io::Read;

/// A call of a replica.
#[derive(Clone, Copy)]
pub enum ReplicaCall {
    New,
    /// It takes no memory: it is tried with all events of an election.
    Learn,
    Next,
    /// What rebalances the group, if nodes 1 and 2 are live.
    Rebalance,
    /// What the node that plans owns after the election.
    Owned,
}

pub fn replica_call<R: Print>(trial: &Trial<R>, call: ReplicaCall) -> Option<Outcome> {
    match call {
        ReplicaCall::New => new_call(trial),
        _ => match Replica::new(trial.alloc, trial.setup) {
            Ok(mut replica) => call_of(trial, call, &mut replica),
            Err(_) => None,
        },
    }
}

fn new_call<R: Print>(trial: &Trial<R>) -> Option<Outcome> {
    trial.begin();
    let answer = Replica::new(trial.alloc, trial.setup);
    trial.end();
    match answer {
        Ok(replica) => trial.tell(false, &text_of(trial.alloc, &replica)),
        Err(fault) => trial.refused(&fault, "AllocError"),
    }
}

fn call_of<R: Print>(
    trial: &Trial<R>,
    call: ReplicaCall,
    replica: &mut Replica,
) -> Option<Outcome> {
    match call {
        ReplicaCall::Learn => learn_call(trial, replica),
        ReplicaCall::Rebalance => rebalance_call(trial, replica),
        ReplicaCall::Owned => owned_call(trial, replica),
        ReplicaCall::New | ReplicaCall::Next => next_call(trial, replica),
    }
}

fn learn_call<R: Print>(trial: &Trial<R>, replica: &mut Replica) -> Option<Outcome> {
    trial.begin();
    let is_learned = learns(replica, trial.events);
    trial.end();
    if is_learned {
        trial.tell(false, &text_of(trial.alloc, replica))
    } else {
        None
    }
}

// What the node that plans appends next, when it plans.
fn next_call<R: Print>(trial: &Trial<R>, replica: &mut Replica) -> Option<Outcome> {
    let node = trial.plan.node();
    if !learns(replica, trial.before_plan) || replica.world().setup().nodes() < node.number() {
        return None;
    }
    trial.begin();
    trial.outcome(replica.next(trial.alloc, node), "AllocError")
}

// What rebalances the group after its election, if nodes 1 and 2 are live.
fn rebalance_call<R: Print>(trial: &Trial<R>, replica: &mut Replica) -> Option<Outcome> {
    let mut live = NodeSet::new();
    live.insert(Node::new(1)?);
    live.insert(Node::new(2)?);
    if !learns(replica, trial.events) || !replica.world().setup().has_all(&live) {
        return None;
    }
    trial.begin();
    trial.outcome(rebalance(trial.alloc, replica, &live, None), "OutOfMemory")
}

// What the node that plans owns after the election.
fn owned_call<R: Print>(trial: &Trial<R>, replica: &mut Replica) -> Option<Outcome> {
    let node = trial.plan.node();
    if !learns(replica, trial.events) || replica.world().setup().nodes() < node.number() {
        return None;
    }
    trial.begin();
    trial.outcome(owned(trial.alloc, replica, node, 0), "AllocError")
}

// Learns the events, and returns whether none was refused.
fn learns(replica: &mut Replica, events: &[Event]) -> bool {
    for event in events {
        if replica.learn(event).is_err() {
            return false;
        }
    }
    true
}

// All that can be read of a replica.
fn text_of(alloc: Global, replica: &Replica) -> Text {
    let mut text = Text::of_both(alloc, replica.world(), &replica.token());
    text.add(&replica.planner());
    text.add(&replica.last_table());
    text
}

/// The rows of a trace are learned, after its header.
pub fn follow_call<R: Print>(trial: &Trial<R>, version: Version) -> Option<Outcome> {
    let mut rows = RowReader::open(trial.alloc, trace_of(version).as_bytes());
    match header_of(&mut rows) {
        Some(header) => match RowReplica::new(trial.alloc, header) {
            Ok(mut learned) => take_call(trial, &mut learned, &mut rows),
            Err(_) => None,
        },
        None => None,
    }
}

fn take_call<R: Print, I: Read + Drop>(
    trial: &Trial<R>,
    learned: &mut RowReplica,
    rows: &mut RowReader<I>,
) -> Option<Outcome> {
    trial.begin();
    let answer = learned.learn_all(trial.alloc, rows);
    trial.end();
    match answer {
        Ok(()) => trial.tell(false, &text_of(trial.alloc, learned.replica())),
        Err(fault) => trial.refused(&fault, "Form(OutOfMemory)"),
    }
}
