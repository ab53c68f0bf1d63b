use super::trying::{Outcome, Trial};
use super::worlds::view_call;
use bully_agree::Walk;
use bully_base::{EVENTS_MAX, NODES_MAX, Node, NodeSet, OutOfMemory, PARTITIONS_MAX, Setup};
use bully_calls::{Slot, Waiting};
use bully_handlers::Vector;
use bully_table::{Table, TableRoom, plan, plan_in, push_owners};
use bully_world::World;
use std::alloc::Global;

/// A table of the group.
const OWNERS: &str = "1 2 2 3";

/// A call that makes a setup or a table, or reserves what is kept of a node or of a group.
#[derive(Clone, Copy)]
pub enum NewCall {
    /// It takes no memory.
    Weighted,
    Table,
    TableIn,
    Room,
    Slot,
    Waiting,
    Vector,
    World,
    Walk,
}

/// A call that makes the first world of the largest group, or a view of it.
#[derive(Clone, Copy)]
pub enum FullCall {
    World,
    View,
}

/// A call that is given a table.
#[derive(Clone, Copy)]
pub enum TableCall {
    Copy,
    PushOwners,
    Plan,
    PlanIn,
}

pub fn new_call<R: Print>(trial: &Trial<R>, call: NewCall) -> Option<Outcome> {
    let (setup, alloc) = (trial.setup, trial.alloc);
    trial.begin();
    match call {
        NewCall::Weighted => {
            let answer = Setup::weighted(3, 4, EVENTS_MAX, &[1, 2, 1], true);
            trial.outcome(answer, "")
        }
        NewCall::Table => trial.outcome(Table::read(alloc, setup, OWNERS), "OutOfMemory"),
        NewCall::TableIn => {
            let answer = Table::read_in(alloc, &setup, OWNERS.as_bytes());
            trial.outcome(answer, "OutOfMemory")
        }
        NewCall::Room => trial.outcome(TableRoom::new(alloc, &setup), "AllocError"),
        NewCall::Slot => trial.outcome(Slot::new(alloc, setup), "AllocError"),
        NewCall::Waiting => trial.outcome(Waiting::new(alloc, setup), "AllocError"),
        NewCall::Vector => trial.outcome(Vector::new(alloc, setup), "AllocError"),
        NewCall::World => trial.outcome(World::new(alloc, setup), "AllocError"),
        NewCall::Walk => trial.outcome(Walk::new(alloc, setup), "AllocError"),
    }
}

pub fn full_call<R: Print>(trial: &Trial<R>, call: FullCall) -> Option<Outcome> {
    let Ok(largest) = Setup::new(NODES_MAX, PARTITIONS_MAX, EVENTS_MAX) else {
        return None;
    };
    match call {
        FullCall::World => {
            trial.begin();
            trial.outcome(World::new(trial.alloc, largest), "AllocError")
        }
        FullCall::View => match World::new(trial.alloc, largest) {
            Ok(world) => view_call(trial, &world),
            Err(_) => None,
        },
    }
}

pub fn table_call<R: Print>(trial: &Trial<R>, call: TableCall) -> Option<Outcome> {
    match Table::read(trial.alloc, trial.setup, OWNERS) {
        Ok(table) => call_on(trial, call, &trial.setup, &table),
        Err(_) => None,
    }
}

// A call that is given this table: a copy, a text, or a plan for two members, from a table that has three.
fn call_on<R: Print>(
    trial: &Trial<R>,
    call: TableCall,
    setup: &Setup,
    table: &Table,
) -> Option<Outcome> {
    let alloc = trial.alloc;
    let (Some(first), Some(third)) = (Node::new(1), Node::new(3)) else {
        return None;
    };
    let mut members = NodeSet::new();
    members.insert(first);
    members.insert(third);
    if table.len() != usize::from(setup.partitions()) || !setup.has_all(&members) {
        return None;
    }
    trial.begin();
    match call {
        TableCall::Copy => trial.outcome(table.copy(), "AllocError"),
        TableCall::PushOwners => trial.outcome(owners_of(alloc, table), "AllocError"),
        TableCall::Plan => {
            let answer = plan(alloc, *setup, &members, Some(table));
            trial.outcome(answer, "OutOfMemory")
        }
        TableCall::PlanIn => {
            let answer = plan_in(alloc, setup, &members, Some(table));
            trial.outcome(answer, "OutOfMemory")
        }
    }
}

// The text is given up where it is refused memory.
fn owners_of(alloc: Global, table: &Table) -> Result<String, OutOfMemory> {
    let mut text = String::new(alloc);
    push_owners(&mut text, table, ' ')?;
    Ok(text)
}
