//! A table that was planned by hand is prepared, and the procedure is resumed with it.

ghost use Rattle.std.specs.Prelude.{◌≡◌, [], ◌∷◌, None, false, length};
ghost use Rattle.bully_steps.specs.ProcedureState.{procedure_state};
ghost use Rattle.bully_steps.specs.Procedure.{state_of};

use super::setup;
use bully_base::{Node, NodeSet, Setup};
use bully_calls::Outcome;
use bully_steps::{Point, Procedure, Want};
use bully_table::Table;
use std::alloc::Global;

/// The number of the owner at a place of the table, if it has the place.
pub fn owner_in(table: &Table, place: usize) -> Option<u16> {
    if table.len() <= place {
        return None;
    }
    Some(table.owner(place).number())
}

/// Whether the table has these owners.
pub fn has_owners(table: &Table, owners: &[u16]) -> bool {
    for (place, owner) in owners.iter().enumerate() {
        if owner_in(table, place) != Some(*owner) {
            return false;
        }
    }
    table.len() == owners.len()
}

// Whether the procedure has a table, and it has these owners.
fn is_planned(procedure: &Procedure, owners: &[u16]) -> bool {
    match procedure.table() {
        Some(table) => has_owners(table, owners),
        None => false,
    }
}

/// Whether the procedure, as a value that is handed over, prepares a table of these owners from the old one.
pub fn prepares(alloc: Global, procedure: Procedure, old: &Table, owners: &[u16]) -> bool
    requires { length old.now ≡ (state_of procedure).setup.partitions }
{
    let Procedure::Planning(planning) = procedure else {
        return false;
    };
    match planning.prepare(alloc, Some(old)) {
        Ok(planned) => is_planned(&Procedure::Planned(planned), owners),
        Err(_) => false,
    }
}

/// Whether the procedure prepares a table of these owners from the old one where it lies, and keeps it when it is to
/// prepare another one.
pub fn prepares_in_place(
    alloc: Global,
    procedure: &mut Procedure,
    old: &Table,
    owners: &[u16],
) -> bool
    requires { length old.now ≡ (state_of procedure.old).setup.partitions }
{
    procedure.prepare(alloc, Some(old)).is_ok()
        && is_planned(procedure, owners)
        && procedure.prepare(alloc, None).is_ok()
        && is_planned(procedure, owners)
}

// Node 2 of a group of three plans for itself and node 1.
fn planning_node(setup: Setup) -> Procedure
    requires { setup.nodes ≡ 3 }
    ensures { state_of result ≡ procedure_state setup 2 0 Point.Planning (1 ∷ []) None false }
{
    let mut up = NodeSet::new();
    up.insert(Node::new(1).unwrap());
    let node = Node::new(2).unwrap();
    Procedure::at(setup, node, 0, Point::Planning, &up, None, false)
}

// Whether that node prepares a table of these owners from the old one.
fn is_prepared_from(alloc: Global, setup: Setup, old: &Table, owners: &[u16]) -> bool
    requires nodes { setup.nodes ≡ 3 }
    requires covers { length old.now ≡ setup.partitions }
{
    let mut in_place = planning_node(setup);
    prepares(alloc, planning_node(setup), old, owners)
        && prepares_in_place(alloc, &mut in_place, old, owners)
}

// The same where the nodes weigh so much, and the old table is 1 2 2 2 3.
fn is_prepared(alloc: Global, weights: &[u16], owners: &[u16]) -> bool {
    let Ok(setup) = Setup::weighted(3, 5, 1, weights, false) else {
        return false;
    };
    match Table::read(alloc, setup, "1 2 2 2 3") {
        Ok(old) => old.len() == 5 && is_prepared_from(alloc, setup, &old, owners),
        Err(_) => false,
    }
}

/// What the three nodes weigh, and the owners of the table that is prepared.
const PREPARED: [([u16; 3], [u16; 5]); 2] = [
    // node 3 had one of the five partitions, which moves to node 1
    ([1, 1, 1], [1, 2, 2, 2, 1]),
    // node 2 weighs four times as much as node 1, so the two take one partition and four
    ([1, 4, 1], [1, 2, 2, 2, 2]),
];

// Whether the procedure readies node 1 and awaits its call.
fn is_readying(procedure: &Procedure) -> bool {
    let mut rest = NodeSet::new();
    if let Some(one) = Node::new(1) {
        rest.insert(one);
    }
    procedure.point() == Point::Readying(rest)
        && procedure.up().is_none()
        && procedure.want() == Want::Await
}

// Whether the plan's event and the start of a call lead on to that: where the procedure lies, and as a value.
fn goes_on(setup: Setup) -> bool
    requires { setup.nodes ≡ 3 }
{
    let mut in_place = planning_node(setup);
    in_place.advance(Outcome::Planned);
    in_place.advance(Outcome::Started);
    let planned = planning_node(setup).resume(Outcome::Planned);
    let started = planned.resume(Outcome::Started);
    is_readying(&in_place) && is_readying(&started)
}

#[test]
fn prepares_and_goes_on(rt: HostRuntime) {
    for (weights, owners) in PREPARED.iter() {
        assert!(rt;
            is_prepared(rt.alloc(), weights.as_slice(), owners.as_slice()),
            "{weights:?}"
        );
    }
    let three = setup(&rt, 3, 5, 1);
    assert!(rt; three.nodes() == 3 && goes_on(three));
}
