//! Tables of an epoch before, whose owners may be gone.
ghost use Rattle.std.specs.Prelude.{◌≡◌, ◌↔◌, All, IfErr, IfOk, IfSome, IsTrue, length, map};
ghost use Rattle.bully_c.specs.OldTables.{AreOld, IsOldOwner, RefusesOld, old_given, owner_before};
ghost use Rattle.bully_rows.specs.ReadBack.{AreOwners};

use crate::status::{OUT_OF_MEMORY, TABLE_LENGTH, TABLE_OWNER};
use crate::tables::{CSetup, read_table, setup_of};
use bully_base::{EVENTS_MAX, NODES_MAX, OutOfMemory, Setup};
use bully_table::Table;
use std::alloc::Global;

/// The old table of these owners, or none if there are no owners; 0 is an owner that is gone. Refused, in this order,
/// if there are more or fewer owners than partitions, if an owner is neither 0 nor a node of the setup, and if an
/// allocation fails.
pub fn old_table(alloc: Global, setup: &Setup, owners: &[u16]) -> Result<Option<Table>, u32>
    ensures ok { IfOk result (λ table. table ≡ old_given setup.now.nodes owners.now) }
    ensures are { IfOk result (λ _. AreOld setup.now owners.now) }
    ensures length { IfOk result (λ table. IfSome table (λ t. length t ≡ setup.now.partitions)) }
    ensures err { IfErr result (RefusesOld setup.now owners.now) }
{
    if owners.is_empty() {
        return Ok(None);
    }
    if owners.len() != usize::from(setup.partitions()) {
        return Err(TABLE_LENGTH);
    }
    if !are_old(setup, owners) {
        return Err(TABLE_OWNER);
    }
    match kept_table(alloc, setup, owners) {
        Some(table) => Ok(Some(table)),
        None => Err(OUT_OF_MEMORY),
    }
}

// Whether each of them is a node of the setup, or 0.
fn are_old(setup: &Setup, owners: &[u16]) -> bool
    ensures { IsTrue result ↔ All (λ owner. IsOldOwner setup.now owner) owners.now }
{
    let nodes = setup.nodes();
    for owner in owners {
        if *owner > nodes {
            return false;
        }
    }
    true
}

// The table that has a node that the setup lacks in the place of 0. None if an allocation fails.
fn kept_table(alloc: Global, setup: &Setup, owners: &[u16]) -> Option<Table>
    ensures table { IfSome result (λ table. table ≡ map (owner_before setup.now.nodes) owners.now) }
    ensures length { IfSome result (λ table. length table ≡ setup.now.partitions) }
{
    let wide = CSetup {
        nodes: NODES_MAX,
        partitions: setup.partitions(),
        events_max: EVENTS_MAX,
        keeps: 0,
    };
    let Ok(wide) = setup_of(&wide, &[]) else {
        return None;
    };
    let Ok(kept) = kept_owners(alloc, setup.nodes(), owners) else {
        return None;
    };
    match read_table(alloc, &wide, &kept) {
        Ok(table) => Some(table),
        Err(_) => None,
    }
}

// The owners, in a group of this many nodes, with another node for each that is gone.
fn kept_owners(alloc: Global, nodes: u16, owners: &[u16]) -> Result<Vec<u16>, OutOfMemory>
    ensures { IfOk result (λ kept. kept.items ≡ map (owner_before nodes) owners.now) }
{
    let mut kept = Vec::new(alloc);
    for owner in owners {
        kept.push(owner_before(nodes, *owner))?;
    }
    Ok(kept)
}

// The owner; or if it is 0, a node that a group of this size lacks; in the largest group, node 1.
fn owner_before(nodes: u16, owner: u16) -> u16
    ensures { result ≡ owner_before nodes owner }
{
    if owner != 0 {
        owner
    } else if nodes < NODES_MAX {
        nodes + 1
    } else {
        1
    }
}
