//! Setups and tables as C has them.
ghost use Rattle.std.specs.Prelude.{◌≡◌, ◌↔◌, ◌++◌, ◌<◌, ◌≤◌, [], All, IfErr, IfOk, IfSome, IsTrue, OnOk, drop, length};
ghost use Rattle.std.specs.Prelude.{string_bytes, take};
ghost use Rattle.bully_base.specs.Setup.{IsNode, IsSetup};
ghost use Rattle.bully_rows.specs.ReadBack.{AreOwners};
ghost use Rattle.bully_table.specs.TableText.{owners_text};
ghost use Rattle.bully_c.specs.Arguments.{AreGiven, IsSetupRefusal, RefusesGiven, RefusesOwners, setup_given};
ghost use Rattle.bully_c.specs.Arguments.{setup_with, table_given};

use crate::status::{BAD_NODE, OUT_OF_MEMORY, TABLE_LENGTH, TABLE_OWNER, status_of_setup};
use bully_base::{NODES_MAX, Node, OutOfMemory, Setup};
use bully_table::Table;
use std::alloc::Global;

/// A setup without its weights. A node keeps its task over a crash unless `keeps` is 0.
#[repr(C)]
#[derive(Clone, Copy)]
pub struct CSetup {
    pub nodes: u16,
    pub partitions: u16,
    pub events_max: u32,
    pub keeps: u32,
}

/// The setup with these weights, that of node 1 first; with none each weighs 1. Refused as [`Setup::weighted`] refuses
/// it.
pub fn setup_of(setup: &CSetup, weights: &[u16]) -> Result<Setup, u32>
    ensures ok { IfOk result (λ s. s ≡ setup_given setup.now weights.now) }
    ensures within { IfOk result IsSetup }
    ensures err { IfErr result (IsSetupRefusal (setup_given setup.now weights.now)) }
{
    if weights.is_empty() {
        return even_setup(setup);
    }
    weighted_setup(setup, weights)
}

// The setup in which each node weighs 1.
fn even_setup(setup: &CSetup) -> Result<Setup, u32>
    ensures ok { IfOk result (λ s. s ≡ setup_given setup.now []) }
    ensures within { IfOk result IsSetup }
    ensures err { IfErr result (IsSetupRefusal (setup_given setup.now [])) }
{
    let ones = [1; NODES_MAX as usize];
    weighted_setup(setup, first_of(&ones, usize::from(setup.nodes)))
}

// The setup with these weights.
fn weighted_setup(setup: &CSetup, weights: &[u16]) -> Result<Setup, u32>
    ensures ok { IfOk result (λ s. s ≡ setup_with setup.now weights.now) }
    ensures within { IfOk result IsSetup }
    ensures err { IfErr result (IsSetupRefusal (setup_with setup.now weights.now)) }
{
    let keeps = setup.keeps != 0;
    match Setup::weighted(
        setup.nodes,
        setup.partitions,
        setup.events_max,
        weights,
        keeps,
    ) {
        Ok(setup) => Ok(setup),
        Err(fault) => Err(status_of_setup(fault)),
    }
}

/// The node of this number. Refused if the setup has none.
pub fn node_of(setup: &Setup, number: u16) -> Result<Node, u32>
    ensures ok { IfOk result (λ node. (node ≡ number) × IsNode setup.now node) }
    ensures err { IfErr result (λ status. (status ≡ BAD_NODE) × ¬ IsNode setup.now number) }
{
    if number > setup.nodes() {
        return Err(BAD_NODE);
    }
    match Node::new(number) {
        Some(node) => Ok(node),
        None => Err(BAD_NODE),
    }
}

/// The table of these owners, or none if there are no owners. Refused, in this order, if there are more or fewer owners
/// than partitions, if an owner is no node of the setup, and if an allocation fails.
pub fn table_of(alloc: Global, setup: &Setup, owners: &[u16]) -> Result<Option<Table>, u32>
    ensures ok { IfOk result (λ table. table ≡ table_given owners.now) }
    ensures owners { IfOk result (λ _. AreGiven setup.now owners.now) }
    ensures length { IfOk result (λ table. IfSome table (λ t. length t ≡ setup.now.partitions)) }
    ensures err { IfErr result (RefusesGiven setup.now owners.now) }
{
    if owners.is_empty() {
        return Ok(None);
    }
    match read_table(alloc, setup, owners) {
        Ok(table) => Ok(Some(table)),
        Err(status) => Err(status),
    }
}

/// The table of these owners. Refused as [`table_of`] is.
pub fn read_table(alloc: Global, setup: &Setup, owners: &[u16]) -> Result<Table, u32>
    ensures ok { IfOk result (λ table. table ≡ owners.now) }
    ensures owners { IfOk result (λ _. AreOwners setup.now owners.now) }
    ensures err { IfErr result (RefusesOwners setup.now owners.now) }
{
    if owners.len() != usize::from(setup.partitions()) {
        return Err(TABLE_LENGTH);
    }
    if !are_nodes(setup, owners) {
        return Err(TABLE_OWNER);
    }
    match spelled_table(alloc, setup, owners) {
        Some(table) => Ok(table),
        None => Err(OUT_OF_MEMORY),
    }
}

// Whether all of them are nodes of the setup.
fn are_nodes(setup: &Setup, owners: &[u16]) -> bool
    ensures { IsTrue result ↔ All (IsNode setup.now) owners.now }
{
    let nodes = setup.nodes();
    for owner in owners {
        if *owner == 0 || *owner > nodes {
            return false;
        }
    }
    true
}

// The table that these owners spell, as text. None if an allocation fails.
fn spelled_table(alloc: Global, setup: &Setup, owners: &[u16]) -> Option<Table>
    requires within { IsSetup setup.now }
    requires owners { AreOwners setup.now owners.now }
    ensures { IfSome result (λ table. table ≡ owners.now) }
{
    let mut text = String::new(alloc);
    let Ok(_) = push_numbers(&mut text, owners) else {
        return None;
    };
    match Table::read_in(alloc, setup, text.as_bytes()) {
        Ok(table) => Some(table),
        Err(_) => None,
    }
}

// Appends the owners, with a space between each two. Refused if an allocation fails.
fn push_numbers(text: &mut String, owners: &[u16]) -> Result<(), OutOfMemory>
    ensures { OnOk result (string_bytes text.new ≡ string_bytes text.old ++ owners_text 32 owners.now) }
{
    for place in 0..owners.len() {
        if place > 0 {
            text.push(' ')?;
        }
        let owner = owners[place];
        write!(text, "{owner}")?;
    }
    Ok(())
}

// The first `count` of these, or all if there are fewer.
fn first_of(items: &[u16], count: usize) -> &[u16]
    ensures { result.now ≡ take count items.now }
{
    if count < items.len() {
        &items[..count]
    } else {
        items
    }
}

/// Writes the table's owners at the front of the room, which has room for each.
pub fn put_owners(table: &Table, room: &mut [u16])
    requires { length table.now ≤ length room.old }
    ensures { room.new ≡ table.now ++ drop (length table.now) room.old }
{
    for place in 0..table.len() {
        room[place] = table.owner(place).number();
    }
}
