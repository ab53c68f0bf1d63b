ghost use Rattle.std.specs.Prelude.{◌≡◌, ◌↔◌, ◌++◌, ◌∷◌, [], All, IfOk, IsTrue, OnOk, filter, if◌then◌else◌};
ghost use Rattle.std.specs.List.{list_all};
ghost use Rattle.std.specs.Option.{option_copied};
ghost use Rattle.std.specs.Prelude.{ℕ, Contains};
ghost use Rattle.bully_rebalance.specs.Leaving.{Leaves, LeavesTo, Loses, is_given, is_left};
ghost use Rattle.bully_work.specs.Working.{GivesTo};

use crate::holding::Partitions;
use bully_base::{Node, NodeSet, OutOfMemory};
use bully_table::Table;
use std::alloc::Global;

/// A node, and the partitions that its process keeps over a rebalance.
#[derive(Drop, Debug)]
pub struct Keeper {
    pub node: Node,
    pub partitions: Partitions,
}

/// Whether the table gives each of these nodes all partitions that its process keeps. The rule: docs/REBALANCING.md.
pub fn leaves_all(table: &Table, keepers: &[Keeper]) -> bool
    ensures { IsTrue result ↔ All (LeavesTo table.now) keepers.now }
{
    keepers.iter().all(|keeper| leaves(table, keeper.node, keeper.partitions.as_slice()))
}

/// Whether the table gives the node all these partitions.
pub fn leaves(table: &Table, node: Node, kept: &[u16]) -> bool
    ensures test { result ≡ list_all (is_given table.now node) kept.now }
    ensures leaves { IsTrue result ↔ Leaves table.now node kept.now }
{
    kept.iter()
        .all(|partition| is_given(table, node, usize::from(*partition)))
}

/// Those of the partitions that the table gives the node, in their order. On these its process may continue to work
/// during a rebalance that plans this table. Refused if an allocation fails.
pub fn left_of(
    alloc: Global,
    table: &Table,
    node: Node,
    partitions: &[u16],
) -> Result<Vec<u16>, OutOfMemory>
    ensures { IfOk result (λ left. left.items ≡ filter (is_given table.now node) partitions.now) }
{
    let mut left = Vec::new(alloc);
    for offset in 0..partitions.len() {
        let partition = partitions[offset];
        let is_left = is_given(table, node, usize::from(partition));
        push_if(is_left, partition, &mut left)?;
    }
    Ok(left)
}

fn push_if(is_left: bool, partition: u16, left: &mut Vec<u16>) -> Result<(), OutOfMemory>
    ensures { OnOk result (left.new.items ≡ left.old.items ++ (if is_left then partition ∷ [] else [])) }
{
    if is_left {
        left.push(partition)?;
    }
    Ok(())
}

/// The nodes that lose a partition if the first table is followed by the second: those to which the first gives one
/// that the second, if there is one, doesn't give them. All others lose nothing by it. The rule: docs/REBALANCING.md.
pub fn losers(before: &Table, after: Option<&Table>) -> NodeSet
    ensures { (i : ℕ) → Contains result i ↔ Loses before.now (option_copied after.entry) i }
{
    let mut losers = NodeSet::new();
    for partition in 0..before.len() {
        let owner = before.owner(partition);
        if !is_left(after, owner, partition) {
            losers.insert(owner);
        }
    }
    losers
}

/// Whether the table, if there is one, gives the node this partition.
pub fn is_left(table: Option<&Table>, node: Node, partition: usize) -> bool
    ensures { result ≡ is_left (option_copied table.entry) node partition }
{
    match table {
        Some(table) => is_given(table, node, partition),
        None => false,
    }
}

fn is_given(table: &Table, node: Node, partition: usize) -> bool
    ensures test { result ≡ is_given table.now node partition }
    ensures given { IsTrue result ↔ GivesTo table.now partition node }
{
    partition < table.len() && table.owner(partition) == node
}
