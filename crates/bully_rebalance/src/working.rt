ghost use Rattle.std.specs.Prelude.{◌≡◌, ◌≢◌, ◌↔◌, ◌≤◌, ◌<◌, ◌&&◌, [], if◌then◌else◌, IfOk, IfSome, IfNone, IsTrue};
ghost use Rattle.std.specs.Prelude.{None, OnOk, length, nat_lt, ◌++◌, ◌∷◌};
ghost use Rattle.std.specs.Option.{option_copied, option_map};
ghost use Rattle.bully_handlers.specs.Vector.{is_normal};
ghost use Rattle.bully_replica.specs.LastPlan.{table_in};
ghost use Rattle.bully_replica.specs.Replica.{token_of};
ghost use Rattle.bully_rebalance.specs.Owning.{IsRisingFrom, OwnsBehind, OwnsExactly, OwnsNothingBehind, owned_by};
ghost use Rattle.bully_rebalance.specs.Owning.{owned_with, partitions_of, token_in};
ghost use Rattle.bully_world.specs.State.{world_of};
ghost use Rattle.bully_world.specs.World.{vector};

use crate::holding::{Owned, Partitions};
use bully_base::{Node, OutOfMemory, Status};
use bully_replica::Replica;
use bully_table::Table;
use std::alloc::Global;

/// The token by which the node's process may work, if it may: the node is Normal, and the log's last plan is at or
/// after this offset and gives the node a partition. The token is the number of events up to and including that plan.
/// It takes no memory. The node is at most the setup's last. The rule: docs/REBALANCING.md.
pub fn may_work(replica: &Replica, node: Node, offset: u32) -> Option<u32>
    requires { node ≤ replica.now.world.setup.nodes }
    ensures token { result ≡ option_map token_in (owned_by replica.now node offset) }
    ensures owns { IfSome result (OwnsBehind replica.now node offset) }
    ensures none { IfNone result (OwnsNothingBehind replica.now node offset) }
{
    let Some(table) = table_behind(replica, node, offset) else {
        return None;
    };
    if owns_any(table, node) {
        Some(replica.token())
    } else {
        None
    }
}

/// By which token the node's process may work, and on which partitions, by a plan at or after this offset: none exactly
/// if [`may_work`] returns none. Refused if an allocation fails. The node is at most the setup's last.
pub fn owned(
    alloc: Global,
    replica: &Replica,
    node: Node,
    offset: u32,
) -> Result<Option<Owned>, OutOfMemory>
    requires { node ≤ replica.now.world.setup.nodes }
    ensures owned { IfOk result (λ owned. owned ≡ owned_by replica.now node offset) }
    ensures owns { IfOk result (λ owned. IfSome owned (λ o. OwnsBehind replica.now node offset o.token)) }
    ensures exact { IfOk result (λ owned. IfSome owned (λ o. OwnsExactly replica.now node o.partitions)) }
    ensures rising { IfOk result (λ owned. IfSome owned (λ o. IsRisingFrom 0 o.partitions)) }
    ensures none { IfOk result (λ owned. IfNone owned (OwnsNothingBehind replica.now node offset)) }
{
    let Some(table) = table_behind(replica, node, offset) else {
        return Ok(None);
    };
    let count = replica.world().setup().partitions();
    let partitions = partitions_of(alloc, table, count, node)?;
    Ok(owned_with(replica.token(), partitions))
}

// The last plan's table, if the node is Normal, and the plan is at or after the offset.
fn table_behind(replica: &Replica, node: Node, offset: u32) -> Option<&Table>
    requires { node ≤ replica.now.world.setup.nodes }
    ensures table { option_copied result
        ≡ (if is_normal (vector (world_of replica.now.world) node).status && nat_lt offset (token_of replica.now.last)
        then option_map table_in replica.now.last else None) }
    ensures partitions { IfSome (option_copied result) (λ t. length t ≡ replica.now.world.setup.partitions) }
{
    if replica.world().vector(node).status() == Status::Normal && offset < replica.token() {
        replica.last_table()
    } else {
        None
    }
}

// Whether the table gives the node any partition.
fn owns_any(table: &Table, node: Node) -> bool
    ensures { IsTrue result ↔ (partitions_of table.now node ≢ []) }
{
    for partition in 0..table.len() {
        if table.owner(partition) == node {
            return true;
        }
    }
    false
}

// The partitions that a table of this size gives the node.
fn partitions_of(
    alloc: Global,
    table: &Table,
    count: u16,
    node: Node,
) -> Result<Vec<u16>, OutOfMemory>
    requires { length table.now ≡ count }
    ensures { IfOk result (λ partitions. partitions.items ≡ partitions_of table.now node) }
{
    let mut partitions = Vec::new(alloc);
    for partition in 0..count {
        let is_owner = table.owner(usize::from(partition)) == node;
        push_if(is_owner, partition, &mut partitions)?;
    }
    Ok(partitions)
}

fn push_if(is_owner: bool, partition: u16, partitions: &mut Vec<u16>) -> Result<(), OutOfMemory>
    ensures { OnOk result (partitions.new.items ≡ partitions.old.items ++ (if is_owner then partition ∷ [] else [])) }
{
    if is_owner {
        partitions.push(partition)?;
    }
    Ok(())
}

// What a node owns that has this token and these partitions: nothing if there are no partitions.
fn owned_with(token: u32, partitions: Vec<u16>) -> Option<Owned>
    ensures { result ≡ owned_with token partitions.items }
{
    if partitions.is_empty() {
        return None;
    }
    Some(Owned {
        token,
        partitions: Partitions::from_vec(partitions),
    })
}
