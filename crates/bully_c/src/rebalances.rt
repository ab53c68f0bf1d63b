//! The rows that make a group stable, and what a node owns.
ghost use Rattle.std.specs.Prelude.{◌≡◌, ◌⊎◌, ◌<◌, ◌+◌, ◌≤◌, IfErr, IfOk, length, string_bytes};
ghost use Rattle.bully_c.specs.Arguments.{IsCopied};
ghost use Rattle.bully_c.specs.Replicas.{IsWritten};
ghost use Rattle.bully_c.specs.declared.status.TheConstants.{FULL as FullNumber, OUT_OF_MEMORY as OutOfMemoryNumber};
ghost use Rattle.bully_c.specs.RebalanceRows.{IsStableShown, IsOwnedCopied, IsOwnedShown, IsRebalanceOf};
ghost use Rattle.bully_c.specs.RebalanceRows.{RefusesRebalance, events_text, rebalance_number};
ghost use Rattle.bully_rows.specs.declared.TheConstants.{ROWS_MAX};

use crate::old_tables::old_table;
use crate::shown::copy_text;
use crate::status::{FULL, OK, OUT_OF_MEMORY, SHORT};
use crate::tables::node_of;
use crate::traces::members_of;
use bully_base::OutOfMemory;
use bully_rebalance::{Owned, RebalanceFault, is_stable, owned, rebalance};
use bully_replica::{Replica, RowReplica};
use bully_rows::{ROWS_MAX, push_event};
use bully_world::Event;
use std::alloc::Global;

/// The rows that rebalance the group among these nodes, from the old table of these owners if the log has no plan.
pub fn rebalance_of(
    alloc: Global,
    learned: &RowReplica,
    live: &[u16],
    old: &[u16],
) -> Result<String, u32>
    ensures ok { IfOk result (λ text. IsRebalanceOf learned.now live.now old.now (string_bytes text)) }
    ensures err { IfErr result (RefusesRebalance learned.now live.now old.now) }
{
    let replica = learned.replica();
    let setup = replica.world().setup();
    let live = members_of(setup, live)?;
    let old = old_table(alloc, setup, old)?;
    match rebalance(alloc, replica, &live, old.as_ref()) {
        Ok(events) => rows_behind(alloc, learned.rows(), &events),
        Err(fault) => Err(status_of_rebalance(fault)),
    }
}

// The rows of the events, after this many rows in the log.
fn rows_behind(alloc: Global, rows: u32, events: &[Event]) -> Result<String, u32>
    ensures ok { IfOk result (λ text. string_bytes text ≡ events_text events.now) }
    ensures room { IfOk result (λ _. rows + length events.now ≤ ROWS_MAX) }
    ensures err { IfErr result (λ status. ((status ≡ FullNumber) × (ROWS_MAX < rows + length events.now))
        ⊎ (status ≡ OutOfMemoryNumber)) }
{
    if (rows as usize).saturating_add(events.len()) > ROWS_MAX as usize {
        return Err(FULL);
    }
    match events_rows(alloc, events) {
        Ok(text) => Ok(text),
        Err(_) => Err(OUT_OF_MEMORY),
    }
}

/// The rows of the events, each with its line end.
pub fn events_rows(alloc: Global, events: &[Event]) -> Result<String, OutOfMemory>
    ensures { IfOk result (λ text. string_bytes text ≡ events_text events.now) }
{
    let mut text = String::new(alloc);
    for event in events {
        push_event(&mut text, event)?;
    }
    Ok(text)
}

/// The status of a rebalance that is refused.
pub fn status_of_rebalance(fault: RebalanceFault) -> u32
    ensures { result ≡ rebalance_number fault }
{
    match fault {
        RebalanceFault::Full => FULL,
        RebalanceFault::OutOfMemory => OUT_OF_MEMORY,
    }
}

/// Writes the rows that rebalance the group, or returns why there are none.
pub fn write_rebalance(
    alloc: Global,
    learned: &RowReplica,
    live: &[u16],
    old: &[u16],
    rows: &mut [u8],
    length: &mut usize,
) -> u32
    ensures { IsWritten (IsRebalanceOf learned.now live.now old.now)
        (RefusesRebalance learned.now live.now old.now) rows.old length.old result rows.new length.new }
{
    match rebalance_of(alloc, learned, live, old) {
        Ok(text) => copy_text(&text, rows, length),
        Err(status) => status,
    }
}

/// Writes whether the group is stable among these nodes, by a plan at or after this offset.
pub fn write_stable(learned: &RowReplica, live: &[u16], offset: u32, stable: &mut u32) -> u32
    ensures { IsStableShown learned.now.replica live.now offset stable.old result stable.new }
{
    let replica = learned.replica();
    match members_of(replica.world().setup(), live) {
        Ok(live) => {
            *stable = u32::from(is_stable(replica, &live, offset));
            OK
        }
        Err(status) => status,
    }
}

/// Writes the token by which the process of the node of this number may work, and on which partitions, by a plan at or
/// after this offset.
pub fn write_owned(
    alloc: Global,
    replica: &Replica,
    node: u16,
    offset: u32,
    token: &mut u32,
    partitions: &mut [u16],
    count: &mut usize,
) -> u32
    ensures { IsOwnedShown replica.now node offset token.old partitions.old count.old result token.new partitions.new
        count.new }
{
    match node_of(replica.world().setup(), node) {
        Ok(node) => match owned(alloc, replica, node, offset) {
            Ok(owned) => copy_owned(&owned, token, partitions, count),
            Err(_) => OUT_OF_MEMORY,
        },
        Err(status) => status,
    }
}

/// Writes what a node owns: the token, and the partitions with their count, or two zeros. Refused if there isn't room
/// for the partitions, and then the token and the count alone are written.
pub fn copy_owned(
    owned: &Option<Owned>,
    token: &mut u32,
    room: &mut [u16],
    count: &mut usize,
) -> u32
    ensures { IsOwnedCopied owned.now room.old result token.new room.new count.new }
{
    match owned {
        Some(owned) => {
            *token = owned.token;
            copy_numbers(owned.partitions.as_slice(), room, count)
        }
        None => {
            *token = 0;
            *count = 0;
            OK
        }
    }
}

/// Writes the numbers and their count. Refused if there isn't room for them, and then the count alone is written.
pub fn copy_numbers(numbers: &[u16], room: &mut [u16], count: &mut usize) -> u32
    ensures { IsCopied numbers.now room.old result room.new count.new }
{
    *count = numbers.len();
    if room.len() < numbers.len() {
        return SHORT;
    }
    room[..numbers.len()].copy_from_slice(numbers);
    OK
}
