//! Replicas behind their handles, and headers.
ghost use Rattle.std.specs.Prelude.{◌≡◌, None, IfErr, IfOk, string_bytes};
ghost use Rattle.bully_c.specs.Arguments.{IsCopied, setup_given};
ghost use Rattle.bully_c.specs.Exports.{IsClosing};
ghost use Rattle.bully_c.specs.Replicas.{AtLog, IsDetailedHeaderRow, IsEventRow, IsHeaderIn, IsHeaderRow, IsLearning};
ghost use Rattle.bully_c.specs.Replicas.{IsLogOpening, IsNextRow};
ghost use Rattle.bully_c.specs.Replicas.{IsWritten, RefusesEvent, RefusesHeaderRow, RefusesNext, IsListShown};
ghost use Rattle.bully_c.specs.Replicas.{IsStateShown, ShowsLog, group_shown, table_shown, task_in, up_in};
ghost use Rattle.bully_c.specs.RebalanceRows.{IsStableShown, IsOwnedShown, IsRebalanceOf, RefusesRebalance};
ghost use Rattle.bully_c.specs.declared.status.TheConstants.{OK as OkNumber, OUT_OF_MEMORY as OutOfMemoryNumber};

use crate::logs::{learn, opened, write_event, write_next};
use crate::rebalances::{write_owned, write_rebalance, write_stable};
use crate::replica_handle::ReplicaHandle;
use crate::shown::{CState, copy_owners, copy_text, copy_up, number_of, state_in};
use crate::status::{CLOSED, OK, OPEN, OUT_OF_MEMORY};
use crate::tables::{CSetup, node_of, setup_of};
use bully_base::Setup;
use bully_replica::RowReplica;
use bully_rows::{Version, push_header, version_for};
use bully_world::World;
use std::alloc::Global;

/// The state of the group.
#[repr(C)]
#[derive(Clone, Copy)]
pub struct CGroup {
    pub rows: u32,
    pub events: u32,
    pub token: u32,
    pub planner: u16,
    pub nodes: u16,
    pub partitions: u16,
    pub keeps: u16,
}

/// The header of a trace of this setup: [`push_header`], in the first version that can express it.
#[unsafe(no_mangle)]
pub extern "C" fn bully_c_header(
    alloc: Global,
    setup: &CSetup,
    weights: &[u16],
    row: &mut [u8],
    length: &mut usize,
) -> u32
    ensures { IsWritten (IsHeaderRow (setup_given setup.now weights.now))
        (RefusesHeaderRow (setup_given setup.now weights.now)) row.old length.old result row.new length.new }
{
    match header_row(alloc, setup, weights) {
        Ok(text) => copy_text(&text, row, length),
        Err(status) => status,
    }
}

// The header of this setup.
fn header_row(alloc: Global, setup: &CSetup, weights: &[u16]) -> Result<String, u32>
    ensures ok { IfOk result (λ text. IsHeaderRow (setup_given setup.now weights.now) (string_bytes text)) }
    ensures err { IfErr result (RefusesHeaderRow (setup_given setup.now weights.now)) }
{
    let setup = setup_of(setup, weights)?;
    header_in(alloc, version_for(&setup), &setup)
}

/// The header of a trace of this setup whose rows say more than an event, as an agent's do: [`push_header`], in version
/// 3.
#[unsafe(no_mangle)]
pub extern "C" fn bully_c_detailed_header(
    alloc: Global,
    setup: &CSetup,
    weights: &[u16],
    row: &mut [u8],
    length: &mut usize,
) -> u32
    ensures { IsWritten (IsDetailedHeaderRow (setup_given setup.now weights.now))
        (RefusesHeaderRow (setup_given setup.now weights.now)) row.old length.old result row.new length.new }
{
    match detailed_header_row(alloc, setup, weights) {
        Ok(text) => copy_text(&text, row, length),
        Err(status) => status,
    }
}

// The header of this setup in version 3.
fn detailed_header_row(alloc: Global, setup: &CSetup, weights: &[u16]) -> Result<String, u32>
    ensures ok { IfOk result (λ text. IsDetailedHeaderRow (setup_given setup.now weights.now) (string_bytes text)) }
    ensures err { IfErr result (RefusesHeaderRow (setup_given setup.now weights.now)) }
{
    let setup = setup_of(setup, weights)?;
    header_in(alloc, Version::Three, &setup)
}

// The header of this version and this setup.
fn header_in(alloc: Global, version: Version, setup: &Setup) -> Result<String, u32>
    ensures ok { IfOk result (λ text. IsHeaderIn version setup.now (string_bytes text)) }
    ensures err { IfErr result (λ status. status ≡ OutOfMemoryNumber) }
{
    let mut text = String::new(alloc);
    match push_header(&mut text, version, setup) {
        Ok(()) => Ok(text),
        Err(_) => Err(OUT_OF_MEMORY),
    }
}

/// Opens the handle: the replica of a log with this header, [`RowReplica::new`].
#[unsafe(no_mangle)]
pub extern "C" fn bully_c_replica_open(
    alloc: Global,
    replica: &mut ReplicaHandle,
    header: &[u8],
) -> u32
    ensures { IsLogOpening header.now replica.old.value result replica.new.value }
{
    if let Some(held) = replica.take(alloc) {
        replica.put(alloc, held);
        return OPEN;
    }
    match opened(alloc, header) {
        Ok(held) => {
            replica.put(alloc, held);
            OK
        }
        Err(status) => status,
    }
}

/// Closes the handle, and gives back what it kept.
#[unsafe(no_mangle)]
pub extern "C" fn bully_c_replica_close(alloc: Global, replica: &mut ReplicaHandle) -> u32
    ensures { IsClosing replica.old.value result replica.new.value }
{
    match replica.take(alloc) {
        Some(_) => OK,
        None => CLOSED,
    }
}

/// Learns the rows that come next in the log: [`RowReplica::learn_all`].
#[unsafe(no_mangle)]
pub extern "C" fn bully_c_replica_learn(
    alloc: Global,
    replica: &mut ReplicaHandle,
    rows: &[u8],
    taken: &mut usize,
) -> u32
    ensures open { AtLog (IsLearning rows.now taken.new) replica.old.value result replica.new.value }
    ensures closed { replica.old.value ≡ None → taken.new ≡ taken.old }
{
    let Some(mut held) = replica.take(alloc) else {
        return CLOSED;
    };
    let status = learn(alloc, &mut held, rows, taken);
    replica.put(alloc, held);
    status
}

/// The row that the node appends next by itself: [`bully_replica::Replica::next`].
#[unsafe(no_mangle)]
pub extern "C" fn bully_c_replica_next(
    alloc: Global,
    replica: &mut ReplicaHandle,
    node: u16,
    row: &mut [u8],
    length: &mut usize,
) -> u32
    ensures open { AtLog (ShowsLog (λ held status. IsWritten (IsNextRow held node) (RefusesNext held node) row.old
        length.old status row.new length.new)) replica.old.value result replica.new.value }
    ensures closed { replica.old.value ≡ None → (row.new ≡ row.old) × (length.new ≡ length.old) }
{
    let Some(held) = replica.take(alloc) else {
        return CLOSED;
    };
    let status = write_next(alloc, &held, node, row, length);
    replica.put(alloc, held);
    status
}

/// The row of an event that a process appends for reasons of its own.
#[unsafe(no_mangle)]
pub extern "C" fn bully_c_replica_event(
    alloc: Global,
    replica: &mut ReplicaHandle,
    node: u16,
    event: u32,
    row: &mut [u8],
    length: &mut usize,
) -> u32
    ensures open { AtLog (ShowsLog (λ held status. IsWritten (IsEventRow held node event) (RefusesEvent held node event)
        row.old length.old status row.new length.new)) replica.old.value result replica.new.value }
    ensures closed { replica.old.value ≡ None → (row.new ≡ row.old) × (length.new ≡ length.old) }
{
    let Some(held) = replica.take(alloc) else {
        return CLOSED;
    };
    let status = write_event(alloc, &held, node, event, row, length);
    replica.put(alloc, held);
    status
}

/// The state of the node.
#[unsafe(no_mangle)]
pub extern "C" fn bully_c_replica_show(
    alloc: Global,
    replica: &mut ReplicaHandle,
    node: u16,
    state: &mut CState,
) -> u32
    ensures open { AtLog (ShowsLog (λ held status. IsStateShown held.replica.world node state.old status state.new))
        replica.old.value result replica.new.value }
    ensures closed { replica.old.value ≡ None → state.new ≡ state.old }
{
    let Some(held) = replica.take(alloc) else {
        return CLOSED;
    };
    let status = show_node(held.replica().world(), node, state);
    replica.put(alloc, held);
    status
}

/// Writes the state of the node of this number.
pub fn show_node(world: &World, node: u16, state: &mut CState) -> u32
    ensures { IsStateShown world.now node state.old result state.new }
{
    match node_of(world.setup(), node) {
        Ok(node) => {
            *state = state_in(world, node);
            OK
        }
        Err(status) => status,
    }
}

/// The nodes of the node's up set, in rising order.
#[unsafe(no_mangle)]
pub extern "C" fn bully_c_replica_up(
    alloc: Global,
    replica: &mut ReplicaHandle,
    node: u16,
    nodes: &mut [u16],
    count: &mut usize,
) -> u32
    ensures open { AtLog (ShowsLog (λ held status. let w = held.replica.world in IsListShown w node
        (up_in w node) nodes.old count.old status nodes.new count.new)) replica.old.value result replica.new.value }
    ensures closed { replica.old.value ≡ None → (nodes.new ≡ nodes.old) × (count.new ≡ count.old) }
{
    let Some(held) = replica.take(alloc) else {
        return CLOSED;
    };
    let status = show_up(held.replica().world(), node, nodes, count);
    replica.put(alloc, held);
    status
}

// Writes the up set of the node of this number.
fn show_up(world: &World, node: u16, nodes: &mut [u16], count: &mut usize) -> u32
    ensures { IsListShown world.now node (up_in world.now node) nodes.old count.old result nodes.new count.new }
{
    match node_of(world.setup(), node) {
        Ok(node) => copy_up(world.vector(node).up(), nodes, count),
        Err(status) => status,
    }
}

/// The owners of the node's task, or none without a task.
#[unsafe(no_mangle)]
pub extern "C" fn bully_c_replica_task(
    alloc: Global,
    replica: &mut ReplicaHandle,
    node: u16,
    owners: &mut [u16],
    count: &mut usize,
) -> u32
    ensures open { AtLog (ShowsLog (λ held status. let w = held.replica.world in IsListShown w node
        (task_in w node) owners.old count.old status owners.new count.new)) replica.old.value result replica.new.value }
    ensures closed { replica.old.value ≡ None → (owners.new ≡ owners.old) × (count.new ≡ count.old) }
{
    let Some(held) = replica.take(alloc) else {
        return CLOSED;
    };
    let status = show_task(held.replica().world(), node, owners, count);
    replica.put(alloc, held);
    status
}

// Writes the owners of the task of the node of this number.
fn show_task(world: &World, node: u16, owners: &mut [u16], count: &mut usize) -> u32
    ensures { IsListShown world.now node (task_in world.now node) owners.old count.old result owners.new count.new }
{
    match node_of(world.setup(), node) {
        Ok(node) => copy_owners(world.vector(node).task(), owners, count),
        Err(status) => status,
    }
}

/// The state of the group.
#[unsafe(no_mangle)]
pub extern "C" fn bully_c_replica_group(
    alloc: Global,
    replica: &mut ReplicaHandle,
    group: &mut CGroup,
) -> u32
    ensures open { AtLog (ShowsLog (λ held status. (status ≡ OkNumber)
        × (group.new ≡ group_shown held))) replica.old.value result replica.new.value }
    ensures closed { replica.old.value ≡ None → group.new ≡ group.old }
{
    let Some(held) = replica.take(alloc) else {
        return CLOSED;
    };
    *group = group_of(&held);
    replica.put(alloc, held);
    OK
}

/// The state of the group whose log was learned so far.
pub fn group_of(learned: &RowReplica) -> CGroup
    ensures { result ≡ group_shown learned.now }
{
    let replica = learned.replica();
    let setup = replica.world().setup();
    CGroup {
        rows: learned.rows(),
        events: replica.events(),
        token: replica.token(),
        planner: number_of(replica.planner()),
        nodes: setup.nodes(),
        partitions: setup.partitions(),
        keeps: u16::from(setup.keeps()),
    }
}

/// The owners of the last plan's table, or none without a plan.
#[unsafe(no_mangle)]
pub extern "C" fn bully_c_replica_planned(
    alloc: Global,
    replica: &mut ReplicaHandle,
    owners: &mut [u16],
    count: &mut usize,
) -> u32
    ensures open { AtLog (ShowsLog (λ held status. IsCopied
        (table_shown held.replica) owners.old status owners.new count.new)) replica.old.value result replica.new.value }
    ensures closed { replica.old.value ≡ None → (owners.new ≡ owners.old) × (count.new ≡ count.old) }
{
    let Some(held) = replica.take(alloc) else {
        return CLOSED;
    };
    let status = copy_owners(held.replica().last_table(), owners, count);
    replica.put(alloc, held);
    status
}

/// The rows that make the group stable among these nodes: [`bully_rebalance::rebalance`].
#[unsafe(no_mangle)]
pub extern "C" fn bully_c_replica_rebalance(
    alloc: Global,
    replica: &mut ReplicaHandle,
    live: &[u16],
    old: &[u16],
    rows: &mut [u8],
    length: &mut usize,
) -> u32
    ensures open { AtLog (ShowsLog (λ held status. IsWritten (IsRebalanceOf held live.now old.now)
        (RefusesRebalance held live.now old.now) rows.old length.old status rows.new length.new)) replica.old.value
        result replica.new.value }
    ensures closed { replica.old.value ≡ None → (rows.new ≡ rows.old) × (length.new ≡ length.old) }
{
    let Some(held) = replica.take(alloc) else {
        return CLOSED;
    };
    let status = write_rebalance(alloc, &held, live, old, rows, length);
    replica.put(alloc, held);
    status
}

/// Whether the group is stable among these nodes: [`bully_rebalance::is_stable`].
#[unsafe(no_mangle)]
pub extern "C" fn bully_c_replica_is_stable(
    alloc: Global,
    replica: &mut ReplicaHandle,
    live: &[u16],
    offset: u32,
    is_stable: &mut u32,
) -> u32
    ensures open { AtLog (ShowsLog (λ held status. IsStableShown held.replica live.now offset is_stable.old status
        is_stable.new)) replica.old.value result replica.new.value }
    ensures closed { replica.old.value ≡ None → is_stable.new ≡ is_stable.old }
{
    let Some(held) = replica.take(alloc) else {
        return CLOSED;
    };
    let status = write_stable(&held, live, offset, is_stable);
    replica.put(alloc, held);
    status
}

/// What the node owns, by a plan at or after this offset: [`bully_rebalance::owned`].
#[unsafe(no_mangle)]
pub extern "C" fn bully_c_replica_owned(
    alloc: Global,
    replica: &mut ReplicaHandle,
    node: u16,
    offset: u32,
    token: &mut u32,
    partitions: &mut [u16],
    count: &mut usize,
) -> u32
    ensures open { AtLog (ShowsLog (λ held status. IsOwnedShown held.replica node offset token.old partitions.old
        count.old status token.new partitions.new count.new)) replica.old.value result replica.new.value }
    ensures closed { replica.old.value ≡ None → (token.new ≡ token.old) × (partitions.new ≡ partitions.old)
        × (count.new ≡ count.old) }
{
    let Some(held) = replica.take(alloc) else {
        return CLOSED;
    };
    let status = write_owned(
        alloc,
        held.replica(),
        node,
        offset,
        token,
        partitions,
        count,
    );
    replica.put(alloc, held);
    status
}
