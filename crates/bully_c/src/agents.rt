//! Agents behind their handles.
ghost use Rattle.std.specs.Prelude.{◌≡◌, ◌≤◌, [], IfErr, IfOk, IfSome, length, None, unwrap_or, reverse};
ghost use Rattle.std.specs.Option.{option_copied};
ghost use Rattle.bully_agent.specs.Agent.{IsAlone, new_agent};
ghost use Rattle.bully_rows.specs.TraceText.{line_of, row_fields, rows_text};
ghost use Rattle.bully_rows.specs.Whole.{whole_of};
ghost use Rattle.bully_rows.specs.declared.trace.Row.{Row as RowState};
ghost use Rattle.bully_calls.specs.declared.kind.EventKind.{EventKind};
ghost use Rattle.bully_calls.specs.declared.kind.NodeEventKind.{NodeEventKind as KindState};
ghost use Rattle.bully_c.specs.Arguments.{IsCopied, IsMadeAndCopied, setup_given};
ghost use Rattle.bully_c.specs.Exports.{AtOpen, CanOpen, IsClosing, IsOpening, IsOwn, IsPlan, IsPrepared};
ghost use Rattle.bully_c.specs.Exports.{IsPreparedTable, RefusesOpening, RefusesPrepare, Shows, opened, shown};
ghost use Rattle.bully_c.specs.HeldAgent.{rows_told};
ghost use Rattle.bully_c.specs.Numbers.{step_number};
ghost use Rattle.bully_c.specs.declared.status.TheConstants.{OK as OkNumber};
ghost use Rattle.bully_c.specs.declared.held_agent.StepRows.{StepRows as StepRowsState};

use crate::agent_handle::AgentHandle;
use crate::held_agent::HeldAgent;
use crate::shown::{CState, copy_owners, copy_text, copy_up, state_of};
use crate::status::{CLOSED, OK, OPEN, OUT_OF_MEMORY, TABLE_LENGTH, status_of_refusal};
use crate::tables::{CSetup, node_of, put_owners, read_table, setup_of, table_of};
use bully_agent::Agent;
use bully_base::{Node, OutOfMemory, Setup};
use bully_calls::{Answer, NodeEventKind};
use bully_rows::push_vector;
use bully_table::Table;
use bully_world::Refused;
use std::alloc::Global;

// The status of a step.
fn done(taken: Result<Answer, Refused>) -> u32
    ensures { result ≡ step_number taken }
{
    match taken {
        Ok(_) => OK,
        Err(why) => status_of_refusal(why),
    }
}

/// Opens the handle: [`Agent::new`], after a test of its arguments.
#[unsafe(no_mangle)]
pub extern "C" fn bully_c_agent_open(
    alloc: Global,
    agent: &mut AgentHandle,
    setup: &CSetup,
    weights: &[u16],
    node: u16,
    events: u32,
    task: &[u16],
) -> u32
    ensures { IsOpening
        (setup_given setup.now weights.now) node events task.now agent.old.value result agent.new.value }
{
    if let Some(held) = agent.take(alloc) {
        agent.put(alloc, held);
        return OPEN;
    }
    match opened(alloc, setup, weights, node, events, task) {
        Ok(held) => {
            agent.put(alloc, held);
            OK
        }
        Err(status) => status,
    }
}

// The agent of these arguments.
fn opened(
    alloc: Global,
    setup: &CSetup,
    weights: &[u16],
    node: u16,
    events: u32,
    task: &[u16],
) -> Result<Box<HeldAgent>, u32>
    ensures ok { IfOk result (λ held. held.value ≡ opened (setup_given setup.now weights.now) node events task.now) }
    ensures can { IfOk result (λ _. CanOpen (setup_given setup.now weights.now) node task.now) }
    ensures err { IfErr result (RefusesOpening (setup_given setup.now weights.now) node task.now) }
{
    let setup = setup_of(setup, weights)?;
    let node = node_of(&setup, node)?;
    let task = table_of(alloc, &setup, task)?;
    match boxed(alloc, &setup, node, events, task.as_ref()) {
        Ok(held) => Ok(held),
        Err(_) => Err(OUT_OF_MEMORY),
    }
}

// The agent, on the heap.
fn boxed(
    alloc: Global,
    setup: &Setup,
    node: Node,
    events: u32,
    task: Option<&Table>,
) -> Result<Box<HeldAgent>, OutOfMemory>
    requires node { node ≤ setup.now.nodes }
    requires task { IfSome (option_copied task) (λ t. length t ≡ setup.now.partitions) }
    ensures { IfOk result (λ held. held.value
        ≡ record { agent = new_agent setup.now node events (option_copied task.entry); told = StepRowsState.Nothing }) }
{
    let agent = Agent::new(alloc, setup, node, events, task)?;
    Ok(Box::new(alloc, HeldAgent::new(agent))?)
}

/// Closes the handle, and gives back what it kept.
#[unsafe(no_mangle)]
pub extern "C" fn bully_c_agent_close(alloc: Global, agent: &mut AgentHandle) -> u32
    ensures { IsClosing agent.old.value result agent.new.value }
{
    match agent.take(alloc) {
        Some(_) => OK,
        None => CLOSED,
    }
}

// The node takes the event of this kind by itself: [`Agent::apply`].
fn apply(alloc: Global, agent: &mut AgentHandle, kind: NodeEventKind) -> u32
    requires { IsAlone (EventKind.Node kind) }
    ensures { AtOpen (IsOwn kind) agent.old.value result agent.new.value }
{
    let Some(mut held) = agent.take(alloc) else {
        return CLOSED;
    };
    let status = done(held.apply(kind));
    agent.put(alloc, held);
    status
}

/// The node recovers.
#[unsafe(no_mangle)]
pub extern "C" fn bully_c_agent_recover(alloc: Global, agent: &mut AgentHandle) -> u32
    ensures { AtOpen (IsOwn KindState.Recover) agent.old.value result agent.new.value }
{
    apply(alloc, agent, NodeEventKind::Recover)
}

/// The node crashes.
#[unsafe(no_mangle)]
pub extern "C" fn bully_c_agent_crash(alloc: Global, agent: &mut AgentHandle) -> u32
    ensures { AtOpen (IsOwn KindState.Crash) agent.old.value result agent.new.value }
{
    apply(alloc, agent, NodeEventKind::Crash)
}

/// The idle node starts to check.
#[unsafe(no_mangle)]
pub extern "C" fn bully_c_agent_check(alloc: Global, agent: &mut AgentHandle) -> u32
    ensures { AtOpen (IsOwn KindState.Check) agent.old.value result agent.new.value }
{
    apply(alloc, agent, NodeEventKind::Check)
}

/// The idle node heard nothing for too long.
#[unsafe(no_mangle)]
pub extern "C" fn bully_c_agent_timeout(alloc: Global, agent: &mut AgentHandle) -> u32
    ensures { AtOpen (IsOwn KindState.Timeout) agent.old.value result agent.new.value }
{
    apply(alloc, agent, NodeEventKind::Timeout)
}

/// The node starts its call.
#[unsafe(no_mangle)]
pub extern "C" fn bully_c_agent_start(alloc: Global, agent: &mut AgentHandle) -> u32
    ensures { AtOpen (IsOwn KindState.Start) agent.old.value result agent.new.value }
{
    apply(alloc, agent, NodeEventKind::Start)
}

/// The node moves on without a call.
#[unsafe(no_mangle)]
pub extern "C" fn bully_c_agent_advance(alloc: Global, agent: &mut AgentHandle) -> u32
    ensures { AtOpen (IsOwn KindState.Move) agent.old.value result agent.new.value }
{
    apply(alloc, agent, NodeEventKind::Move)
}

/// The node's call, an orphan, is given up.
#[unsafe(no_mangle)]
pub extern "C" fn bully_c_agent_drop_orphan(alloc: Global, agent: &mut AgentHandle) -> u32
    ensures { AtOpen (IsOwn KindState.Drop) agent.old.value result agent.new.value }
{
    apply(alloc, agent, NodeEventKind::Drop)
}

/// The node has planned the table of these owners: [`Agent::plan`].
#[unsafe(no_mangle)]
pub extern "C" fn bully_c_agent_plan(alloc: Global, agent: &mut AgentHandle, owners: &[u16]) -> u32
    ensures { AtOpen (IsPlan owners.now) agent.old.value result agent.new.value }
{
    let Some(mut held) = agent.take(alloc) else {
        return CLOSED;
    };
    let status = planned(alloc, &mut held, owners);
    agent.put(alloc, held);
    status
}

// The agent has planned the table of these owners.
fn planned(alloc: Global, held: &mut HeldAgent, owners: &[u16]) -> u32
    ensures { IsPlan owners.now held.old result held.new }
{
    match read_table(alloc, held.agent.setup(), owners) {
        Ok(table) => done(held.plan(table)),
        Err(status) => status,
    }
}

/// The table that the node should plan from the table of these owners, or from none: [`Agent::prepare`].
#[unsafe(no_mangle)]
pub extern "C" fn bully_c_agent_prepare(
    alloc: Global,
    agent: &mut AgentHandle,
    old: &[u16],
    owners: &mut [u16],
) -> u32
    ensures open { AtOpen (IsPrepared old.now owners.old owners.new) agent.old.value result agent.new.value }
    ensures closed { agent.old.value ≡ None → owners.new ≡ owners.old }
{
    let Some(held) = agent.take(alloc) else {
        return CLOSED;
    };
    let status = match prepared(alloc, &held.agent, old, owners.len()) {
        Ok(table) => {
            put_owners(&table, owners);
            OK
        }
        Err(status) => status,
    };
    agent.put(alloc, held);
    status
}

// The table that the agent prepares, which has this many owners.
fn prepared(alloc: Global, agent: &Agent, old: &[u16], count: usize) -> Result<Table, u32>
    ensures ok { IfOk result (IsPreparedTable agent.now old.now) }
    ensures count { IfOk result (λ table. length table ≡ count) }
    ensures err { IfErr result (RefusesPrepare agent.now old.now count) }
{
    let setup = agent.setup();
    if count != usize::from(setup.partitions()) {
        return Err(TABLE_LENGTH);
    }
    let old = table_of(alloc, setup, old)?;
    match agent.prepare(alloc, old.as_ref()) {
        Ok(table) => Ok(table),
        Err(_) => Err(OUT_OF_MEMORY),
    }
}

/// The state of the node.
#[unsafe(no_mangle)]
pub extern "C" fn bully_c_agent_show(
    alloc: Global,
    agent: &mut AgentHandle,
    state: &mut CState,
) -> u32
    ensures open { AtOpen (Shows (λ held status. (status ≡ OkNumber)
        × (state.new ≡ shown held.agent))) agent.old.value result agent.new.value }
    ensures closed { agent.old.value ≡ None → state.new ≡ state.old }
{
    let Some(held) = agent.take(alloc) else {
        return CLOSED;
    };
    *state = state_of(&held.agent);
    agent.put(alloc, held);
    OK
}

/// The nodes of the node's up set, in rising order.
#[unsafe(no_mangle)]
pub extern "C" fn bully_c_agent_up(
    alloc: Global,
    agent: &mut AgentHandle,
    nodes: &mut [u16],
    count: &mut usize,
) -> u32
    ensures open { AtOpen (Shows (λ held status. IsCopied (reverse held.agent.node_state.vector.vector.up) nodes.old
        status nodes.new count.new)) agent.old.value result agent.new.value }
    ensures closed { agent.old.value ≡ None → (nodes.new ≡ nodes.old) × (count.new ≡ count.old) }
{
    let Some(held) = agent.take(alloc) else {
        return CLOSED;
    };
    let status = copy_up(held.agent.vector().up(), nodes, count);
    agent.put(alloc, held);
    status
}

/// The owners of the node's task, or none without a task.
#[unsafe(no_mangle)]
pub extern "C" fn bully_c_agent_task(
    alloc: Global,
    agent: &mut AgentHandle,
    owners: &mut [u16],
    count: &mut usize,
) -> u32
    ensures open { AtOpen (Shows (λ held status. IsCopied (unwrap_or held.agent.node_state.vector.vector.task [])
        owners.old status owners.new count.new)) agent.old.value result agent.new.value }
    ensures closed { agent.old.value ≡ None → (owners.new ≡ owners.old) × (count.new ≡ count.old) }
{
    let Some(held) = agent.take(alloc) else {
        return CLOSED;
    };
    let status = copy_owners(held.agent.vector().task(), owners, count);
    agent.put(alloc, held);
    status
}

/// The rows of the last step.
#[unsafe(no_mangle)]
pub extern "C" fn bully_c_agent_rows(
    alloc: Global,
    agent: &mut AgentHandle,
    rows: &mut [u8],
    length: &mut usize,
) -> u32
    ensures open { AtOpen (Shows (λ held status. IsMadeAndCopied (rows_text (rows_told held.told)) rows.old length.old
        status rows.new length.new)) agent.old.value result agent.new.value }
    ensures closed { agent.old.value ≡ None → (rows.new ≡ rows.old) × (length.new ≡ length.old) }
{
    let Some(held) = agent.take(alloc) else {
        return CLOSED;
    };
    let mut text = String::new(alloc);
    let status = match held.push_rows(&mut text) {
        Ok(()) => copy_text(&text, rows, length),
        Err(_) => OUT_OF_MEMORY,
    };
    agent.put(alloc, held);
    status
}

/// The row that says all of the node's vector.
#[unsafe(no_mangle)]
pub extern "C" fn bully_c_agent_claim(
    alloc: Global,
    agent: &mut AgentHandle,
    row: &mut [u8],
    length: &mut usize,
) -> u32
    ensures open { AtOpen (Shows (λ held status. IsMadeAndCopied
        (line_of (row_fields (RowState.Whole (whole_of held.agent.node held.agent.node_state.vector.vector)))) row.old
        length.old status row.new length.new)) agent.old.value result agent.new.value }
    ensures closed { agent.old.value ≡ None → (row.new ≡ row.old) × (length.new ≡ length.old) }
{
    let Some(held) = agent.take(alloc) else {
        return CLOSED;
    };
    let mut text = String::new(alloc);
    let status = match push_vector(&mut text, held.agent.node(), held.agent.vector()) {
        Ok(()) => copy_text(&text, row, length),
        Err(_) => OUT_OF_MEMORY,
    };
    agent.put(alloc, held);
    status
}
