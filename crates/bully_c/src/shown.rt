//! What an agent or a replica shows.
ghost use Rattle.std.specs.Prelude.{◌≡◌, ◌≤◌, ◌++◌, [], drop, length, reverse, unwrap_or};
ghost use Rattle.std.specs.Option.{option_copied};
ghost use Rattle.bully_c.specs.Arguments.{IsCopied};
ghost use Rattle.bully_c.specs.Exports.{callee_in, kind_in, number_or_none, shown, node_shown};
ghost use Rattle.bully_c.specs.Replicas.{agent_in};
ghost use Rattle.bully_agent.specs.Agent.{wanted};

use crate::status::{OK, SHORT, number_of_kind, number_of_status, number_of_want};
use crate::tables::put_owners;
use bully_agent::Agent;
use bully_base::{Node, NodeSet};
use bully_calls::{Call, Slot};
use bully_handlers::Vector;
use bully_steps::Want;
use bully_table::Table;
use bully_trace::offer_of;
use bully_world::World;

/// The state of a node.
#[repr(C)]
#[derive(Clone, Copy)]
pub struct CState {
    pub status: u32,
    pub wants: u32,
    pub events: u32,
    pub generation: u32,
    pub call: u32,
    pub orphan: u32,
    pub number: u32,
    pub node: u16,
    pub coordinator: u16,
    pub halter: u16,
    pub callee: u16,
}

/// The state of the agent's node.
pub fn state_of(agent: &Agent) -> CState
    ensures { result ≡ shown agent.now }
{
    let wants = agent.wants();
    let mut state = node_shown(agent.vector(), agent.slot(), agent.generation(), wants);
    state.events = agent.events();
    state.number = agent.number();
    state.node = agent.node().number();
    state
}

/// The state of the node, which is at most the setup's last, in the world: as that of an agent of it that has started
/// no call yet.
pub fn state_in(world: &World, node: Node) -> CState
    requires { node ≤ world.now.setup.nodes }
    ensures { result ≡ shown (agent_in world.now node) }
{
    let wants = wanted_in(world, node);
    let mut state = node_shown(
        world.vector(node),
        world.slot(node),
        world.generation(node),
        wants,
    );
    state.events = world.events();
    state.node = node.number();
    state
}

// What the node, which is at most the setup's last, wants to do next.
fn wanted_in(world: &World, node: Node) -> Want
    requires { node ≤ world.now.setup.nodes }
    ensures { result ≡ wanted (agent_in world.now node) }
{
    match world.slot(node).call() {
        Some(_) => Want::Await,
        None => offer_of(world, node),
    }
}

// The state of a node with this vector and this slot, without the number of its last call.
fn node_shown(vector: &Vector, slot: &Slot, generation: u32, wants: Want) -> CState
    ensures { result ≡ node_shown vector.now.vector slot.now generation wants }
{
    CState {
        status: number_of_status(vector.status()),
        wants: number_of_want(wants),
        events: 0,
        generation,
        call: kind_of(slot.call()),
        orphan: u32::from(slot.is_orphan(generation)),
        number: 0,
        node: 0,
        coordinator: number_of(vector.coordinator()),
        halter: number_of(vector.halter()),
        callee: callee_of(slot.call()),
    }
}

// The kind of the call, or 0 for none.
fn kind_of(call: Option<Call>) -> u32
    ensures { result ≡ kind_in call }
{
    match call {
        Some(call) => number_of_kind(call.kind),
        None => 0,
    }
}

// Its callee's number, or 0 for none.
fn callee_of(call: Option<Call>) -> u16
    ensures { result ≡ callee_in call }
{
    match call {
        Some(call) => call.callee.number(),
        None => 0,
    }
}

/// The node's number, or 0 for none.
pub fn number_of(node: Option<Node>) -> u16
    ensures { result ≡ number_or_none node }
{
    match node {
        Some(node) => node.number(),
        None => 0,
    }
}

/// Writes the text and its length. Refused if there isn't room for it, and then the length alone is written.
pub fn copy_text(text: &str, room: &mut [u8], length: &mut usize) -> u32
    ensures { IsCopied text.now room.old result room.new length.new }
{
    let bytes = text.as_bytes();
    *length = bytes.len();
    if room.len() < bytes.len() {
        return SHORT;
    }
    room[..bytes.len()].copy_from_slice(bytes);
    OK
}

/// Writes the table's owners and their count, which is 0 without a table. Refused if there isn't room for them, and
/// then the count alone is written.
pub fn copy_owners(table: Option<&Table>, room: &mut [u16], count: &mut usize) -> u32
    ensures { IsCopied (unwrap_or (option_copied table.entry) []) room.old result room.new count.new }
{
    let Some(table) = table else {
        *count = 0;
        return OK;
    };
    *count = table.len();
    if room.len() < table.len() {
        return SHORT;
    }
    put_owners(table, room);
    OK
}

/// Writes the nodes of the set, in rising order, and their count. Refused if there isn't room for them, and then the
/// count alone is written.
pub fn copy_up(set: &NodeSet, room: &mut [u16], count: &mut usize) -> u32
    ensures { IsCopied (reverse set.now) room.old result room.new count.new }
{
    *count = set.len();
    if room.len() < set.len() {
        return SHORT;
    }
    put_members(set, room);
    room[..set.len()].reverse();
    OK
}

// Writes the nodes of the set, in falling order, at the front of the room, which has room for each.
fn put_members(set: &NodeSet, room: &mut [u16])
    requires { length set.now ≤ length room.old }
    ensures { room.new ≡ set.now ++ drop (length set.now) room.old }
{
    let mut next = set.highest();
    for place in 0..set.len() {
        match next {
            Some(node) => {
                room[place] = node.number();
                next = set.below(node);
            }
            None => {}
        }
    }
}
