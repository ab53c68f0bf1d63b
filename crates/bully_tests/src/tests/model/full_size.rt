//! Each value that reserves memory is made for the largest group, 1,024 nodes with 4,096 partitions, and used once:
//! where there is memory, none of them is refused.

ghost use Rattle.std.specs.Prelude.{◌≡◌, ◌≤◌, IfSome, None, Some, length};
ghost use Rattle.bully_calls.specs.Slot.{CarriesFor};

use super::preparing::{owner_in, prepares, prepares_in_place};
use super::{node, setup};
use bully_agree::{View, run, view};
use bully_base::{Node, NodeSet, Setup, Status};
use bully_calls::{Answer, Call, CallKind, Outcome, Slot, Tag};
use bully_handlers::Vector;
use bully_steps::{Point, Procedure};
use bully_table::{Table, TableRoom, plan};
use bully_world::{Event, World};
use std::alloc::Global;
use std::process::Abort;

const NODES: u16 = 1024;

const PARTITIONS: u16 = 4096;

fn largest(rt: &impl Abort) -> Setup {
    setup(rt, NODES, PARTITIONS, 1_000)
}

// Adds the text of the table in which each node in turn owns four partitions: 1 1 1 1 2 2 2 2, and so on to the last
// node. (where a number isn't written, the text is no table)
fn add_fours(text: &mut String) {
    let _ = text.push_str("1");
    for place in 1..PARTITIONS {
        let owner = place / 4 + 1;
        let _ = write!(text, " {owner}");
    }
}

// The largest table, in which each node owns four partitions.
fn table_of_fours(alloc: Global, group: Setup) -> Option<Table>
    ensures { IfSome result (λ t. length t ≡ group.partitions) }
{
    let mut text = String::new(alloc);
    add_fours(&mut text);
    match Table::read(alloc, group, text.as_str()) {
        Ok(table) => Some(table),
        Err(_) => None,
    }
}

// Whether the table has four partitions for each node.
fn is_of_fours(table: &Table) -> bool {
    table.len() == 4096
        && owner_in(table, 2) == Some(1)
        && owner_in(table, 3) == Some(1)
        && owner_in(table, 4) == Some(2)
        && owner_in(table, 4095) == Some(1024)
}

// Whether the table's copy is the same.
fn is_copied(table: &Table) -> bool {
    match table.copy() {
        Ok(copy) => copy == *table,
        Err(_) => false,
    }
}

// Whether this is the table, where one is kept.
fn is_kept(kept: Option<&Table>, table: &Table) -> bool {
    match kept {
        Some(kept) => *kept == *table,
        None => false,
    }
}

// Whether a room keeps the table.
fn is_kept_in_room(alloc: Global, group: Setup, table: &Table) -> bool
    requires { length table.now ≡ group.partitions }
{
    match TableRoom::new(alloc, &group) {
        Ok(mut room) => {
            room.put(table);
            is_kept(room.table(), table)
        }
        Err(_) => false,
    }
}

// Whether the slot, which is empty, keeps the table of a Ready until its outcome is taken.
fn keeps_ready(slot: &mut Slot, tag: Tag, call: Call, table: &Table) -> bool
    requires empty { slot.old.content ≡ None }
    requires carries { CarriesFor call (Some table.now) slot.old.room }
{
    slot.open(tag, call, Some(table));
    let kept = is_kept(slot.table(), table);
    slot.ran(Answer::Yes);
    let outcome = slot.take();
    kept && outcome == Outcome::Yes && slot.call().is_none()
}

// The same of a new slot, and a Ready of this node.
fn is_kept_in_slot(alloc: Global, group: Setup, caller: Node, table: &Table) -> bool
    requires { length table.now ≡ group.partitions }
{
    let tag = Tag {
        caller,
        generation: 0,
    };
    let Some(callee) = Node::new(1023) else {
        return false;
    };
    let call = Call {
        callee,
        kind: CallKind::Ready,
    };
    match Slot::new(alloc, group) {
        Ok(mut slot) => keeps_ready(&mut slot, tag, call, table),
        Err(_) => false,
    }
}

// Whether it is a vector of a node that was never up.
fn is_new(vector: &Vector) -> bool {
    vector.status() == Status::Down
        && vector.coordinator().is_none()
        && vector.halter().is_none()
        && *vector.up() == NodeSet::new()
        && vector.task().is_none()
}

// Whether a new vector keeps the table as its node's task.
fn is_kept_in_vector(alloc: Global, group: Setup, table: &Table) -> bool
    requires { length table.now ≡ group.partitions }
{
    match Vector::new(alloc, group) {
        Ok(mut vector) => {
            let new = is_new(&vector);
            vector.plan(table);
            new && is_kept(vector.task(), table)
        }
        Err(_) => false,
    }
}

fn everybody() -> NodeSet {
    let mut nodes = NodeSet::new();
    for number in 1..=NODES {
        if let Some(node) = Node::new(number) {
            nodes.insert(node);
        }
    }
    nodes
}

// Whether the plan over all nodes from the table is the same one, which is balanced.
// (what else is planned in the largest group, `tests/cases/table.txt` shows)
fn is_planned(alloc: Global, group: Setup, table: &Table) -> bool
    requires { length table.now ≡ group.partitions }
{
    let members = everybody();
    if members.len() != 1024 || !group.has_all(&members) {
        return false;
    }
    match plan(alloc, group, &members, Some(table)) {
        Ok(found) => found.table == *table && table.is_balanced(group, &members),
        Err(_) => false,
    }
}

// Whether the node prepares from this table, for itself alone, the one in which the last node owns each partition.
fn is_prepared_from(alloc: Global, group: Setup, last: Node, table: &Table) -> bool
    requires last { last ≤ group.nodes }
    requires covers { length table.now ≡ group.partitions }
{
    let alone = NodeSet::new();
    let owners = [1024u16; 4096];
    let procedure = Procedure::at(group, last, 0, Point::Planning, &alone, None, false);
    let mut in_place = Procedure::at(group, last, 0, Point::Planning, &alone, None, false);
    prepares(alloc, procedure, table, &owners)
        && prepares_in_place(alloc, &mut in_place, table, &owners)
}

// Whether the table of fours is copied, kept, planned, and prepared from by the last node.
fn is_used(alloc: Global, group: Setup, last: Node, table: &Table) -> bool
    requires last { last ≤ group.nodes }
    requires covers { length table.now ≡ group.partitions }
{
    is_of_fours(table)
        && is_copied(table)
        && is_kept_in_room(alloc, group, table)
        && is_kept_in_slot(alloc, group, last, table)
        && is_kept_in_vector(alloc, group, table)
        && is_planned(alloc, group, table)
        && is_prepared_from(alloc, group, last, table)
}

// The same of a table that is read.
fn is_read_and_used(alloc: Global, group: Setup, last: Node) -> bool
    requires { last ≤ group.nodes }
{
    match table_of_fours(alloc, group) {
        Some(table) => is_used(alloc, group, last, &table),
        None => false,
    }
}

#[test]
fn tables(rt: HostRuntime) {
    let (group, last) = (largest(&rt), node(&rt, NODES));
    assert!(rt; last.number() <= group.nodes() && is_read_and_used(rt.alloc(), group, last));
}

// Whether it shows one event, after which the last of 1,024 nodes elects.
fn is_recovered(shown: &View, last: Node) -> bool {
    last.number() <= shown.nodes()
        && shown.status(last) == Status::Election
        && (shown.nodes(), shown.events()) == (1024, 1)
}

// The same of a new world that takes the last node's recovery.
fn world_recovers(alloc: Global, group: Setup, last: Node) -> Option<bool> {
    let mut world = World::new(alloc, group).ok()?;
    world.apply(&Event::Recover(last)).ok()?;
    let shown = view(alloc, &world).ok()?;
    Some(is_recovered(&shown, last))
}

// The same of a run of that event.
fn run_recovers(alloc: Global, group: Setup, last: Node) -> bool {
    let events = [Event::Recover(last)];
    match run(alloc, group, &events) {
        Ok((world, shown)) => world.events() == 1 && is_recovered(&shown, last),
        Err(_) => false,
    }
}

#[test]
fn worlds_and_runs(rt: HostRuntime) {
    let (group, last) = (largest(&rt), node(&rt, NODES));
    assert!(rt; world_recovers(rt.alloc(), group, last) == Some(true));
    assert!(rt; run_recovers(rt.alloc(), group, last));
}
