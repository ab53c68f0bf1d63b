ghost use Rattle.std.specs.Prelude.{◌≡◌, ◌+◌, None};

use super::team::Team;
use bully_base::{EVENTS_MAX, Setup};
use bully_calls::EventKind;
use bully_group::{Group, Naming};
use bully_table::Table;
use bully_watch::Entry;
use bully_world::Event;
use std::alloc::Global;
use std::marker::Brand;
use std::sync::Wait;
use std::sync::ledger::Blank;

/// What turns came to: how many entries there are, and a number that all of them make.
#[derive(Clone, Copy)]
pub struct Taken {
    pub entries: u64,
    pub made: u64,
}

/// Takes so many turns of nodes, one after the other, in a new group with four partitions for each node. None where a
/// turn can't be taken, or for a number of nodes that no group has.
pub fn take_turns<R: Wait>(rt: &R, alloc: Global, nodes: u16, count: u32) -> Option<Taken> {
    let partitions = nodes.checked_mul(4)?;
    let setup = Setup::new(nodes, partitions, EVENTS_MAX).ok()?;
    let parts = u64::from(setup.nodes()) + 1;
    turns_by::<Brand, R>(rt, alloc, setup, Blank::new(parts), count)
}

fn turns_by<L: Naming, R: Wait>(
    rt: &R,
    alloc: Global,
    setup: Setup,
    blank: Blank,
    count: u32,
) -> Option<Taken>
    requires setup { setup ≡ L.setup }
    requires unwatched { L.publisher ≡ None }
    requires name { blank.name ≡ L.name }
    requires parts { (blank.parts ≡ L.parts) × (L.parts ≡ L.setup.nodes + 1) }
{
    let Ok((group, seats, passes)) = Group::<L>::open(alloc, setup, blank) else {
        return None;
    };
    let team = Team::new(alloc, &setup, seats, passes);
    let has_played = play(rt, &group, team, count);
    let locked = group.close();
    let taken = taken_in(locked.history());
    locked.end(rt);
    if has_played { Some(taken) } else { None }
}

// So many turns of the group. Whether they could be taken.
fn play<L: Naming, R: Wait>(rt: &R, group: &Group<L>, team: Option<Team<L>>, count: u32) -> bool {
    match team {
        Some(mut team) => team.take_turns(rt, group, count),
        None => false,
    }
}

// The number of the entries, and what they make.
fn taken_in(history: &[Entry]) -> Taken {
    let mut made = 0;
    for entry in history {
        made = with_entry(made, entry);
    }
    Taken {
        entries: history.len() as u64,
        made,
    }
}

// The place of the event's kind in the table of rows.
fn kind_number(event: &Event) -> u64 {
    match event.kind() {
        EventKind::Node(kind) => kind as u64,
        EventKind::Plan => 10,
    }
}

fn with_entry(made: u64, entry: &Entry) -> u64 {
    let made = joined(made, u64::from(entry.actor));
    let made = joined(made, kind_number(&entry.event));
    let made = joined(made, u64::from(entry.event.node().number()));
    let made = joined(made, entry.answer as u64);
    match &entry.event {
        Event::Plan(_, table) => with_owners(made, table),
        _ => made,
    }
}

/// The number with the owners of this table.
pub fn with_owners(made: u64, table: &Table) -> u64 {
    let mut made = made;
    for place in 0..table.len() {
        made = joined(made, u64::from(table.owner(place).number()));
    }
    made
}

/// The number with this one.
pub fn joined(made: u64, number: u64) -> u64 {
    made.wrapping_mul(31).wrapping_add(number)
}
