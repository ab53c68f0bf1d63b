//! Runs of lists of events, and the views that they give.

use super::preparing::has_owners;
use super::{bounded, node, number_of, setup};
use crate::tests::scripts::{ALL_UP, ALONE, KEPT, ORPHAN_HALT, ORPHAN_READY};
use bully_agree::{View, Walk, WholeFault, run, run_whole, view};
use bully_base::{Node, Setup, Status};
use bully_rows::{Row, read_trace};
use bully_table::Table;
use bully_world::{Event, Refused, World};
use std::alloc::Global;

/// What a view shows: how many events there were and how many nodes there are; and of each node the status, the
/// coordinator, and its task's owners, none without a task.
struct ExpectedView {
    events: u32,
    nodes: u16,
    status: Status,
    coordinator: Option<u16>,
    owners: &'static [u16],
}

/// Three nodes are normal, with one table.
const ALL_NORMAL: ExpectedView = ExpectedView {
    events: 26,
    nodes: 3,
    status: Status::Normal,
    coordinator: Some(3),
    owners: &[1, 2, 3],
};

/// One node is normal.
const ONE_NORMAL: ExpectedView = ExpectedView {
    events: 6,
    nodes: 1,
    status: Status::Normal,
    coordinator: Some(1),
    owners: &[1, 1],
};

/// It has crashed, and kept its task.
const ONE_KEPT: ExpectedView = ExpectedView {
    events: 7,
    nodes: 1,
    status: Status::Down,
    coordinator: None,
    owners: &[1, 1],
};

/// What a run ends with: what the view shows, or why the events aren't run to their end.
type End = Result<&'static ExpectedView, WholeFault>;

/// A script, whether it is run in whole calls, a bound on events, and the end.
const RUNS: [(&str, bool, u32, End); 10] = [
    (ALL_UP, true, 1_000_000, Ok(&ALL_NORMAL)),
    (
        ORPHAN_HALT,
        true,
        1_000_000,
        Err(WholeFault::NotWhole { index: 7 }),
    ),
    (
        "bully,1,2,2\nrecover,1\nstart,1\n",
        true,
        9,
        Err(WholeFault::NotWhole { index: 2 }),
    ),
    (
        "bully,1,2,2\nrecover,1\nmove,1\n",
        true,
        1,
        Err(WholeFault::Stop {
            index: 1,
            cause: Refused::Full,
        }),
    ),
    (
        "bully,1,1,1\nrun,1\n",
        true,
        9,
        Err(WholeFault::NotWhole { index: 0 }),
    ),
    (
        "bully,1,1,1\nrun,1\n",
        false,
        9,
        Err(WholeFault::Stop {
            index: 0,
            cause: Refused::IsDown,
        }),
    ),
    (
        ORPHAN_READY,
        false,
        1_000_000,
        Err(WholeFault::Stop {
            index: 22,
            cause: Refused::SlotBusy,
        }),
    ),
    (
        ALONE,
        false,
        5,
        Err(WholeFault::Stop {
            index: 5,
            cause: Refused::Full,
        }),
    ),
    (ALONE, false, 6, Ok(&ONE_NORMAL)),
    (KEPT, false, 7, Ok(&ONE_KEPT)),
];

// Adds the events of the rows, in order.
// (where there is no memory for one, the list is another one)
fn add_events(events: &mut Vec<Event>, rows: &[Row]) {
    for row in rows {
        if let Row::Event(event) = row {
            if let Ok(event) = event.copy() {
                let _ = events.push(event);
            }
        }
    }
}

// Whether the node's task has these owners, or there is none.
fn has_task(task: Option<&Table>, owners: &[u16]) -> bool {
    match task {
        Some(table) => has_owners(table, owners),
        None => owners.is_empty(),
    }
}

// Whether the view shows this of the node.
fn shows_node(view: &View, node: Node, shown: &ExpectedView) -> bool {
    node.number() <= view.nodes()
        && view.status(node) == shown.status
        && number_of(view.coordinator(node)) == shown.coordinator
        && has_task(view.task(node), shown.owners)
}

// Whether the view shows this.
fn shows(view: &View, shown: &ExpectedView) -> bool {
    for number in 1..=shown.nodes {
        match Node::new(number) {
            Some(node) => {
                if !shows_node(view, node, shown) {
                    return false;
                }
            }
            None => return false,
        }
    }
    view.nodes() == shown.nodes && view.events() == shown.events
}

// A run of the events, in whole calls or not.
fn run_as(
    alloc: Global,
    setup: Setup,
    events: &[Event],
    whole: bool,
) -> Result<(World, View), WholeFault> {
    if whole {
        return run_whole(alloc, setup, events);
    }
    match run(alloc, setup, events) {
        Ok(done) => Ok(done),
        Err(fault) => Err(WholeFault::from(fault)),
    }
}

// Whether the world has as many events as the view, which shows this.
fn ends_as(world: &World, view: &View, end: End) -> bool {
    match end {
        Ok(shown) => world.events() == view.events() && shows(view, shown),
        Err(_) => false,
    }
}

// Whether a run of the events ends so.
fn is_run(alloc: Global, setup: Setup, events: &[Event], whole: bool, end: End) -> bool {
    match run_as(alloc, setup, events, whole) {
        Ok((world, view)) => ends_as(&world, &view, end),
        Err(fault) => end.err() == Some(fault),
    }
}

// Whether a run of the script with this bound on events ends so.
fn tells(alloc: Global, script: &str, whole: bool, events_max: u32, end: End) -> bool {
    match read_trace(alloc, script.as_bytes()) {
        Ok(trace) => {
            let setup = bounded(&trace.setup, events_max);
            let mut events = Vec::new(alloc);
            add_events(&mut events, trace.rows.as_slice());
            is_run(alloc, setup, events.as_slice(), whole, end)
        }
        Err(_) => false,
    }
}

#[test]
fn runs_of_scripts(rt: HostRuntime) {
    for (script, whole, events_max, end) in RUNS.iter() {
        assert!(rt;
            tells(rt.alloc(), *script, *whole, *events_max, *end),
            "{script}"
        );
    }
}

/// A new group of two nodes, one of one, and that once its node has recovered.
const TWO_DOWN: ExpectedView = ExpectedView {
    events: 0,
    nodes: 2,
    status: Status::Down,
    coordinator: None,
    owners: &[],
};

const ONE_DOWN: ExpectedView = ExpectedView {
    events: 0,
    nodes: 1,
    status: Status::Down,
    coordinator: None,
    owners: &[],
};

const ONE_UP: ExpectedView = ExpectedView {
    events: 1,
    nodes: 1,
    status: Status::Election,
    coordinator: None,
    owners: &[],
};

// Whether the view of a new world has this setup, and shows two nodes that are down.
fn new_world_shows(alloc: Global, setup: Setup) -> Option<bool> {
    let world = World::new(alloc, setup).ok()?;
    let view = view(alloc, &world).ok()?;
    Some(view.setup() == setup && shows(&view, &TWO_DOWN))
}

// Whether the walk shows this.
fn walk_shows(walk: &Walk, shown: &ExpectedView) -> bool {
    match walk.view() {
        Ok(view) => shows(&view, shown),
        Err(_) => false,
    }
}

// Whether a new walk of this node alone shows that the node is down, and then that it recovers.
fn new_walk_shows_recovery(alloc: Global, setup: Setup, node: Node) -> Option<bool> {
    let mut walk = Walk::new(alloc, setup).ok()?;
    let was_down = walk_shows(&walk, &ONE_DOWN);
    walk.apply(&Event::Recover(node)).ok()?;
    Some(was_down && walk_shows(&walk, &ONE_UP))
}

#[test]
fn first_views(rt: HostRuntime) {
    let is_shown = new_walk_shows_recovery(rt.alloc(), setup(&rt, 1, 2, 9), node(&rt, 1));
    assert!(rt; new_world_shows(rt.alloc(), setup(&rt, 2, 2, 9)) == Some(true));
    assert!(rt; is_shown == Some(true));
}
