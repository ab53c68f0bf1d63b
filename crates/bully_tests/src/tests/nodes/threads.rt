//! Node threads: that they run at once, that each takes its turns, what a gate can order, and that threads which take
//! their turns in rounds do what `play` does.

use super::gates::{Keeper, Rule};
use crate::tests::scripts::ALONE;
use crate::tests::whose;
use bully_config::Config;
use bully_group::Closed;
use bully_nodes::{play, run_nodes, write_history};
use bully_world::{Event, World};
use std::alloc::Global;
use std::sync::Wait;
use std::thread::Threads;

/// What the finished group must be.
#[derive(Clone, Copy)]
enum Wanted {
    /// Nothing happens.
    Nothing,
    /// One node's election: the operator recovers the node, and then that takes five steps.
    Election,
    /// The operator recovers each of three nodes, whatever comes of it.
    Recoveries,
    /// One recovery, and nothing else.
    Recovery,
    /// What is written of it is what is played.
    Played,
}

/// What each run of node threads keeps and comes to.
const RUNS: [(&str, Rule, Wanted); 6] = [
    (BOTH_DOWN, Rule::Meeting, Wanted::Nothing),
    // The operator's turn comes before what is called after it: else nothing would come of node 1's turns.
    (ONE_NODE, Rule::OperatorFirst, Wanted::Election),
    (ALL_RECOVER, Rule::Open, Wanted::Recoveries),
    // The bound on events is reached by the recovery.
    (FULL, Rule::Open, Wanted::Recovery),
    (THREE_NODES, Rule::InRounds, Wanted::Played),
    (THREE_WEIGHED, Rule::InRounds, Wanted::Played),
];

/// What is written of one recovery.
const RECOVERY: &str = "bully,1,1,1\nrecover,1\n";

/// Two nodes, which stay down.
const BOTH_DOWN: &str = "
nodes = 2
partitions = 1
events = 100
turns = 2
names = ['1', '2']
";

/// One node, which recovers.
const ONE_NODE: &str = "
nodes = 1
partitions = 2
events = 100
turns = 6
names = ['1']
fault = [{ at = 1, node = '1', kind = 'recover' }]
";

/// Three nodes, which all recover.
const ALL_RECOVER: &str = "
nodes = 3
partitions = 3
events = 100_000
turns = 2_000
names = ['1', '2', '3']
fault = [
    { at = 1, node = '1', kind = 'recover' },
    { at = 1, node = '2', kind = 'recover' },
    { at = 1, node = '3', kind = 'recover' },
]
";

/// One node that recovers, in a group of at most one event.
const FULL: &str = "
nodes = 1
partitions = 1
events = 1
turns = 50
names = ['1']
fault = [{ at = 1, node = '1', kind = 'recover' }]
";

/// Three nodes, which all recover. The coordinator crashes, and comes back.
const THREE_NODES: &str = "
nodes = 3
partitions = 4
events = 1_000
turns = 96
period = 12
names = ['1', '2', '3']
fault = [
    { at = 1, node = '3', kind = 'recover' },
    { at = 14, node = '2', kind = 'recover' },
    { at = 14, node = '1', kind = 'recover' },
    { at = 50, node = '3', kind = 'crash' },
    { at = 71, node = '3', kind = 'recover' },
]
";

/// The same with weights, and with tasks that are kept.
const THREE_WEIGHED: &str = "
nodes = 3
partitions = 4
events = 1_000
turns = 96
period = 12
names = ['1', '2', '3']
weights = [1, 3, 2]
keep = true
fault = [
    { at = 1, node = '3', kind = 'recover' },
    { at = 14, node = '2', kind = 'recover' },
    { at = 14, node = '1', kind = 'recover' },
    { at = 50, node = '3', kind = 'crash' },
    { at = 71, node = '3', kind = 'recover' },
]
";

// Whether a run of the configuration keeps the rule, and comes to what is wanted.
fn goes_as_wanted<R: Threads + Wait + Sync>(
    rt: &R,
    alloc: Global,
    config: &str,
    rule: Rule,
    wanted: Wanted,
) -> bool {
    let Ok(config) = Config::read(alloc, config) else {
        return false;
    };
    let keeper = Keeper::new(rule);
    match run_nodes(rt, alloc, &config, &keeper) {
        Ok(closed) => {
            let comes = comes_to(alloc, &config, &closed, wanted);
            closed.end(rt);
            comes && keeper.is_kept()
        }
        Err(_) => false,
    }
}

fn comes_to(alloc: Global, config: &Config, closed: &Closed, wanted: Wanted) -> bool {
    match wanted {
        Wanted::Nothing => is_written(alloc, closed, "bully,1,2,1\n".as_bytes()),
        Wanted::Election => {
            are_actors(closed, &[0, 1, 1, 1, 1, 1]) && is_written(alloc, closed, ALONE.as_bytes())
        }
        Wanted::Recoveries => {
            has_recovery(closed, 1)
                && has_recovery(closed, 2)
                && has_recovery(closed, 3)
                && has_its_actors(alloc, config, closed)
        }
        Wanted::Recovery => has_recovery(closed, 1)
            && is_written(alloc, closed, RECOVERY.as_bytes()),
        Wanted::Played => {
            is_as_played(alloc, config, closed) && has_its_actors(alloc, config, closed)
        }
    }
}

// Whether the entries of the history are these actors', in this order.
fn are_actors(closed: &Closed, actors: &[u16]) -> bool {
    let history = closed.history();
    if history.len() != actors.len() {
        return false;
    }
    for (entry, actor) in history.iter().zip(actors) {
        if entry.actor != *actor {
            return false;
        }
    }
    true
}

// Whether each entry is the actor's whose event it is.
fn has_its_actors(alloc: Global, config: &Config, closed: &Closed) -> bool {
    let Ok(mut world) = World::new(alloc, *config.setup()) else {
        return false;
    };
    for entry in closed.history() {
        if whose(&world, &entry.event) != Some(entry.actor) || world.apply(&entry.event).is_err() {
            return false;
        }
    }
    true
}

// Whether the operator recovers the node.
fn has_recovery(closed: &Closed, number: u16) -> bool {
    let mut is_there = false;
    for entry in closed.history() {
        is_there = is_there || (entry.actor == 0 && recovers(&entry.event, number));
    }
    is_there
}

fn recovers(event: &Event, number: u16) -> bool {
    match event {
        Event::Recover(node) => node.number() == number,
        _ => false,
    }
}

// Whether this is written of the finished group.
fn is_written(alloc: Global, closed: &Closed, text: &[u8]) -> bool {
    let mut written = Vec::new(alloc);
    let is_whole = write_history(alloc, &mut written, closed).is_ok();
    is_whole && written.as_slice() == text
}

// Whether what is written of the finished group is what is played of the configuration.
fn is_as_played(alloc: Global, config: &Config, closed: &Closed) -> bool {
    let mut played = Vec::new(alloc);
    let is_played = play(alloc, config, &mut played).is_ok();
    is_played && is_written(alloc, closed, played.as_slice())
}

#[test]
fn node_threads(rt: HostRuntime) {
    for (config, rule, wanted) in RUNS.iter() {
        assert!(rt;
            goes_as_wanted(&rt, rt.alloc(), *config, *rule, *wanted),
            "{config}"
        );
    }
}
