//! A workbench: what the scripts of `bench/` time, nodes on their own over simulated networks, and each public call
//! that takes memory.
//!
//!     plan ROUNDS               plans for random groups: the sums of their moves and of their bounds, and a number
//!                               that all owners make
//!     records                   how many records `csv` finds on standard input
//!     turns NODES COUNT         turns of a group under its lock: how many entries there are, and a number that all
//!                               make
//!     quiet NODES LOOKS         looks of an observer, with nothing beside them, and a number that the last view makes
//!     glances NODES GLANCES     glances of an observer, with nothing beside them, and a number that the last one makes
//!     publishing NODES LOOKS    looks of an observer beside a thread that takes turns, and how often that published
//!     watch TURNS               turns of each node in a thread of its own, beside threads that look: entries, looks,
//!                               entries seen at most
//!
//!     trace NODES SEED STEPS [BREACH]   the trace of a network, at whose end each node's vector stands
//!     requests NODES STEPS              how many requests ran in the network of seed 1
//!     follow                            how many events of a trace nodes on their own take as a world does, up to one
//!                                       that is refused
//!     agents TURNS                      the same, and then two of these nodes take so many turns
//!     world TURNS                       the same, and then the world takes these turns
//!     learn                             the verdict on a trace that a replica learns row by row
//!
//!     memory [CALL]             makes a call that takes memory, and tells what came of it; without a name, all names
//!
//! Without words it makes 1,000 plans and a small trace, and tells the names of the calls. A BREACH is a premise that
//! the network breaks now and then: `slow`, `invented`, `late` or `twice`. A trace is read from standard input. The
//! exit status is 2 for other words, and 4 where something goes wrong, as where memory is refused.
//!
//! `bench/README.md` says what is timed. `tests/cluster/simulate` has the program judge the networks, agents of
//! `bindings/python/try` do again what their traces say, and `tests/hostile/memory` refuses a call each of its requests
//! in turn. These calls are of all libraries but those that need a configuration, words or threads: what those make of
//! refused memory is tried with the program itself.
//!
//! It builds on bully_group, bully_agent, bully_rebalance, bully_annotate and the crates below them. Nothing builds on
//! it.
#![tactic(auto)]

mod bench;
mod memory;
mod simulate;
mod words;

use crate::bench::{tell_plans, tell_records, tell_turns, tell_watched};
use crate::memory::{tell_calls, try_call};
use crate::simulate::following::tell_followed;
use crate::simulate::learning::learn_trace;
use crate::simulate::network::Breach;
use crate::simulate::simulating::{Simulation, tell_requests, tell_trace};
use crate::words::{Task, task_asked};
use std::alloc::Global;
use std::io::Write;
use std::process::ExitCode;

/// How many plans are made without words, and which trace.
const ROUNDS: u32 = 1000;

const NETWORK: Simulation = Simulation {
    nodes: 4,
    seed: 82,
    steps: 200,
    breach: Breach::Nothing,
};

fn main(rt: HostRuntime) -> ExitCode {
    let Some(task) = task_asked(&rt) else {
        return ExitCode::from(2);
    };
    let alloc = rt.alloc();
    let done = match task {
        Task::Sample => tell_sample(&rt, alloc, &mut rt.stdout()),
        Task::Plans(rounds) => tell_plans(&rt, alloc, rounds),
        Task::Records => tell_records(&rt, alloc, rt.stdin()),
        Task::Turns(nodes, count) => tell_turns(&rt, alloc, nodes, count),
        Task::Watch(nodes, observers, task) => tell_watched(&rt, alloc, nodes, observers, task),
        Task::Trace(simulation) => tell_trace(alloc, &mut rt.stdout(), &simulation),
        Task::Requests(simulation) => tell_requests(&rt, alloc, &simulation),
        Task::Follow(turns) => tell_followed(&rt, alloc, rt.stdin(), turns),
        Task::Learn => learn_trace(alloc, rt.stdin(), &mut rt.stdout()),
        Task::Calls => tell_calls(&rt),
        Task::Call(call) => try_call(&rt, alloc, call),
    };
    match done {
        Some(()) => ExitCode::from(0),
        None => ExitCode::from(4),
    }
}

// A little of each kind.
fn tell_sample<R: Print, W: Write>(rt: &R, alloc: Global, output: &mut W) -> Option<()> {
    tell_plans(rt, alloc, ROUNDS)?;
    tell_trace(alloc, output, &NETWORK)?;
    tell_calls(rt)
}
