use crate::bench::watching::{THREADS, Watching};
use crate::memory::calls::{Call, call_of};
use crate::simulate::following::Turns;
use crate::simulate::network::Breach;
use crate::simulate::simulating::Simulation;
use std::env;
use std::env::Args;

/// What is asked for.
#[derive(Clone, Copy)]
pub enum Task {
    /// A little of each kind.
    Sample,
    Plans(u32),
    Records,
    Turns(u16, u32),
    Watch(u16, u16, Watching),
    Trace(Simulation),
    Requests(Simulation),
    Follow(Turns),
    Learn,
    Calls,
    Call(Call),
}

/// What the words after the program's name ask for.
pub fn task_asked(rt: &HostRuntime) -> Option<Task> {
    let mut words = env::args(rt).ok()?;
    match words.nth(1) {
        Some(name) => task_named(name.as_str(), &mut words),
        None => Some(Task::Sample),
    }
}

// The task of this name, with the words after it.
fn task_named(name: &str, words: &mut Args) -> Option<Task> {
    match name {
        "plan" => Some(Task::Plans(number_in(words)?)),
        "records" => Some(Task::Records),
        "turns" => Some(Task::Turns(nodes_in(words)?, number_in(words)?)),
        "quiet" => Some(Task::Watch(nodes_in(words)?, 1, Watching::Quiet(number_in(words)?))),
        "glances" => Some(Task::Watch(nodes_in(words)?, 1, Watching::Glances(number_in(words)?))),
        "publishing" => Some(Task::Watch(
            nodes_in(words)?,
            1,
            Watching::Publishing(number_in(words)?),
        )),
        "watch" => Some(Task::Watch(THREADS, THREADS, Watching::Threads(number_in(words)?))),
        "memory" => call_in(words),
        _ => simulation_named(name, words),
    }
}

// The same of what is simulated, and of what is made of traces.
fn simulation_named(name: &str, words: &mut Args) -> Option<Task> {
    match name {
        "trace" => Some(Task::Trace(Simulation {
            nodes: nodes_in(words)?,
            seed: u64::from(number_in(words)?),
            steps: number_in(words)?,
            breach: breach_in(words)?,
        })),
        "requests" => Some(Task::Requests(Simulation {
            nodes: nodes_in(words)?,
            seed: 1,
            steps: number_in(words)?,
            breach: Breach::Nothing,
        })),
        "follow" => Some(Task::Follow(Turns::None)),
        "agents" => Some(Task::Follow(Turns::OfAgents(number_in(words)?))),
        "world" => Some(Task::Follow(Turns::OfWorld(number_in(words)?))),
        "learn" => Some(Task::Learn),
        _ => None,
    }
}

fn nodes_in(words: &mut Args) -> Option<u16> {
    u16::try_from(number_in(words)?).ok()
}

fn number_in(words: &mut Args) -> Option<u32> {
    words.next()?.as_str().parse::<u32>().ok()
}

// The premise that is broken; without a word none is.
fn breach_in(words: &mut Args) -> Option<Breach> {
    let Some(name) = words.next() else {
        return Some(Breach::Nothing);
    };
    match name.as_str() {
        "slow" => Some(Breach::Slow),
        "invented" => Some(Breach::Invented),
        "late" => Some(Breach::Late),
        "twice" => Some(Breach::Twice),
        _ => None,
    }
}

// The call that is named; without a word the names of all are asked for.
fn call_in(words: &mut Args) -> Option<Task> {
    match words.next() {
        Some(name) => Some(Task::Call(call_of(name.as_str())?)),
        None => Some(Task::Calls),
    }
}
