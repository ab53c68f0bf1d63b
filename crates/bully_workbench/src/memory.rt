//! Each public call that takes memory: `tests/hostile/memory` refuses it each request in turn.

mod agents;
pub mod calls;
mod changes;
mod finished;
mod groups;
mod opened;
mod replicas;
mod tables;
mod texts;
mod trying;
mod watched;
mod worlds;

use crate::memory::agents::{agent_call, line_call};
use crate::memory::calls::{CALLS, Call};
use crate::memory::groups::group_call;
use crate::memory::replicas::{follow_call, replica_call};
use crate::memory::tables::{full_call, new_call, table_call};
use crate::memory::texts::{claim_call, trace_call};
use crate::memory::trying::{Outcome, Trial};
use crate::memory::watched::{publisher_call, watching_call};
use crate::memory::worlds::{ELECTION, event_call, events_in, trial_of};
use std::alloc::Global;
use std::sync::Wait;

/// Tells the names of the calls.
pub fn tell_calls<R: Print>(rt: &R) -> Option<()> {
    for (name, _) in CALLS.iter() {
        println!(rt; "{name}").ok()?;
    }
    Some(())
}

/// Makes the call, and again where it was refused memory and is still to be made.
pub fn try_call<R: Print + Wait>(rt: &R, alloc: Global, call: Call) -> Option<()> {
    match outcome_of(rt, alloc, false, call) {
        Some(Outcome::Told) => Some(()),
        Some(Outcome::Refused) => match outcome_of(rt, alloc, true, call) {
            Some(Outcome::Told) => Some(()),
            _ => None,
        },
        None => None,
    }
}

// What becomes of the call; it was refused memory before, or not.
fn outcome_of<R: Print + Wait>(
    rt: &R,
    alloc: Global,
    is_again: bool,
    call: Call,
) -> Option<Outcome> {
    let Some(events) = events_in(alloc, ELECTION) else {
        return None;
    };
    match trial_of(rt, alloc, is_again, events.as_slice()) {
        Some(trial) => made(&trial, call),
        None => None,
    }
}

fn made<R: Print + Wait>(trial: &Trial<R>, call: Call) -> Option<Outcome> {
    match call {
        Call::New(call) => new_call(trial, call),
        Call::Full(call) => full_call(trial, call),
        Call::Table(call) => table_call(trial, call),
        Call::Event(call) => event_call(trial, call),
        Call::Agent(call) => agent_call(trial, call),
        Call::Line(call) => line_call(trial, call),
        Call::Group(call) => group_call(trial, call),
        Call::Publisher => publisher_call(trial),
        Call::Watched(call) => watching_call(trial, call),
        Call::Claim => claim_call(trial),
        Call::Trace(call, version) => trace_call(trial, call, version),
        Call::Replica(call) => replica_call(trial, call),
        Call::Follow(version) => follow_call(trial, version),
    }
}
