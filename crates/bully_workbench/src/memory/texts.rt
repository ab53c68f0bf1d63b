use super::trying::{Outcome, Text, Trial};
use super::worlds::ELECTION;
use bully_annotate::annotate;
use bully_base::{Node, NodeSet, Setup, Status};
use bully_rows::{Claim, TraceFault, WholeClaim, read_trace, write_trace};
use bully_table::Table;
use bully_trace::{check, upgrade};
use std::fmt::Debug;

// A trace of version 2: node 2 leads itself alone, and its task is kept over a crash.
const KEPT: &str = "bully,2,2,3,2 1,keep
recover,2
move,2
start,2
lose,2
return,2
move,2
move,2
plan,2,2 2 2
move,2
crash,2
";

// The same, as a trace of version 3 in which more is said.
const TOLD: &str = "bully,3,2,3,2 1,keep
recover,2
saw,2,election,-,-,-,-
move,2
start,2,halt,1
lose,2,halt,1
return,2,halt,1,failed
move,2
move,2
plan,2,2 2 2
saw,2,reorganization,2,2,-,2 2 2
move,2
crash,2
saw,2,down,-,-,-,2 2 2
";

/// What a writer gets has room here.
const ROOM: usize = 4096;

// How the want of memory reads of a trace.
const OF_TRACE: &str = "TraceFault { row: 0, cause: OutOfMemory }";

/// A call that reads or writes a trace.
#[derive(Clone, Copy)]
pub enum TraceCall {
    Read,
    Write,
    Check,
    Upgrade,
    Annotate,
}

/// The version of the trace that it is tried with.
#[derive(Clone, Copy)]
pub enum Version {
    First,
    Second,
    Third,
}

/// The trace of this version.
pub fn trace_of(version: Version) -> &'static str {
    match version {
        Version::First => ELECTION,
        Version::Second => KEPT,
        Version::Third => TOLD,
    }
}

pub fn trace_call<R: Print>(
    trial: &Trial<R>,
    call: TraceCall,
    version: Version,
) -> Option<Outcome> {
    let text = trace_of(version).as_bytes();
    match call {
        TraceCall::Read => {
            trial.begin();
            trial.outcome(read_trace(trial.alloc, text), OF_TRACE)
        }
        _ => match Vec::with_capacity(trial.alloc, ROOM) {
            Ok(mut output) => output_call(trial, call, text, &mut output),
            Err(_) => None,
        },
    }
}

// A call that reads this trace, and writes to the output, which needs no memory.
fn output_call<R: Print>(
    trial: &Trial<R>,
    call: TraceCall,
    text: &[u8],
    output: &mut Vec<u8>,
) -> Option<Outcome> {
    if matches!(call, TraceCall::Write) {
        return write_call(trial, text, output);
    }
    trial.begin();
    match call {
        TraceCall::Check => {
            let answer = check(trial.alloc, text, output);
            written(trial, answer, output)
        }
        TraceCall::Upgrade => {
            let answer = upgrade(trial.alloc, text, output);
            written(trial, answer, output)
        }
        _ => {
            let answer = annotate(trial.alloc, text, output);
            written(trial, answer, output)
        }
    }
}

// The outcome of a call that writes. None where it wrote though it was refused memory.
fn written<T: Debug + Drop, R: Print>(
    trial: &Trial<R>,
    answer: Result<T, TraceFault>,
    output: &[u8],
) -> Option<Outcome> {
    trial.end();
    match answer {
        Ok(value) => trial.tell(false, &Text::of_both(trial.alloc, &value, &output)),
        Err(fault) if output.is_empty() => trial.refused(&fault, OF_TRACE),
        Err(_) => None,
    }
}

fn write_call<R: Print>(trial: &Trial<R>, text: &[u8], output: &mut Vec<u8>) -> Option<Outcome> {
    let Ok(trace) = read_trace(trial.alloc, text) else {
        return None;
    };
    trial.begin();
    let answer = write_trace(trial.alloc, output, &trace);
    written(trial, answer, output)
}

/// A call that makes a claim: node 2 is Normal under itself, with a task.
pub fn claim_call<R: Print>(trial: &Trial<R>) -> Option<Outcome> {
    let (Ok(setup), Some(node)) = (Setup::new(2, 3, 1), Node::new(2)) else {
        return None;
    };
    let claim = Claim {
        node,
        status: Status::Normal,
        coordinator: Some(node),
    };
    let Ok(task) = Table::read(trial.alloc, setup, "2 2 2") else {
        return None;
    };
    trial.begin();
    let answer = WholeClaim::new(trial.alloc, claim, Some(node), NodeSet::new(), Some(task));
    trial.outcome(answer, "AllocError")
}
