use super::trying::{Outcome, Trial};
use bully_agent::Agent;
use bully_base::{EVENTS_MAX, Node, OutOfMemory, Setup};
use bully_calls::{Answer, NodeEventKind, Reply, Request};
use bully_lines::{push_reply, push_request, read_request};
use bully_steps::Want;
use bully_world::{AppliedStep, Refused};
use std::alloc::Global;

/// A request of the group.
const READY: &str = "ask,3,5,1,ready,1 2 2 3";

/// How many steps a node takes at most until it plans.
const STEPS: u16 = 20;

/// A call of a node on its own.
#[derive(Clone, Copy)]
pub enum AgentCall {
    New,
    Request,
    Prepare,
}

/// A call that reads or writes a line of such nodes.
#[derive(Clone, Copy)]
pub enum LineCall {
    Read,
    PushRequest,
    PushReply,
}

/// The last of two nodes with four partitions, on its own.
pub fn agent_call<R: Print>(trial: &Trial<R>, call: AgentCall) -> Option<Outcome> {
    let (Ok(setup), Some(node)) = (Setup::new(2, 4, EVENTS_MAX), Node::new(2)) else {
        return None;
    };
    if setup.nodes() < node.number() {
        return None;
    }
    match call {
        AgentCall::New => {
            trial.begin();
            trial.outcome(Agent::new(trial.alloc, &setup, node, 0, None), "AllocError")
        }
        _ => match Agent::new(trial.alloc, &setup, node, 0, None) {
            Ok(mut agent) => call_of(trial, call, &mut agent),
            Err(_) => None,
        },
    }
}

// A call of the node where it plans, or where it calls with its table.
fn call_of<R: Print>(trial: &Trial<R>, call: AgentCall, agent: &mut Agent) -> Option<Outcome> {
    if !comes_to_plan(agent) {
        return None;
    }
    match call {
        AgentCall::Request => request_call(trial, agent),
        _ => {
            trial.begin();
            trial.outcome(agent.prepare(trial.alloc, None), "AllocError")
        }
    }
}

// The request of a Ready.
fn request_call<R: Print>(trial: &Trial<R>, agent: &mut Agent) -> Option<Outcome> {
    if !comes_to_ready(trial.alloc, agent) {
        return None;
    }
    trial.begin();
    trial.outcome(agent.request(), "AllocError")
}

// Takes the node on from its recovery, and tells whether it comes to plan.
fn comes_to_plan(agent: &mut Agent) -> bool {
    if !is_taken(agent.apply(NodeEventKind::Recover)) {
        return false;
    }
    for _ in 0..STEPS {
        let goes_on = match agent.wants() {
            Want::Start(_) => is_called(agent),
            Want::Move => is_taken(agent.apply(NodeEventKind::Move)),
            _ => return true,
        };
        if !goes_on {
            return false;
        }
    }
    false
}

// The node's call is started, and is answered Yes.
fn is_called(agent: &mut Agent) -> bool {
    if !is_taken(agent.apply(NodeEventKind::Start)) {
        return false;
    }
    let reply = Reply {
        caller: agent.node(),
        number: agent.number(),
        answer: Answer::Yes,
    };
    is_taken(agent.replied(reply))
}

// Plans the table, and starts the first Ready.
fn comes_to_ready(alloc: Global, agent: &mut Agent) -> bool {
    match agent.prepare(alloc, None) {
        Ok(table) => is_taken(agent.plan(table)) && is_taken(agent.apply(NodeEventKind::Start)),
        Err(_) => false,
    }
}

fn is_taken(step: Result<AppliedStep, Refused>) -> bool {
    step.is_ok()
}

pub fn line_call<R: Print>(trial: &Trial<R>, call: LineCall) -> Option<Outcome> {
    match call {
        LineCall::Read => {
            trial.begin();
            let answer = read_request(trial.alloc, &trial.setup, READY);
            trial.outcome(answer, "Table(OutOfMemory)")
        }
        LineCall::PushRequest => push_call(trial),
        LineCall::PushReply => reply_call(trial),
    }
}

fn push_call<R: Print>(trial: &Trial<R>) -> Option<Outcome> {
    match read_request(trial.alloc, &trial.setup, READY) {
        Ok(request) => {
            trial.begin();
            trial.outcome(request_line(trial.alloc, &request), "AllocError")
        }
        Err(_) => None,
    }
}

fn reply_call<R: Print>(trial: &Trial<R>) -> Option<Outcome> {
    let reply = Reply {
        caller: Node::new(3)?,
        number: 5,
        answer: Answer::No,
    };
    trial.begin();
    trial.outcome(reply_line(trial.alloc, reply), "AllocError")
}

// The line is given up where it is refused memory.
fn request_line(alloc: Global, request: &Request) -> Result<String, OutOfMemory> {
    let mut text = String::new(alloc);
    push_request(&mut text, request)?;
    Ok(text)
}

fn reply_line(alloc: Global, reply: Reply) -> Result<String, OutOfMemory> {
    let mut text = String::new(alloc);
    push_reply(&mut text, reply)?;
    Ok(text)
}
