//! What a node on its own is asked, by those that follow a trace and by those of a network.
ghost use Rattle.std.specs.Prelude.{◌≤◌};

use bully_agent::Agent;
use bully_base::{Node, Setup};
use bully_calls::{Answer, NodeEventKind, Reply, Request};
use bully_world::{AppliedStep, Refused};
use std::alloc::Global;

/// The node of this number, Down.
pub fn new_agent(alloc: Global, setup: &Setup, number: u16) -> Option<Agent>
    requires { number ≤ setup.now.nodes }
{
    Agent::new(alloc, setup, Node::new(number)?, 0, None).ok()
}

/// The request of the call that the node starts.
#[inline(always)]
pub fn started(caller: &mut Agent) -> Option<Request> {
    if answer_of(caller.apply(NodeEventKind::Start)).is_err() {
        return None;
    }
    match caller.request() {
        Ok(request) => request,
        Err(_) => None,
    }
}

/// The reply of this callee.
#[inline(always)]
pub fn asked(callee: &mut Agent, request: &Request) -> Option<Reply> {
    match callee.serve(request) {
        Ok(served) => Some(served.reply),
        Err(_) => None,
    }
}

/// What the step was answered.
#[inline(always)]
pub fn answer_of(taken: Result<AppliedStep, Refused>) -> Result<Answer, Refused> {
    match taken {
        Ok(taken) => Ok(taken.answer),
        Err(why) => Err(why),
    }
}

/// What the caller's call of this number returns, which failed.
pub fn failed(caller: &mut Agent, number: u32) -> Result<Answer, Refused> {
    match caller.failed(number) {
        Ok(failed) => Ok(failed.returned.answer),
        Err(why) => Err(why),
    }
}

/// Where the node stands among all.
pub fn place_of(node: Node) -> usize {
    usize::from(node.number() - 1)
}
