ghost use Rattle.std.specs.Prelude.{◌≤◌};

use bully_agent::Agent;
use bully_base::{Node, Setup};
use bully_calls::{Answer, NodeEventKind};
use bully_steps::Want;
use bully_world::AppliedStep;
use std::alloc::Global;

/// What node 1 of two is told, which asks whether node 2 is up.
pub fn told(alloc: Global) -> Option<Answer> {
    let setup = Setup::new(2, 3, 1000).ok()?; // 2 nodes, 3 partitions, at most 1000 events
    let mut caller = recovered(alloc, &setup, Node::new(1)?)?;
    let mut callee = recovered(alloc, &setup, Node::new(2)?)?; // in another process
    answered(alloc, &mut caller, &mut callee)
}

// The caller makes its next call, which runs at the callee and comes back.
fn answered(alloc: Global, caller: &mut Agent, callee: &mut Agent) -> Option<Answer> {
    next_event(alloc, caller)?; // its start: log it, and then send the request, once
    let request = caller.request().ok()??;
    let served = callee.serve(&request).ok()?; // log its event, and then send the reply
    let returned = caller.replied(served.reply).ok()?; // log it
    Some(returned.answer)
}

// The agent of a node whose log is empty, once it recovered.
fn recovered(alloc: Global, setup: &Setup, node: Node) -> Option<Agent>
    requires { node ≤ setup.now.nodes }
{
    let mut agent = Agent::new(alloc, setup, node, 0, None).ok()?;
    agent.apply(NodeEventKind::Recover).ok()?; // log it
    Some(agent)
}

/// The next event that the node takes by itself, for the log; none if it waits for a reply or wants nothing, and if
/// the agent refuses it.
pub fn next_event(alloc: Global, agent: &mut Agent) -> Option<AppliedStep> {
    match agent.wants() {
        Want::Start(_) => agent.apply(NodeEventKind::Start).ok(),
        Want::Move => agent.apply(NodeEventKind::Move).ok(),
        Want::Plan => {
            let table = agent.prepare(alloc, agent.vector().task()).ok()?;
            agent.plan(table).ok()
        }
        Want::Await | Want::Nothing => None,
    }
}
