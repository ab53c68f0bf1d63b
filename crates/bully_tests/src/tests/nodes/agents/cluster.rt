//! Nodes on their own that tell each other lines, at once and without loss, and the world that their events lead to.

use crate::snippets::agents::next_event;
use bully_agent::Agent;
use bully_base::{Node, Setup, Status};
use bully_calls::{Answer, NodeEventKind, Reply, Request};
use bully_lines::{push_reply, push_request, read_reply, read_request};
use bully_steps::Want;
use bully_world::{AppliedStep, Event, World};
use std::alloc::Global;

/// The most rounds of turns until nobody has anything to do.
const ROUNDS: u16 = 200;

/// What a node doesn't do by itself.
#[derive(Clone, Copy)]
pub enum Input {
    Recover,
    Crash,
    Timeout,
}

#[derive(Drop)]
pub struct Cluster {
    alloc: Global,
    agents: Vec<Agent>,
    world: World,
}

impl Cluster {
    /// Nodes that are all Down.
    pub fn new(alloc: Global, setup: &Setup) -> Option<Cluster> {
        let mut agents = Vec::new(alloc);
        for number in 1..=setup.nodes() {
            agents.push(new_agent(alloc, setup, number, 0)?).ok()?;
        }
        Some(Cluster {
            alloc,
            agents,
            world: World::new(alloc, *setup).ok()?,
        })
    }

    /// The node at this place does so. None where the world takes another course.
    pub fn happen(&mut self, place: usize, input: Input) -> Option<()> {
        let agent = self.agents.get_mut(place)?;
        let taken = match input {
            Input::Recover => agent.apply(NodeEventKind::Recover),
            Input::Crash => agent.apply(NodeEventKind::Crash),
            Input::Timeout => agent.apply(NodeEventKind::Timeout),
        };
        log_step(&mut self.world, agent, taken.ok())
    }

    /// The node's status and its coordinator.
    pub fn shown(&self, place: usize) -> Option<(Status, Option<Node>)> {
        let vector = self.agents.get(place)?.vector();
        Some((vector.status(), vector.coordinator()))
    }

    /// Turns of all nodes, the last first, until nobody has anything to do. None where the world takes another course.
    pub fn rest(&mut self) -> Option<()> {
        for _ in 0..ROUNDS {
            let mut acted = false;
            for place in (0..self.agents.len()).rev() {
                if self.turn(place)? {
                    acted = true;
                }
            }
            if !acted {
                return Some(());
            }
        }
        None
    }

    // One turn of the node at this place, and its call, where it starts one, comes back before anything else happens.
    // Whether it did something.
    fn turn(&mut self, place: usize) -> Option<bool> {
        let agent = self.agents.get_mut(place)?;
        if matches!(agent.wants(), Want::Nothing | Want::Await) {
            return Some(false);
        }
        let taken = next_event(self.alloc, agent);
        log_step(&mut self.world, agent, taken)?;
        self.call(place)?;
        Some(true)
    }

    // The call of the node, if it has one.
    fn call(&mut self, place: usize) -> Option<()> {
        match self.agents.get(place)?.request() {
            Ok(Some(request)) => self.send(place, &request),
            Ok(None) => Some(()),
            Err(_) => None,
        }
    }

    // The request of the node runs at its callee and is answered, or fails where that is Down.
    fn send(&mut self, place: usize, request: &Request) -> Option<()> {
        let callee = usize::from(request.call.callee.number() - 1);
        let callee = self.agents.get_mut(callee)?;
        if callee.vector().status() == Status::Down {
            let caller = self.agents.get_mut(place)?;
            return fail(&mut self.world, caller, request.number);
        }
        let reply = ask(self.alloc, &mut self.world, callee, request)?;
        let caller = self.agents.get_mut(place)?;
        tell(self.alloc, &mut self.world, caller, reply)
    }
}

/// The node of this number, Down, with so many events told before.
pub fn new_agent(alloc: Global, setup: &Setup, number: u16, told: u32) -> Option<Agent> {
    let node = Node::new(number)?;
    if node.number() > setup.nodes() {
        return None;
    }
    Agent::new(alloc, setup, node, told, None).ok()
}

// The request, carried as a line, runs at this node: its reply.
fn ask(alloc: Global, world: &mut World, agent: &mut Agent, request: &Request) -> Option<Reply> {
    let mut line = String::new(alloc);
    push_request(&mut line, request).ok()?;
    let carried = read_request(alloc, world.setup(), line.as_str()).ok()?;
    let served = agent.serve(&carried).ok()?;
    log(world, agent, &served.event, served.reply.answer)?;
    Some(served.reply)
}

// The reply, carried back as a line, is taken by this node.
fn tell(alloc: Global, world: &mut World, agent: &mut Agent, reply: Reply) -> Option<()> {
    let mut line = String::new(alloc);
    push_reply(&mut line, reply).ok()?;
    let carried = read_reply(world.setup(), line.as_str()).ok()?;
    let taken = agent.replied(carried).ok();
    log_step(world, agent, taken)
}

// The call of the node fails.
fn fail(world: &mut World, agent: &mut Agent, number: u32) -> Option<()> {
    let failed = agent.failed(number).ok()?;
    if world.apply(&failed.lost) == Ok(Answer::Done) {
        let taken = &failed.returned;
        log(world, agent, &taken.event, taken.answer)
    } else {
        None
    }
}

fn log_step(world: &mut World, agent: &Agent, taken: Option<AppliedStep>) -> Option<()> {
    match taken {
        Some(taken) => log(world, agent, &taken.event, taken.answer),
        None => None,
    }
}

// The world takes the event of the node with this answer, and then the node is that of the world.
fn log(world: &mut World, agent: &Agent, event: &Event, answer: Answer) -> Option<()> {
    if world.apply(event) == Ok(answer) && is_in(world, agent) {
        Some(())
    } else {
        None
    }
}

// Whether the node is that of the world.
fn is_in(world: &World, agent: &Agent) -> bool {
    let node = agent.node();
    if node.number() > world.setup().nodes() {
        return false;
    }
    let (own, shown) = (agent.vector(), world.vector(node));
    own.status() == shown.status()
        && own.coordinator() == shown.coordinator()
        && own.halter() == shown.halter()
        && own.up() == shown.up()
        && own.task() == shown.task()
        && agent.point() == world.point(node)
}
