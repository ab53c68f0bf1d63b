//! Nodes on their own that do what a trace says, and a world that does.

use super::agents::{answer_of, asked, failed, new_agent, place_of, started};
use bully_agent::Agent;
use bully_base::{Node, Setup};
use bully_calls::{Answer, NodeEventKind, Reply, Request};
use bully_rows::{Row, Trace, read_trace};
use bully_world::{Event, Refused, World};
use std::alloc::Global;
use std::io::Read;
use std::mem;

/// What follows on a trace that nodes on their own did, and a world.
#[derive(Clone, Copy)]
pub enum Turns {
    /// Nothing.
    None,
    /// So many turns of two nodes on their own.
    OfAgents(u32),
    /// So many of the same turns in the world.
    OfWorld(u32),
}

/// Tells how many events of the trace were followed, up to one that is refused, before these turns were taken. None
/// where nodes on their own aren't those of the world, where a turn is refused, or where memory is.
pub fn tell_followed<R: Print, I: Read + Drop>(
    rt: &R,
    alloc: Global,
    input: I,
    turns: Turns,
) -> Option<()> {
    let Trace { setup, rows, .. } = read_trace(alloc, input).ok()?;
    let mut actors = actors_of(alloc, &setup)?;
    let mut world = World::new(alloc, setup).ok()?;
    let followed = go_on(&mut actors, &mut world, rows.as_slice(), turns)?;
    println!(rt; "followed {followed}").ok()
}

// Both follow the rows, and one of them takes these turns.
fn go_on(actors: &mut [Actor], world: &mut World, rows: &[Row], turns: Turns) -> Option<u32> {
    follow(actors, world, rows)?;
    let followed = world.events();
    match turns {
        Turns::None => {}
        Turns::OfAgents(number) => agents_turn(actors, number)?,
        Turns::OfWorld(number) => world_turns(world, number)?,
    }
    Some(followed)
}

// Both follow the rows, up to an event that is refused. None where they don't do the same.
fn follow(actors: &mut [Actor], world: &mut World, rows: &[Row]) -> Option<()> {
    for row in rows {
        let is_taken = match row {
            Row::Event(event) => both_take(actors, world, event)?,
            Row::Detailed(told) => both_take(actors, world, &told.event())?,
            _ => true,
        };
        if !is_taken {
            return Some(());
        }
    }
    Some(())
}

// Turns of the first node, which asks whether the last one is up, its coordinator.
fn agents_turn(actors: &mut [Actor], number: u32) -> Option<()> {
    let (first, others) = actors.split_first_mut()?;
    let last = others.last_mut()?;
    for _ in 0..number {
        turn(&mut first.agent, &mut last.agent)?;
    }
    Some(())
}

#[inline(always)]
fn turn(caller: &mut Agent, callee: &mut Agent) -> Option<()> {
    answer_of(caller.apply(NodeEventKind::Timeout)).ok()?;
    let request = started(caller)?;
    let reply = asked(callee, &request)?;
    answer_of(caller.replied(reply)).ok()?;
    Some(())
}

// The same turns in the world.
fn world_turns(world: &mut World, number: u32) -> Option<()> {
    let node = Node::new(1)?;
    for _ in 0..number {
        world_turn(world, node)?;
    }
    Some(())
}

#[inline(always)]
fn world_turn(world: &mut World, node: Node) -> Option<()> {
    world.apply(&Event::Timeout(node)).ok()?;
    world.apply(&Event::Start(node)).ok()?;
    world.apply(&Event::Run(node)).ok()?;
    world.apply(&Event::Return(node)).ok()?;
    Some(())
}

// Whether both take the event, or refuse it; none where they don't do the same.
fn both_take(actors: &mut [Actor], world: &mut World, event: &Event) -> Option<bool> {
    let told = world.apply(event);
    if told.is_err() && is_of_two(event) {
        return Some(false);
    }
    if take(actors, event)? == told && are_nodes_of(actors, world) {
        Some(told.is_ok())
    } else {
        None
    }
}

// Whether no node can tell by itself that the event is refused.
fn is_of_two(event: &Event) -> bool {
    matches!(event, Event::Run(_) | Event::Lose(_) | Event::Return(_))
}

/// What is on its way of a node's call.
#[derive(Drop)]
enum OnItsWay {
    Nothing,
    Request(Request),
    Reply(Reply),
    /// That the call of this number failed.
    Failure(u32),
}

/// A node on its own, and what is on its way of its call.
#[derive(Drop)]
struct Actor {
    agent: Agent,
    mail: OnItsWay,
}

// The nodes of a group, all Down.
fn actors_of(alloc: Global, setup: &Setup) -> Option<Vec<Actor>> {
    let mut actors = Vec::new(alloc);
    for number in 1..=setup.nodes() {
        let agent = new_agent(alloc, setup, number)?;
        let mail = OnItsWay::Nothing;
        actors.push(Actor { agent, mail }).ok()?;
    }
    Some(actors)
}

// What the event is answered, or why it is refused; none where there is no such node, or nothing on its way, or where
// memory is refused.
fn take(actors: &mut [Actor], event: &Event) -> Option<Result<Answer, Refused>> {
    let place = place_of(event.node());
    match event {
        Event::Run(_) => run(actors, place),
        _ => act(actors.get_mut(place)?, event),
    }
}

// What the node does without another one.
fn act(actor: &mut Actor, event: &Event) -> Option<Result<Answer, Refused>> {
    let taken = match event {
        Event::Start(_) => return start(actor),
        Event::Run(_) => return None,
        Event::Lose(_) => return lose(actor),
        Event::Return(_) => return come_back(actor),
        Event::Recover(_) => actor.agent.apply(NodeEventKind::Recover),
        Event::Crash(_) => actor.agent.apply(NodeEventKind::Crash),
        Event::Check(_) => actor.agent.apply(NodeEventKind::Check),
        Event::Timeout(_) => actor.agent.apply(NodeEventKind::Timeout),
        Event::Drop(_) => actor.agent.apply(NodeEventKind::Drop),
        Event::Move(_) => actor.agent.apply(NodeEventKind::Move),
        Event::Plan(_, table) => actor.agent.plan(table.copy().ok()?),
    };
    Some(answer_of(taken))
}

// The node starts its call, whose request is on its way then.
fn start(actor: &mut Actor) -> Option<Result<Answer, Refused>> {
    let taken = answer_of(actor.agent.apply(NodeEventKind::Start));
    if taken.is_ok() {
        let request = actor.agent.request().ok()??;
        send(actor, OnItsWay::Request(request));
    }
    Some(taken)
}

// The request of this caller runs at its callee.
fn run(actors: &mut [Actor], place: usize) -> Option<Result<Answer, Refused>> {
    match mem::replace(&mut actors.get_mut(place)?.mail, OnItsWay::Nothing) {
        OnItsWay::Request(request) => serve(actors, &request),
        other => {
            drop(other);
            None
        }
    }
}

// The request runs at its callee, and its reply is on its way then.
fn serve(actors: &mut [Actor], request: &Request) -> Option<Result<Answer, Refused>> {
    let callee = actors.get_mut(place_of(request.call.callee))?;
    let reply = asked(&mut callee.agent, request)?;
    let answer = reply.answer;
    send(
        actors.get_mut(place_of(request.caller))?,
        OnItsWay::Reply(reply),
    );
    Some(Ok(answer))
}

// The node's call is lost: it will be told that it failed.
fn lose(actor: &mut Actor) -> Option<Result<Answer, Refused>> {
    let number = actor.agent.number();
    send(actor, OnItsWay::Failure(number));
    Some(Ok(Answer::Done))
}

fn send(actor: &mut Actor, mail: OnItsWay) {
    actor.mail = mail;
}

// The node is told what came of its call.
fn come_back(actor: &mut Actor) -> Option<Result<Answer, Refused>> {
    match mem::replace(&mut actor.mail, OnItsWay::Nothing) {
        OnItsWay::Reply(reply) => Some(answer_of(actor.agent.replied(reply))),
        OnItsWay::Failure(number) => Some(failed(&mut actor.agent, number)),
        other => {
            drop(other);
            None
        }
    }
}

fn are_nodes_of(actors: &[Actor], world: &World) -> bool {
    for actor in actors {
        if !is_node_of(&actor.agent, world) {
            return false;
        }
    }
    true
}

// Whether the node is that of the world.
fn is_node_of(agent: &Agent, world: &World) -> bool {
    let node = agent.node();
    if node.number() > world.setup().nodes() {
        return false;
    }
    let (own, shown) = (agent.vector(), world.vector(node));
    own.status() == shown.status()
        && own.coordinator() == shown.coordinator()
        && own.halter() == shown.halter()
        && own.up() == shown.up()
        && own.task() == shown.task()
        && agent.point() == world.point(node)
        && agent.generation() == world.generation(node)
        && agent.slot().call() == world.slot(node).call()
}
