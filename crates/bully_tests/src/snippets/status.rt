use bully_agree::view;
use bully_base::{Node, Setup, Status};
use bully_world::{Event, World};
use std::alloc::Global;

/// The status of node 3 of three after it recovered and stood for election.
pub fn status_of_three(alloc: Global) -> Option<Status> {
    let setup = Setup::new(3, 5, 1000).ok()?; // 3 nodes, 5 partitions, at most 1000 events
    let node = Node::new(3)?;
    let mut world = World::new(alloc, setup).ok()?;
    world.apply(&Event::Recover(node)).ok()?; // the answer, or why the event is refused
    world.apply(&Event::Move(node)).ok()?;
    let view = view(alloc, &world).ok()?; // its type keeps that the nodes agree
    Some(view.status(node))
}
