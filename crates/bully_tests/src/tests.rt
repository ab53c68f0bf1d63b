//! Worked cases: of the model, of groups under their lock, of nodes at work, and of colours; and the scripts.

mod colours;
mod groups;
mod model;
mod nodes;
mod scripts;
mod worked;

use bully_base::Node;
use bully_world::{Event, World};

// Whose event it is: a recovery and a crash are the operator's, a run is its callee's, and what else a node does is its
// own.
fn whose(world: &World, event: &Event) -> Option<u16> {
    match event {
        Event::Recover(_) | Event::Crash(_) => Some(0),
        Event::Run(caller) => callee_of(world, *caller),
        _ => Some(event.node().number()),
    }
}

// The callee of the call in the caller's slot.
fn callee_of(world: &World, caller: Node) -> Option<u16> {
    if caller.number() > world.setup().nodes() {
        return None;
    }
    let call = world.slot(caller).call()?;
    Some(call.callee.number())
}
