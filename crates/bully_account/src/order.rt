//! Rows that may be out of order: a row that is refused, and a later one that it waits for.

ghost use Rattle.std.specs.Prelude.{◌≡◌, true, None};
ghost use Rattle.bully_world.specs.State.{cause_in};

use bully_base::Node;
use bully_calls::{Call, CallKind};
use bully_rows::Row;
use bully_trace::call_at;
use bully_world::{Event, Refused, World};

/// Whether the refused row may belong after the later one: nothing in this world refuses that one, and it is one that
/// the refused row waits for, by the cause.
pub fn may_belong_after(world: &World, cause: Refused, refused: &Row, later: &Row) -> bool {
    match (refused, later) {
        (Row::Event(refused), Row::Event(later)) => waits_for(world, cause, refused, later),
        (Row::Event(refused), Row::Detailed(later)) => {
            waits_for(world, cause, refused, &later.event())
        }
        (Row::Detailed(refused), Row::Event(later)) => {
            waits_for(world, cause, &refused.event(), later)
        }
        (Row::Detailed(refused), Row::Detailed(later)) => {
            waits_for(world, cause, &refused.event(), &later.event())
        }
        _ => false,
    }
}

// The same of events.
fn waits_for(world: &World, cause: Refused, refused: &Event, later: &Event) -> bool
    ensures { result ≡ true → cause_in world.now later.now ≡ None }
{
    is_wanted(world, cause, refused, later) && world.cause(later).is_none()
}

// Whether the later event is of a kind and of a node that the refused one waits for.
fn is_wanted(world: &World, cause: Refused, refused: &Event, later: &Event) -> bool {
    let node = refused.node();
    let is_own = later.node() == node;
    match cause {
        Refused::IsDown => is_own && matches!(later, Event::Recover(_)),
        Refused::IsUp => is_own && matches!(later, Event::Crash(_)),
        Refused::Busy | Refused::NotOrphan => halts(world, later, node),
        Refused::NoStep => is_own && brings_step(refused, later),
        Refused::SlotBusy => is_own && matches!(later, Event::Return(_) | Event::Drop(_)),
        Refused::NoCall => is_own && brings_call(refused, later),
        Refused::CalleeDown => {
            is_of_callee(world, node, later) && matches!(later, Event::Recover(_))
        }
        Refused::CalleeUp => is_of_callee(world, node, later) && matches!(later, Event::Crash(_)),
        Refused::Full | Refused::BadNode | Refused::BadTable => false,
    }
}

// Whether the event is the run of a Halt at the node.
fn halts(world: &World, event: &Event, node: Node) -> bool {
    match (event, call_of(world, event.node())) {
        (Event::Run(_), Some(call)) => call.kind == CallKind::Halt && call.callee == node,
        _ => false,
    }
}

// Whether the event is one of the callee of the node's call.
fn is_of_callee(world: &World, node: Node, event: &Event) -> bool {
    match call_of(world, node) {
        Some(call) => call.callee == event.node(),
        None => false,
    }
}

// The call in the slot of the node, if the group has it.
fn call_of(world: &World, node: Node) -> Option<Call> {
    if node.number() > world.setup().nodes() {
        return None;
    }
    call_at(world, node)
}

// Whether the later event may lead to the step that the refused one takes.
fn brings_step(refused: &Event, later: &Event) -> bool {
    match refused {
        Event::Start(_) => { matches!(later, Event::Check(_) | Event::Timeout(_) | Event::Move(_)) }
        Event::Plan(_, _) => matches!(later, Event::Move(_)),
        _ => false,
    }
}

// Whether the later event brings the call so far that the refused one may come.
fn brings_call(refused: &Event, later: &Event) -> bool {
    match refused {
        Event::Run(_) | Event::Lose(_) => matches!(later, Event::Start(_)),
        Event::Return(_) => matches!(later, Event::Run(_) | Event::Lose(_)),
        _ => false,
    }
}
