//! A world at its bound on events, and who waits for whom.

use super::{bounded, number_of};
use crate::tests::scripts::ALONE;
use bully_base::{Node, Status};
use bully_calls::Answer;
use bully_rows::{Row, read_trace};
use bully_world::{Event, Refused, World};
use std::alloc::Global;

/// Two nodes wait for node 3, one after the other.
const WAITING: &str = "\
bully,1,3,3\nrecover,1\nstart,1\nlose,1\nreturn,1\nstart,1\nrecover,2\nstart,2\nlose,1\n\
crash,2\n";

/// Node 1 waits for node 2, and drops its call once node 3 has halted it.
const DROPPED: &str = "\
bully,1,3,3\nrecover,1\nrecover,2\nstart,1\nrecover,3\nmove,3\nstart,3\nrun,3\nreturn,3\n\
start,3\ndrop,1\nrun,3\ndrop,1\ndrop,1\n";

/// What an event is answered, or why it is refused; and who waits for a node then.
type ApplyAnswer = (Result<Answer, Refused>, Option<u16>);

const ALONE_TOLD: [ApplyAnswer; 6] = [
    (Ok(Answer::Done), None),
    (Ok(Answer::Done), None),
    (Ok(Answer::Done), None),
    (Ok(Answer::Done), None),
    (Ok(Answer::Done), None),
    (Err(Refused::Full), None),
];

const WAITING_TOLD: [ApplyAnswer; 9] = [
    (Ok(Answer::Done), None),
    (Ok(Answer::Done), None),
    (Ok(Answer::Done), None),
    (Ok(Answer::Failed), None),
    (Ok(Answer::Done), Some(1)),
    (Ok(Answer::Done), Some(1)),
    (Ok(Answer::Done), Some(1)),
    (Ok(Answer::Done), Some(2)),
    (Ok(Answer::Done), None),
];

const DROPPED_TOLD: [ApplyAnswer; 13] = [
    (Ok(Answer::Done), None),
    (Ok(Answer::Done), None),
    (Ok(Answer::Done), Some(1)),
    (Ok(Answer::Done), Some(1)),
    (Ok(Answer::Done), Some(1)),
    (Ok(Answer::Done), Some(1)),
    (Ok(Answer::Yes), Some(1)),
    (Ok(Answer::Yes), Some(1)),
    (Ok(Answer::Done), Some(1)),
    (Err(Refused::NotOrphan), Some(1)),
    (Ok(Answer::Yes), Some(1)),
    (Ok(Answer::Discarded), None),
    (Err(Refused::NoCall), None),
];

/// A trace, a bound on events, and what is told of each event, with who waits for the first node; at last how many
/// events there are, and the status and the generation of the second node.
struct Case {
    trace: &'static str,
    events_max: u32,
    told: &'static [ApplyAnswer],
    callee: u16,
    last: u16,
    events: u32,
    status: Status,
    generation: u32,
}

const CASES: [Case; 3] = [
    Case {
        trace: ALONE,
        events_max: 5,
        told: &ALONE_TOLD,
        callee: 1,
        last: 1,
        events: 5,
        status: Status::Reorganization,
        generation: 0,
    },
    Case {
        trace: WAITING,
        events_max: 100,
        told: &WAITING_TOLD,
        callee: 3,
        last: 2,
        events: 9,
        status: Status::Down,
        generation: 1,
    },
    Case {
        trace: DROPPED,
        events_max: 100,
        told: &DROPPED_TOLD,
        callee: 2,
        last: 1,
        events: 11,
        status: Status::Election,
        generation: 1,
    },
];

// Whether this is told of the event, which the world takes.
fn takes(world: &mut World, event: &Event, callee: Node, told: Option<&ApplyAnswer>) -> bool {
    let Some((answer, waiting)) = told else {
        return false;
    };
    let cause = world.cause(event);
    world.apply(event) == *answer
        && cause == answer.err()
        && number_of(world.waiting_for(callee)) == *waiting
}

// The same of the events of all rows.
fn takes_all(world: &mut World, rows: &[Row], case: &Case) -> bool {
    let Some(callee) = Node::new(case.callee) else {
        return false;
    };
    for (index, row) in rows.iter().enumerate() {
        if let Row::Event(event) = row {
            if !takes(world, event, callee, case.told.get(index)) {
                return false;
            }
        }
    }
    rows.len() == case.told.len()
}

// Whether the world ends as the case says.
fn ends_as(world: &World, case: &Case) -> bool {
    match Node::new(case.last) {
        Some(last) => {
            last.number() <= world.setup().nodes()
                && world.vector(last).status() == case.status
                && world.generation(last) == case.generation
                && world.events() == case.events
        }
        None => false,
    }
}

// Whether a world of the trace's setup, with the case's bound, takes the rows so, and ends so.
fn tells(alloc: Global, case: &Case) -> Option<bool> {
    let trace = read_trace(alloc, case.trace.as_bytes()).ok()?;
    let mut world = World::new(alloc, bounded(&trace.setup, case.events_max)).ok()?;
    Some(takes_all(&mut world, trace.rows.as_slice(), case) && ends_as(&world, case))
}

#[test]
fn bound_and_waiting_callers(rt: HostRuntime) {
    for case in CASES.iter() {
        let trace = case.trace;
        assert!(rt; tells(rt.alloc(), case) == Some(true), "{trace}");
    }
}
