//! What a replica tells a node to append next, the tokens of plans, and a log that is followed by its text.

use crate::tests::scripts::{ALL_UP, ALONE, OTHERS_DOWN};
use crate::tests::whose;
use bully_base::Node;
use bully_replica::{LearnFault, Replica, RowReplica};
use bully_rows::{Header, Row, RowReader, TraceCause, read_trace};
use bully_trace::Violation;
use bully_world::{Event, Refused};
use std::alloc::Global;
use std::io::Read;

// Whether this is what its node appends next.
fn is_next(alloc: Global, replica: &Replica, event: &Event) -> bool {
    let Some(node) = Node::new(whose(replica.world(), event).unwrap_or(0)) else {
        return false;
    };
    if replica.world().setup().nodes() < node.number() {
        return false;
    }
    match replica.next(alloc, node) {
        Ok(Some(next)) => next.is_same(event),
        _ => false,
    }
}

// Whether the replica learns the event, and its node would append it next, but for a recovery.
fn goes_on(alloc: Global, replica: &mut Replica, event: &Event) -> bool {
    (matches!(event, Event::Recover(_)) || is_next(alloc, replica, event))
        && replica.learn(event).is_ok()
}

// The replica of this log, each event of which its node appended next.
pub fn replica_of(alloc: Global, text: &str) -> Option<Replica> {
    let Ok(trace) = read_trace(alloc, text.as_bytes()) else {
        return None;
    };
    let Ok(mut replica) = Replica::new(alloc, trace.setup) else {
        return None;
    };
    for row in trace.rows.as_slice() {
        if let Row::Event(event) = row {
            if !goes_on(alloc, &mut replica, event) {
                return None;
            }
        }
    }
    Some(replica)
}

// Whether each event of the log is what its node appends next, and these are its events, the token of its last plan and
// its planner.
fn is_grown(alloc: Global, text: &str, events: u32, token: u32, planner: u16) -> bool {
    match replica_of(alloc, text) {
        Some(replica) => replica.events() == events
            && replica.token() == token
            && replica.planner() == Node::new(planner)
            && replica.last_table().is_some(),
        None => false,
    }
}

#[test]
fn what_is_appended_next(rt: HostRuntime) {
    assert!(rt; is_grown(rt.alloc(), ALONE, 6, 5, 1));
    assert!(rt; is_grown(rt.alloc(), OTHERS_DOWN, 12, 11, 3));
    assert!(rt; is_grown(rt.alloc(), ALL_UP, 26, 19, 3));
}

// The replica of a text, and what ended it.
fn followed(alloc: Global, text: &str) -> Option<(u32, u32, Option<LearnFault>)> {
    let mut rows = RowReader::open(alloc, text.as_bytes());
    let header = header_of(&mut rows)?;
    match RowReplica::new(alloc, header) {
        Ok(mut learned) => {
            let fault = learned.learn_all(alloc, &mut rows).err();
            Some((learned.rows(), learned.replica().token(), fault))
        }
        Err(_) => None,
    }
}

fn header_of<R: Read + Drop>(rows: &mut RowReader<R>) -> Option<Header> {
    match rows.advance() {
        Ok(true) => rows.header().ok(),
        _ => None,
    }
}

/// A log, how many of its rows are learned, and why the next one isn't.
const FOLLOWED: [(&str, u32, u32, Option<LearnFault>); 6] = [
    (ALL_UP, 26, 19, None),
    ("bully,1,1,1\n", 0, 0, None),
    (
        "bully,1,1,1\nrecover,1\nrecover,1\n",
        1,
        0,
        Some(LearnFault::Violation(Violation::Refused(Refused::IsUp))),
    ),
    (
        "bully,1,1,1\nrecover,1\nsaw,1,normal,1\n",
        1,
        0,
        Some(LearnFault::Violation(Violation::Differs)),
    ),
    (
        "bully,3,2,1,1 1,clear\nrecover,1\nstart,1,halt,2\n",
        1,
        0,
        Some(LearnFault::Violation(Violation::Differs)),
    ),
    (
        "bully,1,1,1\nrecover,1\nmove\n",
        1,
        0,
        Some(LearnFault::Form(TraceCause::BadRow)),
    ),
];

#[test]
fn logs_that_are_followed(rt: HostRuntime) {
    for (text, rows, token, fault) in FOLLOWED.iter() {
        let told = followed(rt.alloc(), *text);
        assert!(rt; told == Some((*rows, *token, *fault)), "{text}");
    }
}
