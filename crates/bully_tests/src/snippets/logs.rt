use bully_base::Node;
use bully_replica::{Replica, RowReplica};
use bully_rows::{RowReader, push_event};
use std::alloc::Global;

/// The row that the node appends next to a log of this text; none if it rests, and if the text is no lawful log.
pub fn next_row(alloc: Global, log: &str, node: Node) -> Option<String> {
    let mut rows = RowReader::open(alloc, log.as_bytes());
    let Ok(true) = rows.advance() else {
        return None;
    };
    let header = rows.header().ok()?;
    let mut learned = RowReplica::new(alloc, header).ok()?;
    match learned.learn_all(alloc, &mut rows) {
        Ok(()) => row_of(alloc, learned.replica(), node),
        Err(_) => None, // the first row that isn't learned: it, and all behind it, every replica refuses
    }
}

// The row that the node appends next behind what the replica has learned.
fn row_of(alloc: Global, replica: &Replica, node: Node) -> Option<String> {
    if replica.world().setup().nodes() < node.number() {
        return None;
    }
    match replica.next(alloc, node) {
        Ok(Some(event)) => {
            let mut row = String::new(alloc);
            push_event(&mut row, &event).ok()?;
            Some(row) // append it behind exactly the rows of this log, or not at all
        }
        _ => None,
    }
}
