//! A trace that a replica learns row by row, and what comes of it, as `bully check` writes it.

use bully_replica::{LearnFault, RowReplica};
use bully_rows::{Header, RowReader};
use bully_trace::{Verdict, verdict_lines};
use std::alloc::Global;
use std::io::{Read, Write};

/// Learns the rows of a trace up to the first with which something is wrong, and writes the verdict that this is. None
/// of a trace with a fault of form before that.
pub fn learn_trace<R: Read + Drop, W: Write>(
    alloc: Global,
    input: R,
    output: &mut W,
) -> Option<()> {
    let mut rows = RowReader::open(alloc, input);
    let header = header_of(&mut rows)?;
    let mut learned = RowReplica::new(alloc, header).ok()?;
    let verdict = verdict_behind(alloc, &mut learned, &mut rows)?;
    write_verdict(alloc, output, verdict, &learned)
}

/// The header, which is the first row.
pub fn header_of<R: Read + Drop>(rows: &mut RowReader<R>) -> Option<Header> {
    match rows.advance() {
        Ok(true) => rows.header().ok(),
        _ => None,
    }
}

// The verdict on the rows that the reader still gives.
fn verdict_behind<R: Read + Drop>(
    alloc: Global,
    learned: &mut RowReplica,
    rows: &mut RowReader<R>,
) -> Option<Verdict> {
    match learned.learn_all(alloc, rows) {
        Ok(()) => Some(Verdict::Lawful(learned.replica().events())),
        Err(LearnFault::Violation(violation)) => Some(violation.at(rows.number())),
        Err(LearnFault::Form(_)) => None,
    }
}

fn write_verdict<W: Write>(
    alloc: Global,
    output: &mut W,
    verdict: Verdict,
    learned: &RowReplica,
) -> Option<()> {
    let Ok(text) = verdict_lines(alloc, verdict, learned.replica().world()) else {
        return None;
    };
    output.write_all(text.as_bytes()).ok()
}
