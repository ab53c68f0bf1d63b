//! What is read of traces and written again, and how many rows an upgrade tells. Verdicts, and what is refused, the
//! cases of `tests/cases` show.

use super::weight_of;
use crate::tests::scripts::{
    ALL_UP, ALONE, ALONE_UPGRADED, ANNOUNCED_TOO_LATE, KEPT, ORPHAN_HALT, TOLD, WEIGHTED,
};
use bully_rows::{Trace, Version, read_trace, write_trace};
use bully_trace::upgrade;
use std::alloc::Global;

/// Traces as they are written: the version, what node 1 weighs, whether tasks are kept, and how many rows there are.
const READ: [(&str, Version, u16, bool, usize); 11] = [
    (ALONE, Version::One, 1, false, 6),
    (ALL_UP, Version::One, 1, false, 26),
    (ORPHAN_HALT, Version::One, 1, false, 39),
    (ANNOUNCED_TOO_LATE, Version::One, 1, false, 22),
    (KEPT, Version::Two, 1, true, 7),
    (WEIGHTED, Version::Two, 1, false, 26),
    (TOLD, Version::Three, 2, true, 13),
    ("bully,1,2,1\ndrop,1\n", Version::One, 1, false, 1),
    (
        "bully,2,2,1,1 1,clear\nsaw,1,down,-\n",
        Version::Two,
        1,
        false,
        1,
    ),
    ("bully,2,2,1,1000 1,clear\n", Version::Two, 1000, false, 0),
    ("bully,2,1,1,1,clear\n", Version::Two, 1, false, 0),
];

// Whether an upgrade of the text tells so many rows, and writes this.
fn upgrades_to(alloc: Global, text: &str, rows: u32, expected: &str) -> bool {
    let mut output = Vec::new(alloc);
    let told = upgrade(alloc, text.as_bytes(), &mut output);
    told == Ok(rows) && output.as_slice() == expected.as_bytes()
}

/// A trace, how many rows it has after its header, and what an upgrade writes.
const UPGRADES: [(&str, u32, &str); 9] = [
    (ALONE, 6, ALONE_UPGRADED),
    (ALONE_UPGRADED, 6, ALONE_UPGRADED),
    (KEPT, 7, KEPT),
    (WEIGHTED, 26, WEIGHTED),
    (TOLD, 13, TOLD),
    (
        "bully,3,1,2,1,clear\nrecover,1\n",
        1,
        "bully,2,1,2,1,clear\nrecover,1\n",
    ),
    ("bully,1,3,7\n", 0, "bully,2,3,7,1 1 1,clear\n"),
    (
        "bully,1,2,1\nsaw,1,down,-\nsaw,2,normal,1\ndrop,1\n",
        3,
        "bully,2,2,1,1 1,clear\nsaw,1,down,-\nsaw,2,normal,1\ndrop,1\n",
    ),
    (
        "\"bully\",1,2,1\r\n\n\"saw\",1,down,-\rdrop,1",
        2,
        "bully,2,2,1,1 1,clear\nsaw,1,down,-\ndrop,1\n",
    ),
];

#[test]
fn traces_that_are_upgraded(rt: HostRuntime) {
    for (text, rows, expected) in UPGRADES.iter() {
        assert!(rt; upgrades_to(rt.alloc(), *text, *rows, *expected), "{text}");
    }
}

// The version of a trace, what node 1 weighs, whether tasks are kept, how many rows there are, and the bound on events.
fn header_of(trace: &Trace) -> (Version, Option<u16>, bool, usize, u32) {
    let weight = weight_of(&trace.setup, 1);
    let rows = trace.rows.as_slice().len();
    (
        trace.version,
        weight,
        trace.setup.keeps(),
        rows,
        trace.setup.events_max(),
    )
}

// Whether the trace is written so.
fn is_written(alloc: Global, trace: &Trace, text: &str) -> bool {
    let mut output = Vec::new(alloc);
    let written = write_trace(alloc, &mut output, trace);
    written.is_ok() && output.as_slice() == text.as_bytes()
}

// Whether this is read of the trace, and it is written again as it was read.
fn is_read(alloc: Global, text: &str, header: (Version, Option<u16>, bool, usize, u32)) -> bool {
    match read_trace(alloc, text.as_bytes()) {
        Ok(trace) => header_of(&trace) == header && is_written(alloc, &trace, text),
        Err(_) => false,
    }
}

// (a trace doesn't tell its bound on events, which is the largest)
#[test]
fn traces_that_are_read(rt: HostRuntime) {
    for (text, version, weight, keeps, rows) in READ.iter() {
        let header = (*version, Some(*weight), *keeps, *rows, 1_000_000);
        assert!(rt; is_read(rt.alloc(), *text, header), "{text}");
    }
}
