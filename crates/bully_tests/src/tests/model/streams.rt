//! Readers and writers of traces that fail.

ghost use Rattle.std.specs.Prelude.{◌<◌};

use crate::tests::scripts::{ALONE, ALONE_ANNOTATED, ALONE_UPGRADED, OTHERS_DOWN};
use bully_annotate::annotate;
use bully_rows::{TraceCause, TraceFault, read_trace};
use bully_trace::{Verdict, check, upgrade};
use std::alloc::Global;
use std::io;
use std::io::{ErrorKind, Read, Write};

// A reader that fails at each call.
#[derive(Clone, Copy)]
struct Broken;

impl Read for Broken {
    fn read(&mut self, _buf: &mut [u8]) -> io::Result<usize> {
        Err(io::Error::from(ErrorKind::Other))
    }
}

/// How many bytes of the script are read, up to a row's end or within a row, and the row at which the read failed.
const READS: [(usize, u32); 9] = [
    (0, 1),
    (5, 1),
    (12, 2),
    (15, 2),
    (22, 3),
    (28, 3),
    (29, 4),
    (104, 13),
    (111, 14),
];

// Whether a script of so many bytes, after which the reader fails, is neither judged nor upgraded nor read, for that
// at this row, and nothing is written.
fn fails_behind(alloc: Global, bytes: usize, row: u32) -> bool {
    let Some(text) = OTHERS_DOWN.as_bytes().get(..bytes) else {
        return false;
    };
    let cause = TraceCause::Read;
    let mut output = Vec::new(alloc);
    let judged = check(alloc, text.chain(Broken), &mut output);
    let upgraded = upgrade(alloc, text.chain(Broken), &mut output);
    let read = read_trace(alloc, text.chain(Broken)).err();
    judged == Err(TraceFault { row, cause })
        && upgraded == Err(TraceFault { row, cause })
        && read == Some(TraceFault { row, cause })
        && output.is_empty()
}

#[test]
fn failed_read(rt: HostRuntime) {
    for (bytes, row) in READS.iter() {
        assert!(rt; fails_behind(rt.alloc(), *bytes, *row), "{row}");
    }
}

/// A write that fails.
const UNWRITTEN: TraceFault = TraceFault {
    row: 0,
    cause: TraceCause::Write,
};

/// What is written of the script of one node.
const VERDICT: &str = "lawful 6\n1 normal 1 1 1,1\n";

// A writer that takes a byte a call, and fails once: when it has taken so many. It keeps what it took.
#[derive(Drop)]
struct Failing {
    taken: Vec<u8>,
    fails_at: Option<usize>,
}

impl Write for Failing {
    fn write(&mut self, buf: &[u8]) -> io::Result<usize> {
        if self.fails_at == Some(self.taken.len()) {
            self.fails_at = None;
            return Err(io::Error::from(ErrorKind::Other));
        }
        match buf.first() {
            Some(byte) => {
                self.taken.push(*byte)?;
                Ok(1)
            }
            None => Ok(0),
        }
    }

    fn flush(&mut self) -> io::Result<()> {
        Ok(())
    }
}

/// What reads the script of one node and writes.
#[derive(Clone, Copy, Debug)]
enum Writing {
    Check,
    Upgrade,
    Annotate,
}

/// Each of these, and what it writes.
const WRITINGS: [(Writing, &str); 3] = [
    (Writing::Check, VERDICT),
    (Writing::Upgrade, ALONE_UPGRADED),
    (Writing::Annotate, ALONE_ANNOTATED),
];

// The fault that is told of the writer, if any.
fn fault_of(alloc: Global, writing: Writing, writer: &mut Failing) -> Option<TraceFault> {
    let script = ALONE.as_bytes();
    match writing {
        Writing::Check => check(alloc, script, writer).err(),
        Writing::Upgrade => upgrade(alloc, script, writer).err(),
        Writing::Annotate => annotate(alloc, script, writer).err(),
    }
}

// Whether this is told of a writer that fails after so many bytes, and it has taken just the first of the text.
fn takes_a_prefix(
    alloc: Global,
    writing: Writing,
    text: &str,
    bytes: usize,
    fault: Option<TraceFault>,
) -> bool {
    let mut writer = Failing {
        taken: Vec::new(alloc),
        fails_at: Some(bytes),
    };
    let told = fault_of(alloc, writing, &mut writer);
    told == fault && text.as_bytes().get(..bytes) == Some(writer.taken.as_slice())
}

// After how many bytes a failed write isn't told, or more or others were taken than these; none is wanted.
fn first_wrong(alloc: Global, writing: Writing, text: &str) -> Option<usize> {
    for bytes in 0..text.len() {
        if !takes_a_prefix(alloc, writing, text, bytes, Some(UNWRITTEN)) {
            return Some(bytes);
        }
    }
    None
}

#[test]
fn failed_once(rt: HostRuntime) {
    for (writing, text) in WRITINGS.iter() {
        assert_eq!(rt;
            first_wrong(rt.alloc(), *writing, text),
            None,
            "{writing:?}"
        );
        assert!(rt;
            takes_a_prefix(rt.alloc(), *writing, text, text.len(), None),
            "{writing:?}"
        );
    }
}

// Whether an upgraded trace of 69 bytes isn't written if the writer takes only so many, and those are its first.
fn cuts_off_the_upgraded(alloc: Global, room: usize) -> bool
    requires { room < 69 }
{
    let mut taken = [0u8; 69];
    // (a slice takes as many bytes as it has)
    let mut narrow = &mut taken[..room];
    let upgraded = upgrade(alloc, ALONE.as_bytes(), &mut narrow);
    upgraded == Err(UNWRITTEN) && ALONE_UPGRADED.as_bytes().starts_with(&taken[..room])
}

// The same of a verdict of 26 bytes.
fn cuts_off_the_verdict(alloc: Global, room: usize) -> bool
    requires { room < 26 }
{
    let mut taken = [0u8; 26];
    let mut narrow = &mut taken[..room];
    let judged = check(alloc, ALONE.as_bytes(), &mut narrow);
    judged == Err(UNWRITTEN) && VERDICT.as_bytes().starts_with(&taken[..room])
}

// Whether a writer with just as much room takes the upgraded trace, and the verdict.
fn takes_all(alloc: Global) -> bool {
    let mut upgraded = [0u8; 69];
    let mut room = &mut upgraded[..];
    let rows = upgrade(alloc, ALONE.as_bytes(), &mut room);
    let mut verdict = [0u8; 26];
    let mut narrow = &mut verdict[..];
    let judged = check(alloc, ALONE.as_bytes(), &mut narrow);
    rows == Ok(6)
        && judged == Ok(Verdict::Lawful(6))
        && upgraded.as_slice() == ALONE_UPGRADED.as_bytes()
        && verdict.as_slice() == VERDICT.as_bytes()
}

#[test]
fn failed_write(rt: HostRuntime) {
    assert!(rt; takes_all(rt.alloc()));
    for room in 0..69 {
        assert!(rt;
            cuts_off_the_upgraded(rt.alloc(), room),
            "with room for {room}"
        );
    }
    for room in 0..26 {
        assert!(rt;
            cuts_off_the_verdict(rt.alloc(), room),
            "with room for {room}"
        );
    }
}
