//! What is kept of a log behind a handle, what is learned of it, and what is shown of it.
ghost use Rattle.std.specs.Prelude.{◌≡◌, ◌≤◌, IfErr, IfOk, List, string_bytes};
ghost use Rattle.bully_c.specs.Numbers.{header_number};
ghost use Rattle.bully_c.specs.Replicas.{EndsLearning, IsAllowedRow, IsEventRow, IsHeaderAlone, IsLearning, IsNextRow};
ghost use Rattle.bully_c.specs.Replicas.{IsWritten, RefusesEvent, RefusesHeader, RefusesNext, RefusesRow, append_cause};
ghost use Rattle.bully_c.specs.Replicas.{has_end, has_mark, mark_number, opened_log};
ghost use Rattle.bully_replica.specs.RowReplica.{FollowsUpTo};
ghost use Rattle.bully_rows.specs.Headers.{Record};
ghost use Rattle.bully_rows.specs.Rows.{records_of};
ghost use Rattle.bully_rows.specs.declared.header.Header.{Header as HeaderState};

use crate::shown::copy_text;
use crate::status::{
    BAD_EVENT, BAD_HEADER, OK, OUT_OF_MEMORY, ROW_END, event_of, status_of_learning,
    status_of_refusal, status_of_trace,
};
use crate::tables::node_of;
use bully_base::OutOfMemory;
use bully_replica::RowReplica;
use bully_rows::{Header, ROWS_MAX, RowReader, TraceCause, push_event, read_trace};
use bully_world::{Event, Refused};
use std::alloc::Global;

/// The replica of a log with the header of this text, on the heap. Refused if the text is no header, if a row comes
/// after the header, and if an allocation fails.
pub fn opened(alloc: Global, text: &[u8]) -> Result<Box<RowReplica>, u32>
    ensures ok { IfOk result (λ held. (header : HeaderState) × IsHeaderAlone text.now header
        × (held.value ≡ opened_log header)) }
    ensures err { IfErr result (RefusesHeader text.now) }
{
    let header = header_in(alloc, text)?;
    match boxed(alloc, header) {
        Ok(held) => Ok(held),
        Err(_) => Err(OUT_OF_MEMORY),
    }
}

/// The header of this text.
pub fn header_in(alloc: Global, text: &[u8]) -> Result<Header, u32>
    ensures ok { IfOk result (IsHeaderAlone text.now) }
    ensures err { IfErr result (RefusesHeader text.now) }
{
    match read_trace(alloc, text) {
        Ok(trace) => match trace.rows.as_slice().is_empty() {
            true => Ok(Header {
                version: trace.version,
                setup: trace.setup,
            }),
            false => Err(BAD_HEADER),
        },
        Err(fault) => Err(status_of_header(fault.cause)),
    }
}

// Why a text is no header: if the cause is a bad row, a row comes after the header.
fn status_of_header(cause: TraceCause) -> u32
    ensures { result ≡ header_number cause }
{
    match cause {
        TraceCause::BadHeader | TraceCause::BadRow | TraceCause::TooManyRows => BAD_HEADER,
        TraceCause::OutOfMemory | TraceCause::Read | TraceCause::Write => OUT_OF_MEMORY,
    }
}

// The replica of a log with this header, on the heap.
fn boxed(alloc: Global, header: Header) -> Result<Box<RowReplica>, OutOfMemory>
    ensures { IfOk result (λ held. held.value ≡ opened_log header) }
{
    let learned = RowReplica::new(alloc, header)?;
    Ok(Box::new(alloc, learned)?)
}

/// Learns the rows of the text. Writes how many, and returns why the next one wasn't learned.
pub fn learn(alloc: Global, held: &mut RowReplica, text: &[u8], taken: &mut usize) -> u32
    ensures { IsLearning text.now taken.new held.old result held.new }
{
    *taken = 0;
    if !has_end(text) {
        return ROW_END;
    }
    if has_mark(text) {
        return status_of_mark(held);
    }
    let before = held.rows();
    let status = learn_rows(alloc, held, text);
    *taken = (held.rows() - before) as usize;
    status
}

// Learns the rows of the text up to the first that isn't learned, and returns why it isn't.
fn learn_rows(alloc: Global, learned: &mut RowReplica, text: &[u8]) -> u32
    ensures learned { (left : List Record) × FollowsUpTo (records_of text.now) learned.old learned.new left
        × EndsLearning left learned.new result }
    ensures counted { learned.old.rows ≤ learned.new.rows }
{
    let mut reader = RowReader::open(alloc, text);
    match learned.learn_all(alloc, &mut reader) {
        Ok(()) => OK,
        Err(fault) => status_of_learning(fault),
    }
}

/// Why no row is learned of a text that starts with a byte-order mark.
pub fn status_of_mark(learned: &RowReplica) -> u32
    ensures { result ≡ mark_number learned.now }
{
    let cause = if learned.rows() == ROWS_MAX {
        TraceCause::TooManyRows
    } else {
        TraceCause::BadRow
    };
    status_of_trace(cause)
}

/// Whether the text is empty, or its last line has a line end.
pub fn has_end(text: &[u8]) -> bool
    ensures { result ≡ has_end text.now }
{
    text.is_empty() || text.ends_with(b"\n")
}

/// Whether it starts with a byte-order mark.
pub fn has_mark(text: &[u8]) -> bool
    ensures { result ≡ has_mark text.now }
{
    text.starts_with(b"\xEF\xBB\xBF")
}

/// Writes the row that the node of this number appends next by itself, or nothing if it rests; or returns why there is
/// none.
pub fn write_next(
    alloc: Global,
    learned: &RowReplica,
    node: u16,
    row: &mut [u8],
    length: &mut usize,
) -> u32
    ensures { IsWritten (IsNextRow learned.now node)
        (RefusesNext learned.now node) row.old length.old result row.new length.new }
{
    match next_row(alloc, learned, node) {
        Ok(text) => copy_text(&text, row, length),
        Err(status) => status,
    }
}

// The row that the node of this number appends next by itself, or nothing if it rests.
fn next_row(alloc: Global, learned: &RowReplica, node: u16) -> Result<String, u32>
    ensures ok { IfOk result (λ text. IsNextRow learned.now node (string_bytes text)) }
    ensures err { IfErr result (RefusesNext learned.now node) }
{
    let replica = learned.replica();
    let node = node_of(replica.world().setup(), node)?;
    match replica.next(alloc, node) {
        Ok(Some(event)) => allowed_row(alloc, learned, &event),
        Ok(None) => Ok(String::new(alloc)),
        Err(_) => Err(OUT_OF_MEMORY),
    }
}

/// Writes the row of the event of this number of the node of this number, or returns why there is none.
pub fn write_event(
    alloc: Global,
    learned: &RowReplica,
    node: u16,
    number: u32,
    row: &mut [u8],
    length: &mut usize,
) -> u32
    ensures { IsWritten (IsEventRow learned.now node number)
        (RefusesEvent learned.now node number) row.old length.old result row.new length.new }
{
    match event_row(alloc, learned, node, number) {
        Ok(text) => copy_text(&text, row, length),
        Err(status) => status,
    }
}

// The row of the event of this number of the node of this number, or why there is none.
fn event_row(alloc: Global, learned: &RowReplica, node: u16, number: u32) -> Result<String, u32>
    ensures ok { IfOk result (λ text. IsEventRow learned.now node number (string_bytes text)) }
    ensures err { IfErr result (RefusesEvent learned.now node number) }
{
    let node = node_of(learned.replica().world().setup(), node)?;
    match event_of(number, node) {
        Some(event) => allowed_row(alloc, learned, &event),
        None => Err(BAD_EVENT),
    }
}

// The row of the event, if nothing refuses it.
fn allowed_row(alloc: Global, learned: &RowReplica, event: &Event) -> Result<String, u32>
    ensures ok { IfOk result (λ text. IsAllowedRow learned.now event.now (string_bytes text)) }
    ensures err { IfErr result (RefusesRow learned.now event.now) }
{
    if let Some(why) = append_cause(learned, event) {
        return Err(status_of_refusal(why));
    }
    let mut text = String::new(alloc);
    match push_event(&mut text, event) {
        Ok(()) => Ok(text),
        Err(_) => Err(OUT_OF_MEMORY),
    }
}

// Why the event isn't appended, if it isn't.
fn append_cause(learned: &RowReplica, event: &Event) -> Option<Refused>
    ensures { result ≡ append_cause learned.now event.now }
{
    if learned.rows() == ROWS_MAX {
        return Some(Refused::Full);
    }
    learned.replica().world().cause(event)
}
