ghost use Rattle.std.specs.Prelude.{◌≡◌, ℕ, List, Option, None, length, IfErr, IfOk, MatchOption, OnOk, option_map};
ghost use Rattle.bully_rows.specs.RecordsLeft.{EndsReading, IsUnread};
ghost use Rattle.bully_rows.specs.Feeding.{Begins, IsNoRow, IsNoStart, IsTakenToEnd, IsWhollyTaken, TakesRow, row_in};

use crate::feeding::{RowSink, feed_each};
use crate::header::Header;
use crate::node_event::NodeEvent;
use crate::row_reader::{RowReader, no_header};
use crate::trace::{Row, TraceFault};
use bully_base::OutOfMemory;
use std::alloc::Global;
use std::io::Read;

/// A sink of the rows of a trace. The header starts it, with a value of `S`.
pub trait TraceSink<R: Read + Drop, S>: Drop {
    ghost use Rattle.std.specs.Prelude.{[], List, IfOk, OnOk};
    ghost use Rattle.bully_rows.specs.Headers.{IsVersionFor};
    ghost use Rattle.bully_calls.specs.Events.{event_at};
    ghost use Rattle.bully_rows.specs.Feeding.{GoesOn};
    ghost use Rattle.bully_rows.specs.declared.header.Header.{Header as HeaderState};
    ghost use Rattle.bully_rows.specs.declared.trace.Row.{Row as RowState};

    // These rows of a trace with this header were taken.
    ghost has_taken: { S → HeaderState → List RowState → Self → Type 0 };

    /// Starts after this header, before any row. Refused where an allocation fails.
    fn begin(alloc: Global, start: S, header: Header) -> Result<Self, OutOfMemory>
        requires { IsVersionFor header.version header.setup }
        ensures { IfOk result (has_taken start header []) };

    /// Takes the row that was read last, which tells this event. Refused where an allocation fails. It is for who has a
    /// shorter way than by a `Row`.
    fn feed_read_event(
        &mut self,
        alloc: Global,
        rows: &RowReader<R>,
        event: NodeEvent,
    ) -> Result<(), OutOfMemory>
        ensures { (start : S) → OnOk result
            (GoesOn (has_taken start) rows.now (RowState.Event (event_at event.kind event.node)) self.old self.new) }
    {
        self.feed_read_row(alloc, rows, Row::Event(event.event()))
    }

    /// Takes the row that was read last, which is this one. Refused where an allocation fails.
    fn feed_read_row(
        &mut self,
        alloc: Global,
        rows: &RowReader<R>,
        row: Row,
    ) -> Result<(), OutOfMemory>
        ensures { (start : S) → OnOk result (GoesOn (has_taken start) rows.now row self.old self.new) };
}

/// The header of a trace, and the sink that it started.
#[derive(Drop)]
pub struct BehindHeader<T> {
    pub header: Header,
    pub sink: T,
}

/// Feeds the rows of a text to a sink, which the header starts with this value.
#[derive(Drop)]
pub struct TraceFeed<S, T> {
    pub start: S,
    pub begun: Option<BehindHeader<T>>,
}

impl<R: Read + Drop, S: Copy, T: TraceSink<R, S>> RowSink<R> for TraceFeed<S, T> {
    ghost use Rattle.std.specs.Prelude.{◌≡◌};
    ghost use Rattle.bully_rows.specs.Feeding.{RefusesNext, TakesNext};

    type Fault = TraceFault;

    ghost takes = { λ reader before after. (after.start ≡ before.start)
        × TakesNext (T.has_taken before.start) reader before.begun after.begun };

    ghost refuses = { λ reader before after fault. RefusesNext reader before.begun fault };

    fn feed(&mut self, alloc: Global, rows: &RowReader<R>) -> Result<(), TraceFault> {
        match &mut self.begun {
            Some(begun) => feed_row::<R, S, T>(alloc, rows, begun),
            None => begin(alloc, rows, self.start, &mut self.begun),
        }
    }
}

// Takes the row read last.
// (an event that names a node and no more, as most rows do, is never a `Row`, which would be moved at each step)
#[inline(always)]
fn feed_row<R: Read + Drop, S, T: TraceSink<R, S>>(
    alloc: Global,
    rows: &RowReader<R>,
    begun: &mut BehindHeader<T>,
) -> Result<(), TraceFault>
    ensures taken { (start : S) → OnOk result (TakesRow (T.has_taken start) rows.now begun.old begun.new) }
    ensures fault { IfErr result (IsNoRow begun.old.header rows.now) }
{
    match rows.node_event(begun.header.version) {
        Some(event) => {
            begun.sink.feed_read_event(alloc, rows, event)?;
            Ok(())
        }
        None => feed_other_row::<R, S, T>(alloc, rows, begun),
    }
}

// Takes the row read last, where it is no event that names a node and no more.
#[inline(never)]
fn feed_other_row<R: Read + Drop, S, T: TraceSink<R, S>>(
    alloc: Global,
    rows: &RowReader<R>,
    begun: &mut BehindHeader<T>,
) -> Result<(), TraceFault>
    requires { length rows.now.fields ≡ 2 → row_in begun.old.header rows.now.fields ≡ None }
    ensures taken { (start : S) → OnOk result (TakesRow (T.has_taken start) rows.now begun.old begun.new) }
    ensures fault { IfErr result (IsNoRow begun.old.header rows.now) }
{
    match rows.other_row(alloc, begun.header.version, &begun.header.setup)? {
        Some(row) => begun.sink.feed_read_row(alloc, rows, row)?,
        None => return Err(rows.bad_row()),
    }
    Ok(())
}

// The sink starts after the header, before any row.
// (out of line, and by a reference: else room for a header and a sink would be cleared at each row)
#[inline(never)]
fn begin<R: Read + Drop, S: Copy, T: TraceSink<R, S>>(
    alloc: Global,
    rows: &RowReader<R>,
    start: S,
    begun: &mut Option<BehindHeader<T>>,
) -> Result<(), TraceFault>
    ensures begun { OnOk result (MatchOption begun.new ⊥ (Begins (T.has_taken start) rows.now.fields)) }
    ensures fault { IfErr result (IsNoStart rows.now.fields) }
{
    let header = rows.header()?;
    *begun = Some(BehindHeader {
        header,
        sink: T::begin(alloc, start, header)?,
    });
    Ok(())
}

/// Has all rows of a text taken, from the first, by what its header starts. Refused as [`crate::read_trace`] refuses
/// it; what was started has then taken the rows before the one at fault.
pub fn feed_text<R: Read + Drop, S: Copy, T: TraceSink<R, S>>(
    alloc: Global,
    rows: &mut RowReader<R>,
    feed: &mut TraceFeed<S, T>,
) -> Result<(), TraceFault>
    requires { feed.old.begun ≡ None }
    ensures taken { (known : Option (List ℕ)) → IsUnread known rows.old
        → OnOk result (IsTakenToEnd (T.has_taken feed.old.start) known (option_map (λ b. b.sink) feed.new.begun)) }
    ensures fault { (known : Option (List ℕ)) → IsUnread known rows.old → IfErr result (EndsReading known) }
{
    feed_each(alloc, rows, feed)
}

/// What has taken all rows of a text, from the first. Refused as [`crate::read_trace`] refuses it.
pub fn feed_trace<R: Read + Drop, S: Copy, T: TraceSink<R, S>>(
    alloc: Global,
    rows: &mut RowReader<R>,
    start: S,
) -> Result<T, TraceFault>
    ensures taken { (known : Option (List ℕ)) → IsUnread known rows.old
        → IfOk result (IsWhollyTaken (T.has_taken start) known) }
    ensures fault { (known : Option (List ℕ)) → IsUnread known rows.old → IfErr result (EndsReading known) }
{
    let mut feed = TraceFeed { start, begun: None };
    match feed_text(alloc, rows, &mut feed) {
        Ok(()) => match feed.begun {
            Some(begun) => Ok(begun.sink),
            None => Err(no_header()),
        },
        Err(fault) => Err(fault),
    }
}
