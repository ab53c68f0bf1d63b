ghost use Rattle.std.specs.Prelude.{◌≡◌, [], Err, Some, map, IfOk, OnOk};
ghost use Rattle.std.specs.Io.KnownBytes.{Appends};
ghost use Rattle.bully_play.specs.Play.{trace_with};
ghost use Rattle.bully_rows.specs.ReadBack.{IsTold};
ghost use Rattle.bully_rows.specs.Rows.{IsTraceOf};
ghost use Rattle.bully_rows.specs.TraceText.{trace_text};
ghost use Rattle.bully_rows.specs.declared.trace.Row.{Row};
ghost use Rattle.bully_watch.specs.History.{event_of};

use bully_base::OutOfMemory;
use bully_group::Closed;
use bully_play::{PlayFault, trace_with};
use bully_rows::{Row, Trace, write_trace};
use bully_watch::Entry;
use std::alloc::Global;
use std::io::Write;

/// Writes the history of a finished group as a trace, in version 1 where that can tell the setup, and else in version
/// 2: a row for the event of each entry, in order. Where nothing stood before, what is written means that very trace.
/// Refused as `OutOfMemory` where an allocation fails, and then nothing was written; as `Write` where the writer fails,
/// and then a prefix of the trace may have been written. The rule: docs/FORMATS.md.
pub fn write_history<W: Write>(
    alloc: Global,
    writer: &mut W,
    closed: &Closed,
) -> Result<(), PlayFault>
    ensures written { OnOk result (Appends (W.contents writer.old) (W.contents writer.new)
        (trace_text (trace_with closed.now.view.setup (map event_of closed.now.history)))) }
    ensures read_back { OnOk result (W.contents writer.old ≡ Some []
        → IsTraceOf (W.contents writer.new) (trace_with closed.now.view.setup (map event_of closed.now.history))) }
    ensures memory { result ≡ Err PlayFault.OutOfMemory → writer.new ≡ writer.old }
{
    let trace = trace_of(alloc, closed)?;
    Ok(write_trace(alloc, writer, &trace)?)
}

// The trace of a history.
fn trace_of(alloc: Global, closed: &Closed) -> Result<Trace, OutOfMemory>
    ensures told { IfOk result IsTold }
    ensures trace { IfOk result (λ trace. trace ≡ trace_with closed.now.view.setup (map event_of closed.now.history)) }
{
    let setup = closed.setup();
    // Its limits show the proof that there are no more entries than a trace has rows, and that a text can tell it.
    let _ = setup.events_max();
    let rows = rows_of(alloc, closed.history())?;
    Ok(trace_with(&setup, rows))
}

// A row for the event of each entry.
fn rows_of(alloc: Global, entries: &[Entry]) -> Result<Vec<Row>, OutOfMemory>
    ensures { IfOk result (λ rows. rows.items ≡ map Row.Event (map event_of entries.now)) }
{
    let mut rows = Vec::with_capacity(alloc, entries.len())?;
    for entry in entries {
        rows.push(Row::Event(entry.event.copy()?))?;
    }
    Ok(rows)
}
