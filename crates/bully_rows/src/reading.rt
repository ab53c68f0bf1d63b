ghost use Rattle.std.specs.Prelude.{◌≡◌, ◌≢◌, ℕ, List, Option, IfErr, IfOk};
ghost use Rattle.bully_rows.specs.RecordsLeft.{EndsReading, IsUnread};
ghost use Rattle.bully_rows.specs.Rows.{IsFirstFault, IsReadAtItsRow, IsTraceOf};

use crate::header::Header;
use crate::row_reader::RowReader;
use crate::trace::{Row, Rows, Trace, TraceCause, TraceFault};
use crate::trace_feeding::{TraceSink, feed_trace};
use bully_base::OutOfMemory;
use std::alloc::Global;
use std::io::Read;

/// Reads a trace, row by row, up to its end or to the first row at fault.
/// Refused there as `BadHeader` at row 1, as `TooManyRows` after the most rows, or as `BadRow`; as `Read` where
/// the reader fails, at the row after those that were read; and as `OutOfMemory`, at row 0, where an allocation
/// fails. The rule: docs/FORMATS.md.
pub fn read_trace<R: Read + Drop>(alloc: Global, reader: R) -> Result<Trace, TraceFault>
    ensures ok { IfOk result (IsTraceOf (R.remaining reader)) }
    ensures fault { IfErr result (IsFirstFault (R.remaining reader)) }
    ensures read { IfErr result (IsReadAtItsRow (R.remaining reader)) }
    ensures other { IfErr result (λ f. f.cause ≢ TraceCause.Write) }
    ensures memory { IfErr result (λ f. f.cause ≡ TraceCause.OutOfMemory → f.row ≡ 0) }
{
    // (by a reference, so that a program that also checks has a reader of rows of its own type for each: with one for
    // both, it would be built into neither loop)
    let mut reader = reader;
    let mut rows = RowReader::open(alloc, &mut reader);
    read_all(alloc, &mut rows)
}

// The trace of a text of which nothing was read.
// (apart from the function that owns the reader, which must be dropped)
fn read_all<R: Read + Drop>(alloc: Global, rows: &mut RowReader<R>) -> Result<Trace, TraceFault>
    requires { (known : Option (List ℕ)) × IsUnread known rows.old }
    ensures read { (known : Option (List ℕ)) → IsUnread known rows.old → IfOk result (IsTraceOf known) }
    ensures fault { (known : Option (List ℕ)) → IsUnread known rows.old → IfErr result (EndsReading known) }
{
    let read: TraceRows = feed_trace(alloc, rows, ())?;
    Ok(Trace {
        version: read.header.version,
        setup: read.header.setup,
        rows: Rows::from_vec(read.rows),
    })
}

// The header of a trace, and the rows after it that were read.
#[derive(Drop)]
struct TraceRows {
    header: Header,
    rows: Vec<Row>,
}

impl<R: Read + Drop> TraceSink<R, ()> for TraceRows {
    ghost use Rattle.std.specs.Prelude.{◌≡◌};
    ghost use Rattle.bully_rows.specs.Headers.{IsVersionFor};
    ghost use Rattle.bully_rows.specs.Trace.{AreRowsFor};

    ghost has_taken = { λ _ header rows t. (t.header ≡ header) × (t.rows.items ≡ rows)
        × IsVersionFor header.version header.setup × AreRowsFor header.version rows };

    fn begin(alloc: Global, _start: (), header: Header) -> Result<TraceRows, OutOfMemory> {
        let rows = Vec::new(alloc);
        Ok(TraceRows { header, rows })
    }

    fn feed_read_row(
        &mut self,
        _alloc: Global,
        _rows: &RowReader<R>,
        row: Row,
    ) -> Result<(), OutOfMemory> {
        self.rows.push(row)?;
        Ok(())
    }
}
