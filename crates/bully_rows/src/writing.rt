ghost use Rattle.std.specs.Prelude.{◌≡◌, [], Some, IfErr, IfOk, OnOk};
ghost use Rattle.std.specs.Io.KnownBytes.{Appends};
ghost use Rattle.std.specs.String.{string_bytes};
ghost use Rattle.bully_rows.specs.ReadBack.{IsTold};
ghost use Rattle.bully_rows.specs.Rows.{IsOfWriting, IsTraceOf};
ghost use Rattle.bully_rows.specs.TraceText.{trace_text};

use crate::text::{push_header, push_row};
use crate::{Trace, TraceCause, TraceFault};
use bully_base::OutOfMemory;
use std::alloc::Global;
use std::io;
use std::io::Write;

/// Writes the trace's text: the header of its version and its rows, a line each. The text is made before it is written.
/// Where nothing stood before, what is written means this very trace, if it is one that a text can tell. Refused as
/// `Write` where the writer fails, and then a prefix of the text may have been written; as `OutOfMemory` where an
/// allocation fails, and then nothing was written. Each is at row 0.
pub fn write_trace<W: Write>(alloc: Global, writer: &mut W, trace: &Trace) -> Result<(), TraceFault>
    ensures ok { OnOk result
        (Appends (W.contents writer.old) (W.contents writer.new) (trace_text trace.now)) }
    ensures read_back { OnOk result
        (W.contents writer.old ≡ Some [] → IsTold trace.now → IsTraceOf (W.contents writer.new) trace.now) }
    ensures err { IfErr result IsOfWriting }
    ensures memory { IfErr result (λ fault.
        fault.cause ≡ TraceCause.OutOfMemory → writer.new ≡ writer.old) }
{
    let text = text_of(alloc, trace)?;
    writer.write_all(text.as_bytes()).map_err(not_written)
}

// The text of the trace.
fn text_of(alloc: Global, trace: &Trace) -> Result<String, OutOfMemory>
    ensures { IfOk result (λ text. string_bytes text ≡ trace_text trace.now) }
{
    let mut text = String::new(alloc);
    push_header(&mut text, trace.version, &trace.setup)?;
    for row in trace.rows.as_slice() {
        push_row(&mut text, row)?;
    }
    Ok(text)
}

/// The fault of a writer that failed.
pub fn not_written(_: io::Error) -> TraceFault
    ensures { result ≡ record { row = 0; cause = TraceCause.Write } }
{
    TraceFault {
        row: 0,
        cause: TraceCause::Write,
    }
}
