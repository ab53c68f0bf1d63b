ghost use Rattle.std.specs.Prelude.{◌≡◌, ◌≢◌, ◌⊎◌, length, IfErr, IfOk, OnOk};
ghost use Rattle.std.specs.Io.KnownBytes.{Appends};
ghost use Rattle.bully_rows.specs.Rows.{HasNoFault, IsFirstFault, IsOfWriting, IsReadAtItsRow, OfTrace};
ghost use Rattle.bully_rows.specs.Trace.{upgraded};
ghost use Rattle.bully_rows.specs.TraceText.{trace_text};

use bully_rows::{Trace, TraceCause, TraceFault, read_trace, write_trace};
use std::alloc::Global;
use std::io::{Read, Write};

/// Upgrades a trace: reads one of any version, writes the one with the same setup and the same rows in version 2, or in
/// version 3 where a row says more, and tells how many rows it has after its header. It judges nothing. All rows are
/// read before anything is written, and are kept till then. Refused as [`crate::read_trace`] refuses the trace, and
/// then nothing was written; as `OutOfMemory` where the text can't be made, with nothing written; then as `Write`, and
/// then a prefix of the text may have been written. The last two are at row 0.
pub fn upgrade<R: Read + Drop, W: Write>(
    alloc: Global,
    reader: R,
    writer: &mut W,
) -> Result<u32, TraceFault>
    ensures written { OnOk result (OfTrace (R.remaining reader)
        (λ trace. Appends (W.contents writer.old) (W.contents writer.new) (trace_text (upgraded trace)))) }
    ensures counted { IfOk result (λ count. OfTrace (R.remaining reader)
        (λ trace. count ≡ length trace.rows)) }
    ensures fault { IfErr result (IsFirstFault (R.remaining reader)) }
    ensures behind { IfErr result (IsReadAtItsRow (R.remaining reader)) }
    ensures silent { IfErr result (λ fault.
        fault.cause ≢ TraceCause.Write → writer.new ≡ writer.old) }
    ensures read { IfErr result (λ fault.
        fault.cause ≡ TraceCause.Write → HasNoFault (R.remaining reader)) }
    ensures row { IfErr result (λ fault.
        (fault.cause ≡ TraceCause.Write) ⊎ (fault.cause ≡ TraceCause.OutOfMemory) → fault.row ≡ 0) }
{
    let trace = read_trace(alloc, reader)?;
    let newer = trace.upgraded();
    write_counted(alloc, writer, &newer)
}

// Writes the trace, and tells how many rows it has after its header.
fn write_counted<W: Write>(alloc: Global, writer: &mut W, trace: &Trace) -> Result<u32, TraceFault>
    ensures written { OnOk result (Appends (W.contents writer.old) (W.contents writer.new) (trace_text trace.now)) }
    ensures counted { IfOk result (λ count. count ≡ length trace.now.rows) }
    ensures fault { IfErr result IsOfWriting }
    ensures silent { IfErr result (λ fault. fault.cause ≡ TraceCause.OutOfMemory → writer.new ≡ writer.old) }
{
    let count = trace.rows.as_slice().len() as u32;
    write_trace(alloc, writer, trace).and(Ok(count))
}
