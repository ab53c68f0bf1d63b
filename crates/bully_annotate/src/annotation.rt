ghost use Rattle.std.specs.Prelude.{◌≡◌, ◌≢◌, ◌⊎◌, ⊤, ℕ, [], true, false, Some, IfErr, IfOk};
ghost use Rattle.std.specs.Io.KnownBytes.{Appends};
ghost use Rattle.bully_annotate.specs.Annotated.{annotated};
ghost use Rattle.bully_annotate.specs.Annotation.{IsAnnotationOf, IsWritable, is_written};
ghost use Rattle.bully_annotate.specs.Says.{IsTraceWritten};
ghost use Rattle.bully_rows.specs.Rows.{HasNoFault, IsFirstFault, IsOfWriting, IsReadAtItsRow, IsTraceOf, OfTrace};
ghost use Rattle.bully_trace.specs.Verdict.{IsVerdict, events_of};
ghost use Rattle.bully_trace.specs.declared.verdict.Verdict.{Verdict as VerdictState};
ghost use Rattle.bully_world.specs.World.{World};

use crate::annotator::Annotator;
use crate::writing::write_annotated;
use bully_base::OutOfMemory;
use bully_rows::{Header, Trace, TraceCause, TraceFault, not_written, read_trace};
use bully_trace::{Judge, Verdict};
use std::alloc::{AllocError, Global};
use std::io;
use std::io::{Read, Write};

/// What annotating a trace came to.
#[derive(Clone, Copy, Debug)]
pub enum Annotation {
    /// The trace is lawful, with so many events, and was written with everything said.
    Written(u32),
    /// It isn't lawful, by this verdict. Nothing was written.
    Unlawful(Verdict),
    /// With everything said it has more rows than a trace may. Nothing was written.
    TooLong,
}

/// Annotates a lawful trace: reads one of any version, and writes the one of version 3 with the same setup and the same
/// events, in which everything is said: of each event of a call which call it is and what was answered; each claim with
/// all of its node's vector; and after each event such a claim of the node whose vector it changed, if it changed one.
/// Where nothing stood before, what is written means that very trace. Where the trace isn't lawful, its verdict is told
/// and nothing is written, nor where that would have more rows than a trace may. Refused as [`bully_rows::read_trace`]
/// refuses the trace, and then nothing was written; as `OutOfMemory` where a world or a line can't be made, with
/// nothing written; then as `Write`, and then a prefix of the text may have been written. The last two are at row 0.
/// The rows are kept as they were read, beside a world and the longest line: of what is written, no more than a line
/// lies in memory at a time, and each is handed to the writer by itself. This project's profile: docs/FORMATS.md.
pub fn annotate<R: Read + Drop, W: Write>(
    alloc: Global,
    reader: R,
    writer: &mut W,
) -> Result<Annotation, TraceFault>
    ensures annotated { IfOk result (λ told. OfTrace (R.remaining reader)
        (λ trace. IsAnnotationOf trace told (Appends (W.contents writer.old) (W.contents writer.new)) (writer.new
        ≡ writer.old))) }
    ensures events { IfOk result (λ told. is_written told ≡ true → OfTrace (R.remaining reader)
        (λ trace. events_of (annotated trace).rows ≡ events_of trace.rows)) }
    ensures read_back { IfOk result (λ told. is_written told ≡ true → W.contents writer.old ≡ Some []
        → OfTrace (R.remaining reader)
        (λ trace. IsTraceOf (W.contents writer.new) (annotated trace))) }
    ensures unwritten { IfOk result (λ told. is_written told ≡ false → writer.new ≡ writer.old) }
    ensures fault { IfErr result (IsFirstFault (R.remaining reader)) }
    ensures behind { IfErr result (IsReadAtItsRow (R.remaining reader)) }
    ensures silent { IfErr result (λ fault.
        fault.cause ≢ TraceCause.Write → writer.new ≡ writer.old) }
    ensures read { IfErr result (λ fault.
        fault.cause ≡ TraceCause.Write → HasNoFault (R.remaining reader)) }
    ensures write { IfErr result (λ fault.
        fault.cause ≡ TraceCause.Write → OfTrace (R.remaining reader) IsWritable) }
    ensures row { IfErr result (λ fault.
        (fault.cause ≡ TraceCause.Write) ⊎ (fault.cause ≡ TraceCause.OutOfMemory) → fault.row ≡ 0) }
{
    let trace = read_trace(alloc, reader)?;
    annotate_trace(alloc, &trace, writer)
}

// Annotates this trace.
fn annotate_trace<W: Write>(
    alloc: Global,
    trace: &Trace,
    writer: &mut W,
) -> Result<Annotation, TraceFault>
    ensures annotated { IfOk result (λ told. IsAnnotationOf trace.now told
        (Appends (W.contents writer.old) (W.contents writer.new)) (writer.new ≡ writer.old)) }
    ensures unwritten { IfOk result (λ told. is_written told ≡ false → writer.new ≡ writer.old) }
    ensures fault { IfErr result IsOfWriting }
    ensures silent { IfErr result (λ fault. fault.cause ≡ TraceCause.OutOfMemory → writer.new ≡ writer.old) }
    ensures write { IfErr result (λ fault. fault.cause ≡ TraceCause.Write → IsWritable trace.now) }
{
    match verdict_of(alloc, trace)? {
        Verdict::Lawful(count) => write_lawful(alloc, trace, count, writer),
        verdict => Ok(Annotation::Unlawful(verdict)),
    }
}

// The verdict on this trace.
fn verdict_of(alloc: Global, trace: &Trace) -> Result<Verdict, OutOfMemory>
    ensures { IfOk result (λ verdict. (w : World) × IsVerdict trace.now verdict w) }
{
    let header = Header {
        version: trace.version,
        setup: trace.setup,
    };
    let mut judge = Judge::new(alloc, header)?;
    let mut number = 2;
    for row in trace.rows.as_slice() {
        judge.feed_row(number, row);
        number += 1;
    }
    Ok(judge.verdict())
}

// Writes this trace, which is lawful with so many events, with everything said.
// (first to nobody: that counts its rows, and makes room for its longest line, so that the second time takes no memory)
fn write_lawful<W: Write>(
    alloc: Global,
    trace: &Trace,
    count: u32,
    writer: &mut W,
) -> Result<Annotation, TraceFault>
    requires { (w : World) × IsVerdict trace.now (VerdictState.Lawful count) w }
    ensures annotated { IfOk result (λ told. IsAnnotationOf trace.now told
        (Appends (W.contents writer.old) (W.contents writer.new)) (writer.new ≡ writer.old)) }
    ensures unwritten { IfOk result (λ told. is_written told ≡ false → writer.new ≡ writer.old) }
    ensures fault { IfErr result IsOfWriting }
    ensures silent { IfErr result (λ fault. fault.cause ≡ TraceCause.OutOfMemory → writer.new ≡ writer.old) }
    ensures write { IfErr result (λ fault. fault.cause ≡ TraceCause.Write → IsWritable trace.now) }
{
    let mut line = String::new(alloc);
    if !rehearse(alloc, &mut line, trace)? {
        return Ok(Annotation::TooLong);
    }
    let mut annotator = Annotator::new(alloc, &trace.setup)?;
    match write_annotated(writer, &mut line, &mut annotator, trace) {
        Ok(_) => Ok(Annotation::Written(count)),
        Err(error) => Err(not_written(error)),
    }
}

// Writes this trace, which is lawful, with everything said to nobody, and tells whether it has no more rows than a
// trace may.
fn rehearse(alloc: Global, line: &mut String, trace: &Trace) -> Result<bool, OutOfMemory>
    requires { (count : ℕ) × (w : World) × IsVerdict trace.now (VerdictState.Lawful count) w }
    ensures { IfOk result (IsTraceWritten trace.now (λ _. ⊤)) }
{
    let mut annotator = Annotator::new(alloc, &trace.setup)?;
    match write_annotated(&mut io::sink(), line, &mut annotator, trace) {
        Ok(fits) => Ok(fits),
        Err(_) => Err(AllocError),
    }
}
