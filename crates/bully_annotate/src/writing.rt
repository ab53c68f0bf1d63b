//! The writing of a trace with everything said.
ghost use Rattle.std.specs.Prelude.{◌≡◌, ◌≤◌, ◌∷◌, ℕ, List, IfOk, OnOk};
ghost use Rattle.std.specs.Io.KnownBytes.{Appends};
ghost use Rattle.bully_annotate.specs.Says.{IsLawfulFrom, IsSomewhereLawful, IsTraceWritten, IsWrittenOf, Says};
ghost use Rattle.bully_rows.specs.declared.header.Version.{Version as VersionOf};
ghost use Rattle.bully_rows.specs.declared.trace.Row.{Row as RowState};
ghost use Rattle.bully_rows.specs.TraceText.{header_fields, line_of};
ghost use Rattle.bully_trace.specs.Verdict.{IsVerdict};
ghost use Rattle.bully_trace.specs.declared.verdict.Verdict.{Verdict as VerdictState};
ghost use Rattle.bully_world.specs.State.{world_of};
ghost use Rattle.bully_world.specs.World.{World, first_world};

use crate::annotator::Annotator;
use bully_base::Setup;
use bully_rows::{ROWS_MAX, Row, Trace, Version, push_header};
use std::io;
use std::io::Write;

/// Writes the lawful trace with everything said, by an annotator that took no row yet, line by line. Tells whether it
/// has no more rows than a trace may, and writes no further than that. Each line is made in `line`, which keeps its
/// room.
pub fn write_annotated<W: Write>(
    writer: &mut W,
    line: &mut String,
    annotator: &mut Annotator,
    trace: &Trace,
) -> io::Result<bool>
    requires lawful { (count : ℕ) × (w : World) × IsVerdict trace.now (VerdictState.Lawful count) w }
    requires setup { annotator.old.setup ≡ trace.now.setup }
    requires first { world_of annotator.old ≡ first_world trace.now.setup }
    requires none { annotator.old.events ≡ 0 }
    ensures { IfOk result (IsTraceWritten trace.now (Appends (W.contents writer.old) (W.contents writer.new))) }
{
    write_header(writer, line, &trace.setup)?;
    write_rows(writer, line, annotator, trace.rows.as_slice())
}

// Writes the header of a trace in which everything is said.
fn write_header<W: Write>(writer: &mut W, line: &mut String, setup: &Setup) -> io::Result<()>
    ensures { OnOk result
        (Appends (W.contents writer.old) (W.contents writer.new) (line_of (header_fields VersionOf.Three setup.now))) }
{
    line.clear();
    push_header(line, Version::Three, setup)?;
    writer.write_all(line.as_bytes())
}

// Writes the rows with everything said, and tells whether they are no more than a trace may have.
fn write_rows<W: Write>(
    writer: &mut W,
    line: &mut String,
    annotator: &mut Annotator,
    rows: &[Row],
) -> io::Result<bool>
    requires { IsSomewhereLawful annotator.old rows.now }
    ensures { IfOk result
        (IsWrittenOf annotator.old rows.now (Appends (W.contents writer.old) (W.contents writer.new))) }
{
    let mut count = 0;
    for row in rows {
        count += write_row(writer, line, annotator, row)?;
        if count > ROWS_MAX {
            return Ok(false);
        }
    }
    Ok(true)
}

// Writes the row with everything said, and tells how many rows that is.
fn write_row<W: Write>(
    writer: &mut W,
    line: &mut String,
    annotator: &mut Annotator,
    row: &Row,
) -> io::Result<u32>
    ensures said { (number : ℕ) (more : List RowState) (after : ℕ) (w : World)
        → IsLawfulFrom annotator.old number (row.now ∷ more) after w
        → IfOk result (Says annotator.old annotator.new number row.now more after w
        (Appends (W.contents writer.old) (W.contents writer.new))) }
    ensures few { IfOk result (λ count. count ≤ 2) }
{
    line.clear();
    let count = annotator.say(line, row)?;
    writer.write_all(line.as_bytes())?;
    Ok(count)
}
