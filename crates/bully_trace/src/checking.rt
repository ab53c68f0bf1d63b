ghost use Rattle.std.specs.Prelude.{◌≡◌, ◌≢◌, ◌⊎◌, ◌++◌, List, IfOk, IfErr, OnOk};
ghost use Rattle.std.specs.Io.KnownBytes.{Appends};
ghost use Rattle.std.specs.String.{string_bytes};
ghost use Rattle.bully_rows.specs.Rows.{HasNoFault, IsFirstFault, IsOfWriting, IsReadAtItsRow, OfTrace};
ghost use Rattle.bully_base.specs.Setup.{Setup as SetupState};
ghost use Rattle.bully_rows.specs.declared.trace.Row.{Row as RowState};
ghost use Rattle.bully_trace.specs.Judging.{AreAllJudged, HasJudged};
ghost use Rattle.bully_rows.specs.RecordsLeft.{EndsReading};
ghost use Rattle.bully_trace.specs.Verdict.{IsJudged, IsLawfulCount, AgreesAfterEachRow};
ghost use Rattle.bully_trace.specs.Recorded.{RecordedAgreement};
ghost use Rattle.bully_trace.specs.VerdictText.{IsJudgedAs, verdict_text, node_lines};
ghost use Rattle.bully_world.specs.State.{world_of};
ghost use Rattle.bully_world.specs.World.{first_world};

use crate::Verdict;
use crate::judging::Judge;
use crate::verdict_text::{push_node_line, push_verdict_head};
use bully_base::{Node, OutOfMemory};
use bully_rows::{
    Header, NodeEvent, Row, RowReader, TraceCause, TraceFault, TraceSink, feed_trace, not_written,
};
use bully_world::World;
use std::alloc::Global;
use std::io::{Read, Write};

/// Judges a trace and writes the verdict, and where it is lawful a line for each node. Each row is judged as it is
/// read, and none is kept: the memory that it takes is that of a world. All rows are read before anything is written.
/// Refused as [`crate::read_trace`] refuses the trace, and then nothing was written, whatever the verdict on the rows
/// before the faulty one; as `OutOfMemory` where the world or the text can't be made, with nothing written; then as
/// `Write`, and then a prefix of the text may have been written. The last two are at row 0.
pub fn check<R: Read + Drop, W: Write>(
    alloc: Global,
    reader: R,
    writer: &mut W,
) -> Result<Verdict, TraceFault>
    ensures verdict { IfOk result (λ verdict. IsJudgedAs (R.remaining reader) verdict
        (Appends (W.contents writer.old) (W.contents writer.new))) }
    ensures lawful { IfOk result (λ verdict. OfTrace (R.remaining reader)
        (λ trace. IsLawfulCount trace verdict)) }
    ensures agreement { IfOk result (λ verdict. OfTrace (R.remaining reader)
        (λ trace. AgreesAfterEachRow trace verdict)) }
    ensures recorded { IfOk result (λ verdict. OfTrace (R.remaining reader)
        (λ trace. RecordedAgreement trace verdict)) }
    ensures fault { IfErr result (IsFirstFault (R.remaining reader)) }
    ensures behind { IfErr result (IsReadAtItsRow (R.remaining reader)) }
    ensures silent { IfErr result (λ fault.
        fault.cause ≢ TraceCause.Write → writer.new ≡ writer.old) }
    ensures read { IfErr result (λ fault.
        fault.cause ≡ TraceCause.Write → HasNoFault (R.remaining reader)) }
    ensures row { IfErr result (λ fault.
        (fault.cause ≡ TraceCause.Write) ⊎ (fault.cause ≡ TraceCause.OutOfMemory) → fault.row ≡ 0) }
{
    let judge = judge_text(alloc, reader)?;
    write_verdict(alloc, &judge, writer)
}

/// The judge of all rows of a text, which holds none of them. Refused as [`check`] is, but for writing.
pub fn judge_text<R: Read + Drop>(alloc: Global, reader: R) -> Result<Judge, TraceFault>
    ensures judged { IfOk result (AreAllJudged (R.remaining reader)) }
    ensures fault { IfErr result (EndsReading (R.remaining reader)) }
{
    let mut rows = RowReader::open(alloc, reader);
    feed_trace(alloc, &mut rows, ())
}

// (an event that names a node and no more is judged in the loop over the rows, and is never a `Row`)
impl<R: Read + Drop> TraceSink<R, ()> for Judge {
    ghost use Rattle.bully_trace.specs.Judging.{HasJudgedBehind};

    ghost has_taken = { λ _. HasJudgedBehind };

    fn begin(alloc: Global, _start: (), header: Header) -> Result<Judge, OutOfMemory> {
        Judge::new(alloc, header)
    }

    #[inline(always)]
    fn feed_read_event(
        &mut self,
        _alloc: Global,
        rows: &RowReader<R>,
        event: NodeEvent,
    ) -> Result<(), OutOfMemory> {
        self.feed_node_event(rows.number(), event);
        Ok(())
    }

    fn feed_read_row(
        &mut self,
        _alloc: Global,
        rows: &RowReader<R>,
        row: Row,
    ) -> Result<(), OutOfMemory> {
        self.feed_row(rows.number(), &row);
        Ok(())
    }
}

// Writes the verdict of the judge, and tells it.
fn write_verdict<W: Write>(
    alloc: Global,
    judge: &Judge,
    writer: &mut W,
) -> Result<Verdict, TraceFault>
    ensures verdict { (setup : SetupState) (rows : List RowState) → HasJudged setup rows judge.now
        → IfOk result (λ verdict. IsJudged setup (first_world setup) 0 2 rows verdict (world_of judge.now.world)) }
    ensures text { IfOk result (λ verdict. Appends (W.contents writer.old) (W.contents writer.new)
        (verdict_text judge.now.world.setup verdict (world_of judge.now.world))) }
    ensures fault { IfErr result IsOfWriting }
    ensures silent { IfErr result (λ fault. fault.cause ≡ TraceCause.OutOfMemory → writer.new ≡ writer.old) }
{
    let verdict = judge.verdict();
    let text = verdict_lines(alloc, verdict, judge.world())?;
    match writer.write_all(text.as_bytes()) {
        Ok(()) => Ok(verdict),
        Err(error) => Err(not_written(error)),
    }
}

/// The text of the verdict, after which the world is so: what [`check`] writes. Refused where an allocation fails.
pub fn verdict_lines(alloc: Global, verdict: Verdict, world: &World) -> Result<String, OutOfMemory>
    ensures { IfOk result (λ text. string_bytes text ≡ verdict_text world.now.setup verdict (world_of world.now)) }
{
    let mut text = String::new(alloc);
    push_verdict_head(&mut text, verdict)?;
    if let Verdict::Lawful(_) = verdict {
        push_nodes(&mut text, world)?;
    }
    Ok(text)
}

// The lines of all nodes.
fn push_nodes(text: &mut String, world: &World) -> Result<(), OutOfMemory>
    ensures { OnOk result (string_bytes text.new ≡ string_bytes text.old
        ++ node_lines (world_of world.now) world.now.setup.nodes) }
{
    for before in 0..world.setup().nodes() {
        let node = Node::new(before + 1).unwrap();
        push_node_line(text, node, world.vector(node))?;
    }
    Ok(())
}
