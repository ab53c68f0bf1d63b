ghost use Rattle.std.specs.Prelude.{◌≡◌, true, false, IfErr, IfOk, OnOk};
ghost use Rattle.bully_rows.specs.Feeding.{AllTaken, IsLast, IsNext, StopsBehind, StopsNext};

use crate::row_reader::RowReader;
use crate::trace::TraceFault;
use std::alloc::Global;
use std::io::Read;

/// A sink of rows, one by one, as a reader gives them.
pub trait RowSink<R: Read + Drop> {
    ghost use Rattle.std.specs.Prelude.{IfErr, OnOk};
    ghost use Rattle.bully_rows.specs.RecordsLeft.{ReadSoFar};

    /// Why a row isn't taken, or can't be read.
    type Fault: From<TraceFault>;

    // What it does to take the row that was read last.
    ghost takes: { ReadSoFar → Self → Self → Type 0 };

    // Why it doesn't take it, and what that does.
    ghost refuses: { ReadSoFar → Self → Self → Self.Fault → Type 0 };

    /// Takes the row that was read last.
    fn feed(&mut self, alloc: Global, rows: &RowReader<R>) -> Result<(), Self::Fault>
        ensures takes { OnOk result (takes rows.now self.old self.new) }
        ensures refuses { IfErr result (refuses rows.now self.old self.new) };
}

/// Has the next row taken, and tells whether there is one. Refused if it can't be read, as [`RowReader::advance`]
/// refuses it, or if it isn't taken.
// (inlined, so that the reading and what each sink does are built into one loop)
#[inline(always)]
pub fn feed_next<R: Read + Drop, T: RowSink<R>>(
    alloc: Global,
    rows: &mut RowReader<R>,
    sink: &mut T,
) -> Result<bool, T::Fault>
    ensures taken { IfOk result (λ found. found ≡ true
        → IsNext rows.old rows.new × T.takes rows.new sink.old sink.new) }
    ensures ended { IfOk result (λ found. found ≡ false → IsLast rows.old rows.new × (sink.new ≡ sink.old)) }
    ensures refused { IfErr result (StopsNext T.refuses T.Fault.from_gives rows.old sink.old rows.new sink.new) }
{
    if !rows.advance()? {
        return Ok(false);
    }
    match sink.feed(alloc, rows) {
        Ok(()) => Ok(true),
        Err(fault) => Err(fault),
    }
}

/// Has the rows taken that are still to be read, in their order, up to the end or to the first that [`feed_next`]
/// refuses.
pub fn feed_each<R: Read + Drop, T: RowSink<R>>(
    alloc: Global,
    rows: &mut RowReader<R>,
    sink: &mut T,
) -> Result<(), T::Fault>
    ensures all { OnOk result (AllTaken T.takes rows.old sink.old rows.new sink.new) }
    ensures part { IfErr result (StopsBehind T.takes T.refuses T.Fault.from_gives rows.old sink.old rows.new sink.new) }
{
    while feed_next(alloc, rows, sink)? {}
    Ok(())
}
