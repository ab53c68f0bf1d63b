ghost use Rattle.std.specs.Prelude.{◌≡◌, ◌≤◌, [], List, IfErr, IfOk, OnOk, None, Some, length};
ghost use Rattle.bully_replica.specs.RowReplica.{FailsOn, FollowsUpTo, LearnsFields, Stops};
ghost use Rattle.bully_replica.specs.Replica.{HasLearned, first_replica};
ghost use Rattle.bully_rows.specs.Headers.{Record};
ghost use Rattle.bully_rows.specs.Rows.{row_of};
ghost use Rattle.bully_rows.specs.declared.TheConstants.{ROWS_MAX};

use crate::Replica;
use bully_base::OutOfMemory;
use bully_rows::{Header, ROWS_MAX, RowReader, RowSink, TraceCause, TraceFault, feed_each};
use bully_trace::Violation;
use std::alloc::Global;
use std::io::Read;
use std::marker::Model;

/// Why the next row of a log isn't learned.
#[derive(Clone, Copy, PartialEq, Eq, Debug)]
pub enum LearnFault {
    /// It doesn't have the form of a row (`BadRow`), comes after as many rows as a trace may have (`TooManyRows`), or
    /// couldn't be read (`Read`, `OutOfMemory`).
    Form(TraceCause),
    /// This is wrong with the row where it comes in the log.
    Violation(Violation),
}

impl From<TraceFault> for LearnFault {
    ghost use Rattle.std.specs.Prelude.{◌≡◌};
    ghost use Rattle.bully_replica.specs.declared.row_replica.LearnFault.{LearnFault};

    ghost from_gives = { λ fault follow. follow ≡ LearnFault.Form fault.cause };

    fn from(fault: TraceFault) -> LearnFault {
        LearnFault::Form(fault.cause)
    }
}

/// The replica of a log whose rows are read one by one, and how many it learned.
#[derive(Drop)]
pub struct RowReplica {
    replica: Replica,
    rows: u32,
}

impl Model for RowReplica {
    ghost use Rattle.std.specs.Prelude.{◌≤◌};
    ghost use Rattle.bully_replica.specs.RowReplica.{RowReplicaState};
    ghost use Rattle.bully_rows.specs.declared.TheConstants.{ROWS_MAX};

    ghost Value = { RowReplicaState };

    ghost view = { λ f. record { replica = f.replica; rows = f.rows } };

    ghost invariant = { λ f. f.rows ≤ ROWS_MAX };
}

impl RowReplica {
    /// The replica of a log with this header, before any row. It reserves all memory that the events will need. Refused
    /// if an allocation fails.
    pub fn new(alloc: Global, header: Header) -> Result<RowReplica, OutOfMemory>
        ensures ok { IfOk result (λ f. f ≡ record { replica = first_replica header; rows = 0 }) }
        ensures learned { IfOk result (λ f. HasLearned f.replica []) }
    {
        Ok(RowReplica {
            replica: Replica::behind(alloc, header)?,
            rows: 0,
        })
    }

    /// What was learned.
    pub fn replica(&self) -> &Replica
        ensures { result.now ≡ self.now.replica }
    {
        &self.replica
    }

    /// How many rows were learned.
    pub fn rows(&self) -> u32
        ensures { result ≡ self.now.rows }
    {
        self.rows
    }

    /// Learns the rows that the reader still gives, in their order, up to the first that isn't learned, or that can't
    /// be read. Refused, in this order, as `TooManyRows`, after as many rows as a trace may have; as `BadRow`; and as
    /// what is wrong with the row. What was learned before it stays. The rule: docs/FORMATS.md.
    pub fn learn_all<R: Read + Drop>(
        &mut self,
        alloc: Global,
        reader: &mut RowReader<R>,
    ) -> Result<(), LearnFault>
        ensures all { OnOk result ((records : List Record) → reader.old.records ≡ Some records
            → FollowsUpTo records self.old self.new []) }
        ensures part { IfErr result (λ fault. (records : List Record) → reader.old.records ≡ Some records
            → (left : List Record) × FollowsUpTo records self.old self.new left
            × Stops reader.old self.old left self.new fault) }
        ensures counted { self.old.rows ≤ self.new.rows }
        ensures setup { self.new.replica.world.setup ≡ self.old.replica.world.setup }
        ensures within { self.new.rows ≤ ROWS_MAX }
    {
        let taken = feed_each(alloc, reader, self);
        // Shows the proof the invariant of the type.
        let _ = &self.replica;
        taken
    }
}

impl<R: Read + Drop> RowSink<R> for RowReplica {
    ghost use Rattle.std.specs.Prelude.{◌≡◌};
    ghost use Rattle.bully_replica.specs.RowReplica.{FailsBehind, Follows};

    type Fault = LearnFault;

    ghost takes = { λ reader f after. Follows reader.fields f after };

    ghost refuses = { λ reader f after fault. FailsBehind reader.fields f fault × (after ≡ f) };

    fn feed(&mut self, alloc: Global, reader: &RowReader<R>) -> Result<(), LearnFault> {
        if self.rows == ROWS_MAX {
            return Err(LearnFault::Form(TraceCause::TooManyRows));
        }
        learn_read_row(alloc, &mut self.replica, reader)?;
        self.rows += 1;
        Ok(())
    }
}

// Learns the row that was read last.
// (an event that names a node and no more, as most rows do, is never a `Row`, as in `bully_trace::check`)
fn learn_read_row<R: Read + Drop>(
    alloc: Global,
    replica: &mut Replica,
    reader: &RowReader<R>,
) -> Result<(), LearnFault>
    ensures learned { OnOk result (LearnsFields reader.now.fields replica.old replica.new) }
    ensures fault { IfErr result (FailsOn reader.now.fields replica.old) }
    ensures unchanged { IfErr result (λ _. replica.new ≡ replica.old) }
{
    match reader.node_event(replica.version()) {
        Some(event) => match replica.learn_node_event(event) {
            Ok(()) => Ok(()),
            Err(violation) => Err(LearnFault::Violation(violation)),
        },
        None => learn_longer(alloc, replica, reader),
    }
}

// The same, if it is no event that names a node and no more.
#[inline(never)]
fn learn_longer<R: Read + Drop>(
    alloc: Global,
    replica: &mut Replica,
    reader: &RowReader<R>,
) -> Result<(), LearnFault>
    requires { length reader.now.fields ≡ 2
        → row_of replica.old.version replica.old.world.setup reader.now.fields ≡ None }
    ensures learned { OnOk result (LearnsFields reader.now.fields replica.old replica.new) }
    ensures fault { IfErr result (FailsOn reader.now.fields replica.old) }
    ensures unchanged { IfErr result (λ _. replica.new ≡ replica.old) }
{
    match &reader.other_row(alloc, replica.version(), replica.world().setup()) {
        Ok(Some(row)) => match replica.learn_row(row) {
            Ok(()) => Ok(()),
            Err(violation) => Err(LearnFault::Violation(violation)),
        },
        Ok(None) => Err(LearnFault::Form(TraceCause::BadRow)),
        Err(_) => Err(LearnFault::Form(TraceCause::OutOfMemory)),
    }
}
