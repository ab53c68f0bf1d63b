ghost use Rattle.std.specs.Prelude.{◌≡◌};
ghost use Rattle.bully_rows.specs.Trace.{are_short};

use crate::detail::DetailedEvent;
use crate::header::{Version, version_for};
use bully_base::{Node, NodeSet, OutOfMemory, Setup, Status};
use bully_calls::Event;
use bully_table::Table;
use std::alloc::{AllocError, AllocFailed, Global};
use std::fmt;
use std::marker::Model;

/// A claim: at this place of the trace the node's vector shows this status and this coordinator.
#[derive(Clone, Copy, Debug)]
pub struct Claim {
    pub node: Node,
    pub status: Status,
    pub coordinator: Option<Node>,
}

/// A claim that tells all of a node's vector.
// (what it tells is kept apart, so that a row takes no more memory than an event needs)
#[derive(Drop, Debug)]
pub struct WholeClaim {
    told: Box<ToldVector>,
}

// What such a claim tells.
#[derive(Drop, Debug)]
struct ToldVector {
    claim: Claim,
    halter: Option<Node>,
    up: NodeSet,
    task: Option<Table>,
}

impl Model for WholeClaim {
    ghost use Rattle.bully_rows.specs.Whole.{Whole};

    ghost Value = { Whole };

    ghost view = { λ w. record {
      claim = w.told.value.claim;
      halter = w.told.value.halter;
      up = w.told.value.up;
      task = w.told.value.task;
    } };
}

impl WholeClaim {
    ghost use Rattle.std.specs.Prelude.{◌≡◌, IfOk};
    ghost use Rattle.std.specs.Option.{option_copied};

    /// The claim with these. Refused where an allocation fails.
    pub fn new(
        alloc: Global,
        claim: Claim,
        halter: Option<Node>,
        up: NodeSet,
        task: Option<Table>,
    ) -> Result<WholeClaim, OutOfMemory>
        ensures { IfOk result (λ w. w ≡ record { claim = claim; halter = halter; up = up; task = task }) }
    {
        let told = ToldVector {
            claim,
            halter,
            up,
            task,
        };
        Ok(WholeClaim {
            told: Box::new(alloc, told)?,
        })
    }

    /// The node, its status and its coordinator.
    pub fn claim(&self) -> Claim
        ensures { result ≡ self.now.claim }
    {
        self.told.claim
    }

    /// The node that halted it last.
    pub fn halter(&self) -> Option<Node>
        ensures { result ≡ self.now.halter }
    {
        self.told.halter
    }

    /// The lower nodes that answered its halts.
    pub fn up(&self) -> &NodeSet
        ensures { result.now ≡ self.now.up }
    {
        &self.told.up
    }

    /// Its part of the group's task, as the table of all owners.
    pub fn task(&self) -> Option<&Table>
        ensures { option_copied result ≡ self.now.task }
    {
        self.told.task.as_ref()
    }
}

/// A row of a trace after its header. Only one of version 3 has details and whole claims.
#[derive(Drop, Debug)]
pub enum Row {
    Event(Event),
    Detailed(DetailedEvent),
    Claim(Claim),
    Whole(WholeClaim),
}

impl Row {
    ghost use Rattle.std.specs.Prelude.{◌≡◌};
    ghost use Rattle.bully_rows.specs.Trace.{is_short};

    /// Whether it says no more than its event, or than a status and a coordinator.
    pub fn is_short(&self) -> bool
        ensures { result ≡ is_short self.now }
    {
        matches!(self, Row::Event(_) | Row::Claim(_))
    }
}

/// The rows of a trace after its header, in order: at most [`ROWS_MAX`].
#[derive(Drop, Debug)]
pub struct Rows {
    rows: Vec<Row>,
}

impl Model for Rows {
    ghost use Rattle.std.specs.Prelude.{◌≤◌, List, length};
    ghost use Rattle.bully_rows.specs.declared.TheConstants.{ROWS_MAX};
    ghost use Rattle.bully_rows.specs.declared.trace.Row.{Row};

    ghost Value = { List Row };

    ghost view = { λ r. r.rows.items };

    ghost invariant = { λ r. length r.rows.items ≤ ROWS_MAX };
}

impl Rows {
    ghost use Rattle.std.specs.Prelude.{◌≡◌, ◌≤◌, length};
    ghost use Rattle.bully_rows.specs.declared.TheConstants.{ROWS_MAX};
    ghost use Rattle.bully_rows.specs.Trace.{version_with};

    /// These rows. They are at most [`ROWS_MAX`].
    pub fn from_vec(rows: Vec<Row>) -> Rows
        requires { length rows.items ≤ ROWS_MAX }
        ensures { result ≡ rows.items }
    {
        Rows { rows }
    }

    // The version, where no row says more, and else version 3.
    fn version_with(&self, version: Version) -> Version
        ensures { result ≡ version_with version self.now }
    {
        if are_short(&self.rows) {
            version
        } else {
            Version::Three
        }
    }

    /// The rows, in order.
    pub fn into_vec(self) -> Vec<Row>
        ensures { result.items ≡ self }
    {
        self.rows
    }

    /// The rows, in order.
    pub fn as_slice(&self) -> &[Row]
        ensures rows { result.now ≡ self.now }
        ensures within { length result.now ≤ ROWS_MAX }
    {
        &self.rows
    }
}

// Whether no row says more.
fn are_short(rows: &[Row]) -> bool
    ensures { result ≡ are_short rows.now }
{
    rows.iter().all(|row| row.is_short())
}

/// A trace: its version, the setup that its header tells, and its rows. Version 1 goes only with a setup in which all
/// nodes weigh 1 and no task is kept over a crash, and rows that say more only with version 3.
#[derive(Drop, Debug)]
pub struct Trace {
    pub version: Version,
    pub setup: Setup,
    pub rows: Rows,
}

impl Model for Trace {
    ghost use Rattle.bully_rows.specs.Headers.{IsVersionFor};
    ghost use Rattle.bully_rows.specs.Trace.{AreRowsFor, Trace as TraceState};

    ghost Value = { TraceState };

    ghost view = { λ t. record { version = t.version; setup = t.setup; rows = t.rows } };

    ghost invariant = { λ t. IsVersionFor t.version t.setup × AreRowsFor t.version t.rows };
}

impl Trace {
    ghost use Rattle.std.specs.Prelude.{◌≡◌};
    ghost use Rattle.bully_rows.specs.Trace.{trace_for, upgraded};

    /// The trace of this setup with these rows, in the first version that can tell the setup and the rows.
    #[tactic(auto, using(crate::proofs::HeaderLemmas::version_fits_rows))]
    pub fn new(setup: Setup, rows: Rows) -> Trace
        ensures { result ≡ trace_for setup rows }
    {
        let version = rows.version_with(version_for(&setup));
        Trace {
            version,
            setup,
            rows,
        }
    }

    /// The trace with the same setup and the same rows in the first version after 1 that can tell them.
    #[tactic(auto, using(crate::proofs::HeaderLemmas::two_fits_rows))]
    pub fn upgraded(self) -> Trace
        ensures { result ≡ upgraded self }
    {
        let Trace {
            version: _,
            setup,
            rows,
        } = self;
        Trace {
            version: rows.version_with(Version::Two),
            setup,
            rows,
        }
    }
}

/// Why a trace isn't read or written. The first three are faults of its form.
#[derive(Clone, Copy, PartialEq, Eq, Debug)]
pub enum TraceCause {
    /// The first row is no header of version 1, 2 or 3.
    BadHeader,
    /// The row has no form that the profile lists.
    BadRow,
    /// It is a row after the most that a trace has, whatever it holds.
    TooManyRows,
    /// The reader failed.
    Read,
    /// The writer failed.
    Write,
    /// An allocation failed.
    OutOfMemory,
}

/// The cause's name.
impl fmt::Display for TraceCause {
    ghost use Rattle.std.specs.Prelude.{Some};
    ghost use Rattle.bully_rows.specs.TraceText.{trace_cause_text};

    ghost output = { λ cause. Some (trace_cause_text cause) };

    fn fmt<W: fmt::Write>(&self, f: &mut fmt::Formatter<W>) -> fmt::Result {
        f.write_str(match self {
            TraceCause::BadHeader => "BadHeader",
            TraceCause::BadRow => "BadRow",
            TraceCause::TooManyRows => "TooManyRows",
            TraceCause::Read => "Read",
            TraceCause::Write => "Write",
            TraceCause::OutOfMemory => "OutOfMemory",
        })
    }
}

/// The row at which a trace is at fault, counted from 1, and why. A failed read has the row after those that
/// were read; a failed write and want of memory have row 0.
#[derive(Clone, Copy, PartialEq, Eq, Debug)]
pub struct TraceFault {
    pub row: u32,
    pub cause: TraceCause,
}

impl From<AllocError> for TraceFault {
    ghost use Rattle.std.specs.Prelude.{◌≡◌};
    ghost use Rattle.bully_rows.specs.Rows.{no_memory};

    ghost from_gives = { λ _ fault. fault ≡ no_memory };

    fn from(_: AllocError) -> TraceFault {
        TraceFault {
            row: 0,
            cause: TraceCause::OutOfMemory,
        }
    }
}

impl<T: Drop> From<AllocFailed<T>> for TraceFault {
    ghost use Rattle.std.specs.Prelude.{◌≡◌};
    ghost use Rattle.bully_rows.specs.Rows.{no_memory};

    ghost from_gives = { λ _ fault. fault ≡ no_memory };

    fn from(_: AllocFailed<T>) -> TraceFault {
        TraceFault::from(AllocError)
    }
}
