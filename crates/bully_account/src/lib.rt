//! What the rows of a trace came to: the judge that took them, what is remembered of each node's rows, what the world
//! has of each node, which kinds of event are possible there, and what is told of the trace, a verdict or its first
//! fault of form.
//!
//! It builds on bully_trace, whose judge decides, and on the crates below it. bully_explain, which makes the sheet of
//! all this, relies on five things. The verdict is that of `check`. What is shown of a node is what the world before
//! the row has of it. The kinds of event that are listed as possible are those that nothing refuses. What is remembered
//! of a node is its last rows. And nothing is told if a read fails. That `csv` reports where a row ends is tested.
#![tactic(auto)]

mod account;
mod memory;
mod moving;
mod order;
mod possible;
mod reading;
mod showing;
mod tail;
mod telling;

pub use account::{Account, Stop};
pub use bully_calls::EventKind;
pub use memory::{Memory, Note, What};
pub use possible::possible_now;
pub use showing::{NodeSheet, NodeSummary, node_sheet, shown_of};
pub use tail::{TailReader, line_of, opened_at};
pub use telling::{TraceReport, tell};

/// How many of its last rows a node has remembered.
pub const ROWS_KEPT: usize = 5;

/// How many of the bytes that a reader gave last are kept: as many as `csv` asks for at once.
pub const BYTES_KEPT: usize = 8192;
