//! The rows of traces: what they may say, how they are read, row by row or all of a trace, and how they are written.
//!
//! It builds on bully_calls, whose events the rows have, on the crates below it, and on csv. bully_trace, which judges
//! rows, and the crates above rely on four things. What is read is what the records of csv mean. The first fault of
//! form is the one that is reported. What is written is the text of the rows. And that text is read back.
#![tactic(auto)]

ghost use Rattle.std.specs.Prelude.{◌≡◌};
ghost use Rattle.bully_rows.specs.declared.TheConstants.{ROWS_MAX, FIRST_NODES_MAX, FIRST_PARTITIONS_MAX};
ghost use Rattle.bully_rows.specs.ReadBack.{ReadsBack, ReadsTold};

mod detail;
mod feeding;
mod header;
mod node_event;
mod reading;
mod row;
mod row_reader;
mod saying;
mod text;
mod trace;
mod trace_feeding;
mod words;
mod writing;

pub use detail::{Detail, DetailedEvent};
pub use feeding::{RowSink, feed_each, feed_next};
pub use header::{Header, Version, read_weights, version_for};
pub use node_event::NodeEvent;
pub use reading::read_trace;
pub use row::{number_within, read_coordinator, read_node};
pub use row_reader::{RowReader, no_header};
pub use saying::read_set;
pub use text::{
    push_detailed, push_event, push_header, push_node, push_row, push_set, push_task, push_vector,
};
pub use trace::{Claim, Row, Rows, Trace, TraceCause, TraceFault, WholeClaim};
pub use trace_feeding::{BehindHeader, TraceFeed, TraceSink, feed_text, feed_trace};
pub use words::{
    SAW, answer_word, call_named, call_word, outcome_named, reply_named, status_named, status_word,
};
pub use writing::{not_written, write_trace};

/// The most rows of a trace after its header. The profile's limit.
pub const ROWS_MAX: u32 = 1_000_000;

/// The most nodes that a trace of version 1 has. Versions 2 and 3 have as many as a group may have.
pub const FIRST_NODES_MAX: u16 = 64;

/// The most partitions that a trace of version 1 has. Versions 2 and 3 have as many as a group may have.
pub const FIRST_PARTITIONS_MAX: u16 = 256;

/// The limits in numbers. The definitions cite the constants, and so say as much as these numbers.
pub fn limits()
    ensures rows { ROWS_MAX ≡ 1000000 }
    ensures first_nodes { FIRST_NODES_MAX ≡ 64 }
    ensures first_partitions { FIRST_PARTITIONS_MAX ≡ 256 }
{}

/// The law of what is written and read. What [`write_trace`] writes of a trace that a text can tell means that very
/// trace to [`read_trace`]. Each trace that is read is one that a text can tell, and so is the upgraded one.
pub fn read_back()
    ensures written { ReadsBack }
    ensures read { ReadsTold }
{}
